//! The pass over the code, from unit to unit.
//!
//! Its state has a fixed size: the place, the index of the next relocation, the guard that is begun there with the number of
//! its words so far, two bitmaps, and the first refusal. All that it has found is of the places gone by.

ghost use Rattle.std.specs.Prelude.{◌≡◌, ℕ, ◌+◌, ◌<◌, ◌≤◌, ◌↔◌, IsTrue, length, MatchResult, MatchOption};
ghost use Rattle.kernel_model.specs.Bitmap.{Has};
ghost use Rattle.code_model.specs.declared.object.TheConstants.{CODE_WORDS_MAX};
ghost use Rattle.code_model.specs.Starts.{Bad};
ghost use Rattle.static_checker.specs.Cursors.{IsCursor};
ghost use Rattle.static_checker.specs.Firsts.{IsLocal, FirstIn};
ghost use Rattle.static_checker.specs.Marked.{Adds};
ghost use Rattle.static_checker.specs.CodeUnits.{NoGuardAcross, IsUnitSpot, IsNextInstr, IsNextServed, HasServed, IsBehind, IsCodeUnit, IsTransfer};
ghost use Rattle.static_checker.specs.Passed.{IsReached, IsGone, UnitsBelow, IsPassed, IsWhole};

use crate::code_units::{Advance, BegunGuard, CodeUnit, advance_from};
use crate::cursor::{Cursor, at_start, go_to};
use crate::guards::{most_served, served_at};
use crate::local::first_refusal;
use crate::marking::mark;
use crate::refusal::Refusal;
use crate::registers::is_branch;
use code_model::guards::GuardKind;
use code_model::marks::Marks;
use code_model::object::Object;
use msp_encode::instr::Instr;

/// How far the pass over the code has come, and what it found there.
#[derive(Drop)]
pub struct Pass {
    /// The place that it has come to, the first of a unit.
    pub cursor: Cursor,
    /// The guard that is begun there, if one is.
    pub begun: Option<BegunGuard>,
    /// The unit starts gone by.
    pub units: Marks,
    /// The places gone by of jumps, branches and calls that are none of a guard's own.
    pub transfers: Marks,
    /// The first refusal at the places gone by, by the rules that need no target.
    pub first: Option<Refusal>,
}

/// The pass over the whole code, or the place where it stops, since no instruction stands there.
pub fn pass_over(o: &Object) -> Result<Pass, usize>
    ensures { MatchResult result (λ p. IsWhole o.now p) (λ at. Bad o.now.code at) }
{
    let cursor = at_start();
    let units = Marks::new();
    let transfers = Marks::new();
    let mut pass = Pass {
        cursor,
        begun: None,
        units,
        transfers,
        first: None,
    };
    while pass.cursor.at < o.code.len() {
        match advance_from(o, pass.cursor, pass.begun) {
            Advance::Word(begun) => pass.begun = Some(begun),
            Advance::Whole(unit) => pass_unit(o, &mut pass, unit),
            Advance::Stop => return Err(pass.cursor.at),
        }
    }
    Ok(pass)
}

/// Goes over one unit: its first place is a unit start, and its instructions meet the rules or not.
fn pass_unit(o: &Object, pass: &mut Pass, unit: CodeUnit)
    requires passed { IsPassed o.now pass.old }
    requires unit { IsCodeUnit o.now pass.old.cursor.at unit }
    ensures passed { IsPassed o.now pass.new }
    ensures further { pass.old.cursor.at < pass.new.cursor.at }
    ensures free { pass.new.begun ≡ None }
{
    let from = pass.cursor;
    mark(&mut pass.units, from.at);
    pass.begun = None;
    pass_run(o, pass, from, unit);
}

/// Goes over the first instruction of a unit that begins at a cursor, and over what else its guard serves.
fn pass_run(o: &Object, pass: &mut Pass, from: Cursor, first: CodeUnit)
    requires cursor { IsCursor o.now.relocs from }
    requires order { from.at ≤ pass.old.cursor.at }
    requires gone { IsGone o.now pass.old }
    requires first { IsNextInstr o.now pass.old.cursor.at first }
    requires behind { IsBehind o.now from.at first.guard 1 (first.spot.at + first.spot.words) }
    requires units { UnitsBelow o.now pass.old.units (first.spot.at + first.spot.words) }
    requires free { pass.old.begun ≡ None }
    ensures passed { IsPassed o.now pass.new }
    ensures further { pass.old.cursor.at < pass.new.cursor.at }
    ensures free { pass.new.begun ≡ None }
{
    let mut next = Some(first);
    let mut served = 0;
    while let Some(unit) = next {
        pass_instr(o, pass, &unit);
        served += 1;
        next = next_served(o, from, unit.guard, served, pass.cursor.at);
    }
}

/// The next instruction that a guard at a cursor serves, where it has served so many up to a place. None exactly where no
/// guard goes on over the place.
fn next_served(
    o: &Object,
    from: Cursor,
    guard: Option<GuardKind>,
    served: usize,
    at: usize,
) -> Option<CodeUnit>
    requires cursor { IsCursor o.now.relocs from }
    requires order { from.at ≤ at }
    requires reached { IsReached o.now.code at }
    requires behind { IsBehind o.now from.at guard served at }
    ensures { MatchOption result (NoGuardAcross o.now at) (λ u. IsNextServed o.now from.at served at u) }
{
    match guard {
        Some(kind) => next_by(o, from, kind, served, at),
        None => None,
    }
}

/// The next instruction that this guard at a cursor serves.
fn next_by(o: &Object, from: Cursor, kind: GuardKind, served: usize, at: usize) -> Option<CodeUnit>
    requires cursor { IsCursor o.now.relocs from }
    requires order { from.at ≤ at }
    requires reached { IsReached o.now.code at }
    requires served { HasServed o.now kind from.at served at }
    ensures { MatchOption result (NoGuardAcross o.now at) (λ u. IsNextServed o.now from.at served at u) }
{
    if most_served(kind) <= served {
        return None;
    }
    match served_at(o, from, kind, at) {
        Some(spot) => Some(CodeUnit {
            spot,
            guard: Some(kind),
        }),
        None => None,
    }
}

/// Goes over one instruction, behind its guard's own words if these stand before it.
fn pass_instr(o: &Object, pass: &mut Pass, unit: &CodeUnit)
    requires gone { IsGone o.now pass.old }
    requires next { IsNextInstr o.now pass.old.cursor.at unit.now }
    ensures gone { IsGone o.now pass.new }
    ensures at { pass.new.cursor.at ≡ unit.now.spot.at + unit.now.spot.words }
    ensures units { pass.new.units ≡ pass.old.units }
    ensures begun { pass.new.begun ≡ pass.old.begun }
{
    let here = go_to(o, pass.cursor, unit.spot.at);
    mark_transfer(&mut pass.transfers, unit.spot.at, unit.spot.instr);
    pass.first = first_through(o, here, pass.first, unit);
    pass.cursor = go_to(o, here, unit.spot.at + unit.spot.words);
}

/// Marks the place of a jump, a branch or a call.
fn mark_transfer(transfers: &mut Marks, at: usize, i: Instr)
    requires { at < CODE_WORDS_MAX }
    ensures { Adds transfers.old transfers.new (λ k. (k ≡ at) × IsTransfer i) }
{
    if is_transfer(i) {
        mark(transfers, at);
    }
}

/// Tells whether an instruction is a jump, a branch or a call.
fn is_transfer(i: Instr) -> bool
    ensures { IsTrue result ↔ IsTransfer i }
{
    match i {
        Instr::Two { .. } => is_branch(i),
        Instr::One { op, .. } => op.is_call(),
        Instr::Jump { .. } => true,
        Instr::Reti => false,
    }
}

/// The first refusal before a unit, or else the first on its instruction.
fn first_through(
    o: &Object,
    cursor: Cursor,
    first: Option<Refusal>,
    unit: &CodeUnit,
) -> Option<Refusal>
    requires cursor { IsCursor o.now.relocs cursor }
    requires at { cursor.at ≡ unit.now.spot.at }
    requires here { IsUnitSpot o.now unit.now }
    requires first { FirstIn o.now IsLocal 0 unit.now.spot.at first }
    ensures { FirstIn o.now IsLocal 0 (unit.now.spot.at + unit.now.spot.words) result }
{
    match first {
        Some(refusal) => Some(refusal),
        None => first_refusal(o, cursor, unit),
    }
}
