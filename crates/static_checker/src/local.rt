//! The rules that an instruction and what stands before it decide: those on its form, its registers, its writes, its words with
//! relocations, and the code's end.

ghost use Rattle.std.specs.Prelude.{◌≡◌, ℕ, ◌+◌, ◌<◌, ◌≤◌, ◌↔◌, IsTrue, length};
ghost use Rattle.msp_encode.specs.declared.instr.Instr.{Instr};
ghost use Rattle.code_model.specs.Rules.{number, Breaks, Refuses};
ghost use Rattle.static_checker.specs.Cursors.{IsCursor};
ghost use Rattle.static_checker.specs.Firsts.{IsLocal, NoneIn, FirstIn, FirstBelow};
ghost use Rattle.static_checker.specs.CodeUnits.{IsUnitSpot, IsPlain};
ghost use Rattle.static_checker.specs.Spots.{IsStartSpot};

use crate::code_units::CodeUnit;
use crate::cursor::{Cursor, go_to};
use crate::operand_words::has_wrong_reloc;
use crate::refusal::Refusal;
use crate::registers::{breaks_pc, breaks_pop, breaks_push, breaks_sp, breaks_sr};
use crate::spot::Spot;
use crate::stores::{breaks_store, writes_wild};
use crate::targets::runs_off;
use code_model::object::Object;
use code_model::rules::Rule;
use msp_encode::instr::{Dst, Instr};
use msp_encode::registers::SP;

/// The first refusal of these rules on the words of an instruction, the cursor being at it. None exactly where there is none.
pub fn first_refusal(o: &Object, cursor: Cursor, unit: &CodeUnit) -> Option<Refusal>
    requires cursor { IsCursor o.now.relocs cursor }
    requires at { cursor.at ≡ unit.now.spot.at }
    requires here { IsUnitSpot o.now unit.now }
    ensures { FirstIn o.now IsLocal unit.now.spot.at (unit.now.spot.at + unit.now.spot.words) result }
{
    if is_clean(o, cursor, &unit.spot) {
        return None;
    }
    match first_rule(o, cursor, unit) {
        Some(rule) => Some(Refusal {
            at: unit.spot.at,
            rule,
        }),
        None => first_wrong_reloc(o, cursor, &unit.spot),
    }
}

/// Tells of an instruction, the cursor being at it, that it writes a register alone or jumps, that no relocation stands on
/// its words, and that it doesn't end the code.
fn is_clean(o: &Object, cursor: Cursor, spot: &Spot) -> bool
    requires cursor { IsCursor o.now.relocs cursor }
    requires at { cursor.at ≡ spot.now.at }
    requires spot { IsStartSpot o.now.code spot.now }
    ensures { IsTrue result → NoneIn o.now IsLocal spot.now.at (spot.now.at + spot.now.words) }
{
    if !is_plain(spot.instr) {
        return false;
    }
    let end = spot.at + spot.words;
    if o.code.len() <= end {
        return false;
    }
    go_to(o, cursor, end).reloc == cursor.reloc
}

/// Tells whether an instruction writes none but the registers from R4 on, and doesn't read the stack, or is a jump.
fn is_plain(i: Instr) -> bool
    ensures { IsTrue result ↔ IsPlain i }
{
    match i {
        Instr::Two {
            src,
            dst: Dst::Reg(n),
            ..
        } => 4 <= n && !src.pops(SP),
        Instr::Jump { .. } => true,
        _ => false,
    }
}

/// The first rule that refuses at an instruction. None exactly where none does.
fn first_rule(o: &Object, cursor: Cursor, unit: &CodeUnit) -> Option<Rule>
    requires cursor { IsCursor o.now.relocs cursor }
    requires order { cursor.at ≤ unit.now.spot.at }
    requires here { IsUnitSpot o.now unit.now }
    ensures { FirstBelow o.now IsLocal unit.now.spot.at 15 result }
{
    let found = next_rule(None, Rule::Spelled, o, cursor, unit);
    let found = next_rule(found, Rule::Reti, o, cursor, unit);
    let found = next_rule(found, Rule::Pc, o, cursor, unit);
    let found = next_rule(found, Rule::Sp, o, cursor, unit);
    let found = next_rule(found, Rule::Sr, o, cursor, unit);
    let found = next_rule(found, Rule::Store, o, cursor, unit);
    let found = next_rule(found, Rule::Static, o, cursor, unit);
    let found = next_rule(found, Rule::Pop, o, cursor, unit);
    let found = next_rule(found, Rule::Push, o, cursor, unit);
    let found = next_rule(found, Rule::Target, o, cursor, unit);
    let found = next_rule(found, Rule::Jump, o, cursor, unit);
    let found = next_rule(found, Rule::End, o, cursor, unit);
    let found = next_rule(found, Rule::Reloc, o, cursor, unit);
    next_rule(found, Rule::Entry, o, cursor, unit)
}

/// The rule that was found, or else the next, if it refuses.
#[inline(always)]
fn next_rule(
    found: Option<Rule>,
    next: Rule,
    o: &Object,
    cursor: Cursor,
    unit: &CodeUnit,
) -> Option<Rule>
    requires cursor { IsCursor o.now.relocs cursor }
    requires order { cursor.at ≤ unit.now.spot.at }
    requires here { IsUnitSpot o.now unit.now }
    requires found { FirstBelow o.now IsLocal unit.now.spot.at (number next) found }
    ensures { FirstBelow o.now IsLocal unit.now.spot.at (number next + 1) result }
{
    match found {
        Some(rule) => Some(rule),
        None => if refuses(next, o, cursor, unit) {
            Some(next)
        } else {
            None
        },
    }
}

/// Tells whether a rule is one of these and refuses at an instruction.
#[inline(always)]
fn refuses(rule: Rule, o: &Object, cursor: Cursor, unit: &CodeUnit) -> bool
    requires cursor { IsCursor o.now.relocs cursor }
    requires order { cursor.at ≤ unit.now.spot.at }
    requires here { IsUnitSpot o.now unit.now }
    ensures { IsTrue result ↔ (IsLocal rule × Refuses rule o.now unit.now.spot.at) }
{
    match rule {
        Rule::Spelled | Rule::Target | Rule::Jump | Rule::Entry => false,
        Rule::Reloc => has_wrong_reloc(o, cursor, &unit.spot, 0),
        _ => breaks(rule, o, cursor, unit),
    }
}

/// Tells whether an instruction breaks one of these rules that is on instructions.
#[inline(always)]
fn breaks(rule: Rule, o: &Object, cursor: Cursor, unit: &CodeUnit) -> bool
    requires cursor { IsCursor o.now.relocs cursor }
    requires order { cursor.at ≤ unit.now.spot.at }
    requires here { IsUnitSpot o.now unit.now }
    requires local { IsLocal rule }
    ensures { IsTrue result ↔ Breaks rule o.now unit.now.spot.at unit.now.spot.instr unit.now.spot.words }
{
    let i = unit.spot.instr;
    match rule {
        Rule::Reti => i.is_reti(),
        Rule::Pc => breaks_pc(i),
        Rule::Sp => breaks_sp(i, unit.guard),
        Rule::Sr => breaks_sr(o, cursor, unit.spot.at, i),
        Rule::Store => breaks_store(i, unit.guard),
        Rule::Static => writes_wild(o, cursor, unit.spot.at, i),
        Rule::Pop => breaks_pop(i, unit.guard),
        Rule::Push => breaks_push(i, unit.guard),
        Rule::End => runs_off(o, unit.spot.at, i, unit.spot.words),
        _ => false,
    }
}

/// The first word of an instruction behind its first that has a relocation that it may not have.
fn first_wrong_reloc(o: &Object, cursor: Cursor, spot: &Spot) -> Option<Refusal>
    requires cursor { IsCursor o.now.relocs cursor }
    requires order { cursor.at ≤ spot.now.at }
    requires spot { IsStartSpot o.now.code spot.now }
    requires none { NoneIn o.now IsLocal spot.now.at (spot.now.at + 1) }
    ensures { FirstIn o.now IsLocal spot.now.at (spot.now.at + spot.now.words) result }
{
    if 1 < spot.words && has_wrong_reloc(o, cursor, spot, 1) {
        return Some(Refusal {
            at: spot.at + 1,
            rule: Rule::Reloc,
        });
    }
    if 2 < spot.words && has_wrong_reloc(o, cursor, spot, 2) {
        return Some(Refusal {
            at: spot.at + 2,
            rule: Rule::Reloc,
        });
    }
    None
}
