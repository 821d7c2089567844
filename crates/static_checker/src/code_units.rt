//! The units that the pass goes by, and the guard that is begun where it stands.
//!
//! A unit is an instruction that no guard guards, or a guard's words with the instructions that it guards. The pass stands at
//! the first word of the next unit and stays there while a guard is begun. So a guard that breaks off leaves nothing to undo:
//! its first instruction is taken as one like others, and the pass goes on behind that. Here a guard is found with the first
//! instruction that it guards; the pass goes on over the others.

ghost use Rattle.std.specs.Prelude.{◌≡◌, ◌+◌, ◌<◌, ◌≤◌, length, Option};
ghost use Rattle.code_model.specs.declared.guards.GuardKind.{GuardKind};
ghost use Rattle.code_model.specs.Starts.{Start};
ghost use Rattle.code_model.specs.Guards.{guard_words};
ghost use Rattle.static_checker.specs.Cursors.{IsCursor};
ghost use Rattle.static_checker.specs.CodeUnits.{NoGuardFrom, NoGuardAcross};
ghost use Rattle.static_checker.specs.declared.code_units.BegunGuard.{BegunGuard};
ghost use Rattle.static_checker.specs.Advances.{IsBegun, BegunAt, IsAdvance};

use crate::cursor::Cursor;
use crate::guards::{kind_at, serving};
use crate::slots::{FIRST_WORD, fits, slot};
use crate::spot::{Spot, spot_at, word_at};
use code_model::guards::GuardKind;
use code_model::object::Object;

/// A guard that is begun, and how many of its words stand there so far. A load guard has a store guard's words, and is begun as
/// one.
#[derive(Clone, Copy, Drop)]
pub struct BegunGuard {
    pub kind: GuardKind,
    pub words: usize,
}

/// An instruction that is none of a guard's own, and the guard that stands before it, if one does.
#[derive(Drop)]
pub struct CodeUnit {
    pub spot: Spot,
    pub guard: Option<GuardKind>,
}

/// How the pass goes on.
#[derive(Drop)]
pub enum Advance {
    /// One more word may be a guard's.
    Word(BegunGuard),
    /// A unit stands there.
    Whole(CodeUnit),
    /// No instruction stands there.
    Stop,
}

/// How the pass goes on from a start up to which no guard's words go on, with a guard begun there or none.
pub fn advance_from(o: &Object, cursor: Cursor, begun: Option<BegunGuard>) -> Advance
    requires cursor { IsCursor o.now.relocs cursor }
    requires start { Start o.now.code cursor.at }
    requires clear { NoGuardAcross o.now cursor.at }
    requires begun { BegunAt o.now cursor.at begun }
    ensures { IsAdvance o.now cursor.at begun result }
{
    match begun {
        None => begin_guard(o, cursor.at),
        Some(begun) => continue_guard(o, cursor, begun),
    }
}

/// Begins a guard at its first word, or else takes the instruction that stands there alone.
fn begin_guard(o: &Object, at: usize) -> Advance
    requires start { Start o.now.code at }
    requires clear { NoGuardAcross o.now at }
    ensures { IsAdvance o.now at None result }
{
    if word_at(&o.code, at) == FIRST_WORD {
        Advance::Word(BegunGuard {
            kind: kind_at(o, at),
            words: 0,
        })
    } else {
        unguarded_unit(o, at)
    }
}

/// Goes on with a guard by its next word, or by the instruction behind its words. Where the guard breaks off, its first
/// instruction is one like others.
fn continue_guard(o: &Object, cursor: Cursor, begun: BegunGuard) -> Advance
    requires cursor { IsCursor o.now.relocs cursor }
    requires start { Start o.now.code cursor.at }
    requires clear { NoGuardAcross o.now cursor.at }
    requires begun { IsBegun o.now cursor.at begun }
    ensures { IsAdvance o.now cursor.at (Some begun) result }
{
    match slot(begun.kind, begun.words) {
        Some(slot) => {
            if fits(o, cursor, cursor.at + begun.words, slot) {
                Advance::Word(BegunGuard {
                    kind: begun.kind,
                    words: begun.words + 1,
                })
            } else {
                unguarded_unit(o, cursor.at)
            }
        }
        None => guarded_unit(o, cursor, begun),
    }
}

/// Goes on from a guard's words to the instruction behind them.
fn guarded_unit(o: &Object, cursor: Cursor, begun: BegunGuard) -> Advance
    requires cursor { IsCursor o.now.relocs cursor }
    requires start { Start o.now.code cursor.at }
    requires clear { NoGuardAcross o.now cursor.at }
    requires begun { IsBegun o.now cursor.at begun }
    requires whole { begun.words ≡ length (guard_words begun.kind) }
    ensures { IsAdvance o.now cursor.at (Some begun) result }
{
    let first = cursor.at;
    let at = first + begun.words;
    if o.code.len() <= at {
        return unguarded_unit(o, first);
    }
    match spot_at(&o.code, at) {
        Some(spot) => match serving(begun.kind, o, cursor, at, spot.instr) {
            Some(kind) => Advance::Whole(CodeUnit {
                spot,
                guard: Some(kind),
            }),
            None => unguarded_unit(o, first),
        },
        None => unguarded_unit(o, first),
    }
}

/// Takes the instruction that stands at a start where no guard begins.
#[tactic(auto, using(crate::proofs::UnitLemmas::free_unit))]
fn unguarded_unit(o: &Object, at: usize) -> Advance
    requires start { Start o.now.code at }
    requires clear { NoGuardAcross o.now at }
    requires none { (g : GuardKind) → NoGuardFrom o.now at g }
    ensures { (begun : Option BegunGuard) → IsAdvance o.now at begun result }
{
    match spot_at(&o.code, at) {
        Some(spot) => Advance::Whole(CodeUnit { spot, guard: None }),
        None => Advance::Stop,
    }
}
