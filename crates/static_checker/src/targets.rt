//! The rules on where code goes: targets of branches, calls and jumps, and the code's end.

ghost use Rattle.std.specs.Prelude.{◌≡◌, ℕ, ◌+◌, ◌*◌, ◌<◌, ◌≤◌, ◌↔◌, IsTrue, length};
ghost use Rattle.code_model.specs.declared.object.TheConstants.{CODE_WORDS_MAX};
ghost use Rattle.code_model.specs.declared.parts.RelKind.TheVariants.{Code};
ghost use Rattle.code_model.specs.Relocs.{HasReloc};
ghost use Rattle.code_model.specs.Guards.{UnitStart, AreUnits};
ghost use Rattle.static_checker.specs.Cursors.{IsCursor};
ghost use Rattle.code_model.specs.Rules.{IsJumpEntry, IsCallEntry, IsUnitOffset, IsBranchTarget, IsCallTarget, TransferMissesTarget, IsJumpTarget, JumpMissesUnit, RunsOff};

use crate::cursor::{Cursor, has_reloc, unrelocated};
use crate::marking::{is_marked, jump_place};
use crate::registers::is_branch;
use code_model::marks::Marks;
use code_model::object::{CODE_BYTES_MAX, Object};
use code_model::parts::{Kind, RelKind};
use kernel_model::entries::{CALLS, EMITS, GOES, LEAVE, STACK_FAULT, STORE_FAULT, TICKS};
use msp_encode::instr::{Instr, Src};

/// Tells whether an instruction at a place is a branch or a call without an allowed target.
pub fn transfer_misses_target(
    o: &Object,
    cursor: Cursor,
    units: &Marks,
    at: usize,
    i: Instr,
) -> bool
    requires cursor { IsCursor o.now.relocs cursor }
    requires order { cursor.at ≤ at }
    requires units { AreUnits o.now units.now }
    requires within { at < CODE_WORDS_MAX }
    ensures { IsTrue result ↔ TransferMissesTarget o.now at i }
{
    match i {
        Instr::Two { src, .. } => is_branch(i) && !is_branch_target(o, cursor, units, at + 1, src),
        Instr::One { op, src, .. } => op.is_call()
            && !is_call_target(o, cursor, units, at + 1, src),
        _ => false,
    }
}

/// Tells whether an instruction at a place is a jump to no unit start.
pub fn jump_misses_unit(o: &Object, units: &Marks, at: usize, i: Instr) -> bool
    requires units { AreUnits o.now units.now }
    requires within { at < CODE_WORDS_MAX }
    ensures { IsTrue result ↔ JumpMissesUnit o.now at i }
{
    match i {
        Instr::Jump { offset, .. } => !is_jump_target(o, units, at, offset),
        _ => false,
    }
}

/// Tells whether an instruction of so many words at a place ends the code, and the code could run on behind it.
pub fn runs_off(o: &Object, at: usize, i: Instr, words: usize) -> bool
    requires { at + words ≤ length o.now.code }
    ensures { IsTrue result ↔ RunsOff o.now at i words }
{
    at + words == o.code.len() && !i.is_jmp() && !is_branch(i)
}

/// Tells whether a branch's operand, whose word is at a place, is an allowed target.
fn is_branch_target(o: &Object, cursor: Cursor, units: &Marks, at: usize, src: Src) -> bool
    requires cursor { IsCursor o.now.relocs cursor }
    requires order { cursor.at ≤ at }
    requires units { AreUnits o.now units.now }
    requires within { at < 32768 }
    ensures { IsTrue result ↔ IsBranchTarget o.now at src }
{
    match src {
        Src::Immediate(x) => is_code_target(o, cursor, units, at, x)
            || (unrelocated(o, cursor, at) && is_jump_entry(o.kind, x)),
        _ => false,
    }
}

/// Tells whether a call's operand, whose word is at a place, is an allowed target.
fn is_call_target(o: &Object, cursor: Cursor, units: &Marks, at: usize, src: Src) -> bool
    requires cursor { IsCursor o.now.relocs cursor }
    requires order { cursor.at ≤ at }
    requires units { AreUnits o.now units.now }
    requires within { at < 32768 }
    ensures { IsTrue result ↔ IsCallTarget o.now at src }
{
    match src {
        Src::Immediate(x) => is_code_target(o, cursor, units, at, x)
            || (unrelocated(o, cursor, at) && is_call_entry(o.kind, x)),
        _ => false,
    }
}

/// Tells whether the word at a place is the offset of a unit start, to which the code's address is added.
fn is_code_target(o: &Object, cursor: Cursor, units: &Marks, at: usize, word: u16) -> bool
    requires cursor { IsCursor o.now.relocs cursor }
    requires order { cursor.at ≤ at }
    requires units { AreUnits o.now units.now }
    requires within { at < 32768 }
    ensures { IsTrue result ↔ (HasReloc o.now.relocs at Code × IsUnitOffset o.now word) }
{
    has_reloc(o, cursor, at, RelKind::Code) && is_unit_offset(o, units, word)
}

/// Tells whether a word is the offset of a unit start.
fn is_unit_offset(o: &Object, units: &Marks, word: u16) -> bool
    requires { AreUnits o.now units.now }
    ensures { IsTrue result ↔ IsUnitOffset o.now word }
{
    if word % 2 == 1 {
        return false;
    }
    if CODE_BYTES_MAX <= word {
        return false;
    }
    is_marked(units, usize::from(word / 2))
}

/// Tells whether a jump at a place goes to a unit start.
fn is_jump_target(o: &Object, units: &Marks, at: usize, offset: i16) -> bool
    requires units { AreUnits o.now units.now }
    requires within { at < CODE_WORDS_MAX }
    ensures { IsTrue result ↔ IsJumpTarget o.now at offset }
{
    match jump_place(at, offset) {
        Some(target) => is_marked(units, target),
        None => false,
    }
}

/// Tells whether a branch may go to this kernel entry.
fn is_jump_entry(kind: Kind, entry: u16) -> bool
    ensures { IsTrue result ↔ IsJumpEntry kind entry }
{
    match kind {
        Kind::App => matches!(entry, STORE_FAULT | STACK_FAULT | GOES),
        Kind::Module => matches!(entry, STORE_FAULT | STACK_FAULT | GOES | LEAVE),
    }
}

/// Tells whether a call may go to this kernel entry.
fn is_call_entry(kind: Kind, entry: u16) -> bool
    ensures { IsTrue result ↔ IsCallEntry kind entry }
{
    match kind {
        Kind::App => CALLS <= entry && entry <= EMITS && entry % 2 == 0,
        Kind::Module => entry == CALLS || entry == TICKS,
    }
}
