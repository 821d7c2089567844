//! The rules on registers and the stack: PC, SP, SR, pops and pushes.

ghost use Rattle.std.specs.Prelude.{◌≡◌, ◌<◌, ◌≤◌, ◌↔◌, IsTrue};
ghost use Rattle.msp_encode.specs.Forms.{WritesReg};
ghost use Rattle.code_model.specs.declared.object.TheConstants.{CODE_WORDS_MAX};
ghost use Rattle.code_model.specs.declared.guards.GuardKind.TheVariants as kind;
ghost use Rattle.static_checker.specs.Cursors.{IsCursor};
ghost use Rattle.code_model.specs.Rules.{IsBranch, NamesFlags, ChangesFlags, ReadsStack, IsPushOrCall};

use crate::cursor::{Cursor, unrelocated};
use code_model::forms::is_flags;
use code_model::guards::GuardKind;
use code_model::object::Object;
use msp_encode::instr::{Instr, Src};
use msp_encode::registers::{PC, SP, SR};

/// Tells whether a guard is of this kind.
fn is_by(guard: Option<GuardKind>, by: GuardKind) -> bool
    ensures { IsTrue result ↔ (guard ≡ Some by) }
{
    match guard {
        Some(kind) => kind == by,
        None => false,
    }
}

/// Tells whether PC is written by another instruction than `MOV #imm,PC`.
pub fn breaks_pc(i: Instr) -> bool
    ensures { IsTrue result ↔ (WritesReg i 0 × (IsBranch i → ⊥)) }
{
    i.writes_reg(PC) && !is_branch(i)
}

/// Tells whether SP is written without its guard.
pub fn breaks_sp(i: Instr, guard: Option<GuardKind>) -> bool
    ensures { IsTrue result ↔ (WritesReg i 1 × (guard ≡ Some kind.Sp → ⊥)) }
{
    i.writes_reg(SP) && !is_by(guard, GuardKind::Sp)
}

/// Tells whether more of SR than the flags is written.
pub fn breaks_sr(o: &Object, cursor: Cursor, at: usize, i: Instr) -> bool
    requires cursor { IsCursor o.now.relocs cursor }
    requires order { cursor.at ≤ at }
    requires within { at < CODE_WORDS_MAX }
    ensures { IsTrue result ↔ (WritesReg i 2 × (ChangesFlags o.now at i → ⊥)) }
{
    i.writes_reg(SR) && !changes_flags(o, cursor, at, i)
}

/// Tells whether the stack is popped without a guard.
pub fn breaks_pop(i: Instr, guard: Option<GuardKind>) -> bool
    ensures { IsTrue result ↔ (ReadsStack i × (guard ≡ Some kind.Pop → ⊥)) }
{
    reads_stack(i) && !is_by(guard, GuardKind::Pop)
}

/// Tells whether the stack is pushed without a guard.
pub fn breaks_push(i: Instr, guard: Option<GuardKind>) -> bool
    ensures { IsTrue result ↔ (IsPushOrCall i × (guard ≡ Some kind.Growth → ⊥)) }
{
    is_push_or_call(i) && !is_by(guard, GuardKind::Growth)
}

/// Tells whether an instruction is `MOV #imm,PC`.
pub fn is_branch(i: Instr) -> bool
    ensures { IsTrue result ↔ IsBranch i }
{
    match i {
        Instr::Two {
            op,
            width,
            src,
            dst,
        } => op.is_mov() && width.is_wide() && src.is_immediate() && dst.is_reg(PC),
        _ => false,
    }
}

/// Tells whether an instruction at a place changes flags alone, by a named mask.
fn changes_flags(o: &Object, cursor: Cursor, at: usize, i: Instr) -> bool
    requires cursor { IsCursor o.now.relocs cursor }
    requires order { cursor.at ≤ at }
    requires within { at < CODE_WORDS_MAX }
    ensures { IsTrue result ↔ ChangesFlags o.now at i }
{
    match i {
        Instr::Two { op, width, src, .. } => op.is_bis_or_bic()
            && width.is_wide()
            && names_flags(o, cursor, at, src),
        _ => false,
    }
}

/// Tells whether the source of an instruction at a place is a constant or an unrelocated immediate within the flags.
fn names_flags(o: &Object, cursor: Cursor, at: usize, src: Src) -> bool
    requires cursor { IsCursor o.now.relocs cursor }
    requires order { cursor.at ≤ at }
    requires within { at < CODE_WORDS_MAX }
    ensures { IsTrue result ↔ NamesFlags o.now at src }
{
    match src {
        Src::Const(constant) => is_flags(constant.value()),
        Src::Immediate(x) => unrelocated(o, cursor, at + 1) && is_flags(x),
        _ => false,
    }
}

/// Tells whether @SP+ is read.
fn reads_stack(i: Instr) -> bool
    ensures { IsTrue result ↔ ReadsStack i }
{
    match i {
        Instr::Two { src, .. } | Instr::One { src, .. } => src.pops(SP),
        _ => false,
    }
}

/// Tells whether an instruction is PUSH or CALL.
fn is_push_or_call(i: Instr) -> bool
    ensures { IsTrue result ↔ IsPushOrCall i }
{
    match i {
        Instr::One { op, .. } => op.stacks(),
        _ => false,
    }
}
