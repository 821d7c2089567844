//! Instructions that have no unit.

ghost use Rattle.std.specs.Prelude.{ℕ, ◌<◌, ◌↔◌, IsTrue};
ghost use Rattle.msp_encode.specs.declared.registers.TheConstants.{PC, SR};
ghost use Rattle.msp_encode.specs.Forms.{WritesReg};
ghost use Rattle.insert_model.specs.Faults.{IsCheck, SrcUsesCheck, DstUsesCheck, UsesCheck, NamesFlags, ChangesFlags, SetsPc, ReadsPc, HasSymbolic, IsSpecial, HasBadOperand, IsNoPopTarget, HasForbiddenPop, StepsBase, HasForbiddenStore, IsWrongWord, IsWrongWithin, HasWrongWord, HasForbiddenWrite, HasForbiddenRead, IsForbidden};

use crate::forms::{is_auto_inc, is_memory, is_symbolic_dst, is_symbolic_src, sets_pc};
use code_model::forms::is_flags;
use code_model::parts::RelKind;
use insert_model::line::Line;
use msp_encode::instr::{Dst, Instr, Src};
use msp_encode::registers::{CHECKED, KEPT_STATUS, PC, SP, SR};
use static_checker::operand_words::carries;

/// Tells whether an operand names R4 or R5.
pub(crate) fn uses_check(i: Instr) -> bool
    ensures { IsTrue result ↔ UsesCheck i }
{
    match i {
        Instr::Two { src, dst, .. } => src_uses_check(src) || dst_uses_check(dst),
        Instr::One { src, .. } => src_uses_check(src),
        _ => false,
    }
}

fn src_uses_check(src: Src) -> bool
    ensures { IsTrue result ↔ SrcUsesCheck src }
{
    match src {
        Src::Reg(n) | Src::Indexed(n, _) | Src::Indirect(n) | Src::AutoInc(n) => is_check(n),
        _ => false,
    }
}

fn dst_uses_check(dst: Dst) -> bool
    ensures { IsTrue result ↔ DstUsesCheck dst }
{
    match dst {
        Dst::Reg(n) | Dst::Indexed(n, _) => is_check(n),
        _ => false,
    }
}

fn is_check(register: u8) -> bool
    ensures { IsTrue result ↔ IsCheck register }
{
    register == CHECKED || register == KEPT_STATUS
}

/// Tells whether a line has no unit.
pub(crate) fn is_forbidden(line: &Line) -> bool
    ensures { IsTrue result ↔ IsForbidden line.now }
{
    has_forbidden_write(line)
        || has_forbidden_read(line)
        || has_forbidden_pop(line.instr)
        || has_forbidden_store(line.instr)
        || has_wrong_word(line)
}

/// Tells whether a line is RETI, or writes SR or PC as no unit does.
fn has_forbidden_write(line: &Line) -> bool
    ensures { IsTrue result ↔ HasForbiddenWrite line.now }
{
    line.instr.is_reti() || has_forbidden_status_write(line) || has_forbidden_pc_write(line.instr)
}

fn has_forbidden_status_write(line: &Line) -> bool
    ensures { IsTrue result ↔ (WritesReg line.now.instr SR × (ChangesFlags line.now.instr line.now.second → ⊥)) }
{
    line.instr.writes_reg(SR) && !changes_flags(line.instr, line.second)
}

fn has_forbidden_pc_write(i: Instr) -> bool
    ensures { IsTrue result ↔ (WritesReg i PC × (SetsPc i → ⊥)) }
{
    i.writes_reg(PC) && !sets_pc(i)
}

/// Tells whether an instruction is BIS or BIC of a word, of flags alone.
fn changes_flags(i: Instr, kind: Option<RelKind>) -> bool
    ensures { IsTrue result ↔ ChangesFlags i kind }
{
    match i {
        Instr::Two { op, width, src, .. } => {
            op.is_bis_or_bic() && width.is_wide() && names_flags(src, kind)
        }
        _ => false,
    }
}

/// Tells whether a source is a constant or an unrelocated immediate with flags alone.
fn names_flags(src: Src, kind: Option<RelKind>) -> bool
    ensures { IsTrue result ↔ NamesFlags src kind }
{
    match src {
        Src::Const(constant) => is_flags(constant.value()),
        Src::Immediate(x) => kind.is_none() && is_flags(x),
        _ => false,
    }
}

/// Tells whether a line has an operand that no unit has.
fn has_forbidden_read(line: &Line) -> bool
    ensures { IsTrue result ↔ HasForbiddenRead line.now }
{
    reads_pc(line.instr) || has_symbolic(line.instr) || has_bad_operand(line.instr)
}

/// Tells whether PC is read in register mode.
fn reads_pc(i: Instr) -> bool
    ensures { IsTrue result ↔ ReadsPc i }
{
    match i {
        Instr::Two { op, src, dst, .. } => src.is_reg(PC) || dst.is_reg(PC) && !op.is_mov(),
        Instr::One { src, .. } => src.is_reg(PC),
        _ => false,
    }
}

fn has_symbolic(i: Instr) -> bool
    ensures { IsTrue result ↔ HasSymbolic i }
{
    match i {
        Instr::Two { src, dst, .. } => is_symbolic_src(src) || is_symbolic_dst(dst),
        Instr::One { src, .. } => is_symbolic_src(src),
        _ => false,
    }
}

/// Tells whether an operation writes PC, SP or SR as its one operand, or memory through autoincrement.
fn has_bad_operand(i: Instr) -> bool
    ensures { IsTrue result ↔ HasBadOperand i }
{
    match i {
        Instr::One { op, src, .. } => op.changes() && (is_special(src) || is_auto_inc(src)),
        _ => false,
    }
}

fn is_special(src: Src) -> bool
    ensures { IsTrue result ↔ IsSpecial src }
{
    src.is_reg(PC) || src.is_reg(SP) || src.is_reg(SR)
}

/// Tells whether @SP+ is the source of PUSH, of CALL, or of an operation that writes SP, SR or memory.
fn has_forbidden_pop(i: Instr) -> bool
    ensures { IsTrue result ↔ HasForbiddenPop i }
{
    match i {
        Instr::Two { op, src, dst, .. } => src.pops(SP) && op.writes() && is_no_pop_target(dst),
        Instr::One { op, src, .. } => op.stacks() && src.pops(SP),
        _ => false,
    }
}

fn is_no_pop_target(dst: Dst) -> bool
    ensures { IsTrue result ↔ IsNoPopTarget dst }
{
    dst.is_reg(SP) || dst.is_reg(SR) || is_memory(dst)
}

/// Tells whether a store's source steps the base of its destination.
fn has_forbidden_store(i: Instr) -> bool
    ensures { IsTrue result ↔ HasForbiddenStore i }
{
    match i {
        Instr::Two { op, src, dst, .. } => op.writes() && steps_base(src, dst),
        _ => false,
    }
}

fn steps_base(src: Src, dst: Dst) -> bool
    ensures { IsTrue result ↔ StepsBase src dst }
{
    match (src, dst) {
        (Src::AutoInc(n), Dst::Indexed(m, _)) => n == m,
        _ => false,
    }
}

/// Tells whether a word of a line has a relocation that it may not have.
fn has_wrong_word(line: &Line) -> bool
    ensures { IsTrue result ↔ HasWrongWord line.now }
{
    is_wrong_within(line, 0) || is_wrong_within(line, 1) || is_wrong_within(line, 2)
}

/// Tells whether a line has this word, counted from 0, with a relocation that it may not have.
fn is_wrong_within(line: &Line, word: usize) -> bool
    requires { word < 3 }
    ensures { IsTrue result ↔ IsWrongWithin line.now word }
{
    word < line.instr.words() && is_wrong_word(line, word)
}

/// Tells whether this word of a line, counted from 0, has a relocation that it may not have.
fn is_wrong_word(line: &Line, word: usize) -> bool
    requires { word < 3 }
    ensures { IsTrue result ↔ IsWrongWord line.now word }
{
    let kind = match word {
        0 => line.first,
        1 => line.second,
        _ => line.third,
    };
    match kind {
        Some(kind) => !carries(line.instr, word, kind),
        None => false,
    }
}
