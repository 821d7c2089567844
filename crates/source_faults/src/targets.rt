//! Targets that aren't any.

ghost use Rattle.std.specs.Prelude.{◌≡◌, ◌≢◌, ℕ, ◌+◌, ◌<◌, ◌≤◌, ◌⊎◌, ◌↔◌, IsTrue, length, None, Some};
ghost use Rattle.msp_encode.specs.Spelling.{src_words, dst_words};
ghost use Rattle.code_model.specs.declared.object.TheConstants.{CODE_WORDS_MAX};
ghost use Rattle.code_model.specs.Starts.{AreStarts};
ghost use Rattle.code_model.specs.Rules.{IsJumpEntry, IsCallEntry};
ghost use Rattle.msp_encode.specs.Spelled.{count};
ghost use Rattle.insert_model.specs.Source.{own};
ghost use Rattle.insert_model.specs.Faults.{IsStartOffset, JumpMisses, IsSourceJump, IsSourceCall, NamesStart, IsSourceTarget, IsSourceCallee, MissesTarget, MissesCallee, TransferMisses, WordMisses, OperandsMiss, PieceMisses, RunsOut, GoesWrong};
ghost use Rattle.source_faults.specs.Read.{IsWhole};

use crate::forms::sets_pc;
use crate::source::own;
use crate::starts::{is_jump_start, is_start_offset};
use code_model::marks::Marks;
use code_model::object::Object;
use code_model::parts::{Kind, RelKind};
use insert_model::line::Line;
use insert_model::piece::Piece;
use kernel_model::entries::{EMITS, EXITS, LEAVE, STACK_FAULT, STORE_FAULT, TICKS};
use msp_encode::instr::{Dst, Instr, Src};

/// Tells whether a line has a target that isn't one, or the code could run on behind it where it ends.
pub(crate) fn goes_wrong(o: &Object, starts: &Marks, line: &Line) -> bool
    requires starts { AreStarts o.now.code starts.now }
    requires whole { IsWhole o.now line.now }
    ensures { IsTrue result ↔ GoesWrong o.now line.now }
{
    if jump_misses(o, starts, line) {
        return true;
    }
    if transfer_misses(o, starts, line) {
        return true;
    }
    if piece_misses(o, starts, own(line)) {
        return true;
    }
    runs_out(o, line)
}

/// Tells whether a line is a jump to no start.
fn jump_misses(o: &Object, starts: &Marks, line: &Line) -> bool
    requires starts { AreStarts o.now.code starts.now }
    requires within { line.now.at < CODE_WORDS_MAX }
    ensures { IsTrue result ↔ JumpMisses o.now.code line.now.at line.now.instr }
{
    match line.instr {
        Instr::Jump { offset, .. } => !is_jump_start(o, starts, line.at, offset),
        _ => false,
    }
}

/// Tells whether a line is a move to PC or a call without an allowed target.
fn transfer_misses(o: &Object, starts: &Marks, line: &Line) -> bool
    requires { AreStarts o.now.code starts.now }
    ensures { IsTrue result ↔ TransferMisses o.now line.now line.now.instr }
{
    match line.instr {
        Instr::Two { src, .. } => {
            sets_pc(line.instr) && misses_target(o, starts, src, line.second)
        }
        Instr::One { op, src, .. } => op.is_call() && misses_callee(o, starts, src, line.second),
        _ => false,
    }
}

fn misses_target(o: &Object, starts: &Marks, src: Src, kind: Option<RelKind>) -> bool
    requires { AreStarts o.now.code starts.now }
    ensures { IsTrue result ↔ MissesTarget o.now src kind }
{
    match src {
        Src::Immediate(x) => !is_source_target(o, starts, x, kind),
        Src::Const(_) => true,
        _ => false,
    }
}

fn misses_callee(o: &Object, starts: &Marks, src: Src, kind: Option<RelKind>) -> bool
    requires { AreStarts o.now.code starts.now }
    ensures { IsTrue result ↔ MissesCallee o.now src kind }
{
    match src {
        Src::Immediate(x) => !is_source_callee(o, starts, x, kind),
        _ => false,
    }
}

/// Tells whether a word with this relocation is where source may branch to.
fn is_source_target(o: &Object, starts: &Marks, word: u16, kind: Option<RelKind>) -> bool
    requires { AreStarts o.now.code starts.now }
    ensures { IsTrue result ↔ IsSourceTarget o.now word kind }
{
    names_start(o, starts, word, kind) || (kind.is_none() && is_source_jump(o.kind, word))
}

/// Tells whether a word with this relocation is what source may call.
fn is_source_callee(o: &Object, starts: &Marks, word: u16, kind: Option<RelKind>) -> bool
    requires { AreStarts o.now.code starts.now }
    ensures { IsTrue result ↔ IsSourceCallee o.now word kind }
{
    names_start(o, starts, word, kind) || (kind.is_none() && is_source_call(o.kind, word))
}

/// Tells whether the code's address is added to a word, and it is the offset of a start.
fn names_start(o: &Object, starts: &Marks, word: u16, kind: Option<RelKind>) -> bool
    requires { AreStarts o.now.code starts.now }
    ensures { IsTrue result ↔ NamesStart o.now.code word kind }
{
    is_code(kind) && is_start_offset(o, starts, word)
}

fn is_code(kind: Option<RelKind>) -> bool
    ensures { IsTrue result ↔ (kind ≡ Some RelKind.Code) }
{
    matches!(kind, Some(RelKind::Code))
}

/// Tells whether source may branch to this kernel entry.
fn is_source_jump(kind: Kind, entry: u16) -> bool
    ensures { IsTrue result ↔ IsSourceJump kind entry }
{
    match kind {
        Kind::App => matches!(entry, STORE_FAULT | STACK_FAULT),
        Kind::Module => matches!(entry, STORE_FAULT | STACK_FAULT | LEAVE),
    }
}

/// Tells whether source may call this kernel entry.
fn is_source_call(kind: Kind, entry: u16) -> bool
    ensures { IsTrue result ↔ IsSourceCall kind entry }
{
    match kind {
        Kind::App => EXITS <= entry && entry <= EMITS && entry % 2 == 0,
        Kind::Module => entry == TICKS,
    }
}

/// Tells whether the code's address is added to an operand's word that isn't the offset of a start.
fn piece_misses(o: &Object, starts: &Marks, piece: Piece) -> bool
    requires { AreStarts o.now.code starts.now }
    ensures { IsTrue result ↔ PieceMisses o.now.code piece }
{
    match piece.instr {
        Instr::Two { src, dst, .. } => {
            source_misses(o, starts, src, piece.source)
                || destination_misses(o, starts, dst, piece.destination)
        }
        Instr::One { src, .. } => source_misses(o, starts, src, piece.source),
        _ => false,
    }
}

fn source_misses(o: &Object, starts: &Marks, src: Src, kind: Option<RelKind>) -> bool
    requires { AreStarts o.now.code starts.now }
    ensures { IsTrue result ↔ WordMisses o.now.code kind (src_words src) }
{
    match src {
        Src::Indexed(_, word) | Src::Symbolic(word) | Src::Absolute(word) | Src::Immediate(word) =>
            { word_misses(o, starts, word, kind) }
        Src::Reg(_) | Src::Indirect(_) | Src::AutoInc(_) | Src::Const(_) => false,
    }
}

fn destination_misses(o: &Object, starts: &Marks, dst: Dst, kind: Option<RelKind>) -> bool
    requires { AreStarts o.now.code starts.now }
    ensures { IsTrue result ↔ WordMisses o.now.code kind (dst_words dst) }
{
    match dst {
        Dst::Indexed(_, word) | Dst::Symbolic(word) | Dst::Absolute(word) => {
            word_misses(o, starts, word, kind)
        }
        Dst::Reg(_) => false,
    }
}

fn word_misses(o: &Object, starts: &Marks, word: u16, kind: Option<RelKind>) -> bool
    requires { AreStarts o.now.code starts.now }
    ensures { IsTrue result ↔ ((kind ≡ Some RelKind.Code) × (IsStartOffset o.now.code word → ⊥)) }
{
    is_code(kind) && !is_start_offset(o, starts, word)
}

/// Tells whether a line ends the code, and the code could run on behind it.
fn runs_out(o: &Object, line: &Line) -> bool
    requires { IsWhole o.now line.now }
    ensures { IsTrue result ↔ RunsOut o.now.code line.now }
{
    line.at + line.instr.words() == o.code.len() && !line.instr.is_jmp() && !sets_pc(line.instr)
}
