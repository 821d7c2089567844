//! The instruction that begins with a word, whatever words are there behind it.

ghost use Rattle.std.specs.Prelude.{◌≡◌, ◌+◌, ◌/◌, ◌%◌, ◌<◌, [], ◌∷◌, ℤ, length, MatchOption};
ghost use Rattle.msp_encode.specs.declared.instr.Op1.{Op1};
ghost use Rattle.msp_encode.specs.declared.instr.Op2.{Op2};
ghost use Rattle.msp_encode.specs.declared.instr.Cond.{Cond};
ghost use Rattle.msp_encode.specs.declared.instr.Width.{Width};
ghost use Rattle.msp_encode.specs.declared.instr.Src.{Src};
ghost use Rattle.msp_encode.specs.declared.instr.Dst.{Dst};
ghost use Rattle.msp_encode.specs.declared.instr.Instr.{Instr};
ghost use Rattle.msp_encode.specs.Spelling.{TwoFields, OneFields, JumpFields, OffsetRow, First, words_after};
ghost use Rattle.msp_decode.specs.Reading.{Leads};

use crate::fields::{
    destination_mode, high_register, jump_code, low_register, one_code, source_mode, two_code,
    width,
};
use crate::operand::{destination, source};
use crate::operation::{condition, one as operation_of_one, two as operation_of_two};
use msp_encode::instr::{Dst, Instr, Src};
use msp_encode::legality::{takes, takes_width};

/// A jump's offset, -512 to 511: bits 9 to 0 with their sign.
fn offset(word: u16) -> i16
    ensures { OffsetRow result (word % 1024) }
{
    let ten_bits = (word & 1023) as i16;
    if ten_bits < 512 {
        ten_bits
    } else {
        ten_bits - 1024
    }
}

/// The instruction of two operands that begins with a word.
#[inline(always)]
fn two(word: u16, first: u16, second: u16) -> Option<Instr>
    ensures { MatchOption result
        ((op : Op2) (width : Width) (src : Src) (dst : Dst) → TwoFields op width src dst word → ⊥)
        (λ i. First i word × Leads (words_after i) (first ∷ second ∷ [])) }
{
    let op = operation_of_two(two_code(word))?;
    let src = source(high_register(word), source_mode(word), first)?;
    let behind = if src.words() == 0 { first } else { second };
    let dst = destination(low_register(word), destination_mode(word), behind)?;
    Some(Instr::Two {
        op,
        width: width(word),
        src,
        dst,
    })
}

/// The instruction of one operand that begins with a word.
#[inline(always)]
fn one(word: u16, first: u16) -> Option<Instr>
    requires { word / 1024 ≡ 4 }
    ensures { MatchOption result
        ((op : Op1) (width : Width) (src : Src) → OneFields op width src word → ⊥)
        (λ i. First i word × Leads (words_after i) (first ∷ [])) }
{
    let op = operation_of_one(one_code(word))?;
    let width = width(word);
    if !takes_width(op, width) {
        return None;
    }
    let src = source(low_register(word), source_mode(word), first)?;
    if !takes(op, &src) {
        return None;
    }
    Some(Instr::One { op, width, src })
}

/// The jump that a word is.
#[inline(always)]
fn jump(word: u16) -> Instr
    requires { word / 8192 ≡ 1 }
    ensures { First result word × (words_after result ≡ []) }
{
    Instr::Jump {
        cond: condition(jump_code(word)),
        offset: offset(word),
    }
}

/// The instruction that begins with a word, if there is one. `first` and `second` are what the words
/// behind it would be.
#[inline(always)]
pub(crate) fn instruction(word: u16, first: u16, second: u16) -> Option<Instr>
    ensures { MatchOption result ((i : Instr) → First i word → ⊥)
        (λ i. First i word × Leads (words_after i) (first ∷ second ∷ [])) }
{
    match word >> 12 {
        0 => None,
        1 if word == 0x1300 => Some(Instr::Reti),
        1 if word >> 10 == 4 => one(word, first),
        1 => None,
        2 | 3 => Some(jump(word)),
        _ => two(word, first, second),
    }
}
