//! The words of pieces.

ghost use Rattle.std.specs.Prelude.{◌≡◌, ◌++◌, [], ◌∷◌, length, OnOk};
ghost use Rattle.msp_encode.specs.Spelling.{InstrFits, First, src_words, dst_words};
ghost use Rattle.msp_encode.specs.Spelled.{first_word};
ghost use Rattle.insert_model.specs.Words.{with_kind, operand_words, piece_words, unit_words};
ghost use Rattle.check_inserter.specs.Fitting.{AllFit};

use code_model::parts::RelKind;
use insert_model::piece::{Piece, Word};
use msp_encode::encode;
use msp_encode::instr::{Dst, Instr, Src};
use msp_encode::laws::{legal_by_cases, one_spelling, spelling_spells};
use std::alloc::AllocError;

/// Appends the words of pieces, one piece after another.
pub(crate) fn put_pieces(out: &mut Vec<Word>, pieces: &[Piece]) -> Result<(), AllocError>
    requires { AllFit pieces.now }
    ensures { OnOk result (out.new.items ≡ out.old.items ++ unit_words pieces.now) }
{
    for piece in pieces {
        put_piece(out, piece)?;
    }
    Ok(())
}

/// Appends the words of pieces, and then those of others.
pub(crate) fn put_both(
    out: &mut Vec<Word>,
    front: &[Piece],
    back: &[Piece],
) -> Result<(), AllocError>
    requires front { AllFit front.now }
    requires back { AllFit back.now }
    ensures { OnOk result (out.new.items ≡ out.old.items ++ unit_words (front.now ++ back.now)) }
{
    put_pieces(out, front)?;
    put_pieces(out, back)?;
    Ok(())
}

/// Appends the words of a piece.
#[tactic(auto, unfolding(insert_model::specs::Words::piece_words))]
fn put_piece(out: &mut Vec<Word>, piece: &Piece) -> Result<(), AllocError>
    requires { InstrFits piece.now.instr }
    ensures { OnOk result (out.new.items ≡ out.old.items ++ piece_words piece.now) }
{
    put_word(out, first_word(&piece.instr), None)?;
    match piece.instr {
        Instr::Two { src, dst, .. } => {
            put_source(out, src, piece.source)?;
            put_destination(out, dst, piece.destination)
        }
        Instr::One { src, .. } => put_source(out, src, piece.source),
        Instr::Reti | Instr::Jump { .. } => Ok(()),
    }
}

/// The first word of an instruction.
fn first_word(i: &Instr) -> u16
    requires { InstrFits i.now }
    ensures { result ≡ first_word i.now }
{
    legal_by_cases();
    spelling_spells();
    one_spelling();
    let words = encode(i);
    words[0]
}

/// Appends the word that a source has, if it has one.
fn put_source(out: &mut Vec<Word>, src: Src, kind: Option<RelKind>) -> Result<(), AllocError>
    ensures { OnOk result (out.new.items ≡ out.old.items ++ with_kind kind (src_words src)) }
{
    match src {
        Src::Indexed(_, word) | Src::Symbolic(word) | Src::Absolute(word) | Src::Immediate(word) =>
            { put_word(out, word, kind) }
        Src::Reg(_) | Src::Indirect(_) | Src::AutoInc(_) | Src::Const(_) => Ok(()),
    }
}

/// Appends the word that a destination has, if it has one.
fn put_destination(out: &mut Vec<Word>, dst: Dst, kind: Option<RelKind>) -> Result<(), AllocError>
    ensures { OnOk result (out.new.items ≡ out.old.items ++ with_kind kind (dst_words dst)) }
{
    match dst {
        Dst::Indexed(_, word) | Dst::Symbolic(word) | Dst::Absolute(word) => put_word(
            out, word, kind,
        ),
        Dst::Reg(_) => Ok(()),
    }
}

/// Appends a word.
fn put_word(out: &mut Vec<Word>, value: u16, kind: Option<RelKind>) -> Result<(), AllocError>
    ensures { OnOk result (out.new.items ≡ out.old.items ++ record { value = value; kind = kind } ∷ []) }
{
    out.push(Word { value, kind })?;
    Ok(())
}
