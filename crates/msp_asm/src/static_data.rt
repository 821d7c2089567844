//! Initialised words and bytes.

ghost use Rattle.std.specs.Prelude.{◌≡◌, ◌≤◌, ◌<◌, ◌++◌, length, map, min, false, is_some, IfOk, OnOk};
ghost use Rattle.std.specs.List.{list_all};
ghost use Rattle.asm_model.specs.Lines.{is_nil};
ghost use Rattle.asm_model.specs.Words.{operands_of};
ghost use Rattle.asm_model.specs.Drafts.{placed, draft_by};
ghost use Rattle.asm_model.specs.Directives.{word_datum, byte_datum, datum_of, unit_size, is_aligned, datum_fits, datum_piece, are_data, data_fit, data_pieces, data_room};
ghost use Rattle.asm_model.specs.FirstPass.{take_data};
ghost use Rattle.msp_asm.specs.Given.{Gives};
ghost use Rattle.msp_asm.specs.Parts.{parts_of};

use crate::directives::in_data;
use crate::drafts::{Pieces, Stop, grow};
use asm_lines::bytes::is_empty;
use asm_lines::names::Names;
use asm_lines::numbers::{fits_byte, numeral, word as numeral_word};
use asm_lines::operands::address;
use asm_lines::text::{cut, trim};
use asm_model::expression::Base;
use asm_model::fault::AsmKind;
use asm_model::piece::{DataUnit, Datum, Piece, Placed};
use asm_model::progress::Progress;
use std::alloc::AllocError;

/// More operands than fit into the static part.
const COUNT_MAX: u32 = 32_768;

/// What an operand gives.
#[tactic(auto, unfolding(asm_model::specs::Directives::datum_of))]
fn datum(unit: DataUnit, names: &Names, operand: &[u8]) -> Option<Datum>
    ensures { result ≡ datum_of unit names.now operand.now }
{
    match unit {
        DataUnit::Word => match address(names, operand) {
            None => None,
            Some(e) => Some(Datum {
                piece: Piece::Word {
                    base: e.base,
                    word: e.word,
                },
                fits: e.fits,
            }),
        },
        DataUnit::Byte => match numeral(operand) {
            None => None,
            Some(n) => Some(Datum {
                piece: Piece::Byte((numeral_word(n) % 256) as u8),
                fits: fits_byte(n),
            }),
        },
    }
}

/// How many bytes a unit has.
fn size(unit: DataUnit) -> u32
    ensures value { result ≡ unit_size unit }
    ensures small { result ≤ 2 }
{
    match unit {
        DataUnit::Word => 2,
        DataUnit::Byte => 1,
    }
}

/// Whether a unit may stand at an offset.
fn aligned(unit: DataUnit, at: u16) -> bool
    ensures { result ≡ is_aligned unit at }
{
    match unit {
        DataUnit::Word => at % 2 == 0,
        DataUnit::Byte => true,
    }
}

/// Whether a datum's number is in its range.
fn fits(datum: Option<Datum>) -> bool
    ensures { result ≡ datum_fits datum }
{
    match datum {
        None => false,
        Some(datum) => datum.fits,
    }
}

/// The piece of a datum, or a zero where there is none.
fn piece(unit: DataUnit, datum: Option<Datum>) -> Piece
    ensures { result ≡ datum_piece unit datum }
{
    match (datum, unit) {
        (Some(datum), _) => datum.piece,
        (None, DataUnit::Word) => Piece::Word {
            base: Base::Number,
            word: 0,
        },
        (None, DataUnit::Byte) => Piece::Byte(0),
    }
}

/// Whether all parts are data of a unit.
fn each_formed(unit: DataUnit, names: &Names, rest: &[u8]) -> bool
    ensures { result ≡ list_all (λ o. is_some (datum_of unit names.now o)) (parts_of rest.now) }
{
    let mut next = Some(rest);
    'parts: while let Some(text) = next {
        let (operand, behind) = cut(text, b',');
        if datum(unit, names, trim(operand)).is_none() {
            return false;
        }
        next = behind;
    }
    true
}

/// Whether all numbers of the parts are in their ranges.
fn each_fits(unit: DataUnit, names: &Names, rest: &[u8]) -> bool
    ensures { result ≡ list_all (λ o. datum_fits (datum_of unit names.now o)) (parts_of rest.now) }
{
    let mut next = Some(rest);
    'parts: while let Some(text) = next {
        let (operand, behind) = cut(text, b',');
        if !fits(datum(unit, names, trim(operand))) {
            return false;
        }
        next = behind;
    }
    true
}

/// How many parts there are, where 32,768 stands for all greater numbers.
fn count(rest: &[u8]) -> u32
    ensures { result ≡ min (length (parts_of rest.now)) 32768 }
{
    let mut next = Some(rest);
    let mut count: u32 = 0;
    'parts: while let Some(text) = next {
        let (_, behind) = cut(text, b',');
        count = (count + 1).min(COUNT_MAX);
        next = behind;
    }
    count
}

/// Appends the pieces of the parts.
fn push_each(
    unit: DataUnit,
    line: u32,
    names: &Names,
    pieces: &mut Pieces,
    rest: &[u8],
) -> Result<(), AllocError>
    ensures { OnOk result (pieces.new ≡ pieces.old ++ map (placed line) (map (λ o. datum_piece unit (datum_of unit names.now o)) (parts_of rest.now))) }
{
    let mut next = Some(rest);
    'parts: while let Some(text) = next {
        let (operand, behind) = cut(text, b',');
        let piece = piece(unit, datum(unit, names, trim(operand)));
        pieces.push(Placed { line, piece })?;
        next = behind;
    }
    Ok(())
}

/// With so many bytes of data, where they may stand.
#[tactic(auto, using(crate::proofs::Counting::grown_capped), unfolding(asm_model::specs::Directives::data_room, asm_model::specs::Directives::are_data, asm_model::specs::Directives::data_fit, asm_model::specs::Words::operands_of))]
fn room(unit: DataUnit, names: &Names, p: Progress, rest: &[u8]) -> Result<Progress, AsmKind>
    ensures value { result ≡ data_room unit names.now p (operands_of rest.now) }
    ensures some { IfOk result (λ _. is_nil rest.now ≡ false) }
{
    if !in_data(p.section)
        || !aligned(unit, p.initialised)
        || is_empty(rest)
        || !each_formed(unit, names, rest)
    {
        return Err(AsmKind::BadDirective);
    }
    if !each_fits(unit, names, rest) {
        return Err(AsmKind::NumberRange);
    }
    grow(p, 0, size(unit) * count(rest), 0)
}

/// With static data.
#[tactic(auto, unfolding(asm_model::specs::FirstPass::take_data, asm_model::specs::Directives::data_pieces, asm_model::specs::Words::operands_of))]
pub(crate) fn data(
    unit: DataUnit,
    line: u32,
    p: Progress,
    names: &Names,
    pieces: &mut Pieces,
    rest: &[u8],
) -> Result<Progress, Stop>
    ensures { Gives result (take_data line (draft_by p names.now pieces.old) unit (operands_of rest.now)) names.now pieces.new }
{
    match room(unit, names, p, rest) {
        Err(kind) => Err(Stop::Kind(kind)),
        Ok(next) => {
            push_each(unit, line, names, pieces, rest)?;
            Ok(next)
        }
    }
}
