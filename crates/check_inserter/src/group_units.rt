//! The unit of a group.

ghost use Rattle.std.specs.Prelude.{◌≡◌, ◌<◌, ◌++◌, ◌∷◌, OnOk, map, Some};
ghost use Rattle.msp_encode.specs.Spelling.{InstrFits};
ghost use Rattle.insert_model.specs.declared.line.Line.{Line};
ghost use Rattle.insert_model.specs.Words.{unit_words};
ghost use Rattle.insert_model.specs.Groups.{cell, greatest};
ghost use Rattle.insert_model.specs.Layout.{difference_of, beside, line_unit, reach_of, wide_unit, unit_of_lines};
ghost use Rattle.check_inserter.specs.Cells.{as_cell};
ghost use Rattle.check_inserter.specs.Fitting.{IsOffset, IsLegalLine, AreLegalLines};

use crate::cells::{Cell, cell_of, distance};
use crate::guards::{jump, wide_guard};
use crate::units::put_unit;
use crate::words::put_pieces;
use code_model::guards::Reach;
use insert_model::line::Line;
use insert_model::piece::{Piece, Word};
use msp_encode::instr::{Dst, Instr};
use msp_encode::registers::CHECKED;
use source_faults::source::own;
use std::alloc::AllocError;

/// Appends the words of the unit of a group, beside a static part of `size` bytes: its first line, and those behind it. `short` is
/// the offset of the first line's jump if that is one word.
pub(crate) fn put_group(
    out: &mut Vec<Word>,
    size: usize,
    short: Option<i16>,
    line: &Line,
    rest: &[Line],
) -> Result<(), AllocError>
    requires offset { IsOffset short }
    requires line { IsLegalLine line.now }
    requires rest { AreLegalLines rest.now }
    ensures { OnOk result (out.new.items ≡ out.old.items ++ unit_words (unit_of_lines (λ _. short) size line.now rest.now)) }
{
    if rest.is_empty() {
        return put_line(out, size, short, line);
    }
    match cell_of(line) {
        None => Ok(()),
        Some(cell) => put_wide(out, &cell, line, rest),
    }
}

/// Appends the unit of a line that stands alone.
#[tactic(auto, unfolding(insert_model::specs::Layout::line_unit))]
fn put_line(
    out: &mut Vec<Word>,
    size: usize,
    short: Option<i16>,
    line: &Line,
) -> Result<(), AllocError>
    requires offset { IsOffset short }
    requires line { IsLegalLine line.now }
    ensures { OnOk result (out.new.items ≡ out.old.items ++ unit_words (line_unit (λ _. short) size line.now)) }
{
    match line.instr {
        Instr::Jump { cond, .. } => match short {
            None => put_unit(out, size, line),
            Some(offset) => put_pieces(out, &[jump(cond, offset)]),
        },
        Instr::Two { .. } | Instr::One { .. } | Instr::Reti => put_unit(out, size, line),
    }
}

/// Appends a guard of the stores of a line and the lines behind it, and then these.
fn put_wide(out: &mut Vec<Word>, cell: &Cell, line: &Line, rest: &[Line]) -> Result<(), AllocError>
    requires base { cell.now.base < 16 }
    requires line { InstrFits line.now.instr }
    requires rest { AreLegalLines rest.now }
    ensures { OnOk result (out.new.items ≡ out.old.items ++ unit_words (wide_unit (as_cell cell.now) (line.now ∷ rest.now))) }
{
    let reach = reach_of(greatest(cell, line, rest));
    put_pieces(out, &wide_guard(reach, cell.base, cell.index, cell.kind))?;
    put_pieces(out, &[beside(cell, line)])?;
    for other in rest {
        put_pieces(out, &[beside(cell, other)])?;
    }
    Ok(())
}

/// The greatest distance of the cells of a line and the lines behind it from that of the first.
fn greatest(from: &Cell, line: &Line, rest: &[Line]) -> u16
    requires line { InstrFits line.now.instr }
    requires rest { AreLegalLines rest.now }
    ensures { result ≡ greatest (map (λ (l : Line). difference_of (as_cell from.now) (cell l)) (line.now ∷ rest.now)) }
{
    let mut greatest = distance(from, line);
    for other in rest {
        greatest = u16::max(greatest, distance(from, other));
    }
    greatest
}

/// How far a guard has to reach for this distance.
fn reach_of(distance: u16) -> Reach
    ensures { result ≡ reach_of distance }
{
    match distance {
        2 => Reach::Two,
        4 => Reach::Four,
        _ => Reach::Six,
    }
}

/// A line's store, at its distance from the cell that R4 has the address of.
#[tactic(auto, unfolding(insert_model::specs::Layout::beside))]
fn beside(cell: &Cell, line: &Line) -> Piece
    requires { InstrFits line.now.instr }
    ensures is { result ≡ beside (as_cell cell.now) line.now }
    ensures fits { InstrFits result.instr }
{
    let piece = own(line);
    match line.instr {
        Instr::Two { op, width, src, .. } => Piece {
            instr: Instr::Two {
                op,
                width,
                src,
                dst: Dst::Indexed(CHECKED, distance(cell, line)),
            },
            source: piece.source,
            destination: None,
        },
        Instr::One { .. } | Instr::Reti | Instr::Jump { .. } => piece,
    }
}
