//! Cells: where instructions store.

ghost use Rattle.std.specs.Prelude.{◌≡◌, ◌<◌, None, Some, MatchOption};
ghost use Rattle.msp_encode.specs.Spelling.{InstrFits};
ghost use Rattle.insert_model.specs.Groups.{cell, difference, if_near, is_data, is_alike, is_reached, is_near_cell};
ghost use Rattle.insert_model.specs.Layout.{difference_of};
ghost use Rattle.check_inserter.specs.Cells.{as_cell};

use code_model::parts::RelKind;
use insert_model::line::Line;
use msp_encode::instr::{Dst, Instr};
use source_faults::source::own;

/// Where an instruction stores: a base register, and an index with its relocation.
#[derive(Clone, Copy, Drop)]
pub(crate) struct Cell {
    pub base: u8,
    pub index: u16,
    pub kind: Option<RelKind>,
}

/// The cell of a line: of an operation with the destination X(Rn) that writes.
pub(crate) fn cell_of(line: &Line) -> Option<Cell>
    requires { InstrFits line.now.instr }
    ensures { MatchOption result (cell line.now ≡ None) (λ c. (cell line.now ≡ Some (as_cell c)) × (c.base < 16)) }
{
    match line.instr {
        Instr::Two {
            op,
            dst: Dst::Indexed(base, index),
            ..
        } => {
            if op.writes() {
                Some(Cell {
                    base,
                    index,
                    kind: own(line).destination,
                })
            } else {
                None
            }
        }
        _ => None,
    }
}

/// How far a line's cell lies behind another, modulo 65,536. 0 for a line that has none.
pub(crate) fn distance(from: &Cell, line: &Line) -> u16
    requires { InstrFits line.now.instr }
    ensures { result ≡ difference_of (as_cell from.now) (cell line.now) }
{
    match cell_of(line) {
        None => 0,
        Some(cell) => difference(from.index, cell.index),
    }
}

/// How far an index lies behind another, modulo 65,536.
fn difference(from: u16, to: u16) -> u16
    ensures { result ≡ difference from to }
{
    ((u32::from(to) + (65536 - u32::from(from))) % 65536) as u16
}

/// How far a line's cell lies behind another, if both may stand in one group.
pub(crate) fn near_distance(from: &Cell, line: &Line) -> Option<u16>
    requires { InstrFits line.now.instr }
    ensures { result ≡ if_near (as_cell from.now) (cell line.now) }
{
    match cell_of(line) {
        None => None,
        Some(cell) => {
            if is_near_cell(from, &cell) {
                Some(difference(from.index, cell.index))
            } else {
                None
            }
        }
    }
}

/// Tells whether two cells may stand in one group.
fn is_near_cell(from: &Cell, to: &Cell) -> bool
    ensures { result ≡ is_near_cell (as_cell from.now) (as_cell to.now) }
{
    to.base == from.base
        && is_alike(from.kind, to.kind)
        && is_reached(difference(from.index, to.index))
}

/// Tells whether both or neither of two words have the static part's address added.
fn is_alike(one: Option<RelKind>, other: Option<RelKind>) -> bool
    ensures { result ≡ is_alike one other }
{
    is_data(one) == is_data(other)
}

/// Tells whether the static part's address is added to a word with this relocation.
fn is_data(kind: Option<RelKind>) -> bool
    ensures { result ≡ is_data kind }
{
    matches!(kind, Some(RelKind::Data))
}

/// Tells whether a difference is 0, 2, 4 or 6.
fn is_reached(difference: u16) -> bool
    ensures { result ≡ is_reached difference }
{
    difference <= 6 && difference % 2 == 0
}
