//! Groups: the lines that have one unit.

ghost use Rattle.std.specs.Prelude.{◌≡◌, ◌<◌, ◌≤◌, ◌==◌, length, if◌then◌else◌};
ghost use Rattle.msp_encode.specs.Spelling.{InstrFits};
ghost use Rattle.code_model.specs.declared.object.TheConstants.{CODE_WORDS_MAX};
ghost use Rattle.code_model.specs.Fields.{fields};
ghost use Rattle.insert_model.specs.Groups.{joins, run, kept, later};
ghost use Rattle.check_inserter.specs.Fitting.{IsLegalLine, AreLegalLines};
ghost use Rattle.check_inserter.specs.Cells.{as_cell, Counts};
ghost use Rattle.check_inserter.specs.Named.{AreTargets};

use crate::cells::{Cell, cell_of, near_distance};
use code_model::marks::Marks;
use code_model::object::Object;
use insert_model::line::Line;
use static_checker::marking::is_marked;

/// The most lines that a group has behind its first.
const LATER_MOST: usize = 3;

/// How many lines may stand in a group behind its first, and the greatest distance of their cells from its cell.
#[derive(Clone, Copy, Drop)]
struct Run {
    count: usize,
    greatest: u16,
}

/// How many of the lines behind a line are of its group: none in version 1.
pub(crate) fn later(o: &Object, targets: &Marks, line: &Line, behind: &[Line]) -> usize
    requires targets { AreTargets o.now targets.now }
    requires line { IsLegalLine line.now }
    requires behind { AreLegalLines behind.now }
    ensures is { result ≡ later (fields o.now) line.now behind.now }
    ensures most { result ≤ length behind.now }
{
    if o.version < 2 {
        return 0;
    }
    match cell_of(line) {
        None => 0,
        Some(cell) => kept(run_behind(o, targets, &cell, behind)),
    }
}

/// How many lines behind the first a run keeps: none where its stores all go to one cell.
fn kept(run: Run) -> usize
    ensures { result ≡ (if run.greatest == 0 then 0 else run.count) }
{
    if run.greatest == 0 { 0 } else { run.count }
}

/// The run of the lines behind a store to a cell.
fn run_behind(o: &Object, targets: &Marks, cell: &Cell, behind: &[Line]) -> Run
    requires targets { AreTargets o.now targets.now }
    requires behind { AreLegalLines behind.now }
    ensures are { Counts (run (fields o.now) (as_cell cell.now) 3 behind.now) result }
    ensures most { result.count ≤ length behind.now }
{
    let mut run = Run {
        count: 0,
        greatest: 0,
    };
    for line in &behind[..usize::min(behind.len(), LATER_MOST)] {
        match joins(o, targets, cell, line) {
            None => return run,
            Some(distance) => {
                run = Run {
                    count: run.count + 1,
                    greatest: u16::max(run.greatest, distance),
                };
            }
        }
    }
    run
}

/// How far a line's cell lies behind another, if the line may stand in a group behind the other's.
fn joins(o: &Object, targets: &Marks, cell: &Cell, line: &Line) -> Option<u16>
    requires targets { AreTargets o.now targets.now }
    requires line { IsLegalLine line.now }
    ensures { result ≡ joins (fields o.now) (as_cell cell.now) line.now }
{
    if is_marked(targets, line.at) {
        None
    } else {
        near_distance(cell, line)
    }
}
