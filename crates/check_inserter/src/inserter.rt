//! The object with its guards.

ghost use Rattle.std.specs.Prelude.{◌<◌, Result, MatchResult, IfOk};
ghost use Rattle.code_model.specs.declared.verdict.Verdict.{Verdict};
ghost use Rattle.code_model.specs.Verdicts.{AllSpelled, IsAcceptance, IsVerdict};
ghost use Rattle.code_model.specs.declared.object.Object.{Object};
ghost use Rattle.insert_model.specs.declared.fault.InsertFault.{InsertFault};
ghost use Rattle.insert_model.specs.Faults.{NoHit, IsAnswer, SameAnswer};
ghost use Rattle.code_model.specs.Fields.{fields};
ghost use Rattle.insert_model.specs.Source.{lines};
ghost use Rattle.insert_model.specs.Laws.{StandsAlone};
ghost use Rattle.insert_laws.specs.Laws.{IsAcceptable, HasNoLoads, PiecesStand};
ghost use Rattle.insert_laws.specs.Lines.{LinesStand};
ghost use Rattle.placed_unit_laws.specs.Ends.{UnitsEnd, GroupsEnd, CallsPush, UnitsStand, SourcesHide};
ghost use Rattle.source_faults.specs.Read.{IsSource};
ghost use Rattle.check_inserter.specs.Places.{IsLaid};

use crate::laws::one_answer;
use crate::laying::{Laid, lay};
use crate::moving::{all_relocs, moved_bytes, moved_exports, moved_words, place_of};
use code_model::object::Object;
use insert_laws::{
    inserted_is_accepted, lines_are_spelled, no_load_guards, starts_are_pieces, verdict_accepts,
};
use insert_model::fault::InsertFault;
use insert_model::laws::{first_version, groups_stand};
use insert_model::line::Line;
use placed_unit_laws::{call_pushes, group_ends, source_place_hidden, unit_ends, unit_stands};
use source_faults::faults::first_fault;
use source_faults::source::read_lines;
use source_faults::starts::starts;
use std::alloc::Global;

/// The object with guards for an object without, or the first fault of the source object: where an instruction isn't spelled
/// that alone, else the least offset and there the least kind, and only where nothing else is wrong that it would be too large.
/// `Memory` may come at any time.
///
/// The object is accepted: there are unit starts with which the definition accepts it, and each verdict on it is an acceptance.
/// Wherever it is placed, the words of the unit of each source instruction stand where the place map says. From any context
/// there the unit's run, without an interrupt, ends in one of three ways: at the next unit, the target's or a named entry, with
/// all but R4 and R5 as the source instruction leaves it; at the entry that takes a return, a computed jump or a computed call
/// over; or, exactly where its check fails, at the entry for that, with nothing written. A call pushes the address of the next
/// unit. The unit of a group of stores does what they do in order, or, exactly where the check of one of them fails, ends at the
/// entry for that with nothing written. No guard is a load guard. In version 1 each source instruction has a unit of its own.
///
/// What is computed is what is spelled. Where all of the source is spelled, its lines are its instructions: each starts and
/// stands where its line says, and each start has a line. In the object with guards the starts are the places of the units'
/// pieces, and the words there spell the piece's instruction, whose words of code name units.
pub fn insert(alloc: Global, o: &Object) -> Result<Object, InsertFault>
    ensures right { IsAnswer o.now result }
    ensures only { (answer : Result Object InsertFault) → IsAnswer o.now answer → SameAnswer result answer }
    ensures lines { AllSpelled o.now → LinesStand o.now }
    ensures pieces { IfOk result (λ q. PiecesStand o.now q) }
    ensures accepted { IfOk result (λ q. IsAcceptable q) }
    ensures verdicts { IfOk result (λ q. (v : Verdict) → IsVerdict q v → IsAcceptance v) }
    ensures loads { IfOk result (λ q. HasNoLoads q) }
    ensures first { o.now.version < 2 → StandsAlone (fields o.now) }
    ensures units { IfOk result (λ q. UnitsEnd o.now q) }
    ensures groups { IfOk result (λ q. GroupsEnd o.now q) }
    ensures pushes { IfOk result (λ q. CallsPush o.now q) }
    ensures stand { IfOk result (λ q. UnitsStand o.now q) }
    ensures anywhere { IfOk result (λ q. SourcesHide o.now q) }
{
    one_answer();
    inserted_is_accepted();
    verdict_accepts();
    no_load_guards();
    first_version();
    unit_ends();
    group_ends();
    call_pushes();
    unit_stands();
    source_place_hidden();
    lines_are_spelled();
    starts_are_pieces();
    inserted(alloc, o)
}

/// The answer.
fn inserted(alloc: Global, o: &Object) -> Result<Object, InsertFault>
    ensures { IsAnswer o.now result }
{
    let lines = match read_lines(alloc, o) {
        Ok(lines) => lines,
        Err(e) => return Err(e),
    };
    let starts = starts(o, &lines);
    match first_fault(o, &lines, &starts) {
        Some(fault) => Err(InsertFault::At {
            kind: fault.kind,
            offset: fault.offset,
        }),
        None => guarded(alloc, o, &lines),
    }
}

/// The answer where nothing is wrong with the lines.
fn guarded(alloc: Global, o: &Object, lines: &[Line]) -> Result<Object, InsertFault>
    requires source { IsSource o.now lines.now }
    requires clean { NoHit o.now }
    ensures { IsAnswer o.now result }
{
    match lay(alloc, o, lines) {
        Ok(laid) => assembled(alloc, o, &laid),
        Err(e) => Err(e),
    }
}

/// The object of the units that were laid.
fn assembled(alloc: Global, o: &Object, laid: &Laid) -> Result<Object, InsertFault>
    requires laid { IsLaid o.now laid.now }
    requires source { IsSource o.now (lines (fields o.now)) }
    requires clean { NoHit o.now }
    ensures { IsAnswer o.now result }
{
    groups_stand();
    let code = moved_words(alloc, o, laid)?;
    let init = moved_bytes(alloc, o, laid)?;
    let relocs = all_relocs(alloc, o, laid)?;
    let exports = moved_exports(alloc, o, laid)?;
    Ok(Object {
        kind: o.kind,
        version: o.version,
        code,
        init,
        zeroed: o.zeroed,
        stack: o.stack,
        threads: o.threads,
        entry: place_of(o, laid, o.entry),
        relocs,
        exports,
    })
}
