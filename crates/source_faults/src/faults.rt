//! The first fault of a source object whose instructions are all spelled.

ghost use Rattle.std.specs.Prelude.{◌≡◌, ℕ, ◌+◌, ◌*◌, ◌<◌, ◌≤◌, ◌⊎◌, ◌↔◌, length, IsTrue, MatchOption, false, slice_index_or};
ghost use Rattle.code_model.specs.declared.parts.Export.{Export};
ghost use Rattle.code_model.specs.declared.parts.Reloc.{Reloc};
ghost use Rattle.code_model.specs.Form.{RelocFits};
ghost use Rattle.code_model.specs.Starts.{AreStarts};
ghost use Rattle.insert_model.specs.declared.fault.InsertKind.{InsertKind};
ghost use Rattle.insert_model.specs.Faults.{number, LineHas, LinesHave, DatumMisses, DataMiss, EntryMisses, ExportMisses, ExportsMiss, Hits};
ghost use Rattle.source_faults.specs.Read.{IsWhole, AreWhole, IsSource};
ghost use Rattle.source_faults.specs.Found.{IsLeastKind, IsLeast, IsLesser};

use crate::forbidden::{is_forbidden, uses_check};
use crate::source::word_in;
use crate::starts::is_start_offset;
use crate::targets::goes_wrong;
use code_model::marks::Marks;
use code_model::object::Object;
use code_model::parts::{Export, Kind, RelKind, Reloc};
use insert_model::fault::InsertKind;
use insert_model::line::Line;

/// A fault and its offset in bytes.
#[derive(Clone, Copy, Drop)]
pub struct Fault {
    pub kind: InsertKind,
    pub offset: u32,
}

/// The first fault: the least offset, and there the least kind. None exactly where nothing is wrong.
pub fn first_fault(o: &Object, lines: &[Line], starts: &Marks) -> Option<Fault>
    requires source { IsSource o.now lines.now }
    requires starts { AreStarts o.now.code starts.now }
    ensures { IsLeast (Hits o.now) result }
{
    let inside = first_of_lines(o, starts, lines);
    let exported = first_of_exports(o, starts);
    let behind = lesser(exported, first_of_data(o, starts));
    let outside = lesser(entry_fault(o, starts), behind);
    lesser(inside, outside)
}

/// The one of two faults that comes first.
fn lesser(a: Option<Fault>, b: Option<Fault>) -> Option<Fault>
    ensures { IsLesser a b result }
{
    match (a, b) {
        (None, other) => other,
        (one, None) => one,
        (Some(x), Some(y)) => Some(if precedes(x, y) { x } else { y }),
    }
}

/// Tells whether a fault comes before another, or is as early.
fn precedes(a: Fault, b: Fault) -> bool
    ensures { IsTrue result ↔ ((a.offset < b.offset) ⊎ ((a.offset ≡ b.offset) × (number a.kind ≤ number b.kind))) }
{
    a.offset < b.offset || (a.offset == b.offset && rank(a.kind) <= rank(b.kind))
}

/// The number of a kind.
fn rank(kind: InsertKind) -> u8
    ensures { result ≡ number kind }
{
    match kind {
        InsertKind::NotDecoded => 1,
        InsertKind::UsesCheckRegister => 2,
        InsertKind::Forbidden => 3,
        InsertKind::BadTarget => 4,
        InsertKind::TooLarge => 5,
    }
}

/// The first fault of the lines.
fn first_of_lines(o: &Object, starts: &Marks, lines: &[Line]) -> Option<Fault>
    requires starts { AreStarts o.now.code starts.now }
    requires whole { AreWhole o.now lines.now }
    ensures { IsLeast (LinesHave o.now lines.now) result }
{
    let mut first = None;
    for line in lines {
        first = lesser(first, line_fault(o, starts, line));
    }
    first
}

/// The fault of a line, if it has one.
fn line_fault(o: &Object, starts: &Marks, line: &Line) -> Option<Fault>
    requires starts { AreStarts o.now.code starts.now }
    requires whole { IsWhole o.now line.now }
    ensures { IsLeast (λ k x. (x ≡ 2 * line.now.at) × LineHas k o.now line.now) result }
{
    match line_kind(o, starts, line) {
        Some(kind) => Some(Fault {
            kind,
            offset: 2 * line.at as u32,
        }),
        None => None,
    }
}

/// The least kind of fault that a line has.
fn line_kind(o: &Object, starts: &Marks, line: &Line) -> Option<InsertKind>
    requires starts { AreStarts o.now.code starts.now }
    requires whole { IsWhole o.now line.now }
    ensures { IsLeastKind (λ k. LineHas k o.now line.now) result }
{
    if uses_check(line.instr) {
        return Some(InsertKind::UsesCheckRegister);
    }
    if is_forbidden(line) {
        return Some(InsertKind::Forbidden);
    }
    if goes_wrong(o, starts, line) {
        return Some(InsertKind::BadTarget);
    }
    None
}

/// A bad target at an offset.
fn bad_target(offset: u32) -> Option<Fault>
    ensures { result ≡ Some (record { kind = InsertKind.BadTarget; offset = offset }) }
{
    Some(Fault {
        kind: InsertKind::BadTarget,
        offset,
    })
}

/// The fault of an application's entry that is no start.
fn entry_fault(o: &Object, starts: &Marks) -> Option<Fault>
    requires { AreStarts o.now.code starts.now }
    ensures { IsLeast (λ k x. (k ≡ InsertKind.BadTarget) × EntryMisses o.now x) result }
{
    if o.kind == Kind::App && !is_start_offset(o, starts, o.entry) {
        bad_target(u32::from(o.entry))
    } else {
        None
    }
}

/// The first export that is no start.
fn first_of_exports(o: &Object, starts: &Marks) -> Option<Fault>
    requires { AreStarts o.now.code starts.now }
    ensures { IsLeast (λ k x. (k ≡ InsertKind.BadTarget) × ExportsMiss o.now o.now.exports x) result }
{
    let mut first = None;
    for export in o.exports.as_slice() {
        first = lesser(first, export_fault(o, starts, export));
    }
    first
}

fn export_fault(o: &Object, starts: &Marks, export: &Export) -> Option<Fault>
    requires { AreStarts o.now.code starts.now }
    ensures { IsLeast (λ k x. (k ≡ InsertKind.BadTarget) × ExportMisses o.now export.now x) result }
{
    if is_start_offset(o, starts, export.offset) {
        None
    } else {
        bad_target(u32::from(export.offset))
    }
}

/// The first word of static data that should be a start's offset and isn't.
fn first_of_data(o: &Object, starts: &Marks) -> Option<Fault>
    requires { AreStarts o.now.code starts.now }
    ensures { IsLeast (λ k x. (k ≡ InsertKind.BadTarget) × DataMiss o.now o.now.relocs x) result }
{
    let mut first = None;
    for reloc in o.relocs.as_slice() {
        first = lesser(first, datum_fault(o, starts, reloc));
    }
    first
}

fn datum_fault(o: &Object, starts: &Marks, reloc: &Reloc) -> Option<Fault>
    requires starts { AreStarts o.now.code starts.now }
    requires within { reloc.now.in_code ≡ false → reloc.now.offset + 2 ≤ length o.now.init }
    ensures { IsLeast (λ k x. (k ≡ InsertKind.BadTarget) × DatumMisses o.now reloc.now x) result }
{
    if reloc.in_code || reloc.kind != RelKind::Code {
        return None;
    }
    let offset = usize::from(reloc.offset);
    if is_start_offset(o, starts, word_in(o.init.as_slice(), offset)) {
        None
    } else {
        bad_target(2 * o.code.len() as u32 + u32::from(reloc.offset))
    }
}
