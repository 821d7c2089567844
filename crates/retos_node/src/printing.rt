//! The lines that a run prints, each written whole by a call of its own.

ghost use Rattle.std.specs.Prelude.{◌≡◌, ◌<◌, ◌+◌, ◌==◌, ℕ, List, [], ◌∷◌, ◌++◌, map, length, slice_index_or, if◌then◌else◌, IfErr, OnOk, true};
ghost use Rattle.edge_io.specs.Causes.{HasCause};
ghost use Rattle.kernel_model.specs.Layout.{kernel_of};
ghost use Rattle.trace_model.specs.Texts.{record_text};
ghost use Rattle.trace_print.specs.Named.{HasLine};
ghost use Rattle.node_model.specs.Nodes.{nobody, placement_line};
ghost use Rattle.retos_node.specs.Printing.{Printed, PrintedUpTo, numbers_of, placement_lines, tail_lines, told_lines};
ghost use Rattle.retos_node.specs.Underway.{AreCounted};

use crate::lines::of_placement;
use crate::running::Counts;
use crate::tails::print_before;
use edge_io::sink::Sink;
use edge_io::whole::{SinkFault, write_all};
use flat_mem::FlatMem;
use kernel_model::map::{APPS, MODULES};
use trace_model::records::Record;
use trace_print::{Show, Tail, text};

/// Writes a line whole.
pub(crate) fn print_line<S: Sink>(line: &[u8], out: &mut S) -> Result<(), SinkFault>
    ensures whole { OnOk result (Printed S.called S.state out.old out.new (line.now ∷ [])) }
    ensures prefix { IfErr result (λ fault. PrintedUpTo S.called S.state out.old out.new (line.now ∷ []) fault) }
    ensures cause { HasCause (S.state out.old).faults (S.state out.new).faults result }
{
    match write_all(out, line) {
        Ok(()) => Ok(()),
        Err(fault) => Err(fault),
    }
}

/// Prints where each of so many objects was placed, in their order.
pub(crate) fn print_placement<S: Sink>(
    m: &FlatMem,
    owner: &[u8; 12],
    count: usize,
    out: &mut S,
) -> Result<(), SinkFault>
    ensures whole { OnOk result (Printed S.called S.state out.old out.new (placement_lines (kernel_of m.now) owner.now count)) }
    ensures prefix { IfErr result (λ fault. PrintedUpTo S.called S.state out.old out.new (placement_lines (kernel_of m.now) owner.now count) fault) }
    ensures cause { HasCause (S.state out.old).faults (S.state out.new).faults result }
{
    for object in 0..count {
        match print_object(m, owner, object, out) {
            Ok(()) => {}
            Err(fault) => return Err(fault),
        }
    }
    Ok(())
}

/// Prints where an object was placed.
fn print_object<S: Sink>(
    m: &FlatMem,
    owner: &[u8; 12],
    object: usize,
    out: &mut S,
) -> Result<(), SinkFault>
    ensures whole { OnOk result (Printed S.called S.state out.old out.new (map (placement_line (kernel_of m.now)) (numbers_of owner.now object))) }
    ensures prefix { IfErr result (λ fault. PrintedUpTo S.called S.state out.old out.new (map (placement_line (kernel_of m.now)) (numbers_of owner.now object)) fault) }
    ensures cause { HasCause (S.state out.old).faults (S.state out.new).faults result }
{
    for number in 0..APPS + MODULES {
        match print_owned(m, owner, object, number, out) {
            Ok(()) => {}
            Err(fault) => return Err(fault),
        }
    }
    Ok(())
}

/// Prints where the domain with this number was placed, if it is the object's.
fn print_owned<S: Sink>(
    m: &FlatMem,
    owner: &[u8; 12],
    object: usize,
    number: u8,
    out: &mut S,
) -> Result<(), SinkFault>
    requires { number < 12 }
    ensures whole { OnOk result (Printed S.called S.state out.old out.new (if slice_index_or owner.now number nobody == object then placement_line (kernel_of m.now) number ∷ [] else [])) }
    ensures prefix { IfErr result (λ fault. PrintedUpTo S.called S.state out.old out.new (if slice_index_or owner.now number nobody == object then placement_line (kernel_of m.now) number ∷ [] else []) fault) }
    ensures cause { HasCause (S.state out.old).faults (S.state out.new).faults result }
{
    if owner[number as usize] as usize != object {
        return Ok(());
    }
    print_line(of_placement(m, number).as_slice(), out)
}

/// Prints a record's line, if it is shown, and counts the record. Before a fault's line stand those of the last instructions, if
/// they are shown.
#[inline(always)]
pub(crate) fn tell<S: Sink>(
    show: Show,
    tail: &Tail,
    rec: &Record,
    counts: &mut Counts,
    out: &mut S,
) -> Result<(), SinkFault>
    requires line { HasLine rec.now }
    requires few { ((counts.old).emits < u32.MAX) × ((counts.old).faults < u32.MAX) }
    ensures counted { AreCounted counts.old counts.new rec.now }
    ensures whole { OnOk result (Printed S.called S.state out.old out.new (told_lines show tail.now rec.now)) }
    ensures prefix { IfErr result (λ fault. PrintedUpTo S.called S.state out.old out.new (told_lines show tail.now rec.now) fault) }
    ensures cause { HasCause (S.state out.old).faults (S.state out.new).faults result }
{
    if rec.is_always_shown() {
        counts.count(rec);
        return print_behind_tail(show.tail, tail, rec, out);
    }
    if show.all {
        return print_record(rec, out);
    }
    Ok(())
}

/// Prints the lines of the last instructions, if a fault's is next and they are shown, and then a record's.
#[cold]
#[inline(never)]
fn print_behind_tail<S: Sink>(
    shown: bool,
    tail: &Tail,
    rec: &Record,
    out: &mut S,
) -> Result<(), SinkFault>
    requires { HasLine rec.now }
    ensures whole { OnOk result (Printed S.called S.state out.old out.new (tail_lines shown tail.now rec.now ++ record_text rec.now ∷ [])) }
    ensures prefix { IfErr result (λ fault. PrintedUpTo S.called S.state out.old out.new (tail_lines shown tail.now rec.now ++ record_text rec.now ∷ []) fault) }
    ensures cause { HasCause (S.state out.old).faults (S.state out.new).faults result }
{
    match print_before(shown, tail, rec, out) {
        Ok(()) => {}
        Err(fault) => return Err(fault),
    }
    match print_record(rec, out) {
        Ok(()) => Ok(()),
        Err(fault) => Err(fault),
    }
}

/// Prints a record's line. It stands alone, so that a step without one doesn't pay for the line's room.
#[cold]
#[inline(never)]
fn print_record<S: Sink>(rec: &Record, out: &mut S) -> Result<(), SinkFault>
    requires { HasLine rec.now }
    ensures whole { OnOk result (Printed S.called S.state out.old out.new (record_text rec.now ∷ [])) }
    ensures prefix { IfErr result (λ fault. PrintedUpTo S.called S.state out.old out.new (record_text rec.now ∷ []) fault) }
    ensures cause { HasCause (S.state out.old).faults (S.state out.new).faults result }
{
    print_line(text(rec).as_slice(), out)
}

impl Counts {
    /// Counts a record.
    #[cold]
    #[inline(never)]
    fn count(&mut self, rec: &Record)
        requires few { ((self.old).emits < u32.MAX) × ((self.old).faults < u32.MAX) }
        ensures { AreCounted self.old self.new rec.now }
    {
        match rec {
            Record::Emit { .. } => self.emits += 1,
            Record::Fault { .. } => self.faults += 1,
            _ => {}
        }
    }
}
