//! The lines of the last instructions of a run, before a fault's.

ghost use Rattle.std.specs.Prelude.{◌≡◌, ◌≤◌, ◌∷◌, [], ◌++◌, codes, length, map, IfErr, OnOk};
ghost use Rattle.edge_io.specs.Causes.{HasCause};
ghost use Rattle.trace_model.specs.Texts.{tail_line};
ghost use Rattle.retos_node.specs.Printing.{Printed, PrintedUpTo, tail_lines};

use crate::printing::print_line;
use edge_io::sink::Sink;
use edge_io::whole::SinkFault;
use trace_model::records::Record;
use trace_print::{Tail, barred};

/// Prints the lines of the last instructions, if they are shown and a fault's line is next.
pub(crate) fn print_before<S: Sink>(
    shown: bool,
    tail: &Tail,
    rec: &Record,
    out: &mut S,
) -> Result<(), SinkFault>
    ensures whole { OnOk result (Printed S.called S.state out.old out.new (tail_lines shown tail.now rec.now)) }
    ensures prefix { IfErr result (λ fault. PrintedUpTo S.called S.state out.old out.new (tail_lines shown tail.now rec.now) fault) }
    ensures cause { HasCause (S.state out.old).faults (S.state out.new).faults result }
{
    if !shown {
        return Ok(());
    }
    if rec.is_fault() {
        return print_tail(tail, out);
    }
    Ok(())
}

/// Prints the lines of the last instructions, the oldest first.
fn print_tail<S: Sink>(tail: &Tail, out: &mut S) -> Result<(), SinkFault>
    ensures whole { OnOk result (Printed S.called S.state out.old out.new (map tail_line tail.now)) }
    ensures prefix { IfErr result (λ fault. PrintedUpTo S.called S.state out.old out.new (map tail_line tail.now) fault) }
    ensures cause { HasCause (S.state out.old).faults (S.state out.new).faults result }
{
    let mut at = 0;
    while let Some(line) = tail.lines(at) {
        match print_barred(line.as_slice(), out) {
            Ok(()) => {}
            Err(fault) => return Err(fault),
        }
        at += 1;
    }
    Ok(())
}

/// Writes a line whole, with a bar and a space before it.
fn print_barred<S: Sink>(line: &[u8], out: &mut S) -> Result<(), SinkFault>
    requires { length line.now ≤ 96 }
    ensures whole { OnOk result (Printed S.called S.state out.old out.new ((codes "| " ++ line.now) ∷ [])) }
    ensures prefix { IfErr result (λ fault. PrintedUpTo S.called S.state out.old out.new ((codes "| " ++ line.now) ∷ []) fault) }
    ensures cause { HasCause (S.state out.old).faults (S.state out.new).faults result }
{
    print_line(barred(line).as_slice(), out)
}
