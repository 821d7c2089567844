//! What is said of an outcome: its line on the error stream, and its status.

ghost use Rattle.std.specs.Prelude.{◌≡◌};
ghost use Rattle.retos_cli.specs.Meaning.{status_by};
ghost use Rattle.retos_cli.specs.Ends.{Printed, line_of, status_of};

use super::lines::{of_memory, of_read, of_refused, of_words, of_write};
use super::outcome::{Outcome, Status, Stop};
use edge_io::sink::Sink;
use edge_io::whole::write_all;
use line_text::line::Line;

/// Prints the outcome's line, if it has one, and gives the status: the outcome's own, or that of a write fault where the line
/// couldn't be written whole.
pub fn report<E: Sink>(outcome: &Outcome, err: &mut E) -> Status
    ensures { Printed (line_of outcome.now) (status_of outcome.now) (E.state err.old) (E.state err.new) result }
{
    match outcome {
        Outcome::Done(faulted) => done(*faulted),
        Outcome::BadWords => say(&of_words(), Status::BadWords, err),
        Outcome::WriteFault => say(&of_write(), Status::WriteFault, err),
        Outcome::Stopped(stop) => report_stop(stop, err),
    }
}

fn done(faulted: bool) -> Status
    ensures { result ≡ status_by faulted }
{
    if faulted {
        Status::Faulted
    } else {
        Status::Done
    }
}

fn report_stop<E: Sink>(stop: &Stop, err: &mut E) -> Status
    ensures { Printed (line_of (Outcome.Stopped stop.now)) (status_of (Outcome.Stopped stop.now)) (E.state err.old) (E.state err.new) result }
{
    match stop {
        Stop::Refuse(refused) => say(&of_refused(refused), Status::Refused, err),
        Stop::ReadFault(name) => say(&of_read(name), Status::ReadFault, err),
        Stop::NoMemory => say(&of_memory(), Status::NoMemory, err),
    }
}

/// Prints a line.
fn say<E: Sink>(line: &Line, own: Status, err: &mut E) -> Status
    ensures { Printed (Some line.now) own (E.state err.old) (E.state err.new) result }
{
    match write_all(err, line.as_slice()) {
        Ok(()) => own,
        Err(_) => Status::WriteFault,
    }
}
