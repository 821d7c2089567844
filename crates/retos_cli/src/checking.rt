//! The command `check`.

ghost use Rattle.std.specs.Prelude.{◌≡◌, ◌<◌, ◌≤◌, length, slice_get, Some, OnOk, OnErr};
ghost use Rattle.edge_io.specs.Known.{appended, GotPrefix};
ghost use Rattle.edge_io.specs.Causes.{HasCause};
ghost use Rattle.load_model.specs.Loading.{Loadable};
ghost use Rattle.retos_cli.specs.Words.{word};
ghost use Rattle.retos_cli.specs.declared.command.Command.TheVariants.{Check};
ghost use Rattle.retos_cli.specs.Ends.{Ended};
ghost use Rattle.retos_cli.specs.Lines.{accepted_line, accepted_lines};

use super::command::Names;
use super::counted::{count_units, count_words};
use super::input::take_all;
use super::lines::of_accepted;
use super::outcome::Outcome;
use super::purpose::Purpose;
use edge_io::folder::Folder;
use edge_io::sink::Sink;
use edge_io::whole::{SinkFault, write_all};
use line_text::line::Line;
use retos_node::ObjectList;
use std::alloc::Global;

/// Checks the objects of these names, and prints a line for each where all are accepted.
pub fn check_all<F: Folder, O: Sink>(
    alloc: Global,
    files: &mut F,
    names: &Names,
    out: &mut O,
) -> Outcome
    requires { length names.now ≤ 16 }
    ensures { Ended (Check names.now) (F.state files.old) (F.state files.new) (O.state out.old) (O.state out.new) result }
{
    match take_all(alloc, files, names, Purpose::Checked) {
        Ok(objects) => match print_lines(names, &objects, out) {
            Ok(()) => Outcome::Done(false),
            Err(_) => Outcome::WriteFault,
        },
        Err(stop) => Outcome::Stopped(stop),
    }
}

/// Prints a line for each name with its object.
fn print_lines<O: Sink>(names: &Names, objects: &ObjectList, out: &mut O) -> Result<(), SinkFault>
    ensures whole { OnOk result ((O.state out.new).bytes ≡ appended (O.state out.old).bytes (accepted_lines names.now objects.now)) }
    ensures prefix { OnErr result (GotPrefix (O.state out.old).bytes (O.state out.new).bytes (accepted_lines names.now objects.now)) }
    ensures cause { HasCause (O.state out.old).faults (O.state out.new).faults result }
{
    let mut at = 0;
    'lines: while at < names.len() && at < objects.len() {
        let line = line_at(names, objects, at);
        match print_line(&line, out) {
            Ok(()) => {}
            Err(fault) => return Err(fault),
        }
        at += 1;
    }
    Ok(())
}

/// Prints a line.
fn print_line<O: Sink>(line: &Line, out: &mut O) -> Result<(), SinkFault>
    ensures whole { OnOk result ((O.state out.new).bytes ≡ appended (O.state out.old).bytes line.now) }
    ensures prefix { OnErr result (GotPrefix (O.state out.old).bytes (O.state out.new).bytes line.now) }
    ensures cause { HasCause (O.state out.old).faults (O.state out.new).faults result }
{
    write_all(out, line.as_slice())
}

/// The line of the name and the object at a place.
fn line_at(names: &Names, objects: &ObjectList, at: usize) -> Line
    requires name { at < length names.now }
    requires object { at < length objects.now }
    ensures { (o : Loadable) → slice_get objects.now at ≡ Some o → result ≡ accepted_line (word names.now at) o.object o.units }
{
    let object = objects.object(at);
    of_accepted(
        names.at(at),
        count_words(object),
        count_units(object, objects.marks(at)),
    )
}
