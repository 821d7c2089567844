//! Writing an object to a file, and then a line to out.

ghost use Rattle.std.specs.Prelude.{◌≤◌, ◌++◌};
ghost use Rattle.edge_io.specs.Known.{MayCreate};
ghost use Rattle.retos_cli.specs.Writing.{FileThenLine, IsPut};

use super::outcome::{Outcome, Stop};
use code_model::object::Object;
use edge_io::folder::Folder;
use edge_io::name::Name;
use edge_io::sink::Sink;
use edge_io::whole::{SinkFault, write_all, write_file};
use line_text::line::Line;
use object_form::writing::write_object;
use std::alloc::Global;

/// Writes the object under this name, and then prints the line. Want of memory comes only before the first write.
pub fn put_object<F: Folder, O: Sink>(
    alloc: Global,
    files: &mut F,
    to: &Name,
    o: &Object,
    line: &Line,
    out: &mut O,
) -> Outcome
    requires { MayCreate (F.state files.old).created to.now }
    ensures { IsPut (F.state files.old) (F.state files.new) (O.state out.old) (O.state out.new) to.now o.now line.now result }
{
    match write_object(alloc, o) {
        Ok(text) => match put_text(files, to, text.as_slice(), line, out) {
            Ok(()) => Outcome::Done(false),
            Err(_) => Outcome::WriteFault,
        },
        Err(_) => Outcome::Stopped(Stop::NoMemory),
    }
}

/// Writes the whole text under this name, and then two lines, each by itself.
pub fn put_lines<F: Folder, O: Sink>(
    files: &mut F,
    to: &Name,
    text: &[u8],
    first: &Line,
    second: &Line,
    out: &mut O,
) -> Result<(), SinkFault>
    requires { MayCreate (F.state files.old).created to.now }
    ensures { FileThenLine (F.state files.old) (F.state files.new) (O.state out.old) (O.state out.new) to.now text.now (first.now ++ second.now) result }
{
    match put_text(files, to, text, first, out) {
        Ok(()) => write_all(out, second.as_slice()),
        Err(fault) => Err(fault),
    }
}

/// Writes the whole text under this name, and then the line.
fn put_text<F: Folder, O: Sink>(
    files: &mut F,
    to: &Name,
    text: &[u8],
    line: &Line,
    out: &mut O,
) -> Result<(), SinkFault>
    requires { MayCreate (F.state files.old).created to.now }
    ensures put { FileThenLine (F.state files.old) (F.state files.new) (O.state out.old) (O.state out.new) to.now text.now line.now result }
    ensures later { (O.state out.old).faults ≤ (O.state out.new).faults }
{
    match write_file(files, to, text) {
        Ok(()) => write_all(out, line.as_slice()),
        Err(fault) => Err(fault),
    }
}
