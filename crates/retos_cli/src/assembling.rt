//! The command `asm`.

ghost use Rattle.std.specs.Prelude.{◌≡◌};
ghost use Rattle.edge_io.specs.Known.{MayCreate};
ghost use Rattle.retos_cli.specs.Ends.{Ended, OnlyRead, SourceEnds};
ghost use Rattle.retos_cli.specs.Lines.{assembled_line};
ghost use Rattle.retos_cli.specs.declared.command.Command.TheVariants.{Asm};

use super::input::unread;
use super::lines::of_assembled;
use super::outcome::{Outcome, Refused, Stop, Why};
use super::writing::put_object;
use asm_model::fault::AsmFault;
use code_model::object::Object;
use edge_io::folder::Folder;
use edge_io::name::Name;
use edge_io::sink::Sink;
use edge_io::whole::read_all;
use line_text::line::Line;
use msp_asm::assemble;
use std::alloc::Global;

/// Assembles the source text of one name, writes the object under the other, and prints its line.
pub fn assemble_file<F: Folder, O: Sink>(
    alloc: Global,
    files: &mut F,
    from: &Name,
    to: &Name,
    out: &mut O,
) -> Outcome
    requires { MayCreate (F.state files.old).created to.now }
    ensures { Ended (Asm from.now to.now) (F.state files.old) (F.state files.new) (O.state out.old) (O.state out.new) result }
{
    match take_source(alloc, files, from) {
        Ok(object) => put_object(alloc, files, to, &object, &line_for(to, &object), out),
        Err(stop) => Outcome::Stopped(stop),
    }
}

/// The object that the source text of this name assembles to, or why it ends the command.
fn take_source<F: Folder>(alloc: Global, files: &mut F, name: &Name) -> Result<Object, Stop>
    ensures read { OnlyRead (F.state files.old) (F.state files.new) }
    ensures ends { SourceEnds (F.state files.old) (F.state files.new) name.now result }
{
    match read_all(alloc, files, name) {
        Ok(source) => match assemble(alloc, source.as_slice()) {
            Ok(object) => Ok(object),
            Err(AsmFault::At { line, kind }) => Err(Stop::Refuse(Refused {
                name: name.copied(),
                why: Why::Line { line, kind },
            })),
            Err(AsmFault::Memory) => Err(Stop::NoMemory),
        },
        Err(fault) => Err(unread(name, fault)),
    }
}

/// The line of an object that is written under this name.
#[tactic(auto, unfolding(crate::specs::Lines::assembled_line))]
fn line_for(to: &Name, o: &Object) -> Line
    ensures { result ≡ assembled_line to.now o.now }
{
    of_assembled(to, o.code.len() as u32)
}
