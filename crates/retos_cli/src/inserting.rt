//! The command `insert`.

ghost use Rattle.std.specs.Prelude.{◌≡◌, ◌≤◌, length};
ghost use Rattle.edge_io.specs.Known.{MayCreate};
ghost use Rattle.object_form.specs.Spelling.{object_bytes};
ghost use Rattle.retos_cli.specs.Ends.{Ended, OnlyRead, PlainEnds};
ghost use Rattle.retos_cli.specs.Judging.{IsGuarded};
ghost use Rattle.retos_cli.specs.Lines.{inserted_line};
ghost use Rattle.retos_cli.specs.declared.command.Command.TheVariants.{Insert};

use super::input::{Judged, unread};
use super::lines::of_inserted;
use super::outcome::{Outcome, Refused, Stop, Why};
use super::writing::put_object;
use check_inserter::insert;
use code_model::object::Object;
use edge_io::folder::Folder;
use edge_io::name::Name;
use edge_io::sink::Sink;
use edge_io::whole::read_all;
use insert_model::fault::InsertFault;
use line_text::line::Line;
use object_form::fault::FormFault;
use object_form::reading::read_object;
use std::alloc::Global;

/// Gives the object of one name its guards, writes it under the other, and prints its line.
pub fn insert_file<F: Folder, O: Sink>(
    alloc: Global,
    files: &mut F,
    from: &Name,
    to: &Name,
    out: &mut O,
) -> Outcome
    requires { MayCreate (F.state files.old).created to.now }
    ensures { Ended (Insert from.now to.now) (F.state files.old) (F.state files.new) (O.state out.old) (O.state out.new) result }
{
    match take_plain(alloc, files, from) {
        Ok(object) => put_object(alloc, files, to, &object, &line_for(to, &object), out),
        Err(stop) => Outcome::Stopped(stop),
    }
}

/// The object of this name with its guards, or why it ends the command.
fn take_plain<F: Folder>(alloc: Global, files: &mut F, name: &Name) -> Result<Object, Stop>
    ensures read { OnlyRead (F.state files.old) (F.state files.new) }
    ensures ends { PlainEnds (F.state files.old) (F.state files.new) name.now result }
{
    match read_all(alloc, files, name) {
        Ok(text) => match guard(alloc, text.as_slice()) {
            Ok(object) => Ok(object),
            Err(Judged::Refused(why)) => Err(Stop::Refuse(Refused {
                name: name.copied(),
                why,
            })),
            Err(Judged::NoMemory) => Err(Stop::NoMemory),
        },
        Err(fault) => Err(unread(name, fault)),
    }
}

/// The object of a text with its guards, or why the text is refused.
#[tactic(auto, using(crate::proofs::Judgments::refuses_plain_form))]
fn guard(alloc: Global, text: &[u8]) -> Result<Object, Judged>
    requires { length text.now ≤ 1048576 }
    ensures { IsGuarded text.now result }
{
    match read_object(alloc, text) {
        Ok(object) => guard_object(alloc, &object),
        Err(FormFault::At { kind, offset }) => Err(Judged::Refused(Why::Form { kind, at: offset })),
        Err(FormFault::Memory) => Err(Judged::NoMemory),
    }
}

/// The object with its guards, or why it can't get them.
#[tactic(auto, using(crate::proofs::Judgments::refuses_insert))]
fn guard_object(alloc: Global, o: &Object) -> Result<Object, Judged>
    requires { length (object_bytes o.now) ≤ 1048576 }
    ensures { IsGuarded (object_bytes o.now) result }
{
    match insert(alloc, o) {
        Ok(guarded) => Ok(guarded),
        Err(InsertFault::At { kind, offset }) => {
            Err(Judged::Refused(Why::Insert { kind, offset }))
        }
        Err(InsertFault::Memory) => Err(Judged::NoMemory),
    }
}

/// The line of an object that is written under this name.
#[tactic(auto, unfolding(crate::specs::Lines::inserted_line))]
fn line_for(to: &Name, o: &Object) -> Line
    ensures { result ≡ inserted_line to.now o.now }
{
    of_inserted(to, o.code.len() as u32)
}
