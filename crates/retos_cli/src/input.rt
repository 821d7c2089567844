//! Taking inputs: reading one, and the object of its text, checked, or the script that its text stands for.

ghost use Rattle.std.specs.Prelude.{◌≡◌, ◌≤◌, ◌↔◌, length, IsTrue, IfOk};
ghost use Rattle.object_form.specs.Spelling.{object_bytes};
ghost use Rattle.trace_model.specs.Scripts.{IsScript};
ghost use Rattle.retos_cli.specs.Meaning.{AsksCheck, Suits, IsFit};
ghost use Rattle.retos_cli.specs.Judging.{IsJudged, IsRead, stop_of};
ghost use Rattle.retos_cli.specs.Ends.{InputEnds, ObjectsEnd, TextEnds, OnlyRead};

use super::command::Names;
use super::outcome::{Refused, Stop, Why};
use super::purpose::Purpose;
use code_model::marks::Marks;
use code_model::object::Object;
use code_model::parts::Kind;
use edge_io::folder::Folder;
use edge_io::name::Name;
use edge_io::whole::{InputFault, read_all};
use object_form::fault::FormFault;
use object_form::reading::read_object;
use read_script::read_script;
use retos_node::{ObjectList, Script};
use static_checker::{Verdict, check};
use std::alloc::Global;
use trace_model::scripts::ScriptFault;

/// Why a text isn't taken.
#[derive(Drop)]
pub enum Judged {
    Refused(Why),
    NoMemory,
}

/// Takes the inputs of these names one after another: their objects with the marks of their unit starts, or why one ends the
/// command.
pub fn take_all<F: Folder>(
    alloc: Global,
    files: &mut F,
    names: &Names,
    purpose: Purpose,
) -> Result<ObjectList, Stop>
    requires asked { AsksCheck purpose }
    requires few { length names.now ≤ 16 }
    ensures ends { ObjectsEnd purpose (F.state files.old) (F.state files.new) names.now result }
    ensures many { IfOk result (λ objects. length objects ≡ length names.now) }
    ensures read { OnlyRead (F.state files.old) (F.state files.new) }
{
    let mut objects = ObjectList::new(alloc);
    let mut at = 0;
    'inputs: while at < names.len() {
        match take(alloc, files, names.at(at), purpose) {
            Ok((object, marks)) => match objects.push(object, marks) {
                Ok(()) => {}
                Err(_) => return Err(Stop::NoMemory),
            },
            Err(stop) => return Err(stop),
        }
        at += 1;
    }
    Ok(objects)
}

/// Takes an input: the object of its text with the marks of its unit starts, or why it ends the command.
fn take<F: Folder>(
    alloc: Global,
    files: &mut F,
    name: &Name,
    purpose: Purpose,
) -> Result<(Object, Marks), Stop>
    requires { AsksCheck purpose }
    ensures ends { InputEnds (F.state files.old) (F.state files.new) (record { name = name.now; purpose = purpose }) result }
    ensures fit { IfOk result (λ x. IsFit purpose x.0 x.1) }
    ensures read { OnlyRead (F.state files.old) (F.state files.new) }
{
    match read_all(alloc, files, name) {
        Ok(bytes) => match judge(alloc, bytes.as_slice(), purpose) {
            Ok(taken) => Ok(taken),
            Err(Judged::Refused(why)) => Err(Stop::Refuse(Refused {
                name: name.copied(),
                why,
            })),
            Err(Judged::NoMemory) => Err(Stop::NoMemory),
        },
        Err(fault) => Err(unread(name, fault)),
    }
}

/// Why an input whose whole read gave nothing ends a command.
pub fn unread(name: &Name, fault: InputFault) -> Stop
    ensures { result ≡ stop_of name.now fault }
{
    match fault {
        InputFault::Absent => Stop::Refuse(Refused {
            name: name.copied(),
            why: Why::Absent,
        }),
        InputFault::TooLong => Stop::Refuse(Refused {
            name: name.copied(),
            why: Why::TooLong,
        }),
        InputFault::Failed => Stop::ReadFault(name.copied()),
        InputFault::Memory => Stop::NoMemory,
    }
}

/// The object of a text that is taken, or why it is refused.
#[tactic(auto, using(crate::proofs::Judgments::refuses_form))]
fn judge(alloc: Global, text: &[u8], purpose: Purpose) -> Result<(Object, Marks), Judged>
    requires size { length text.now ≤ 1048576 }
    requires asked { AsksCheck purpose }
    ensures { IsJudged purpose text.now result }
{
    match read_object(alloc, text) {
        Ok(object) => judge_object(object, purpose),
        Err(FormFault::At { kind, offset }) => Err(Judged::Refused(Why::Form { kind, at: offset })),
        Err(FormFault::Memory) => Err(Judged::NoMemory),
    }
}

/// The object with its marks where it is taken, or why not.
#[tactic(auto, using(crate::proofs::Judgments::refuses_unsuited, crate::proofs::Judgments::refuses_check))]
fn judge_object(object: Object, purpose: Purpose) -> Result<(Object, Marks), Judged>
    requires size { length (object_bytes object) ≤ 1048576 }
    requires asked { AsksCheck purpose }
    ensures { IsJudged purpose (object_bytes object) result }
{
    if !suits(purpose, &object) {
        return Err(Judged::Refused(Why::NotApplication));
    }
    match check(&object) {
        Verdict::Refused { rule, place } => Err(Judged::Refused(Why::Check { rule, place })),
        Verdict::Accepted(marks) => {
            marks.is_bitmap();
            Ok((object, marks))
        }
    }
}

/// Whether the object is one that the command asks for: an application, where it is to run alone.
fn suits(purpose: Purpose, o: &Object) -> bool
    ensures { IsTrue result ↔ Suits purpose o.now }
{
    match purpose {
        Purpose::Checked => true,
        Purpose::Application => match o.kind {
            Kind::App => true,
            Kind::Module => false,
        },
        Purpose::Source | Purpose::Plain | Purpose::Script => false,
    }
}

/// Takes the script of this name, or tells why it ends the command.
pub fn take_script<F: Folder>(alloc: Global, files: &mut F, name: &Name) -> Result<Script, Stop>
    ensures ends { TextEnds (F.state files.old) (F.state files.new) name.now result }
    ensures rules { IfOk result IsScript }
    ensures read { OnlyRead (F.state files.old) (F.state files.new) }
{
    match read_all(alloc, files, name) {
        Ok(text) => match script_in(alloc, text.as_slice()) {
            Ok(script) => Ok(script),
            Err(Judged::Refused(why)) => Err(Stop::Refuse(Refused {
                name: name.copied(),
                why,
            })),
            Err(Judged::NoMemory) => Err(Stop::NoMemory),
        },
        Err(fault) => Err(unread(name, fault)),
    }
}

/// The script that a text stands for, or why the text is refused.
#[tactic(auto, using(crate::proofs::Judgments::refuses_script))]
fn script_in(alloc: Global, text: &[u8]) -> Result<Script, Judged>
    requires { length text.now ≤ 1048576 }
    ensures script { IsRead text.now result }
    ensures rules { IfOk result IsScript }
{
    match read_script(alloc, text) {
        Ok(script) => Ok(script),
        Err(ScriptFault::At { line }) => Err(Judged::Refused(Why::Script { line })),
        Err(ScriptFault::Memory) => Err(Judged::NoMemory),
    }
}
