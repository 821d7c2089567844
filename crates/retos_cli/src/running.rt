//! The commands `run` and `solo`.

ghost use Rattle.std.specs.Prelude.{◌≡◌, ◌≤◌, [], length, None, IfOk};
ghost use Rattle.node_model.specs.Booting.{booted};
ghost use Rattle.node_model.specs.Nodes.{Boots, IsSoundNode};
ghost use Rattle.retos_node.specs.Parts.{parts};
ghost use Rattle.trace_model.specs.Grammar.{empty_script};
ghost use Rattle.trace_model.specs.Scripts.{IsScript};
ghost use Rattle.retos_cli.specs.Bounds.{IsBoundedJob};
ghost use Rattle.retos_cli.specs.Ends.{Ended, ScriptEnds, SupplyEnds, OnlyRead};
ghost use Rattle.retos_cli.specs.Meaning.{form_by, AsksCheck};
ghost use Rattle.retos_cli.specs.Tracing.{RunEnds, faults_of};
ghost use Rattle.retos_cli.specs.declared.command.Command.TheVariants.{Run};

use super::command::Job;
use super::input::{take_all, take_script};
use super::outcome::{Outcome, Refused, Stop, Why};
use super::purpose::Purpose;
use edge_io::folder::Folder;
use edge_io::name::Name;
use edge_io::sink::Sink;
use retos_node::{Ats, BootFault, End, Everys, Node, ObjectList, Script};
use std::alloc::Global;

/// Runs the objects of a job under its script, and prints the trace.
pub fn run_job<F: Folder, O: Sink>(alloc: Global, files: &mut F, job: &Job, out: &mut O) -> Outcome
    requires { IsBoundedJob job.now }
    ensures { Ended (Run job.now) (F.state files.old) (F.state files.new) (O.state out.old) (O.state out.new) result }
{
    match supply(alloc, files, job) {
        Ok((script, objects)) => run_supplied(alloc, job, &script, &objects, out),
        Err(stop) => Outcome::Stopped(stop),
    }
}

/// Takes all inputs of a job: its script and its objects, or why one ends the command.
fn supply<F: Folder>(alloc: Global, files: &mut F, job: &Job) -> Result<(Script, ObjectList), Stop>
    requires { length job.now.names ≤ 16 }
    ensures ends { SupplyEnds (F.state files.old) (F.state files.new) job.now result }
    ensures rules { IfOk result (λ x. IsScript x.0) }
    ensures many { IfOk result (λ x. length x.1 ≡ length job.now.names) }
    ensures read { OnlyRead (F.state files.old) (F.state files.new) }
{
    match script_for(alloc, files, &job.script) {
        Ok(script) => match take_all(alloc, files, &job.names, purpose_of(&job.script)) {
            Ok(objects) => Ok((script, objects)),
            Err(stop) => Err(stop),
        },
        Err(stop) => Err(stop),
    }
}

/// The named script, or the empty one.
fn script_for<F: Folder>(
    alloc: Global,
    files: &mut F,
    script: &Option<Name>,
) -> Result<Script, Stop>
    ensures ends { ScriptEnds (F.state files.old) (F.state files.new) script.now result }
    ensures rules { IfOk result IsScript }
    ensures read { OnlyRead (F.state files.old) (F.state files.new) }
{
    match script {
        Some(name) => take_script(alloc, files, name),
        None => Ok(no_script(alloc)),
    }
}

/// The script in which nothing happens.
pub fn no_script(alloc: Global) -> Script
    ensures empty { result ≡ empty_script }
    ensures rules { IsScript result }
{
    Script {
        ats: Ats::new(alloc),
        everys: Everys::new(),
        mix: None,
    }
}

/// What the objects of a job are for.
fn purpose_of(script: &Option<Name>) -> Purpose
    ensures purpose { result ≡ form_by script.now }
    ensures asked { AsksCheck result }
{
    match script {
        Some(_) => Purpose::Checked,
        None => Purpose::Application,
    }
}

/// Boots the objects and runs them, or tells which has no room.
fn run_supplied<O: Sink>(
    alloc: Global,
    job: &Job,
    script: &Script,
    objects: &ObjectList,
    out: &mut O,
) -> Outcome
    requires bounded { job.now.steps ≤ 10000000 }
    requires script { IsScript script.now }
    requires many { length objects.now ≡ length job.now.names }
    ensures { RunEnds job.now script.now objects.now (O.state out.old) (O.state out.new) result }
{
    match Node::boot(alloc, objects, job.show) {
        Ok(node) => trace(node, job, script, objects, out),
        Err(BootFault::NoRoom { object, cause }) => Outcome::Stopped(Stop::Refuse(Refused {
            name: job.names.at(object as usize).copied(),
            why: Why::Room(cause),
        })),
        Err(BootFault::Memory) => Outcome::Stopped(Stop::NoMemory),
    }
}

/// Runs a booted node, and prints its trace.
fn trace<O: Sink>(
    mut node: Node,
    job: &Job,
    script: &Script,
    objects: &ObjectList,
    out: &mut O,
) -> Outcome
    requires boots { Boots (parts node) objects.now (booted objects.now) }
    requires sound { IsSoundNode (parts node) objects.now }
    requires fresh { (node.steps ≡ 0) × (node.tail ≡ []) }
    requires shows { node.show ≡ job.now.show }
    requires bounded { job.now.steps ≤ 10000000 }
    requires script { IsScript script.now }
    ensures { RunEnds job.now script.now objects.now (O.state out.old) (O.state out.new) result }
{
    match node.run(script, job.steps, objects, out) {
        Ok(end) => Outcome::Done(faults_of(end) > 0),
        Err(_) => Outcome::WriteFault,
    }
}

/// How many faults a run had.
pub fn faults_of(end: End) -> u32
    ensures { result ≡ faults_of end }
{
    match end {
        End::Limit { faults, .. } | End::Quiet { faults, .. } => faults,
    }
}
