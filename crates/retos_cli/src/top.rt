//! The top call.

ghost use Rattle.std.specs.Prelude.{◌≡◌, Some};
ghost use Rattle.node_model.specs.Laws.{FetchedLaw};
ghost use Rattle.retos_cli.specs.Commands.{command_of};
ghost use Rattle.retos_cli.specs.Ends.{Ended, EndedBy, MayRun};
ghost use Rattle.retos_cli.specs.Bounds.{IsBounded};
ghost use Rattle.retos_cli.specs.Clauses.{call_of, OutputClause, RefusedClause, ReadFaultClause, WriteFaultClause, NoMemoryClause, CompleteClause, NoCommandClause, OneAnswerClause, ConfinedClause};

use super::assembling::assemble_file;
use super::checking::check_all;
use super::command::Command;
use super::generating::generate_file;
use super::inserting::insert_file;
use super::laws::words_have_one_answer;
use super::outcome::{Outcome, Status, Stop};
use super::parse::read_command;
use super::report::report;
use super::running::run_job;
use edge_io::folder::Folder;
use edge_io::sink::Sink;
use edge_io::words::Words;
use node_model::laws::fetched_where_spelled;
use retos_node::laws::booted_runs_are_sound;
use std::alloc::Global;

/// Does what the words say: reads and writes `files`, prints to `out`, and says on `err` why it doesn't. The status is what the
/// program ends with.
pub fn retos<F: Folder, O: Sink, E: Sink>(
    alloc: Global,
    words: &Words,
    files: &mut F,
    out: &mut O,
    err: &mut E,
) -> Status
    requires may_create { MayRun (command_of words.now) (F.state files.old).created }
    ensures output { OutputClause (call_of F.state O.state E.state words.now files.old files.new out.old out.new err.old err.new) result }
    ensures refused { RefusedClause (call_of F.state O.state E.state words.now files.old files.new out.old out.new err.old err.new) result }
    ensures read_fault { ReadFaultClause (call_of F.state O.state E.state words.now files.old files.new out.old out.new err.old err.new) result }
    ensures write_fault { WriteFaultClause (call_of F.state O.state E.state words.now files.old files.new out.old out.new err.old err.new) result }
    ensures no_memory { NoMemoryClause (call_of F.state O.state E.state words.now files.old files.new out.old out.new err.old err.new) result }
    ensures complete { CompleteClause (call_of F.state O.state E.state words.now files.old files.new out.old out.new err.old err.new) result }
    ensures no_command { NoCommandClause (call_of F.state O.state E.state words.now files.old files.new out.old out.new err.old err.new) result }
    ensures one_answer { OneAnswerClause (call_of F.state O.state E.state words.now files.old files.new out.old out.new err.old err.new) }
    ensures fetched { FetchedLaw }
    ensures confined { ConfinedClause (call_of F.state O.state E.state words.now files.old files.new out.old out.new err.old err.new) }
{
    booted_runs_are_sound();
    fetched_where_spelled();
    words_have_one_answer();
    let outcome = run(alloc, words, files, out);
    report(&outcome, err)
}

/// Reads the words as a command, and carries it out.
fn run<F: Folder, O: Sink>(alloc: Global, words: &Words, files: &mut F, out: &mut O) -> Outcome
    requires { MayRun (command_of words.now) (F.state files.old).created }
    ensures { EndedBy (command_of words.now) (F.state files.old) (F.state files.new) (O.state out.old) (O.state out.new) result }
{
    match read_command(alloc, words) {
        Ok(Some(command)) => carry_out(alloc, &command, files, out),
        Ok(None) => Outcome::BadWords,
        Err(_) => Outcome::Stopped(Stop::NoMemory),
    }
}

fn carry_out<F: Folder, O: Sink>(
    alloc: Global,
    command: &Command,
    files: &mut F,
    out: &mut O,
) -> Outcome
    requires bounded { IsBounded command.now }
    requires may_create { MayRun (Some command.now) (F.state files.old).created }
    ensures { Ended command.now (F.state files.old) (F.state files.new) (O.state out.old) (O.state out.new) result }
{
    match command {
        Command::Run(job) => run_job(alloc, files, job, out),
        Command::Check { names } => check_all(alloc, files, names, out),
        Command::Asm { from, to } => assemble_file(alloc, files, from, to, out),
        Command::Insert { from, to } => insert_file(alloc, files, from, to, out),
        Command::Gen { seed, to } => generate_file(alloc, files, *seed, to, out),
    }
}
