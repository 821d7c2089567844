//! The node.

ghost use Rattle.std.specs.Prelude.{◌≡◌, ◌<◌, ◌≤◌, ◌+◌, List, [], ◌∷◌, ◌++◌, length, IfOk, IfErr, OnErr};
ghost use Rattle.edge_io.specs.Causes.{HasCause};
ghost use Rattle.node_model.specs.Booting.{booted};
ghost use Rattle.node_model.specs.Nodes.{most_steps, IsSoundNode, Boots, Steps, end_line};
ghost use Rattle.node_model.specs.Runs.{Run};
ghost use Rattle.trace_model.specs.declared.scripts.Script.{Script as ScriptOf};
ghost use Rattle.trace_model.specs.declared.records.Record.{Record as RecordOf};
ghost use Rattle.trace_model.specs.Scripts.{IsScript};
ghost use Rattle.retos_node.specs.Parts.{parts, IsBootFault, IsRunEnd, GoesByLines, HoldLocks, HoldsLast, RunsTo, RunsUpTo};
ghost use Rattle.trace_print.specs.Shown.{kept_of, kept_with};

use crate::booting::{NOBODY, Unplaced, begin, cleared, place_all};
use crate::lines::of_end;
use crate::objects::ObjectList;
use crate::printing::{print_line, print_placement};
use crate::running::{locks_law, run_law, run_steps};
use crate::step_laws::step_law;
use crate::stepping;
use crate::turns::Moment;
use edge_io::sink::Sink;
use edge_io::whole::SinkFault;
use flat_mem::FlatMem;
use line_text::line::Line;
use msp_machine::Regs;
use node_laws::boot::{boot_begins, boot_stands};
use node_laws::code::memory_is_shown;
use node_laws::holding::nodes_are_sound;
use place_model::places::NoRoom;
use std::alloc::{AllocError, Global};
use thiserror::Error;
use trace_model::records::Record;
use trace_model::scripts::Script;
use trace_print::{Show, Tail};

/// Why a node isn't booted.
#[derive(Clone, Copy, PartialEq, Eq, Debug, Drop, Error)]
pub enum BootFault {
    /// The first object that doesn't fit, by its place in the list, and why.
    #[error("object {object} has no room: {cause:?}")]
    NoRoom { object: u8, cause: NoRoom },
    /// There was no memory.
    #[error("want of memory")]
    Memory,
}

/// How a run ended: with how many steps, printed values and faults.
#[derive(Clone, Copy, PartialEq, Eq, Debug, Drop)]
pub enum End {
    /// The limit of steps was made.
    Limit { steps: u32, emits: u32, faults: u32 },
    /// Nothing runs any more, and nothing more comes.
    Quiet { steps: u32, emits: u32, faults: u32 },
}

impl End {
    /// The last line of a run with this end.
    pub fn line(&self) -> Line
        ensures { (t : ScriptOf) (r : Run) → IsRunEnd t r self.now → result ≡ end_line t r }
    {
        match self {
            End::Limit {
                steps,
                emits,
                faults,
            } => of_end(false, *steps, *emits, *faults),
            End::Quiet {
                steps,
                emits,
                faults,
            } => of_end(true, *steps, *emits, *faults),
        }
    }
}

/// A node: its memory, its registers, the steps that were made, each domain's object in the list by its place, 255 where there is
/// none, what a run prints, and the last instructions, which are kept only where they are shown.
#[derive(Drop)]
pub struct Node {
    pub mem: FlatMem,
    pub regs: Regs,
    pub steps: u32,
    pub owner: [u8; 12],
    pub show: Show,
    pub tail: Tail,
}

impl Node {
    /// The node after the objects were placed in their order, their threads started and one was chosen; or the first object that
    /// doesn't fit.
    pub fn boot(alloc: Global, objects: &ObjectList, show: Show) -> Result<Node, BootFault>
        ensures booted { IfOk result (λ node. Boots (parts node) objects.now (booted objects.now)) }
        ensures fresh { IfOk result (λ node. (node.steps ≡ 0) × (node.show ≡ show) × (node.tail ≡ [])) }
        ensures sound { IfOk result (λ node. IsSoundNode (parts node) objects.now) }
        ensures refused { IfErr result (λ fault. IsBootFault objects.now fault) }
    {
        boot_begins();
        boot_stands();
        nodes_are_sound();
        memory_is_shown();
        objects.are_accepted();
        let mut mem = match cleared(alloc) {
            Ok(mem) => mem,
            Err(_) => return Err(BootFault::Memory),
        };
        let tail = match Tail::new(alloc) {
            Ok(tail) => tail,
            Err(_) => return Err(BootFault::Memory),
        };
        let mut owner = [NOBODY; 12];
        match place_all(&mut mem, &mut owner, objects) {
            Ok(()) => {}
            Err(Unplaced { object, cause }) => return Err(BootFault::NoRoom { object, cause }),
        }
        let mut regs = Regs::new();
        begin(&mut mem, &mut regs);
        mem.is_flat();
        Ok(Node {
            mem,
            regs,
            steps: 0,
            owner,
            show,
            tail,
        })
    }

    /// One step: the lines of a mask are raised before it, and a dispatch in it takes this pick.
    #[inline(always)]
    pub fn step(&mut self, raised: u16, pick: Option<u32>, objects: &ObjectList) -> Record
        requires few { (self.old).steps < most_steps }
        requires sound { IsSoundNode (parts self.old) objects.now }
        ensures step { Steps (parts self.old) (parts self.new) objects.now raised pick result }
        ensures sound { IsSoundNode (parts self.new) objects.now }
        ensures made { (self.new).steps ≡ (self.old).steps + 1 }
        ensures same { ((self.new).owner ≡ (self.old).owner) × ((self.new).show ≡ (self.old).show) }
        ensures kept { (self.new).tail ≡ kept_with (self.old).show (self.old).tail result }
        ensures holds { (made : List RecordOf) → (self.old).tail ≡ kept_of (self.old).show made → (self.new).tail ≡ kept_of (self.old).show (made ++ result ∷ []) }
    {
        step_law();
        memory_is_shown();
        nodes_are_sound();
        let _ = objects;
        let step = self.steps + 1;
        let moment = Moment { step, pick };
        let record = stepping::step(&mut self.mem, &mut self.regs, raised, moment);
        self.steps = step;
        self.tail.keep_shown(self.show, &record);
        record
    }

    /// Runs under a script for at most so many steps, until it is quiet, and prints the lines, each by a write of its own.
    pub fn run<S: Sink>(
        &mut self,
        script: &Script,
        limit: u32,
        objects: &ObjectList,
        out: &mut S,
    ) -> Result<End, SinkFault>
        requires first { (self.old).steps ≡ 0 }
        requires fresh { (self.old).tail ≡ [] }
        requires limit { limit ≤ most_steps }
        requires script { IsScript script.now }
        requires sound { IsSoundNode (parts self.old) objects.now }
        ensures whole { IfOk result (λ end. RunsTo self.old self.new objects.now limit script.now (S.state out.old) (S.state out.new) end) }
        ensures prefix { OnErr result (RunsUpTo self.old self.new objects.now limit script.now (S.state out.old) (S.state out.new)) }
        ensures cause { HasCause (S.state out.old).faults (S.state out.new).faults result }
        ensures holds { HoldsLast self.old self.new objects.now script.now }
        ensures sound { IsSoundNode (parts self.new) objects.now }
        ensures locks { HoldLocks (parts self.old) objects.now limit script.now }
        ensures lines { GoesByLines S.called self.old objects.now limit script.now out.old out.new result }
    {
        run_law();
        locks_law();
        match print_placement(&self.mem, &self.owner, objects.len(), out) {
            Ok(()) => {}
            Err(fault) => return Err(fault),
        }
        let ended = match run_steps(self, script, limit, objects, out) {
            Ok(ended) => ended,
            Err(fault) => return Err(fault),
        };
        match print_line(ended.line(self.steps).as_slice(), out) {
            Ok(()) => Ok(ended.end(self.steps)),
            Err(fault) => Err(fault),
        }
    }
}
