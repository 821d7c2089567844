//! A run, with its lines.

ghost use Rattle.std.specs.Prelude.{◌≡◌, ◌<◌, ◌≤◌, ◌+◌, ℕ, List, [], ◌∷◌, ◌++◌, codes, decimal, IfOk, IfErr, OnOk};
ghost use Rattle.edge_io.specs.Causes.{HasCause};
ghost use Rattle.load_model.specs.Loading.{Loadable};
ghost use Rattle.trace_model.specs.declared.records.Record.{Record};
ghost use Rattle.trace_model.specs.declared.scripts.Script.{Script as ScriptOf};
ghost use Rattle.trace_model.specs.Scripts.{IsScript};
ghost use Rattle.trace_model.specs.Texts.{end_of_line};
ghost use Rattle.node_model.specs.Systems.{System};
ghost use Rattle.node_model.specs.Sound.{IsSound};
ghost use Rattle.node_model.specs.Runs.{is_quiet, next, run, Run};
ghost use Rattle.node_model.specs.Nodes.{most_steps, IsSoundNode, reason_text, IsEnd, Parts, Represents, RunLaw};
ghost use Rattle.retos_node.specs.Parts.{parts, HoldLocks, HoldsLast, IsRunEnd};
ghost use Rattle.script_schedule.specs.Readiness.{IsReady};
ghost use Rattle.retos_node.specs.Printing.{Printed, PrintedUpTo, shown_lines, told_lines};
ghost use Rattle.trace_print.specs.Shown.{kept_of};
ghost use Rattle.retos_node.specs.Underway.{AreWithin, IsNext, HasReached, HasEnded};

use crate::lines::of_end;
use crate::node::{End, Node};
use crate::objects::ObjectList;
use crate::printing::tell;
use crate::quiet::is_quiet;
use crate::step_laws::next_law;
use edge_io::sink::Sink;
use edge_io::whole::SinkFault;
use kernel_tables::laws::orderly_queues_hold;
use line_text::line::Line;
use node_laws::code::{locks_are_held, memory_is_shown};
use node_laws::runs_are_sound;
use script_schedule::schedule::Schedule;
use trace_model::scripts::Script;

/// How many values were printed, and how many faults came.
#[derive(Clone, Copy, Drop)]
pub struct Counts {
    pub emits: u32,
    pub faults: u32,
}

/// How a run ended: whether it was quiet, and what was counted.
#[derive(Drop)]
pub struct Ended {
    pub quiet: bool,
    pub counts: Counts,
}

impl Ended {
    /// The line of the end, after so many steps.
    pub(crate) fn line(&self, steps: u32) -> Line
        ensures { result ≡ reason_text (self.now).quiet ++ decimal steps ++ codes " emits " ++ decimal (self.now).counts.emits ++ codes " faults " ++ decimal (self.now).counts.faults ++ end_of_line }
    {
        of_end(self.quiet, steps, self.counts.emits, self.counts.faults)
    }

    /// The end, after so many steps.
    pub(crate) fn end(&self, steps: u32) -> End
        ensures { (t : ScriptOf) (r : Run) → IsEnd t r (self.now).quiet steps (self.now).counts.emits (self.now).counts.faults → IsRunEnd t r result }
    {
        let Counts { emits, faults } = self.counts;
        if self.quiet {
            return End::Quiet {
                steps,
                emits,
                faults,
            };
        }
        End::Limit {
            steps,
            emits,
            faults,
        }
    }
}

/// Each run from a sound system is sound.
pub(crate) fn run_law()
    ensures { (t : ScriptOf) → RunLaw t }
{
    next_law();
    runs_are_sound();
}

/// What is promised of owners and waiters holds at each system of a run.
pub(crate) fn locks_law()
    ensures { (n : Parts) (os : List Loadable) (limit : ℕ) (t : ScriptOf) → n.steps ≡ 0 → limit ≤ most_steps → HoldLocks n os limit t }
{
    run_law();
    locks_are_held();
}

/// The steps of a run, with the lines of their records.
pub(crate) fn run_steps<S: Sink>(
    node: &mut Node,
    script: &Script,
    limit: u32,
    objects: &ObjectList,
    out: &mut S,
) -> Result<Ended, SinkFault>
    requires first { (node.old).steps ≡ 0 }
    requires fresh { (node.old).tail ≡ [] }
    requires limit { limit ≤ most_steps }
    requires script { IsScript script.now }
    requires sound { IsSoundNode (parts node.old) objects.now }
    ensures ended { IfOk result (λ ended. (s : System) → Represents (parts node.old) objects.now s → IsSound s → HasEnded objects.now limit script.now s (parts node.new) ended.quiet ended.counts) }
    ensures whole { OnOk result ((s : System) → Represents (parts node.old) objects.now s → IsSound s → Printed S.called S.state out.old out.new (shown_lines (node.old).show (run limit script.now s).records)) }
    ensures reached { (s : System) → Represents (parts node.old) objects.now s → IsSound s → HasReached objects.now limit script.now s (parts node.new) }
    ensures holds { HoldsLast node.old node.new objects.now script.now }
    ensures prefix { IfErr result (λ fault. (s : System) → Represents (parts node.old) objects.now s → IsSound s → PrintedUpTo S.called S.state out.old out.new (shown_lines (node.old).show (run limit script.now s).records) fault) }
    ensures cause { HasCause (S.state out.old).faults (S.state out.new).faults result }
    ensures sound { IsSoundNode (parts node.new) objects.now }
{
    let mut schedule = Schedule::new(script);
    let mut counts = Counts {
        emits: 0,
        faults: 0,
    };
    let mut quiet = node.is_quiet(script, &schedule, objects);
    while !quiet && node.steps < limit {
        match turn(node, script, &mut schedule, &mut counts, objects, out) {
            Ok(()) => {}
            Err(fault) => return Err(fault),
        }
        quiet = node.is_quiet(script, &schedule, objects);
    }
    Ok(Ended { quiet, counts })
}

/// One step, with its line if it is shown. Most steps have no line, and the record of such a one isn't made.
#[inline(always)]
fn turn<S: Sink>(
    node: &mut Node,
    script: &Script,
    schedule: &mut Schedule,
    counts: &mut Counts,
    objects: &ObjectList,
    out: &mut S,
) -> Result<(), SinkFault>
    requires few { (node.old).steps < most_steps }
    requires script { IsScript script.now }
    requires ready { IsReady script.now (node.old).steps schedule.old }
    requires sound { IsSoundNode (parts node.old) objects.now }
    requires within { AreWithin (node.old).steps counts.old }
    ensures ready { IsReady script.now (node.new).steps schedule.new }
    ensures sound { IsSoundNode (parts node.new) objects.now }
    ensures within { AreWithin (node.new).steps counts.new }
    ensures made { (node.new).steps ≡ (node.old).steps + 1 }
    ensures show { (node.new).show ≡ (node.old).show }
    ensures holds { (s : System) (made : List Record) → Represents (parts node.old) objects.now s → IsSound s → (node.old).tail ≡ kept_of (node.old).show made → (node.new).tail ≡ kept_of (node.old).show (made ++ (next script.now s).shown ∷ []) }
    ensures next { (s : System) → Represents (parts node.old) objects.now s → IsSound s → IsNext script.now s objects.now (parts node.new) counts.old counts.new }
    ensures whole { OnOk result ((s : System) → Represents (parts node.old) objects.now s → IsSound s → Printed S.called S.state out.old out.new (told_lines (node.old).show (node.old).tail (next script.now s).shown)) }
    ensures prefix { IfErr result (λ fault. (s : System) → Represents (parts node.old) objects.now s → IsSound s → PrintedUpTo S.called S.state out.old out.new (told_lines (node.old).show (node.old).tail (next script.now s).shown) fault) }
    ensures cause { HasCause (S.state out.old).faults (S.state out.new).faults result }
{
    let stimulus = schedule.next(script, node.steps);
    if let Some((instr, words)) = node.untold_instruction(stimulus.raised) {
        node.run_untold(&instr, words, stimulus.raised, stimulus.pick, objects);
        return Ok(());
    }
    if node.idles_untold(stimulus.raised) {
        node.idle_untold(stimulus.raised, stimulus.pick, objects);
        return Ok(());
    }
    let record = node.step(stimulus.raised, stimulus.pick, objects);
    match tell(node.show, &node.tail, &record, counts, out) {
        Ok(()) => Ok(()),
        Err(fault) => Err(fault),
    }
}

impl Node {
    /// Whether the run is at its quiet end.
    #[inline(always)]
    fn is_quiet(&self, script: &Script, schedule: &Schedule, objects: &ObjectList) -> bool
        requires ready { IsReady script.now (self.now).steps schedule.now }
        requires sound { IsSoundNode (parts self.now) objects.now }
        ensures { (s : System) → Represents (parts self.now) objects.now s → result ≡ is_quiet script.now s }
    {
        memory_is_shown();
        orderly_queues_hold(&self.mem);
        let _ = objects;
        is_quiet(&self.mem, &self.regs, script, schedule, self.steps)
    }
}
