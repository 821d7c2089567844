//! Steps of which no line tells: without `--all` an instruction's record isn't printed, and one of the idle machine's turn neither.
//! Such a record is made only where the tail keeps it.

ghost use Rattle.std.specs.Prelude.{◌≡◌, ◌+◌, ◌<◌, ◌++◌, [], ◌∷◌, List, IfSome, true};
ghost use Rattle.node_model.specs.Nodes.{most_steps, IsSoundNode, Steps};
ghost use Rattle.node_model.specs.Steps.{IsIdle, case_of};
ghost use Rattle.kernel_model.specs.Layout.{kernel_of};
ghost use Rattle.place_model.specs.Settled.{IsSettled};
ghost use Rattle.trace_model.specs.declared.records.Record.{Record as RecordOf};
ghost use Rattle.trace_model.specs.declared.records.Record.TheVariants as told;
ghost use Rattle.retos_node.specs.Cases.{Gives};
ghost use Rattle.retos_node.specs.Parts.{parts};
ghost use Rattle.trace_print.specs.Shown.{kept_of};
ghost use Rattle.retos_node.specs.Untold.{IdlesUntold, IsPlain, IsUntold, plain_record};

use crate::node::Node;
use crate::objects::ObjectList;
use crate::step_laws::{instruction_law, step_law};
use crate::stepping::{FIRST_ENTRY, IDLE, line_to_accept, word};
use crate::turns::{Moment, module_runs, who_runs};
use flat_mem::FlatMem;
use msp_encode::instr::Instr;
use msp_machine::Regs;
use msp_machine::exec::exec;
use msp_machine::fetch::fetch;
use msp_machine::regs::PC;
use node_laws::code::{memory_is_shown, raised_is_shown, turn_stands};
use node_laws::holding::nodes_are_sound;
use node_model::laws::fetched_where_spelled;
use trace_model::records::Record;
use trace_print::{Show, Tail};

/// The instruction that the next step runs, with its words, where it is an application's: no interrupt is accepted, PC is at no
/// address of the kernel, and no module runs.
#[inline(always)]
fn plain_instruction(m: &FlatMem, r: &Regs) -> Option<(Instr, u8)>
    ensures { IfSome result (λ x. IsPlain m.now r.now x.0 x.1) }
{
    fetched_where_spelled();
    m.is_flat();
    match line_to_accept(m, r) {
        None if r.get(PC) < FIRST_ENTRY && !module_runs(m) => match fetch(m, r.get(PC)) {
            Ok((instr, words)) => Some((instr, words)),
            Err(_) => None,
        },
        _ => None,
    }
}

/// Runs an application's instruction, of so many words. Its record is made only where the tail keeps it.
#[inline(always)]
fn run_plain(
    m: &mut FlatMem,
    r: &mut Regs,
    instr: &Instr,
    words: u8,
    moment: Moment,
    show: Show,
    tail: &mut Tail,
)
    requires settled { IsSettled m.old }
    requires plain { IsPlain m.old r.old instr.now words }
    ensures gives { Gives m.old m.new r.old r.new moment (plain_record m.old r.old instr.now words moment.step) }
    ensures holds { (made : List RecordOf) → tail.old ≡ kept_of show made → tail.new ≡ kept_of show (made ++ plain_record m.old r.old instr.now words moment.step ∷ []) }
{
    instruction_law();
    let who = who_runs(m);
    let pc = r.get(PC);
    let word = word(m, pc);
    let writes = exec(m, r, instr, words);
    tail.keep_shown_instr(show, moment.step, who, pc, word, writes);
}

/// What the idle machine's turn gives.
fn idle_stands(m: &FlatMem, r: &Regs, moment: Moment)
    requires case { case_of (kernel_of m.now) r.now ≡ IsIdle }
    ensures { Gives m.now m.now r.now r.now moment (told.IdleTurn moment.step) }
{
    turn_stands();
    m.is_flat();
    let _ = r;
    let _ = moment;
}

impl Node {
    /// The instruction that the next step runs, with its words, where no line is raised before it and no line tells of it.
    #[inline(always)]
    pub(crate) fn untold_instruction(&self, raised: u16) -> Option<(Instr, u8)>
        ensures { IfSome result (λ x. IsUntold self.now raised x.0 x.1) }
    {
        if raised != 0 || self.show.all {
            return None;
        }
        plain_instruction(&self.mem, &self.regs)
    }

    /// One step, which runs this instruction, of so many words.
    #[inline(always)]
    pub(crate) fn run_untold(
        &mut self,
        instr: &Instr,
        words: u8,
        raised: u16,
        pick: Option<u32>,
        objects: &ObjectList,
    )
        requires few { (self.old).steps < most_steps }
        requires sound { IsSoundNode (parts self.old) objects.now }
        requires untold { IsUntold self.old raised instr.now words }
        ensures step { Steps (parts self.old) (parts self.new) objects.now raised pick (plain_record (self.old).mem (self.old).regs instr.now words ((self.old).steps + 1)) }
        ensures sound { IsSoundNode (parts self.new) objects.now }
        ensures made { (self.new).steps ≡ (self.old).steps + 1 }
        ensures same { (self.new).show ≡ (self.old).show }
        ensures holds { (made : List RecordOf) → (self.old).tail ≡ kept_of (self.old).show made
            → (self.new).tail ≡ kept_of (self.old).show
            (made ++ plain_record (self.old).mem (self.old).regs instr.now words ((self.old).steps + 1) ∷ []) }
    {
        step_law();
        memory_is_shown();
        raised_is_shown();
        nodes_are_sound();
        let _ = objects;
        let _ = raised;
        let step = self.steps + 1;
        let moment = Moment { step, pick };
        run_plain(
            &mut self.mem,
            &mut self.regs,
            instr,
            words,
            moment,
            self.show,
            &mut self.tail,
        );
        self.steps = step;
    }

    /// Whether the next step is a turn of the idle machine, where no line is raised before it and no line tells of it.
    #[inline(always)]
    pub(crate) fn idles_untold(&self, raised: u16) -> bool
        ensures { result ≡ true → IdlesUntold self.now raised }
    {
        if raised != 0 || self.show.all || self.regs.get(PC) != IDLE {
            return false;
        }
        match line_to_accept(&self.mem, &self.regs) {
            Some(_) => false,
            None => true,
        }
    }

    /// One step, which is a turn of the idle machine.
    #[inline(always)]
    pub(crate) fn idle_untold(&mut self, raised: u16, pick: Option<u32>, objects: &ObjectList)
        requires few { (self.old).steps < most_steps }
        requires sound { IsSoundNode (parts self.old) objects.now }
        requires idles { IdlesUntold self.old raised }
        ensures step { Steps (parts self.old) (parts self.new) objects.now raised pick (told.IdleTurn ((self.old).steps + 1)) }
        ensures sound { IsSoundNode (parts self.new) objects.now }
        ensures made { (self.new).steps ≡ (self.old).steps + 1 }
        ensures same { (self.new).show ≡ (self.old).show }
        ensures holds { (made : List RecordOf) → (self.old).tail ≡ kept_of (self.old).show made
            → (self.new).tail ≡ kept_of (self.old).show (made ++ told.IdleTurn ((self.old).steps + 1) ∷ []) }
    {
        step_law();
        memory_is_shown();
        raised_is_shown();
        nodes_are_sound();
        let _ = objects;
        let _ = raised;
        let step = self.steps + 1;
        idle_stands(&self.mem, &self.regs, Moment { step, pick });
        self.steps = step;
        self.tail.keep_shown(self.show, &Record::IdleTurn { step });
    }
}
