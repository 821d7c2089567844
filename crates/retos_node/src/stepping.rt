//! A step, by its cases: lines are raised, and then an interrupt is accepted, the machine idles, an entry or a routine of the
//! kernel takes its turn, a module's budget is spent, or the instruction at PC runs. Each case is a function, whose contract says
//! what it gives each sound system that memory and registers stand for (`specs/Cases.antt`).

ghost use Rattle.std.specs.Prelude.{◌≡◌, ◌≢◌, ◌+◌, ◌<◌, ◌≤◌, ◌^◌, IfSome, length, None, false, true};
ghost use Rattle.msp_encode.specs.declared.registers.TheConstants.{PC};
ghost use Rattle.msp_encode.specs.Spelling.{Legal, words_after};
ghost use Rattle.machine_model.specs.Context.{reg};
ghost use Rattle.machine_model.specs.Does.{does, memory_after};
ghost use Rattle.machine_model.specs.Memory.{IsMemory, word_at};
ghost use Rattle.kernel_model.specs.Kernel.{word_of};
ghost use Rattle.kernel_model.specs.Layout.{kernel_of};
ghost use Rattle.kernel_model.specs.declared.rows.SysWord.TheVariants.{Budget};
ghost use Rattle.kernel_model.specs.Queues.{Leaves};
ghost use Rattle.kernel_model.specs.Words.{none, running_module};
ghost use Rattle.trace_model.specs.declared.records.Record.TheVariants as told;
ghost use Rattle.place_model.specs.Settled.{IsSettled};
ghost use Rattle.node_model.specs.Code.{Shows};
ghost use Rattle.node_model.specs.Entries.{module_runs, who_runs};
ghost use Rattle.node_model.specs.Sound.{IsSound};
ghost use Rattle.node_model.specs.Steps.{
  Accepts,
  IsIdle,
  OverBudget,
  Runs,
  Serves,
  case_in_code,
  case_of,
  pending,
  with_pending,
  with_raised,
};
ghost use Rattle.node_model.specs.Systems.{System};
ghost use Rattle.retos_node.specs.Cases.{Gives, GivesRaised, IsAtEntry, StandsForOne, line_to_accept};
ghost use Rattle.retos_node.specs.Turns.{HasRow, MayTurn};

use crate::entries::entry;
use crate::routines::vector;
use crate::step_laws::{acceptance_law, instruction_law, steps_are_safe};
use crate::turns::{Moment, budget_fault, who_runs};
use flat_mem::FlatMem;
use interrupts::laws::highest_found;
use interrupts::lines::LINES;
use interrupts::{Lines, accept, are_allowed};
pub(crate) use kernel_model::entries::FIRST_ENTRY;
use kernel_model::entries::LAST_ENTRY;
use kernel_model::map::MODULE_BUDGET;
pub(crate) use kernel_model::map::{FIRST_ROUTINE, IDLE, LAST_ROUTINE};
use kernel_tables::{SysWord, get, put};
use kernel_threads::NONE;
use msp_encode::instr::Instr;
use msp_machine::Regs;
use msp_machine::exec::exec;
use msp_machine::fetch::fetch;
use msp_machine::regs::{PC, SR};
use node_laws::code::{
    memory_is_shown, modules_are_known, own_marks_are_seen, raised_is_shown, turn_stands,
};
use node_laws::raised_is_sound;
use node_model::laws::{fetched_where_spelled, rowless_is_not_confined};
use trace_model::records::{Record, Who};

/// How many values the bits of a mask of lines have.
const MASKS: u16 = 0x4000;

/// One step, with this number: the lines of a mask are raised before it, and a dispatch in it takes this pick.
#[inline(always)]
pub fn step(m: &mut FlatMem, r: &mut Regs, raised: u16, moment: Moment) -> Record
    requires stands { StandsForOne m.old r.old moment.step }
    ensures { GivesRaised m.old m.new r.old r.new raised moment result }
{
    raised_is_sound();
    raise_lines(m, raised);
    by_case(m, r, moment)
}

// ---- lines

/// Raises the lines of a mask. Where there is none, nothing is read or written.
#[inline(always)]
fn raise_lines(m: &mut FlatMem, raised: u16)
    ensures { (s : System) → Shows m.old s → IsSound s → Shows m.new (with_raised s raised) }
{
    raised_is_shown();
    if raised != 0 {
        raise(m, raised);
    }
}

/// Makes each line of a mask pending.
#[inline(never)]
fn raise(m: &mut FlatMem, mask: u16)
    ensures left { Leaves m.old m.new (with_pending (kernel_of m.old) mask) }
    ensures memory { IsMemory m.new }
{
    let pending = get(m, SysWord::Pending);
    put(m, SysWord::Pending, pending | mask % MASKS);
    m.is_flat();
}

/// The highest pending line, if SR lets interrupts be accepted.
#[inline(always)]
pub(crate) fn line_to_accept(m: &FlatMem, r: &Regs) -> Option<u8>
    ensures value { result ≡ line_to_accept (kernel_of m.now) r.now }
    ensures line { IfSome result (λ n. n < LINES) }
    ensures pending { IfSome result (λ n. 2 ^ n ≤ pending (kernel_of m.now)) }
{
    let pending = get(m, SysWord::Pending);
    if pending == 0 || !are_allowed(r.get(SR)) {
        return None;
    }
    let highest = Lines::from_word(pending).highest();
    highest_found(pending, highest);
    highest
}

// ---- the cases

/// The first case that applies.
#[inline(always)]
fn by_case(m: &mut FlatMem, r: &mut Regs, moment: Moment) -> Record
    requires stands { StandsForOne m.old r.old moment.step }
    ensures { Gives m.old m.new r.old r.new moment result }
{
    match line_to_accept(m, r) {
        Some(line) => acceptance(m, r, line, moment),
        None if r.get(PC) < FIRST_ENTRY => in_code(m, r, moment),
        None => in_kernel(m, r, moment),
    }
}

/// What holds of the memory and the registers of a sound system.
fn memory_is_ready(m: &FlatMem, r: &Regs, moment: Moment)
    requires { StandsForOne m.now r.now moment.step }
    ensures ready { MayTurn m.now }
    ensures settled { IsSettled m.now }
{
    memory_is_shown();
    modules_are_known();
    let _ = m;
    let _ = r;
    let _ = moment;
}

/// An interrupt of a line is accepted, which isn't pending any more.
#[inline(never)]
fn acceptance(m: &mut FlatMem, r: &mut Regs, line: u8, moment: Moment) -> Record
    requires line { line < LINES }
    requires pending { 2 ^ line ≤ pending (kernel_of m.old) }
    requires stands { StandsForOne m.old r.old moment.step }
    requires case { case_of (kernel_of m.old) r.old ≡ Accepts line }
    ensures { Gives m.old m.new r.old r.new moment result }
{
    acceptance_law();
    memory_is_ready(m, r, moment);
    let who = who_runs(m);
    let pc = r.get(PC);
    let pending = get(m, SysWord::Pending);
    let writes = accept(m, r, line);
    put(m, SysWord::Pending, pending - (1 << line));
    m.is_flat();
    Record::Accept {
        step: moment.step,
        who,
        line,
        pc,
        writes,
    }
}

/// The case at an address of the kernel.
#[inline(never)]
fn in_kernel(m: &mut FlatMem, r: &mut Regs, moment: Moment) -> Record
    requires above { FIRST_ENTRY ≤ reg r.old PC }
    requires stands { StandsForOne m.old r.old moment.step }
    requires none { line_to_accept (kernel_of m.old) r.old ≡ None }
    ensures { Gives m.old m.new r.old r.new moment result }
{
    r.is_context();
    let pc = r.get(PC);
    if pc <= LAST_ENTRY {
        enter(m, r, moment)
    } else if pc == IDLE {
        idle_turn(m, r, moment)
    } else if pc >= FIRST_ROUTINE && pc <= LAST_ROUTINE {
        serve(m, r, ((pc - FIRST_ROUTINE) / 2) as u8, moment)
    } else {
        in_code(m, r, moment)
    }
}

/// The idle machine's turn changes nothing.
fn idle_turn(m: &FlatMem, r: &Regs, moment: Moment) -> Record
    requires case { case_of (kernel_of m.now) r.now ≡ IsIdle }
    ensures { Gives m.now m.now r.now r.now moment result }
{
    turn_stands();
    m.is_flat();
    let _ = r;
    Record::IdleTurn { step: moment.step }
}

/// The turn of the entry at PC.
fn enter(m: &mut FlatMem, r: &mut Regs, moment: Moment) -> Record
    requires stands { StandsForOne m.old r.old moment.step }
    requires at { IsAtEntry (kernel_of m.old) r.old }
    ensures { Gives m.old m.new r.old r.new moment result }
{
    steps_are_safe();
    turn_stands();
    own_marks_are_seen();
    rowless_is_not_confined();
    memory_is_ready(m, r, moment);
    has_a_row(m, r, moment);
    let at = r.get(PC);
    let record = entry(m, r, at, moment);
    m.is_flat();
    record
}

/// The entry at PC has a row for who runs.
fn has_a_row(m: &FlatMem, r: &Regs, moment: Moment)
    requires stands { StandsForOne m.now r.now moment.step }
    requires at { IsAtEntry (kernel_of m.now) r.now }
    ensures { HasRow (kernel_of m.now) (reg r.now PC) }
{
    steps_are_safe();
    rowless_is_not_confined();
    let _ = m;
    let _ = r;
    let _ = moment;
}

/// No module runs at a routine.
fn no_module_runs(m: &FlatMem, r: &Regs, line: u8, moment: Moment)
    requires stands { StandsForOne m.now r.now moment.step }
    requires case { case_of (kernel_of m.now) r.now ≡ Serves line }
    ensures { running_module (kernel_of m.now) ≡ none }
{
    steps_are_safe();
    let _ = m;
    let _ = r;
    let _ = line;
    let _ = moment;
}

/// The turn of a line's routine.
fn serve(m: &mut FlatMem, r: &mut Regs, line: u8, moment: Moment) -> Record
    requires line { line < LINES }
    requires stands { StandsForOne m.old r.old moment.step }
    requires case { case_of (kernel_of m.old) r.old ≡ Serves line }
    ensures { Gives m.old m.new r.old r.new moment result }
{
    steps_are_safe();
    turn_stands();
    own_marks_are_seen();
    memory_is_ready(m, r, moment);
    no_module_runs(m, r, line, moment);
    let record = vector(m, r, line, moment);
    m.is_flat();
    record
}

// ---- in code

/// An instruction, or the end of a module whose budget is spent.
#[inline(always)]
fn in_code(m: &mut FlatMem, r: &mut Regs, moment: Moment) -> Record
    requires stands { StandsForOne m.old r.old moment.step }
    requires case { case_of (kernel_of m.old) r.old ≡ case_in_code (kernel_of m.old) }
    ensures { Gives m.old m.new r.old r.new moment result }
{
    memory_is_ready(m, r, moment);
    let who = who_runs(m);
    if get(m, SysWord::Module) == NONE {
        instruction(m, r, who, moment)
    } else {
        in_module(m, r, who, moment)
    }
}

/// A module's instruction, or its end where it ran as many as it may.
#[inline(never)]
fn in_module(m: &mut FlatMem, r: &mut Regs, who: Who, moment: Moment) -> Record
    requires stands { StandsForOne m.old r.old moment.step }
    requires case { case_of (kernel_of m.old) r.old ≡ case_in_code (kernel_of m.old) }
    requires who { who ≡ who_runs (kernel_of m.old) }
    requires runs { module_runs (kernel_of m.old) ≡ true }
    ensures { Gives m.old m.new r.old r.new moment result }
{
    let count = get(m, SysWord::Budget);
    if count < MODULE_BUDGET {
        counted_instruction(m, r, who, count, moment)
    } else {
        over_budget(m, r, moment)
    }
}

/// The end of a module that ran as many instructions as it may.
fn over_budget(m: &mut FlatMem, r: &mut Regs, moment: Moment) -> Record
    requires stands { StandsForOne m.old r.old moment.step }
    requires case { case_of (kernel_of m.old) r.old ≡ OverBudget }
    requires runs { running_module (kernel_of m.old) ≢ none }
    ensures { Gives m.old m.new r.old r.new moment result }
{
    steps_are_safe();
    turn_stands();
    own_marks_are_seen();
    memory_is_ready(m, r, moment);
    let record = budget_fault(m, r, moment);
    m.is_flat();
    record
}

/// A module's instruction, which is counted.
fn counted_instruction(
    m: &mut FlatMem,
    r: &mut Regs,
    who: Who,
    count: u16,
    moment: Moment,
) -> Record
    requires case { case_of (kernel_of m.old) r.old ≡ Runs }
    requires who { who ≡ who_runs (kernel_of m.old) }
    requires runs { module_runs (kernel_of m.old) ≡ true }
    requires count { count ≡ word_of (kernel_of m.old) Budget }
    requires few { count < MODULE_BUDGET }
    ensures { Gives m.old m.new r.old r.new moment result }
{
    instruction_law();
    fetched_where_spelled();
    turn_stands();
    m.is_flat();
    match fetch(m, r.get(PC)) {
        Ok((instr, words)) => {
            let record = execute(m, r, &instr, words, who, moment);
            put(m, SysWord::Budget, count + 1);
            m.is_flat();
            record
        }
        Err(_) => Record::IdleTurn { step: moment.step },
    }
}

/// An instruction of an application.
#[inline(always)]
fn instruction(m: &mut FlatMem, r: &mut Regs, who: Who, moment: Moment) -> Record
    requires case { case_of (kernel_of m.old) r.old ≡ Runs }
    requires who { who ≡ who_runs (kernel_of m.old) }
    requires no_module { module_runs (kernel_of m.old) ≡ false }
    ensures { Gives m.old m.new r.old r.new moment result }
{
    instruction_law();
    fetched_where_spelled();
    turn_stands();
    m.is_flat();
    match fetch(m, r.get(PC)) {
        Ok((instr, words)) => execute(m, r, &instr, words, who, moment),
        Err(_) => Record::IdleTurn { step: moment.step },
    }
}

/// Runs the instruction at PC, of so many words.
#[inline(always)]
fn execute(
    m: &mut FlatMem,
    r: &mut Regs,
    instr: &Instr,
    words: u8,
    who: Who,
    moment: Moment,
) -> Record
    requires legal { Legal instr.now }
    requires size { words ≡ 1 + length (words_after instr.now) }
    ensures memory { m.new ≡ memory_after m.old (does m.old r.old instr.now words) }
    ensures context { r.new ≡ (does m.old r.old instr.now words).context }
    ensures shown { let pc = reg r.old PC in result ≡ told.Instr moment.step who pc (word_at m.old pc) (does m.old r.old instr.now words).written }
    ensures is_memory { IsMemory m.new }
{
    let pc = r.get(PC);
    let word = word(m, pc);
    let writes = exec(m, r, instr, words);
    Record::Instr {
        step: moment.step,
        who,
        pc,
        word,
        writes,
    }
}

/// The word at an address.
#[tactic(auto, unfolding(machine_model::specs::Memory::word_at))]
pub(crate) fn word(m: &FlatMem, at: u16) -> u16
    ensures { result ≡ word_at m.now at }
{
    m.word(at)
}
