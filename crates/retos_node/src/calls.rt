//! The calls on threads, time and lines, and a thread's end.

ghost use Rattle.std.specs.Prelude.{◌≡◌, ◌%◌, ◌/◌};
ghost use Rattle.kernel_model.specs.Dispatching.{moved_to_end, saved};
ghost use Rattle.kernel_model.specs.Layout.{kernel_of};
ghost use Rattle.kernel_model.specs.Running.{DomainRuns, ThreadRuns};
ghost use Rattle.kernel_model.specs.Words.{tick_number};
ghost use Rattle.machine_model.specs.Context.{set_reg};
ghost use Rattle.place_model.specs.Settled.{IsSettled};
ghost use Rattle.node_model.specs.Entries.{exits, row, Spawn, Yield, Sleep, Priority, Self, Ticks, Line, Emits};
ghost use Rattle.retos_node.specs.Turns.{DispatchesFrom, Does, MayTurn};

use crate::entries::{IDENTITY, LINE, PRIORITY, SLEEP, SPAWN, TICKS, YIELD};
use crate::turns::{
    CODE, Moment, SECOND_VALUE, VALUE, answer_number, called, code_number, go_on, module_runs,
    run_next, runners_are_known, save_zero, who_runs,
};
use flat_mem::FlatMem;
use kernel_sync::hand_over_all;
use kernel_tables::{SysWord, get};
use kernel_threads::laws::mark_answers_agree;
use kernel_threads::{
    THREADS_OF_APP, exit, running, set_priority, sleep, spawn, to_end, wait_line,
};
use msp_machine::Regs;
use trace_model::records::Record;

// ---- threads

/// The running thread ends, and hands its mutexes over.
#[tactic(auto, using(crate::proofs::RunnerLemmas::none_left_by_exit))]
pub fn exits(m: &mut FlatMem, r: &mut Regs, moment: Moment) -> Record
    requires settled { IsSettled m.old }
    requires runs { ThreadRuns (kernel_of m.old) }
    ensures { Does m.old m.new r.old r.new moment result exits }
{
    let who = who_runs(m);
    hand_over_all(m);
    let last = exit(m);
    run_next(m, r, moment);
    Record::Exit {
        step: moment.step,
        who,
        last,
    }
}

/// A new thread of the running thread's application, whose number is answered.
pub fn spawns(m: &mut FlatMem, r: &mut Regs, moment: Moment) -> Record
    requires settled { IsSettled m.old }
    requires runs { ThreadRuns (kernel_of m.old) }
    ensures { Does m.old m.new r.old r.new moment result (row Spawn) }
{
    mark_answers_agree();
    let told = called(m, moment, SPAWN);
    match spawn(m, r) {
        Ok(number) => {
            r.set(VALUE, u16::from(number));
            go_on(m, r, 0, moment);
        }
        Err(code) => go_on(m, r, code_number(code), moment),
    }
    told
}

/// The running thread goes to the end of its priority.
pub fn yields(m: &mut FlatMem, r: &mut Regs, moment: Moment) -> Record
    requires settled { IsSettled m.old }
    requires runs { ThreadRuns (kernel_of m.old) }
    ensures { Does m.old m.new r.old r.new moment result (row Yield) }
{
    let told = called(m, moment, YIELD);
    gives_way(m, r, moment);
    told
}

/// Lets the next thread run, and the running one wait its turn.
fn gives_way(m: &mut FlatMem, r: &mut Regs, moment: Moment)
    requires settled { IsSettled m.old }
    requires runs { ThreadRuns (kernel_of m.old) }
    ensures { DispatchesFrom m.old m.new r.new moment (moved_to_end (saved (kernel_of m.old) (set_reg r.old 12 0))) }
{
    save_zero(m, r);
    to_end(m);
    run_next(m, r, moment);
}

/// The running thread gets the priority in R12.
pub fn gives_priority(m: &mut FlatMem, r: &mut Regs, moment: Moment) -> Record
    requires settled { IsSettled m.old }
    requires runs { ThreadRuns (kernel_of m.old) }
    ensures { Does m.old m.new r.old r.new moment result (row Priority) }
{
    let told = called(m, moment, PRIORITY);
    let answer = set_priority(m, r);
    go_on(m, r, answer_number(answer), moment);
    told
}

/// The running thread is told its application, in the high byte, and its number there.
pub fn tells_identity(m: &mut FlatMem, r: &mut Regs, moment: Moment) -> Record
    requires settled { IsSettled m.old }
    requires runs { ThreadRuns (kernel_of m.old) }
    ensures { Does m.old m.new r.old r.new moment result (row Self) }
{
    let told = called(m, moment, IDENTITY);
    let thread = running(m);
    let identity = 256 * u16::from(thread / THREADS_OF_APP) + u16::from(thread % THREADS_OF_APP);
    r.set(VALUE, identity);
    go_on(m, r, 0, moment);
    told
}

/// The value in R12 is printed.
pub fn emits(m: &mut FlatMem, r: &mut Regs, moment: Moment) -> Record
    requires settled { IsSettled m.old }
    requires runs { ThreadRuns (kernel_of m.old) }
    ensures { Does m.old m.new r.old r.new moment result (row Emits) }
{
    let told = Record::Emit {
        step: moment.step,
        who: who_runs(m),
        value: r.get(CODE),
    };
    go_on(m, r, 0, moment);
    told
}

// ---- time

/// The running thread sleeps for as many ticks as R12 says. No ticks are its turn's end.
pub fn sleeps(m: &mut FlatMem, r: &mut Regs, moment: Moment) -> Record
    requires ready { MayTurn m.old }
    requires runs { ThreadRuns (kernel_of m.old) }
    ensures { Does m.old m.new r.old r.new moment result (row Sleep) }
{
    let told = called(m, moment, SLEEP);
    if r.get(CODE) == 0 {
        gives_way(m, r, moment);
    } else {
        save_zero(m, r);
        sleep(m, r);
        run_next(m, r, moment);
    }
    told
}

/// Who runs is told the tick number, its low word in R13 and its high one in R14. A module goes on at once.
pub fn gives_ticks(m: &mut FlatMem, r: &mut Regs, moment: Moment) -> Record
    requires settled { IsSettled m.old }
    requires runs { DomainRuns (kernel_of m.old) }
    ensures { Does m.old m.new r.old r.new moment result (row Ticks) }
{
    runners_are_known(m);
    let told = called(m, moment, TICKS);
    r.set(VALUE, low_ticks(m));
    r.set(SECOND_VALUE, high_ticks(m));
    if module_runs(m) {
        r.set(CODE, 0);
    } else {
        go_on(m, r, 0, moment);
    }
    told
}

/// The low word of the tick number.
fn low_ticks(m: &FlatMem) -> u16
    ensures { result ≡ tick_number (kernel_of m.now) % 65536 }
{
    let low = get(m, SysWord::TickLow);
    let _high = get(m, SysWord::TickHigh);
    low
}

/// The high word of the tick number.
fn high_ticks(m: &FlatMem) -> u16
    ensures { result ≡ tick_number (kernel_of m.now) / 65536 }
{
    let _low = get(m, SysWord::TickLow);
    get(m, SysWord::TickHigh)
}

// ---- lines

/// The running thread waits for the line in R12.
pub fn waits_for_line(m: &mut FlatMem, r: &mut Regs, moment: Moment) -> Record
    requires settled { IsSettled m.old }
    requires runs { ThreadRuns (kernel_of m.old) }
    ensures { Does m.old m.new r.old r.new moment result (row Line) }
{
    let told = called(m, moment, LINE);
    save_zero(m, r);
    match wait_line(m, r) {
        Ok(()) => run_next(m, r, moment),
        Err(code) => go_on(m, r, code_number(code), moment),
    }
    told
}
