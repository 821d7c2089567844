//! The calls on mutexes and conditions.

ghost use Rattle.std.specs.Prelude.{◌≡◌};
ghost use Rattle.kernel_model.specs.Layout.{kernel_of};
ghost use Rattle.kernel_model.specs.Running.{ThreadRuns};
ghost use Rattle.place_model.specs.Settled.{IsSettled};
ghost use Rattle.node_model.specs.Entries.{row, Lock, Unlock, Wait, Signal, Broadcast};
ghost use Rattle.retos_node.specs.Turns.{Does};

use crate::entries::{BROADCAST, LOCK, SIGNAL, UNLOCK, WAIT};
use crate::turns::{
    CODE, Moment, VALUE, answer_number, called, code_number, go_on, run_next, save_zero,
};
use flat_mem::FlatMem;
use kernel_sync::{broadcast, lock, signal, unlock, wait};
use kernel_threads::to_front;
use msp_machine::Regs;
use trace_model::records::Record;

/// The running thread locks the mutex in R12, or waits for it.
pub fn locks(m: &mut FlatMem, r: &mut Regs, moment: Moment) -> Record
    requires settled { IsSettled m.old }
    requires runs { ThreadRuns (kernel_of m.old) }
    ensures { Does m.old m.new r.old r.new moment result (row Lock) }
{
    let told = called(m, moment, LOCK);
    let mutex = r.get(CODE);
    save_zero(m, r);
    match lock(m, mutex) {
        Ok(true) => {
            to_front(m);
            run_next(m, r, moment);
        }
        Ok(false) => run_next(m, r, moment),
        Err(code) => go_on(m, r, code_number(code), moment),
    }
    told
}

/// The running thread unlocks the mutex in R12.
pub fn unlocks(m: &mut FlatMem, r: &mut Regs, moment: Moment) -> Record
    requires settled { IsSettled m.old }
    requires runs { ThreadRuns (kernel_of m.old) }
    ensures { Does m.old m.new r.old r.new moment result (row Unlock) }
{
    let told = called(m, moment, UNLOCK);
    let answer = unlock(m, r.get(CODE));
    go_on(m, r, answer_number(answer), moment);
    told
}

/// The running thread waits for the condition in R12, and hands over the mutex in R13 till then.
pub fn waits(m: &mut FlatMem, r: &mut Regs, moment: Moment) -> Record
    requires settled { IsSettled m.old }
    requires runs { ThreadRuns (kernel_of m.old) }
    ensures { Does m.old m.new r.old r.new moment result (row Wait) }
{
    let told = called(m, moment, WAIT);
    let condition = r.get(CODE);
    let mutex = r.get(VALUE);
    save_zero(m, r);
    match wait(m, condition, mutex) {
        Ok(()) => run_next(m, r, moment),
        Err(code) => go_on(m, r, code_number(code), moment),
    }
    told
}

/// The first thread that waits for the condition in R12 goes for its mutex.
pub fn signals(m: &mut FlatMem, r: &mut Regs, moment: Moment) -> Record
    requires settled { IsSettled m.old }
    requires runs { ThreadRuns (kernel_of m.old) }
    ensures { Does m.old m.new r.old r.new moment result (row Signal) }
{
    let told = called(m, moment, SIGNAL);
    let answer = signal(m, r.get(CODE));
    go_on(m, r, answer_number(answer), moment);
    told
}

/// All threads that wait for it go for their mutexes.
pub fn broadcasts(m: &mut FlatMem, r: &mut Regs, moment: Moment) -> Record
    requires settled { IsSettled m.old }
    requires runs { ThreadRuns (kernel_of m.old) }
    ensures { Does m.old m.new r.old r.new moment result (row Broadcast) }
{
    let told = called(m, moment, BROADCAST);
    let answer = broadcast(m, r.get(CODE));
    go_on(m, r, answer_number(answer), moment);
    told
}
