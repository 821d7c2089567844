//! A module leaves, or ends, and its caller runs again.

ghost use Rattle.std.specs.Prelude.{◌≡◌, ◌≢◌, ◌<◌, ◌≤◌, slice_index};
ghost use Rattle.kernel_model.specs.Kernel.{module_at, with_module};
ghost use Rattle.kernel_model.specs.Layout.{kernel_of};
ghost use Rattle.kernel_model.specs.Modules.{call_ended, left, module_ended};
ghost use Rattle.kernel_model.specs.Queues.{Leaves, QueuesHold};
ghost use Rattle.kernel_model.specs.Running.{ThreadRuns};
ghost use Rattle.kernel_model.specs.Words.{none, running, running_module, saved_register};
ghost use Rattle.place_model.specs.Settled.{IsSettled};
ghost use Rattle.kernel_threads.specs.Stacks.{HasStack};

use crate::entering::{FIRST_ARGUMENT, SECOND_ARGUMENT};
use flat_mem::FlatMem;
use kernel_model::states::{ENDED, RUNNING};
use kernel_tables::laws::orderly_queues_hold;
use kernel_tables::{SysWord, app, get, module, put, set_module, set_register, set_thread, thread};
use kernel_threads::{NONE, THREADS_OF_APP, running};
use module_laws::{ended_module_is_settled, left_is_settled};
use msp_machine::Regs;

/// The number of the code that a module has ended.
const MODULE_ENDED: u16 = 6;

/// How far the limit is above the stack's lowest address.
const LIMIT_MARGIN: u16 = 6;

/// The running module leaves: its caller has R12 = 0 and R13 = the module's R12 among its saved registers, and runs again. No
/// module runs then. Memory is settled before and after.
pub fn leave(m: &mut FlatMem, r: &Regs)
    requires settled { IsSettled m.old }
    requires module_runs { running_module (kernel_of m.old) ≢ none }
    ensures leaves { Leaves m.old m.new (left (kernel_of m.old) r.now) }
    ensures runs { ThreadRuns (kernel_of m.new) }
    ensures settled { IsSettled m.new }
{
    left_is_settled();
    orderly_queues_hold(m);
    let t = caller(m);
    set_register(m, t, FIRST_ARGUMENT, 0);
    set_register(m, t, SECOND_ARGUMENT, r.get(FIRST_ARGUMENT));
    end_call(m, t);
}

/// The running module ends: its row says so, and its caller has R12 = 6 among its saved registers, and runs again. No module runs
/// then. Memory is settled before and after.
pub fn end_module(m: &mut FlatMem)
    requires settled { IsSettled m.old }
    requires module_runs { running_module (kernel_of m.old) ≢ none }
    ensures leaves { Leaves m.old m.new (module_ended (kernel_of m.old)) }
    ensures runs { ThreadRuns (kernel_of m.new) }
    ensures settled { IsSettled m.new }
{
    ended_module_is_settled();
    orderly_queues_hold(m);
    let t = caller(m);
    let i = get(m, SysWord::Module) as u8;
    let mut row = module(m, i);
    row.state = ENDED;
    set_module(m, i, &row);
    set_register(m, t, FIRST_ARGUMENT, MODULE_ENDED);
    end_call(m, t);
}

/// The identity of the caller of the running module, below 32.
fn caller(m: &FlatMem) -> u8
    requires settled { IsSettled m.now }
    requires module_runs { running_module (kernel_of m.now) ≢ none }
    ensures value { result ≡ running (kernel_of m.now) }
    ensures below { result < 32 }
    ensures stack { HasStack (kernel_of m.now) result }
{
    running(m)
}

/// Lets the caller run again, which has identity t, t below 32, with the limits of its stack. No module runs then.
fn end_call(m: &mut FlatMem, t: u8)
    requires number { t < 32 }
    requires caller { t ≡ running (kernel_of m.old) }
    requires queues { QueuesHold m.old }
    requires stack { HasStack (kernel_of m.old) t }
    ensures leaves { Leaves m.old m.new (call_ended (kernel_of m.old)) }
    ensures runs { ThreadRuns (kernel_of m.new) }
{
    let mut row = thread(m, t);
    row.state = RUNNING;
    set_thread(m, t, &row);
    let place = app(m, t / THREADS_OF_APP);
    let low = place.lo + place.z + u16::from(t % THREADS_OF_APP) * place.stack;
    put(m, SysWord::Module, NONE);
    put(m, SysWord::Budget, 0);
    put(m, SysWord::CurLim, low + LIMIT_MARGIN);
    put(m, SysWord::CurTop, low + place.stack);
}
