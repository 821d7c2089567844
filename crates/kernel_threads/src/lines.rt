//! Waiting for a line, and the lines that wake.

ghost use Rattle.std.specs.Prelude.{◌≡◌, ◌<◌, []};
ghost use Rattle.kernel_model.specs.Kernel.{line_at};
ghost use Rattle.kernel_model.specs.Layout.{kernel_of};
ghost use Rattle.kernel_model.specs.Queues.{Leaves};
ghost use Rattle.kernel_model.specs.Running.{ThreadRuns};
ghost use Rattle.kernel_model.specs.Waking.{line_code, waiting_line, woken_line};
ghost use Rattle.place_model.specs.Settled.{IsSettled};
ghost use Rattle.thread_laws.specs.Wakings.{LineWakes};
ghost use Rattle.kernel_threads.specs.Entries.{AnswersBy};

use crate::Code;
use crate::entries::FIRST_ARGUMENT;
use crate::stacks::{run_none, running};
use crate::starting::each_ready;
use arrayvec::ArrayVec;
use flat_mem::FlatMem;
use kernel_model::map::LINES;
use kernel_model::states::ON_LINE;
use kernel_tables::laws::orderly_queues_hold;
use kernel_tables::{line, set_line, set_thread, thread};
use msp_machine::Regs;
use thread_laws::{
    line_wakes_its_waiters, running_thread, waiters_may_wake, waiting_line_is_settled,
    woken_line_is_settled,
};

/// The running thread waits at the end of the list of the line in R12, and nothing runs. `BadArgument` where that is 0, the line of
/// the ticks, or above 13; then memory is as it was. Memory is settled before and after.
pub fn wait_line(m: &mut FlatMem, r: &Regs) -> Result<(), Code>
    requires settled { IsSettled m.old }
    requires runs { ThreadRuns (kernel_of m.old) }
    ensures answer { AnswersBy m.old m.new (line_code r.now) (waiting_line (kernel_of m.old) r.now) tt result }
    ensures settled { IsSettled m.new }
{
    waiting_line_is_settled();
    running_thread();
    waiters_may_wake();
    orderly_queues_hold(m);
    let number = r.get(FIRST_ARGUMENT);
    if number == 0 || number >= u16::from(LINES) {
        return Err(Code::BadArgument);
    }
    let t = running(m);
    let mut list = line(m, number as u8);
    list.push(t);
    set_line(m, number as u8, &list);
    let mut row = thread(m, t);
    row.state = ON_LINE;
    row.object = number;
    set_thread(m, t, &row);
    run_none(m);
    Ok(())
}

/// All that wait for a line, below 14, go to the end of the ready list in the order of their list. Where none does, memory stays as
/// it is. No thread need run. Memory is settled before and after.
pub fn wake_line(m: &mut FlatMem, number: u8)
    requires number { number < 14 }
    requires settled { IsSettled m.old }
    ensures leaves { Leaves m.old m.new (woken_line (kernel_of m.old) number) }
    ensures wakes { LineWakes (kernel_of m.old) (kernel_of m.new) number }
    ensures nobody { line_at (kernel_of m.old) number ≡ [] → m.new ≡ m.old }
    ensures settled { IsSettled m.new }
{
    woken_line_is_settled();
    line_wakes_its_waiters();
    waiters_may_wake();
    orderly_queues_hold(m);
    let list = line(m, number);
    if list.is_empty() {
        return;
    }
    set_line(m, number, &ArrayVec::new());
    each_ready(m, list.as_slice());
}
