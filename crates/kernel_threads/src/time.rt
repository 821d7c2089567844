//! Sleeping, and the ticks that wake.

ghost use Rattle.std.specs.Prelude.{◌≡◌, ◌≢◌, ◌+◌, ◌^◌, ◌<◌, drop, length, take};
ghost use Rattle.kernel_model.specs.Kernel.{with_sleepers};
ghost use Rattle.kernel_model.specs.Layout.{kernel_of};
ghost use Rattle.kernel_model.specs.Queues.{Leaves, QueuesHold};
ghost use Rattle.kernel_model.specs.Running.{ThreadRuns};
ghost use Rattle.kernel_model.specs.Waking.{slept, ticked};
ghost use Rattle.kernel_model.specs.Words.{tick_number};
ghost use Rattle.machine_model.specs.Context.{reg};
ghost use Rattle.place_model.specs.Settled.{IsSettled};
ghost use Rattle.thread_laws.specs.Wakings.{Ticks};

use crate::entries::FIRST_ARGUMENT;
use crate::stacks::{run_none, running};
use crate::starting::each_ready;
use flat_mem::FlatMem;
use kernel_model::states::ASLEEP;
use kernel_tables::laws::orderly_queues_hold;
use kernel_tables::{
    SysWord, first_later, get, put, set_thread, sleep_in, sleep_take, sleepers, thread,
};
use msp_machine::Regs;
use thread_laws::{
    running_thread, sleepers_may_wake, slept_is_settled, tick_wakes_the_due, ticked_is_settled,
};

/// The running thread sleeps for as many ticks as R12 says, at least one, and nothing runs. The tick that it waits for fits 32
/// bits. Memory is settled before and after.
pub fn sleep(m: &mut FlatMem, r: &Regs)
    requires settled { IsSettled m.old }
    requires runs { ThreadRuns (kernel_of m.old) }
    requires some { reg r.now 12 ≢ 0 }
    requires room { tick_number (kernel_of m.old) + reg r.now 12 < 2 ^ 32 }
    ensures leaves { Leaves m.old m.new (slept (kernel_of m.old) r.now) }
    ensures settled { IsSettled m.new }
{
    slept_is_settled();
    running_thread();
    orderly_queues_hold(m);
    let t = running(m);
    let wake = tick_number(m) + u32::from(r.get(FIRST_ARGUMENT));
    let mut row = thread(m, t);
    row.state = ASLEEP;
    row.wake_low = (wake % 65536) as u16;
    row.wake_high = (wake / 65536) as u16;
    set_thread(m, t, &row);
    sleep_in(m, t);
    run_none(m);
}

/// The tick number rises by one, and the sleepers whose time has come go to the end of the ready list, by the tick that they waited
/// for and then in the order in which they fell asleep. The new tick number fits 32 bits. No thread need run. Memory is settled
/// before and after.
pub fn tick(m: &mut FlatMem)
    requires settled { IsSettled m.old }
    requires room { tick_number (kernel_of m.old) + 1 < 2 ^ 32 }
    ensures leaves { Leaves m.old m.new (ticked (kernel_of m.old)) }
    ensures wakes { Ticks (kernel_of m.old) (kernel_of m.new) }
    ensures settled { IsSettled m.new }
{
    ticked_is_settled();
    tick_wakes_the_due();
    sleepers_may_wake();
    orderly_queues_hold(m);
    let now = tick_number(m) + 1;
    put(m, SysWord::TickLow, (now % 65536) as u16);
    put(m, SysWord::TickHigh, (now / 65536) as u16);
    let list = sleepers(m);
    let due = &list.as_slice()[..first_later(m, list.as_slice(), now)];
    leave_first(m, due);
    each_ready(m, due);
}

/// The tick number.
fn tick_number(m: &FlatMem) -> u32
    ensures { result ≡ tick_number (kernel_of m.now) }
{
    u32::from(get(m, SysWord::TickLow)) + 65536 * u32::from(get(m, SysWord::TickHigh))
}

/// Takes the first sleepers, which these are, out of their list.
fn leave_first(m: &mut FlatMem, first: &[u8])
    requires queues { QueuesHold m.old }
    requires first { first.now ≡ take (length first.now) (kernel_of m.old).sleepers }
    ensures { Leaves m.old m.new (with_sleepers (kernel_of m.old) (drop (length first.now) (kernel_of m.old).sleepers)) }
{
    for t in first {
        sleep_take(m, *t);
    }
}
