//! Threads that begin, and those that get ready.

ghost use Rattle.std.specs.Prelude.{◌≡◌, ◌<◌, ◌≤◌};
ghost use Rattle.kernel_model.specs.Layout.{kernel_of};
ghost use Rattle.kernel_model.specs.Queues.{Leaves, QueuesHold, to_ready_end, to_ready_front};
ghost use Rattle.kernel_model.specs.Waking.{each_to_end};
ghost use Rattle.kernel_model.specs.Words.{identity, priority_of, ready_row};
ghost use Rattle.place_model.specs.Settled.{IsSettled};
ghost use Rattle.kernel_model.specs.Starting.{MayBegin, begun, is_free_thread, started};
ghost use Rattle.thread_laws.specs.Facts.{IsUnlisted};
ghost use Rattle.thread_laws.specs.Wakings.{AreUnlisted};

use crate::contexts::new_context;
use crate::stacks::stack_high;
use flat_mem::FlatMem;
use kernel_model::map::THREADS_OF_APP;
use kernel_model::states::{FREE, READY};
use kernel_tables::laws::orderly_queues_hold;
use kernel_tables::{ThreadRow, ready_end, ready_front, set_thread, thread};
use thread_laws::{begun_is_settled, free_thread_is_unlisted, next_may_wake};

/// The priority that an application's thread 0 begins with.
const FIRST_PRIORITY: u16 = 3;

/// Begins thread 0 of an application, below 8, that was loaded and has no thread yet: at the entry that register R0 of its row
/// keeps, with priority 3 and R12 0, at the end of that priority. Memory is settled before and after.
pub fn start(m: &mut FlatMem, app: u8)
    requires number { app < 8 }
    requires settled { IsSettled m.old }
    requires begins { MayBegin (kernel_of m.old) (identity app 0) }
    ensures leaves { Leaves m.old m.new (started (kernel_of m.old) app) }
    ensures settled { IsSettled m.new }
{
    let t = THREADS_OF_APP * app;
    let entry = thread(m, t).regs[0];
    begin(m, t, entry, FIRST_PRIORITY, 0);
}

/// Begins the thread with identity t, a free one of a live application: with a new context and a priority, 0 to 7, at the end of
/// that priority. Memory is settled before and after.
pub fn begin(m: &mut FlatMem, t: u8, pc: u16, priority: u16, r12: u16)
    requires settled { IsSettled m.old }
    requires begins { MayBegin (kernel_of m.old) t }
    requires priority { priority ≤ 7 }
    ensures leaves { Leaves m.old m.new (begun (kernel_of m.old) t pc priority r12) }
    ensures settled { IsSettled m.new }
{
    begun_is_settled();
    free_thread_is_unlisted();
    orderly_queues_hold(m);
    let mut row = thread(m, t);
    row.regs = new_context(pc, stack_high(m, t), r12);
    row.priority = priority;
    set_thread(m, t, &row);
    get_ready(m, t);
}

/// Makes the thread with identity t, t below 32, ready: at the end of its priority, which is 0 to 7. It is in neither list.
pub fn get_ready(m: &mut FlatMem, t: u8)
    requires number { t < 32 }
    requires queues { QueuesHold m.old }
    requires unlisted { IsUnlisted (kernel_of m.old) t }
    requires priority { priority_of (kernel_of m.old) t ≤ 7 }
    ensures { Leaves m.old m.new (to_ready_end (kernel_of m.old) t) }
{
    let row = ready_row(&thread(m, t));
    set_thread(m, t, &row);
    ready_end(m, t);
}

/// Makes distinct threads that are in neither list ready, one after another.
pub fn each_ready(m: &mut FlatMem, list: &[u8])
    requires queues { QueuesHold m.old }
    requires unlisted { let k = kernel_of m.old in AreUnlisted k.threads k.ready k.sleepers list.now }
    ensures { Leaves m.old m.new (each_to_end (kernel_of m.old) list.now) }
{
    next_may_wake();
    for t in list {
        get_ready(m, *t);
    }
}

/// The same as `get_ready`, at the front of its priority.
pub fn get_ready_first(m: &mut FlatMem, t: u8)
    requires number { t < 32 }
    requires queues { QueuesHold m.old }
    requires unlisted { IsUnlisted (kernel_of m.old) t }
    requires priority { priority_of (kernel_of m.old) t ≤ 7 }
    ensures { Leaves m.old m.new (to_ready_front (kernel_of m.old) t) }
{
    let row = ready_row(&thread(m, t));
    set_thread(m, t, &row);
    ready_front(m, t);
}

/// Tells whether the thread with identity t, t below 32, is a free one.
pub fn is_free(m: &FlatMem, t: u8) -> bool
    requires { t < 32 }
    ensures { result ≡ is_free_thread (kernel_of m.now) t }
{
    thread(m, t).state == FREE
}

/// The row of a thread that is ready, and waits for nothing.
fn ready_row(row: &ThreadRow) -> ThreadRow
    ensures { result ≡ ready_row row.now }
{
    ThreadRow {
        regs: row.regs,
        state: READY,
        priority: row.priority,
        wake_low: 0,
        wake_high: 0,
        object: 0,
        mutex: 0,
    }
}
