//! Mutexes that are handed over, threads that come to wait for one, and threads that go for one.

ghost use Rattle.std.specs.Prelude.{◌≡◌, ◌<◌, [], All};
ghost use Rattle.kernel_model.specs.Kernel.{thread_at, with_thread};
ghost use Rattle.kernel_model.specs.Layout.{kernel_of};
ghost use Rattle.kernel_model.specs.Locks.{RunsOn};
ghost use Rattle.kernel_model.specs.Queues.{Leaves, QueuesHold, to_ready_end};
ghost use Rattle.kernel_model.specs.Sync.{gone_for, handed_over, queued, with_mutex_row};
ghost use Rattle.kernel_model.specs.Words.{identity, waiters_of};
ghost use Rattle.place_model.specs.Settled.{IsSettled};
ghost use Rattle.sync_laws.specs.Waiters.{HasRoom, MayGetReady, MayGo};

use arrayvec::ArrayVec;
use flat_mem::FlatMem;
use kernel_model::states::ON_MUTEX;
use kernel_tables::laws::orderly_queues_hold;
use kernel_tables::{MutexRow, mutex, set_mutex, set_thread, thread};
use kernel_threads::{NONE, THREADS_OF_APP, get_ready};
use sync_laws::{handed_is_settled, handed_runs_on, waiter_may_get_ready, waiters_are_numbers};

/// Hands mutex i of application a over, a below 8 and i below 4: its first waiter owns it and is ready at the end, or it is free.
/// Memory is settled before and after.
pub fn hand_over(m: &mut FlatMem, a: u8, i: u8)
    requires app { a < 8 }
    requires number { i < 4 }
    requires settled { IsSettled m.old }
    ensures leaves { Leaves m.old m.new (handed_over (kernel_of m.old) a i) }
    ensures runs { RunsOn (kernel_of m.old) (kernel_of m.new) }
    ensures settled { IsSettled m.new }
{
    handed_is_settled();
    handed_runs_on();
    waiter_may_get_ready();
    waiters_are_numbers();
    orderly_queues_hold(m);
    let mut waiters = mutex(m, a, i).waiters;
    match waiters.pop_at(0) {
        None => free(m, a, i),
        Some(n) => give(m, a, i, n, waiters),
    }
}

/// Makes mutex i of application a free, a below 8 and i below 4.
fn free(m: &mut FlatMem, a: u8, i: u8)
    requires app { a < 8 }
    requires number { i < 4 }
    ensures { Leaves m.old m.new (with_mutex_row (kernel_of m.old) a i 65535 []) }
{
    let row = MutexRow {
        owner: NONE,
        waiters: ArrayVec::new(),
    };
    set_mutex(m, a, i, &row);
}

/// Gives mutex i of application a, a below 8 and i below 4, to thread n, which is ready at the end. These wait for the mutex then.
fn give(m: &mut FlatMem, a: u8, i: u8, n: u8, waiters: ArrayVec<u8, 4>)
    requires app { a < 8 }
    requires number { i < 4 }
    requires queues { QueuesHold m.old }
    requires may { MayGetReady (kernel_of m.old) a n }
    requires waiters { All (λ x. x < 4) waiters.items }
    ensures { Leaves m.old m.new (to_ready_end (with_mutex_row (kernel_of m.old) a i n waiters.items) (identity a n)) }
{
    let row = MutexRow {
        owner: u16::from(n),
        waiters,
    };
    set_mutex(m, a, i, &row);
    get_ready(m, THREADS_OF_APP * a + n);
}

/// Puts thread n of application a at the end of those that wait for its mutex i, a below 8, i and n below 4.
pub fn join_waiters(m: &mut FlatMem, a: u8, i: u8, n: u8)
    requires app { a < 8 }
    requires number { i < 4 }
    requires thread { n < 4 }
    requires queues { QueuesHold m.old }
    requires list { HasRoom (waiters_of (kernel_of m.old) a i) }
    ensures { Leaves m.old m.new (queued (kernel_of m.old) a i n) }
{
    let mut row = mutex(m, a, i);
    row.waiters.push(n);
    set_mutex(m, a, i, &row);
    set_waiting(m, THREADS_OF_APP * a + n, ON_MUTEX, i, 0);
}

/// Writes into the row of the thread with identity t, t below 32, what it waits for, and which mutex it takes again.
pub fn set_waiting(m: &mut FlatMem, t: u8, state: u16, object: u8, mutex: u8)
    requires number { t < 32 }
    requires queues { QueuesHold m.old }
    ensures { let k = kernel_of m.old in
        Leaves m.old m.new (with_thread k t (record (thread_at k t) { state = state; object = object; mutex = mutex })) }
{
    let mut row = thread(m, t);
    row.state = state;
    row.object = u16::from(object);
    row.mutex = u16::from(mutex);
    set_thread(m, t, &row);
}

/// Lets thread n of application a, a below 8, go for the mutex that it is to take again.
pub fn go_for(m: &mut FlatMem, a: u8, n: u8)
    requires app { a < 8 }
    requires queues { QueuesHold m.old }
    requires may { MayGo (kernel_of m.old) a n }
    ensures { Leaves m.old m.new (gone_for (kernel_of m.old) a n) }
{
    let i = thread(m, THREADS_OF_APP * a + n).mutex as u8;
    let row = mutex(m, a, i);
    if row.owner == NONE {
        give(m, a, i, n, row.waiters);
    } else {
        join_waiters(m, a, i, n);
    }
}
