//! Waiting for conditions, and waking those that wait.

ghost use Rattle.std.specs.Prelude.{◌≡◌, ◌<◌, drop, length, true};
ghost use Rattle.std.specs.List.{fold};
ghost use Rattle.kernel_model.specs.Kernel.{Kernel, condition_at};
ghost use Rattle.kernel_model.specs.Layout.{kernel_of};
ghost use Rattle.kernel_model.specs.Locks.{KeepsLocks, RunsOn};
ghost use Rattle.kernel_model.specs.Queues.{Leaves, QueuesHold};
ghost use Rattle.kernel_model.specs.Running.{ThreadRuns};
ghost use Rattle.kernel_model.specs.Sync.{broadcasted, gone_for, own_app, owns, signal_code, signalled, woken};
ghost use Rattle.kernel_model.specs.Sync.{wait_code, waiting_condition};
ghost use Rattle.place_model.specs.Settled.{IsSettled};
ghost use Rattle.sync_laws.specs.Waiters.{AllMayGo};
ghost use Rattle.kernel_threads.specs.Entries.{AnswersBy};

use crate::Code;
use crate::caller::{LAST_NUMBER, own_app, own_number, owns};
use crate::waiting::{go_for, hand_over, set_waiting};
use arrayvec::ArrayVec;
use flat_mem::FlatMem;
use kernel_model::states::ON_CONDITION;
use kernel_tables::laws::orderly_queues_hold;
use kernel_tables::{cond, set_cond};
use kernel_threads::{THREADS_OF_APP, run_none};
use sync_laws::{
    running_thread_has_room, staying_keeps_locks, waited_is_settled, waiters_are_numbers,
    waiters_may_go, waiting_keeps_locks, waking_keeps_locks, woken_is_settled,
};

/// Hands mutex i of the running thread's application over, and lets the thread wait for condition c, at the end of its list, to
/// take the mutex again; nothing runs. `BadArgument` where c or i is over 3, else `NotOwner` where the thread doesn't own the
/// mutex; then memory is as it was. Memory is settled before and after.
pub fn wait(m: &mut FlatMem, c: u16, i: u16) -> Result<(), Code>
    requires settled { IsSettled m.old }
    requires runs { ThreadRuns (kernel_of m.old) }
    ensures answer { let k = kernel_of m.old in AnswersBy m.old m.new (wait_code k c i) (waiting_condition k c i) tt result }
    ensures locks { KeepsLocks (kernel_of m.old) (kernel_of m.new) }
    ensures settled { IsSettled m.new }
{
    staying_keeps_locks();
    if c > LAST_NUMBER || i > LAST_NUMBER {
        return Err(Code::BadArgument);
    }
    let i = i as u8;
    if !owns(m, i) {
        return Err(Code::NotOwner);
    }
    hand_over_and_wait(m, c as u8, i);
    Ok(())
}

/// Lets the first thread that waits for condition c of the running thread's application, if any, go for its mutex: it owns that and
/// is ready at the end where it is free, else it waits for it at the end of its list. `BadArgument` where c is over 3; then memory
/// is as it was. Memory is settled before and after.
pub fn signal(m: &mut FlatMem, c: u16) -> Result<(), Code>
    requires settled { IsSettled m.old }
    requires runs { ThreadRuns (kernel_of m.old) }
    ensures answer { let k = kernel_of m.old in AnswersBy m.old m.new (signal_code c) (signalled k c) tt result }
    ensures runs { RunsOn (kernel_of m.old) (kernel_of m.new) }
    ensures locks { KeepsLocks (kernel_of m.old) (kernel_of m.new) }
    ensures settled { IsSettled m.new }
{
    staying_keeps_locks();
    if c > LAST_NUMBER {
        return Err(Code::BadArgument);
    }
    wake(m, c as u8, 1);
    Ok(())
}

/// The same for all threads that wait for the condition, in order.
pub fn broadcast(m: &mut FlatMem, c: u16) -> Result<(), Code>
    requires settled { IsSettled m.old }
    requires runs { ThreadRuns (kernel_of m.old) }
    ensures answer { let k = kernel_of m.old in AnswersBy m.old m.new (signal_code c) (broadcasted k c) tt result }
    ensures runs { RunsOn (kernel_of m.old) (kernel_of m.new) }
    ensures locks { KeepsLocks (kernel_of m.old) (kernel_of m.new) }
    ensures settled { IsSettled m.new }
{
    staying_keeps_locks();
    if c > LAST_NUMBER {
        return Err(Code::BadArgument);
    }
    let c = c as u8;
    let count = cond(m, own_app(m), c).len();
    wake(m, c, count);
    Ok(())
}

/// Hands mutex i of its application over, which the running thread owns, and lets it wait for condition c, c and i below 4; nothing
/// runs. Memory is settled before and after.
fn hand_over_and_wait(m: &mut FlatMem, c: u8, i: u8)
    requires condition { c < 4 }
    requires number { i < 4 }
    requires settled { IsSettled m.old }
    requires runs { ThreadRuns (kernel_of m.old) }
    requires own { owns (kernel_of m.old) i ≡ true }
    ensures leaves { Leaves m.old m.new (waiting_condition (kernel_of m.old) c i) }
    ensures locks { KeepsLocks (kernel_of m.old) (kernel_of m.new) }
    ensures settled { IsSettled m.new }
{
    waited_is_settled();
    waiting_keeps_locks();
    running_thread_has_room();
    let a = own_app(m);
    let n = own_number(m);
    hand_over(m, a, i);
    orderly_queues_hold(m);
    let mut list = cond(m, a, c);
    list.push(n);
    set_cond(m, a, c, &list);
    set_waiting(m, THREADS_OF_APP * a + n, ON_CONDITION, c, i);
    run_none(m);
}

/// Lets so many of the first threads that wait for condition c, c below 4, go for their mutexes, in order. Memory is settled before
/// and after.
fn wake(m: &mut FlatMem, c: u8, count: usize)
    requires number { c < 4 }
    requires settled { IsSettled m.old }
    requires runs { ThreadRuns (kernel_of m.old) }
    ensures leaves { Leaves m.old m.new (woken (kernel_of m.old) c count) }
    ensures runs { RunsOn (kernel_of m.old) (kernel_of m.new) }
    ensures locks { KeepsLocks (kernel_of m.old) (kernel_of m.new) }
    ensures settled { IsSettled m.new }
{
    woken_is_settled();
    waking_keeps_locks();
    waiters_are_numbers();
    waiters_may_go();
    orderly_queues_hold(m);
    let a = own_app(m);
    let mut going = cond(m, a, c);
    let rest = behind(&going, count);
    going.truncate(count);
    set_cond(m, a, c, &rest);
    each_goes(m, a, going.as_slice());
}

/// The members of a list behind the first so many.
fn behind(list: &ArrayVec<u8, 4>, count: usize) -> ArrayVec<u8, 4>
    ensures { result.items ≡ drop count list.now.items }
{
    let items = list.as_slice();
    let mut rest = ArrayVec::new();
    for k in count..items.len() {
        rest.push(items[k]);
    }
    rest
}

/// Lets threads of application a, a below 8, go for their mutexes, one after another.
fn each_goes(m: &mut FlatMem, a: u8, going: &[u8])
    requires app { a < 8 }
    requires queues { QueuesHold m.old }
    requires may { AllMayGo (kernel_of m.old) a going.now }
    ensures { Leaves m.old m.new (fold (λ k n. gone_for k a n) (kernel_of m.old) going.now) }
{
    for n in going {
        go_for(m, a, *n);
    }
}
