//! Locking and unlocking.

ghost use Rattle.std.specs.Prelude.{◌≡◌, ◌<◌, Ok, false, true};
ghost use Rattle.kernel_model.specs.Ending.{OwnsNone};
ghost use Rattle.kernel_model.specs.Kernel.{Kernel};
ghost use Rattle.kernel_model.specs.Layout.{kernel_of};
ghost use Rattle.kernel_model.specs.Locks.{KeepsLocks, RunsOn};
ghost use Rattle.kernel_model.specs.Queues.{Leaves};
ghost use Rattle.kernel_model.specs.Running.{ThreadRuns};
ghost use Rattle.kernel_model.specs.Sync.{all_handed_over, given_up, unlock_code, unlocked};
ghost use Rattle.kernel_model.specs.Sync.{is_free_mutex, lock_code, locked, own_app, own_number, owns};
ghost use Rattle.kernel_model.specs.Words.{owner_of};
ghost use Rattle.place_model.specs.Settled.{IsSettled};
ghost use Rattle.kernel_threads.specs.Entries.{AnswersBy};

use crate::Code;
use crate::caller::{LAST_NUMBER, own_app, own_number, owns};
use crate::waiting::{hand_over, join_waiters};
use flat_mem::FlatMem;
use kernel_model::map::MUTEXES;
use kernel_tables::laws::orderly_queues_hold;
use kernel_tables::{mutex, set_mutex};
use kernel_threads::{NONE, run_none};
use sync_laws::{
    all_handed_are_settled, handing_over_keeps_locks, locked_is_settled, locking_keeps_locks,
    running_thread_has_room, staying_keeps_locks, waiters_are_numbers,
};

/// Locks mutex i of the running thread's application: true where it was free, and is the thread's now; false where another thread
/// owns it, and this one waits for it at the end of its list, and nothing runs. `BadArgument` where i is over 3, else `OwnLock`
/// where the thread owns it; then memory is as it was. Memory is settled before and after.
pub fn lock(m: &mut FlatMem, i: u16) -> Result<bool, Code>
    requires settled { IsSettled m.old }
    requires runs { ThreadRuns (kernel_of m.old) }
    ensures answer { let k = kernel_of m.old in
        AnswersBy m.old m.new (lock_code k i) (locked k i) (is_free_mutex k (own_app k) i) result }
    ensures owned { result ≡ Ok true → owner_of (kernel_of m.new) (own_app (kernel_of m.old)) i ≡ own_number (kernel_of m.old) }
    ensures locks { KeepsLocks (kernel_of m.old) (kernel_of m.new) }
    ensures settled { IsSettled m.new }
{
    staying_keeps_locks();
    if i > LAST_NUMBER {
        return Err(Code::BadArgument);
    }
    let i = i as u8;
    if owns(m, i) {
        return Err(Code::OwnLock);
    }
    Ok(take_or_wait(m, i))
}

/// Unlocks mutex i of the running thread's application: its first waiter owns it and is ready at the end, or it is free.
/// `BadArgument` where i is over 3, else `NotOwner` where the running thread doesn't own it; then memory is as it was. Memory is
/// settled before and after.
pub fn unlock(m: &mut FlatMem, i: u16) -> Result<(), Code>
    requires settled { IsSettled m.old }
    requires runs { ThreadRuns (kernel_of m.old) }
    ensures answer { let k = kernel_of m.old in AnswersBy m.old m.new (unlock_code k i) (unlocked k i) tt result }
    ensures runs { RunsOn (kernel_of m.old) (kernel_of m.new) }
    ensures locks { KeepsLocks (kernel_of m.old) (kernel_of m.new) }
    ensures settled { IsSettled m.new }
{
    handing_over_keeps_locks();
    staying_keeps_locks();
    if i > LAST_NUMBER {
        return Err(Code::BadArgument);
    }
    let i = i as u8;
    if !owns(m, i) {
        return Err(Code::NotOwner);
    }
    hand_over(m, own_app(m), i);
    Ok(())
}

/// Hands over each mutex that the running thread owns, in rising number. Then it owns none. Memory is settled before and after.
pub fn hand_over_all(m: &mut FlatMem)
    requires settled { IsSettled m.old }
    requires runs { ThreadRuns (kernel_of m.old) }
    ensures leaves { Leaves m.old m.new (all_handed_over (kernel_of m.old)) }
    ensures owns_none { OwnsNone (kernel_of m.new) }
    ensures runs { RunsOn (kernel_of m.old) (kernel_of m.new) }
    ensures locks { KeepsLocks (kernel_of m.old) (kernel_of m.new) }
    ensures settled { IsSettled m.new }
{
    all_handed_are_settled();
    handing_over_keeps_locks();
    for i in 0..MUTEXES {
        give_up(m, i);
    }
}

/// Gives mutex i of its application, i below 4, to the running thread where it is free, and says so; else the thread, which doesn't
/// own it, waits for it, and nothing runs. Memory is settled before and after.
fn take_or_wait(m: &mut FlatMem, i: u8) -> bool
    requires number { i < 4 }
    requires settled { IsSettled m.old }
    requires runs { ThreadRuns (kernel_of m.old) }
    requires other { owns (kernel_of m.old) i ≡ false }
    ensures free { result ≡ is_free_mutex (kernel_of m.old) (own_app (kernel_of m.old)) i }
    ensures leaves { Leaves m.old m.new (locked (kernel_of m.old) i) }
    ensures owned { result ≡ true → owner_of (kernel_of m.new) (own_app (kernel_of m.old)) i ≡ own_number (kernel_of m.old) }
    ensures locks { KeepsLocks (kernel_of m.old) (kernel_of m.new) }
    ensures settled { IsSettled m.new }
{
    locked_is_settled();
    locking_keeps_locks();
    waiters_are_numbers();
    running_thread_has_room();
    orderly_queues_hold(m);
    let a = own_app(m);
    let n = own_number(m);
    let mut row = mutex(m, a, i);
    if row.owner == NONE {
        row.owner = u16::from(n);
        set_mutex(m, a, i, &row);
        true
    } else {
        join_waiters(m, a, i, n);
        run_none(m);
        false
    }
}

/// Hands mutex i of its application over, i below 4, where the running thread owns it. Memory is settled before and after.
fn give_up(m: &mut FlatMem, i: u8)
    requires number { i < 4 }
    requires settled { IsSettled m.old }
    requires runs { ThreadRuns (kernel_of m.old) }
    ensures leaves { Leaves m.old m.new (given_up (kernel_of m.old) i) }
    ensures runs { RunsOn (kernel_of m.old) (kernel_of m.new) }
    ensures settled { IsSettled m.new }
{
    if owns(m, i) {
        hand_over(m, own_app(m), i);
    }
}
