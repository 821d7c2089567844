//! Threads and applications that end.

ghost use Rattle.std.specs.Prelude.{◌≡◌, ◌≢◌, ℕ, ◌<◌, ◌≤◌, All};
ghost use Rattle.kernel_model.specs.Kernel.{app_at, line_at, with_app};
ghost use Rattle.kernel_model.specs.Layout.{kernel_of};
ghost use Rattle.kernel_model.specs.Locks.{EndsLocks};
ghost use Rattle.kernel_model.specs.Queues.{Leaves, QueuesHold};
ghost use Rattle.kernel_model.specs.Words.{app_of, live, none, running, running_module};
ghost use Rattle.place_model.specs.Settled.{IsSettled};
ghost use Rattle.kernel_model.specs.Ending.{OwnsNone, end_state, ended, exited, is_last, is_of, threads_ended, waits_ended};
ghost use Rattle.kernel_model.specs.Running.{ThreadRuns};
ghost use Rattle.kernel_threads.specs.Leaving.{is_last_thread, rows_emptied};

use crate::AppEnd;
use crate::leaving::{leave_lines, leave_ready, leave_sleepers};
use crate::stacks::{run_none, running};
use crate::starting::is_free;
use arrayvec::ArrayVec;
use flat_mem::FlatMem;
use kernel_model::map::{MUTEXES, THREADS_OF_APP};
use kernel_model::states::{DONE, FAULTED, FREE, NONE};
use kernel_tables::laws::orderly_queues_hold;
use kernel_tables::{
    MutexRow, SysWord, ThreadRow, app, get, set_app, set_cond, set_mutex, set_thread,
};
use thread_laws::{end_frees_locks, ended_is_settled, exited_is_settled, running_thread};

/// The row of a thread that isn't live.
const EMPTY_ROW: ThreadRow = ThreadRow {
    regs: [0; 16],
    state: FREE,
    priority: 0,
    wake_low: 0,
    wake_high: 0,
    object: 0,
    mutex: 0,
};

/// Ends the running thread, which owns no mutex, and tells whether it was the last live one of its application, which then ends
/// too, as done. Nothing runs. Memory is settled before and after.
pub fn exit(m: &mut FlatMem) -> bool
    requires settled { IsSettled m.old }
    requires runs { ThreadRuns (kernel_of m.old) }
    requires owns_none { OwnsNone (kernel_of m.old) }
    ensures answer { result ≡ is_last (kernel_of m.old) }
    ensures leaves { Leaves m.old m.new (exited (kernel_of m.old)) }
    ensures settled { IsSettled m.new }
{
    exited_is_settled();
    running_thread();
    orderly_queues_hold(m);
    let t = running(m);
    let last = is_last(m, t);
    if last {
        end_app(m, t / THREADS_OF_APP, AppEnd::Done);
    } else {
        set_thread(m, t, &EMPTY_ROW);
        run_none(m);
    }
    last
}

/// Ends a live application, below 8: its threads leave every list and their rows are empty, its mutexes and conditions are as new,
/// and its row says how it ended. Where one of its threads ran, nothing runs. No module runs. Memory is settled before and after.
pub fn end_app(m: &mut FlatMem, app: u8, how: AppEnd)
    requires number { app < 8 }
    requires settled { IsSettled m.old }
    requires alive { (app_at (kernel_of m.old) app).state ≡ live }
    requires no_module { running_module (kernel_of m.old) ≡ none }
    ensures leaves { Leaves m.old m.new (ended (kernel_of m.old) app how) }
    ensures locks { EndsLocks (kernel_of m.old) (kernel_of m.new) app }
    ensures settled { IsSettled m.new }
{
    ended_is_settled();
    end_frees_locks();
    orderly_queues_hold(m);
    let runs = has_running(m, app);
    end_threads(m, app);
    end_waits(m, app);
    set_end(m, app, how);
    if runs {
        run_none(m);
    }
}

/// Tells whether the running thread is one of application a, a below 8.
fn has_running(m: &FlatMem, a: u8) -> bool
    ensures { result ≡ is_of a (running (kernel_of m.now)) }
{
    get(m, SysWord::Running) / u16::from(THREADS_OF_APP) == u16::from(a)
}

/// Tells whether the thread with identity t, t below 32, is the last live one of its application, which may have at most four.
fn is_last(m: &FlatMem, t: u8) -> bool
    requires number { t < 32 }
    requires threads { (app_at (kernel_of m.now) (app_of t)).threads ≤ 4 }
    ensures { result ≡ is_last_thread (kernel_of m.now) t }
{
    let a = t / THREADS_OF_APP;
    let threads = app(m, a).threads as u8;
    for n in 0..threads {
        let other = THREADS_OF_APP * a + n;
        if other != t && !is_free(m, other) {
            return false;
        }
    }
    true
}

/// Takes the threads of application a, a below 8, out of the lists, and empties their rows.
fn end_threads(m: &mut FlatMem, a: u8)
    requires number { a < 8 }
    requires queues { QueuesHold m.old }
    requires lines { (n : ℕ) → n < 14 → All (λ t. t < 32) (line_at (kernel_of m.old) n) }
    ensures { Leaves m.old m.new (threads_ended (kernel_of m.old) a) }
{
    leave_ready(m, a);
    leave_sleepers(m, a);
    leave_lines(m, a);
    empty_rows(m, a);
}

/// Empties the rows of the threads of application a, a below 8, which stand in neither list.
fn empty_rows(m: &mut FlatMem, a: u8)
    requires number { a < 8 }
    requires queues { QueuesHold m.old }
    requires not_ready { All (λ t. app_of t ≢ a) (kernel_of m.old).ready }
    requires not_asleep { All (λ t. app_of t ≢ a) (kernel_of m.old).sleepers }
    ensures { Leaves m.old m.new (rows_emptied (kernel_of m.old) a 4) }
{
    for n in 0..THREADS_OF_APP {
        set_thread(m, THREADS_OF_APP * a + n, &EMPTY_ROW);
    }
}

/// Makes the mutexes and the conditions of application a, a below 8, as new.
fn end_waits(m: &mut FlatMem, a: u8)
    requires { a < 8 }
    ensures { Leaves m.old m.new (waits_ended (kernel_of m.old) a) }
{
    for i in 0..MUTEXES {
        set_mutex(
            m,
            a,
            i,
            &MutexRow {
                owner: NONE,
                waiters: ArrayVec::new(),
            },
        );
        set_cond(m, a, i, &ArrayVec::new());
    }
}

/// Writes into the row of application a, a below 8, how it ended.
fn set_end(m: &mut FlatMem, a: u8, how: AppEnd)
    requires { a < 8 }
    ensures { Leaves m.old m.new (with_app (kernel_of m.old) a (record (app_at (kernel_of m.old) a) { state = end_state how })) }
{
    let mut row = app(m, a);
    row.state = end_state(how);
    set_app(m, a, &row);
}

/// The state of the row of an application that ended.
fn end_state(how: AppEnd) -> u16
    ensures { result ≡ end_state how }
{
    match how {
        AppEnd::Done => DONE,
        AppEnd::Faulted => FAULTED,
    }
}
