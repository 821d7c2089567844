//! The entries that spawn a thread and that set a priority.

ghost use Rattle.std.specs.Prelude.{◌≡◌, ◌<◌, ◌≤◌, Bool, IfSome, slice_get};
ghost use Rattle.kernel_model.specs.Kernel.{app_at};
ghost use Rattle.kernel_model.specs.Layout.{kernel_of};
ghost use Rattle.kernel_model.specs.Words.{live};
ghost use Rattle.place_model.specs.Settled.{IsSettled};
ghost use Rattle.kernel_model.specs.Entries.{priority_code, with_priority};
ghost use Rattle.kernel_model.specs.Running.{ThreadRuns};
ghost use Rattle.kernel_model.specs.Starting.{MayBegin, free_threads};
ghost use Rattle.kernel_threads.specs.Entries.{AnswersBy, Spawns};

use crate::Code;
use crate::returning::is_own_mark;
use crate::stacks::running;
use crate::starting::{begin, is_free};
use flat_mem::FlatMem;
use kernel_model::map::THREADS_OF_APP;
use kernel_tables::laws::orderly_queues_hold;
use kernel_tables::{app, set_thread, thread};
use msp_machine::Regs;
use thread_laws::{priority_is_settled, running_thread};

/// The highest priority.
const PRIORITY_MAX: u16 = 7;

/// The registers of the entries' arguments.
pub const FIRST_ARGUMENT: u8 = 12;

const SECOND_ARGUMENT: u8 = 13;

const THIRD_ARGUMENT: u8 = 14;

/// Spawns the least free thread of the running thread's application, and answers its number there, 0 to 3: its PC is R12, its
/// priority R13 and its R12 is R14. `BadArgument` where R12 is no mark of the application or R13 is above 7, else `Full` where no
/// thread is free; then memory is as it was. Memory is settled before and after.
pub fn spawn(m: &mut FlatMem, r: &Regs) -> Result<u8, Code>
    requires settled { IsSettled m.old }
    requires runs { ThreadRuns (kernel_of m.old) }
    ensures answer { (b : Bool) × Spawns m.old m.new r.now result b }
    ensures settled { IsSettled m.new }
{
    running_thread();
    let a = running(m) / THREADS_OF_APP;
    let entry = r.get(FIRST_ARGUMENT);
    let priority = r.get(SECOND_ARGUMENT);
    if !is_own_mark(m, entry) {
        return Err(Code::BadArgument);
    }
    if priority > PRIORITY_MAX {
        return Err(Code::BadArgument);
    }
    match free_thread(m, a) {
        None => Err(Code::Full),
        Some(t) => {
            begin(m, t, entry, priority, r.get(THIRD_ARGUMENT));
            Ok(t % THREADS_OF_APP)
        }
    }
}

/// Gives the running thread the priority in R12. `BadArgument` where that is above 7; then memory is as it was. Memory is settled
/// before and after.
pub fn set_priority(m: &mut FlatMem, r: &Regs) -> Result<(), Code>
    requires settled { IsSettled m.old }
    requires runs { ThreadRuns (kernel_of m.old) }
    ensures answer { AnswersBy m.old m.new (priority_code r.now) (with_priority (kernel_of m.old) r.now) tt result }
    ensures settled { IsSettled m.new }
{
    priority_is_settled();
    running_thread();
    orderly_queues_hold(m);
    let priority = r.get(FIRST_ARGUMENT);
    if priority > PRIORITY_MAX {
        return Err(Code::BadArgument);
    }
    let t = running(m);
    let mut row = thread(m, t);
    row.priority = priority;
    set_thread(m, t, &row);
    Ok(())
}

/// The identity of the least free thread of a live application, below 8.
fn free_thread(m: &FlatMem, a: u8) -> Option<u8>
    requires number { a < 8 }
    requires alive { (app_at (kernel_of m.now) a).state ≡ live }
    requires threads { (app_at (kernel_of m.now) a).threads ≤ 4 }
    ensures first { result ≡ slice_get (free_threads (kernel_of m.now) a) 0 }
    ensures begins { IfSome result (λ t. MayBegin (kernel_of m.now) t) }
{
    let threads = app(m, a).threads as u8;
    for n in 0..threads {
        let t = THREADS_OF_APP * a + n;
        if is_free(m, t) {
            return Some(t);
        }
    }
    None
}
