//! Saving the running thread, moving it to the ready list, and choosing who runs.

ghost use Rattle.std.specs.Prelude.{◌≡◌, ◌<◌, Contains, length};
ghost use Rattle.kernel_model.specs.Kernel.{with_ready};
ghost use Rattle.kernel_model.specs.Layout.{kernel_of};
ghost use Rattle.kernel_model.specs.Queues.{Leaves, without};
ghost use Rattle.kernel_model.specs.Words.{running_state, with_running, with_state};
ghost use Rattle.place_model.specs.Settled.{IsSettled};
ghost use Rattle.kernel_model.specs.Dispatching.{chosen_place, dispatched, dispatched_context, moved_to_end, moved_to_front, saved};
ghost use Rattle.kernel_model.specs.Running.{NoneRuns, ThreadRuns};
ghost use Rattle.kernel_threads.specs.Contexts.{taken};

use crate::contexts::{new_context, take, words_of};
use crate::stacks::{run, run_none, running};
use crate::starting::{get_ready, get_ready_first};
use flat_mem::FlatMem;
use kernel_model::map::{IDLE, KERNEL_TOP};
use kernel_model::states::RUNNING;
use kernel_tables::laws::orderly_queues_hold;
use kernel_tables::{ready, ready_take, set_thread, thread};
use msp_machine::Regs;
use thread_laws::{
    dispatched_is_settled, end_is_settled, front_is_settled, ready_thread, running_thread,
    saved_is_settled,
};

/// Keeps the registers in the running thread's row. Memory is settled before and after.
pub fn save(m: &mut FlatMem, r: &Regs)
    requires settled { IsSettled m.old }
    requires runs { ThreadRuns (kernel_of m.old) }
    ensures leaves { Leaves m.old m.new (saved (kernel_of m.old) r.now) }
    ensures settled { IsSettled m.new }
{
    saved_is_settled();
    running_thread();
    orderly_queues_hold(m);
    let t = running(m);
    let mut row = thread(m, t);
    row.regs = words_of(r);
    set_thread(m, t, &row);
}

/// Moves the running thread to the ready list, to the front of its priority, and nothing runs. Memory is settled before and after.
pub fn to_front(m: &mut FlatMem)
    requires settled { IsSettled m.old }
    requires runs { ThreadRuns (kernel_of m.old) }
    ensures leaves { Leaves m.old m.new (moved_to_front (kernel_of m.old)) }
    ensures settled { IsSettled m.new }
{
    front_is_settled();
    running_thread();
    orderly_queues_hold(m);
    let t = running(m);
    get_ready_first(m, t);
    run_none(m);
}

/// The same, to the end of its priority.
pub fn to_end(m: &mut FlatMem)
    requires settled { IsSettled m.old }
    requires runs { ThreadRuns (kernel_of m.old) }
    ensures leaves { Leaves m.old m.new (moved_to_end (kernel_of m.old)) }
    ensures settled { IsSettled m.new }
{
    end_is_settled();
    running_thread();
    orderly_queues_hold(m);
    let t = running(m);
    get_ready(m, t);
    run_none(m);
}

/// Lets a ready thread run where nothing does: the first, or with a pick the one at the pick modulo their number. It leaves the
/// ready list, and the registers become those of its row. Where no thread is ready, memory stays as it is, and the registers become
/// those of the machine that idles. Registers take what they can hold: PC and SP with bit 0 cleared, and R3 zero. Memory is settled
/// before and after.
pub fn dispatch(m: &mut FlatMem, r: &mut Regs, pick: Option<u32>)
    requires settled { IsSettled m.old }
    requires none_runs { NoneRuns (kernel_of m.old) }
    ensures leaves { Leaves m.old m.new (dispatched (kernel_of m.old) pick) }
    ensures registers { r.new ≡ taken (dispatched_context (kernel_of m.old) pick) }
    ensures settled { IsSettled m.new }
{
    dispatched_is_settled();
    orderly_queues_hold(m);
    let list = ready(m);
    if list.is_empty() {
        take(r, &new_context(IDLE, KERNEL_TOP, 0));
    } else {
        let list = list.as_slice();
        let t = list[chosen_place(pick, list)];
        take(r, &thread(m, t).regs);
        run_ready(m, t);
    }
}

/// The place in the ready list that is chosen: the first, or with a pick the one at the pick modulo the list's length.
fn chosen_place(pick: Option<u32>, list: &[u8]) -> usize
    requires { 0 < length list.now }
    ensures value { result ≡ chosen_place pick list.now }
    ensures below { result < length list.now }
{
    match pick {
        None => 0,
        Some(pick) => pick as usize % list.len(),
    }
}

/// Takes the thread with identity t out of the ready list, and lets it run. Nothing runs.
fn run_ready(m: &mut FlatMem, t: u8)
    requires settled { IsSettled m.old }
    requires none_runs { NoneRuns (kernel_of m.old) }
    requires there { Contains (kernel_of m.old).ready t }
    ensures { Leaves m.old m.new (with_running (with_state (with_ready (kernel_of m.old) (without (kernel_of m.old).ready t)) t running_state) t) }
{
    ready_thread();
    orderly_queues_hold(m);
    ready_take(m, t);
    let mut row = thread(m, t);
    row.state = RUNNING;
    set_thread(m, t, &row);
    run(m, t);
}
