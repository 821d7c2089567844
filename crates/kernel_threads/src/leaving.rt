//! Lists that the threads of an application leave: the ready list, the sleepers, and those of the lines.

ghost use Rattle.std.specs.Prelude.{◌≡◌, ℕ, ◌<◌, All, map};
ghost use Rattle.kernel_model.specs.Kernel.{line_at, with_ready, with_sleepers};
ghost use Rattle.kernel_threads.specs.Leaving.{with_lines};
ghost use Rattle.kernel_model.specs.Layout.{kernel_of};
ghost use Rattle.kernel_model.specs.Queues.{Leaves, QueuesHold};
ghost use Rattle.kernel_model.specs.Ending.{others};

use arrayvec::ArrayVec;
use flat_mem::FlatMem;
use kernel_model::map::{LINES, THREADS_OF_APP};
use kernel_tables::laws::kernel_fits;
use kernel_tables::{line, ready, ready_take, set_line, sleep_take, sleepers};

/// Takes the threads of application a, a below 8, out of the ready list.
pub fn leave_ready(m: &mut FlatMem, a: u8)
    requires { QueuesHold m.old }
    ensures { Leaves m.old m.new (with_ready (kernel_of m.old) (others a (kernel_of m.old).ready)) }
{
    let list = ready(m);
    for t in list.as_slice() {
        if *t / THREADS_OF_APP == a {
            ready_take(m, *t);
        }
    }
}

/// Takes the threads of application a out of the sleepers.
pub fn leave_sleepers(m: &mut FlatMem, a: u8)
    requires { QueuesHold m.old }
    ensures { Leaves m.old m.new (with_sleepers (kernel_of m.old) (others a (kernel_of m.old).sleepers)) }
{
    let list = sleepers(m);
    for t in list.as_slice() {
        if *t / THREADS_OF_APP == a {
            sleep_take(m, *t);
        }
    }
}

/// Takes the threads of application a out of the lists of those that wait for lines.
pub fn leave_lines(m: &mut FlatMem, a: u8)
    requires { (n : ℕ) → n < 14 → All (λ t. t < 32) (line_at (kernel_of m.old) n) }
    ensures { Leaves m.old m.new (with_lines (kernel_of m.old) (map (others a) (kernel_of m.old).lines)) }
{
    kernel_fits(m);
    for n in 0..LINES {
        let list = others(&line(m, n), a);
        set_line(m, n, &list);
    }
}

/// A list without the threads of application a.
fn others(list: &ArrayVec<u8, 32>, a: u8) -> ArrayVec<u8, 32>
    ensures { result.items ≡ others a list.now.items }
{
    let mut kept = ArrayVec::new();
    for t in list.as_slice() {
        if *t / THREADS_OF_APP != a {
            kept.push(*t);
        }
    }
    kept
}
