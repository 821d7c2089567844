//! The ready list and the sleepers.
//!
//! Each priority's ready threads are one doubly linked queue, and the sleepers are one.

ghost use Rattle.std.specs.Prelude.{◌≡◌, ◌+◌, ◌*◌, ◌<◌, ◌≤◌, nat_le, All, Contains, length};
ghost use Rattle.std.specs.List.{prefix_len};
ghost use Rattle.kernel_model.specs.Kernel.{with_ready, with_sleepers};
ghost use Rattle.kernel_model.specs.Words.{priority_of, wake_time};
ghost use Rattle.kernel_model.specs.Layout.{kernel_of};
ghost use Rattle.kernel_model.specs.Queues.{Leaves, QueuesHold, at_front, at_end, among_sleepers, without};

use crate::links::{first_link, last_link, link, next_place, prev_place, unlink, walk, walk_ready};
use crate::places::SLEEPERS;
use crate::threads::{priority, wake_time};
use arrayvec::ArrayVec;
use flat_mem::FlatMem;

/// The ready list, the first thread first. The two lists are laid out and in order.
pub fn ready(m: &FlatMem) -> ArrayVec<u8, 32>
    requires { QueuesHold m.now }
    ensures { result.items ≡ (kernel_of m.now).ready }
{
    m.is_flat();
    let mut list = ArrayVec::new();
    walk_ready(m, &mut list);
    list
}

/// The sleepers, the first to wake first. The two lists are laid out and in order.
pub fn sleepers(m: &FlatMem) -> ArrayVec<u8, 32>
    requires { QueuesHold m.now }
    ensures { result.items ≡ (kernel_of m.now).sleepers }
{
    m.is_flat();
    let mut list = ArrayVec::new();
    walk(m, SLEEPERS, &mut list);
    list
}

/// Puts thread t, which is in neither list, directly before the first ready thread whose priority is at most its own, or last where
/// there is none. Its priority is at most 7.
pub fn ready_front(m: &mut FlatMem, t: u8)
    requires number { t < 32 }
    requires queues { QueuesHold m.old }
    requires not_ready { ¬ Contains (kernel_of m.old).ready t }
    requires not_asleep { ¬ Contains (kernel_of m.old).sleepers t }
    requires priority { priority_of (kernel_of m.old) t ≤ 7 }
    ensures leaves { Leaves m.old m.new (with_ready (kernel_of m.old) (at_front (kernel_of m.old) t)) }
    ensures queues { QueuesHold m.new }
{
    m.is_flat();
    let q = priority(m, t) as u8;
    let first = m.byte(next_place(q, 0));
    link(m, q, t, 0, first);
}

/// Puts thread t, which is in neither list, directly before the first ready thread of a lower priority, or last where there is
/// none. Its priority is at most 7.
pub fn ready_end(m: &mut FlatMem, t: u8)
    requires number { t < 32 }
    requires queues { QueuesHold m.old }
    requires not_ready { ¬ Contains (kernel_of m.old).ready t }
    requires not_asleep { ¬ Contains (kernel_of m.old).sleepers t }
    requires priority { priority_of (kernel_of m.old) t ≤ 7 }
    ensures leaves { Leaves m.old m.new (with_ready (kernel_of m.old) (at_end (kernel_of m.old) t)) }
    ensures queues { QueuesHold m.new }
{
    m.is_flat();
    let q = priority(m, t) as u8;
    let last = m.byte(prev_place(q, 0));
    link(m, q, t, last, 0);
}

/// Takes thread t, which is ready, out of the ready list.
pub fn ready_take(m: &mut FlatMem, t: u8)
    requires queues { QueuesHold m.old }
    requires there { Contains (kernel_of m.old).ready t }
    ensures leaves { Leaves m.old m.new (with_ready (kernel_of m.old) (without (kernel_of m.old).ready t)) }
    ensures queues { QueuesHold m.new }
{
    m.is_flat();
    unlink(m, priority(m, t) as u8, t);
}

/// Puts thread t, which is in neither list, directly after the last sleeper whose tick is at most its own, or first where there is
/// none.
pub fn sleep_in(m: &mut FlatMem, t: u8)
    requires number { t < 32 }
    requires queues { QueuesHold m.old }
    requires not_ready { ¬ Contains (kernel_of m.old).ready t }
    requires not_asleep { ¬ Contains (kernel_of m.old).sleepers t }
    ensures leaves { Leaves m.old m.new (with_sleepers (kernel_of m.old) (among_sleepers (kernel_of m.old) t)) }
    ensures queues { QueuesHold m.new }
{
    m.is_flat();
    let list = sleepers(m);
    let place = first_later(m, list.as_slice(), wake_time(m, t));
    let before = last_link(&list.as_slice()[..place]);
    let behind = first_link(&list.as_slice()[place..]);
    link(m, SLEEPERS, t, before, behind);
}

/// Takes thread t, which sleeps, out of the sleepers.
pub fn sleep_take(m: &mut FlatMem, t: u8)
    requires queues { QueuesHold m.old }
    requires there { Contains (kernel_of m.old).sleepers t }
    ensures leaves { Leaves m.old m.new (with_sleepers (kernel_of m.old) (without (kernel_of m.old).sleepers t)) }
    ensures queues { QueuesHold m.new }
{
    m.is_flat();
    unlink(m, SLEEPERS, t);
}

/// The place of the first thread that wakes after a tick, or the list's length. The list's members are below 32.
pub fn first_later(m: &FlatMem, list: &[u8], tick: u32) -> usize
    requires { All (λ t. t < 32) list.now }
    ensures value { result ≡ prefix_len (λ t. nat_le (wake_time (kernel_of m.now) t) tick) list.now }
    ensures within { result ≤ length list.now }
{
    for i in 0..list.len() {
        if wake_time(m, list[i]) > tick {
            return i;
        }
    }
    list.len()
}
