//! Whether the ready list and the sleepers are laid out and in order.

ghost use Rattle.std.specs.Prelude.{◌≡◌, ◌≢◌, ◌↔◌, ◌+◌, ◌*◌, ◌<◌, ◌≤◌, ℕ, IsTrue, All, AllPairs, List, [], ◌∷◌, length, replicate, slice_index};
ghost use Rattle.kernel_model.specs.Bytes.{part};
ghost use Rattle.kernel_model.specs.Links.{first, last, queue};
ghost use Rattle.kernel_model.specs.Words.{priority_of, wake_time};
ghost use Rattle.kernel_model.specs.Layout.{kernel_of, links_of, queue_of};
ghost use Rattle.kernel_model.specs.Queues.{QueuesHold, AreQueues};
ghost use Rattle.kernel_tables.specs.Lists.{IsNewAt, AreApart};
ghost use Rattle.kernel_tables.specs.Linking.{AreEnds, AreLinks};

use crate::links::{first_link, last_link, next_link, prev_link, walk, walk_ready};
use crate::places::{NEXT_AT, QUEUE_ENDS, SLEEPERS, THREAD_ROW_BYTES, THREAD_ROWS, UNUSED_ENDS};
use crate::threads::{priority, wake_time};
use arrayvec::ArrayVec;
use flat_mem::FlatMem;

/// Whether the ready list and the sleepers are laid out and in order: their members are below 32, no thread stands twice in the
/// two, each ready thread stands in the queue of its priority, which is at most 7, sleepers stand by the tick that they wait for,
/// and the queues' ends and each thread's links are those of the two lists.
pub fn queues_hold(m: &FlatMem) -> bool
    ensures { IsTrue result ↔ QueuesHold m.now }
{
    m.is_flat();
    let mut ready_list: ArrayVec<u8, 32> = ArrayVec::new();
    let mut sleeper_list: ArrayVec<u8, 32> = ArrayVec::new();
    if !walk_ready(m, &mut ready_list) {
        return false;
    }
    if !walk(m, SLEEPERS, &mut sleeper_list) {
        return false;
    }
    let ready = ready_list.as_slice();
    let sleepers = sleeper_list.as_slice();
    if !in_order(m, ready, sleepers) {
        return false;
    }
    if !ends_hold(m, ready, sleepers) {
        return false;
    }
    links_hold(m, ready, sleepers)
}

/// Whether the queues' ends are those of two lists, and the bytes behind them 0.
fn ends_hold(m: &FlatMem, ready: &[u8], sleepers: &[u8]) -> bool
    requires room { length ready.now ≤ 32 }
    requires ready { All (λ t. t < 32) ready.now }
    requires sleepers { All (λ t. t < 32) sleepers.now }
    ensures { IsTrue result ↔ AreEnds m.now (kernel_of m.now).threads ready.now sleepers.now }
{
    for q in 0..9u8 {
        if !are_at(m, QUEUE_ENDS + 2 * q as u16, &ends(m, ready, sleepers, q)) {
            return false;
        }
    }
    are_at(m, UNUSED_ENDS, &[0; 46])
}

/// Whether each thread's links are those of two lists.
fn links_hold(m: &FlatMem, ready: &[u8], sleepers: &[u8]) -> bool
    requires room { length ready.now ≤ 32 }
    requires ready { All (λ t. t < 32) ready.now }
    requires sleepers { All (λ t. t < 32) sleepers.now }
    ensures { IsTrue result ↔ AreLinks m.now (kernel_of m.now).threads ready.now sleepers.now }
{
    for t in 0..32u8 {
        let at = THREAD_ROWS + THREAD_ROW_BYTES * t as u16 + NEXT_AT;
        if !are_at(m, at, &links(m, ready, sleepers, t)) {
            return false;
        }
    }
    true
}

/// The first and the last link of queue q of two lists.
fn ends(m: &FlatMem, ready: &[u8], sleepers: &[u8], q: u8) -> [u8; 2]
    requires room { length ready.now ≤ 32 }
    requires ready { All (λ t. t < 32) ready.now }
    requires sleepers { All (λ t. t < 32) sleepers.now }
    ensures { result ≡ first (queue_of (kernel_of m.now).threads ready.now sleepers.now q) ∷ last (queue_of (kernel_of m.now).threads ready.now sleepers.now q) ∷ [] }
{
    if q == SLEEPERS {
        return [first_link(sleepers), last_link(sleepers)];
    }
    let own = of_priority(m, ready, q as u16);
    [first_link(own.as_slice()), last_link(own.as_slice())]
}

/// The four bytes behind thread t's row, as two lists ask.
fn links(m: &FlatMem, ready: &[u8], sleepers: &[u8], t: u8) -> [u8; 4]
    requires number { t < 32 }
    requires room { length ready.now ≤ 32 }
    requires ready { All (λ t. t < 32) ready.now }
    requires sleepers { All (λ t. t < 32) sleepers.now }
    ensures { result ≡ links_of (kernel_of m.now).threads ready.now sleepers.now t }
{
    let own = of_priority(m, ready, priority(m, t));
    let own = own.as_slice();
    [
        next_link(own, t) + next_link(sleepers, t),
        prev_link(own, t) + prev_link(sleepers, t),
        0,
        0,
    ]
}

/// The members of a list that have a priority.
fn of_priority(m: &FlatMem, list: &[u8], p: u16) -> ArrayVec<u8, 32>
    requires room { length list.now ≤ 32 }
    requires members { All (λ t. t < 32) list.now }
    ensures value { result.items ≡ queue (λ t. priority_of (kernel_of m.now) t) list.now p }
    ensures members { All (λ t. t < 32) result.items }
{
    let mut own = ArrayVec::new();
    for i in 0..list.len() {
        if priority(m, list[i]) == p {
            own.push(list[i]);
        }
    }
    own
}

/// Whether bytes stand at an address.
fn are_at(m: &FlatMem, at: u16, bytes: &[u8]) -> bool
    requires { at + length bytes.now ≤ 65536 }
    ensures { IsTrue result ↔ (part m.now at (length bytes.now) ≡ bytes.now) }
{
    m.is_flat();
    for i in 0..bytes.len() {
        if m.byte(at + i as u16) != bytes[i] {
            return false;
        }
    }
    true
}

/// Whether two lists are the ready list and the sleepers of the threads as they are.
fn in_order(m: &FlatMem, ready: &[u8], sleepers: &[u8]) -> bool
    ensures { IsTrue result ↔ AreQueues (kernel_of m.now).threads ready.now sleepers.now }
{
    if !all_below(ready) {
        return false;
    }
    if !all_below(sleepers) {
        return false;
    }
    if !distinct(ready) {
        return false;
    }
    if !distinct(sleepers) {
        return false;
    }
    if !apart(ready, sleepers) {
        return false;
    }
    if !in_range(m, ready) {
        return false;
    }
    if !by_priority(m, ready) {
        return false;
    }
    by_wake_time(m, sleepers)
}

/// Whether all members are identities.
fn all_below(list: &[u8]) -> bool
    ensures { IsTrue result ↔ All (λ t. t < 32) list.now }
{
    list.iter().all(|t| *t < 32)
}

/// Whether no member stands twice.
fn distinct(list: &[u8]) -> bool
    ensures { IsTrue result ↔ AllPairs (λ x y. x ≢ y) list.now }
{
    for i in 0..list.len() {
        if !new_at(list, list[i], i) {
            return false;
        }
    }
    true
}

/// Whether none of the first members is t.
fn new_at(list: &[u8], t: u8, count: usize) -> bool
    requires { count ≤ length list.now }
    ensures { IsTrue result ↔ IsNewAt list.now t count }
{
    !list[..count].contains(&t)
}

/// Whether no member of the first list stands in the second.
fn apart(first: &[u8], second: &[u8]) -> bool
    ensures { IsTrue result ↔ AreApart first.now second.now }
{
    first.iter().all(|t| !second.contains(t))
}

/// Whether each thread's priority is at most 7.
fn in_range(m: &FlatMem, list: &[u8]) -> bool
    requires { All (λ t. t < 32) list.now }
    ensures { IsTrue result ↔ All (λ t. priority_of (kernel_of m.now) t ≤ 7) list.now }
{
    list.iter().all(|t| priority(m, *t) <= 7)
}

/// Whether higher priorities stand before lower ones.
fn by_priority(m: &FlatMem, list: &[u8]) -> bool
    requires { All (λ t. t < 32) list.now }
    ensures { IsTrue result ↔ AllPairs (λ x y. priority_of (kernel_of m.now) y ≤ priority_of (kernel_of m.now) x) list.now }
{
    for i in 1..list.len() {
        if priority(m, list[i - 1]) < priority(m, list[i]) {
            return false;
        }
    }
    true
}

/// Whether earlier ticks stand before later ones.
fn by_wake_time(m: &FlatMem, list: &[u8]) -> bool
    requires { All (λ t. t < 32) list.now }
    ensures { IsTrue result ↔ AllPairs (λ x y. wake_time (kernel_of m.now) x ≤ wake_time (kernel_of m.now) y) list.now }
{
    for i in 1..list.len() {
        if wake_time(m, list[i]) < wake_time(m, list[i - 1]) {
            return false;
        }
    }
    true
}
