//! The links of the queues: where they lie, and how a thread is linked in and out.
//!
//! A link is an identity plus 1, or 0 for none. Link 0's own links are the two ends of the queue, so that a queue's first and last
//! threads are linked as the others are.

ghost use Rattle.std.specs.Prelude.{◌≡◌, ◌+◌, ◌*◌, ◌<◌, ◌≤◌, List, ℕ, IsTrue, [], ◌∷◌, ◌++◌, All, length};
ghost use Rattle.kernel_model.specs.Links.{first, last, next_of, prev_of, gathered};
ghost use Rattle.kernel_model.specs.Standing.{next_place, prev_place, next_in, prev_in};
ghost use Rattle.kernel_tables.specs.Linking.{linked, unlinked, walk_in};

use crate::places::{NEXT_AT, PREVIOUS_AT, QUEUE_ENDS, THREAD_ROW_BYTES, THREAD_ROWS};
use arrayvec::ArrayVec;
use flat_mem::FlatMem;

/// Where the next link of a link lies.
pub fn next_place(q: u8, link: u8) -> u16
    requires queue { q < 9 }
    requires link { link ≤ 32 }
    ensures { result ≡ next_place q link }
{
    if link == 0 {
        QUEUE_ENDS + 2 * q as u16
    } else {
        THREAD_ROWS + THREAD_ROW_BYTES * (link - 1) as u16 + NEXT_AT
    }
}

/// Where the previous link of a link lies.
pub fn prev_place(q: u8, link: u8) -> u16
    requires queue { q < 9 }
    requires link { link ≤ 32 }
    ensures { result ≡ prev_place q link }
{
    if link == 0 {
        QUEUE_ENDS + 2 * q as u16 + 1
    } else {
        THREAD_ROWS + THREAD_ROW_BYTES * (link - 1) as u16 + PREVIOUS_AT
    }
}

/// Links thread t into queue q between two links.
#[tactic(auto, unfolding(crate::specs::Linking::linked))]
pub fn link(m: &mut FlatMem, q: u8, t: u8, before: u8, behind: u8)
    requires queue { q < 9 }
    requires number { t < 32 }
    requires links { (before ≤ 32) × (behind ≤ 32) }
    ensures { m.new ≡ linked m.old q t before behind }
{
    m.set_byte(next_place(q, t + 1), behind);
    m.set_byte(prev_place(q, t + 1), before);
    m.set_byte(next_place(q, before), t + 1);
    m.set_byte(prev_place(q, behind), t + 1);
}

/// Links thread t of queue q out.
#[tactic(auto, unfolding(crate::specs::Linking::unlinked))]
pub fn unlink(m: &mut FlatMem, q: u8, t: u8)
    requires queue { q < 9 }
    requires number { t < 32 }
    requires links { (prev_in m.old q (t + 1) ≤ 32) × (next_in m.old q (t + 1) ≤ 32) }
    ensures { m.new ≡ unlinked m.old q t (prev_in m.old q (t + 1)) (next_in m.old q (t + 1)) }
{
    let before = m.byte(prev_place(q, t + 1));
    let behind = m.byte(next_place(q, t + 1));
    m.set_byte(next_place(q, before), behind);
    m.set_byte(prev_place(q, behind), before);
    m.set_byte(next_place(q, t + 1), 0);
    m.set_byte(prev_place(q, t + 1), 0);
}

/// Puts the threads of queue q behind a list, the first one first. False where the list has no room for all of them.
pub fn walk(m: &FlatMem, q: u8, list: &mut ArrayVec<u8, 32>) -> bool
    requires { q < 9 }
    ensures whole { IsTrue result → list.new.items ≡ list.old.items ++ walk_in m.now q }
    ensures room { length list.old.items + length (walk_in m.now q) ≤ 32 → IsTrue result }
{
    let mut link = m.byte(next_place(q, 0));
    for _ in 0..32u8 {
        if link == 0 || link > 32 {
            return true;
        }
        if list.len() == 32 {
            return false;
        }
        list.push(link - 1);
        link = m.byte(next_place(q, link));
    }
    true
}

/// Puts the ready queues' threads into an empty list, the highest priority first. False where it has no room for all of them.
pub fn walk_ready(m: &FlatMem, list: &mut ArrayVec<u8, 32>) -> bool
    requires { list.old.items ≡ [] }
    ensures whole { IsTrue result → list.new.items ≡ gathered (walk_in m.now) 8 }
    ensures room { length (gathered (walk_in m.now) 8) ≤ 32 → IsTrue result }
{
    for i in 0..8u8 {
        if !walk(m, 7 - i, list) {
            return false;
        }
    }
    true
}

/// The link of a list's first member.
pub fn first_link(list: &[u8]) -> u8
    requires { All (λ t. t < 32) list.now }
    ensures value { result ≡ first list.now }
    ensures within { result ≤ 32 }
{
    if list.is_empty() {
        return 0;
    }
    list[0] + 1
}

/// The link of a list's last member.
pub fn last_link(list: &[u8]) -> u8
    requires { All (λ t. t < 32) list.now }
    ensures value { result ≡ last list.now }
    ensures within { result ≤ 32 }
{
    if list.is_empty() {
        return 0;
    }
    list[list.len() - 1] + 1
}

/// The link of the member behind t.
pub fn next_link(list: &[u8], t: u8) -> u8
    requires { All (λ t. t < 32) list.now }
    ensures value { result ≡ next_of list.now t }
    ensures within { result ≤ 32 }
{
    for i in 0..list.len() {
        if list[i] == t {
            return first_link(&list[i + 1..]);
        }
    }
    0
}

/// The link of the member before t.
pub fn prev_link(list: &[u8], t: u8) -> u8
    requires { All (λ t. t < 32) list.now }
    ensures value { result ≡ prev_of list.now t }
    ensures within { result ≤ 32 }
{
    for i in 0..list.len() {
        if list[i] == t {
            return last_link(&list[..i]);
        }
    }
    0
}
