//! Rows and lists worked out by hand, from the tables' addresses.

ghost use Rattle.std.specs.Prelude.{◌<◌, ◌↔◌, IsTrue, Contains};
ghost use Rattle.kernel_model.specs.Layout.{kernel_of};
ghost use Rattle.kernel_model.specs.Queues.{QueuesHold};

mod damaged;
mod filled;
mod linked;
mod setters;

use arrayvec::ArrayVec;
use flat_mem::FlatMem;
use kernel_fixture::lists::are_identities;
use kernel_tables::*;
use std::process::Abort;
use std::test::Fail;

/// Whether a member stands in a list.
fn has(list: &[u8], member: u8) -> bool
    ensures { IsTrue result ↔ Contains list.now member }
{
    list.contains(&member)
}

/// Whether a thread stands in neither list, and the lists hold.
fn is_out(m: &FlatMem, t: u8) -> bool
    ensures number { IsTrue result → t < 32 }
    ensures queues { IsTrue result → QueuesHold m.now }
    ensures not_ready { IsTrue result → ¬ Contains (kernel_of m.now).ready t }
    ensures not_asleep { IsTrue result → ¬ Contains (kernel_of m.now).sleepers t }
{
    if t >= 32 {
        return false;
    }
    if !queues_hold(m) {
        return false;
    }
    !has(ready(m).as_slice(), t) && !has(sleepers(m).as_slice(), t)
}

/// Writes the row of a thread that stands in neither list. False where it does.
pub fn put_row(m: &mut FlatMem, t: u8, row: &ThreadRow) -> bool {
    let out = is_out(m, t);
    if out {
        set_thread(m, t, row);
    }
    out
}

/// Where a thread goes.
#[derive(Clone, Copy, Drop)]
pub enum Place {
    Front,
    End,
    Sleepers,
}

/// Puts a thread into a list. False where it stands in one, or has no priority.
pub fn put_in(m: &mut FlatMem, t: u8, place: Place) -> bool {
    if !is_out(m, t) {
        return false;
    }
    if thread(m, t).priority > 7 {
        return false;
    }
    match place {
        Place::Front => ready_front(m, t),
        Place::End => ready_end(m, t),
        Place::Sleepers => sleep_in(m, t),
    }
    true
}

/// Takes a thread out of the ready list. False where it isn't there.
pub fn take(m: &mut FlatMem, t: u8) -> bool {
    if !queues_hold(m) {
        return false;
    }
    if !has(ready(m).as_slice(), t) {
        return false;
    }
    ready_take(m, t);
    true
}

/// Takes a thread out of the sleepers. False where it isn't there.
pub fn wake(m: &mut FlatMem, t: u8) -> bool {
    if !queues_hold(m) {
        return false;
    }
    if !has(sleepers(m).as_slice(), t) {
        return false;
    }
    sleep_take(m, t);
    true
}

/// Writes a mutex whose waiters are identities. False where they aren't.
pub fn put_mutex(m: &mut FlatMem, a: u8, i: u8, row: &MutexRow) -> bool {
    if a >= 8 || i >= 4 || !are_identities(row.waiters.as_slice()) {
        return false;
    }
    set_mutex(m, a, i, row);
    true
}

/// Writes a line's list of identities. False where they aren't.
pub fn put_line(m: &mut FlatMem, n: u8, list: &ArrayVec<u8, 32>) -> bool {
    if n >= 14 || !are_identities(list.as_slice()) {
        return false;
    }
    set_line(m, n, list);
    true
}

/// Some members.
pub fn members<const N: usize>(some: &[u8]) -> ArrayVec<u8, N> {
    let mut list = ArrayVec::new();
    let _ = list.try_extend_from_slice(some);
    list
}

/// A row of which each word tells the thread.
fn thread_row(t: u8, priority: u16) -> ThreadRow {
    let word = 0x0100 + t as u16;
    ThreadRow {
        regs: [word; 16],
        state: word + 1,
        priority,
        wake_low: word + 3,
        wake_high: word + 4,
        object: word + 5,
        mutex: word + 6,
    }
}

/// Tells which words in memory are others.
fn compare_words(rt: &impl Abort, m: &FlatMem, words: &[(u16, u16)]) {
    for (at, word) in words {
        assert_eq!(rt; m.word(*at), *word, "at {at:#x}");
    }
}

/// Tells which bytes in memory are others.
fn compare_bytes(rt: &impl Abort, m: &FlatMem, bytes: &[(u16, u8)]) {
    for (at, byte) in bytes {
        assert_eq!(rt; m.byte(*at), *byte, "at {at:#x}");
    }
}

/// Words of the empty kernel, one beside it, and two vectors.
const EMPTY_WORDS: [(u16, u16); 18] = [
    (0x0200, 0x1006),
    (0x0202, 0x1100),
    (0x0204, 0xFFFF),
    (0x0206, 0xFFFF),
    (0x0208, 0),
    (0x0234, 0),
    (0x0252, 0),
    (0x0260, 0),
    (0x0320, 0xFFFF),
    (0x0322, 0),
    (0x041C, 0xFFFF),
    (0x0A20, 0xFFFF),
    (0x0A26, 0),
    (0x0B20, 0xFFFF),
    (0x0D5E, 0xFFFF),
    (0x1000, 0x1234),
    (0xFFE0, 0xF080),
    (0xFFFA, 0xF09A),
];

#[test]
fn clear_writes_the_empty_kernel_and_the_vectors(rt: HostRuntime) -> Result<(), Fail> {
    let mut m = FlatMem::new(rt.alloc())?;
    m.copy_in(0x0234, &[7; 32]);
    m.set_word(0x1000, 0x1234);
    clear(&mut m);
    compare_words(&rt, &m, &EMPTY_WORDS);
    assert!(rt; queues_hold(&m));
    Ok(())
}

/// Words of rows that are written, and of the ends of others.
const ROW_WORDS: [(u16, u16); 20] = [
    (0x020A, 0x2001),
    (0x0290, 1),
    (0x0292, 0x6000),
    (0x029A, 0x20),
    (0x029E, 2),
    (0x02A0, 0),
    (0x02F0, 1),
    (0x02F8, 0x2000),
    (0x02FA, 0),
    (0x0334, 1),
    (0x0336, 0x6012),
    (0x09F0, 0x011F),
    (0x0A0E, 0x011F),
    (0x0A10, 0x0120),
    (0x0A12, 7),
    (0x0A1A, 0x0125),
    (0x0A1C, 0),
    (0x0A68, 2),
    (0x0A6A, 0x0003),
    (0x0D40, 0xFF09),
];

/// The row of application 3.
const APP_3: AppRow = AppRow {
    state: 1,
    code_lo: 0x6000,
    code_hi: 0x6010,
    lo: 0x2000,
    hi: 0x2040,
    z: 0x20,
    stack: 16,
    threads: 2,
};

/// The row of module 1.
const MODULE_1: ModuleRow = ModuleRow {
    state: 1,
    code_lo: 0x6010,
    code_hi: 0x6020,
    lo: 0x2000,
    hi: 0x2000,
};

#[test]
fn rows_stand_at_their_addresses(rt: HostRuntime) -> Result<(), Fail> {
    let mut m = FlatMem::new(rt.alloc())?;
    clear(&mut m);
    set_app(&mut m, 3, &APP_3);
    set_module(&mut m, 1, &MODULE_1);
    set_function(
        &mut m,
        5,
        &FnRow {
            module: 1,
            address: 0x6012,
        },
    );
    assert!(rt; put_row(&mut m, 31, &thread_row(31, 7)));
    let mutex_row = MutexRow {
        owner: 2,
        waiters: members(&[3, 0]),
    };
    assert!(rt; put_mutex(&mut m, 2, 1, &mutex_row));
    assert!(rt; put_line(&mut m, 13, &members(&[9])));
    put(&mut m, SysWord::Pending, 0x2001);
    compare_words(&rt, &m, &ROW_WORDS);
    assert_eq!(rt; (app(&m, 3), module(&m, 1)), (APP_3, MODULE_1));
    assert_eq!(rt;
        (thread(&m, 31), function(&m, 5).address),
        (thread_row(31, 7), 0x6012)
    );
    assert_eq!(rt; mutex(&m, 2, 1).waiters.as_slice(), [3, 0].as_slice());
    Ok(())
}

#[test]
fn lists_of_each_length_are_read_back(rt: HostRuntime) -> Result<(), Fail> {
    let mut m = FlatMem::new(rt.alloc())?;
    clear(&mut m);
    let all: [u8; 32] = [
        31, 30, 29, 28, 27, 26, 25, 24, 23, 22, 21, 20, 19, 18, 17, 16, 15, 14, 13, 12, 11, 10, 9,
        8, 7, 6, 5, 4, 3, 2, 1, 0,
    ];
    for n in [0, 1, 31, 32] {
        assert!(rt; n <= 32);
        assert!(rt; put_line(&mut m, 1, &members(&all[..n])));
        assert_eq!(rt; line(&m, 1).as_slice(), &all[..n], "{n} members");
        assert_eq!(rt;
            (line(&m, 0).len(), line(&m, 2).len()),
            (0, 0),
            "{n} members"
        );
    }
    Ok(())
}

/// Priority 3 has threads 5, 1, 3, priority 0 has thread 4, priority 5 has thread 2, and the sleepers are 7, 9, 6, 8.
const ORDER_BYTES: [(u16, u8); 26] = [
    (0x0220, 5),
    (0x0221, 5),
    (0x0222, 0),
    (0x0226, 6),
    (0x0227, 4),
    (0x022A, 3),
    (0x022B, 3),
    (0x0230, 8),
    (0x0231, 9),
    (0x0232, 0),
    (0x044C, 0),
    (0x044D, 0),
    (0x047C, 4),
    (0x047D, 6),
    (0x04DC, 0),
    (0x04DD, 2),
    (0x053C, 2),
    (0x053D, 0),
    (0x059C, 10),
    (0x059D, 0),
    (0x05FC, 7),
    (0x05FD, 8),
    (0x056C, 9),
    (0x056D, 10),
    (0x05CC, 0),
    (0x05CD, 7),
];

/// A thread, its priority, its tick, and where it goes.
const ORDERED: [(u8, u16, u16, Place); 10] = [
    (0, 3, 0, Place::End),
    (1, 3, 0, Place::End),
    (2, 5, 0, Place::End),
    (4, 0, 0, Place::End),
    (3, 3, 0, Place::End),
    (5, 3, 0, Place::Front),
    (6, 0, 5, Place::Sleepers),
    (7, 0, 3, Place::Sleepers),
    (8, 0, 5, Place::Sleepers),
    (9, 0, 4, Place::Sleepers),
];

/// Writes a thread's row and puts the thread into its list, and tells where that isn't done.
fn put_ordered(rt: &impl Abort, m: &mut FlatMem, row: &(u8, u16, u16, Place)) {
    let (t, priority, tick, place) = *row;
    let mut row = thread_row(t, priority);
    row.wake_low = tick;
    row.wake_high = 0;
    assert!(rt; put_row(m, t, &row), "the row of {t}");
    assert!(rt; put_in(m, t, place), "the list of {t}");
}

#[test]
fn equal_priorities_and_ticks_keep_their_order(rt: HostRuntime) -> Result<(), Fail> {
    let mut m = FlatMem::new(rt.alloc())?;
    clear(&mut m);
    for row in &ORDERED {
        put_ordered(&rt, &mut m, row);
    }
    assert!(rt; take(&mut m, 0));
    assert!(rt; !take(&mut m, 6));
    compare_bytes(&rt, &m, &ORDER_BYTES);
    Ok(())
}
