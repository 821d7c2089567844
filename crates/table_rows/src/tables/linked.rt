//! The bytes of the queues after each call, worked out by hand from the layout: a queue's first and last thread, and in a thread's
//! row the next thread and the one before, each as an identity plus 1, or 0.

use super::{Place, put_in, put_row, take, thread_row, wake};
use flat_mem::FlatMem;
use kernel_tables::*;
use std::process::Abort;
use std::test::Fail;

/// A call on thread t.
#[derive(Clone, Copy, Drop)]
enum Step {
    In(Place),
    Take,
    Wake,
}

/// Makes a call. False where it may not be made.
fn make(m: &mut FlatMem, step: Step, t: u8) -> bool {
    match step {
        Step::In(place) => put_in(m, t, place),
        Step::Take => take(m, t),
        Step::Wake => wake(m, t),
    }
}

/// Writes the row of a thread with a priority and a tick.
fn put_waiting(m: &mut FlatMem, t: u8, priority: u16, tick: u16) -> bool {
    let mut row = thread_row(t, priority);
    row.wake_low = tick;
    row.wake_high = 0;
    put_row(m, t, &row)
}

/// The two ends of a queue, and the links of threads 4, 9 and 2.
fn links_at(m: &FlatMem, ends: u16) -> [u8; 8] {
    [
        m.byte(ends),
        m.byte(ends | 1),
        m.byte(0x050C),
        m.byte(0x050D),
        m.byte(0x05FC),
        m.byte(0x05FD),
        m.byte(0x04AC),
        m.byte(0x04AD),
    ]
}

/// Threads 4, 9 and 2 become ready and are taken out.
const READY_CALLS: [(Step, u8); 6] = [
    (Step::In(Place::End), 4),
    (Step::In(Place::End), 9),
    (Step::In(Place::Front), 2),
    (Step::Take, 4),
    (Step::Take, 2),
    (Step::Take, 9),
];

/// They fall asleep and wake.
const ASLEEP_CALLS: [(Step, u8); 6] = [
    (Step::In(Place::Sleepers), 4),
    (Step::In(Place::Sleepers), 9),
    (Step::In(Place::Sleepers), 2),
    (Step::Wake, 4),
    (Step::Wake, 2),
    (Step::Wake, 9),
];

/// The ends and the links behind each of these calls.
const LINKS: [[u8; 8]; 6] = [
    [5, 5, 0, 0, 0, 0, 0, 0],
    [5, 10, 10, 0, 0, 5, 0, 0],
    [3, 10, 10, 3, 0, 5, 5, 0],
    [3, 10, 0, 0, 0, 3, 10, 0],
    [10, 10, 0, 0, 0, 0, 0, 0],
    [0; 8],
];

/// Makes a call, and tells where it isn't made, or where the links behind it are others.
fn compare_made(rt: &impl Abort, m: &mut FlatMem, call: &(Step, u8), ends: u16, links: &[u8; 8]) {
    let (step, t) = *call;
    assert!(rt; make(m, step, t), "thread {t}");
    assert_eq!(rt; links_at(m, ends), *links, "thread {t}, {ends:#x}");
}

/// Writes the rows of threads 4, 9 and 2, and tells where one isn't written.
fn put_three(rt: &impl Abort, m: &mut FlatMem) {
    clear(m);
    for (t, tick) in [(4, 5), (9, 5), (2, 1)] {
        assert!(rt; put_waiting(m, t, 3, tick));
    }
}

#[test]
fn links_of_up_to_three_threads(rt: HostRuntime) -> Result<(), Fail> {
    let mut m = FlatMem::new(rt.alloc())?;
    put_three(&rt, &mut m);
    assert_eq!(rt;
        (links_at(&m, 0x0226), links_at(&m, 0x0230)),
        ([0; 8], [0; 8])
    );
    for (call, links) in READY_CALLS.iter().zip(&LINKS) {
        compare_made(&rt, &mut m, call, 0x0226, links);
    }
    for (call, links) in ASLEEP_CALLS.iter().zip(&LINKS) {
        compare_made(&rt, &mut m, call, 0x0230, links);
    }
    Ok(())
}

/// Puts all threads into one queue.
fn all_in(m: &mut FlatMem, place: Place) -> bool {
    clear(m);
    for t in 0..32 {
        if !put_waiting(m, t, 7, 3) || !put_in(m, t, place) {
            return false;
        }
    }
    true
}

/// Tells where two bytes are others.
fn compare_two(rt: &impl Abort, found: (u8, u8), wanted: (u8, u8), of: &str) {
    assert_eq!(rt; found, wanted, "{of}");
}

/// Tells where a thread isn't linked between its neighbours.
fn compare_chain(rt: &impl Abort, m: &FlatMem) {
    for t in 0..32 {
        let next = if t < 31 { t as u8 + 2 } else { 0 };
        assert_eq!(rt;
            (m.byte(0x044C + 48 * t), m.byte(0x044D + 48 * t)),
            (next, t as u8),
            "{t}"
        );
    }
}

/// Takes out the last thread, the first, and one between them, and tells where one isn't taken.
fn take_three(rt: &impl Abort, m: &mut FlatMem, step: Step) {
    for t in [31, 0, 15] {
        assert!(rt; make(m, step, t), "thread {t}");
    }
}

/// Puts all threads into one queue and takes out three, and tells where its ends or its links are others.
fn try_all(rt: &impl Abort, m: &mut FlatMem, place: Place, step: Step, ends: u16) {
    assert!(rt; all_in(m, place));
    compare_two(rt, (m.byte(ends), m.byte(ends | 1)), (1, 32), "ends");
    compare_chain(rt, m);
    take_three(rt, m, step);
    compare_two(rt, (m.byte(ends), m.byte(ends | 1)), (2, 31), "ends");
    // thread 1 is the first, 30 the last, and 16 stands behind 14
    compare_two(rt, (m.byte(0x047D), m.byte(0x09EC)), (0, 0), "outer links");
    compare_two(
        rt,
        (m.byte(0x06EC), m.byte(0x074D)),
        (17, 15),
        "inner links",
    );
    assert!(rt; queues_hold(m));
}

#[test]
fn links_of_thirty_two_threads(rt: HostRuntime) -> Result<(), Fail> {
    let mut m = FlatMem::new(rt.alloc())?;
    try_all(&rt, &mut m, Place::End, Step::Take, 0x022E);
    try_all(&rt, &mut m, Place::Sleepers, Step::Wake, 0x0230);
    Ok(())
}
