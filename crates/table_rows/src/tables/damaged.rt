//! Queues with a damaged byte, which do not hold.

use super::{Place, put_in, put_row, thread_row};
use flat_mem::FlatMem;
use kernel_tables::*;
use std::test::Fail;

/// Threads 4, 9 and 2 ready with priority 3, thread 6 asleep, and thread 12 with priority 3 in no queue.
fn fill(m: &mut FlatMem) -> bool {
    clear(m);
    for (t, priority) in [(4, 3), (9, 3), (2, 3), (6, 3), (12, 3)] {
        if !put_row(m, t, &thread_row(t, priority)) {
            return false;
        }
    }
    for (t, place) in [
        (4, Place::End),
        (9, Place::End),
        (2, Place::End),
        (6, Place::Sleepers),
    ] {
        if !put_in(m, t, place) {
            return false;
        }
    }
    queues_hold(m)
}

#[test]
fn a_damaged_byte_does_not_hold(rt: HostRuntime) -> Result<(), Fail> {
    let mut m = FlatMem::new(rt.alloc())?;
    let bytes: [(u16, u8, &str); 17] = [
        (0x04AC, 5, "a cycle"),
        (0x04AC, 3, "a thread before itself"),
        (0x05FC, 33, "a link out of range"),
        (0x0226, 255, "a first link out of range"),
        (0x0230, 10, "a thread in two queues"),
        (
            0x05FD,
            3,
            "a previous link that isn't the next one's inverse",
        ),
        (0x050D, 3, "a previous link before the first"),
        (0x0227, 5, "a last byte that isn't the last"),
        (0x0222, 0x0D, "a first byte alone"),
        (0x068C, 1, "a next link in no queue"),
        (0x068D, 1, "a previous link in no queue"),
        (0x0232, 1, "the first unused byte"),
        (0x025F, 1, "the last unused byte"),
        (0x044E, 1, "byte 46 of a row"),
        (0x0A1F, 1, "byte 47 of a row"),
        (0x0502, 8, "a priority of 8"),
        (0x0503, 1, "a priority of 259"),
    ];
    for (at, byte, what) in bytes {
        assert!(rt; fill(&mut m));
        m.set_byte(at, byte);
        assert!(rt; !queues_hold(&m), "{what}");
    }
    Ok(())
}

#[test]
fn a_ready_thread_stands_in_its_own_priority(rt: HostRuntime) -> Result<(), Fail> {
    let mut m = FlatMem::new(rt.alloc())?;
    // thread 12 alone in the queue of priority 1
    for (priority, holds) in [(3, false), (1, true), (0, false)] {
        assert!(rt; fill(&mut m));
        assert!(rt; put_row(&mut m, 12, &thread_row(12, priority)));
        m.set_byte(0x0222, 13);
        m.set_byte(0x0223, 13);
        assert_eq!(rt; queues_hold(&m), holds, "priority {priority}");
    }
    Ok(())
}

#[test]
fn sleepers_stand_by_their_ticks(rt: HostRuntime) -> Result<(), Fail> {
    let mut m = FlatMem::new(rt.alloc())?;
    // thread 12, whose tick is 0110 010F, stands behind thread 6
    for (low, holds) in [(0x010E, true), (0x010F, true), (0x0110, false)] {
        assert!(rt; fill(&mut m));
        m.set_word(0x0564, low);
        m.set_word(0x0566, 0x0110);
        m.set_byte(0x0231, 13);
        m.set_byte(0x056C, 13);
        m.set_byte(0x068D, 7);
        assert_eq!(rt; queues_hold(&m), holds, "{low:#x}");
    }
    Ok(())
}
