//! Bytes and words in memory, and memories that are given back.

use flat_mem::FlatMem;
use std::fs;
use std::test::Fail;

/// How many pages of addresses the process has: the first number of the file that Linux keeps of it.
fn pages(rt: &HostRuntime) -> Result<u64, Fail> {
    let text = fs::read_to_string(rt, "/proc/self/statm")?;
    let first = text.split(' ').next().ok_or("no number")?;
    Ok(first.parse::<u64>()?)
}

#[test]
fn ten_thousand_memories_take_the_room_of_few(rt: HostRuntime) -> Result<(), Fail> {
    let before = pages(&rt)?;
    for _ in 0..10_000u32 {
        let mut m = FlatMem::new(rt.alloc())?;
        m.set_byte(0xFFFF, 1);
        assert_eq!(rt; (m.byte(0xFFFE), m.byte(0xFFFF)), (0, 1));
    }
    assert!(rt; pages(&rt)?.saturating_sub(before) < 1_000);
    Ok(())
}

#[test]
fn words_lie_low_byte_first_at_even_addresses(rt: HostRuntime) -> Result<(), Fail> {
    let mut m = FlatMem::new(rt.alloc())?;
    m.set_word(0xFFFF, 0x1234);
    assert_eq!(rt;
        (m.byte(0xFFFE), m.byte(0xFFFF), m.byte(0)),
        (0x34, 0x12, 0)
    );
    m.set_byte(0xFFFF, 0xAB);
    assert_eq!(rt; (m.word(0xFFFE), m.word(0xFFFF)), (0xAB34, 0xAB34));
    Ok(())
}

#[test]
fn bytes_are_copied_up_to_the_end(rt: HostRuntime) -> Result<(), Fail> {
    let mut m = FlatMem::new(rt.alloc())?;
    m.copy_in(0xFFFD, &[1, 2, 3]);
    m.copy_in(0xFFFE, &[9]);
    assert_eq!(rt;
        (
            m.byte(0xFFFC),
            m.byte(0xFFFD),
            m.byte(0xFFFE),
            m.byte(0xFFFF)
        ),
        (0, 1, 9, 3)
    );
    Ok(())
}
