//! Worked rows of `solo`: the guards at work, what an application reads, its steps one by one, and what is refused.

use crate::test_support::{
    Case, CodeReloc, Stored, all_files, application, try_pieces, try_stored, try_stored_pieces,
};
use item_lists::lists::Bytes;
use std::alloc::Global;
use std::process::Abort;
use std::test::Fail;

/// Relocations add the region's address and the address behind it.
const LO: u8 = 3;

const HI: u8 = 4;

/// Runs an application, and tells where it differs from what is to stand on out.
fn try_solo(
    rt: &impl Abort,
    alloc: Global,
    text: &Bytes,
    line: &str,
    out: &str,
    status: u8,
) -> Result<(), Fail> {
    let case = Case {
        line,
        out,
        err: "",
        status,
    };
    try_stored(rt, alloc, &[(b"x.o", text.as_slice())], &case)
}

/// Guarded pushes, over and over.
const PUSHES: [u16; 9] = [
    0x4205, 0x9211, 0x0200, 0x2C02, 0x4030, 0xF002, 0x4502, 0x1206, 0x3FF7,
];

/// A guarded pop with SP at the stack's upper end.
const POPS: [u16; 9] = [
    0x4205, 0x9182, 0x0202, 0x2002, 0x4030, 0xF002, 0x4502, 0x4136, 0x3FFF,
];

/// Code words, and what they print.
const LEAVES_STACK: [(&[u16], &str); 2] = [
    (
        &PUSHES,
        "a0 6000 6012 2000 2010\n41 a0.t0 fault stack 2004\nend quiet 41 emits 0 faults 1\n",
    ),
    (
        &POPS,
        "a0 6000 6012 2000 2010\n5 a0.t0 fault stack 2010\nend quiet 5 emits 0 faults 1\n",
    ),
];

#[test]
fn stack_guards_end_what_leaves_the_stack(rt: HostRuntime) -> Result<(), Fail> {
    for (code, out) in &LEAVES_STACK {
        let text = application(rt.alloc(), code, &[])?;
        try_solo(&rt, rt.alloc(), &text, "solo x.o 100", out, 6)?;
    }
    Ok(())
}

/// What is added to the region's address for SP, the words, what they print, and their status.
const BOUNDS: [(u16, &str, &str, u8); 3] = [
    (
        0x0004,
        "solo x.o 100",
        "a0 6000 601C 2000 2010\n6 a0.t0 fault stack 2010\nend quiet 6 emits 0 faults 1\n",
        6,
    ),
    (
        0x0012,
        "solo x.o 100",
        "a0 6000 601C 2000 2010\n8 a0.t0 fault stack 2010\nend quiet 8 emits 0 faults 1\n",
        6,
    ),
    (
        0x0006,
        "solo x.o 9",
        "a0 6000 601C 2000 2010\nend limit 9 emits 0 faults 0\n",
        0,
    ),
];

/// A guarded change of SP.
fn sets_sp(alloc: Global, word: u16) -> Result<Bytes, Fail> {
    let code = [
        0x4034, word, 0x4205, 0x9214, 0x0200, 0x2803, 0x9482, 0x0202, 0x2C02, 0x4030, 0xF002,
        0x4502, 0x4401, 0x3FFF,
    ];
    application(alloc, &code, &[(LO, 0x0002)])
}

#[test]
fn sp_guard_tests_both_bounds(rt: HostRuntime) -> Result<(), Fail> {
    for (word, line, out, status) in &BOUNDS {
        let text = sets_sp(rt.alloc(), *word)?;
        try_solo(&rt, rt.alloc(), &text, line, out, *status)?;
    }
    Ok(())
}

/// A store behind a guard, of a word or of a byte: the word that R6 gets, X, and how many steps the run has.
fn store(alloc: Global, address: u16, x: u16, instruction: u16) -> Result<Bytes, Fail> {
    let code = [
        0x4036,
        address,
        0x4205,
        0x4604,
        0x5034,
        x,
        0x9034,
        0,
        0x2803,
        0x9034,
        0,
        0x2802,
        0x4030,
        0xF000,
        0x4502,
        instruction,
        0,
        0x3FFF,
    ];
    let relocs: [CodeReloc; 2] = [(LO, 0x000E), (HI, 0x0014)];
    application(alloc, &code, &relocs)
}

/// A store of a word.
const WORD: u16 = 0x4384;

/// A store of a byte.
const BYTE: u16 = 0x43C4;

/// What a store prints that passes.
const PASSES: &str = "a0 6000 6024 2000 2010\nend limit 12 emits 0 faults 0\n";

/// The address, X, the store, what it prints, and its status.
const STORE_ROWS: [(u16, u16, u16, &str, u8); 16] = [
    (0x2000, 0, WORD, PASSES, 0),
    (0x2001, 0, WORD, PASSES, 0),
    (0x2001, 0, BYTE, PASSES, 0),
    (0x200E, 0, WORD, PASSES, 0),
    (0x200F, 0, WORD, PASSES, 0),
    (0x200F, 0, BYTE, PASSES, 0),
    (0xF000, 0x3000, WORD, PASSES, 0),
    (
        0x1FFF,
        0,
        WORD,
        "a0 6000 6024 2000 2010\n8 a0.t0 fault store 1FFF\nend quiet 8 emits 0 faults 1\n",
        6,
    ),
    (
        0x1FFF,
        0,
        BYTE,
        "a0 6000 6024 2000 2010\n8 a0.t0 fault store 1FFF\nend quiet 8 emits 0 faults 1\n",
        6,
    ),
    (
        0x2010,
        0,
        BYTE,
        "a0 6000 6024 2000 2010\n10 a0.t0 fault store 2010\nend quiet 10 emits 0 faults 1\n",
        6,
    ),
    (
        0x0000,
        0,
        WORD,
        "a0 6000 6024 2000 2010\n8 a0.t0 fault store 0000\nend quiet 8 emits 0 faults 1\n",
        6,
    ),
    (
        0x0200,
        0,
        WORD,
        "a0 6000 6024 2000 2010\n8 a0.t0 fault store 0200\nend quiet 8 emits 0 faults 1\n",
        6,
    ),
    (
        0x1100,
        0,
        WORD,
        "a0 6000 6024 2000 2010\n8 a0.t0 fault store 1100\nend quiet 8 emits 0 faults 1\n",
        6,
    ),
    (
        0x6000,
        0,
        WORD,
        "a0 6000 6024 2000 2010\n10 a0.t0 fault store 6000\nend quiet 10 emits 0 faults 1\n",
        6,
    ),
    (
        0xFFE0,
        0,
        WORD,
        "a0 6000 6024 2000 2010\n10 a0.t0 fault store FFE0\nend quiet 10 emits 0 faults 1\n",
        6,
    ),
    (
        0xF000,
        0x3010,
        WORD,
        "a0 6000 6024 2000 2010\n10 a0.t0 fault store 2010\nend quiet 10 emits 0 faults 1\n",
        6,
    ),
];

#[test]
fn stores_pass_in_the_region_alone(rt: HostRuntime) -> Result<(), Fail> {
    for (address, x, instruction, out, status) in &STORE_ROWS {
        let text = store(rt.alloc(), *address, *x, *instruction)?;
        try_solo(&rt, rt.alloc(), &text, "solo x.o 12", out, *status)?;
    }
    Ok(())
}

/// An address, and the lines behind the placement: the word there, plus 1000, is shown by a store fault.
const TABLE_WORDS: [(u16, &str); 16] = [
    (
        0x0200,
        "10 a0.t0 fault store 3006\nend quiet 10 emits 0 faults 1\n",
    ),
    (
        0x0202,
        "10 a0.t0 fault store 3010\nend quiet 10 emits 0 faults 1\n",
    ),
    (
        0x0204,
        "8 a0.t0 fault store 1000\nend quiet 8 emits 0 faults 1\n",
    ),
    (
        0x0206,
        "8 a0.t0 fault store 0FFF\nend quiet 8 emits 0 faults 1\n",
    ),
    (
        0x0260,
        "8 a0.t0 fault store 1001\nend quiet 8 emits 0 faults 1\n",
    ),
    (
        0x0262,
        "10 a0.t0 fault store 7000\nend quiet 10 emits 0 faults 1\n",
    ),
    (
        0x0264,
        "10 a0.t0 fault store 7024\nend quiet 10 emits 0 faults 1\n",
    ),
    (
        0x0266,
        "10 a0.t0 fault store 3000\nend quiet 10 emits 0 faults 1\n",
    ),
    (
        0x0268,
        "10 a0.t0 fault store 3010\nend quiet 10 emits 0 faults 1\n",
    ),
    (
        0x0420,
        "10 a0.t0 fault store 7000\nend quiet 10 emits 0 faults 1\n",
    ),
    (
        0x0422,
        "10 a0.t0 fault store 3010\nend quiet 10 emits 0 faults 1\n",
    ),
    (
        0x0440,
        "8 a0.t0 fault store 1002\nend quiet 8 emits 0 faults 1\n",
    ),
    (
        0x0442,
        "8 a0.t0 fault store 1003\nend quiet 8 emits 0 faults 1\n",
    ),
    (
        0x1100,
        "8 a0.t0 fault store 1005\nend quiet 8 emits 0 faults 1\n",
    ),
    (
        0x1102,
        "8 a0.t0 fault store 1002\nend quiet 8 emits 0 faults 1\n",
    ),
    (
        0xFFE0,
        "8 a0.t0 fault store 0080\nend quiet 8 emits 0 faults 1\n",
    ),
];

/// Reads the word at an address, and tells where a store at that word plus 1000 doesn't print these lines.
fn try_table_word(rt: &impl Abort, alloc: Global, address: u16, lines: &str) -> Result<(), Fail> {
    let code = [
        0x4216, address, 0x4205, 0x4604, 0x5034, 0x1000, 0x9034, 0, 0x2803, 0x9034, 0, 0x2802,
        0x4030, 0xF000, 0x4502, 0x4384, 0, 0x3FFF,
    ];
    let text = application(alloc, &code, &[(LO, 0x000E), (HI, 0x0014)])?;
    let out = format!(in alloc; "a0 6000 6024 2000 2010\n{lines}")?;
    try_solo(rt, alloc, &text, "solo x.o 100", out.as_str(), 6)
}

#[test]
fn an_application_reads_the_tables_of_one_running_thread(rt: HostRuntime) -> Result<(), Fail> {
    for (address, lines) in &TABLE_WORDS {
        try_table_word(&rt, rt.alloc(), *address, lines)?;
    }
    Ok(())
}

/// Initialised data holds the address of a guard's second word, and the code jumps there.
const JUMPS_THROUGH_MEMORY: [u8; 56] = [
    0x52, 0x45, 0x54, 0x4F, 1, 1, 0x0D, 0, 2, 0, 0, 0, 0x10, 0, 1, 0, 0, 0, 2, 0, // the head
    0x14, 0x42, 0, 0, 0x30, 0x40, 4, 0xF0, 5, 0x42, 0x11, 0x92, 0, 2, 2, 0x2C, 0x30, 0x40, 2, 0xF0,
    2, 0x45, 6, 0x12, 0xFF, 0x3F, // the code
    0x0A, 0, // the initialised bytes
    0, 2, 2, 0, 1, 1, 0, 0, // the relocations
];

/// A jump to itself with a static part of 16,384 bytes, which leaves no room for a stack.
const NO_ROOM: [u8; 22] = [
    0x52, 0x45, 0x54, 0x4F, 1, 1, 1, 0, 0, 0, 0, 0x40, 0x10, 0, 1, 0, 0, 0, 0, 0, 0xFF, 0x3F,
];

#[test]
fn an_address_in_memory_is_tested_when_it_is_jumped_to(rt: HostRuntime) -> Result<(), Fail> {
    let text = Bytes::from_slice(rt.alloc(), &JUMPS_THROUGH_MEMORY)?;
    let out = "a0 6000 601A 2000 2012\n3 a0.t0 fault jump 600A\nend quiet 3 emits 0 faults 1\n";
    try_solo(&rt, rt.alloc(), &text, "solo x.o 9", out, 6)
}

/// The line of what has no room.
const NEEDS_MORE: Case = Case {
    line: "solo x.o 9",
    out: "",
    err: "retos: x.o: no room, region, need 16400, gap 16384\n",
    status: 1,
};

#[test]
fn what_has_no_room_is_refused(rt: HostRuntime) -> Result<(), Fail> {
    try_stored(&rt, rt.alloc(), &[(b"x.o", &NO_ROOM)], &NEEDS_MORE)
}

#[test]
fn each_step_of_a_self_jump_is_shown(rt: HostRuntime) -> Result<(), Fail> {
    let text = application(rt.alloc(), &[0x3FFF], &[])?;
    let out = "a0 6000 6002 2000 2010\n1 a0.t0 6000 3FFF\n2 a0.t0 6000 3FFF\n3 a0.t0 6000 3FFF\n\
end limit 3 emits 0 faults 0\n";
    try_solo(&rt, rt.alloc(), &text, "solo --all x.o 3", out, 0)
}

/// A store at the region's upper end less one: an odd address, of which the word's even one is written.
#[test]
fn the_written_bytes_are_shown(rt: HostRuntime) -> Result<(), Fail> {
    let code = [
        0x4036, 0xFFFF, 0x4205, 0x4604, 0x5034, 0, 0x9034, 0, 0x2803, 0x9034, 0, 0x2802, 0x4030,
        0xF000, 0x4502, 0x4384, 0, 0x3FFF,
    ];
    let relocs: [CodeReloc; 3] = [(HI, 0x0002), (LO, 0x000E), (HI, 0x0014)];
    let text = application(rt.alloc(), &code, &relocs)?;
    let stored: [Stored; 1] = [(b"s.o", text.as_slice())];
    let end = "10 a0.t0 601E 4384 200E:00 200F:00\n11 a0.t0 6022 3FFF\n12 a0.t0 6022 3FFF\n\
end limit 12 emits 0 faults 0\n";
    let line = "solo --all s.o 12";
    try_stored_pieces(&rt, rt.alloc(), &stored, line, &[end], 0)
}

#[test]
fn an_entry_that_prints_has_one_line(rt: HostRuntime) -> Result<(), Fail> {
    let mut files = all_files(rt.alloc(), &[])?;
    let pieces = [
        "\n6 a0.t0 6012 12B0 200E:16 200F:60\n7 a0.t0 emit 0005\n8 a0.t0 6016 4205\n",
        "\n13 a0.t0 exit last\nend quiet 13 emits 1 faults 0\n",
    ];
    let line = "solo --all e.o 100";
    try_pieces(&rt, rt.alloc(), &mut files, line, &pieces, 0)
}
