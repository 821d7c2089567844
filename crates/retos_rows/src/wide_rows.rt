//! Worked rows of object version 2: several stores under one guard, and loads under theirs.

use crate::test_support::{Case, CodeReloc, Stored, application_of, try_stored, try_stored_pieces};
use item_lists::lists::Bytes;
use std::alloc::Global;
use std::test::Fail;

/// Relocations add the region's address and the address behind it.
const LO: u8 = 3;

const HI: u8 = 4;

/// Two stores of words behind one guard, at an address that is counted from the region's start or end.
fn pair(alloc: Global, version: u8, from: u8, word: u16) -> Result<Bytes, Fail> {
    let code = [
        0x4036, word, 0x4205, 0x4604, 0x5034, 0, 0x9034, 0, 0x2803, 0x9034, 0xFFFE, 0x2802, 0x4030,
        0xF000, 0x4502, 0x4384, 0, 0x4384, 2, 0x3FFF,
    ];
    let relocs: [CodeReloc; 3] = [(from, 0x0002), (LO, 0x000E), (HI, 0x0014)];
    application_of(alloc, version, &code, &relocs)
}

/// What is added to the address behind the region, pieces of the trace, and the status.
const AT_THE_END: [(u16, &str, u8); 2] = [
    (
        0xFFFC,
        "\n10 a0.t0 601E 4384 200C:00 200D:00\n11 a0.t0 6022 4384 200E:00 200F:00\n",
        0,
    ),
    (
        0xFFFE,
        "\n10 a0.t0 fault store 200E\nend quiet 10 emits 0 faults 1\n",
        6,
    ),
];

#[test]
fn a_pair_of_stores_ends_where_the_region_ends(rt: HostRuntime) -> Result<(), Fail> {
    for (word, piece, status) in &AT_THE_END {
        let text = pair(rt.alloc(), 2, HI, *word)?;
        let stored: [Stored; 1] = [(b"x.o", text.as_slice())];
        let line = "solo --all x.o 12";
        try_stored_pieces(&rt, rt.alloc(), &stored, line, &[*piece], *status)?;
    }
    Ok(())
}

/// What `check` says of the pair in each version.
const OF_VERSION: [(u8, Case); 2] = [
    (
        1,
        Case {
            line: "check x.o",
            out: "",
            err: "retos: x.o: check rule 5 at 001C\n",
            status: 1,
        },
    ),
    (
        2,
        Case {
            line: "check x.o",
            out: "x.o: accepted 20 words 3 units\n",
            err: "",
            status: 0,
        },
    ),
];

#[test]
fn version_1_has_no_wide_guard(rt: HostRuntime) -> Result<(), Fail> {
    for (version, case) in &OF_VERSION {
        let text = pair(rt.alloc(), *version, HI, 0xFFFC)?;
        let stored: [Stored; 1] = [(b"x.o", text.as_slice())];
        try_stored(&rt, rt.alloc(), &stored, case)?;
    }
    Ok(())
}

/// A script, the line of its interrupt, and the lines of the two stores.
const AT_EACH_STEP: [(&[u8], &str, &str); 10] = [
    (
        b"at 2 raise 1",
        "\n2 a0.t0 int 1 6004 200C:08 200D:00 200E:04 200F:60\n",
        "\n12 a0.t0 601E 4384 2000:00 2001:00\n13 a0.t0 6022 4384 2002:00 2003:00\n",
    ),
    (
        b"at 3 raise 1",
        "\n3 a0.t0 int 1 6006 200C:08 200D:00 200E:06 200F:60\n",
        "\n12 a0.t0 601E 4384 2000:00 2001:00\n13 a0.t0 6022 4384 2002:00 2003:00\n",
    ),
    (
        b"at 4 raise 1",
        "\n4 a0.t0 int 1 6008 200C:08 200D:00 200E:08 200F:60\n",
        "\n12 a0.t0 601E 4384 2000:00 2001:00\n13 a0.t0 6022 4384 2002:00 2003:00\n",
    ),
    (
        b"at 5 raise 1",
        "\n5 a0.t0 int 1 600C 200C:08 200D:00 200E:0C 200F:60\n",
        "\n12 a0.t0 601E 4384 2000:00 2001:00\n13 a0.t0 6022 4384 2002:00 2003:00\n",
    ),
    (
        b"at 6 raise 1",
        "\n6 a0.t0 int 1 6010 200C:0B 200D:00 200E:10 200F:60\n",
        "\n12 a0.t0 601E 4384 2000:00 2001:00\n13 a0.t0 6022 4384 2002:00 2003:00\n",
    ),
    (
        b"at 7 raise 1",
        "\n7 a0.t0 int 1 6012 200C:0B 200D:00 200E:12 200F:60\n",
        "\n12 a0.t0 601E 4384 2000:00 2001:00\n13 a0.t0 6022 4384 2002:00 2003:00\n",
    ),
    (
        b"at 8 raise 1",
        "\n8 a0.t0 int 1 6016 200C:0C 200D:00 200E:16 200F:60\n",
        "\n12 a0.t0 601E 4384 2000:00 2001:00\n13 a0.t0 6022 4384 2002:00 2003:00\n",
    ),
    (
        b"at 9 raise 1",
        "\n9 a0.t0 int 1 601C 200C:0C 200D:00 200E:1C 200F:60\n",
        "\n12 a0.t0 601E 4384 2000:00 2001:00\n13 a0.t0 6022 4384 2002:00 2003:00\n",
    ),
    (
        b"at 10 raise 1",
        "\n10 a0.t0 int 1 601E 200C:08 200D:00 200E:1E 200F:60\n",
        "\n12 a0.t0 601E 4384 2000:00 2001:00\n13 a0.t0 6022 4384 2002:00 2003:00\n",
    ),
    (
        b"at 11 raise 1",
        "\n10 a0.t0 601E 4384 2000:00 2001:00\n11 a0.t0 int 1 6022 200C:08 200D:00 200E:22 200F:60\n12 kernel line 1\n",
        "\n13 a0.t0 6022 4384 2002:00 2003:00\n",
    ),
];

/// The pushed flags are those of the comparisons, up to the place where the guard gives the program's back.
#[test]
fn an_interrupt_at_each_step_of_a_wide_guard_changes_nothing(rt: HostRuntime) -> Result<(), Fail> {
    let text = pair(rt.alloc(), 2, LO, 0)?;
    for (script, accepted, stores) in &AT_EACH_STEP {
        let stored: [Stored; 2] = [(b"s", script), (b"x.o", text.as_slice())];
        let pieces = [*accepted, *stores];
        let line = "run --all s 14 x.o";
        try_stored_pieces(&rt, rt.alloc(), &stored, line, &pieces, 0)?;
    }
    Ok(())
}

/// A load behind its guard, from an address that is counted from the region's start or end.
fn load(alloc: Global, from: u8, instruction: u16) -> Result<Bytes, Fail> {
    let code = [
        0x4036,
        0,
        0x4205,
        0x4604,
        0x5034,
        0,
        0x9034,
        0,
        0x2803,
        0x9034,
        0,
        0x2802,
        0x4030,
        0xF000,
        0x4502,
        instruction,
        0x3FFF,
    ];
    let relocs: [CodeReloc; 3] = [(from, 0x0002), (LO, 0x000E), (HI, 0x0014)];
    application_of(alloc, 2, &code, &relocs)
}

/// From where, the load's word, a piece of the trace, and the status: `MOV @R4,R7` and `MOV @R6+,R7`.
const LOADS: [(u8, u16, &str, u8); 4] = [
    (LO, 0x4427, "\n10 a0.t0 601E 4427\n11 a0.t0 6020 3FFF\n", 0),
    (
        HI,
        0x4427,
        "\n10 a0.t0 fault store 2010\nend quiet 10 emits 0 faults 1\n",
        6,
    ),
    (LO, 0x4637, "\n10 a0.t0 601E 4637\n11 a0.t0 6020 3FFF\n", 0),
    (
        HI,
        0x4637,
        "\n10 a0.t0 fault store 2010\nend quiet 10 emits 0 faults 1\n",
        6,
    ),
];

#[test]
fn a_guarded_load_stays_in_the_region(rt: HostRuntime) -> Result<(), Fail> {
    for (from, instruction, piece, status) in &LOADS {
        let text = load(rt.alloc(), *from, *instruction)?;
        let stored: [Stored; 1] = [(b"x.o", text.as_slice())];
        let line = "solo --all x.o 12";
        try_stored_pieces(&rt, rt.alloc(), &stored, line, &[*piece], *status)?;
    }
    Ok(())
}
