//! Worked rows of `insert`: what it writes and prints, what it refuses, and calls that fail.

use crate::test_support::{
    Case, CodeReloc, Failing, SELF_JUMP, Stored, UNGUARDED, application, application_of,
    compare_held, no_command, try_case, try_stored, try_stored_pieces, with_files, writable,
};
use item_lists::lists::Bytes;
use std::alloc::Global;
use std::process::Abort;
use std::test::Fail;

/// `MOV R7,0(R6)` and a jump back to it.
const STORE: [u16; 3] = [0x4786, 0, 0x3FFD];

/// The same with its guard.
const WITH_GUARD: [u16; 17] = [
    0x4205, 0x4604, 0x5034, 0, 0x9034, 0, 0x2803, 0x9034, 0, 0x2802, 0x4030, 0xF000, 0x4502,
    0x4784, 0, 0x4030, 0,
];

/// The relocations of the guarded store: LO, HI and CODE.
const RELOCS: [CodeReloc; 3] = [(3, 0x0A), (4, 0x10), (1, 0x20)];

/// No call fails.
const NONE: Failing = Failing {
    reads: &[],
    writes: &[],
    out: &[],
};

/// Does what a case's words say where `s.o` holds a text, and tells where `g.o` then holds something else.
fn try_insert(
    rt: &impl Abort,
    alloc: Global,
    text: &[u8],
    room: u32,
    fail: &Failing,
    case: &Case,
    written: Option<&[u8]>,
) -> Result<(), Fail> {
    let files = writable(alloc, room, fail)?;
    let mut files = with_files(files, &[(b"s.o", text)])?;
    try_case(rt, alloc, &mut files, fail.out, case)?;
    compare_held(rt, &files, b"s.o", Some(text), case.line)?;
    compare_held(rt, &files, b"g.o", written, case.line)
}

/// What the inserter prints of the store.
const INSERTED: Case = Case {
    line: "insert s.o g.o",
    out: "g.o: inserted 17 words\n",
    err: "",
    status: 0,
};

#[test]
fn insert_writes_the_guards_and_prints_its_line(rt: HostRuntime) -> Result<(), Fail> {
    let plain = application(rt.alloc(), &STORE, &[])?;
    let guarded = application(rt.alloc(), &WITH_GUARD, &RELOCS)?;
    try_insert(
        &rt,
        rt.alloc(),
        plain.as_slice(),
        66,
        &NONE,
        &INSERTED,
        Some(guarded.as_slice()),
    )
}

/// Two stores and a jump back, in version 2: one guard for both, and the jump stays one word.
const TWO_STORES: [u16; 5] = [0x4786, 0, 0x4886, 2, 0x3FFB];

const WITH_ONE_GUARD: [u16; 18] = [
    0x4205, 0x4604, 0x5034, 0, 0x9034, 0, 0x2803, 0x9034, 0xFFFE, 0x2802, 0x4030, 0xF000, 0x4502,
    0x4784, 0, 0x4884, 2, 0x3FEE,
];

/// What the inserter prints of them, and the checker.
const TWO_INSERTED: Case = Case {
    line: "insert s.o g.o",
    out: "g.o: inserted 18 words\n",
    err: "",
    status: 0,
};

const TWO_ACCEPTED: Case = Case {
    line: "check g.o",
    out: "g.o: accepted 18 words 2 units\n",
    err: "",
    status: 0,
};

#[test]
fn two_stores_of_version_2_have_one_guard(rt: HostRuntime) -> Result<(), Fail> {
    let plain = application_of(rt.alloc(), 2, &TWO_STORES, &[])?;
    let guarded = application_of(rt.alloc(), 2, &WITH_ONE_GUARD, &[(3, 0x0A), (4, 0x10)])?;
    let written = Some(guarded.as_slice());
    let text = plain.as_slice();
    try_insert(&rt, rt.alloc(), text, 66, &NONE, &TWO_INSERTED, written)?;
    let stored: [Stored; 1] = [(b"g.o", guarded.as_slice())];
    try_stored(&rt, rt.alloc(), &stored, &TWO_ACCEPTED)
}

/// An address from the end of the region, four stores through it, and a jump to itself.
fn four_stores(alloc: Global, from_end: u16) -> Result<Bytes, Fail> {
    let code = [
        0x4036, from_end, 0x4396, 0, 0x43A6, 2, 0x42A6, 4, 0x42B6, 6, 0x3FFF,
    ];
    application_of(alloc, 2, &code, &[(4, 0x02)])
}

/// The same with their guard.
fn four_guarded(alloc: Global, from_end: u16) -> Result<Bytes, Fail> {
    let code = [
        0x4036, from_end, 0x4205, 0x4604, 0x5034, 0, 0x9034, 0, 0x2803, 0x9034, 0xFFFA, 0x2802,
        0x4030, 0xF000, 0x4502, 0x4394, 0, 0x43A4, 2, 0x42A4, 4, 0x42B4, 6, 0x3FFF,
    ];
    application_of(alloc, 2, &code, &[(4, 0x02), (3, 0x0E), (4, 0x14)])
}

/// What is added to the end, a piece of the trace, and the status: all four are in the region, or the last one isn't.
const FOUR_AT_THE_END: [(u16, &str, u8); 2] = [
    (
        0xFFF8,
        "\n10 a0.t0 601E 4394 2008:01 2009:00\n\
11 a0.t0 6022 43A4 200A:02 200B:00\n\
12 a0.t0 6026 42A4 200C:04 200D:00\n\
13 a0.t0 602A 42B4 200E:08 200F:00\n",
        0,
    ),
    (
        0xFFFA,
        "\n10 a0.t0 fault store 200A\nend quiet 10 emits 0 faults 1\n",
        6,
    ),
];

#[test]
fn a_group_of_four_writes_all_or_nothing(rt: HostRuntime) -> Result<(), Fail> {
    let case = Case {
        line: "insert s.o g.o",
        out: "g.o: inserted 24 words\n",
        err: "",
        status: 0,
    };
    for (from_end, piece, status) in &FOUR_AT_THE_END {
        let plain = four_stores(rt.alloc(), *from_end)?;
        let guarded = four_guarded(rt.alloc(), *from_end)?;
        let text = plain.as_slice();
        try_insert(
            &rt,
            rt.alloc(),
            text,
            100,
            &NONE,
            &case,
            Some(guarded.as_slice()),
        )?;
        let stored: [Stored; 1] = [(b"x.o", guarded.as_slice())];
        try_stored_pieces(
            &rt,
            rt.alloc(),
            &stored,
            "solo --all x.o 14",
            &[*piece],
            *status,
        )?;
    }
    Ok(())
}

/// Tells where an object, or its absence, isn't refused with this line, or `g.o` is then held.
fn try_refused(
    rt: &impl Abort,
    alloc: Global,
    line: &str,
    text: &[u8],
    err: &str,
) -> Result<(), Fail> {
    let case = Case {
        line,
        out: "",
        err,
        status: 1,
    };
    try_insert(rt, alloc, text, 66, &NONE, &case, None)
}

#[test]
fn a_guarded_object_gets_no_guards_again(rt: HostRuntime) -> Result<(), Fail> {
    let guarded = application(rt.alloc(), &WITH_GUARD, &RELOCS)?;
    let err = "retos: s.o: insert usescheckregister at 0\n";
    try_refused(&rt, rt.alloc(), "insert s.o g.o", guarded.as_slice(), err)
}

/// Code words, and the line of their first fault.
const FAULTS: [(&[u16], &str); 4] = [
    (&[0x4303, 0], "retos: s.o: insert notdecoded at 2\n"),
    (
        &[0x4303, 0x4506],
        "retos: s.o: insert usescheckregister at 2\n",
    ),
    (
        &[0x4303, 0x1300, 0x3FFF],
        "retos: s.o: insert forbidden at 2\n",
    ),
    (&[0x4303, 0x4303], "retos: s.o: insert badtarget at 2\n"),
];

#[test]
fn an_object_is_refused_at_its_first_fault(rt: HostRuntime) -> Result<(), Fail> {
    for (code, err) in &FAULTS {
        let text = application(rt.alloc(), code, &[])?;
        try_refused(&rt, rt.alloc(), "insert s.o g.o", text.as_slice(), err)?;
    }
    Ok(())
}

/// Each of the stores gets 15 words: 546 fit, and the one at word 1092 doesn't.
#[test]
fn an_object_that_would_be_too_large_is_named(rt: HostRuntime) -> Result<(), Fail> {
    let mut text = Bytes::from_slice(rt.alloc(), b"RETO\x01\x01\x47\x04")?;
    text.extend_from_slice(&[0, 0, 0, 0, 0x10, 0, 1, 0, 0, 0, 0, 0])?;
    for _ in 0..547u32 {
        text.extend_from_slice(&[0x86, 0x47, 0, 0])?;
    }
    text.extend_from_slice(&[0xFF, 0x3F])?;
    let err = "retos: s.o: insert toolarge at 2184\n";
    try_refused(&rt, rt.alloc(), "insert s.o g.o", text.as_slice(), err)
}

#[test]
fn an_absent_or_malformed_object_is_named(rt: HostRuntime) -> Result<(), Fail> {
    let text = &UNGUARDED[..29];
    let absent = "retos: none.o: absent\n";
    try_refused(&rt, rt.alloc(), "insert none.o g.o", text, absent)?;
    let short = "retos: s.o: form short at 29\n";
    try_refused(&rt, rt.alloc(), "insert s.o g.o", text, short)
}

#[test]
fn a_failing_read_of_the_object_is_named(rt: HostRuntime) -> Result<(), Fail> {
    let fail = Failing {
        reads: &[0],
        writes: &[],
        out: &[],
    };
    let case = Case {
        line: "insert s.o g.o",
        out: "",
        err: "retos: s.o: read fault\n",
        status: 3,
    };
    try_insert(&rt, rt.alloc(), &SELF_JUMP, 66, &fail, &case, None)
}

/// Tells where something else stands in `g.o` once these writes of the folder or of out fail.
fn try_write_fault(
    rt: &impl Abort,
    alloc: Global,
    writes: &[u32],
    out: &[u32],
    room: u32,
    written: Option<&[u8]>,
) -> Result<(), Fail> {
    let fail = Failing {
        reads: &[],
        writes,
        out,
    };
    let case = Case {
        line: "insert s.o g.o",
        out: "",
        err: "retos: write fault\n",
        status: 4,
    };
    let plain = application(alloc, &STORE, &[])?;
    try_insert(rt, alloc, plain.as_slice(), room, &fail, &case, written)
}

/// The create is write 0 of the folder, the first append write 1.
#[test]
fn a_failing_write_of_guards_leaves_a_prefix(rt: HostRuntime) -> Result<(), Fail> {
    let guarded = application(rt.alloc(), &WITH_GUARD, &RELOCS)?;
    try_write_fault(&rt, rt.alloc(), &[0], &[], 66, None)?;
    try_write_fault(&rt, rt.alloc(), &[1], &[], 66, Some(&[]))?;
    let prefix = b"RETO\x01\x01\x11\x00\x00\x00";
    try_write_fault(&rt, rt.alloc(), &[], &[], 10, Some(prefix))?;
    try_write_fault(&rt, rt.alloc(), &[], &[0], 66, Some(guarded.as_slice()))
}

/// Lines of words that are no command.
const NO_INSERTS: [&str; 5] = [
    "insert",
    "insert s.o",
    "insert s.o -g",
    "insert -s.o g.o",
    "insert s.o g.o h.o",
];

#[test]
fn insert_takes_two_names(rt: HostRuntime) -> Result<(), Fail> {
    for line in &NO_INSERTS {
        try_stored(&rt, rt.alloc(), &[], &no_command(line))?;
    }
    Ok(())
}
