//! Damaged objects and failing devices, one case after another.

use crate::clock_rows::SOURCES;
use crate::test_nodes::node;
use crate::test_support::{
    Case, GUARDED_STORE, calls, compare, leave_cases, try_case, try_stored, unwritten,
};
use edge_io::mem_sink::MemSink;
use item_lists::lists::Bytes;
use std::alloc::{AllocError, Global};
use std::process::Abort;
use std::str;
use std::test::Fail;

/// Runs a text as an application's, and tells where it isn't refused with this line.
fn try_damaged(rt: &impl Abort, alloc: Global, text: &[u8], err: &[u8]) -> Result<(), Fail> {
    let err = str::from_utf8(err).ok().ok_or("a text")?;
    let case = Case {
        line: "solo s.o 100",
        out: "",
        err,
        status: 1,
    };
    try_stored(rt, alloc, &[(b"s.o", text)], &case)
}

/// The line of a text that ends too early, at this length.
fn short_at(alloc: Global, length: u8) -> Result<Bytes, AllocError> {
    let mut line = Bytes::from_slice(alloc, b"retos: s.o: form short at ")?;
    if length >= 10 {
        line.push(b'0' + length / 10 % 10)?;
    }
    line.push(b'0' + length % 10)?;
    line.push(b'\n')?;
    Ok(line)
}

#[test]
fn a_text_cut_at_each_length_is_short_there(rt: HostRuntime) -> Result<(), Fail> {
    for length in 0..68u8 {
        let cut = GUARDED_STORE.get(..length as usize).ok_or("a part")?;
        let line = short_at(rt.alloc(), length)?;
        try_damaged(&rt, rt.alloc(), cut, line.as_slice())?;
    }
    Ok(())
}

/// The guarded store with one byte changed.
fn changed(at: usize, value: u8) -> Result<[u8; 68], Fail> {
    let mut text = GUARDED_STORE;
    match text.get_mut(at) {
        Some(byte) => *byte = value,
        None => return Err(Fail::from("within the text")),
    }
    Ok(text)
}

/// A place, the byte that comes there, and the line of what is then refused.
const CHANGES: [(usize, u8, &[u8]); 12] = [
    (0, 0x53, b"retos: s.o: form magic at 0\n"),
    (4, 3, b"retos: s.o: form version at 4\n"),
    (5, 3, b"retos: s.o: form kind at 5\n"),
    (12, 0x0F, b"retos: s.o: form limit at 12\n"),
    (14, 5, b"retos: s.o: form limit at 14\n"),
    (16, 1, b"retos: s.o: form place at 16\n"),
    (18, 4, b"retos: s.o: form short at 68\n"),
    (18, 2, b"retos: s.o: form trailing at 64\n"),
    (56, 2, b"retos: s.o: form place at 56\n"),
    (57, 0, b"retos: s.o: form kind at 57\n"),
    (58, 3, b"retos: s.o: form place at 58\n"),
    (62, 2, b"retos: s.o: form order at 62\n"),
];

#[test]
fn a_changed_byte_is_named_with_its_place(rt: HostRuntime) -> Result<(), Fail> {
    for (at, value, err) in &CHANGES {
        let text = changed(*at, *value)?;
        try_damaged(&rt, rt.alloc(), &text, err)?;
    }
    Ok(())
}

// ---- devices

/// Runs the node with a clock and two applications, where this read fails, and tells where it isn't named by this line.
fn try_read_fault(rt: &impl Abort, alloc: Global, read: u32, err: &str) -> Result<(), Fail> {
    let case = Case {
        line: "run s 260 blink.o pc.o",
        out: "",
        err,
        status: 3,
    };
    let mut files = node(alloc, &[read], b"every 100 0", &SOURCES)?;
    try_case(rt, alloc, &mut files, &[], &case)
}

/// The number of the read that fails, and its line.
const READ_FAULTS: [(u32, &str); 6] = [
    (0, "retos: s: read fault\n"),
    (1, "retos: s: read fault\n"),
    (2, "retos: blink.o: read fault\n"),
    (3, "retos: blink.o: read fault\n"),
    (4, "retos: pc.o: read fault\n"),
    (5, "retos: pc.o: read fault\n"),
];

/// An input is read once for its bytes, and once more for its end.
#[test]
fn each_read_of_a_run_that_fails_names_its_input(rt: HostRuntime) -> Result<(), Fail> {
    for (read, err) in &READ_FAULTS {
        try_read_fault(&rt, rt.alloc(), *read, err)?;
    }
    Ok(())
}

/// A sink with room for 100 bytes, in which these writes fail and these take nothing.
fn cut_sink(alloc: Global, fails: &[u32], takes_none: &[u32]) -> Result<MemSink, AllocError> {
    MemSink::new(alloc, 100, calls(alloc, fails)?, calls(alloc, takes_none)?)
}

/// A run of the application that emits 5 and exits, whose write with this number fails, or takes nothing.
fn try_cut(
    rt: &impl Abort,
    alloc: Global,
    fails: &[u32],
    takes_none: &[u32],
    wanted: &str,
) -> Result<(), Fail> {
    let case = Case {
        line: "solo e.o 100",
        out: wanted,
        err: "retos: write fault\n",
        status: 4,
    };
    let mut left = unwritten(alloc, cut_sink(alloc, fails, takes_none)?, &[])?;
    leave_cases(alloc, case.line, &mut left)?;
    compare(rt, &left, &case);
    Ok(())
}

/// The number of the write that fails or takes nothing, and what stands on out then.
const CUTS: [(u32, &str); 4] = [
    (0, ""),
    (1, "a0 6000 602A 2000 2010\n"),
    (2, "a0 6000 602A 2000 2010\n7 a0.t0 emit 0005\n"),
    (
        3,
        "a0 6000 602A 2000 2010\n7 a0.t0 emit 0005\n13 a0.t0 exit last\n",
    ),
];

#[test]
fn each_line_of_a_run_that_is_cut_leaves_those_before_it(rt: HostRuntime) -> Result<(), Fail> {
    for (write, wanted) in &CUTS {
        try_cut(&rt, rt.alloc(), &[*write], &[], wanted)?;
        try_cut(&rt, rt.alloc(), &[], &[*write], wanted)?;
    }
    Ok(())
}
