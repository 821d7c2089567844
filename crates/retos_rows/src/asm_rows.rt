//! Worked rows of `asm`: what it writes and prints, what it refuses, and calls that fail.

use crate::test_support::{
    Case, Failing, SELF_JUMP, compare_held, no_command, try_case, try_stored, with_files, writable,
};
use item_lists::lists::Bytes;
use std::alloc::Global;
use std::process::Abort;
use std::test::Fail;

/// A jump to itself, as a source text.
const SOURCE: &[u8] = b".app 16 1\n.entry s\ns: JMP s\n";

/// No call fails.
const NONE: Failing = Failing {
    reads: &[],
    writes: &[],
    out: &[],
};

/// Does what a case's words say where `j.s` holds a source, and tells where `j.o` then holds something else.
fn try_asm(
    rt: &impl Abort,
    alloc: Global,
    source: &[u8],
    room: u32,
    fail: &Failing,
    case: &Case,
    written: Option<&[u8]>,
) -> Result<(), Fail> {
    let files = writable(alloc, room, fail)?;
    let mut files = with_files(files, &[(b"j.s", source)])?;
    try_case(rt, alloc, &mut files, fail.out, case)?;
    compare_held(rt, &files, b"j.s", Some(source), case.line)?;
    compare_held(rt, &files, b"j.o", written, case.line)
}

/// What the assembler prints of the source.
const ASSEMBLED: Case = Case {
    line: "asm j.s j.o",
    out: "j.o: assembled 1 words\n",
    err: "",
    status: 0,
};

#[test]
fn asm_writes_the_object_and_prints_its_line(rt: HostRuntime) -> Result<(), Fail> {
    try_asm(
        &rt,
        rt.alloc(),
        SOURCE,
        22,
        &NONE,
        &ASSEMBLED,
        Some(SELF_JUMP.as_slice()),
    )
}

/// The object takes the name of its source.
const OVER_SOURCE: Case = Case {
    line: "asm j.s j.s",
    out: "j.s: assembled 1 words\n",
    err: "",
    status: 0,
};

#[test]
fn asm_may_write_over_its_source(rt: HostRuntime) -> Result<(), Fail> {
    let files = writable(rt.alloc(), 22, &NONE)?;
    let mut files = with_files(files, &[(b"j.s", SOURCE)])?;
    try_case(&rt, rt.alloc(), &mut files, &[], &OVER_SOURCE)?;
    let written = Some(SELF_JUMP.as_slice());
    compare_held(&rt, &files, b"j.s", written, OVER_SOURCE.line)
}

/// Tells where a source, or its absence, isn't refused with this line, or `j.o` is then held.
fn try_refused(
    rt: &impl Abort,
    alloc: Global,
    line: &str,
    source: &[u8],
    err: &str,
) -> Result<(), Fail> {
    let case = Case {
        line,
        out: "",
        err,
        status: 1,
    };
    try_asm(rt, alloc, source, 22, &NONE, &case, None)
}

/// Source texts, and the line of each one's first fault.
const FAULTS: [(&[u8], &str); 8] = [
    (b"", "retos: j.s: line 0: baddirective\n"),
    (
        b".app 16 1\n.entry s\ns: FOO R6\n",
        "retos: j.s: line 3: unknownword\n",
    ),
    (b"\x01: NOP\nFOO", "retos: j.s: line 1: nottext\n"),
    (
        b".app 16 1\n.entry s\ns: NOP\ns: NOP",
        "retos: j.s: line 4: doublelabel\n",
    ),
    (
        b".app 16 1\n.entry s\ns: MOV R5",
        "retos: j.s: line 3: badoperand\n",
    ),
    (
        b".app 16 1\n.entry s\ns: MOV #65536,R6",
        "retos: j.s: line 3: numberrange\n",
    ),
    (
        b".app 16 1\n.entry s\ns: JMP t\n",
        "retos: j.s: line 3: nolabel\n",
    ),
    (
        b".app 16 1\n.zero\n.space 16384\n.space 1\n",
        "retos: j.s: line 4: toolarge\n",
    ),
];

#[test]
fn a_source_is_refused_at_its_first_fault(rt: HostRuntime) -> Result<(), Fail> {
    for (source, err) in &FAULTS {
        try_refused(&rt, rt.alloc(), "asm j.s j.o", source, err)?;
    }
    Ok(())
}

#[test]
fn a_jump_that_is_too_far_is_named(rt: HostRuntime) -> Result<(), Fail> {
    let mut source = Bytes::from_slice(rt.alloc(), b".app 16 1\n.entry s\ns:\n")?;
    for _ in 0..512u32 {
        source.extend_from_slice(b"NOP\n")?;
    }
    source.extend_from_slice(b"JMP s")?;
    let err = "retos: j.s: line 516: jumprange\n";
    try_refused(&rt, rt.alloc(), "asm j.s j.o", source.as_slice(), err)
}

#[test]
fn an_absent_source_is_named(rt: HostRuntime) -> Result<(), Fail> {
    let err = "retos: none.s: absent\n";
    try_refused(&rt, rt.alloc(), "asm none.s j.o", SOURCE, err)
}

#[test]
fn a_failing_read_of_the_source_is_named(rt: HostRuntime) -> Result<(), Fail> {
    let fail = Failing {
        reads: &[0],
        writes: &[],
        out: &[],
    };
    let case = Case {
        line: "asm j.s j.o",
        out: "",
        err: "retos: j.s: read fault\n",
        status: 3,
    };
    try_asm(&rt, rt.alloc(), SOURCE, 22, &fail, &case, None)
}

/// Tells where something else stands in `j.o` once these writes of the folder or of out fail.
fn try_write_fault(
    rt: &impl Abort,
    alloc: Global,
    writes: &[u32],
    out: &[u32],
    room: u32,
    written: Option<&[u8]>,
) -> Result<(), Fail> {
    let fail = Failing {
        reads: &[],
        writes,
        out,
    };
    let case = Case {
        line: "asm j.s j.o",
        out: "",
        err: "retos: write fault\n",
        status: 4,
    };
    try_asm(rt, alloc, SOURCE, room, &fail, &case, written)
}

/// The create is write 0 of the folder, the first append write 1.
#[test]
fn a_failing_write_leaves_a_prefix(rt: HostRuntime) -> Result<(), Fail> {
    try_write_fault(&rt, rt.alloc(), &[0], &[], 22, None)?;
    try_write_fault(&rt, rt.alloc(), &[1], &[], 22, Some(&[]))?;
    try_write_fault(&rt, rt.alloc(), &[], &[], 10, Some(&SELF_JUMP[..10]))?;
    try_write_fault(&rt, rt.alloc(), &[], &[0], 22, Some(&SELF_JUMP))
}

/// Lines of words that are no command.
const NO_ASM: [&str; 5] = [
    "asm",
    "asm j.s",
    "asm j.s -o",
    "asm -j.s j.o",
    "asm j.s j.o k.o",
];

#[test]
fn asm_takes_two_names(rt: HostRuntime) -> Result<(), Fail> {
    for line in &NO_ASM {
        try_stored(&rt, rt.alloc(), &[], &no_command(line))?;
    }
    Ok(())
}
