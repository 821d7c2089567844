//! Worked rows of return addresses that are overwritten, and of jumps into guards.

use crate::test_nodes::{Source, node, try_beside};
use crate::test_support::{
    Case, EMITS, Stored, application, try_pieces, try_stored_pieces, with_files,
};
use std::alloc::Global;
use std::process::Abort;
use std::test::Fail;

/// Thread 1 overwrites the return address of thread 0 with 2, which is the address of no code.
const BROKEN: &[u8] =
    b".app 32 2\n.entry main\nmain: MOV #evil,R12\nMOV #3,R13\nCALL #0xF00A\nCALL #f\n\
stay: JMP stay\nf: CALL #0xF00C\nRET\nevil: MOV #LO,R6\nMOV #2,30(R6)\nCALL #0xF00C\nstay2: JMP stay2\n";

/// The same with the address of a unit of its own code.
const MOVED: &[u8] =
    b".app 32 2\n.entry main\nmain: MOV #evil,R12\nMOV #3,R13\nCALL #0xF00A\nCALL #f\n\
stay: JMP stay\nf: CALL #0xF00C\nRET\nevil: MOV #LO,R6\nMOV #stay2,30(R6)\nCALL #0xF00C\nstay2: JMP stay2\n";

/// The fault of that application beside one that emits 5 and exits.
const BROKEN_ALONE: Case = Case {
    line: "run s 200 k.o e.o",
    out: "a0 6000 608E 2000 2040\na1 608E 60B8 2040 2050\n26 a1.t0 emit 0005\n32 a1.t0 exit last\n\
55 a0.t0 fault jump 0002\nend quiet 55 emits 1 faults 1\n",
    err: "",
    status: 6,
};

#[test]
fn a_broken_return_address_ends_its_application_alone(rt: HostRuntime) -> Result<(), Fail> {
    let sources = [Source {
        name: b"k.o",
        text: BROKEN,
    }];
    let emits: [Stored; 1] = [(b"e.o", &EMITS)];
    try_beside(&rt, rt.alloc(), &sources, b"", &emits, &BROKEN_ALONE)
}

/// The step of that jump, and the end.
const TAKEN: [&str; 2] = [
    "\n55 a0.t0 entry jump\n56 a0.t0 608C 4030\n",
    "\nend limit 60 emits 1 faults 0\n",
];

#[test]
fn a_return_address_moved_to_a_unit_is_taken(rt: HostRuntime) -> Result<(), Fail> {
    let sources = [Source {
        name: b"k.o",
        text: MOVED,
    }];
    let files = node(rt.alloc(), &[], b"", &sources)?;
    let mut files = with_files(files, &[(b"e.o", &EMITS)])?;
    let line = "run --all s 60 k.o e.o";
    try_pieces(&rt, rt.alloc(), &mut files, line, &TAKEN, 0)
}

/// The word that is jumped to, lines of that run, and its status.
const JUMPS: [(u16, &str, u8); 2] = [
    (
        0x000A,
        "3 a0.t0 fault jump 600A\nend quiet 3 emits 0 faults 1\n",
        6,
    ),
    (0x0008, "3 a0.t0 entry jump\n4 a0.t0 6008 4205\n", 0),
];

/// Runs a jump to this word behind the code's begin, and tells where this piece isn't printed.
fn try_jump(
    rt: &impl Abort,
    alloc: Global,
    word: u16,
    piece: &str,
    status: u8,
) -> Result<(), Fail> {
    let code = [
        0x4034, word, 0x4030, 0xF004, 0x4205, 0x9211, 0x0200, 0x2C02, 0x4030, 0xF002, 0x4502,
        0x1206, 0x3FFF,
    ];
    let text = application(alloc, &code, &[(1, 0x0002)])?;
    let stored: [Stored; 1] = [(b"x.o", text.as_slice())];
    let line = "solo --all x.o 4";
    try_stored_pieces(rt, alloc, &stored, line, &[piece], status)
}

/// A jump through the entry for jumps, to the address that the word gives behind the code's begin.
#[test]
fn a_jump_into_a_guard_faults(rt: HostRuntime) -> Result<(), Fail> {
    for (word, piece, status) in &JUMPS {
        try_jump(&rt, rt.alloc(), *word, piece, *status)?;
    }
    Ok(())
}
