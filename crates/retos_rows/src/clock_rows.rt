//! Worked rows of a node with a clock, two applications and a lock.

use crate::test_nodes::{Source, node, try_run};
use crate::test_support::{Case, try_pieces};
use std::test::Fail;

/// Emits 0 and 1 in turn, and sleeps for a tick between them.
const BLINKS: &[u8] =
    b".app 32 1\n.entry start\nstart: MOV #0,R6\nloop: MOV R6,R12\nCALL #0xF024\nXOR #1,R6\n\
MOV #1,R12\nCALL #0xF00E\nJMP loop\n";

/// A producer and a consumer, which share a count behind mutex 0 and wait by condition 0.
const SHARES: &[u8] =
    b".app 48 2\n.entry main\n.zero\ncount: .space 2\n.code\nmain: MOV #worker,R12\nMOV #3,R13\n\
MOV #0,R14\nCALL #0xF00A\nprod: MOV #0,R12\nCALL #0xF016\nADD #1,&count\nMOV #0,R12\nCALL #0xF01C\nMOV #0,R12\n\
CALL #0xF018\nMOV #2,R12\nCALL #0xF00E\nJMP prod\nworker: MOV #0,R12\nCALL #0xF016\nagain: CMP #0,&count\n\
JNE take\nMOV #0,R12\nMOV #0,R13\nCALL #0xF01A\nJMP again\ntake: SUB #1,&count\nMOV &count,R12\nCALL #0xF024\n\
MOV #0,R12\nCALL #0xF018\nJMP worker\n";

/// The first lines of the node's trace.
const NODE_LINES: &str =
    "a0 6000 6030 2000 2020\na1 6030 6110 2020 2082\n8 a0.t0 emit 0000\n72 a1.t1 emit 0000\n\
109 a0.t0 emit 0001\n239 a0.t0 emit 0000\n259 a1.t1 emit 0000\n";

/// The node's sources.
pub const SOURCES: [Source; 2] = [
    Source {
        name: b"blink.o",
        text: BLINKS,
    },
    Source {
        name: b"pc.o",
        text: SHARES,
    },
];

/// Words, and pieces of what they print.
const BY_CLOCK: [(&str, &[&str]); 3] = [
    (
        "run s 260 blink.o pc.o",
        &[
            NODE_LINES,
            "259 a1.t1 emit 0000\nend limit 260 emits 5 faults 0\n",
        ],
    ),
    ("run s 20000 blink.o pc.o", &[NODE_LINES]),
    (
        "run --all s 260 blink.o pc.o",
        &["\n99 idle\n100 idle int 0 F07E 10FC:08 10FD:00 10FE:7E 10FF:F0\n101 kernel line 0\n"],
    ),
];

#[test]
fn a_node_of_two_applications_runs_by_its_clock(rt: HostRuntime) -> Result<(), Fail> {
    for (line, pieces) in &BY_CLOCK {
        let mut files = node(rt.alloc(), &[], b"every 100 0", &SOURCES)?;
        try_pieces(&rt, rt.alloc(), &mut files, line, pieces, 0)?;
    }
    Ok(())
}

/// What it prints.
const BLINK_LINES: Case = Case {
    line: "run s 260 blink.o",
    out: "a0 6000 6030 2000 2020\n8 a0.t0 emit 0000\n109 a0.t0 emit 0001\n209 a0.t0 emit 0000\n\
end limit 260 emits 3 faults 0\n",
    err: "",
    status: 0,
};

#[test]
fn one_application_blinks_by_the_clock(rt: HostRuntime) -> Result<(), Fail> {
    try_run(&rt, rt.alloc(), &SOURCES[..1], b"every 100 0", &BLINK_LINES)
}
