//! Worked rows of the codes that calls of the kernel give.

use crate::test_nodes::{Source, try_run};
use crate::test_support::Case;
use std::test::Fail;

/// Emits the code of each of six calls: a lock, the same again, an unlock of what it hasn't, a lock of none of the four, a spawn
/// with all threads live, and a call of a function that nobody exports.
const CODES: &[u8] =
    b".app 64 1\n.entry main\nmain: MOV #0,R12\nCALL #0xF016\nCALL #0xF024\nMOV #0,R12\nCALL #0xF016\n\
CALL #0xF024\nMOV #1,R12\nCALL #0xF018\nCALL #0xF024\nMOV #4,R12\nCALL #0xF016\nCALL #0xF024\nMOV #main,R12\nMOV #3,R13\n\
MOV #0,R14\nCALL #0xF00A\nCALL #0xF024\nMOV #9,R12\nCALL #0xF022\nCALL #0xF024\nCALL #0xF008\nstay: JMP stay\n";

/// The six codes.
const CODE_LINES: Case = Case {
    line: "run s 100 c.o",
    out: "a0 6000 6104 2000 2040\n13 a0.t0 emit 0000\n26 a0.t0 emit 0004\n39 a0.t0 emit 0003\n52 a0.t0 emit 0002\n\
67 a0.t0 emit 0001\n80 a0.t0 emit 0005\n86 a0.t0 exit last\nend quiet 86 emits 6 faults 0\n",
    err: "",
    status: 0,
};

/// Each call takes four steps of its guard, its own and the entry's.
#[test]
fn each_call_gives_its_code(rt: HostRuntime) -> Result<(), Fail> {
    let sources = [Source {
        name: b"c.o",
        text: CODES,
    }];
    try_run(&rt, rt.alloc(), &sources, b"", &CODE_LINES)
}

/// Emits the codes of a spawn with priority 8, of one at 2, of one at an odd address of its code, of one that is good with the
/// number of its thread, and of one more, then of priority 8 and of priority 7. Its other thread exits.
const SPAWNS: &[u8] =
    b".app 32 2\n.entry main\nmain: MOV #other,R12\nMOV #8,R13\nCALL #0xF00A\nCALL #0xF024\n\
MOV #2,R12\nMOV #3,R13\nCALL #0xF00A\nCALL #0xF024\nMOV #0x6001,R12\nMOV #3,R13\nCALL #0xF00A\nCALL #0xF024\n\
MOV #other,R12\nMOV #3,R13\nCALL #0xF00A\nMOV R13,R6\nCALL #0xF024\nMOV R6,R12\nCALL #0xF024\n\
MOV #other,R12\nMOV #3,R13\nCALL #0xF00A\nCALL #0xF024\nMOV #8,R12\nCALL #0xF010\nCALL #0xF024\n\
MOV #7,R12\nCALL #0xF010\nCALL #0xF024\nCALL #0xF008\nother: CALL #0xF008\nstay: JMP stay\n";

/// Those codes.
const SPAWN_LINES: Case = Case {
    line: "run s 200 a.o",
    out: "a0 6000 6164 2000 2040\n14 a0.t0 emit 0002\n28 a0.t0 emit 0002\n42 a0.t0 emit 0002\n57 a0.t0 emit 0000\n\
64 a0.t0 emit 0001\n78 a0.t0 emit 0001\n91 a0.t0 emit 0002\n104 a0.t0 emit 0000\n110 a0.t0 exit\n\
116 a0.t1 exit last\nend quiet 116 emits 8 faults 0\n",
    err: "",
    status: 0,
};

/// The steps are those of a model of the kernel that was written from its description, apart from this program.
#[test]
fn spawn_and_priority_give_their_codes(rt: HostRuntime) -> Result<(), Fail> {
    let sources = [Source {
        name: b"a.o",
        text: SPAWNS,
    }];
    try_run(&rt, rt.alloc(), &sources, b"", &SPAWN_LINES)
}
