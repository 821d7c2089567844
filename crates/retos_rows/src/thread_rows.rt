//! Worked rows of threads: who runs after each call, and who is left after a fault. The steps and the order are those of a model of
//! the node that was written from its description, apart from this program.

use crate::test_nodes::{Source, try_run};
use crate::test_support::Case;
use std::test::Fail;

/// Spawns, yields, changes its priority up and down, spawns once more and exits. Its other threads tell what they were given and
/// who they are, yield, change their priority and exit.
const FIRST: &[u8] =
    b".app 32 2\n.entry main\nmain: MOV #other,R12\nMOV #3,R13\nMOV #0x11,R14\nCALL #0xF00A\nCALL #0xF00C\n\
MOV #5,R12\nCALL #0xF010\nMOV #0xA0,R12\nCALL #0xF024\nCALL #0xF00C\nMOV #2,R12\nCALL #0xF010\nMOV #other,R12\nMOV #6,R13\n\
MOV #0x12,R14\nCALL #0xF00A\nCALL #0xF008\nother: CALL #0xF024\nCALL #0xF012\nMOV R13,R12\nCALL #0xF024\nCALL #0xF00C\n\
MOV #4,R12\nCALL #0xF010\nCALL #0xF008\nstay: JMP stay\n";

/// Yields, spawns, changes its priority, yields and exits. Its other thread changes its priority, spawns, yields and exits.
const SECOND: &[u8] =
    b".app 32 3\n.entry main\nmain: CALL #0xF00C\nMOV #other,R12\nMOV #3,R13\nMOV #0x21,R14\nCALL #0xF00A\n\
MOV #1,R12\nCALL #0xF010\nMOV #0xB0,R12\nCALL #0xF024\nCALL #0xF00C\nCALL #0xF008\n\
other: CALL #0xF024\nMOV #7,R12\nCALL #0xF010\nMOV #last,R12\nMOV #2,R13\nMOV #0x22,R14\nCALL #0xF00A\n\
MOV #0,R12\nCALL #0xF010\nCALL #0xF00C\nCALL #0xF008\nlast: CALL #0xF024\nCALL #0xF008\nstay: JMP stay\n";

/// Who emits what, and when.
const TURNS: Case = Case {
    line: "run s 500 a.o b.o",
    out: "a0 6000 6126 2000 2040\na1 6126 6248 2040 20A0\n27 a0.t1 emit 0011\n40 a0.t1 emit 0001\n60 a0.t0 emit 00A0\n\
102 a0.t1 exit\n108 a1.t1 emit 0021\n146 a0.t1 emit 0012\n159 a0.t1 emit 0001\n178 a0.t1 exit\n\
184 a0.t0 exit last\n190 a1.t2 emit 0022\n196 a1.t2 exit\n203 a1.t0 emit 00B0\n215 a1.t0 exit\n\
227 a1.t1 exit last\nend quiet 227 emits 8 faults 0\n",
    err: "",
    status: 0,
};

/// Each of spawn, yield and priority stands right before each other one, and right before an exit.
#[test]
fn threads_of_two_applications_take_their_turns(rt: HostRuntime) -> Result<(), Fail> {
    let sources = [
        Source {
            name: b"a.o",
            text: FIRST,
        },
        Source {
            name: b"b.o",
            text: SECOND,
        },
    ];
    try_run(&rt, rt.alloc(), &sources, b"", &TURNS)
}

/// Spawns two threads that emit their number and yield, and stores out of its region after they ran.
const STORES: &[u8] =
    b".app 32 3\n.entry main\nmain: MOV #other,R12\nMOV #3,R13\nMOV #1,R14\nCALL #0xF00A\nMOV #other,R12\nMOV #3,R13\n\
MOV #2,R14\nCALL #0xF00A\nCALL #0xF00C\nMOV #7,&0x3000\nstay: JMP stay\n\
other: MOV R12,R6\nagain: MOV R6,R12\nCALL #0xF024\nCALL #0xF00C\nJMP again\n";

/// Emits 3, 2 and 1, yields between, and exits.
const COUNTS: &[u8] =
    b".app 32 1\n.entry main\nmain: MOV #3,R6\nagain: MOV R6,R12\nCALL #0xF024\nCALL #0xF00C\nSUB #1,R6\nJNE again\n\
CALL #0xF008\nstay: JMP stay\n";

/// The fault, and what the fourth thread does after it.
const FOURTH: Case = Case {
    line: "run s 500 a.o b.o",
    out: "a0 6000 609A 2000 2060\na1 609A 60E4 2060 2080\n32 a1.t0 emit 0003\n46 a0.t1 emit 0001\n60 a0.t2 emit 0002\n\
75 a0.t0 fault store 3000\n85 a1.t0 emit 0002\n101 a1.t0 emit 0001\n116 a1.t0 exit last\n\
end quiet 116 emits 5 faults 1\n",
    err: "",
    status: 6,
};

#[test]
fn a_fault_ends_three_threads_and_leaves_the_fourth(rt: HostRuntime) -> Result<(), Fail> {
    let sources = [
        Source {
            name: b"a.o",
            text: STORES,
        },
        Source {
            name: b"b.o",
            text: COUNTS,
        },
    ];
    try_run(&rt, rt.alloc(), &sources, b"", &FOURTH)
}
