//! Worked rows of mutexes and conditions: who gets a mutex next. The steps and the order are those of a model of the node that was
//! written from its description, apart from this program.

use crate::test_nodes::{Source, try_run};
use crate::test_support::Case;
use std::test::Fail;

/// Locks mutex 0 and spawns three threads that lock it, then unlocks it. Each of the three emits its number while it has the mutex,
/// and yields before it unlocks.
const QUEUE: &[u8] =
    b".app 32 4\n.entry main\nmain: MOV #0,R12\nCALL #0xF016\nMOV #other,R12\nMOV #3,R13\nMOV #1,R14\nCALL #0xF00A\n\
MOV #other,R12\nMOV #3,R13\nMOV #2,R14\nCALL #0xF00A\nMOV #other,R12\nMOV #3,R13\nMOV #3,R14\nCALL #0xF00A\nCALL #0xF00C\n\
MOV #0,R12\nCALL #0xF018\nCALL #0xF024\nCALL #0xF008\nother: MOV R12,R6\nMOV #0,R12\nCALL #0xF016\nMOV R6,R12\nCALL #0xF024\n\
CALL #0xF00C\nMOV #0,R12\nCALL #0xF018\nMOV R6,R12\nCALL #0xF024\nCALL #0xF008\nstay: JMP stay\n";

/// Three threads wait for condition 1 with mutex 0. The first thread signals one of them with the mutex free, and wakes all the
/// others while it owns the mutex.
const OWNED: &[u8] =
    b".app 32 4\n.entry main\nmain: MOV #other,R12\nMOV #3,R13\nMOV #1,R14\nCALL #0xF00A\nMOV #other,R12\nMOV #3,R13\n\
MOV #2,R14\nCALL #0xF00A\nMOV #other,R12\nMOV #3,R13\nMOV #3,R14\nCALL #0xF00A\nCALL #0xF00C\nMOV #1,R12\nCALL #0xF01C\n\
MOV #0xA1,R12\nCALL #0xF024\nMOV #0,R12\nCALL #0xF016\nMOV #1,R12\nCALL #0xF01E\nMOV #0xA2,R12\nCALL #0xF024\nMOV #0,R12\n\
CALL #0xF018\nMOV #0xA3,R12\nCALL #0xF024\nCALL #0xF008\nother: MOV R12,R6\nMOV #0,R12\nCALL #0xF016\nMOV #1,R12\nMOV #0,R13\n\
CALL #0xF01A\nMOV R6,R12\nCALL #0xF024\nMOV #0,R12\nCALL #0xF018\nCALL #0xF008\nstay: JMP stay\n";

/// The same, but all three are woken while the mutex is free.
const FREE: &[u8] =
    b".app 32 4\n.entry main\nmain: MOV #other,R12\nMOV #3,R13\nMOV #1,R14\nCALL #0xF00A\nMOV #other,R12\nMOV #3,R13\n\
MOV #2,R14\nCALL #0xF00A\nMOV #other,R12\nMOV #3,R13\nMOV #3,R14\nCALL #0xF00A\nCALL #0xF00C\nMOV #1,R12\nCALL #0xF01E\n\
MOV #0xA1,R12\nCALL #0xF024\nCALL #0xF008\nother: MOV R12,R6\nMOV #0,R12\nCALL #0xF016\nMOV #1,R12\nMOV #0,R13\n\
CALL #0xF01A\nMOV R6,R12\nCALL #0xF024\nCALL #0xF00C\nMOV #0,R12\nCALL #0xF018\nCALL #0xF008\nstay: JMP stay\n";

/// Locks mutexes 1 and 0, lets a thread wait for mutex 1 and then one for mutex 0, and exits.
const LEAVES: &[u8] =
    b".app 32 3\n.entry main\nmain: MOV #1,R12\nCALL #0xF016\nMOV #0,R12\nCALL #0xF016\nMOV #other,R12\nMOV #3,R13\n\
MOV #1,R14\nCALL #0xF00A\nMOV #other,R12\nMOV #3,R13\nMOV #0,R14\nCALL #0xF00A\nCALL #0xF00C\nCALL #0xF008\n\
other: MOV R12,R6\nCALL #0xF016\nMOV R6,R12\nCALL #0xF024\nCALL #0xF008\nstay: JMP stay\n";

/// A source, and what its threads print.
const ORDERS: [(&[u8], &str); 4] = [
    (
        QUEUE,
        "a0 6000 612E 2000 2080\n77 a0.t0 emit 0000\n83 a0.t0 exit\n90 a0.t1 emit 0001\n110 a0.t1 emit 0001\n\
116 a0.t1 exit\n123 a0.t2 emit 0002\n143 a0.t2 emit 0002\n149 a0.t2 exit\n156 a0.t3 emit 0003\n\
176 a0.t3 emit 0003\n182 a0.t3 exit last\nend quiet 182 emits 7 faults 0\n",
    ),
    (
        OWNED,
        "a0 6000 6176 2000 2080\n95 a0.t0 emit 00A1\n109 a0.t1 emit 0001\n122 a0.t1 exit\n136 a0.t0 emit 00A2\n\
150 a0.t0 emit 00A3\n156 a0.t0 exit\n163 a0.t2 emit 0002\n176 a0.t2 exit\n183 a0.t3 emit 0003\n\
196 a0.t3 exit last\nend quiet 196 emits 6 faults 0\n",
    ),
    (
        FREE,
        "a0 6000 6120 2000 2080\n95 a0.t0 emit 00A1\n101 a0.t0 exit\n108 a0.t1 emit 0001\n127 a0.t1 exit\n\
134 a0.t2 emit 0002\n153 a0.t2 exit\n160 a0.t3 emit 0003\n179 a0.t3 exit last\nend quiet 179 emits 4 faults 0\n",
    ),
    (
        LEAVES,
        "a0 6000 60C2 2000 2060\n58 a0.t0 exit\n65 a0.t2 emit 0000\n71 a0.t2 exit\n78 a0.t1 emit 0001\n\
84 a0.t1 exit last\nend quiet 84 emits 2 faults 0\n",
    ),
];

#[test]
fn mutexes_go_to_their_waiters_in_order(rt: HostRuntime) -> Result<(), Fail> {
    for (text, out) in &ORDERS {
        let case = Case {
            line: "run s 900 a.o",
            out,
            err: "",
            status: 0,
        };
        let sources = [Source { name: b"a.o", text }];
        try_run(&rt, rt.alloc(), &sources, b"", &case)?;
    }
    Ok(())
}
