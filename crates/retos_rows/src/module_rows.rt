//! Worked rows of modules: their faults, their callers, and lines that come during a call. The steps and the order are those of a
//! model of the node that was written from its description, apart from this program.

use crate::test_nodes::{Source, try_beside, try_run};
use crate::test_support::{Case, MODULE, Stored};
use std::alloc::Global;
use std::process::Abort;
use std::test::Fail;

/// Locks mutex 0, lets another thread wait for it, calls function 5 twice and emits what each call gives, unlocks and exits. The
/// other thread emits 2 when it has the mutex.
const OWNS: &[u8] =
    b".app 32 2\n.entry main\nmain: MOV #0,R12\nCALL #0xF016\nMOV #other,R12\nMOV #3,R13\nMOV #0,R14\nCALL #0xF00A\n\
CALL #0xF00C\nMOV #5,R12\nMOV #0x77,R13\nCALL #0xF022\nCALL #0xF024\nMOV #5,R12\nCALL #0xF022\nCALL #0xF024\n\
MOV #0,R12\nCALL #0xF018\nCALL #0xF024\nCALL #0xF008\nother: MOV #0,R12\nCALL #0xF016\nMOV #2,R12\nCALL #0xF024\nCALL #0xF008\n\
stay: JMP stay\n";

/// Modules whose function 5 stores, pushes, jumps or calls where it may not, or never ends. A fault at a return can't come to an
/// accepted module: the entry pops the address that the call pushed one step before, and a unit starts there.
const FAULTS: [&[u8]; 5] = [
    b".module\n.export 5 f\nf: MOV #7,&0x3000\nBR #0xF026\n",
    b".module\n.export 5 f\nf: PUSH R6\nJMP f\n",
    b".module\n.export 5 f\nf: MOV #0x2000,R6\nBR R6\n",
    b".module\n.export 5 f\nf: MOV #0x2000,R6\nCALL R6\nBR #0xF026\n",
    b".module\n.export 5 f\nf: JMP f\n",
];

/// What the application prints beside each of these modules.
const FAULT_LINES: [&str; 5] = [
    "m0 6000 6024 2000 2000\na0 6024 6130 2000 2040\n46 m0 fault store 3000\n52 a0.t0 emit 0006\n65 a0.t0 emit 0006\n\
78 a0.t0 emit 0000\n84 a0.t0 exit\n91 a0.t1 emit 0002\n97 a0.t1 exit last\nend quiet 97 emits 4 faults 1\n",
    "m0 6000 6014 2000 2000\na0 6014 6120 2000 2040\n798 m0 fault stack 1004\n804 a0.t0 emit 0006\n\
817 a0.t0 emit 0006\n830 a0.t0 emit 0000\n836 a0.t0 exit\n843 a0.t1 emit 0002\n849 a0.t1 exit last\n\
end quiet 849 emits 4 faults 1\n",
    "m0 6000 600A 2000 2000\na0 600A 6116 2000 2040\n41 m0 fault jump 2000\n47 a0.t0 emit 0006\n60 a0.t0 emit 0006\n\
73 a0.t0 emit 0000\n79 a0.t0 exit\n86 a0.t1 emit 0002\n92 a0.t1 exit last\nend quiet 92 emits 4 faults 1\n",
    "m0 6000 601C 2000 2000\na0 601C 6128 2000 2040\n45 m0 fault jump 2000\n51 a0.t0 emit 0006\n64 a0.t0 emit 0006\n\
77 a0.t0 emit 0000\n83 a0.t0 exit\n90 a0.t1 emit 0002\n96 a0.t1 exit last\nend quiet 96 emits 4 faults 1\n",
    "m0 6000 6004 2000 2000\na0 6004 6110 2000 2040\n4134 m0 fault budget 6000\n4140 a0.t0 emit 0006\n\
4153 a0.t0 emit 0006\n4166 a0.t0 emit 0000\n4172 a0.t0 exit\n4179 a0.t1 emit 0002\n4185 a0.t1 exit last\n\
end quiet 4185 emits 4 faults 1\n",
];

/// Runs the owner beside a module, and tells where it prints something else.
fn try_owner(rt: &impl Abort, alloc: Global, text: &[u8], out: &str) -> Result<(), Fail> {
    let case = Case {
        line: "run s 9000 m.o a.o",
        out,
        err: "",
        status: 6,
    };
    let sources = [
        Source { name: b"m.o", text },
        Source {
            name: b"a.o",
            text: OWNS,
        },
    ];
    try_run(rt, alloc, &sources, b"", &case)
}

#[test]
fn a_module_that_faults_leaves_its_caller_its_mutex(rt: HostRuntime) -> Result<(), Fail> {
    for (text, out) in FAULTS.iter().zip(&FAULT_LINES) {
        try_owner(&rt, rt.alloc(), text, out)?;
    }
    Ok(())
}

/// Calls function 5 with 5 and 7 and emits what it gives, three times, and exits.
const CALLS: &[u8] =
    b".app 32 1\n.entry main\nmain: MOV #3,R6\nagain: MOV #5,R12\nMOV #7,R13\nADD R6,R13\nCALL #0xF022\nMOV R13,R12\n\
CALL #0xF024\nCALL #0xF00C\nSUB #1,R6\nJNE again\nCALL #0xF008\nstay: JMP stay\n";

/// What the two emit.
const IN_TURN: Case = Case {
    line: "run s 500 m.o a.o a.o",
    out: "m0 6000 6006 2000 2000\na0 6006 606C 2000 2020\na1 606C 60D2 2020 2040\n20 a0.t0 emit 000B\n46 a1.t0 emit 000B\n\
74 a0.t0 emit 000A\n102 a1.t0 emit 000A\n130 a0.t0 emit 0009\n158 a1.t0 emit 0009\n173 a0.t0 exit last\n\
182 a1.t0 exit last\nend quiet 182 emits 6 faults 0\n",
    err: "",
    status: 0,
};

/// The module adds 1. Two applications call it in turn, since each yields after a call.
#[test]
fn two_applications_call_a_module_in_turn(rt: HostRuntime) -> Result<(), Fail> {
    let sources = [Source {
        name: b"a.o",
        text: CALLS,
    }];
    let module: [Stored; 1] = [(b"m.o", &MODULE)];
    try_beside(&rt, rt.alloc(), &sources, b"", &module, &IN_TURN)
}

/// A module's function 5 jumps to the address that it is given.
const JUMPS: &[u8] = b".module\n.export 5 f\nf: BR R12\n";

/// Gives the module the address of its own first unit.
const LURES: &[u8] =
    b".app 32 1\n.entry main\nmain: MOV #5,R12\nMOV #main,R13\nCALL #0xF022\nCALL #0xF024\nCALL #0xF008\nstay: JMP stay\n";

/// The fault of that module.
const NO_JUMP: Case = Case {
    line: "run s 500 m.o a.o",
    out: "m0 6000 6006 2000 2000\na0 6006 6048 2000 2020\n11 m0 fault jump 6006\n17 a0.t0 emit 0006\n23 a0.t0 exit last\n\
end quiet 23 emits 1 faults 1\n",
    err: "",
    status: 6,
};

/// An application's unit isn't one of the module's.
#[test]
fn a_module_may_not_jump_into_an_application(rt: HostRuntime) -> Result<(), Fail> {
    let sources = [
        Source {
            name: b"m.o",
            text: JUMPS,
        },
        Source {
            name: b"a.o",
            text: LURES,
        },
    ];
    try_run(&rt, rt.alloc(), &sources, b"", &NO_JUMP)
}

/// Calls function 5 once with 0041, emits what it gives, and exits.
const ONCE: &[u8] =
    b".app 32 1\n.entry main\nmain: MOV #5,R12\nMOV #0x41,R13\nCALL #0xF022\nMOV R13,R12\nCALL #0xF024\nCALL #0xF008\n\
stay: JMP stay\n";

/// A script, and each step of the run under it.
const AROUND_CALL: [(&[u8], &str); 3] = [
    (
        b"at 8 raise 0",
        "m0 6000 6006 2000 2000\na0 6006 604A 2000 2020\na1 604A 608E 2020 2040\n1 a0.t0 6006 403C\n2 a0.t0 600A 403D\n\
3 a0.t0 600E 4205\n4 a0.t0 6010 9211\n5 a0.t0 6014 2C02\n6 a0.t0 601A 4502\n7 a0.t0 601C 12B0 201E:20 201F:60\n\
8 a0.t0 int 0 F022 201A:08 201B:00 201C:22 201D:F0\n9 kernel line 0\n10 a1.t0 604A 403C\n11 a1.t0 604E 403D\n\
12 a1.t0 6052 4205\n13 a1.t0 6054 9211\n14 a1.t0 6058 2C02\n15 a1.t0 605E 4502\n\
16 a1.t0 6060 12B0 203E:64 203F:60\n17 a1.t0 entry module\n18 m0 6000 531C\n19 m0 6002 4030\n20 m0 entry leave\n\
21 a1.t0 6064 4D0C\n22 a1.t0 6066 4205\n23 a1.t0 6068 9211\n24 a1.t0 606C 2C02\nend limit 24 emits 0 faults 0\n",
    ),
    (
        b"at 9 raise 0",
        "m0 6000 6006 2000 2000\na0 6006 604A 2000 2020\na1 604A 608E 2020 2040\n1 a0.t0 6006 403C\n2 a0.t0 600A 403D\n\
3 a0.t0 600E 4205\n4 a0.t0 6010 9211\n5 a0.t0 6014 2C02\n6 a0.t0 601A 4502\n7 a0.t0 601C 12B0 201E:20 201F:60\n\
8 a0.t0 entry module\n9 m0 6000 531C\n10 m0 6002 4030\n11 m0 entry leave\n\
12 a0.t0 int 0 6020 201C:08 201D:00 201E:20 201F:60\n13 kernel line 0\n14 a1.t0 604A 403C\n15 a1.t0 604E 403D\n\
16 a1.t0 6052 4205\n17 a1.t0 6054 9211\n18 a1.t0 6058 2C02\n19 a1.t0 605E 4502\n\
20 a1.t0 6060 12B0 203E:64 203F:60\n21 a1.t0 entry module\n22 m0 6000 531C\n23 m0 6002 4030\n24 m0 entry leave\n\
end limit 24 emits 0 faults 0\n",
    ),
    (
        b"at 12 raise 0",
        "m0 6000 6006 2000 2000\na0 6006 604A 2000 2020\na1 604A 608E 2020 2040\n1 a0.t0 6006 403C\n2 a0.t0 600A 403D\n\
3 a0.t0 600E 4205\n4 a0.t0 6010 9211\n5 a0.t0 6014 2C02\n6 a0.t0 601A 4502\n7 a0.t0 601C 12B0 201E:20 201F:60\n\
8 a0.t0 entry module\n9 m0 6000 531C\n10 m0 6002 4030\n11 m0 entry leave\n\
12 a0.t0 int 0 6020 201C:08 201D:00 201E:20 201F:60\n13 kernel line 0\n14 a1.t0 604A 403C\n15 a1.t0 604E 403D\n\
16 a1.t0 6052 4205\n17 a1.t0 6054 9211\n18 a1.t0 6058 2C02\n19 a1.t0 605E 4502\n\
20 a1.t0 6060 12B0 203E:64 203F:60\n21 a1.t0 entry module\n22 m0 6000 531C\n23 m0 6002 4030\n24 m0 entry leave\n\
end limit 24 emits 0 faults 0\n",
    ),
];

/// Runs two applications that call the module under a script, and tells where they print something else.
fn try_around(rt: &impl Abort, alloc: Global, script: &[u8], out: &str) -> Result<(), Fail> {
    let sources = [Source {
        name: b"a.o",
        text: ONCE,
    }];
    let case = Case {
        line: "run --all s 24 m.o a.o a.o",
        out,
        err: "",
        status: 0,
    };
    try_beside(rt, alloc, &sources, script, &[(b"m.o", &MODULE)], &case)
}

/// The clock's line comes before the call's entry, in the call, where it waits for the end, and after it.
#[test]
fn a_caller_is_interrupted_before_and_after_its_call(rt: HostRuntime) -> Result<(), Fail> {
    for (script, out) in &AROUND_CALL {
        try_around(&rt, rt.alloc(), script, out)?;
    }
    Ok(())
}
