//! Worked rows of programs that leave their stack: each is a fault at its guard, whenever an interrupt comes, and the others go on.

use crate::test_support::{Case, EMITS, PUSHES, Stored, application, try_stored};
use std::alloc::Global;
use std::process::Abort;
use std::test::Fail;

/// A guarded pop with SP at the stack's upper end.
const POPS: [u16; 9] = [
    0x4205, 0x9182, 0x0202, 0x2002, 0x4030, 0xF002, 0x4502, 0x4136, 0x3FFF,
];

/// A change of SP, behind its guard, to four above the region's lower end.
const LOWERS_SP: [u16; 14] = [
    0x4034, 0x0004, 0x4205, 0x9214, 0x0200, 0x2803, 0x9482, 0x0202, 0x2C02, 0x4030, 0xF002, 0x4502,
    0x4401, 0x3FFF,
];

/// Runs an application under a script, and tells where it prints something else.
fn try_raised<'a>(
    rt: &impl Abort,
    alloc: Global,
    text: &'a [u8],
    script: &'a [u8],
    out: &str,
) -> Result<(), Fail> {
    let stored: [Stored<'a>; 2] = [(b"x.o", text), (b"raise", script)];
    let case = Case {
        line: "run raise 100 x.o",
        out,
        err: "",
        status: 6,
    };
    try_stored(rt, alloc, &stored, &case)
}

/// Runs an application with line 1 raised at each of these steps in turn.
fn try_interrupted(
    rt: &impl Abort,
    alloc: Global,
    text: &[u8],
    last: u32,
    out: &str,
) -> Result<(), Fail> {
    for step in 1..=last {
        let script = format!(in alloc; "at {step} raise 1\n")?;
        try_raised(rt, alloc, text, script.as_bytes(), out)?;
    }
    Ok(())
}

/// The seventh push finds no room behind an interrupt at any step, also at one of the guard's.
#[test]
fn pushes_fail_whenever_an_interrupt_comes(rt: HostRuntime) -> Result<(), Fail> {
    let out = "a0 6000 6012 2000 2010\n43 a0.t0 fault stack 2004\nend quiet 43 emits 0 faults 1\n";
    try_interrupted(&rt, rt.alloc(), &PUSHES, 41, out)
}

#[test]
fn pops_fail_whenever_an_interrupt_comes(rt: HostRuntime) -> Result<(), Fail> {
    let text = application(rt.alloc(), &POPS, &[])?;
    let out = "a0 6000 6012 2000 2010\n7 a0.t0 fault stack 2010\nend quiet 7 emits 0 faults 1\n";
    try_interrupted(&rt, rt.alloc(), text.as_slice(), 5, out)
}

#[test]
fn a_lower_stack_pointer_fails_whenever_an_interrupt_comes(rt: HostRuntime) -> Result<(), Fail> {
    let text = application(rt.alloc(), &LOWERS_SP, &[(3, 2)])?;
    let out = "a0 6000 601C 2000 2010\n8 a0.t0 fault stack 2010\nend quiet 8 emits 0 faults 1\n";
    try_interrupted(&rt, rt.alloc(), text.as_slice(), 6, out)
}

/// A run of an application that leaves its stack and of one that emits 5 and exits.
const BESIDE: Case = Case {
    line: "run empty 100 x.o e.o",
    out: "a0 6000 6012 2000 2010\n\
a1 6012 603C 2010 2020\n\
5 a0.t0 fault stack 2010\n\
12 a1.t0 emit 0005\n\
18 a1.t0 exit last\n\
end quiet 18 emits 1 faults 1\n",
    err: "",
    status: 6,
};

#[test]
fn a_fault_leaves_the_other_application(rt: HostRuntime) -> Result<(), Fail> {
    let text = application(rt.alloc(), &POPS, &[])?;
    let stored: [Stored; 3] = [(b"x.o", text.as_slice()), (b"e.o", &EMITS), (b"empty", b"")];
    try_stored(&rt, rt.alloc(), &stored, &BESIDE)
}
