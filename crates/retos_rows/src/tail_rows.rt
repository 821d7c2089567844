//! Worked rows of `--tail`: which lines stand before a fault's, and how the option is given.

ghost use Rattle.std.specs.Prelude.{◌≡◌, None, IfOk};

use crate::test_support::{Case, all_files, application, no_command, try_case, with_files};
use edge_io::mem_folder::MemFolder;
use std::alloc::Global;
use std::process::Abort;
use std::test::Fail;

/// A computed jump into a guard, at code offset 000A.
const JUMPS_INTO_GUARD: [u16; 13] = [
    0x4034, 0x000A, 0x4030, 0xF004, 0x4205, 0x9211, 0x0200, 0x2C02, 0x4030, 0xF002, 0x4502, 0x1206,
    0x3FFF,
];

/// A call of `yield`, and then a computed jump to an address that is no mark.
const YIELDS_AND_JUMPS: [u16; 13] = [
    0x4205, 0x9211, 0x0200, 0x2C02, 0x4030, 0xF002, 0x4502, 0x12B0, 0xF00C, 0x4034, 0x0002, 0x4030,
    0xF004,
];

/// A folder with the objects of the other rows, these two and the empty script.
fn tailed(alloc: Global) -> Result<MemFolder, Fail>
    ensures { IfOk result (λ files. files.created ≡ None) }
{
    let into = application(alloc, &JUMPS_INTO_GUARD, &[(1, 2)])?;
    let files = with_files(
        all_files(alloc, &[])?,
        &[(b"into.o", into.as_slice()), (b"empty", b"")],
    )?;
    let yields = application(alloc, &YIELDS_AND_JUMPS, &[])?;
    with_files(files, &[(b"yields.o", yields.as_slice())])
}

/// A run with a fault, and what it prints.
fn try_tail(rt: &impl Abort, alloc: Global, line: &str, out: &str) -> Result<(), Fail> {
    let case = Case {
        line,
        out,
        err: "",
        status: 6,
    };
    try_tailed(rt, alloc, &[], &case)
}

/// Does what a case's words say in that folder, and tells where it comes to something else. These writes of out fail.
fn try_tailed(rt: &impl Abort, alloc: Global, fail: &[u32], case: &Case) -> Result<(), Fail> {
    let mut files = tailed(alloc)?;
    try_case(rt, alloc, &mut files, fail, case)
}

/// The first step's line stands before the last eight.
#[test]
fn the_last_eight_instructions_stand_before_a_fault(rt: HostRuntime) -> Result<(), Fail> {
    let out = "a0 6000 6024 2000 2010\n\
| 2 a0.t0 6004 4205\n\
| 3 a0.t0 6006 4604\n\
| 4 a0.t0 6008 5034\n\
| 5 a0.t0 600C 9034\n\
| 6 a0.t0 6010 2803\n\
| 7 a0.t0 6012 9034\n\
| 8 a0.t0 6016 2802\n\
| 9 a0.t0 6018 4030\n\
10 a0.t0 fault store 2010\n\
end quiet 10 emits 0 faults 1\n";
    try_tail(&rt, rt.alloc(), "solo --tail s.o 100", out)?;
    try_tail(&rt, rt.alloc(), "run --tail empty 100 s.o", out)
}

#[test]
fn both_options_stand_in_either_order(rt: HostRuntime) -> Result<(), Fail> {
    let out = "a0 6000 6024 2000 2010\n\
1 a0.t0 6000 4036\n\
2 a0.t0 6004 4205\n\
3 a0.t0 6006 4604\n\
4 a0.t0 6008 5034\n\
5 a0.t0 600C 9034\n\
6 a0.t0 6010 2803\n\
7 a0.t0 6012 9034\n\
8 a0.t0 6016 2802\n\
9 a0.t0 6018 4030\n\
| 2 a0.t0 6004 4205\n\
| 3 a0.t0 6006 4604\n\
| 4 a0.t0 6008 5034\n\
| 5 a0.t0 600C 9034\n\
| 6 a0.t0 6010 2803\n\
| 7 a0.t0 6012 9034\n\
| 8 a0.t0 6016 2802\n\
| 9 a0.t0 6018 4030\n\
10 a0.t0 fault store 2010\n\
end quiet 10 emits 0 faults 1\n";
    try_tail(&rt, rt.alloc(), "solo --all --tail s.o 100", out)?;
    try_tail(&rt, rt.alloc(), "solo --tail --all s.o 100", out)?;
    try_tail(&rt, rt.alloc(), "run --all --tail empty 100 s.o", out)?;
    try_tail(&rt, rt.alloc(), "run --tail --all empty 100 s.o", out)
}

/// The second fault shows the first application's instructions too, and there are fewer than eight.
#[test]
fn the_tail_is_of_all_domains_and_stays_behind_a_fault(rt: HostRuntime) -> Result<(), Fail> {
    let out = "a0 6000 601A 2000 2010\n\
a1 601A 6034 2010 2020\n\
| 1 a0.t0 6000 4034\n\
| 2 a0.t0 6004 4030\n\
3 a0.t0 fault jump 600A\n\
| 1 a0.t0 6000 4034\n\
| 2 a0.t0 6004 4030\n\
| 4 a1.t0 601A 4034\n\
| 5 a1.t0 601E 4030\n\
6 a1.t0 fault jump 6024\n\
end quiet 6 emits 0 faults 2\n";
    try_tail(&rt, rt.alloc(), "run --tail empty 100 into.o into.o", out)
}

#[test]
fn no_entry_is_in_the_tail(rt: HostRuntime) -> Result<(), Fail> {
    let out = "a0 6000 601A 2000 2010\n\
| 1 a0.t0 6000 4205\n\
| 2 a0.t0 6002 9211\n\
| 3 a0.t0 6006 2C02\n\
| 4 a0.t0 600C 4502\n\
| 5 a0.t0 600E 12B0 200E:12 200F:60\n\
| 7 a0.t0 6012 4034\n\
| 8 a0.t0 6016 4030\n\
9 a0.t0 fault jump 0002\n\
end quiet 9 emits 0 faults 1\n";
    try_tail(&rt, rt.alloc(), "solo --tail yields.o 100", out)
}

/// A run of the application that emits 5 and exits.
const NO_FAULT: Case = Case {
    line: "solo --tail e.o 100",
    out: "a0 6000 602A 2000 2010\n\
7 a0.t0 emit 0005\n\
13 a0.t0 exit last\n\
end quiet 13 emits 1 faults 0\n",
    err: "",
    status: 0,
};

/// Without a fault the option prints nothing more.
#[test]
fn no_fault_has_no_tail(rt: HostRuntime) -> Result<(), Fail> {
    try_tailed(&rt, rt.alloc(), &[], &NO_FAULT)
}

/// What stands on out where the third write fails.
const CUT: Case = Case {
    line: "solo --tail s.o 100",
    out: "a0 6000 6024 2000 2010\n| 2 a0.t0 6004 4205\n",
    err: "retos: write fault\n",
    status: 4,
};

/// Each line of the tail is written by a call of its own: where the third fails, counted from 0 as 2, two lines stand on out.
#[test]
fn each_line_of_the_tail_is_a_write_of_its_own(rt: HostRuntime) -> Result<(), Fail> {
    try_tailed(&rt, rt.alloc(), &[2], &CUT)
}

/// Lines of words that are no command.
const NO_TAILS: [&str; 16] = [
    "solo --tail",
    "solo --tail s.o",
    "solo --tail --tail s.o 9",
    "solo --all --tail --all s.o 9",
    "solo --tail --all --tail s.o 9",
    "solo s.o --tail 9",
    "solo s.o 9 --tail",
    "run --tail --tail empty 9 s.o",
    "run --all --all empty 9 s.o",
    "run --all empty --tail 9 s.o",
    "run --tail empty 9 --all s.o",
    "run --tail empty 9",
    "check --tail s.o",
    "--tail solo s.o 9",
    "solo -tail s.o 9",
    "solo --Tail s.o 9",
];

#[test]
fn the_option_stands_behind_the_command_and_once(rt: HostRuntime) -> Result<(), Fail> {
    for line in &NO_TAILS {
        try_tailed(&rt, rt.alloc(), &[], &no_command(line))?;
    }
    Ok(())
}
