//! Who runs and who is ready behind calls on threads, worked out by hand for two applications of two threads.

ghost use Rattle.std.specs.Prelude.{◌<◌};

use crate::calls::{Answer, Call, Step, compare, make, try_steps};
use flat_mem::FlatMem;
use kernel_fixture::memories::{NO_MEMBER, two_apps};
use kernel_tables::thread;
use kernel_threads::*;
use msp_machine::Regs;
use std::alloc::Global;
use std::process::Abort;
use std::test::Fail;

/// No member.
const NO: u8 = NO_MEMBER;

/// Both applications begin.
pub const START_BOTH: [Step; 2] = [
    (Call::Start(0), Answer::Made, NONE, [0, NO, NO, NO]),
    (Call::Start(1), Answer::Made, NONE, [0, 4, NO, NO]),
];

/// Thread 1 of application 0 comes before both threads 0.
const URGENT: [Step; 11] = [
    (Call::Dispatch(None), Answer::Made, 0, [4, NO, NO, NO]),
    (Call::Spawn(0x600A, 5), Answer::Number(1), 0, [1, 4, NO, NO]),
    (Call::End, Answer::Made, NONE, [1, 4, 0, NO]),
    (Call::Dispatch(None), Answer::Made, 1, [4, 0, NO, NO]),
    (Call::End, Answer::Made, NONE, [1, 4, 0, NO]),
    (Call::Dispatch(None), Answer::Made, 1, [4, 0, NO, NO]),
    (Call::Priority(3), Answer::Made, 1, [4, 0, NO, NO]),
    (Call::End, Answer::Made, NONE, [4, 0, 1, NO]),
    (Call::Dispatch(None), Answer::Made, 4, [0, 1, NO, NO]),
    (Call::End, Answer::Made, NONE, [0, 1, 4, NO]),
    (Call::Dispatch(None), Answer::Made, 0, [1, 4, NO, NO]),
];

const FRONT_AND_END: [Step; 9] = [
    (Call::Dispatch(None), Answer::Made, 0, [4, NO, NO, NO]),
    (Call::Spawn(0x600A, 5), Answer::Number(1), 0, [1, 4, NO, NO]),
    (Call::Front, Answer::Made, NONE, [1, 0, 4, NO]),
    (Call::Dispatch(None), Answer::Made, 1, [0, 4, NO, NO]),
    (Call::Priority(3), Answer::Made, 1, [0, 4, NO, NO]),
    (Call::Front, Answer::Made, NONE, [1, 0, 4, NO]),
    (Call::Dispatch(None), Answer::Made, 1, [0, 4, NO, NO]),
    (Call::End, Answer::Made, NONE, [0, 4, 1, NO]),
    (Call::Dispatch(None), Answer::Made, 0, [4, 1, NO, NO]),
];

/// The picks modulo 3 are 2, 1, 0 and 0.
const PICKS: [Step; 10] = [
    (Call::Dispatch(None), Answer::Made, 0, [4, NO, NO, NO]),
    (Call::Spawn(0x600A, 3), Answer::Number(1), 0, [4, 1, NO, NO]),
    (Call::End, Answer::Made, NONE, [4, 1, 0, NO]),
    (Call::Dispatch(Some(5)), Answer::Made, 0, [4, 1, NO, NO]),
    (Call::End, Answer::Made, NONE, [4, 1, 0, NO]),
    (Call::Dispatch(Some(4)), Answer::Made, 1, [4, 0, NO, NO]),
    (Call::End, Answer::Made, NONE, [4, 0, 1, NO]),
    (Call::Dispatch(Some(3)), Answer::Made, 4, [0, 1, NO, NO]),
    (Call::End, Answer::Made, NONE, [0, 1, 4, NO]),
    (
        Call::Dispatch(Some(0xFFFF_FFFF)),
        Answer::Made,
        0,
        [1, 4, NO, NO],
    ),
];

/// Thread 1 goes first, and its number is free again.
const EXITS: [Step; 12] = [
    (Call::Dispatch(None), Answer::Made, 0, [4, NO, NO, NO]),
    (Call::Spawn(0x6004, 3), Answer::Number(1), 0, [4, 1, NO, NO]),
    (Call::End, Answer::Made, NONE, [4, 1, 0, NO]),
    (Call::Dispatch(Some(1)), Answer::Made, 1, [4, 0, NO, NO]),
    (Call::Exit, Answer::Last(false), NONE, [4, 0, NO, NO]),
    (Call::Exit, Answer::NotMade, NONE, [4, 0, NO, NO]),
    (Call::Dispatch(Some(1)), Answer::Made, 0, [4, NO, NO, NO]),
    (Call::Spawn(0x600A, 6), Answer::Number(1), 0, [1, 4, NO, NO]),
    (Call::Exit, Answer::Last(false), NONE, [1, 4, NO, NO]),
    (Call::Dispatch(None), Answer::Made, 1, [4, NO, NO, NO]),
    (Call::Exit, Answer::Last(true), NONE, [4, NO, NO, NO]),
    (Call::Dispatch(None), Answer::Made, 4, [NO, NO, NO, NO]),
];

/// Application 1 ends, and then application 0.
pub const ENDS: [Step; 6] = [
    (Call::Dispatch(None), Answer::Made, 0, [4, NO, NO, NO]),
    (Call::Spawn(0x600A, 5), Answer::Number(1), 0, [1, 4, NO, NO]),
    (
        Call::EndApp(1, AppEnd::Done),
        Answer::Made,
        0,
        [1, NO, NO, NO],
    ),
    (
        Call::EndApp(1, AppEnd::Done),
        Answer::NotMade,
        0,
        [1, NO, NO, NO],
    ),
    (
        Call::EndApp(0, AppEnd::Faulted),
        Answer::Made,
        NONE,
        [NO; 4],
    ),
    (
        Call::EndApp(2, AppEnd::Done),
        Answer::NotMade,
        NONE,
        [NO; 4],
    ),
];

/// Thread 4 falls asleep first, threads 4 and 0 wait for tick 3, and thread 1 for tick 2.
const SLEEPERS: [Step; 13] = [
    (Call::Dispatch(None), Answer::Made, 0, [4, NO, NO, NO]),
    (Call::Spawn(0x600A, 3), Answer::Number(1), 0, [4, 1, NO, NO]),
    (Call::End, Answer::Made, NONE, [4, 1, 0, NO]),
    (Call::Dispatch(None), Answer::Made, 4, [1, 0, NO, NO]),
    (Call::Sleep(3), Answer::Made, NONE, [1, 0, NO, NO]),
    (Call::Tick, Answer::Made, NONE, [1, 0, NO, NO]),
    (Call::Dispatch(Some(1)), Answer::Made, 0, [1, NO, NO, NO]),
    (Call::Sleep(2), Answer::Made, NONE, [1, NO, NO, NO]),
    (Call::Dispatch(None), Answer::Made, 1, [NO; 4]),
    (Call::Sleep(1), Answer::Made, NONE, [NO; 4]),
    (Call::Dispatch(None), Answer::Made, NONE, [NO; 4]),
    (Call::Tick, Answer::Made, NONE, [1, NO, NO, NO]),
    (Call::Tick, Answer::Made, NONE, [1, 4, 0, NO]),
];

/// Threads 0 and 4 wait for line 3, and threads 1 and 5 for line 13.
const WAITERS: [Step; 14] = [
    (Call::Dispatch(None), Answer::Made, 0, [4, NO, NO, NO]),
    (Call::Spawn(0x600A, 3), Answer::Number(1), 0, [4, 1, NO, NO]),
    (Call::WaitLine(3), Answer::Made, NONE, [4, 1, NO, NO]),
    (Call::Dispatch(None), Answer::Made, 4, [1, NO, NO, NO]),
    (Call::Spawn(0x6010, 3), Answer::Number(1), 4, [1, 5, NO, NO]),
    (Call::WaitLine(3), Answer::Made, NONE, [1, 5, NO, NO]),
    (Call::Dispatch(None), Answer::Made, 1, [5, NO, NO, NO]),
    (Call::WaitLine(13), Answer::Made, NONE, [5, NO, NO, NO]),
    (Call::Dispatch(None), Answer::Made, 5, [NO; 4]),
    (Call::WaitLine(13), Answer::Made, NONE, [NO; 4]),
    (Call::WakeLine(12), Answer::Made, NONE, [NO; 4]),
    (Call::WakeLine(13), Answer::Made, NONE, [1, 5, NO, NO]),
    (Call::WakeLine(13), Answer::Made, NONE, [1, 5, NO, NO]),
    (Call::WakeLine(3), Answer::Made, NONE, [1, 5, 0, 4]),
];

/// What each list of calls shows.
const CASES: [(&str, &[Step]); 7] = [
    (
        "higher priorities run first, and equal ones in turn",
        &URGENT,
    ),
    (
        "the front is before equals, and the end behind them",
        &FRONT_AND_END,
    ),
    ("a pick counts modulo the ready threads", &PICKS),
    ("an application ends with its last thread", &EXITS),
    ("an application's threads leave the ready list", &ENDS),
    (
        "sleepers wake by their ticks, and equal ones as they fell asleep",
        &SLEEPERS,
    ),
    ("a line wakes its own waiters, in order", &WAITERS),
];

/// Starts both applications and makes calls in turn, and tells which is the first that isn't as wanted.
fn try_calls(rt: &impl Abort, alloc: Global, name: &str, steps: &[Step]) -> Result<(), Fail> {
    let mut m = two_apps(alloc)?;
    let mut r = Regs::new();
    try_steps(rt, &mut m, &mut r, &START_BOTH, name);
    try_steps(rt, &mut m, &mut r, steps, name);
    Ok(())
}

#[test]
fn calls_leave_who_runs_and_the_ready_list_in_order(rt: HostRuntime) -> Result<(), Fail> {
    for (name, steps) in &CASES {
        try_calls(&rt, rt.alloc(), name, steps)?;
    }
    Ok(())
}

/// Thread 0 runs, and spawns thread 1.
const SPAWNED: [Step; 2] = [
    (Call::Dispatch(None), Answer::Made, 0, [4, NO, NO, NO]),
    (Call::Spawn(0x600A, 1), Answer::Number(1), 0, [4, 1, NO, NO]),
];

/// Tells where a thread's row has another PC, SP, R12 or priority.
fn compare_begun(rt: &impl Abort, m: &FlatMem, t: u8, words: [u16; 3], priority: u16)
    requires { t < 32 }
{
    let [pc, sp, r12] = words;
    let row = thread(m, t);
    let want = [pc, sp, 8, 0, 0, 0, 0, 0, 0, 0, 0, 0, r12, 0, 0, 0];
    assert_eq!(rt; row.regs, want, "thread {t}");
    assert_eq!(rt; row.priority, priority, "thread {t}");
}

#[test]
fn a_thread_begins_at_its_entry_with_its_own_stack(rt: HostRuntime) -> Result<(), Fail> {
    let mut m = two_apps(rt.alloc())?;
    let mut r = Regs::new();
    try_steps(&rt, &mut m, &mut r, &START_BOTH, "start");
    // a thread begins once
    let again = make(&mut m, &mut r, Call::Start(0));
    compare(&rt, again, Answer::NotMade, "start again");
    r.set(14, 0x1234);
    try_steps(&rt, &mut m, &mut r, &SPAWNED, "spawn");
    compare_begun(&rt, &m, 0, [0x6004, 0x2012, 0], 3);
    compare_begun(&rt, &m, 4, [0x6010, 0x2046, 0], 3);
    compare_begun(&rt, &m, 1, [0x600A, 0x2022, 0], 1);
    Ok(())
}

/// An argument is refused.
pub const BAD: Answer = Answer::Refused(Code::BadArgument);

/// 6004 and 600A are marks of application 0, and 6010 is one of application 1.
const SPAWNS: [Step; 11] = [
    (Call::Dispatch(None), Answer::Made, 0, [4, NO, NO, NO]),
    (Call::Spawn(0x6002, 8), BAD, 0, [4, NO, NO, NO]),
    (Call::Spawn(0x6002, 3), BAD, 0, [4, NO, NO, NO]),
    (Call::Spawn(0x600A, 8), BAD, 0, [4, NO, NO, NO]),
    (Call::Spawn(0x600B, 3), BAD, 0, [4, NO, NO, NO]),
    (Call::Spawn(0x6010, 3), BAD, 0, [4, NO, NO, NO]),
    (Call::Spawn(0x600A, 7), Answer::Number(1), 0, [1, 4, NO, NO]),
    (
        Call::Spawn(0x6004, 0),
        Answer::Refused(Code::Full),
        0,
        [1, 4, NO, NO],
    ),
    (Call::Spawn(0x6004, 8), BAD, 0, [1, 4, NO, NO]),
    (Call::Spawn(0x6002, 0), BAD, 0, [1, 4, NO, NO]),
    (Call::Priority(8), BAD, 0, [1, 4, NO, NO]),
];

#[test]
fn arguments_are_tested_before_room(rt: HostRuntime) -> Result<(), Fail> {
    let mut m = two_apps(rt.alloc())?;
    let mut r = Regs::new();
    try_steps(&rt, &mut m, &mut r, &START_BOTH, "start");
    try_steps(&rt, &mut m, &mut r, &SPAWNS, "arguments");
    let priorities = (thread(&m, 0).priority, thread(&m, 1).priority);
    compare(&rt, priorities, (3, 7), "priorities");
    Ok(())
}
