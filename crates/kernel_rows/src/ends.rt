//! Applications that end: what they leave in the rows, in the lists, and of mutexes and conditions.

ghost use Rattle.std.specs.Prelude.{◌<◌};
ghost use Rattle.place_model.specs.Settled.{IsSettled};

use crate::calls::{Answer, Call, compare, lines_hold, make, try_make, try_steps};
use crate::threads::{ENDS, START_BOTH};
use flat_mem::FlatMem;
use kernel_fixture::memories::{NO_MEMBER, eight_apps, limits, queue_lists, two_apps};
use kernel_model::ends::AppEnd;
use kernel_tables::{app, cond, mutex, queues_hold, thread};
use kernel_threads::NONE;
use msp_machine::Regs;
use std::process::Abort;
use std::test::Fail;

/// No member.
const NO: u8 = NO_MEMBER;

/// Tells where a thread's row isn't an empty one.
fn compare_empty(rt: &impl Abort, m: &FlatMem, t: u8)
    requires { t < 32 }
{
    let row = thread(m, t);
    assert_eq!(rt; row.regs, [0; 16], "thread {t}");
    assert_eq!(rt; (row.state, row.priority), (0, 0), "thread {t}");
}

#[test]
fn an_application_that_ends_leaves_empty_rows(rt: HostRuntime) -> Result<(), Fail> {
    let mut m = two_apps(rt.alloc())?;
    let mut r = Regs::new();
    try_steps(&rt, &mut m, &mut r, &START_BOTH, "start");
    try_steps(&rt, &mut m, &mut r, &ENDS, "ends");
    compare(&rt, limits(&m), (0x1006, 0x1100), "limits");
    let states = (app(&m, 0).state, app(&m, 1).state);
    compare(&rt, states, (3, 2), "states");
    for t in [0, 1, 4, 5] {
        compare_empty(&rt, &m, t);
    }
    Ok(())
}

/// A thread, and the calls that it makes when it runs.
type Turn = (u8, &'static [Call]);

/// The pick that lets a ready thread run: its place in the ready list.
fn pick_of(m: &FlatMem, t: u8) -> u32
    requires { IsSettled m.now }
{
    let (list, _asleep) = queue_lists(m);
    let mut pick = 0;
    for member in list.as_slice() {
        if *member == t {
            return pick;
        }
        pick = pick.saturating_add(1);
    }
    pick
}

/// Lets a ready thread run and make its calls, and tells where one isn't made or is refused.
fn try_turn(rt: &impl Abort, m: &mut FlatMem, r: &mut Regs, turn: &Turn)
    requires { IsSettled m.old }
    ensures { IsSettled m.new }
{
    let (t, calls) = *turn;
    let pick = pick_of(m, t);
    try_make(rt, m, r, Call::Dispatch(Some(pick)));
    for call in calls {
        try_call(rt, m, r, *call);
    }
}

/// Makes a call, and tells where it isn't made or is refused.
fn try_call(rt: &impl Abort, m: &mut FlatMem, r: &mut Regs, call: Call)
    requires { IsSettled m.old }
    ensures { IsSettled m.new }
{
    let answer = make(m, r, call);
    assert!(rt;
        !matches!(answer, Answer::NotMade | Answer::Refused(_)),
        "{call:?}"
    );
}

/// Starts applications.
fn start_all(rt: &impl Abort, m: &mut FlatMem, r: &mut Regs, apps: &[u8])
    requires { IsSettled m.old }
    ensures { IsSettled m.new }
{
    for a in apps {
        try_make(rt, m, r, Call::Start(*a));
    }
}

/// Starts applications, and lets threads run in turn.
fn try_turns(rt: &impl Abort, m: &mut FlatMem, r: &mut Regs, apps: &[u8], turns: &[Turn])
    requires { IsSettled m.old }
    ensures { IsSettled m.new }
{
    start_all(rt, m, r, apps);
    for turn in turns {
        try_turn(rt, m, r, turn);
    }
}

/// Of applications 0, 1, 2 and 7, whose threads get priority 0: ready are 0, 4, 31, 5 and 8 in the end, and asleep 1, 6, 7 and 9.
const QUEUED: [Turn; 15] = [
    (0, &[Call::Priority(0), Call::Spawn(0x6000, 0), Call::End]),
    (
        4,
        &[
            Call::Priority(0),
            Call::Spawn(0x6010, 0),
            Call::Spawn(0x6010, 0),
            Call::Spawn(0x6010, 0),
            Call::End,
        ],
    ),
    (8, &[Call::Priority(0), Call::Spawn(0x6020, 0), Call::End]),
    (
        28,
        &[
            Call::Spawn(0x6070, 0),
            Call::Spawn(0x6070, 0),
            Call::Spawn(0x6070, 0),
            Call::Exit,
        ],
    ),
    (29, &[Call::Exit]),
    (30, &[Call::Exit]),
    (1, &[Call::Sleep(5)]),
    (6, &[Call::Sleep(5)]),
    (7, &[Call::Sleep(5)]),
    (9, &[Call::Sleep(5)]),
    (0, &[Call::End]),
    (4, &[Call::End]),
    (31, &[Call::End]),
    (5, &[Call::End]),
    (8, &[Call::End]),
];

/// Ready are 0, 4, 31, 5 and 8, and asleep 1, 6, 7 and 9: the ends of the two queues, and the links behind the threads' rows.
const LINKED: [(u16, [u8; 2]); 11] = [
    (0x0220, [1, 9]),
    (0x044C, [5, 0]),
    (0x050C, [32, 1]),
    (0x0A1C, [6, 5]),
    (0x053C, [9, 32]),
    (0x05CC, [0, 6]),
    (0x0230, [2, 10]),
    (0x047C, [7, 0]),
    (0x056C, [8, 2]),
    (0x059C, [10, 7]),
    (0x05FC, [0, 8]),
];

/// Ready are 0, 31 and 8, and asleep 1 and 9.
const LEFT: [(u16, [u8; 2]); 11] = [
    (0x0220, [1, 9]),
    (0x044C, [32, 0]),
    (0x050C, [0, 0]),
    (0x0A1C, [9, 1]),
    (0x053C, [0, 0]),
    (0x05CC, [0, 32]),
    (0x0230, [2, 10]),
    (0x047C, [10, 0]),
    (0x056C, [0, 0]),
    (0x059C, [0, 0]),
    (0x05FC, [0, 2]),
];

/// Thread 4 waits for line 1, threads 7, 0, 6, 1 and 5 for line 3, and thread 2 for line 13.
const LINED: [Turn; 8] = [
    (
        0,
        &[Call::Spawn(0x6000, 3), Call::Spawn(0x6000, 3), Call::End],
    ),
    (
        4,
        &[
            Call::Spawn(0x6010, 3),
            Call::Spawn(0x6010, 3),
            Call::Spawn(0x6010, 3),
            Call::WaitLine(1),
        ],
    ),
    (7, &[Call::WaitLine(3)]),
    (0, &[Call::WaitLine(3)]),
    (6, &[Call::WaitLine(3)]),
    (1, &[Call::WaitLine(3)]),
    (5, &[Call::WaitLine(3)]),
    (2, &[Call::WaitLine(13)]),
];

/// The lists of lines 0, 1, 3 and 13 before application 1 ends.
const LINES: [(u16, [u8; 5]); 4] = [
    (0x0BA0, [NO; 5]),
    (0x0BC0, [4, NO, NO, NO, NO]),
    (0x0C00, [7, 0, 6, 1, 5]),
    (0x0D40, [2, NO, NO, NO, NO]),
];

/// The lists of lines 0, 1, 3 and 13 behind that.
const LEFT_LINES: [(u16, [u8; 5]); 4] = [
    (0x0BA0, [NO; 5]),
    (0x0BC0, [NO; 5]),
    (0x0C00, [0, 1, NO, NO, NO]),
    (0x0D40, [2, NO, NO, NO, NO]),
];

/// Tells which bytes from an address on aren't these.
fn compare_bytes(rt: &impl Abort, m: &FlatMem, at: u16, wanted: &[u8]) {
    let mut next = at;
    for byte in wanted {
        assert_eq!(rt; m.byte(next), *byte, "{next:#x}");
        next = next.wrapping_add(1);
    }
}

#[test]
fn queues_lose_the_threads_of_one_application_alone(rt: HostRuntime) -> Result<(), Fail> {
    let mut m = eight_apps(rt.alloc())?;
    let mut r = Regs::new();
    try_turns(&rt, &mut m, &mut r, &[0, 1, 2, 7], &QUEUED);
    for (at, pair) in &LINKED {
        compare_bytes(&rt, &m, *at, pair);
    }
    assert!(rt; queues_hold(&m) && lines_hold(&m));
    try_make(&rt, &mut m, &mut r, Call::EndApp(1, AppEnd::Done));
    for (at, pair) in &LEFT {
        compare_bytes(&rt, &m, *at, pair);
    }
    Ok(())
}

#[test]
fn lines_lose_the_threads_of_one_application_alone(rt: HostRuntime) -> Result<(), Fail> {
    let mut m = eight_apps(rt.alloc())?;
    let mut r = Regs::new();
    try_turns(&rt, &mut m, &mut r, &[0, 1], &LINED);
    for (at, bytes) in &LINES {
        compare_bytes(&rt, &m, *at, bytes);
    }
    assert!(rt; queues_hold(&m) && lines_hold(&m));
    try_make(&rt, &mut m, &mut r, Call::EndApp(1, AppEnd::Done));
    for (at, bytes) in &LEFT_LINES {
        compare_bytes(&rt, &m, *at, bytes);
    }
    Ok(())
}

/// In application 0 thread 0 owns mutex 3, thread 1 waits for it, and thread 2 for condition 3; in application 2 the same of mutex
/// 0 and condition 0. In application 1 thread 4 owns mutexes 0 and 3, thread 5 waits for mutex 0, and threads 6 and 7 for
/// conditions 0 and 3. Who waits for a condition takes mutex 1 again.
const LOCKED: [Turn; 10] = [
    (
        0,
        &[
            Call::Spawn(0x6000, 3),
            Call::Spawn(0x6000, 3),
            Call::Lock(3),
            Call::End,
        ],
    ),
    (
        4,
        &[
            Call::Spawn(0x6010, 3),
            Call::Spawn(0x6010, 3),
            Call::Spawn(0x6010, 3),
            Call::Lock(0),
            Call::Lock(3),
            Call::End,
        ],
    ),
    (
        8,
        &[
            Call::Spawn(0x6020, 3),
            Call::Spawn(0x6020, 3),
            Call::Lock(0),
            Call::End,
        ],
    ),
    (1, &[Call::Lock(3)]),
    (2, &[Call::Lock(1), Call::Wait(3, 1)]),
    (5, &[Call::Lock(0)]),
    (6, &[Call::Lock(1), Call::Wait(0, 1)]),
    (7, &[Call::Lock(1), Call::Wait(3, 1)]),
    (9, &[Call::Lock(0)]),
    (10, &[Call::Lock(1), Call::Wait(0, 1)]),
];

/// An application and the number of a mutex and of a condition there, the mutex's owner, and how many wait for each of the two.
type Waits = ((u8, u8), u16, (usize, usize));

const WAIT: [Waits; 4] = [
    ((0, 3), 0, (1, 1)),
    ((1, 0), 0, (1, 1)),
    ((1, 3), 0, (0, 1)),
    ((2, 0), 0, (1, 1)),
];

const LEFT_WAITS: [Waits; 4] = [
    ((0, 3), 0, (1, 1)),
    ((1, 0), NONE, (0, 0)),
    ((1, 3), NONE, (0, 0)),
    ((2, 0), 0, (1, 1)),
];

/// Tells where the mutex of an application has another owner, or it or the condition another number of waiters.
fn compare_waits(rt: &impl Abort, m: &FlatMem, waits: &Waits) {
    let ((a, i), owner, counts) = *waits;
    assert!(rt; a < 8 && i < 4);
    let row = mutex(m, a, i);
    let found = (row.owner, (row.waiters.len(), cond(m, a, i).len()));
    assert_eq!(rt; found, (owner, counts), "{a}, {i}");
}

#[test]
fn mutexes_and_conditions_of_one_application_alone_are_as_new(rt: HostRuntime) -> Result<(), Fail> {
    let mut m = eight_apps(rt.alloc())?;
    let mut r = Regs::new();
    try_turns(&rt, &mut m, &mut r, &[0, 1, 2], &LOCKED);
    for waits in &WAIT {
        compare_waits(&rt, &m, waits);
    }
    try_make(&rt, &mut m, &mut r, Call::EndApp(1, AppEnd::Done));
    for waits in &LEFT_WAITS {
        compare_waits(&rt, &m, waits);
    }
    Ok(())
}
