//! Who owns, who waits and who is ready behind calls on mutexes and conditions, worked out by hand for one application of four
//! threads.

use crate::calls::{Answer, Call, Step, try_steps};
use crate::threads::BAD;
use kernel_fixture::memories::{NO_MEMBER, eight_apps};
use kernel_tables::{cond, mutex, thread};
use kernel_threads::{Code, NONE};
use msp_machine::Regs;
use std::test::Fail;

/// No member.
const NO: u8 = NO_MEMBER;

/// Thread 0 runs, and threads 1 to 3 are ready.
const FOUR_THREADS: [Step; 5] = [
    (Call::Start(0), Answer::Made, NONE, [0, NO, NO, NO]),
    (Call::Dispatch(None), Answer::Made, 0, [NO; 4]),
    (
        Call::Spawn(0x6000, 3),
        Answer::Number(1),
        0,
        [1, NO, NO, NO],
    ),
    (Call::Spawn(0x6000, 3), Answer::Number(2), 0, [1, 2, NO, NO]),
    (Call::Spawn(0x6000, 3), Answer::Number(3), 0, [1, 2, 3, NO]),
];

/// Thread 0 owns mutex 0, and threads 1 to 3 wait for it in this order.
const IN_TURN: [Step; 22] = [
    (Call::Lock(0), Answer::Owns, 0, [1, 2, 3, NO]),
    (Call::End, Answer::Made, NONE, [1, 2, 3, 0]),
    (Call::Dispatch(None), Answer::Made, 1, [2, 3, 0, NO]),
    (Call::Lock(0), Answer::Waits, NONE, [2, 3, 0, NO]),
    (Call::Dispatch(None), Answer::Made, 2, [3, 0, NO, NO]),
    (Call::Lock(0), Answer::Waits, NONE, [3, 0, NO, NO]),
    (Call::Dispatch(None), Answer::Made, 3, [0, NO, NO, NO]),
    (Call::Lock(0), Answer::Waits, NONE, [0, NO, NO, NO]),
    (Call::Dispatch(None), Answer::Made, 0, [NO; 4]),
    (Call::Unlock(0), Answer::Made, 0, [1, NO, NO, NO]),
    (
        Call::Unlock(0),
        Answer::Refused(Code::NotOwner),
        0,
        [1, NO, NO, NO],
    ),
    (Call::End, Answer::Made, NONE, [1, 0, NO, NO]),
    (Call::Dispatch(None), Answer::Made, 1, [0, NO, NO, NO]),
    (Call::Unlock(0), Answer::Made, 1, [0, 2, NO, NO]),
    (Call::End, Answer::Made, NONE, [0, 2, 1, NO]),
    (Call::Dispatch(None), Answer::Made, 0, [2, 1, NO, NO]),
    (Call::End, Answer::Made, NONE, [2, 1, 0, NO]),
    (Call::Dispatch(None), Answer::Made, 2, [1, 0, NO, NO]),
    (Call::Unlock(0), Answer::Made, 2, [1, 0, 3, NO]),
    (Call::End, Answer::Made, NONE, [1, 0, 3, 2]),
    (Call::Dispatch(None), Answer::Made, 1, [0, 3, 2, NO]),
    (Call::Lock(0), Answer::Waits, NONE, [0, 3, 2, NO]),
];

/// Arguments are tested first. With a code nothing changes.
const CODES: [Step; 12] = [
    (Call::Lock(0), Answer::Owns, 0, [1, 2, 3, NO]),
    (
        Call::Lock(0),
        Answer::Refused(Code::OwnLock),
        0,
        [1, 2, 3, NO],
    ),
    (
        Call::Unlock(1),
        Answer::Refused(Code::NotOwner),
        0,
        [1, 2, 3, NO],
    ),
    (Call::Lock(4), BAD, 0, [1, 2, 3, NO]),
    (Call::Unlock(0xFFFF), BAD, 0, [1, 2, 3, NO]),
    (Call::Wait(4, 1), BAD, 0, [1, 2, 3, NO]),
    (Call::Wait(0, 4), BAD, 0, [1, 2, 3, NO]),
    (
        Call::Wait(0, 1),
        Answer::Refused(Code::NotOwner),
        0,
        [1, 2, 3, NO],
    ),
    (Call::Signal(4), BAD, 0, [1, 2, 3, NO]),
    (Call::Broadcast(0x0100), BAD, 0, [1, 2, 3, NO]),
    (Call::Signal(0), Answer::Made, 0, [1, 2, 3, NO]),
    (Call::Unlock(0), Answer::Made, 0, [1, 2, 3, NO]),
];

/// Threads 0 and 1 wait for condition 2, to take mutex 1 again; thread 2 runs.
const TWO_WAIT: [Step; 6] = [
    (Call::Lock(1), Answer::Owns, 0, [1, 2, 3, NO]),
    (Call::Wait(2, 1), Answer::Made, NONE, [1, 2, 3, NO]),
    (Call::Dispatch(None), Answer::Made, 1, [2, 3, NO, NO]),
    (Call::Lock(1), Answer::Owns, 1, [2, 3, NO, NO]),
    (Call::Wait(2, 1), Answer::Made, NONE, [2, 3, NO, NO]),
    (Call::Dispatch(None), Answer::Made, 2, [3, NO, NO, NO]),
];

/// Mutex 1 is thread 2's: none is ready before it is unlocked, and then one after the other.
const TO_AN_OWNED_MUTEX: [Step; 8] = [
    (Call::Lock(1), Answer::Owns, 2, [3, NO, NO, NO]),
    (Call::Broadcast(2), Answer::Made, 2, [3, NO, NO, NO]),
    (Call::Unlock(1), Answer::Made, 2, [3, 0, NO, NO]),
    (Call::End, Answer::Made, NONE, [3, 0, 2, NO]),
    (Call::Dispatch(None), Answer::Made, 3, [0, 2, NO, NO]),
    (Call::End, Answer::Made, NONE, [0, 2, 3, NO]),
    (Call::Dispatch(None), Answer::Made, 0, [2, 3, NO, NO]),
    (Call::Unlock(1), Answer::Made, 0, [2, 3, 1, NO]),
];

/// Thread 0 owns mutexes 0 and 2, thread 1 waits for mutex 2 and thread 2 for mutex 0.
const OF_TWO_MUTEXES: [Step; 10] = [
    (Call::Lock(2), Answer::Owns, 0, [1, 2, 3, NO]),
    (Call::Lock(0), Answer::Owns, 0, [1, 2, 3, NO]),
    (Call::End, Answer::Made, NONE, [1, 2, 3, 0]),
    (Call::Dispatch(None), Answer::Made, 1, [2, 3, 0, NO]),
    (Call::Lock(2), Answer::Waits, NONE, [2, 3, 0, NO]),
    (Call::Dispatch(None), Answer::Made, 2, [3, 0, NO, NO]),
    (Call::Lock(0), Answer::Waits, NONE, [3, 0, NO, NO]),
    (Call::Dispatch(None), Answer::Made, 3, [0, NO, NO, NO]),
    (Call::End, Answer::Made, NONE, [0, 3, NO, NO]),
    (Call::Dispatch(None), Answer::Made, 0, [3, NO, NO, NO]),
];

#[test]
fn calls_leave_who_runs_and_the_ready_list_in_order(rt: HostRuntime) -> Result<(), Fail> {
    let cases: [(&str, &[Step]); 3] = [
        ("a mutex goes to those that wait in their order", &IN_TURN),
        ("arguments are tested before owners", &CODES),
        ("two threads wait for one condition", &TWO_WAIT),
    ];
    for (name, steps) in cases {
        let mut m = eight_apps(rt.alloc())?;
        let mut r = Regs::new();
        try_steps(&rt, &mut m, &mut r, &FOUR_THREADS, name);
        try_steps(&rt, &mut m, &mut r, steps, name);
    }
    Ok(())
}

#[test]
fn a_broadcast_leaves_one_owner_of_a_free_mutex(rt: HostRuntime) -> Result<(), Fail> {
    let mut m = eight_apps(rt.alloc())?;
    let mut r = Regs::new();
    try_steps(&rt, &mut m, &mut r, &FOUR_THREADS, "four threads");
    try_steps(&rt, &mut m, &mut r, &TWO_WAIT, "two wait");
    assert_eq!(rt; cond(&m, 0, 2).as_slice(), [0, 1].as_slice());
    let wakes: [Step; 1] = [(Call::Broadcast(2), Answer::Made, 2, [3, 0, NO, NO])];
    try_steps(&rt, &mut m, &mut r, &wakes, "wakes");
    let row = mutex(&m, 0, 1);
    assert_eq!(rt; (row.owner, row.waiters.as_slice()), (0, [1].as_slice()));
    assert!(rt; cond(&m, 0, 2).is_empty());
    // thread, state, object, mutex to take again
    for (t, state, object, again) in [(0, 1, 0, 0), (1, 4, 1, 0)] {
        let row = thread(&m, t);
        assert_eq!(rt;
            (row.state, row.object, row.mutex),
            (state, object, again),
            "{t}"
        );
    }
    Ok(())
}

#[test]
fn a_broadcast_goes_to_the_list_of_an_owned_mutex(rt: HostRuntime) -> Result<(), Fail> {
    let mut m = eight_apps(rt.alloc())?;
    let mut r = Regs::new();
    try_steps(&rt, &mut m, &mut r, &FOUR_THREADS, "four threads");
    try_steps(&rt, &mut m, &mut r, &TWO_WAIT, "two wait");
    try_steps(&rt, &mut m, &mut r, &TO_AN_OWNED_MUTEX, "to an owned mutex");
    assert_eq!(rt; mutex(&m, 0, 1).owner, 1);
    Ok(())
}

#[test]
fn an_owner_hands_its_mutexes_over_in_rising_number(rt: HostRuntime) -> Result<(), Fail> {
    let mut m = eight_apps(rt.alloc())?;
    let mut r = Regs::new();
    try_steps(&rt, &mut m, &mut r, &FOUR_THREADS, "four threads");
    try_steps(&rt, &mut m, &mut r, &OF_TWO_MUTEXES, "of two mutexes");
    let hands_over: [Step; 1] = [(Call::HandOverAll, Answer::Made, 0, [3, 2, 1, NO])];
    try_steps(&rt, &mut m, &mut r, &hands_over, "hands over");
    let owners: [(u8, u16); 4] = [(0, 2), (1, NONE), (2, 1), (3, NONE)];
    for (i, owner) in owners {
        assert_eq!(rt; mutex(&m, 0, i).owner, owner, "{i}");
    }
    Ok(())
}

#[test]
fn an_owner_that_exits_hands_its_mutexes_over(rt: HostRuntime) -> Result<(), Fail> {
    let mut m = eight_apps(rt.alloc())?;
    let mut r = Regs::new();
    try_steps(&rt, &mut m, &mut r, &FOUR_THREADS, "four threads");
    try_steps(&rt, &mut m, &mut r, &OF_TWO_MUTEXES, "of two mutexes");
    let exits: [Step; 2] = [
        (Call::HandOverAll, Answer::Made, 0, [3, 2, 1, NO]),
        (Call::Exit, Answer::Last(false), NONE, [3, 2, 1, NO]),
    ];
    try_steps(&rt, &mut m, &mut r, &exits, "exits");
    assert_eq!(rt; (mutex(&m, 0, 0).owner, mutex(&m, 0, 2).owner), (2, 1));
    assert_eq!(rt; thread(&m, 0).state, 0);
    Ok(())
}
