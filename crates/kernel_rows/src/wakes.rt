//! Threads that wait for ticks and for lines, and who wakes when.

ghost use Rattle.place_model.specs.Settled.{IsSettled};

use crate::calls::{Answer, Call, Step, compare, four_sleep, try_make, try_steps, try_ticks};
use crate::threads::{BAD, START_BOTH};
use arrayvec::ArrayVec;
use flat_mem::FlatMem;
use kernel_fixture::memories::{
    NO_MEMBER, eight_apps, queue_lists, ready_list, tick_words, two_apps,
};
use kernel_tables::thread;
use kernel_threads::NONE;
use msp_machine::Regs;
use std::process::Abort;
use std::test::Fail;

/// No member.
const NO: u8 = NO_MEMBER;

const LINES: [Step; 6] = [
    (Call::Dispatch(None), Answer::Made, 0, [4, NO, NO, NO]),
    (Call::WaitLine(0), BAD, 0, [4, NO, NO, NO]),
    (Call::WaitLine(14), BAD, 0, [4, NO, NO, NO]),
    (Call::WaitLine(0xFFFF), BAD, 0, [4, NO, NO, NO]),
    (Call::WaitLine(0x0101), BAD, 0, [4, NO, NO, NO]),
    (Call::WaitLine(1), Answer::Made, NONE, [4, NO, NO, NO]),
];

/// The state of thread 0, and what it waits for.
fn waits_for(m: &FlatMem) -> (u16, u16) {
    let row = thread(m, 0);
    (row.state, row.object)
}

#[test]
fn lines_1_to_13_can_be_waited_for(rt: HostRuntime) -> Result<(), Fail> {
    let mut m = two_apps(rt.alloc())?;
    let mut r = Regs::new();
    try_steps(&rt, &mut m, &mut r, &START_BOTH, "start");
    try_steps(&rt, &mut m, &mut r, &LINES, "lines");
    compare(&rt, waits_for(&m), (6, 1), "waits");
    try_make(&rt, &mut m, &mut r, Call::WakeLine(1));
    compare(&rt, waits_for(&m), (1, 0), "woken");
    Ok(())
}

/// Thread 0 falls asleep for 65,535 ticks.
const FALLS_ASLEEP: [Step; 2] = [
    (Call::Dispatch(None), Answer::Made, 0, [4, NO, NO, NO]),
    (Call::Sleep(0xFFFF), Answer::Made, NONE, [4, NO, NO, NO]),
];

/// The tick at which thread 0 wakes.
fn wakes_at(m: &FlatMem) -> (u16, u16) {
    let row = thread(m, 0);
    (row.wake_low, row.wake_high)
}

/// Tells where the tick number or the ready list is another.
fn compare_ticks(rt: &impl Abort, m: &FlatMem, ticks: (u16, u16), list: [u8; 4])
    requires { IsSettled m.now }
{
    assert_eq!(rt; tick_words(m), ticks);
    assert_eq!(rt; ready_list(m), list);
}

#[test]
fn a_sleep_of_65535_ticks_goes_over_the_low_word(rt: HostRuntime) -> Result<(), Fail> {
    let mut m = two_apps(rt.alloc())?;
    let mut r = Regs::new();
    try_steps(&rt, &mut m, &mut r, &START_BOTH, "start");
    try_ticks(&rt, &mut m, 2);
    try_steps(&rt, &mut m, &mut r, &FALLS_ASLEEP, "falls asleep");
    compare(&rt, wakes_at(&m), (1, 1), "wakes");
    try_ticks(&rt, &mut m, 65_534);
    compare_ticks(&rt, &m, (0, 1), [4, NO, NO, NO]);
    try_ticks(&rt, &mut m, 1);
    compare_ticks(&rt, &m, (1, 1), [4, 0, NO, NO]);
    Ok(())
}

/// Lets all threads of eight applications sleep for the same number of ticks, and tells whether all calls could be made.
fn all_sleep(m: &mut FlatMem, r: &mut Regs) -> bool
    requires { IsSettled m.old }
    ensures { IsSettled m.new }
{
    for a in 0..8 {
        if !four_sleep(m, r, a, 2) {
            return false;
        }
    }
    true
}

/// Whether a list has all threads, in the order of their numbers.
fn has_all(list: &ArrayVec<u8, 32>) -> bool {
    for i in 0..list.len() {
        if list.as_slice()[i] as usize != i {
            return false;
        }
    }
    list.len() == 32
}

#[test]
fn thirty_two_sleepers_wake_at_one_tick(rt: HostRuntime) -> Result<(), Fail> {
    let mut m = eight_apps(rt.alloc())?;
    let mut r = Regs::new();
    assert!(rt; all_sleep(&mut m, &mut r));
    try_ticks(&rt, &mut m, 1);
    let (first, second) = queue_lists(&m);
    assert!(rt; first.is_empty() && has_all(&second));
    try_ticks(&rt, &mut m, 1);
    let (first, second) = queue_lists(&m);
    assert!(rt; has_all(&first) && second.is_empty());
    Ok(())
}
