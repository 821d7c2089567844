//! Registers: those of who runs, those that are saved, and where the running domain goes on.

ghost use Rattle.std.specs.Prelude.{◌<◌};
ghost use Rattle.place_model.specs.Settled.{IsSettled};

use crate::calls::{Call, compare, try_jump, try_make, try_return, try_steps};
use crate::threads::START_BOTH;
use flat_mem::FlatMem;
use kernel_fixture::memories::{limits, put_marks, runner, two_apps, words_of};
use kernel_tables::{ModuleRow, SysWord, clear, put, set_module, set_register};
use kernel_threads::NONE;
use msp_machine::Regs;
use std::process::Abort;
use std::test::Fail;

/// The registers of an idle machine.
const IDLE: [u16; 16] = [0xF07E, 0x1100, 8, 0, 0, 0, 0, 0, 0, 0, 0, 0, 0, 0, 0, 0];

/// Sets R4 to R15, each to its number over 0100.
fn set_high(r: &mut Regs) {
    for n in 4..16 {
        r.set(n, 0x0100 + u16::from(n));
    }
}

/// Lets who runs go to the end, and the next run.
fn try_turn(rt: &impl Abort, m: &mut FlatMem, r: &mut Regs)
    requires { IsSettled m.old }
    ensures { IsSettled m.new }
{
    try_make(rt, m, r, Call::End);
    try_make(rt, m, r, Call::Dispatch(None));
}

#[test]
fn the_registers_and_the_limits_are_those_of_who_runs(rt: HostRuntime) -> Result<(), Fail> {
    let mut m = two_apps(rt.alloc())?;
    let mut r = Regs::new();
    // nothing is ready: the machine idles
    try_make(&rt, &mut m, &mut r, Call::Dispatch(None));
    compare(&rt, words_of(&r), IDLE, "idle registers");
    compare(
        &rt,
        (runner(&m), limits(&m)),
        (NONE, (0x1006, 0x1100)),
        "idle",
    );
    try_steps(&rt, &mut m, &mut r, &START_BOTH, "start");
    try_make(&rt, &mut m, &mut r, Call::Dispatch(None));
    compare(
        &rt,
        (r.get(0), r.get(1), r.get(2)),
        (0x6004, 0x2012, 8),
        "first",
    );
    compare(&rt, limits(&m), (0x2008, 0x2012), "first limits");
    // what is saved runs again, and the other thread's registers don't change it
    set_high(&mut r);
    let own = words_of(&r);
    try_make(&rt, &mut m, &mut r, Call::Save);
    try_turn(&rt, &mut m, &mut r);
    compare(
        &rt,
        (r.get(0), r.get(1), r.get(4)),
        (0x6010, 0x2046, 0),
        "second",
    );
    compare(&rt, limits(&m), (0x202C, 0x2046), "second limits");
    try_make(&rt, &mut m, &mut r, Call::End);
    compare(&rt, limits(&m), (0x1006, 0x1100), "limits where none runs");
    try_make(&rt, &mut m, &mut r, Call::Dispatch(None));
    compare(&rt, (runner(&m), words_of(&r)), (0, own), "first again");
    Ok(())
}

/// Saves a word as each register of a thread.
fn save_all(m: &mut FlatMem, t: u8, word: u16)
    requires settled { IsSettled m.old }
    requires number { t < 32 }
    ensures { IsSettled m.new }
{
    for n in 0..16 {
        set_register(m, t, n, word);
    }
}

#[test]
fn registers_take_words_as_they_can(rt: HostRuntime) -> Result<(), Fail> {
    let mut m = two_apps(rt.alloc())?;
    let mut r = Regs::new();
    try_steps(&rt, &mut m, &mut r, &START_BOTH, "start");
    save_all(&mut m, 0, 0xFFFF);
    try_make(&rt, &mut m, &mut r, Call::Dispatch(None));
    let mut want = [0xFFFF; 16];
    want[0] = 0xFFFE;
    want[1] = 0xFFFE;
    want[3] = 0;
    compare(&rt, words_of(&r), want, "registers");
    Ok(())
}

/// SP, the word there, whether it is a mark of application 0, and SP after a return there.
type Going = (u16, u16, bool, u16);

const GOES_ON: [Going; 7] = [
    (0x2010, 0x600A, true, 0x2012),
    (0x2011, 0x6004, true, 0x2012),
    (0xFFFE, 0x6004, true, 0x0000),
    (0x2010, 0x6002, false, 0x2010),
    (0x2010, 0x600B, false, 0x2010),
    (0x2010, 0x6010, false, 0x2010),
    (0x0000, 0xFFFF, false, 0x0000),
];

/// Tells where a return or a jump goes on otherwise.
fn compare_going(rt: &impl Abort, m: &mut FlatMem, r: &mut Regs, row: &Going) {
    let (stack, at, is_mark, behind) = *row;
    let want = if is_mark { Ok(()) } else { Err(at) };
    let pc = if is_mark { at } else { 0x7000 };
    r.set(0, 0x7000);
    let answer = try_return(m, r, stack, at);
    assert_eq!(rt;
        (answer, r.get(0), r.get(1)),
        (Some(want), pc, behind),
        "{at:#x}"
    );
    r.set(0, 0x7000);
    let answer = try_jump(m, r, at);
    assert_eq!(rt;
        (answer, r.get(0), r.get(1)),
        (Some(want), pc, behind),
        "{at:#x}"
    );
}

#[test]
fn a_domain_goes_on_at_its_own_marks(rt: HostRuntime) -> Result<(), Fail> {
    let mut m = two_apps(rt.alloc())?;
    let mut r = Regs::new();
    compare(&rt, try_jump(&m, &mut r, 0x6004), None, "nothing runs");
    try_steps(&rt, &mut m, &mut r, &START_BOTH, "start");
    try_make(&rt, &mut m, &mut r, Call::Dispatch(None));
    for row in &GOES_ON {
        compare_going(&rt, &mut m, &mut r, row);
    }
    Ok(())
}

#[test]
fn a_module_goes_on_at_its_own_marks(rt: HostRuntime) -> Result<(), Fail> {
    let mut m = FlatMem::new(rt.alloc())?;
    let mut r = Regs::new();
    clear(&mut m);
    put_marks(&mut m);
    let row = ModuleRow {
        state: 1,
        code_lo: 0x6008,
        code_hi: 0x6010,
        lo: 0x2000,
        hi: 0x2000,
    };
    set_module(&mut m, 2, &row);
    put(&mut m, SysWord::Running, 0);
    put(&mut m, SysWord::Module, 2);
    assert_eq!(rt; try_jump(&m, &mut r, 0x600A), Some(Ok(())));
    assert_eq!(rt; try_jump(&m, &mut r, 0x6004), Some(Err(0x6004)));
    assert_eq!(rt; try_jump(&m, &mut r, 0x6010), Some(Err(0x6010)));
    Ok(())
}
