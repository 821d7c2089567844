//! Calls on threads, locks and modules, each made where it may be made.

ghost use Rattle.std.specs.Prelude.{◌+◌, ◌^◌, ◌<◌, ℕ, All, IsTrue};
ghost use Rattle.kernel_model.specs.Ending.{OwnsNone};
ghost use Rattle.kernel_model.specs.Kernel.{line_at};
ghost use Rattle.kernel_model.specs.Layout.{kernel_of};
ghost use Rattle.kernel_model.specs.Modules.{HasKnownModules};
ghost use Rattle.kernel_model.specs.Running.{DomainRuns, NoneRuns, ThreadRuns};
ghost use Rattle.kernel_model.specs.Starting.{MayBegin};
ghost use Rattle.kernel_model.specs.Words.{identity, tick_number};
ghost use Rattle.place_model.specs.Settled.{IsSettled};

use flat_mem::FlatMem;
use kernel_fixture::lists::are_identities;
use kernel_fixture::memories::{ready_list, runner, tick_words};
use kernel_model::states::ENDED;
use kernel_modules::{end_module, enter, leave};
use kernel_sync::{broadcast, hand_over_all, lock, signal, unlock, wait};
use kernel_tables::{SysWord, app, get, line, module, mutex, thread};
use kernel_threads::*;
use msp_machine::Regs;
use std::fmt::Debug;
use std::process::Abort;

// ---- what the calls require

fn thread_runs(m: &FlatMem) -> bool
    ensures { IsTrue result → ThreadRuns (kernel_of m.now) }
{
    get(m, SysWord::Running) < 32 && get(m, SysWord::Module) == NONE
}

fn none_runs(m: &FlatMem) -> bool
    ensures { IsTrue result → NoneRuns (kernel_of m.now) }
{
    get(m, SysWord::Running) == NONE && get(m, SysWord::Module) == NONE
}

fn domain_runs(m: &FlatMem) -> bool
    ensures { IsTrue result → DomainRuns (kernel_of m.now) }
{
    let module = get(m, SysWord::Module);
    if module == NONE {
        return get(m, SysWord::Running) < 32;
    }
    module < 4
}

fn may_begin(m: &FlatMem, a: u8) -> bool
    requires { a < 8 }
    ensures { IsTrue result → MayBegin (kernel_of m.now) (identity a 0) }
{
    let row = app(m, a);
    row.state == 1 && row.threads > 0 && thread(m, 4 * a).state == 0
}

fn owns_none(m: &FlatMem) -> bool
    requires { ThreadRuns (kernel_of m.now) }
    ensures { IsTrue result → OwnsNone (kernel_of m.now) }
{
    let t = get(m, SysWord::Running) as u8;
    for i in 0..4 {
        if mutex(m, t / 4, i).owner == u16::from(t % 4) {
            return false;
        }
    }
    true
}

fn ticks_fit(m: &FlatMem, more: u16) -> bool
    ensures { IsTrue result → tick_number (kernel_of m.now) + more < 2 ^ 32 }
{
    let (low, high) = tick_words(m);
    u64::from(low) + 65536 * u64::from(high) + u64::from(more) < 0x1_0000_0000
}

fn knows_modules(m: &FlatMem) -> bool
    ensures { IsTrue result → HasKnownModules (kernel_of m.now) }
{
    for i in 0..4 {
        if module(m, i).state > ENDED {
            return false;
        }
    }
    true
}

/// Whether all that wait for lines are identities.
pub fn lines_hold(m: &FlatMem) -> bool
    ensures { IsTrue result → (n : ℕ) → n < 14 → All (λ t. t < 32) (line_at (kernel_of m.now) n) }
{
    for n in 0..14 {
        if !are_identities(line(m, n).as_slice()) {
            return false;
        }
    }
    true
}

// ---- calls

/// A call.
#[derive(Clone, Copy, PartialEq, Eq, Debug, Drop)]
pub enum Call {
    Start(u8),
    Save,
    Front,
    End,
    Dispatch(Option<u32>),
    /// With R12 and R13; R14 is 0.
    Spawn(u16, u16),
    Priority(u16),
    Exit,
    EndApp(u8, AppEnd),
    Sleep(u16),
    WaitLine(u16),
    Tick,
    WakeLine(u8),
    Lock(u16),
    Unlock(u16),
    /// For a condition, to take a mutex again.
    Wait(u16, u16),
    Signal(u16),
    Broadcast(u16),
    HandOverAll,
    /// The function's number is in R12.
    Enter,
    Leave,
    EndModule,
}

/// What a call answers.
#[derive(Clone, Copy, PartialEq, Eq, Debug, Drop)]
pub enum Answer {
    /// It may not be made.
    NotMade,
    Made,
    Number(u8),
    Refused(Code),
    /// Whether the last thread ended.
    Last(bool),
    Owns,
    Waits,
}

/// Makes a call, if it may be made.
pub fn make(m: &mut FlatMem, r: &mut Regs, call: Call) -> Answer
    requires { IsSettled m.old }
    ensures { IsSettled m.new }
{
    match call {
        Call::Start(a) => make_start(m, a),
        Call::Dispatch(pick) => make_dispatch(m, r, pick),
        Call::EndApp(a, how) => make_end(m, a, how),
        Call::Tick => make_tick(m),
        Call::WakeLine(n) => make_wake_line(m, n),
        Call::Leave => make_leave(m, r),
        Call::EndModule => make_end_module(m),
        _ => make_running(m, r, call),
    }
}

fn make_start(m: &mut FlatMem, a: u8) -> Answer
    requires { IsSettled m.old }
    ensures { IsSettled m.new }
{
    if a >= 8 || !may_begin(m, a) {
        return Answer::NotMade;
    }
    start(m, a);
    Answer::Made
}

fn make_dispatch(m: &mut FlatMem, r: &mut Regs, pick: Option<u32>) -> Answer
    requires { IsSettled m.old }
    ensures { IsSettled m.new }
{
    if !none_runs(m) {
        return Answer::NotMade;
    }
    dispatch(m, r, pick);
    Answer::Made
}

fn make_end(m: &mut FlatMem, a: u8, how: AppEnd) -> Answer
    requires { IsSettled m.old }
    ensures { IsSettled m.new }
{
    if a >= 8 || app(m, a).state != 1 || get(m, SysWord::Module) != NONE {
        return Answer::NotMade;
    }
    end_app(m, a, how);
    Answer::Made
}

fn make_running(m: &mut FlatMem, r: &mut Regs, call: Call) -> Answer
    requires { IsSettled m.old }
    ensures { IsSettled m.new }
{
    if !thread_runs(m) {
        return Answer::NotMade;
    }
    match call {
        Call::Save => save(m, r),
        Call::Front => to_front(m),
        Call::End => to_end(m),
        Call::Spawn(entry, priority) => {
            r.set(12, entry);
            r.set(13, priority);
            return make_spawn(m, r);
        }
        Call::Priority(priority) => {
            r.set(12, priority);
            return make_priority(m, r);
        }
        Call::Exit => return make_exit(m),
        Call::Sleep(ticks) => {
            r.set(12, ticks);
            return make_sleep(m, r);
        }
        Call::WaitLine(n) => {
            r.set(12, n);
            return make_wait_line(m, r);
        }
        Call::Enter => return make_enter(m, r),
        _ => return make_on_locks(m, call),
    }
    Answer::Made
}

fn make_spawn(m: &mut FlatMem, r: &Regs) -> Answer
    requires settled { IsSettled m.old }
    requires runs { ThreadRuns (kernel_of m.old) }
    ensures { IsSettled m.new }
{
    match spawn(m, r) {
        Ok(number) => Answer::Number(number),
        Err(code) => Answer::Refused(code),
    }
}

fn make_priority(m: &mut FlatMem, r: &Regs) -> Answer
    requires settled { IsSettled m.old }
    requires runs { ThreadRuns (kernel_of m.old) }
    ensures { IsSettled m.new }
{
    match set_priority(m, r) {
        Ok(()) => Answer::Made,
        Err(code) => Answer::Refused(code),
    }
}

fn make_exit(m: &mut FlatMem) -> Answer
    requires settled { IsSettled m.old }
    requires runs { ThreadRuns (kernel_of m.old) }
    ensures { IsSettled m.new }
{
    if !owns_none(m) {
        return Answer::NotMade;
    }
    Answer::Last(exit(m))
}

fn make_sleep(m: &mut FlatMem, r: &Regs) -> Answer
    requires settled { IsSettled m.old }
    requires runs { ThreadRuns (kernel_of m.old) }
    ensures { IsSettled m.new }
{
    let ticks = r.get(12);
    if ticks == 0 || !ticks_fit(m, ticks) {
        return Answer::NotMade;
    }
    sleep(m, r);
    Answer::Made
}

fn make_wait_line(m: &mut FlatMem, r: &Regs) -> Answer
    requires settled { IsSettled m.old }
    requires runs { ThreadRuns (kernel_of m.old) }
    ensures { IsSettled m.new }
{
    match wait_line(m, r) {
        Ok(()) => Answer::Made,
        Err(code) => Answer::Refused(code),
    }
}

fn make_tick(m: &mut FlatMem) -> Answer
    requires { IsSettled m.old }
    ensures { IsSettled m.new }
{
    if !ticks_fit(m, 1) {
        return Answer::NotMade;
    }
    tick(m);
    Answer::Made
}

/// Makes so many ticks, and tells whether all could be made.
pub fn make_ticks(m: &mut FlatMem, count: u32) -> bool
    requires { IsSettled m.old }
    ensures { IsSettled m.new }
{
    for _turn in 0..count {
        if make_tick(m) != Answer::Made {
            return false;
        }
    }
    true
}

fn make_wake_line(m: &mut FlatMem, n: u8) -> Answer
    requires { IsSettled m.old }
    ensures { IsSettled m.new }
{
    if n >= 14 {
        return Answer::NotMade;
    }
    wake_line(m, n);
    Answer::Made
}

fn make_on_locks(m: &mut FlatMem, call: Call) -> Answer
    requires settled { IsSettled m.old }
    requires runs { ThreadRuns (kernel_of m.old) }
    ensures { IsSettled m.new }
{
    match call {
        Call::Lock(i) => make_lock(m, i),
        Call::Unlock(i) => answer_of(unlock(m, i)),
        Call::Wait(c, i) => answer_of(wait(m, c, i)),
        Call::Signal(c) => answer_of(signal(m, c)),
        Call::Broadcast(c) => answer_of(broadcast(m, c)),
        Call::HandOverAll => {
            hand_over_all(m);
            Answer::Made
        }
        _ => Answer::NotMade,
    }
}

fn make_lock(m: &mut FlatMem, i: u16) -> Answer
    requires settled { IsSettled m.old }
    requires runs { ThreadRuns (kernel_of m.old) }
    ensures { IsSettled m.new }
{
    match lock(m, i) {
        Ok(true) => Answer::Owns,
        Ok(false) => Answer::Waits,
        Err(code) => Answer::Refused(code),
    }
}

fn answer_of(done: Result<(), Code>) -> Answer {
    match done {
        Ok(()) => Answer::Made,
        Err(code) => Answer::Refused(code),
    }
}

fn make_enter(m: &mut FlatMem, r: &mut Regs) -> Answer
    requires settled { IsSettled m.old }
    requires runs { ThreadRuns (kernel_of m.old) }
    ensures { IsSettled m.new }
{
    if !knows_modules(m) {
        return Answer::NotMade;
    }
    answer_of(enter(m, r))
}

fn make_leave(m: &mut FlatMem, r: &Regs) -> Answer
    requires { IsSettled m.old }
    ensures { IsSettled m.new }
{
    if get(m, SysWord::Module) == NONE {
        return Answer::NotMade;
    }
    leave(m, r);
    Answer::Made
}

fn make_end_module(m: &mut FlatMem) -> Answer
    requires { IsSettled m.old }
    ensures { IsSettled m.new }
{
    if get(m, SysWord::Module) == NONE {
        return Answer::NotMade;
    }
    end_module(m);
    Answer::Made
}

/// Returns, with SP at an address and a word there. None where no domain runs.
pub fn try_return(m: &mut FlatMem, r: &mut Regs, stack: u16, word: u16) -> Option<Result<(), u16>> {
    m.set_word(stack, word);
    r.set(1, stack);
    if !domain_runs(m) {
        return None;
    }
    Some(take_return(m, r))
}

/// Jumps, with an address in R4. None where no domain runs.
pub fn try_jump(m: &FlatMem, r: &mut Regs, at: u16) -> Option<Result<(), u16>> {
    r.set(4, at);
    if !domain_runs(m) {
        return None;
    }
    Some(jump(m, r))
}

// ---- calls in turn

/// A call, what it answers, who runs behind it and the ready list.
pub type Step = (Call, Answer, u16, [u8; 4]);

/// Makes calls in turn, and gives the number of the first whose answer or whose state behind it isn't as wanted.
pub fn first_wrong(m: &mut FlatMem, r: &mut Regs, steps: &[Step]) -> Option<usize>
    requires { IsSettled m.old }
    ensures { IsSettled m.new }
{
    for i in 0..steps.len() {
        let (call, answer, running, list) = steps[i];
        if make(m, r, call) != answer || runner(m) != running || ready_list(m) != list {
            return Some(i);
        }
    }
    None
}

/// Tells where a value isn't the wanted one.
pub fn compare<T: Copy + PartialEq + Debug>(rt: &impl Abort, got: T, wanted: T, name: &str) {
    assert_eq!(rt; got, wanted, "{name}");
}

/// Makes calls in turn, and tells which is the first whose answer or whose state behind it isn't as wanted.
pub fn try_steps(rt: &impl Abort, m: &mut FlatMem, r: &mut Regs, steps: &[Step], name: &str)
    requires { IsSettled m.old }
    ensures { IsSettled m.new }
{
    assert_eq!(rt; first_wrong(m, r, steps), None, "{name}");
}

/// Makes a call, and tells where it isn't made.
pub fn try_make(rt: &impl Abort, m: &mut FlatMem, r: &mut Regs, call: Call)
    requires { IsSettled m.old }
    ensures { IsSettled m.new }
{
    assert_eq!(rt; make(m, r, call), Answer::Made, "{call:?}");
}

/// Makes so many ticks, and tells where one isn't made.
pub fn try_ticks(rt: &impl Abort, m: &mut FlatMem, count: u32)
    requires { IsSettled m.old }
    ensures { IsSettled m.new }
{
    assert!(rt; make_ticks(m, count), "{count} ticks");
}

/// Starts application a, spawns its three other threads, and lets all four sleep for some ticks, one after another. Tells whether
/// all calls could be made. Nothing runs before and after.
pub fn four_sleep(m: &mut FlatMem, r: &mut Regs, a: u8, ticks: u16) -> bool
    requires settled { IsSettled m.old }
    requires number { a < 8 }
    ensures { IsSettled m.new }
{
    let spawn = Call::Spawn(0x6000 + 16 * u16::from(a), 3);
    let calls = [
        Call::Start(a),
        Call::Dispatch(None),
        spawn,
        spawn,
        spawn,
        Call::Sleep(ticks),
        Call::Dispatch(None),
        Call::Sleep(ticks),
        Call::Dispatch(None),
        Call::Sleep(ticks),
        Call::Dispatch(None),
        Call::Sleep(ticks),
    ];
    for call in calls {
        if matches!(make(m, r, call), Answer::NotMade | Answer::Refused(_)) {
            return false;
        }
    }
    true
}
