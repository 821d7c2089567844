//! What the kernel's routines share: who runs, how a turn ends, and faults.

ghost use Rattle.std.specs.Prelude.{◌≡◌, ◌≢◌, ◌<◌, false};
ghost use Rattle.kernel_model.specs.Dispatching.{moved_to_front, saved};
ghost use Rattle.kernel_model.specs.Layout.{kernel_of};
ghost use Rattle.kernel_model.specs.Queues.{Leaves};
ghost use Rattle.kernel_model.specs.Running.{DomainRuns, NoneRuns, ThreadRuns};
ghost use Rattle.kernel_model.specs.Words.{none, running, running_module};
ghost use Rattle.machine_model.specs.Context.{set_reg};
ghost use Rattle.place_model.specs.Settled.{IsSettled};
ghost use Rattle.node_model.specs.Entries.{code_number, fault_kernel, faults, module_runs, who_runs};
ghost use Rattle.node_model.specs.Steps.{over_budget};
ghost use Rattle.trace_model.specs.declared.records.Record.{Record};
ghost use Rattle.trace_model.specs.declared.records.Record.TheVariants as told;
ghost use Rattle.retos_node.specs.Codes.{answer_number};
ghost use Rattle.retos_node.specs.Turns.{DispatchesFrom, Does, MayTurn, TurnsBy};

use flat_mem::FlatMem;
use kernel_modules::end_module;
use kernel_tables::{SysWord, get};
use kernel_threads::laws::contexts_are_taken;
use kernel_threads::{
    AppEnd, Code, NONE, THREADS_OF_APP, dispatch, end_app, running, save, to_front,
};
use msp_machine::Regs;
use msp_machine::regs::PC;
use thread_laws::running_thread;
use trace_model::records::{FaultKind, Record, Who};

/// The register of a call's first argument, and of its code.
pub const CODE: u8 = 12;

/// The register of a second argument, and of a value that is answered.
pub const VALUE: u8 = 13;

/// The register of a value's high word.
pub const SECOND_VALUE: u8 = 14;

/// When a routine works: the number of its step, and the pick of its dispatch.
#[derive(Clone, Copy, Drop)]
pub struct Moment {
    pub step: u32,
    pub pick: Option<u32>,
}

// ---- who runs

/// A running module has a number below 4 and a caller, and a running thread an identity below 32.
pub fn runners_are_known(m: &FlatMem)
    requires { IsSettled m.now }
    ensures module { running_module (kernel_of m.now) ≢ none → running_module (kernel_of m.now) < 4 }
    ensures caller { running_module (kernel_of m.now) ≢ none → running (kernel_of m.now) ≢ none }
    ensures thread { running (kernel_of m.now) ≢ none → running (kernel_of m.now) < 32 }
{
    let _ = m;
}

/// Where a domain runs and no module does, a thread does.
#[tactic(auto, using(crate::proofs::RunnerLemmas::thread_runs_by))]
pub fn thread_runs(m: &FlatMem)
    requires settled { IsSettled m.now }
    requires domain { DomainRuns (kernel_of m.now) }
    requires no_module { module_runs (kernel_of m.now) ≡ false }
    ensures { ThreadRuns (kernel_of m.now) }
{
    let _ = m;
}

/// Who runs.
#[inline(always)]
pub fn who_runs(m: &FlatMem) -> Who
    requires { IsSettled m.now }
    ensures { result ≡ who_runs (kernel_of m.now) }
{
    runners_are_known(m);
    let module = get(m, SysWord::Module);
    let thread = get(m, SysWord::Running);
    if module != NONE {
        Who::Module(module as u8)
    } else if thread == NONE {
        Who::Idle
    } else {
        Who::Thread {
            app: (thread / 4) as u8,
            thread: (thread % 4) as u8,
        }
    }
}

/// Tells whether a module runs.
pub fn module_runs(m: &FlatMem) -> bool
    ensures { result ≡ module_runs (kernel_of m.now) }
{
    get(m, SysWord::Module) != NONE
}

/// The record of an entry, by its address, that has none of its own.
pub fn called(m: &FlatMem, moment: Moment, entry: u16) -> Record
    requires { IsSettled m.now }
    ensures { result ≡ told.Entry moment.step (who_runs (kernel_of m.now)) entry }
{
    Record::Entry {
        step: moment.step,
        who: who_runs(m),
        entry,
    }
}

// ---- how a turn ends

/// Lets the next thread run. Nothing runs before.
pub fn run_next(m: &mut FlatMem, r: &mut Regs, moment: Moment)
    requires settled { IsSettled m.old }
    requires none_runs { NoneRuns (kernel_of m.old) }
    ensures { DispatchesFrom m.old m.new r.new moment (kernel_of m.old) }
{
    contexts_are_taken();
    dispatch(m, r, moment.pick);
}

/// The running thread goes on with a code in R12, from the front of its priority.
pub fn go_on(m: &mut FlatMem, r: &mut Regs, code: u16, moment: Moment)
    requires settled { IsSettled m.old }
    requires runs { ThreadRuns (kernel_of m.old) }
    ensures { DispatchesFrom m.old m.new r.new moment (moved_to_front (saved (kernel_of m.old) (set_reg r.old 12 code))) }
{
    r.set(CODE, code);
    save(m, r);
    to_front(m);
    run_next(m, r, moment);
}

/// Keeps the running thread's registers with code 0 in R12. The registers stay as they are.
pub fn save_zero(m: &mut FlatMem, r: &mut Regs)
    requires settled { IsSettled m.old }
    requires runs { ThreadRuns (kernel_of m.old) }
    ensures leaves { Leaves m.old m.new (saved (kernel_of m.old) (set_reg r.old 12 0)) }
    ensures same { r.new ≡ r.old }
    ensures settled { IsSettled m.new }
    ensures runs { ThreadRuns (kernel_of m.new) }
{
    r.is_context();
    let argument = r.get(CODE);
    r.set(CODE, 0);
    save(m, r);
    r.set(CODE, argument);
}

/// The number of a code.
pub fn code_number(code: Code) -> u16
    ensures { result ≡ code_number code }
{
    match code {
        Code::Full => 1,
        Code::BadArgument => 2,
        Code::NotOwner => 3,
        Code::OwnLock => 4,
        Code::NoFunction => 5,
        Code::ModuleEnded => 6,
    }
}

/// What a call answers: 0, or the number of its code.
pub fn answer_number(answer: Result<(), Code>) -> u16
    ensures { result ≡ answer_number answer }
{
    match answer {
        Ok(()) => 0,
        Err(code) => code_number(code),
    }
}

// ---- faults

/// Ends the running application, or the running module, whose caller goes to the front of its priority. Nothing runs then.
#[tactic(auto, using(crate::proofs::RunnerLemmas::none_left_by_end))]
fn end_running(m: &mut FlatMem)
    requires settled { IsSettled m.old }
    requires runs { DomainRuns (kernel_of m.old) }
    ensures leaves { Leaves m.old m.new (fault_kernel (kernel_of m.old)) }
    ensures none_runs { NoneRuns (kernel_of m.new) }
    ensures settled { IsSettled m.new }
{
    running_thread();
    if module_runs(m) {
        end_module(m);
        to_front(m);
    } else {
        thread_runs(m);
        let app = running(m) / THREADS_OF_APP;
        end_app(m, app, AppEnd::Faulted);
    }
}

/// A test of the running domain failed: its application or module ends.
pub fn faults(m: &mut FlatMem, r: &mut Regs, kind: FaultKind, value: u16, moment: Moment) -> Record
    requires settled { IsSettled m.old }
    requires runs { DomainRuns (kernel_of m.old) }
    ensures { Does m.old m.new r.old r.new moment result (λ w. faults w kind value) }
{
    let who = who_runs(m);
    end_running(m);
    run_next(m, r, moment);
    Record::Fault {
        step: moment.step,
        who,
        kind,
        value,
    }
}

/// The running module has run as many instructions in one call as it may, and ends.
pub fn budget_fault(m: &mut FlatMem, r: &mut Regs, moment: Moment) -> Record
    requires ready { MayTurn m.old }
    requires module_runs { running_module (kernel_of m.old) ≢ none }
    ensures { TurnsBy m.old m.new r.old r.new moment result over_budget }
{
    runners_are_known(m);
    let at = r.get(PC);
    faults(m, r, FaultKind::Budget, at, moment)
}
