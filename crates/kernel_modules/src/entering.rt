//! A thread enters a module.

ghost use Rattle.std.specs.Prelude.{◌≡◌, ◌<◌, slice_index};
ghost use Rattle.kernel_model.specs.Kernel.{function_at};
ghost use Rattle.kernel_model.specs.Layout.{kernel_of};
ghost use Rattle.kernel_model.specs.Dispatching.{saved};
ghost use Rattle.kernel_model.specs.Modules.{HasKnownModules, enter_code, entered, entered_context};
ghost use Rattle.kernel_model.specs.Queues.{Leaves};
ghost use Rattle.kernel_model.specs.Running.{ThreadRuns};
ghost use Rattle.kernel_model.specs.Words.{calling, running, with_running_module, with_state};
ghost use Rattle.place_model.specs.Settled.{IsSettled};
ghost use Rattle.kernel_threads.specs.Entries.{AnswersBy};
ghost use Rattle.kernel_modules.specs.Calls.{BecomesBy};

use crate::Code;
use code_model::object::EXPORT_NUMBER_MAX;
use flat_mem::FlatMem;
use kernel_model::map::{KERNEL_LIMIT, KERNEL_TOP};
use kernel_model::states::{CALLING, ENDED};
use kernel_tables::laws::orderly_queues_hold;
use kernel_tables::{SysWord, function, module, put, set_thread, thread};
use kernel_threads::{NONE, running, save};
use module_laws::entered_is_settled;
use msp_machine::Regs;
use msp_machine::regs::{PC, SP};

/// The register of a function's number.
const FUNCTION: u8 = 12;

/// The greatest number of a function.
const LAST_FUNCTION: u16 = EXPORT_NUMBER_MAX as u16;

/// The registers of a module's arguments.
pub const FIRST_ARGUMENT: u8 = 12;

pub const SECOND_ARGUMENT: u8 = 13;

/// Those in which the caller has them.
const CALLERS_FIRST: u8 = 13;

const CALLERS_SECOND: u8 = 14;

/// The running thread enters the module that exported function R12. Its registers are saved as they are, and its state is that of a
/// module call. The module's registers are all 0 but PC, which is the function's address, SP at the top of the kernel's stack, R12,
/// the caller's R13, and R13, the caller's R14. `NoFunction` where R12 is over 63 or no module has exported it, else `ModuleEnded`
/// where that module has ended; then memory and registers are as they were. Memory is settled before and after.
pub fn enter(m: &mut FlatMem, r: &mut Regs) -> Result<(), Code>
    requires settled { IsSettled m.old }
    requires runs { ThreadRuns (kernel_of m.old) }
    requires known { HasKnownModules (kernel_of m.old) }
    ensures answer { let k = kernel_of m.old in AnswersBy m.old m.new (enter_code k (slice_index r.old 12)) (entered k r.old) tt result }
    ensures registers { let k = kernel_of m.old in
        BecomesBy r.old r.new (enter_code k (slice_index r.old 12)) (entered_context k r.old) }
    ensures settled { IsSettled m.new }
    ensures known { HasKnownModules (kernel_of m.new) }
{
    entered_is_settled();
    r.is_context();
    let number = r.get(FUNCTION);
    if number > LAST_FUNCTION {
        return Err(Code::NoFunction);
    }
    let row = function(m, number as u8);
    if row.module == NONE {
        return Err(Code::NoFunction);
    }
    if module(m, row.module as u8).state == ENDED {
        return Err(Code::ModuleEnded);
    }
    let callee = callee_registers(m, r);
    call(m, r, row.module as u8);
    *r = callee;
    Ok(())
}

/// Lets module i run, i below 4, in a call of the running thread, whose registers are saved. Memory is settled before.
fn call(m: &mut FlatMem, r: &Regs, i: u8)
    requires number { i < 4 }
    requires settled { IsSettled m.old }
    requires runs { ThreadRuns (kernel_of m.old) }
    ensures { let k = kernel_of m.old in Leaves m.old m.new (with_running_module (with_state (saved k r.now) (running k) calling) i) }
{
    save(m, r);
    orderly_queues_hold(m);
    let t = running(m);
    let mut row = thread(m, t);
    row.state = CALLING;
    set_thread(m, t, &row);
    put(m, SysWord::Module, u16::from(i));
    put(m, SysWord::Budget, 0);
    put(m, SysWord::CurLim, KERNEL_LIMIT);
    put(m, SysWord::CurTop, KERNEL_TOP);
}

/// The registers of the module that exported function R12, R12 below 64, as it begins.
fn callee_registers(m: &FlatMem, r: &Regs) -> Regs
    requires number { slice_index r.now 12 < 64 }
    requires settled { IsSettled m.now }
    ensures { result ≡ entered_context (kernel_of m.now) r.now }
{
    let mut callee = Regs::new();
    callee.set(PC, function(m, r.get(FUNCTION) as u8).address);
    callee.set(SP, KERNEL_TOP);
    callee.set(FIRST_ARGUMENT, r.get(CALLERS_FIRST));
    callee.set(SECOND_ARGUMENT, r.get(CALLERS_SECOND));
    callee
}
