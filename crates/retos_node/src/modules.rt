//! The call of a module, and its return.

ghost use Rattle.std.specs.Prelude.{◌≡◌, ◌≢◌};
ghost use Rattle.kernel_model.specs.Layout.{kernel_of};
ghost use Rattle.kernel_model.specs.Running.{ThreadRuns};
ghost use Rattle.kernel_model.specs.Words.{none, running_module};
ghost use Rattle.place_model.specs.Settled.{IsSettled};
ghost use Rattle.node_model.specs.Entries.{row, turn_at, Leave, ModuleCall};
ghost use Rattle.retos_node.specs.Turns.{Does, MayTurn};

use crate::entries::{LEAVE, MODULE_CALL};
use crate::turns::{Moment, called, code_number, go_on, run_next};
use flat_mem::FlatMem;
use kernel_modules::{enter, leave};
use kernel_threads::to_front;
use msp_machine::Regs;
use trace_model::records::Record;

/// The running thread enters the module that exported the function in R12.
pub fn calls_module(m: &mut FlatMem, r: &mut Regs, moment: Moment) -> Record
    requires ready { MayTurn m.old }
    requires runs { ThreadRuns (kernel_of m.old) }
    ensures { Does m.old m.new r.old r.new moment result (row ModuleCall) }
{
    let told = called(m, moment, MODULE_CALL);
    match enter(m, r) {
        Ok(()) => (),
        Err(code) => go_on(m, r, code_number(code), moment),
    }
    told
}

/// The running module leaves, and its caller goes on.
pub fn leaves(m: &mut FlatMem, r: &mut Regs, moment: Moment) -> Record
    requires settled { IsSettled m.old }
    requires module_runs { running_module (kernel_of m.old) ≢ none }
    ensures { Does m.old m.new r.old r.new moment result (turn_at Leave) }
{
    let told = called(m, moment, LEAVE);
    leave(m, r);
    to_front(m);
    run_next(m, r, moment);
    told
}
