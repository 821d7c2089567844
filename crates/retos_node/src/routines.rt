//! The routines of the interrupt lines.

ghost use Rattle.std.specs.Prelude.{◌≡◌, ◌<◌, ◌==◌, if◌then◌else◌};
ghost use Rattle.msp_encode.specs.declared.registers.TheConstants.{SP};
ghost use Rattle.kernel_model.specs.Layout.{kernel_of};
ghost use Rattle.kernel_model.specs.Queues.{Leaves};
ghost use Rattle.kernel_model.specs.Running.{NoneRuns};
ghost use Rattle.kernel_model.specs.Waking.{ticked, woken_line};
ghost use Rattle.kernel_model.specs.Words.{none, running_module};
ghost use Rattle.machine_model.specs.Context.{reg};
ghost use Rattle.machine_model.specs.Does.{raised};
ghost use Rattle.machine_model.specs.Memory.{word_at};
ghost use Rattle.place_model.specs.Settled.{IsSettled};
ghost use Rattle.node_model.specs.Entries.{interrupted, served, vector_turn};
ghost use Rattle.retos_node.specs.Turns.{MayTurn, TurnsBy};

use crate::turns::{Moment, run_next, runners_are_known};
use flat_mem::FlatMem;
use kernel_tables::{SysWord, get};
use kernel_threads::{NONE, save, tick, to_end, to_front, wake_line};
use msp_machine::Regs;
use msp_machine::regs::{PC, SP, SR};
use trace_model::records::Record;

/// Does what the routine of a line does, 0 to 13. No module runs.
pub fn vector(m: &mut FlatMem, r: &mut Regs, line: u8, moment: Moment) -> Record
    requires ready { MayTurn m.old }
    requires number { line < 14 }
    requires no_module { running_module (kernel_of m.old) ≡ none }
    ensures { TurnsBy m.old m.new r.old r.new moment result (vector_turn line m.old) }
{
    pop_context(m, r);
    serve(m, r, line);
    run_next(m, r, moment);
    Record::Vector {
        step: moment.step,
        line,
    }
}

/// The word at SP.
#[tactic(auto, unfolding(machine_model::specs::Memory::word_at))]
fn top(m: &FlatMem, r: &Regs) -> u16
    ensures { result ≡ word_at m.now (reg r.now SP) }
{
    m.word(r.get(SP))
}

/// Takes a word off the stack.
fn raise(r: &mut Regs)
    ensures { r.new ≡ raised r.old }
{
    let stack = r.get(SP);
    r.set(SP, stack.wrapping_add(2));
}

/// Takes back what was pushed when the interrupt was accepted: SR, and then PC.
fn pop_context(m: &FlatMem, r: &mut Regs)
    ensures { r.new ≡ interrupted m.now r.old }
{
    let status = top(m, r);
    r.set(SR, status);
    raise(r);
    let pc = top(m, r);
    r.set(PC, pc);
    raise(r);
}

/// Keeps the interrupted thread, unless nothing was interrupted, and does the line's work: on line 0 time goes on, and on another
/// all that wait for it wake. Nothing runs then.
fn serve(m: &mut FlatMem, r: &Regs, line: u8)
    requires ready { MayTurn m.old }
    requires number { line < 14 }
    requires no_module { running_module (kernel_of m.old) ≡ none }
    ensures leaves { Leaves m.old m.new (served line (kernel_of m.old) r.now) }
    ensures none_runs { NoneRuns (kernel_of m.new) }
    ensures settled { IsSettled m.new }
{
    runners_are_known(m);
    if get(m, SysWord::Running) == NONE {
        serve_idle(m, line);
    } else if line == 0 {
        save(m, r);
        tick(m);
        to_end(m);
    } else {
        save(m, r);
        to_front(m);
        wake_line(m, line);
    }
}

/// The same where nothing was interrupted.
fn serve_idle(m: &mut FlatMem, line: u8)
    requires ready { MayTurn m.old }
    requires number { line < 14 }
    requires none_runs { NoneRuns (kernel_of m.old) }
    ensures leaves { Leaves m.old m.new (if line == 0 then ticked (kernel_of m.old) else woken_line (kernel_of m.old) line) }
    ensures none_runs { NoneRuns (kernel_of m.new) }
    ensures settled { IsSettled m.new }
{
    if line == 0 {
        tick(m);
    } else {
        wake_line(m, line);
    }
}
