//! The kernel's entries, by their addresses.

ghost use Rattle.std.specs.Prelude.{◌≡◌, ◌≢◌, false, true, Some};
ghost use Rattle.std.specs.Option.{option_map};
ghost use Rattle.kernel_model.specs.Layout.{kernel_of};
ghost use Rattle.kernel_model.specs.Running.{DomainRuns, ThreadRuns};
ghost use Rattle.kernel_model.specs.Words.{none, running_module};
ghost use Rattle.place_model.specs.Settled.{IsSettled};
ghost use Rattle.node_model.specs.Entries.{Call, by_jump, entry_address, has_row, is_for_app, is_for_module, row, turn_at};
ghost use Rattle.node_model.specs.Steps.{entry_at};
ghost use Rattle.retos_node.specs.EntryPoints.{call_of, kernel_call};
ghost use Rattle.retos_node.specs.Turns.{Does, DoesCall, HasRow, MayTurn, TurnsBy};

use crate::calls::{
    emits, exits, gives_priority, gives_ticks, sleeps, spawns, tells_identity, waits_for_line,
    yields,
};
use crate::locks::{broadcasts, locks, signals, unlocks, waits};
use crate::modules::{calls_module, leaves};
use crate::turns::{Moment, called, faults, runners_are_known};
use flat_mem::FlatMem;
use kernel_model::entries::{CALLS, EMITS, EXITS, GOES, STACK_FAULT, STORE_FAULT};
pub use kernel_model::entries::{
    BROADCAST, IDENTITY, LEAVE, LINE, LOCK, MODULE_CALL, PRIORITY, SIGNAL, SLEEP, SPAWN, TICKS,
    UNLOCK, WAIT, YIELD,
};
use kernel_threads::{jump, take_return};
use msp_machine::Regs;
use msp_machine::regs::{CHECKED, SP};
use trace_model::records::{FaultKind, Record};

/// An entry of the kernel.
#[derive(Clone, Copy, Drop)]
pub enum EntryPoint {
    /// A store outside of the region.
    StoreFault,
    /// The stack would leave its bounds.
    StackFault,
    /// A computed jump.
    Goes,
    /// A computed call.
    Calls,
    /// A thread's end.
    Exits,
    /// A module's return.
    Leave,
    /// A call, which returns.
    Call(KernelCall),
}

/// A call of the kernel.
#[derive(Clone, Copy, Drop)]
pub enum KernelCall {
    /// A new thread.
    Spawn,
    /// The end of a thread's turn.
    Yield,
    /// Waiting for ticks.
    Sleep,
    /// Another priority.
    Priority,
    /// Who runs.
    Identity,
    /// The tick number.
    Ticks,
    /// Locking a mutex.
    Lock,
    /// Unlocking one.
    Unlock,
    /// Waiting for a condition.
    Wait,
    /// Waking one that waits for one.
    Signal,
    /// Waking all.
    Broadcast,
    /// Waiting for a line.
    Line,
    /// A call of a module's function.
    ModuleCall,
    /// A value that is printed.
    Emits,
}

/// The entry at an address.
pub fn entry_at(pc: u16) -> Option<EntryPoint>
    ensures { option_map call_of result ≡ entry_at pc }
{
    match pc {
        STORE_FAULT => Some(EntryPoint::StoreFault),
        STACK_FAULT => Some(EntryPoint::StackFault),
        GOES => Some(EntryPoint::Goes),
        CALLS => Some(EntryPoint::Calls),
        EXITS => Some(EntryPoint::Exits),
        SPAWN => Some(EntryPoint::Call(KernelCall::Spawn)),
        YIELD => Some(EntryPoint::Call(KernelCall::Yield)),
        SLEEP => Some(EntryPoint::Call(KernelCall::Sleep)),
        PRIORITY => Some(EntryPoint::Call(KernelCall::Priority)),
        IDENTITY => Some(EntryPoint::Call(KernelCall::Identity)),
        TICKS => Some(EntryPoint::Call(KernelCall::Ticks)),
        LOCK => Some(EntryPoint::Call(KernelCall::Lock)),
        UNLOCK => Some(EntryPoint::Call(KernelCall::Unlock)),
        WAIT => Some(EntryPoint::Call(KernelCall::Wait)),
        SIGNAL => Some(EntryPoint::Call(KernelCall::Signal)),
        BROADCAST => Some(EntryPoint::Call(KernelCall::Broadcast)),
        LINE => Some(EntryPoint::Call(KernelCall::Line)),
        MODULE_CALL => Some(EntryPoint::Call(KernelCall::ModuleCall)),
        EMITS => Some(EntryPoint::Call(KernelCall::Emits)),
        LEAVE => Some(EntryPoint::Leave),
        _ => None,
    }
}

/// Does what the entry at an address does, which has a row for who runs.
pub fn entry(m: &mut FlatMem, r: &mut Regs, pc: u16, moment: Moment) -> Record
    requires ready { MayTurn m.old }
    requires row { HasRow (kernel_of m.old) pc }
    ensures { (c : Call) → entry_at pc ≡ Some c → TurnsBy m.old m.new r.old r.new moment result (turn_at c) }
{
    match entry_at(pc) {
        None => unreachable!(),
        Some(entry) => enter(m, r, entry, moment),
    }
}

/// Who runs where an entry has a row.
fn row_runs(m: &FlatMem, entry: EntryPoint)
    requires settled { IsSettled m.now }
    requires row { has_row (kernel_of m.now) (call_of entry) ≡ true }
    ensures domain { DomainRuns (kernel_of m.now) }
    ensures thread { is_for_module (call_of entry) ≡ false → ThreadRuns (kernel_of m.now) }
    ensures module { is_for_app (call_of entry) ≡ false → running_module (kernel_of m.now) ≢ none }
{
    runners_are_known(m);
    let _ = entry;
}

/// Does what an entry does, which has a row for who runs.
fn enter(m: &mut FlatMem, r: &mut Regs, entry: EntryPoint, moment: Moment) -> Record
    requires ready { MayTurn m.old }
    requires row { has_row (kernel_of m.old) (call_of entry) ≡ true }
    ensures { DoesCall m.old m.new r.old r.new moment result (call_of entry) }
{
    row_runs(m, entry);
    match entry {
        EntryPoint::StoreFault => {
            let address = r.get(CHECKED);
            faults(m, r, FaultKind::Store, address, moment)
        }
        EntryPoint::StackFault => {
            let stack = r.get(SP);
            faults(m, r, FaultKind::Stack, stack, moment)
        }
        EntryPoint::Goes => jumps(m, r, GOES, moment),
        EntryPoint::Calls => jumps(m, r, CALLS, moment),
        EntryPoint::Exits => exits(m, r, moment),
        EntryPoint::Leave => leaves(m, r, moment),
        EntryPoint::Call(call) => returns(m, r, call, moment),
    }
}

/// Goes on at the address in R4, which has to be a mark.
fn jumps(m: &mut FlatMem, r: &mut Regs, entry: u16, moment: Moment) -> Record
    requires settled { IsSettled m.old }
    requires runs { DomainRuns (kernel_of m.old) }
    ensures { (c : Call) → entry_address c ≡ entry → Does m.old m.new r.old r.new moment result (by_jump c) }
{
    match jump(m, r) {
        Ok(()) => called(m, moment, entry),
        Err(address) => faults(m, r, FaultKind::Jump, address, moment),
    }
}

/// Does what a call does: its return address is popped, which has to be a mark.
fn returns(m: &mut FlatMem, r: &mut Regs, call: KernelCall, moment: Moment) -> Record
    requires ready { MayTurn m.old }
    requires row { has_row (kernel_of m.old) (kernel_call call) ≡ true }
    ensures { DoesCall m.old m.new r.old r.new moment result (kernel_call call) }
{
    row_runs(m, EntryPoint::Call(call));
    match take_return(m, r) {
        Ok(()) => calls(m, r, call, moment),
        Err(address) => faults(m, r, FaultKind::Return, address, moment),
    }
}

/// Does what a call does behind its return.
fn calls(m: &mut FlatMem, r: &mut Regs, call: KernelCall, moment: Moment) -> Record
    requires ready { MayTurn m.old }
    requires row { has_row (kernel_of m.old) (kernel_call call) ≡ true }
    ensures { Does m.old m.new r.old r.new moment result (row (kernel_call call)) }
{
    row_runs(m, EntryPoint::Call(call));
    match call {
        KernelCall::Spawn => spawns(m, r, moment),
        KernelCall::Yield => yields(m, r, moment),
        KernelCall::Sleep => sleeps(m, r, moment),
        KernelCall::Priority => gives_priority(m, r, moment),
        KernelCall::Identity => tells_identity(m, r, moment),
        KernelCall::Ticks => gives_ticks(m, r, moment),
        KernelCall::Lock => locks(m, r, moment),
        KernelCall::Unlock => unlocks(m, r, moment),
        KernelCall::Wait => waits(m, r, moment),
        KernelCall::Signal => signals(m, r, moment),
        KernelCall::Broadcast => broadcasts(m, r, moment),
        KernelCall::Line => waits_for_line(m, r, moment),
        KernelCall::ModuleCall => calls_module(m, r, moment),
        KernelCall::Emits => emits(m, r, moment),
    }
}
