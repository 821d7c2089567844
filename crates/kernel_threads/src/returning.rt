//! Where the running domain goes on: at the address that it returns to, or that it jumps to.

ghost use Rattle.std.specs.Prelude.{◌↔◌, IsTrue};
ghost use Rattle.msp_encode.specs.declared.registers.TheConstants.{SP, CHECKED};
ghost use Rattle.machine_model.specs.Context.{reg};
ghost use Rattle.machine_model.specs.Memory.{word_at};
ghost use Rattle.kernel_model.specs.Layout.{kernel_of};
ghost use Rattle.kernel_model.specs.Running.{DomainRuns};
ghost use Rattle.place_model.specs.Marking.{IsOwnMark};
ghost use Rattle.kernel_threads.specs.Returns.{GoesOn, gone_to, returned_to};

use crate::stacks::running_domain;
use flat_mem::FlatMem;
use msp_machine::Regs;
use msp_machine::regs::{CHECKED, PC, SP};
use region_table::is_marked;

/// Returns: takes the word at SP, which is read once. Where it is a mark of the running domain, PC becomes it and SP goes up by 2.
/// Else the error is the word, and the registers are as before.
#[tactic(auto, unfolding(machine_model::specs::Memory::word_at))]
pub fn take_return(m: &FlatMem, r: &mut Regs) -> Result<(), u16>
    requires { DomainRuns (kernel_of m.now) }
    ensures { let at = word_at m.now (reg r.old SP) in GoesOn m.now r.old r.new at (returned_to r.old at) result }
{
    let stack = r.get(SP);
    let address = m.word(stack);
    if !is_own_mark(m, address) {
        return Err(address);
    }
    r.set(SP, stack.wrapping_add(2));
    r.set(PC, address);
    Ok(())
}

/// Jumps to the address in R4. Where it is a mark of the running domain, PC becomes it. Else the error is the address, and the
/// registers are as before.
pub fn jump(m: &FlatMem, r: &mut Regs) -> Result<(), u16>
    requires { DomainRuns (kernel_of m.now) }
    ensures { let at = reg r.old CHECKED in GoesOn m.now r.old r.new at (gone_to r.old at) result }
{
    let target = r.get(CHECKED);
    if !is_own_mark(m, target) {
        return Err(target);
    }
    r.set(PC, target);
    Ok(())
}

/// Tells whether an address is a mark of the running domain.
pub fn is_own_mark(m: &FlatMem, at: u16) -> bool
    requires { DomainRuns (kernel_of m.now) }
    ensures { IsTrue result ↔ IsOwnMark m.now at }
{
    is_marked(m, running_domain(m), at)
}
