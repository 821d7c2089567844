//! What the machine does when it accepts an interrupt.

ghost use Rattle.std.specs.Prelude.{◌≡◌, ◌≢◌, ◌<◌, ◌≤◌, ◌+◌, ◌/◌, ◌%◌, length};
ghost use Rattle.msp_encode.specs.declared.registers.TheConstants.{SP};
ghost use Rattle.flat_mem.specs.Bytes.{with_word};
ghost use Rattle.machine_model.specs.Memory.{IsMemory, even, word_at};
ghost use Rattle.machine_model.specs.Context.{reg};
ghost use Rattle.machine_model.specs.Pairs.{put_pair};
ghost use Rattle.machine_model.specs.Operands.{sum_of};
ghost use Rattle.machine_model.specs.Does.{lowered, memory_after};
ghost use Rattle.machine_model.specs.Accepting.{accepted, allows_interrupts, vector_address};
ghost use Rattle.machine_model.specs.Rising.{Lacks};
ghost use Rattle.interrupts.specs.Pushed.{pushed_bytes};

use crate::lines::LINES;
use flat_mem::FlatMem;
use kernel_model::map::VECTORS;
use kernel_model::status::{GIE, SCG0};
use machine_model::writes::Writes;
use msp_machine::regs::{PC, Regs, SP, SR};

/// Tells whether interrupts are accepted with this SR: where it has GIE.
#[inline(always)]
pub fn are_allowed(sr: u16) -> bool
    ensures { result ≡ allows_interrupts sr }
{
    sr / GIE % 2 == 1
}

/// Accepts an interrupt of a line, 0 to 13: pushes PC and then SR, clears SR but for SCG0, and goes to the address that was at the
/// line's vector before the pushes. Gives the four bytes that were written.
#[tactic(auto, using(crate::proofs::Pushes::pushes), unfolding(machine_model::specs::Accepting::accepted))]
pub fn accept(m: &mut FlatMem, r: &mut Regs, line: u8) -> Writes
    requires { line < LINES }
    ensures context { r.new ≡ (accepted line m.old r.old).context }
    ensures written { result ≡ (accepted line m.old r.old).written }
    ensures memory { m.new ≡ memory_after m.old (accepted line m.old r.old) }
    ensures four { length result ≡ 4 }
    ensures is_memory { IsMemory m.new }
{
    let routine = vector(m, line);
    let pc = r.get(PC);
    let status = r.get(SR);
    let upper = push(pc, m, r);
    let lower = push(status, m, r);
    r.set(SR, status & SCG0);
    r.set(PC, routine);
    m.is_flat();
    written(lower, status, upper, pc)
}

/// The word at a line's vector.
#[tactic(auto, unfolding(machine_model::specs::Memory::word_at))]
fn vector(m: &FlatMem, line: u8) -> u16
    requires { line < LINES }
    ensures { result ≡ word_at m.now (vector_address line) }
{
    m.word(VECTORS + 2 * line as u16)
}

/// Lowers SP by two, and writes a word there. Gives its address, which is even.
#[tactic(auto, using(crate::proofs::Pushes::sp_after))]
fn push(value: u16, m: &mut FlatMem, r: &mut Regs) -> u16
    ensures context { r.new ≡ lowered r.old }
    ensures at { result ≡ sum_of (reg r.old SP) 65534 }
    ensures sp { reg r.new SP ≡ result }
    ensures even { result % 2 ≡ 0 }
    ensures memory { m.new ≡ with_word m.old result value }
{
    r.is_context();
    let at = r.get(SP).wrapping_sub(2);
    r.set(SP, at);
    m.set_word(at, value);
    at
}

/// The bytes of two words that were written apart, by address.
fn written(lower: u16, status: u16, upper: u16, pc: u16) -> Writes
    requires { even lower ≢ even upper }
    ensures bytes { result ≡ pushed_bytes lower status upper pc }
    ensures four { length result ≡ 4 }
{
    let mut bytes = Writes::new();
    add_word(upper, pc, &mut bytes);
    add_word(lower, status, &mut bytes);
    bytes
}

/// Puts the bytes of a word in their places by address.
#[tactic(auto, using(crate::proofs::Pairs::pairs))]
fn add_word(at: u16, value: u16, bytes: &mut Writes)
    requires room { length bytes.old ≤ 2 }
    requires low_absent { Lacks (even at) bytes.old }
    requires high_absent { Lacks (even at + 1) bytes.old }
    ensures bytes { bytes.new ≡ put_pair (even at, value % 256) (put_pair (even at + 1, value / 256) bytes.old) }
    ensures longer { length bytes.new ≡ length bytes.old + 2 }
{
    let low = at / 2 * 2;
    let halves = value.to_le_bytes();
    bytes.add(low + 1, halves[1]);
    bytes.add(low, halves[0]);
}
