//! What one instruction does.

ghost use Rattle.std.specs.Prelude.{◌≡◌, ◌≤◌, ◌+◌, length, pos, negsuc, ◌≤ℤ◌};
ghost use Rattle.msp_encode.specs.declared.registers.TheConstants.{PC};
ghost use Rattle.msp_encode.specs.Spelling.{Legal, words_after};
ghost use Rattle.machine_model.specs.Memory.{IsMemory};
ghost use Rattle.machine_model.specs.Context.{reg};
ghost use Rattle.machine_model.specs.Operands.{sum_of, source_value, after_source, NamesRegister, NamesRegisters};
ghost use Rattle.machine_model.specs.Does.{does, two, change, push, call, one, reti, jump, holds, target, passed, lowered, raised, memory_after, FormOk};

use crate::arithmetic::{alu, alu_one};
use crate::operand::{place_of, place_to, source_value, step_source, sum, value_in, word};
use crate::regs::{PC, Regs, SP, SR};
use crate::write_back::{put, store};
use flat_mem::FlatMem;
use machine_model::laws::legal_form;
use machine_model::writes::Writes;
use msp_encode::instr::{Cond, Dst, Instr, Op1, Op2, Src, Width};

/// Runs one legal instruction of `len` words, and gives the bytes that it wrote, two at most.
#[tactic(auto, using(machine_model::proofs::Written::few_written))]
#[inline(always)]
pub fn exec(m: &mut FlatMem, r: &mut Regs, i: &Instr, len: u8) -> Writes
    requires legal { Legal i.now }
    requires size { len ≡ 1 + length (words_after i.now) }
    ensures context { r.new ≡ (does m.old r.old i.now len).context }
    ensures written { result ≡ (does m.old r.old i.now len).written }
    ensures memory { m.new ≡ memory_after m.old (does m.old r.old i.now len) }
    ensures few { length result ≤ 2 }
    ensures is_memory { IsMemory m.new }
{
    legal_form(i);
    let written = by_form(m, r, i, len);
    m.is_flat();
    written
}

/// Runs an instruction by its form.
#[tactic(auto, unfolding(machine_model::specs::Does::does, machine_model::specs::Does::reti, machine_model::specs::Does::jump))]
#[inline(always)]
fn by_form(m: &mut FlatMem, r: &mut Regs, i: &Instr, len: u8) -> Writes
    requires form { FormOk i.now }
    requires size { 1 ≤ len }
    ensures context { r.new ≡ (does m.old r.old i.now len).context }
    ensures written { result ≡ (does m.old r.old i.now len).written }
    ensures memory { m.new ≡ memory_after m.old (does m.old r.old i.now len) }
{
    match *i {
        Instr::Two {
            op,
            width,
            src,
            dst,
        } => two(op, width, src, dst, len, m, r),
        Instr::One { op, width, src } => one(op, width, src, len, m, r),
        Instr::Reti => reti(m, r),
        Instr::Jump { cond, offset } => jump(cond, offset, r),
    }
}

/// Moves PC past the `len` words of the instruction.
fn pass(len: u8, r: &mut Regs)
    ensures { r.new ≡ passed r.old len }
{
    let next = sum(r.get(PC), 2 * len as u16);
    r.set(PC, next);
}

/// Lowers SP by two.
fn lower(r: &mut Regs)
    ensures { r.new ≡ lowered r.old }
{
    let below = sum(r.get(SP), 0xFFFE);
    r.set(SP, below);
}

/// Raises SP by two.
fn raise(r: &mut Regs)
    ensures { r.new ≡ raised r.old }
{
    let above = sum(r.get(SP), 2);
    r.set(SP, above);
}

/// An operation of two operands.
#[tactic(auto, unfolding(machine_model::specs::Does::two))]
#[inline(always)]
fn two(op: Op2, width: Width, src: Src, dst: Dst, len: u8, m: &mut FlatMem, r: &mut Regs) -> Writes
    requires source { NamesRegisters src }
    requires destination { NamesRegister dst }
    requires size { 1 ≤ len }
    ensures context { r.new ≡ (two op width src dst len m.old r.old).context }
    ensures written { result ≡ (two op width src dst len m.old r.old).written }
    ensures memory { m.new ≡ memory_after m.old (two op width src dst len m.old r.old) }
{
    let pc = r.get(PC);
    pass(len, r);
    let value = source_value(width, src, sum(pc, 2), m, r);
    step_source(width, src, r);
    let place = place_to(dst, sum(pc, 2 * len as u16 - 2), r);
    let outcome = alu(op, width, value, value_in(width, place, m, r), r.get(SR));
    r.set(SR, outcome.status);
    if op.writes() {
        put(width, place, outcome.value, m, r)
    } else {
        Writes::new()
    }
}

/// An operation of one operand.
#[tactic(auto, unfolding(machine_model::specs::Does::one))]
fn one(op: Op1, width: Width, src: Src, len: u8, m: &mut FlatMem, r: &mut Regs) -> Writes
    requires { NamesRegisters src }
    ensures context { r.new ≡ (one op width src len m.old r.old).context }
    ensures written { result ≡ (one op width src len m.old r.old).written }
    ensures memory { m.new ≡ memory_after m.old (one op width src len m.old r.old) }
{
    match op {
        Op1::Push => push(width, src, len, m, r),
        Op1::Call => call(src, len, m, r),
        Op1::Rrc | Op1::Swpb | Op1::Rra | Op1::Sxt => change(op, width, src, len, m, r),
    }
}

/// An operation of one operand that writes it.
#[tactic(auto, unfolding(machine_model::specs::Does::change))]
fn change(op: Op1, width: Width, src: Src, len: u8, m: &mut FlatMem, r: &mut Regs) -> Writes
    requires { NamesRegisters src }
    ensures context { r.new ≡ (change op width src len m.old r.old).context }
    ensures written { result ≡ (change op width src len m.old r.old).written }
    ensures memory { m.new ≡ memory_after m.old (change op width src len m.old r.old) }
{
    let at = sum(r.get(PC), 2);
    pass(len, r);
    let value = source_value(width, src, at, m, r);
    let place = place_of(src, at, r);
    step_source(width, src, r);
    let outcome = alu_one(op, width, value, r.get(SR));
    r.set(SR, outcome.status);
    put(width, place, outcome.value, m, r)
}

/// Moves PC past the instruction, reads its source, and then lowers SP by two.
fn pushed_source(width: Width, src: Src, len: u8, m: &FlatMem, r: &mut Regs) -> u16
    requires { NamesRegisters src }
    ensures value { result ≡ source_value width src (sum_of (reg r.old PC) 2) m.now (passed r.old len) }
    ensures context { r.new ≡ lowered (after_source width src (passed r.old len)) }
{
    let at = sum(r.get(PC), 2);
    pass(len, r);
    let pushed = source_value(width, src, at, m, r);
    step_source(width, src, r);
    lower(r);
    pushed
}

/// PUSH.
#[tactic(auto, unfolding(machine_model::specs::Does::push))]
fn push(width: Width, src: Src, len: u8, m: &mut FlatMem, r: &mut Regs) -> Writes
    requires { NamesRegisters src }
    ensures context { r.new ≡ (push width src len m.old r.old).context }
    ensures written { result ≡ (push width src len m.old r.old).written }
    ensures memory { m.new ≡ memory_after m.old (push width src len m.old r.old) }
{
    let value = pushed_source(width, src, len, m, r);
    store(width, r.get(SP), value, m)
}

/// CALL writes the address of the next instruction, and goes to the value of its source.
#[tactic(auto, unfolding(machine_model::specs::Does::call))]
fn call(src: Src, len: u8, m: &mut FlatMem, r: &mut Regs) -> Writes
    requires { NamesRegisters src }
    ensures context { r.new ≡ (call src len m.old r.old).context }
    ensures written { result ≡ (call src len m.old r.old).written }
    ensures memory { m.new ≡ memory_after m.old (call src len m.old r.old) }
{
    let value = pushed_source(Width::Wide, src, len, m, r);
    let written = store(Width::Wide, r.get(SP), r.get(PC), m);
    r.set(PC, value);
    written
}

/// RETI: takes SR, then PC, from the stack.
#[tactic(auto, unfolding(machine_model::specs::Does::reti))]
fn reti(m: &FlatMem, r: &mut Regs) -> Writes
    ensures context { r.new ≡ (reti m.now r.old).context }
    ensures written { result ≡ (reti m.now r.old).written }
{
    let status = word(m, r.get(SP));
    r.set(SR, status);
    raise(r);
    let pc = word(m, r.get(SP));
    r.set(PC, pc);
    raise(r);
    Writes::new()
}

/// Whether a jump is taken.
fn holds(cond: Cond, sr: u16) -> bool
    ensures { result ≡ holds cond sr }
{
    let carry = sr % 2 == 1;
    let zero = sr / 2 % 2 == 1;
    let negative = sr / 4 % 2 == 1;
    let overflow = sr / 256 % 2 == 1;
    match cond {
        Cond::Ne => !zero,
        Cond::Eq => zero,
        Cond::Nc => !carry,
        Cond::C => carry,
        Cond::N => negative,
        Cond::Ge => negative == overflow,
        Cond::L => negative != overflow,
        Cond::Always => true,
    }
}

/// The address that a jump at `pc` names, `offset` words from the instruction behind it.
fn target(pc: u16, offset: i16) -> u16
    requires low { negsuc 511 ≤ℤ offset }
    requires high { offset ≤ℤ pos 511 }
    ensures { result ≡ target pc offset }
{
    if offset >= 0 {
        sum(pc, 2 + 2 * offset as u16)
    } else {
        let back = (-1 - offset) as u16;
        pc.wrapping_sub(2 * back)
    }
}

/// A jump.
#[tactic(auto, unfolding(machine_model::specs::Does::jump))]
#[inline(always)]
fn jump(cond: Cond, offset: i16, r: &mut Regs) -> Writes
    requires low { negsuc 511 ≤ℤ offset }
    requires high { offset ≤ℤ pos 511 }
    ensures context { r.new ≡ (jump cond offset r.old).context }
    ensures written { result ≡ (jump cond offset r.old).written }
{
    let pc = r.get(PC);
    let next = if holds(cond, r.get(SR)) {
        target(pc, offset)
    } else {
        sum(pc, 2)
    };
    r.set(PC, next);
    Writes::new()
}
