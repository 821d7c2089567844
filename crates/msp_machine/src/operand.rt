//! Where operands lie, and what they are.

ghost use Rattle.std.specs.Prelude.{◌≡◌, ◌<◌, ◌==◌, if◌then◌else◌};
ghost use Rattle.machine_model.specs.Memory.{word_at};
ghost use Rattle.machine_model.specs.Context.{reg};
ghost use Rattle.machine_model.specs.Operands.{size, low, load, sum_of, step, source_value, after_source, place_to, place_of, value_in, NamesRegister, NamesRegisters, IsPlace};

use crate::regs::{PC, Regs, SP};
use flat_mem::FlatMem;
use machine_model::place::Place;
use msp_encode::instr::{Dst, Src, Width};
use msp_encode::registers::CONSTANTS;

/// `a + b` modulo 65,536.
pub(crate) fn sum(a: u16, b: u16) -> u16
    ensures { result ≡ sum_of a b }
{
    a.wrapping_add(b)
}

/// The word at an address with bit 0 cleared.
#[tactic(auto, unfolding(machine_model::specs::Memory::word_at))]
pub(crate) fn word(m: &FlatMem, at: u16) -> u16
    ensures { result ≡ word_at m.now at }
{
    m.word(at)
}

/// The word or the byte at an address.
fn load(width: Width, m: &FlatMem, at: u16) -> u16
    ensures value { result ≡ load width m.now at }
    ensures small { result < size width }
{
    match width {
        Width::Wide => word(m, at),
        Width::Byte => m.byte(at) as u16,
    }
}

/// What a width takes of a word.
fn low(width: Width, value: u16) -> u16
    ensures value { result ≡ low width value }
    ensures small { result < size width }
{
    match width {
        Width::Wide => value,
        Width::Byte => value % 256,
    }
}

/// A register as a source: PC is read as the address `at` of the word after the instruction word.
fn source_register(n: u8, at: u16, r: &Regs) -> u16
    requires { n < 16 }
    ensures { result ≡ (if n == 0 then at else reg r.now n) }
{
    if n == PC { at } else { r.get(n) }
}

/// The value of a source. `at` is the address of its word, or of the word after the instruction word.
#[tactic(auto, unfolding(machine_model::specs::Operands::source_value))]
pub(crate) fn source_value(width: Width, src: Src, at: u16, m: &FlatMem, r: &Regs) -> u16
    requires { NamesRegisters src }
    ensures value { result ≡ source_value width src at m.now r.now }
    ensures small { result < size width }
{
    match src {
        Src::Reg(n) => low(width, source_register(n, at, r)),
        Src::Indexed(n, x) => load(width, m, sum(x, r.get(n))),
        Src::Symbolic(x) => load(width, m, sum(x, at)),
        Src::Absolute(x) => load(width, m, x),
        Src::Indirect(n) => load(width, m, r.get(n)),
        Src::AutoInc(n) => load(width, m, r.get(n)),
        Src::Immediate(x) => low(width, x),
        Src::Const(which) => low(width, which.value()),
    }
}

/// What autoincrement adds to a register: SP stays even.
fn step(width: Width, n: u8) -> u16
    ensures { result ≡ step width n }
{
    match width {
        Width::Wide => 2,
        Width::Byte if n == SP => 2,
        Width::Byte => 1,
    }
}

/// Moves an autoincremented register past its operand.
#[tactic(auto, unfolding(machine_model::specs::Operands::after_source))]
pub(crate) fn step_source(width: Width, src: Src, r: &mut Regs)
    requires { NamesRegisters src }
    ensures { r.new ≡ after_source width src r.old }
{
    if let Src::AutoInc(n) = src {
        let past = sum(r.get(n), step(width, n));
        r.set(n, past);
    }
}

/// Where a destination lies. `at` is the address of its word.
#[tactic(auto, unfolding(machine_model::specs::Operands::place_to))]
pub(crate) fn place_to(dst: Dst, at: u16, r: &Regs) -> Place
    requires { NamesRegister dst }
    ensures place { result ≡ place_to dst at r.now }
    ensures is_place { IsPlace result }
{
    match dst {
        Dst::Reg(n) => Place::InReg(n),
        Dst::Indexed(n, x) => Place::At(sum(x, r.get(n))),
        Dst::Symbolic(x) => Place::At(sum(x, at)),
        Dst::Absolute(x) => Place::At(x),
    }
}

/// Where an operand lies that is both source and destination. Constants and immediates lie in register 3, which takes nothing.
#[tactic(auto, unfolding(machine_model::specs::Operands::place_of))]
pub(crate) fn place_of(src: Src, at: u16, r: &Regs) -> Place
    requires { NamesRegisters src }
    ensures place { result ≡ place_of src at r.now }
    ensures is_place { IsPlace result }
{
    match src {
        Src::Reg(n) => Place::InReg(n),
        Src::Indexed(n, x) => Place::At(sum(x, r.get(n))),
        Src::Symbolic(x) => Place::At(sum(x, at)),
        Src::Absolute(x) => Place::At(x),
        Src::Indirect(n) => Place::At(r.get(n)),
        Src::AutoInc(n) => Place::At(r.get(n)),
        Src::Immediate(_) => Place::InReg(CONSTANTS),
        Src::Const(_) => Place::InReg(CONSTANTS),
    }
}

/// What lies at a place.
#[tactic(auto, unfolding(machine_model::specs::Operands::value_in))]
pub(crate) fn value_in(width: Width, place: Place, m: &FlatMem, r: &Regs) -> u16
    requires { IsPlace place }
    ensures value { result ≡ value_in width place m.now r.now }
    ensures small { result < size width }
{
    match place {
        Place::InReg(n) => low(width, r.get(n)),
        Place::At(at) => load(width, m, at),
    }
}
