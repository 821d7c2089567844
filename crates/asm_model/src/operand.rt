//! Operands as written, and as the parts of an instruction.

use super::expression::{Base, Expression};
use msp_encode::instr::{Dst, Src};

/// An operand as written. Registers are 0 to 15.
#[derive(Clone, Copy, Drop)]
pub enum Operand {
    Reg(u8),
    Indexed(u8, Expression),
    Symbolic(Expression),
    Absolute(Expression),
    Indirect(u8),
    AutoInc(u8),
    /// `#expression`: a constant where the constant generator has it and the instruction takes one.
    Value(Expression),
    /// `##expression`: an immediate in any case.
    Immediate(Expression),
}

/// A source, whose word is what is added to its base.
#[derive(Clone, Copy, Drop)]
pub struct Source {
    pub src: Src,
    pub base: Base,
    /// Whether the number in it is in its range.
    pub fits: bool,
}

/// A destination, whose word is what is added to its base.
#[derive(Clone, Copy, Drop)]
pub struct Destination {
    pub dst: Dst,
    pub base: Base,
    /// Whether the number in it is in its range.
    pub fits: bool,
}

/// What the word of an operand has to be.
#[derive(Clone, Copy, Drop)]
pub enum Use {
    /// A number, or an address of code, of static data or of an end of the region.
    Immediate,
    /// A number or an address of static data.
    Address,
    /// The distance to a place in the code.
    Distance,
    /// There is no word.
    Nothing,
}
