//! Mnemonics and directives.

use msp_encode::instr::{Cg, Cond, Instr, Op1, Op2, Width};

/// Which instruction a mnemonic stands for, and which operands it takes.
#[derive(Clone, Copy, Drop)]
pub enum MnemonicForm {
    /// Source and destination.
    Two(Op2),
    /// One operand.
    One(Op1),
    /// A code label.
    Jump(Cond),
    /// A destination, with this constant as source.
    Constant(Op2, Cg),
    /// A destination that is the source too.
    Twice(Op2),
    /// A destination, with the top of the stack as source.
    Pop,
    /// A source, with PC as destination.
    Branch,
    /// No operand.
    Alone(Instr),
}

/// A directive's name.
#[derive(Clone, Copy, Drop)]
pub enum Directive {
    App,
    Module,
    Version,
    Equ,
    Entry,
    Export,
    Code,
    Data,
    Zero,
    Word,
    Byte,
    Space,
}

/// The first word of a statement.
#[derive(Clone, Copy, Drop)]
pub enum Keyword {
    Directive(Directive),
    Mnemonic(MnemonicForm, Width),
}
