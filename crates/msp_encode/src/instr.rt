//! Instructions as data.

/// An operation of two operands.
#[derive(Clone, Copy, PartialEq, Eq, Debug, Drop)]
pub enum Op2 {
    Mov,
    Add,
    Addc,
    Subc,
    Sub,
    Cmp,
    Dadd,
    Bit,
    Bic,
    Bis,
    Xor,
    And,
}

/// An operation of one operand.
#[derive(Clone, Copy, PartialEq, Eq, Debug, Drop)]
pub enum Op1 {
    Rrc,
    Swpb,
    Rra,
    Sxt,
    Push,
    Call,
}

/// When a jump is taken.
#[derive(Clone, Copy, PartialEq, Eq, Debug, Drop)]
pub enum Cond {
    Ne,
    Eq,
    Nc,
    C,
    N,
    Ge,
    L,
    Always,
}

/// Whether an operation is of words (16 bits) or of bytes.
#[derive(Clone, Copy, PartialEq, Eq, Debug, Drop)]
pub enum Width {
    Wide,
    Byte,
}

/// A constant that R2 and R3 generate (SLAU049, "Constant Generator Registers CG1 and CG2").
#[derive(Clone, Copy, PartialEq, Eq, Debug, Drop)]
pub enum Cg {
    Zero,
    One,
    Two,
    Four,
    Eight,
    AllOnes,
}

/// A source operand: registers are 0 to 15, the second number of `Indexed` and the numbers of the others are words.
#[derive(Clone, Copy, PartialEq, Eq, Debug, Drop)]
pub enum Src {
    Reg(u8),
    Indexed(u8, u16),
    Symbolic(u16),
    Absolute(u16),
    Indirect(u8),
    AutoInc(u8),
    Immediate(u16),
    Const(Cg),
}

/// A destination operand.
#[derive(Clone, Copy, PartialEq, Eq, Debug, Drop)]
pub enum Dst {
    Reg(u8),
    Indexed(u8, u16),
    Symbolic(u16),
    Absolute(u16),
}

/// An instruction. A jump's offset counts words from the instruction behind it.
#[derive(Clone, Copy, PartialEq, Eq, Debug, Drop)]
pub enum Instr {
    Two {
        op: Op2,
        width: Width,
        src: Src,
        dst: Dst,
    },
    One {
        op: Op1,
        width: Width,
        src: Src,
    },
    Reti,
    Jump {
        cond: Cond,
        offset: i16,
    },
}
