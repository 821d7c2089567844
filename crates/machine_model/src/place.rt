//! Places of operands, and what an operation gives.

/// Where a destination lies: in a register, 0 to 15, or at an address of memory.
#[derive(Clone, Copy, PartialEq, Eq, Debug, Drop)]
pub enum Place {
    InReg(u8),
    At(u16),
}

/// What an operation gives: its result, and the status register behind it.
#[derive(Clone, Copy, PartialEq, Eq, Debug, Drop)]
pub struct Outcome {
    pub value: u16,
    pub status: u16,
}
