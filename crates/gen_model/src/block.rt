//! The blocks that generated code is made of.

/// A block: one or two instructions. Registers are numbers, `from` is read and `to` is written.
#[derive(Clone, Copy, PartialEq, Eq, Debug, Drop)]
pub enum Block {
    /// `MOV #value,Rto`.
    Set { to: u8, value: u16 },
    /// `ADD Rfrom,Rto`.
    Add { from: u8, to: u8 },
    /// `XOR Rfrom,Rto`.
    Xor { from: u8, to: u8 },
    /// `MOV Rfrom,&place`, where the place is an offset in the static part.
    Keep { from: u8, place: u16 },
    /// `MOV #place,R12` with such an offset, then `MOV Rfrom,0(R12)`.
    Store { from: u8, place: u16 },
    /// `PUSH Rfrom`, then `POP Rto`.
    Pass { from: u8, to: u8 },
    /// `RRA Rto`.
    Halve { to: u8 },
    /// `MOV Rfrom,Rto` behind a JNE over it.
    Skip { from: u8, to: u8 },
    /// `MOV Rfrom,R12`, then a call of the kernel's entry `emit`.
    Emit { from: u8 },
    /// A branch to the first instruction.
    Restart,
}
