//! What an instruction writes to.

use code_model::parts::RelKind;

/// What the destination of an instruction asks of its unit.
#[derive(Clone, Copy, PartialEq, Eq, Debug, Drop)]
pub enum Aim {
    /// PC.
    ToPc,
    /// SP.
    ToSp,
    /// Memory that isn't known to be static: a base register, or 3 for none, and an index with its relocation.
    ToMemory {
        base: u8,
        index: u16,
        kind: Option<RelKind>,
    },
    /// Another register, or static data.
    Elsewhere,
}
