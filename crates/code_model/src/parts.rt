//! The parts of an object.

pub use kernel_model::kinds::Kind;

/// What a relocation adds to its word.
#[derive(Clone, Copy, PartialEq, Eq, Debug, Drop)]
pub enum RelKind {
    /// The address of the code.
    Code,
    /// The address of the region's first byte.
    Data,
    /// The address of the region's first byte, in a guard's lower bound.
    Lo,
    /// The address behind the region's last byte, in a guard's upper bound.
    Hi,
}

/// A word that placement changes: its offset in bytes, in the code or in the initialised bytes.
#[derive(Clone, Copy, PartialEq, Eq, Debug, Drop)]
pub struct Reloc {
    pub in_code: bool,
    pub kind: RelKind,
    pub offset: u16,
}

/// A function that a module exports: its number, 0 to 63, and its offset in bytes in the code.
#[derive(Clone, Copy, PartialEq, Eq, Debug, Drop)]
pub struct Export {
    pub number: u8,
    pub offset: u16,
}
