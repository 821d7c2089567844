//! Names and what they stand for.

/// A name of 1 to 32 bytes, filled up with zeros.
#[derive(Clone, Copy, PartialEq, Eq, Hash, Debug, Drop)]
pub struct Name {
    pub bytes: [u8; 32],
}

/// What a name stands for.
#[derive(Clone, Copy, Drop)]
pub enum Value {
    /// A number given by `.equ`.
    Number(u16),
    /// A label of code: its place in words.
    Code(u16),
    /// A label of initialised bytes: its offset in bytes.
    Initialised(u16),
    /// A label of zeroed bytes: its offset in bytes behind the last initialised byte.
    Zeroed(u16),
}
