//! Why words are no instruction.

/// Why `decode` found no instruction.
#[derive(Clone, Copy, PartialEq, Eq, Debug, Drop)]
pub enum NoInstr {
    /// There is a word, and no instruction begins with it.
    Unknown,
    /// There is no word, or an instruction begins with the first and needs more words than there are.
    Short,
}
