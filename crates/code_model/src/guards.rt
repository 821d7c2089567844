//! The kinds of guards, and the slots of their words.

/// How many bytes beyond the address that a wide guard tests its stores may go.
#[derive(Clone, Copy, PartialEq, Eq, Debug, Drop)]
pub enum Reach {
    Two,
    Four,
    Six,
}

/// A guard: a fixed group of words just before the instruction that it guards, or before up to four of them.
#[derive(Clone, Copy, PartialEq, Eq, Debug, Drop)]
pub enum GuardKind {
    /// Keeps a store in the region.
    Store,
    /// Keeps up to four stores in the region, each so many bytes beyond one address at most. Of version 2.
    Wide(Reach),
    /// Keeps a load in the region. Of version 2.
    Load,
    /// Keeps a push in the stack.
    Growth,
    /// Keeps a pop in the stack.
    Pop,
    /// Keeps a new stack pointer in the stack.
    Sp,
}

/// What a word of a guard may be.
#[derive(Clone, Copy, PartialEq, Eq, Debug, Drop)]
pub enum Slot {
    /// This word, without relocation.
    Word(u16),
    /// A move of a register or of 0 into R4, without relocation.
    Load,
    /// Any word.
    Free,
    /// 0, with the relocation to the region's start.
    Low,
    /// This word, with the relocation to the region's end.
    High(u16),
}
