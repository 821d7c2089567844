//! The checker's rules.

/// A rule of the checker. Its number is its place here, from 1.
#[derive(Clone, Copy, PartialEq, Eq, Debug, Drop)]
pub enum Rule {
    /// An instruction is spelled there, within the code.
    Spelled,
    /// No return from an interrupt.
    Reti,
    /// PC is written by a branch alone.
    Pc,
    /// SP is written under its guard alone.
    Sp,
    /// Of SR the flags alone are written.
    Sr,
    /// Memory is written under a store guard alone.
    Store,
    /// An absolute operand that is written lies in the static part.
    Static,
    /// The stack is popped under its guard alone.
    Pop,
    /// The stack is pushed under its guard alone.
    Push,
    /// A branch and a call have an allowed target.
    Target,
    /// A jump goes to a unit start.
    Jump,
    /// The code doesn't run off its end.
    End,
    /// A relocation stands on a word that may have one.
    Reloc,
    /// The entry and the exports are unit starts.
    Entry,
}
