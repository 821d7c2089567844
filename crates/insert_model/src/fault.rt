//! Why an object can't be given its guards.

ghost use Rattle.std.specs.Prelude.{◌≡◌};
ghost use Rattle.insert_model.specs.declared.fault.InsertFault.TheVariants.{Memory};

use std::alloc::AllocError;
use thiserror::Error;

/// What is wrong with a source object. At one offset a kind that stands earlier here comes first.
#[derive(Clone, Copy, PartialEq, Eq, Debug, Drop, Error)]
pub enum InsertKind {
    /// No instruction is spelled there, or its words pass the code's end.
    #[error("not decoded")]
    NotDecoded,
    /// An operand names R4 or R5, which the guards use.
    #[error("uses check register")]
    UsesCheckRegister,
    /// A form that has no unit.
    #[error("forbidden")]
    Forbidden,
    /// A target isn't a start or an allowed entry, or the code runs off its end.
    #[error("bad target")]
    BadTarget,
    /// The units pass 8,192 words.
    #[error("too large")]
    TooLarge,
}

/// Why no object was made.
#[derive(Clone, Copy, PartialEq, Eq, Debug, Drop, Error)]
pub enum InsertFault {
    /// The first fault of the object, and its offset in bytes.
    #[error("{kind} at {offset}")]
    At { kind: InsertKind, offset: u32 },
    /// There was no memory.
    #[error("want of memory")]
    Memory,
}

impl From<AllocError> for InsertFault {
    ghost from_gives = { λ _ e. e ≡ Memory };

    fn from(_e: AllocError) -> InsertFault {
        InsertFault::Memory
    }
}
