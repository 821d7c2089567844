//! Why a text is no object's.

ghost use Rattle.std.specs.Prelude.{◌≡◌};
ghost use Rattle.object_form.specs.declared.fault.FormFault.TheVariants.{Memory};

use std::alloc::AllocError;
use thiserror::Error;

/// What is wrong with a text.
#[derive(Clone, Copy, PartialEq, Eq, Debug, Drop, Error)]
pub enum FormKind {
    /// The first four bytes are others.
    #[error("magic")]
    Magic,
    /// The version is neither 1 nor 2.
    #[error("version")]
    Version,
    /// A number of a kind that isn't there.
    #[error("kind")]
    Kind,
    /// A number is out of its range.
    #[error("limit")]
    Limit,
    /// Relocations or exports don't rise.
    #[error("order")]
    Order,
    /// An offset is odd or not in its section, or a byte isn't what stands at its place.
    #[error("place")]
    Place,
    /// The text ends within a field.
    #[error("short")]
    Short,
    /// Bytes stand behind the last field.
    #[error("trailing")]
    Trailing,
}

/// Why no object was read.
#[derive(Clone, Copy, PartialEq, Eq, Debug, Drop, Error)]
pub enum FormFault {
    /// The first fault of the text, and its offset in bytes.
    #[error("form {kind} at {offset}")]
    At { kind: FormKind, offset: u32 },
    /// There was no memory.
    #[error("want of memory")]
    Memory,
}

impl From<AllocError> for FormFault {
    ghost from_gives = { λ _ e. e ≡ Memory };

    fn from(_e: AllocError) -> FormFault {
        FormFault::Memory
    }
}
