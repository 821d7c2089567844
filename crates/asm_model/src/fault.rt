//! Why a source gives no object.

ghost use Rattle.std.specs.Prelude.{◌≡◌};
ghost use Rattle.asm_model.specs.declared.fault.AsmFault.TheVariants.{Memory};

use std::alloc::AllocError;
use thiserror::Error;

/// What is wrong with a line.
#[derive(Clone, Copy, PartialEq, Eq, Debug, Drop, Error)]
pub enum AsmKind {
    /// The line has a byte that isn't allowed.
    #[error("nottext")]
    NotText,
    /// A label or a name given by `.equ` was defined before, or is reserved.
    #[error("doublelabel")]
    DoubleLabel,
    /// The statement's first word is no mnemonic or directive, or has a width that it doesn't take.
    #[error("unknownword")]
    UnknownWord,
    /// A statement stands in the wrong section or order, or too often, or a directive's operands have another form.
    #[error("baddirective")]
    BadDirective,
    /// An instruction's operands have another number or form, or give no instruction.
    #[error("badoperand")]
    BadOperand,
    /// A number is out of its range.
    #[error("numberrange")]
    NumberRange,
    /// With this line the code passes 8,192 words or the static part 16,384 bytes.
    #[error("toolarge")]
    TooLarge,
    /// A name is defined nowhere.
    #[error("nolabel")]
    NoLabel,
    /// A jump's offset isn't in -512 to 511 words.
    #[error("jumprange")]
    JumpRange,
}

/// Why no object was assembled.
#[derive(Clone, Copy, PartialEq, Eq, Debug, Drop, Error)]
pub enum AsmFault {
    /// The first fault of the source and its line, counted from 1. Line 0 is for what is missing as a whole.
    #[error("line {line}: {kind}")]
    At { line: u32, kind: AsmKind },
    /// There was no memory.
    #[error("want of memory")]
    Memory,
}

impl From<AllocError> for AsmFault {
    ghost from_gives = { λ _ e. e ≡ Memory };

    fn from(_e: AllocError) -> AsmFault {
        AsmFault::Memory
    }
}
