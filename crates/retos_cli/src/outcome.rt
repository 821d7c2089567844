//! What a command comes to.

ghost use Rattle.std.specs.Prelude.{◌≡◌};
ghost use Rattle.retos_cli.specs.Statuses.{status_number};

use asm_model::fault::AsmKind;
use edge_io::name::Name;
use insert_model::fault::InsertKind;
use object_form::fault::FormKind;
use place_model::places::NoRoom;

/// The status that the program ends with.
#[derive(Clone, Copy, PartialEq, Eq, Debug, Drop)]
pub enum Status {
    /// Done, without a fault.
    Done,
    /// An input is refused.
    Refused,
    /// The words are no command.
    BadWords,
    /// A read failed.
    ReadFault,
    /// A write failed.
    WriteFault,
    /// No memory was found.
    NoMemory,
    /// Done, and an application or a module faulted.
    Faulted,
}

impl Status {
    /// The number that the program ends with.
    pub fn number(self) -> u8
        ensures { result ≡ status_number self }
    {
        match self {
            Status::Done => 0,
            Status::Refused => 1,
            Status::BadWords => 2,
            Status::ReadFault => 3,
            Status::WriteFault => 4,
            Status::NoMemory => 5,
            Status::Faulted => 6,
        }
    }
}

/// Why an input is refused.
#[derive(Clone, Copy, PartialEq, Eq, Debug, Drop)]
pub enum Why {
    /// The folder doesn't hold it.
    Absent,
    /// It holds over 1,048,576 bytes.
    TooLong,
    /// Its bytes are no object's text: what is wrong, and at which offset.
    Form { kind: FormKind, at: u32 },
    /// A module can't run alone.
    NotApplication,
    /// The checker refuses it by this rule at this offset.
    Check { rule: u8, place: u16 },
    /// There is no room for it.
    Room(NoRoom),
    /// A source text with this first fault: on which line, counted from 1, and what is wrong. Line 0 is for what is missing as a
    /// whole.
    Line { line: u32, kind: AsmKind },
    /// A script with this first line that breaks a rule, counted from 1.
    Script { line: u32 },
    /// An object that can't get its guards: what is wrong first, and at which offset of bytes.
    Insert { kind: InsertKind, offset: u32 },
}

/// An input that is refused.
#[derive(Drop)]
pub struct Refused {
    pub name: Name,
    pub why: Why,
}

/// Why a command ends before it has written anything.
#[derive(Drop)]
pub enum Stop {
    Refuse(Refused),
    /// The read of this input failed.
    ReadFault(Name),
    NoMemory,
}

/// What words come to.
#[derive(Drop)]
pub enum Outcome {
    /// All was written; whether an application or a module faulted.
    Done(bool),
    BadWords,
    Stopped(Stop),
    /// A write of out or of a file failed.
    WriteFault,
}
