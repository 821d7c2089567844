//! What the first pass collects.

ghost use Rattle.std.specs.Prelude.{◌≡◌, ◌+◌, ◌<◌, ◌≤◌, ◌++◌, [], ◌∷◌, length, ◌*◌, OnOk};
ghost use Rattle.asm_model.specs.Drafts.{first_progress, placed, place_in, code_words, grown};
ghost use Rattle.msp_asm.specs.declared.drafts.Stop.TheVariants.{Memory};

use asm_model::fault::AsmKind;
use asm_model::name::Value;
use asm_model::piece::{Piece, Placed};
use asm_model::progress::{Progress, Section, Version};
use code_model::object::{CODE_WORDS_MAX, STATIC_BYTES_MAX};
use item_lists::lists::Items;
use std::alloc::AllocError;

/// Why the assembler stops at a line.
#[derive(Clone, Copy, Drop)]
pub(crate) enum Stop {
    /// The line has this fault.
    Kind(AsmKind),
    /// There was no memory.
    Memory,
}

impl From<AllocError> for Stop {
    ghost from_gives = { λ _ e. e ≡ Memory };

    fn from(_e: AllocError) -> Stop {
        Stop::Memory
    }
}

/// The pieces so far with their lines.
pub(crate) type Pieces = Items<Placed>;

/// Before the first line.
#[tactic(auto, unfolding(asm_model::specs::Drafts::first_progress))]
pub(crate) fn start() -> Progress
    ensures { result ≡ first_progress }
{
    Progress {
        header: None,
        version: Version::One,
        named: false,
        begun: false,
        section: Section::Code,
        entered: false,
        least_export: 0,
        code: 0,
        initialised: 0,
        zeroed: 0,
    }
}

/// What a label at the section's end stands for.
pub(crate) fn place(section: Section, p: Progress) -> Value
    ensures { result ≡ place_in section p }
{
    match section {
        Section::Code => Value::Code(p.code),
        Section::Data => Value::Initialised(p.initialised),
        Section::Zero => Value::Zeroed(p.zeroed),
    }
}

/// How many words a piece adds to the code.
pub(crate) fn words(piece: &Piece) -> u32
    ensures value { result ≡ code_words piece.now }
    ensures small { result ≤ 3 }
{
    match piece {
        Piece::Operation { instr, .. } => instr.words() as u32,
        Piece::Jump { .. } => 1,
        Piece::Word { .. } | Piece::Byte(_) | Piece::Entry(_) | Piece::Export { .. } => 0,
    }
}

/// With so many more code words, initialised bytes and zeroed bytes, unless that passes the limits.
#[tactic(auto, unfolding(asm_model::specs::Drafts::grown))]
pub(crate) fn grow(
    p: Progress,
    code: u32,
    initialised: u32,
    zeroed: u32,
) -> Result<Progress, AsmKind>
    requires code { code < 65536 }
    requires initialised { initialised < 65536 * 2 }
    requires zeroed { zeroed < 65536 * 2 }
    ensures { result ≡ grown p code initialised zeroed }
{
    let code = p.code as u32 + code;
    let initialised = p.initialised as u32 + initialised;
    let zeroed = p.zeroed as u32 + zeroed;
    if code > CODE_WORDS_MAX as u32 || initialised + zeroed > STATIC_BYTES_MAX as u32 {
        return Err(AsmKind::TooLarge);
    }
    Ok(Progress {
        header: p.header,
        version: p.version,
        named: p.named,
        begun: true,
        section: p.section,
        entered: p.entered,
        least_export: p.least_export,
        code: code as u16,
        initialised: initialised as u16,
        zeroed: zeroed as u16,
    })
}
