//! The words of guards and of what they guard, and code made of them.

use super::{Answer, said_with};
use code_model::guards::{GuardKind, Reach};
use object_parts::parts::{HI, LO};
use std::alloc::{AllocError, Global};

/// The guards of version 1.
static FIRST_KINDS: [GuardKind; 4] = [
    GuardKind::Store,
    GuardKind::Growth,
    GuardKind::Pop,
    GuardKind::Sp,
];

/// The guards of version 2.
static SECOND_KINDS: [GuardKind; 8] = [
    GuardKind::Store,
    GuardKind::Wide(Reach::Two),
    GuardKind::Wide(Reach::Four),
    GuardKind::Wide(Reach::Six),
    GuardKind::Load,
    GuardKind::Growth,
    GuardKind::Pop,
    GuardKind::Sp,
];

pub(super) const VERSIONS: [u8; 2] = [1, 2];

/// The guards of a version.
pub(super) fn kinds(version: u8) -> &'static [GuardKind] {
    if version == 1 {
        &FIRST_KINDS
    } else {
        &SECOND_KINDS
    }
}

/// `JMP` to itself.
pub(super) const STAYS: u16 = 0x3FFF;

/// The store guard and `MOV #0,0(R4)`.
static STORE: [u16; 15] = [
    0x4205, 0x4604, 0x5034, 0x0000, 0x9034, 0x0000, 0x2803, 0x9034, 0x0000, 0x2802, 0x4030, 0xF000,
    0x4502, 0x4384, 0x0000,
];

/// The wide guards, each with `MOV #0,x(R4)` for the greatest x that it serves.
static WIDE_TWO: [u16; 15] = [
    0x4205, 0x4604, 0x5034, 0x0000, 0x9034, 0x0000, 0x2803, 0x9034, 0xFFFE, 0x2802, 0x4030, 0xF000,
    0x4502, 0x4384, 0x0002,
];

static WIDE_FOUR: [u16; 15] = [
    0x4205, 0x4604, 0x5034, 0x0000, 0x9034, 0x0000, 0x2803, 0x9034, 0xFFFC, 0x2802, 0x4030, 0xF000,
    0x4502, 0x4384, 0x0004,
];

static WIDE_SIX: [u16; 15] = [
    0x4205, 0x4604, 0x5034, 0x0000, 0x9034, 0x0000, 0x2803, 0x9034, 0xFFFA, 0x2802, 0x4030, 0xF000,
    0x4502, 0x4384, 0x0006,
];

/// The load guard and `CMP R7,0(R4)`.
static LOAD: [u16; 15] = [
    0x4205, 0x4604, 0x5034, 0x0000, 0x9034, 0x0000, 0x2803, 0x9034, 0x0000, 0x2802, 0x4030, 0xF000,
    0x4502, 0x9784, 0x0000,
];

/// The growth guard and `PUSH R6`.
static GROWTH: [u16; 8] = [
    0x4205, 0x9211, 0x0200, 0x2C02, 0x4030, 0xF002, 0x4502, 0x1206,
];

/// The pop guard and `MOV @SP+,R6`.
static POP: [u16; 8] = [
    0x4205, 0x9182, 0x0202, 0x2002, 0x4030, 0xF002, 0x4502, 0x4136,
];

/// The SP guard and `MOV R4,SP`.
static SP: [u16; 11] = [
    0x4205, 0x9214, 0x0200, 0x2803, 0x9482, 0x0202, 0x2C02, 0x4030, 0xF002, 0x4502, 0x4401,
];

/// The words of a guard and of the instruction that it guards.
pub(super) fn words(kind: GuardKind) -> &'static [u16] {
    match kind {
        GuardKind::Store => &STORE,
        GuardKind::Wide(Reach::Two) => &WIDE_TWO,
        GuardKind::Wide(Reach::Four) => &WIDE_FOUR,
        GuardKind::Wide(Reach::Six) => &WIDE_SIX,
        GuardKind::Load => &LOAD,
        GuardKind::Growth => &GROWTH,
        GuardKind::Pop => &POP,
        GuardKind::Sp => &SP,
    }
}

/// How many of them are the guard's.
pub(super) fn guard_len(kind: GuardKind) -> usize {
    match kind {
        GuardKind::Store | GuardKind::Wide(_) | GuardKind::Load => 13,
        GuardKind::Growth | GuardKind::Pop => 7,
        GuardKind::Sp => 10,
    }
}

/// The relocation that a guard has on its word at an index.
fn bound(kind: GuardKind, index: usize) -> Option<u8> {
    match (kind, index) {
        (GuardKind::Growth | GuardKind::Pop | GuardKind::Sp, _) => None,
        (_, 5) => Some(LO),
        (_, 8) => Some(HI),
        _ => None,
    }
}

/// The offset of a place in bytes.
pub(super) fn offset(at: usize) -> u16 {
    u16::try_from(usize::saturating_mul(2, at)).unwrap_or(0)
}

/// `MOV Rn,R4`.
fn move_to_r4(register: u16) -> u16 {
    u16::saturating_add(0x4004, u16::saturating_mul(256, register))
}

/// The offset of `MOV R5,SR` of a guard that begins at a place.
pub(super) fn restores(kind: GuardKind, at: usize) -> u16 {
    offset(usize::saturating_sub(usize::saturating_add(at, guard_len(kind)), 1))
}

/// An object's version and code, with its relocations.
#[derive(Drop)]
pub(super) struct Source {
    version: u8,
    code: Vec<u16>,
    relocs: Vec<(u8, u8, u16)>,
}

impl Source {
    pub(super) fn new(alloc: Global, version: u8) -> Source {
        Source {
            version,
            code: Vec::new(alloc),
            relocs: Vec::new(alloc),
        }
    }

    /// How many words there are.
    pub(super) fn len(&self) -> usize {
        self.code.len()
    }

    pub(super) fn word(&mut self, word: u16) -> Result<(), AllocError> {
        self.code.push(word)?;
        Ok(())
    }

    pub(super) fn word_with(&mut self, word: u16, reloc: Option<u8>) -> Result<(), AllocError> {
        match reloc {
            Some(kind) => self.relocs.push((0, kind, offset(self.code.len())))?,
            None => {}
        }
        self.word(word)
    }

    pub(super) fn words(&mut self, words: &[u16]) -> Result<(), AllocError> {
        for word in words {
            self.word(*word)?;
        }
        Ok(())
    }

    /// Puts in a guard that keeps an address in the region, by the register whose value it tests, what it adds to it, with a
    /// relocation or none, and the word that the region's end is added to.
    pub(super) fn region_guard(
        &mut self,
        register: u16,
        added: (u16, Option<u8>),
        high: u16,
    ) -> Result<(), AllocError> {
        self.words(&[0x4205, move_to_r4(register), 0x5034])?;
        self.word_with(added.0, added.1)?;
        self.word(0x9034)?;
        self.word_with(0, Some(LO))?;
        self.words(&[0x2803, 0x9034])?;
        self.word_with(high, Some(HI))?;
        self.words(&[0x2802, 0x4030, 0xF000, 0x4502])
    }

    /// Puts in the first words of a guard and of what it guards.
    pub(super) fn first_words(&mut self, kind: GuardKind, count: usize) -> Result<(), AllocError> {
        for (index, word) in words(kind).iter().enumerate() {
            if index < count {
                self.word_with(*word, bound(kind, index))?;
            }
        }
        Ok(())
    }

    /// Puts in a guard with what it guards.
    pub(super) fn unit(&mut self, kind: GuardKind) -> Result<(), AllocError> {
        self.first_words(kind, words(kind).len())
    }

    /// Puts in a guard with what it guards, and another relocation in place of what stands on the word at an index.
    pub(super) fn relocated(
        &mut self,
        kind: GuardKind,
        index: usize,
        reloc: u8,
    ) -> Result<(), AllocError> {
        for (at, word) in words(kind).iter().enumerate() {
            let there = if at == index {
                Some(reloc)
            } else {
                bound(kind, at)
            };
            self.word_with(*word, there)?;
        }
        Ok(())
    }
}

/// What is said of an object of this code.
pub(super) fn said_of(alloc: Global, source: Result<Source, AllocError>) -> Answer {
    match source {
        Ok(source) => said_with(alloc, source.version, 0, &source.code, &source.relocs),
        Err(_) => Answer::NoObject,
    }
}
