//! Guards that stand whole: in a row, with jumps to their words, and with another relocation on a word.

use super::Answer;
use super::units::{STAYS, Source, VERSIONS, kinds, offset, restores, said_of, words};
use code_model::guards::GuardKind;
use object_parts::parts::{CODE, DATA, HI, LO};
use std::alloc::{AllocError, Global};
use std::test::*;

fn row_source(
    alloc: Global,
    version: u8,
    kind: GuardKind,
    next: GuardKind,
) -> Result<Source, AllocError> {
    let mut source = Source::new(alloc, version);
    source.unit(kind)?;
    source.unit(next)?;
    source.word(STAYS)?;
    Ok(source)
}

#[test]
fn guards_in_a_row_are_units_of_their_own(rt: HostRuntime) {
    let alloc = rt.alloc();
    for version in VERSIONS {
        for kind in kinds(version) {
            for next in kinds(version) {
                assert_eq!(rt;
                    said_of(alloc, row_source(alloc, version, *kind, *next)),
                    Answer::Units(3)
                );
            }
        }
    }
}

/// What is said of a guard with what it guards, and `JMP` to itself behind, where another relocation stands on one of the words.
#[derive(Clone, Copy, Drop)]
enum OnWord {
    /// The first word of an instruction: no relocation may stand there.
    First,
    /// The word of an absolute operand or of an index: one of DATA may stand there, but there is no guard with it.
    Data,
    /// The target of a branch at an offset: no entry is relocated.
    Target(u16),
    /// The guard doesn't stand with it, and its `MOV R5,SR` is refused no later than the relocation.
    Breaks,
    /// The guard takes each.
    Free,
    /// The guard takes one of this kind.
    Bound(u8),
}

static ON_STORE: [OnWord; 15] = [
    OnWord::First,
    OnWord::First,
    OnWord::First,
    OnWord::Free,
    OnWord::First,
    OnWord::Bound(LO),
    OnWord::First,
    OnWord::First,
    OnWord::Bound(HI),
    OnWord::First,
    OnWord::First,
    OnWord::Target(20),
    OnWord::Breaks,
    OnWord::First,
    OnWord::Breaks,
];

static ON_STACK: [OnWord; 8] = [
    OnWord::First,
    OnWord::First,
    OnWord::Data,
    OnWord::First,
    OnWord::First,
    OnWord::Target(8),
    OnWord::Breaks,
    OnWord::First,
];

static ON_SP: [OnWord; 11] = [
    OnWord::First,
    OnWord::First,
    OnWord::Data,
    OnWord::First,
    OnWord::First,
    OnWord::Data,
    OnWord::First,
    OnWord::First,
    OnWord::Target(14),
    OnWord::Breaks,
    OnWord::First,
];

fn on_words(kind: GuardKind) -> &'static [OnWord] {
    match kind {
        GuardKind::Store | GuardKind::Wide(_) | GuardKind::Load => &ON_STORE,
        GuardKind::Growth | GuardKind::Pop => &ON_STACK,
        GuardKind::Sp => &ON_SP,
    }
}

/// What a relocation of a kind on the word at an index means.
fn on_word_answer(on_word: OnWord, kind: GuardKind, index: usize, reloc: u8) -> Answer {
    let broken = Answer::Refused(5, restores(kind, 0));
    match on_word {
        OnWord::First => Answer::Refused(13, offset(index)),
        OnWord::Data => {
            if reloc == DATA {
                broken
            } else {
                Answer::Refused(13, offset(index))
            }
        }
        OnWord::Target(place) => Answer::Refused(10, place),
        OnWord::Breaks => broken,
        OnWord::Free => Answer::Units(2),
        OnWord::Bound(bound) => {
            if reloc == bound {
                Answer::Units(2)
            } else {
                broken
            }
        }
    }
}

fn on_word_source(
    alloc: Global,
    version: u8,
    kind: GuardKind,
    index: usize,
    reloc: u8,
) -> Result<Source, AllocError> {
    let mut source = Source::new(alloc, version);
    source.relocated(kind, index, reloc)?;
    source.word(STAYS)?;
    Ok(source)
}

#[test]
fn a_guard_has_its_relocations_alone(rt: HostRuntime) {
    let alloc = rt.alloc();
    for version in VERSIONS {
        for kind in kinds(version) {
            for (index, expected) in on_words(*kind).iter().enumerate() {
                for reloc in [CODE, DATA, LO, HI] {
                    assert_eq!(rt;
                        said_of(alloc, on_word_source(alloc, version, *kind, index, reloc)),
                        on_word_answer(*expected, *kind, index, reloc),
                        "relocation {reloc} on word {index}"
                    );
                }
            }
        }
    }
}

/// `JMP` at a place to another before.
fn jump_back(from: usize, to: usize) -> u16 {
    let words = usize::saturating_sub(usize::saturating_add(from, 1), to);
    u16::saturating_sub(0x4000, u16::try_from(words).unwrap_or(0))
}

/// A guard with what it guards, and `JMP` to one of their words.
fn jump_source(
    alloc: Global,
    version: u8,
    kind: GuardKind,
    to: usize,
) -> Result<Source, AllocError> {
    let mut source = Source::new(alloc, version);
    source.unit(kind)?;
    let from = source.len();
    source.word(jump_back(from, to))?;
    Ok(source)
}

#[test]
fn a_guard_is_jumped_to_at_its_first_word_alone(rt: HostRuntime) {
    let alloc = rt.alloc();
    for version in VERSIONS {
        for kind in kinds(version) {
            let jump = words(*kind).len();
            assert_eq!(rt;
                said_of(alloc, jump_source(alloc, version, *kind, 0)),
                Answer::Units(2)
            );
            for to in 1..jump {
                assert_eq!(rt;
                    said_of(alloc, jump_source(alloc, version, *kind, to)),
                    Answer::Refused(11, offset(jump)),
                    "to {to}"
                );
            }
        }
    }
}
