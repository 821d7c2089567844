//! Guards that break off: into another guard, or at the code's end.

use super::Answer;
use super::units::{STAYS, Source, VERSIONS, guard_len, kinds, offset, restores, said_of};
use code_model::guards::GuardKind;
use std::alloc::{AllocError, Global};
use std::test::*;

/// What is said of the first words of a guard with another guard, its instruction and `JMP` to itself behind.
#[derive(Clone, Copy, Drop)]
enum Cut {
    /// Accepted, with so many units.
    Units(u16),
    /// Refused by a rule at an offset.
    Refused(u8, u16),
    /// The other guard's first word is an operand, so its `MOV R5,SR` is refused.
    Operand,
    /// The same, but a jump at an offset goes to the other guard's third word, where an instruction starts in a store guard
    /// alone.
    OperandBehindJump(u16),
}

/// By the number of words that are left, from 1 on.
static CUT_STORE: [Cut; 13] = [
    Cut::Units(3),
    Cut::Units(4),
    Cut::Operand,
    Cut::Units(5),
    Cut::Operand,
    Cut::Units(6),
    Cut::Refused(11, 12),
    Cut::OperandBehindJump(12),
    Cut::Refused(11, 12),
    Cut::Refused(11, 18),
    Cut::Refused(10, 20),
    Cut::Units(10),
    Cut::Refused(5, 24),
];

/// That of the growth guard and the pop guard.
static CUT_STACK: [Cut; 7] = [
    Cut::Units(3),
    Cut::Operand,
    Cut::Units(4),
    Cut::Refused(11, 6),
    Cut::Refused(10, 8),
    Cut::Units(6),
    Cut::Refused(5, 12),
];

static CUT_SP: [Cut; 10] = [
    Cut::Units(3),
    Cut::Operand,
    Cut::Units(4),
    Cut::Refused(11, 6),
    Cut::OperandBehindJump(6),
    Cut::Refused(11, 6),
    Cut::Refused(11, 12),
    Cut::Refused(10, 14),
    Cut::Units(8),
    Cut::Refused(5, 18),
];

fn cuts(kind: GuardKind) -> &'static [Cut] {
    match kind {
        GuardKind::Store | GuardKind::Wide(_) | GuardKind::Load => &CUT_STORE,
        GuardKind::Growth | GuardKind::Pop => &CUT_STACK,
        GuardKind::Sp => &CUT_SP,
    }
}

/// What a cut means before a guard of this kind, that many words being left.
fn cut_answer(cut: Cut, left: usize, next: GuardKind) -> Answer {
    match cut {
        Cut::Units(units) => Answer::Units(units),
        Cut::Refused(rule, place) => Answer::Refused(rule, place),
        Cut::Operand => Answer::Refused(5, restores(next, left)),
        Cut::OperandBehindJump(place) => match next {
            GuardKind::Store | GuardKind::Wide(_) | GuardKind::Load => Answer::Refused(
                5,
                restores(next, left),
            ),
            _ => Answer::Refused(11, place),
        },
    }
}

fn cut_source(
    alloc: Global,
    version: u8,
    kind: GuardKind,
    left: usize,
    next: GuardKind,
) -> Result<Source, AllocError> {
    let mut source = Source::new(alloc, version);
    source.first_words(kind, left)?;
    source.unit(next)?;
    source.word(STAYS)?;
    Ok(source)
}

#[test]
fn a_guard_may_break_off_at_each_word_into_each_guard(rt: HostRuntime) {
    let alloc = rt.alloc();
    for version in VERSIONS {
        for kind in kinds(version) {
            for next in kinds(version) {
                for (index, cut) in cuts(*kind).iter().enumerate() {
                    let left = usize::saturating_add(index, 1);
                    assert_eq!(rt;
                        said_of(alloc, cut_source(alloc, version, *kind, left, *next)),
                        cut_answer(*cut, left, *next),
                        "{left} words"
                    );
                }
            }
        }
    }
}

/// The rule and the offset that refuse code of a guard's first words alone, by how many there are, from 1 on.
static END_STORE: [(u8, u16); 13] = [
    (12, 0),
    (12, 2),
    (1, 4),
    (12, 4),
    (1, 8),
    (12, 8),
    (11, 12),
    (1, 14),
    (11, 12),
    (11, 12),
    (1, 20),
    (11, 18),
    (5, 24),
];

static END_STACK: [(u8, u16); 7] = [(12, 0), (1, 2), (12, 2), (11, 6), (1, 8), (11, 6), (5, 12)];

static END_SP: [(u8, u16); 10] = [
    (12, 0),
    (1, 2),
    (12, 2),
    (11, 6),
    (1, 8),
    (11, 6),
    (11, 6),
    (1, 14),
    (11, 12),
    (5, 18),
];

fn ends(kind: GuardKind) -> &'static [(u8, u16)] {
    match kind {
        GuardKind::Store | GuardKind::Wide(_) | GuardKind::Load => &END_STORE,
        GuardKind::Growth | GuardKind::Pop => &END_STACK,
        GuardKind::Sp => &END_SP,
    }
}

fn end_source(
    alloc: Global,
    version: u8,
    kind: GuardKind,
    left: usize,
) -> Result<Source, AllocError> {
    let mut source = Source::new(alloc, version);
    source.first_words(kind, left)?;
    Ok(source)
}

fn unit_source(alloc: Global, version: u8, kind: GuardKind) -> Result<Source, AllocError> {
    let mut source = Source::new(alloc, version);
    source.unit(kind)?;
    Ok(source)
}

#[test]
fn a_guard_may_stand_at_the_code_end(rt: HostRuntime) {
    let alloc = rt.alloc();
    for version in VERSIONS {
        for kind in kinds(version) {
            for (index, end) in ends(*kind).iter().enumerate() {
                let (rule, place) = *end;
                let left = usize::saturating_add(index, 1);
                assert_eq!(rt;
                    said_of(alloc, end_source(alloc, version, *kind, left)),
                    Answer::Refused(rule, place),
                    "{left} words"
                );
            }
            // the guarded instruction is the last
            assert_eq!(rt;
                said_of(alloc, unit_source(alloc, version, *kind)),
                Answer::Refused(12, offset(guard_len(*kind)))
            );
        }
    }
}
