//! Version 2: jumps of one word, and what is too large.

use crate::answers::{Answer, inserted_in};
use check_inserter::InsertKind;
use object_parts::parts::{CODE, HI, LO, code};
use std::alloc::{AllocError, Global};
use std::test::*;

/// `MOV R7,R8`, whose unit is itself.
const MOVES: u16 = 0x4708;

/// A store of R7 through R6 has 15 words with its guard.
const STORE: [u16; 2] = [0x4786, 0];

const GUARDED: [u16; 15] = [
    0x4205, 0x4604, 0x5034, 0, 0x9034, 0, 0x2803, 0x9034, 0, 0x2802, 0x4030, 0xF000, 0x4502,
    0x4784, 0,
];

/// Words: some, so many moves, and others.
fn spaced(
    alloc: Global,
    front: &[u16],
    moves: usize,
    back: &[u16],
) -> Result<Vec<u16>, AllocError> {
    let mut words = Vec::new(alloc);
    words.extend_from_slice(front)?;
    for _ in 0..moves {
        words.push(MOVES)?;
    }
    words.extend_from_slice(back)?;
    Ok(words)
}

/// The source's words before and behind so many moves, those with guards before and behind as many, and their relocations.
type Spaced = (
    &'static [u16],
    &'static [u16],
    usize,
    &'static [u16],
    &'static [u16],
    &'static [(u8, u8, u16)],
);

/// Tells what becomes of such a source.
fn answer(alloc: Global, row: &Spaced) -> Answer {
    let (front, back, moves, new_front, new_back, relocs) = row;
    match spaced(alloc, front, *moves, back) {
        Ok(source) => match spaced(alloc, new_front, *moves, new_back) {
            Ok(wanted) => inserted_in(alloc, 2, &code(&source, &[]), &code(&wanted, relocs)),
            Err(_) => Answer::NoObject,
        },
        Err(_) => Answer::NoObject,
    }
}

/// Jumps ahead over moves to a last jump, which goes to itself. Where each jump has its longest unit, a JMP has two words and a
/// conditional jump four, so that a JMP over 510 moves is 511 words before its target, and JEQ over 508.
const AHEAD: [Spaced; 4] = [
    (&[0x3DFE], &[0x3FFF], 510, &[0x3DFE], &[0x3FFF], &[]),
    (
        &[0x3DFF],
        &[0x3FFF],
        511,
        &[0x4030, 0x0402],
        &[0x3FFF],
        &[(0, CODE, 2)],
    ),
    (&[0x25FC], &[0x3FFF], 508, &[0x25FC], &[0x3FFF], &[]),
    (
        &[0x25FD],
        &[0x3FFF],
        509,
        &[0x2401, 0x3C02, 0x4030, 0x0402],
        &[0x3FFF],
        &[(0, CODE, 6)],
    ),
];

#[test]
fn a_jump_ahead_is_one_word_up_to_511(rt: HostRuntime) {
    for row in &AHEAD {
        assert_eq!(rt; answer(rt.alloc(), row), Answer::AsExpected);
    }
}

/// A guarded store, moves, and a jump back to the store. It is one word behind 15 words and 496 moves, and a branch behind one
/// more. So it is where a jump to the next place makes the distance 513 with that jump's longest unit, though with its one word
/// it is 512.
fn of_back(alloc: Global, row: &Spaced) -> Answer {
    let (between, back, moves, new_between, new_back, relocs) = row;
    match both(alloc, between, *moves, back, &STORE) {
        Ok(source) => match both(alloc, new_between, *moves, new_back, &GUARDED) {
            Ok(wanted) => inserted_in(alloc, 2, &code(&source, &[]), &code(&wanted, relocs)),
            Err(_) => Answer::NoObject,
        },
        Err(_) => Answer::NoObject,
    }
}

/// A store, some words, so many moves, and others.
fn both(
    alloc: Global,
    between: &[u16],
    moves: usize,
    back: &[u16],
    store: &[u16],
) -> Result<Vec<u16>, AllocError> {
    let mut front = Vec::new(alloc);
    front.extend_from_slice(store)?;
    front.extend_from_slice(between)?;
    spaced(alloc, &front, moves, back)
}

const BACK: [Spaced; 4] = [
    (
        &[],
        &[0x3E0D],
        496,
        &[],
        &[0x3E00],
        &[(0, LO, 10), (0, HI, 16)],
    ),
    (
        &[],
        &[0x3E0C],
        497,
        &[],
        &[0x4030, 0],
        &[(0, LO, 10), (0, HI, 16), (0, CODE, 1026)],
    ),
    (
        &[0x3C00],
        &[0x3E0E],
        494,
        &[0x3C00],
        &[0x3E01],
        &[(0, LO, 10), (0, HI, 16)],
    ),
    (
        &[0x3C00],
        &[0x3E0D],
        495,
        &[0x3C00],
        &[0x4030, 0],
        &[(0, LO, 10), (0, HI, 16), (0, CODE, 1024)],
    ),
];

#[test]
fn a_jump_back_is_one_word_down_to_512(rt: HostRuntime) {
    for row in &BACK {
        assert_eq!(rt; of_back(rt.alloc(), row), Answer::AsExpected);
    }
}

/// Jumps to the next place, and a last one to itself.
fn jumps(alloc: Global, count: usize) -> Result<Vec<u16>, AllocError> {
    let mut words = Vec::new(alloc);
    for _ in 0..count {
        words.push(0x3C00)?;
    }
    words.push(0x3FFF)?;
    Ok(words)
}

/// 8,192 jumps have 16,384 words as branches, and 8,192 as they stand.
#[test]
fn the_final_layout_alone_is_counted(rt: HostRuntime) {
    let alloc = rt.alloc();
    let answer = match jumps(alloc, 8191) {
        Ok(words) => inserted_in(alloc, 2, &code(&words, &[]), &code(&words, &[])),
        Err(_) => Answer::NoObject,
    };
    assert_eq!(rt; answer, Answer::AsExpected);
}

/// So many groups of four stores, moves, and a jump to itself.
fn fours(alloc: Global, groups: usize, moves: usize) -> Result<Vec<u16>, AllocError> {
    let mut front = Vec::new(alloc);
    for _ in 0..groups {
        front.extend_from_slice(&[0x4786, 0, 0x4786, 2, 0x4786, 4, 0x4786, 6])?;
    }
    spaced(alloc, &front, moves, &[0x3FFF])
}

/// What becomes of them: nothing but the size is looked at.
fn of_fours(alloc: Global, groups: usize, moves: usize) -> Answer {
    match fours(alloc, groups, moves) {
        Ok(words) => inserted_in(alloc, 2, &code(&words, &[]), &code(&[], &[])),
        Err(_) => Answer::NoObject,
    }
}

/// A group of four has 21 words: 390 have 8,190, so that two more words fit. A group that doesn't is named by its first store.
#[test]
fn the_group_that_passes_the_most_words_is_named_by_its_first(rt: HostRuntime) {
    let alloc = rt.alloc();
    assert_eq!(rt; of_fours(alloc, 390, 1), Answer::OtherCode);
    assert_eq!(rt;
        of_fours(alloc, 390, 2),
        Answer::Fault(InsertKind::TooLarge, 6244)
    );
    assert_eq!(rt;
        of_fours(alloc, 391, 0),
        Answer::Fault(InsertKind::TooLarge, 6240)
    );
}
