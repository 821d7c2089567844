//! Wide guards: which stores they serve, how many, and where their stores may be jumped to.
//!
//! In each row the guard stands first, with its 13 words, and `JMP` to itself behind what it guards. Where it serves nothing it is
//! none, and its `MOV R5,SR`, at offset 24, is refused by rule 5.

use super::units::{STAYS, Source, said_of};
use super::{Answer, said_with};
use object_parts::parts::{DATA, HI, LO};
use std::alloc::{AllocError, Global};
use std::process::Abort;
use std::test::*;

const NO_GUARD: Answer = Answer::Refused(5, 24);

/// The word that the region's end is added to, the words behind the guard, and what is said of it with version 2.
#[derive(Clone, Copy, Drop)]
struct Row {
    high: u16,
    behind: &'static [u16],
    answer: Answer,
}

fn row_source(alloc: Global, version: u8, row: Row) -> Result<Source, AllocError> {
    let mut source = Source::new(alloc, version);
    source.region_guard(6, (0, None), row.high)?;
    source.words(row.behind)?;
    source.word(STAYS)?;
    Ok(source)
}

fn all_said(rt: &impl Abort, alloc: Global, rows: &[Row]) {
    for (index, row) in rows.iter().enumerate() {
        assert_eq!(rt;
            said_of(alloc, row_source(alloc, 2, *row)),
            row.answer,
            "row {index}"
        );
        // version 1 has the store guard alone
        if row.high != 0 {
            assert_eq!(rt;
                said_of(alloc, row_source(alloc, 1, *row)),
                NO_GUARD,
                "row {index}"
            );
        }
    }
}

/// From one store to five, `MOV #0,x(R4)` each.
static COUNTS: [Row; 8] = [
    Row {
        high: 0xFFFE,
        behind: &[0x4384, 0],
        answer: Answer::Units(2),
    },
    Row {
        high: 0xFFFE,
        behind: &[0x4384, 0, 0x4384, 2],
        answer: Answer::Units(2),
    },
    Row {
        high: 0xFFFC,
        behind: &[0x4384, 4, 0x4384, 2, 0x4384, 0],
        answer: Answer::Units(2),
    },
    Row {
        high: 0xFFFA,
        behind: &[0x4384, 0, 0x4384, 2, 0x4384, 4, 0x4384, 6],
        answer: Answer::Units(2),
    },
    // the fifth has no guard
    Row {
        high: 0xFFFA,
        behind: &[0x4384, 0, 0x4384, 2, 0x4384, 4, 0x4384, 6, 0x4384, 0],
        answer: Answer::Refused(6, 42),
    },
    // nor has one behind another instruction, here `NOP`, which is a unit of its own
    Row {
        high: 0xFFFE,
        behind: &[0x4384, 0, 0x4303],
        answer: Answer::Units(3),
    },
    Row {
        high: 0xFFFE,
        behind: &[0x4384, 0, 0x4303, 0x4384, 2],
        answer: Answer::Refused(6, 32),
    },
    // the store guard serves one
    Row {
        high: 0,
        behind: &[0x4384, 0, 0x4384, 0],
        answer: Answer::Refused(6, 30),
    },
];

#[test]
fn a_wide_guard_serves_up_to_four_stores(rt: HostRuntime) {
    all_said(&rt, rt.alloc(), &COUNTS);
}

/// The index of the first store, or of one behind `MOV #0,0(R4)`.
static INDEXES: [Row; 20] = [
    Row {
        high: 0xFFFE,
        behind: &[0x4384, 2],
        answer: Answer::Units(2),
    },
    Row {
        high: 0xFFFE,
        behind: &[0x4384, 4],
        answer: NO_GUARD,
    },
    Row {
        high: 0xFFFE,
        behind: &[0x4384, 1],
        answer: NO_GUARD,
    },
    Row {
        high: 0xFFFE,
        behind: &[0x4384, 0xFFFE],
        answer: NO_GUARD,
    },
    Row {
        high: 0xFFFE,
        behind: &[0x4384, 0, 0x4384, 4],
        answer: Answer::Refused(6, 30),
    },
    Row {
        high: 0xFFFE,
        behind: &[0x4384, 0, 0x4384, 1],
        answer: Answer::Refused(6, 30),
    },
    Row {
        high: 0xFFFC,
        behind: &[0x4384, 4],
        answer: Answer::Units(2),
    },
    Row {
        high: 0xFFFC,
        behind: &[0x4384, 6],
        answer: NO_GUARD,
    },
    Row {
        high: 0xFFFC,
        behind: &[0x4384, 3],
        answer: NO_GUARD,
    },
    Row {
        high: 0xFFFC,
        behind: &[0x4384, 0, 0x4384, 6],
        answer: Answer::Refused(6, 30),
    },
    Row {
        high: 0xFFFA,
        behind: &[0x4384, 6],
        answer: Answer::Units(2),
    },
    Row {
        high: 0xFFFA,
        behind: &[0x4384, 8],
        answer: NO_GUARD,
    },
    Row {
        high: 0xFFFA,
        behind: &[0x4384, 5],
        answer: NO_GUARD,
    },
    Row {
        high: 0xFFFA,
        behind: &[0x4384, 0, 0x4384, 8],
        answer: Answer::Refused(6, 30),
    },
    // the store guard serves index 0 alone, and no guard has another word
    Row {
        high: 0,
        behind: &[0x4384, 2],
        answer: NO_GUARD,
    },
    Row {
        high: 0xFFF8,
        behind: &[0x4384, 0],
        answer: NO_GUARD,
    },
    Row {
        high: 0xFFFF,
        behind: &[0x4384, 0],
        answer: NO_GUARD,
    },
    Row {
        high: 2,
        behind: &[0x4384, 0],
        answer: NO_GUARD,
    },
    // bytes: `MOV.B #0,x(R4)`
    Row {
        high: 0xFFFE,
        behind: &[0x43C4, 0, 0x43C4, 2],
        answer: Answer::Units(2),
    },
    Row {
        high: 0xFFFE,
        behind: &[0x43C4, 1],
        answer: NO_GUARD,
    },
];

#[test]
fn a_wide_guard_serves_even_indexes_up_to_its_own(rt: HostRuntime) {
    all_said(&rt, rt.alloc(), &INDEXES);
}

/// Other instructions than MOV with an immediate source.
static FORMS: [Row; 12] = [
    // `ADD R7,2(R4)`, `MOV @R7+,2(R4)`, `MOV 4(R7),2(R4)` and `XOR.B #0x80,0(R4)`
    Row {
        high: 0xFFFE,
        behind: &[0x5784, 2],
        answer: Answer::Units(2),
    },
    Row {
        high: 0xFFFE,
        behind: &[0x47B4, 2],
        answer: Answer::Units(2),
    },
    Row {
        high: 0xFFFE,
        behind: &[0x4794, 4, 2],
        answer: Answer::Units(2),
    },
    Row {
        high: 0xFFFE,
        behind: &[0xE0F4, 0x0080, 0],
        answer: Answer::Units(2),
    },
    // `CMP R7,2(R4)` and `BIT R7,2(R4)` write nothing: no guard serves them, and they need none
    Row {
        high: 0xFFFE,
        behind: &[0x9784, 2],
        answer: NO_GUARD,
    },
    Row {
        high: 0xFFFE,
        behind: &[0xB784, 2],
        answer: NO_GUARD,
    },
    Row {
        high: 0xFFFE,
        behind: &[0x4384, 0, 0x9784, 2],
        answer: Answer::Units(3),
    },
    // `RRC @R4`, `MOV #0,2(R6)`, `MOV @R4+,0(R4)` and `MOV @SP+,0(R4)`
    Row {
        high: 0xFFFE,
        behind: &[0x1024],
        answer: NO_GUARD,
    },
    Row {
        high: 0xFFFE,
        behind: &[0x4386, 2],
        answer: NO_GUARD,
    },
    Row {
        high: 0xFFFE,
        behind: &[0x44B4, 0],
        answer: NO_GUARD,
    },
    Row {
        high: 0xFFFE,
        behind: &[0x41B4, 0],
        answer: NO_GUARD,
    },
    Row {
        high: 0xFFFE,
        behind: &[0x4384, 0, 0x44B4, 2],
        answer: Answer::Refused(6, 30),
    },
];

#[test]
fn a_wide_guard_serves_two_operand_instructions_that_write(rt: HostRuntime) {
    all_said(&rt, rt.alloc(), &FORMS);
}

/// The wide guard with two stores, and a jump: the word of the jump, and what is said.
static JUMPS: [(u16, Answer); 4] = [
    // to the guard, to each store, and to itself
    (0x3FEE, Answer::Units(2)),
    (0x3FFB, Answer::Refused(11, 34)),
    (0x3FFD, Answer::Refused(11, 34)),
    (0x3FFF, Answer::Units(2)),
];

fn jump_source(alloc: Global, jump: u16) -> Result<Source, AllocError> {
    let mut source = Source::new(alloc, 2);
    source.region_guard(6, (0, None), 0xFFFE)?;
    source.words(&[0x4384, 0, 0x4384, 2, jump])?;
    Ok(source)
}

#[test]
fn no_guarded_store_is_jumped_to(rt: HostRuntime) {
    let alloc = rt.alloc();
    for (jump, answer) in JUMPS {
        assert_eq!(rt;
            said_of(alloc, jump_source(alloc, jump)),
            answer,
            "jump {jump}"
        );
    }
}

/// The wide guard with two stores, and a relocation on the word of an index: which of them, counted from 0.
fn relocated_source(alloc: Global, index: usize) -> Result<Source, AllocError> {
    let mut source = Source::new(alloc, 2);
    source.region_guard(6, (0, None), 0xFFFE)?;
    for (store, x) in [0, 2].iter().enumerate() {
        source.word(0x4384)?;
        source.word_with(*x, if store == index { Some(DATA) } else { None })?;
    }
    source.word(STAYS)?;
    Ok(source)
}

#[test]
fn no_guarded_store_has_a_relocated_index(rt: HostRuntime) {
    let alloc = rt.alloc();
    for (index, answer) in [
        (0, NO_GUARD),
        (1, Answer::Refused(6, 30)),
        (2, Answer::Units(2)),
    ] {
        assert_eq!(rt;
            said_of(alloc, relocated_source(alloc, index)),
            answer,
            "index {index}"
        );
    }
}

/// `MOV #HI-4,R6`, the wide guard with two stores, and `JMP` to itself.
static PAIR: [u16; 20] = [
    0x4036, 0xFFFC, 0x4205, 0x4604, 0x5034, 0x0000, 0x9034, 0x0000, 0x2803, 0x9034, 0xFFFE, 0x2802,
    0x4030, 0xF000, 0x4502, 0x4384, 0x0000, 0x4384, 0x0002, 0x3FFF,
];

const PAIR_RELOCS: [(u8, u8, u16); 3] = [(0, HI, 0x0002), (0, LO, 0x000E), (0, HI, 0x0014)];

#[test]
fn a_pair_of_stores_is_accepted_with_version_2_alone(rt: HostRuntime) {
    let alloc = rt.alloc();
    assert_eq!(rt;
        said_with(alloc, 2, 0, &PAIR, &PAIR_RELOCS),
        Answer::Units(3)
    );
    assert_eq!(rt;
        said_with(alloc, 1, 0, &PAIR, &PAIR_RELOCS),
        Answer::Refused(5, 0x001C)
    );
}
