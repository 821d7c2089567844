//! Load guards: which loads they serve.
//!
//! In each row the guard stands first, with its 13 words, then what it guards and `JMP` to itself. Where it serves nothing it is
//! none, and its `MOV R5,SR`, at offset 24, is refused by rule 5. There are two bytes of static data.

use super::Answer;
use super::units::{STAYS, Source, said_of};
use object_parts::parts::{CODE, DATA};
use std::alloc::{AllocError, Global};
use std::process::Abort;
use std::test::*;

const NO_GUARD: Answer = Answer::Refused(5, 24);

/// The register that the guard tests, what it adds to it with a relocation or none, the guarded instruction's words, of which the
/// last may have a relocation, and what is said of it with version 2.
#[derive(Clone, Copy, Drop)]
struct Row {
    register: u16,
    added: (u16, Option<u8>),
    load: &'static [u16],
    reloc: Option<u8>,
    answer: Answer,
}

/// A row of the guard of R6 that adds 0.
const fn plain(load: &'static [u16], reloc: Option<u8>, answer: Answer) -> Row {
    added((0, None), load, reloc, answer)
}

/// A row of the guard of R6.
const fn added(
    added: (u16, Option<u8>),
    load: &'static [u16],
    reloc: Option<u8>,
    answer: Answer,
) -> Row {
    Row {
        register: 6,
        added,
        load,
        reloc,
        answer,
    }
}

/// A row of the guard of a register that adds 0.
const fn of_register(register: u16, load: &'static [u16], answer: Answer) -> Row {
    Row {
        register,
        added: (0, None),
        load,
        reloc: None,
        answer,
    }
}

fn row_source(alloc: Global, version: u8, row: Row) -> Result<Source, AllocError> {
    let mut source = Source::new(alloc, version);
    source.region_guard(row.register, row.added, 0)?;
    for (index, word) in row.load.iter().enumerate() {
        let is_last = usize::saturating_add(index, 1) == row.load.len();
        source.word_with(*word, if is_last { row.reloc } else { None })?;
    }
    source.word(STAYS)?;
    Ok(source)
}

fn all_said(rt: &impl Abort, alloc: Global, rows: &[Row]) {
    for (index, row) in rows.iter().enumerate() {
        assert_eq!(rt;
            said_of(alloc, row_source(alloc, 2, *row)),
            row.answer,
            "row {index}"
        );
        // version 1 has no load guard
        assert_eq!(rt;
            said_of(alloc, row_source(alloc, 1, *row)),
            NO_GUARD,
            "row {index}"
        );
    }
}

#[test]
fn a_load_guard_serves_one_load_of_its_address(rt: HostRuntime) {
    all_said(
        &rt,
        rt.alloc(),
        &[
            // `MOV @R4,R7`, `MOV.B @R4,R7`, `ADD @R4,R7` and `CMP @R4,R7`
            plain(&[0x4427], None, Answer::Units(2)),
            plain(&[0x4467], None, Answer::Units(2)),
            plain(&[0x5427], None, Answer::Units(2)),
            plain(&[0x9427], None, Answer::Units(2)),
            // what the guard adds is any word
            added((4, None), &[0x4427], None, Answer::Units(2)),
            added((0, Some(DATA)), &[0x4427], None, Answer::Units(2)),
            added((4, Some(CODE)), &[0x4427], None, Answer::Units(2)),
            // a second load is a unit of its own
            plain(&[0x4427, 0x4428], None, Answer::Units(3)),
            // `MOV @R4,&0` and `MOV @R4,&2`: the address is DATA, below 2
            plain(&[0x44A2, 0], Some(DATA), Answer::Units(2)),
            plain(&[0x44A2, 1], Some(DATA), Answer::Units(2)),
            plain(&[0x44A2, 2], Some(DATA), NO_GUARD),
            plain(&[0x44A2, 0], None, NO_GUARD),
            // `MOV @R4,PC`, `MOV @R4,SP` and `MOV @R4,SR` have the guard, and are refused by their own rules
            plain(&[0x4420], None, Answer::Refused(3, 26)),
            plain(&[0x4421], None, Answer::Refused(4, 26)),
            plain(&[0x4422], None, Answer::Refused(5, 26)),
            // `MOV @R6,R7`, `MOV R4,R7`, `MOV 0(R4),R7` and `PUSH @R4`
            plain(&[0x4627], None, NO_GUARD),
            plain(&[0x4407], None, NO_GUARD),
            plain(&[0x4417, 0], None, NO_GUARD),
            plain(&[0x1224], None, NO_GUARD),
        ],
    );
}

#[test]
fn a_load_guard_serves_a_test_of_its_address(rt: HostRuntime) {
    all_said(
        &rt,
        rt.alloc(),
        &[
            // `CMP R7,0(R4)`, `CMP.B R7,0(R4)`, `BIT R7,0(R4)` and `CMP #5,0(R4)`
            plain(&[0x9784, 0], None, Answer::Units(2)),
            plain(&[0x97C4, 0], None, Answer::Units(2)),
            plain(&[0xB784, 0], None, Answer::Units(2)),
            plain(&[0x90B4, 5, 0], None, Answer::Units(2)),
            // what the guard adds is any word
            added((4, None), &[0x9784, 0], None, Answer::Units(2)),
            added((4, Some(DATA)), &[0x9784, 0], None, Answer::Units(2)),
            // the index is 0 and not relocated, and the register R4
            plain(&[0x9784, 2], None, NO_GUARD),
            plain(&[0x9784, 0], Some(DATA), NO_GUARD),
            plain(&[0x9786, 0], None, NO_GUARD),
            // `CMP @R4+,0(R4)` and `CMP @SP+,0(R4)`
            plain(&[0x94B4, 0], None, NO_GUARD),
            plain(&[0x91B4, 0], None, NO_GUARD),
        ],
    );
}

#[test]
fn a_load_guard_serves_a_load_that_goes_on_behind_its_address(rt: HostRuntime) {
    all_said(
        &rt,
        rt.alloc(),
        &[
            // `MOV @R6+,R7`, `MOV.B @R6+,R7`, `CMP @R6+,R7` and `MOV @R6+,&0`
            plain(&[0x4637], None, Answer::Units(2)),
            plain(&[0x4677], None, Answer::Units(2)),
            plain(&[0x9637], None, Answer::Units(2)),
            plain(&[0x46B2, 0], Some(DATA), Answer::Units(2)),
            plain(&[0x46B2, 2], Some(DATA), NO_GUARD),
            // what the guard adds is 0, and not relocated
            added((2, None), &[0x4637], None, NO_GUARD),
            added((0, Some(DATA)), &[0x4637], None, NO_GUARD),
            // the register is that of the guard, and one of R6 to R15
            plain(&[0x4738], None, NO_GUARD),
            of_register(15, &[0x4F37], Answer::Units(2)),
            of_register(7, &[0x4637], NO_GUARD),
            of_register(5, &[0x4537], NO_GUARD),
            of_register(4, &[0x4437], NO_GUARD),
            of_register(1, &[0x4137], NO_GUARD),
            // `MOV @R4+,R7` behind the guard of R6, and `CMP @R6+,2(R4)`
            plain(&[0x4437], None, NO_GUARD),
            plain(&[0x96B4, 2], None, NO_GUARD),
        ],
    );
}

/// `MOV @R4,R7` behind its guard, and a jump to the guard, to the load and to itself.
static JUMPS: [(u16, Answer); 3] = [
    (0x3FF1, Answer::Units(2)),
    (0x3FFE, Answer::Refused(11, 28)),
    (0x3FFF, Answer::Units(2)),
];

fn jump_source(alloc: Global, jump: u16) -> Result<Source, AllocError> {
    let mut source = Source::new(alloc, 2);
    source.region_guard(6, (0, None), 0)?;
    source.words(&[0x4427, jump])?;
    Ok(source)
}

#[test]
fn no_guarded_load_is_jumped_to(rt: HostRuntime) {
    let alloc = rt.alloc();
    for (jump, answer) in JUMPS {
        assert_eq!(rt;
            said_of(alloc, jump_source(alloc, jump)),
            answer,
            "jump {jump}"
        );
    }
}
