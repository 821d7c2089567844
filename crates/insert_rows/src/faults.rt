//! Faults of small objects, and the unit that passes the most words.

use crate::answers::{Answer, inserted};
use crate::faulty::{BAD_TARGETS, CHECK_REGISTERS, FIRST_FAULTS, FORBIDDEN, UNDECODED};
use check_inserter::InsertKind;
use object_parts::parts::{CODE, Parts, code};
use std::alloc::{AllocError, Global};
use std::test::*;

/// Code words, relocations of them, the kind of their fault and its offset.
pub(crate) type Faulty = (&'static [u16], &'static [(u8, u8, u16)], InsertKind, u32);

/// Tells the place of the first case whose fault isn't as expected, and what its answer is.
fn first_other_fault(alloc: Global, cases: &[Faulty]) -> (usize, Answer) {
    let none = code(&[], &[]);
    for (at, (words, relocs, kind, offset)) in cases.iter().enumerate() {
        let answer = inserted(alloc, &code(words, relocs), &none);
        if answer != Answer::Fault(*kind, *offset) {
            return (at, answer);
        }
    }
    (cases.len(), Answer::AsExpected)
}

#[test]
fn each_fault_has_its_kind_and_offset(rt: HostRuntime) {
    let alloc = rt.alloc();
    assert_eq!(rt;
        first_other_fault(alloc, &UNDECODED),
        (3, Answer::AsExpected)
    );
    assert_eq!(rt;
        first_other_fault(alloc, &CHECK_REGISTERS),
        (7, Answer::AsExpected)
    );
    assert_eq!(rt;
        first_other_fault(alloc, &FORBIDDEN),
        (27, Answer::AsExpected)
    );
    assert_eq!(rt;
        first_other_fault(alloc, &BAD_TARGETS),
        (20, Answer::AsExpected)
    );
    assert_eq!(rt;
        first_other_fault(alloc, &FIRST_FAULTS),
        (4, Answer::AsExpected)
    );
}

#[test]
fn names_outside_of_code_have_faults_of_their_own(rt: HostRuntime) {
    let alloc = rt.alloc();
    let none = code(&[], &[]);
    // the entry is the operand of MOV #0x4303,R6, and RETI stands behind it
    let entry = Parts {
        entry: 2,
        code: &[0x4036, 0x4303, 0x1300, 0x3FFF],
        relocs: &[],
        init: &[],
        exports: &[],
    };
    assert_eq!(rt;
        inserted(alloc, &entry, &none),
        Answer::Fault(InsertKind::BadTarget, 2)
    );
    // the second word of static data names the operand
    let datum = Parts {
        entry: 0,
        code: &[0x4036, 0x4303, 0x3FFF],
        relocs: &[(1, CODE, 0), (1, CODE, 2)],
        init: &[4, 0, 2, 0],
        exports: &[],
    };
    assert_eq!(rt;
        inserted(alloc, &datum, &none),
        Answer::Fault(InsertKind::BadTarget, 8)
    );
    // of two exports in operands the one at the lesser offset
    let exports = Parts {
        entry: 0,
        code: &[0x4036, 0x4303, 0x4036, 0x4303, 0x3FFF],
        relocs: &[],
        init: &[],
        exports: &[(1, 6), (2, 2)],
    };
    assert_eq!(rt;
        inserted(alloc, &exports, &none),
        Answer::Fault(InsertKind::BadTarget, 2)
    );
}

/// An application that pushes so often, does nothing so often and goes back to its begin by PC.
fn pushes(alloc: Global, pushes: usize, nops: usize) -> Result<Vec<u16>, AllocError> {
    let mut code = Vec::new(alloc);
    for _ in 0..pushes {
        code.push(0x1206)?;
    }
    for _ in 0..nops {
        code.push(0x4303)?;
    }
    code.push(0x4030)?;
    code.push(0xF000)?;
    Ok(code)
}

/// What becomes of it: nothing but its size is looked at.
fn of_pushes(alloc: Global, count: usize, nops: usize) -> Answer {
    match pushes(alloc, count, nops) {
        Ok(words) => inserted(alloc, &code(&words, &[]), &code(&[], &[])),
        Err(_) => Answer::NoObject,
    }
}

#[test]
fn the_unit_that_passes_the_most_words_is_named(rt: HostRuntime) {
    let alloc = rt.alloc();
    // a push has 8 words, the branch 2: 8,184 + 6 + 2 words fit
    assert_eq!(rt; of_pushes(alloc, 1023, 6), Answer::OtherCode);
    assert_eq!(rt;
        of_pushes(alloc, 1023, 7),
        Answer::Fault(InsertKind::TooLarge, 2060)
    );
    assert_eq!(rt;
        of_pushes(alloc, 1024, 0),
        Answer::Fault(InsertKind::TooLarge, 2048)
    );
    assert_eq!(rt;
        of_pushes(alloc, 1100, 0),
        Answer::Fault(InsertKind::TooLarge, 2048)
    );
}
