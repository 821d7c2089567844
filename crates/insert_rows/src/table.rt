//! Units of small objects: each row of the table, and what moves with a unit.

use crate::answers::{Answer, inserted, inserted_in};
use crate::rows::{GUARDED_STORE, GUARDED_STORE_RELOCS, STACKS, STORE, STORES, TARGETS};
use check_inserter::InsertKind;
use object_parts::parts::{CODE, DATA, HI, LO, Parts, code};
use std::alloc::Global;
use std::test::*;

#[test]
fn a_store_gets_its_guard_and_a_guarded_one_is_no_source(rt: HostRuntime) {
    let alloc = rt.alloc();
    let guarded = code(&GUARDED_STORE, &GUARDED_STORE_RELOCS);
    assert_eq!(rt;
        inserted(alloc, &code(&STORE, &[]), &guarded),
        Answer::AsExpected
    );
    assert_eq!(rt;
        inserted(alloc, &guarded, &guarded),
        Answer::Fault(InsertKind::UsesCheckRegister, 0)
    );
}

/// A source instruction and its unit, each behind which a jump to the code's begin stands, with their relocations.
pub(crate) type Row = (
    &'static [u16],
    &'static [(u8, u8, u16)],
    &'static [u16],
    &'static [(u8, u8, u16)],
);

/// Tells what becomes of each row in a version, and the place of the first that isn't as expected.
pub(crate) fn first_other(alloc: Global, version: u8, rows: &[Row]) -> (usize, Answer) {
    for (at, (from, from_relocs, to, to_relocs)) in rows.iter().enumerate() {
        let source = code(from, from_relocs);
        let answer = inserted_in(alloc, version, &source, &code(to, to_relocs));
        if answer != Answer::AsExpected {
            return (at, answer);
        }
    }
    (rows.len(), Answer::AsExpected)
}

#[test]
fn each_row_of_the_table_has_its_unit(rt: HostRuntime) {
    let alloc = rt.alloc();
    assert_eq!(rt; first_other(alloc, 1, &STORES), (9, Answer::AsExpected));
    assert_eq!(rt; first_other(alloc, 1, &STACKS), (13, Answer::AsExpected));
    assert_eq!(rt; first_other(alloc, 1, &TARGETS), (12, Answer::AsExpected));
}

#[test]
fn what_is_named_moves_with_its_unit(rt: HostRuntime) {
    let alloc = rt.alloc();
    // a store at 0, JEQ at 4 to 6, MOV #4,R8 at 6, JMP at 10 to 6; the entry is 4, and a word of static data names 6
    let source = Parts {
        entry: 4,
        code: &[0x4786, 0x0000, 0x2400, 0x4038, 0x0004, 0x3FFD],
        relocs: &[(0, CODE, 8), (1, CODE, 0), (1, DATA, 2)],
        init: &[0x06, 0x00, 0x34, 0x12],
        exports: &[],
    };
    let wanted = Parts {
        entry: 0x001E,
        code: &[
            0x4205, 0x4604, 0x5034, 0x0000, 0x9034, 0x0000, 0x2803, 0x9034, 0x0000, 0x2802, 0x4030,
            0xF000, 0x4502, 0x4784, 0x0000, 0x2401, 0x3C02, 0x4030, 0x0026, 0x4038, 0x001E, 0x4030,
            0x0026,
        ],
        relocs: &[
            (0, LO, 10),
            (0, HI, 16),
            (0, CODE, 0x0024),
            (0, CODE, 0x0028),
            (0, CODE, 0x002C),
            (1, CODE, 0),
            (1, DATA, 2),
        ],
        init: &[0x26, 0x00, 0x34, 0x12],
        exports: &[],
    };
    assert_eq!(rt; inserted(alloc, &source, &wanted), Answer::AsExpected);
}

#[test]
fn exports_move_with_their_units(rt: HostRuntime) {
    let alloc = rt.alloc();
    // PUSH R6 and RET, exported
    let source = Parts {
        entry: 0,
        code: &[0x1206, 0x4130],
        relocs: &[],
        init: &[],
        exports: &[(5, 0), (9, 2)],
    };
    let wanted = Parts {
        entry: 0,
        code: &[
            0x4205, 0x9211, 0x0200, 0x2C02, 0x4030, 0xF002, 0x4502, 0x1206, 0x4205, 0x9182, 0x0202,
            0x2002, 0x4030, 0xF002, 0x4502, 0x4134, 0x4030, 0xF004,
        ],
        relocs: &[],
        init: &[],
        exports: &[(5, 0), (9, 16)],
    };
    assert_eq!(rt; inserted(alloc, &source, &wanted), Answer::AsExpected);
}
