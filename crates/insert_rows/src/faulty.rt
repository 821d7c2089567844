//! Source objects with a fault.

use crate::faults::Faulty;
use check_inserter::InsertKind;
use object_parts::parts::{CODE, DATA, HI, LO};

pub(crate) const UNDECODED: [Faulty; 3] = [
    (&[0x4303, 0x0000], &[], InsertKind::NotDecoded, 2),
    (&[0x4303, 0x4036], &[], InsertKind::NotDecoded, 2),
    // RETI before it doesn't count
    (&[0x1300, 0x0000], &[], InsertKind::NotDecoded, 2),
];

pub(crate) const CHECK_REGISTERS: [Faulty; 7] = [
    (&[0x4604, 0x3FFE], &[], InsertKind::UsesCheckRegister, 0),
    (&[0x4506, 0x3FFE], &[], InsertKind::UsesCheckRegister, 0),
    (
        &[0x4303, 0x4685, 0x0000, 0x3FFC],
        &[],
        InsertKind::UsesCheckRegister,
        2,
    ),
    (
        &[0x4417, 0x0000, 0x3FFD],
        &[],
        InsertKind::UsesCheckRegister,
        0,
    ),
    (&[0x4426, 0x3FFE], &[], InsertKind::UsesCheckRegister, 0),
    (&[0x1235, 0x3FFE], &[], InsertKind::UsesCheckRegister, 0),
    // CALL R4, with a jump to nowhere behind it
    (&[0x1284, 0x3FF0], &[], InsertKind::UsesCheckRegister, 0),
];

pub(crate) const FORBIDDEN: [Faulty; 27] = [
    (&[0x1300, 0x3FFE], &[], InsertKind::Forbidden, 0),
    // SR: BIC #8, MOV R6, BIS.B #1, BIS #0107 relocated
    (&[0xC232, 0x3FFE], &[], InsertKind::Forbidden, 0),
    (&[0x4602, 0x3FFE], &[], InsertKind::Forbidden, 0),
    (&[0xD352, 0x3FFE], &[], InsertKind::Forbidden, 0),
    (
        &[0xD032, 0x0107, 0x3FFD],
        &[(0, DATA, 2)],
        InsertKind::Forbidden,
        0,
    ),
    // PC: MOV.B R6, ADD R6, MOV PC,R6, PUSH PC, CMP R6,PC
    (&[0x4640, 0x3FFE], &[], InsertKind::Forbidden, 0),
    (&[0x5600, 0x3FFE], &[], InsertKind::Forbidden, 0),
    (&[0x4006, 0x3FFE], &[], InsertKind::Forbidden, 0),
    (&[0x1200, 0x3FFE], &[], InsertKind::Forbidden, 0),
    (&[0x9600, 0x3FFE], &[], InsertKind::Forbidden, 0),
    // symbolic operands
    (&[0x4016, 0x0000, 0x3FFD], &[], InsertKind::Forbidden, 0),
    (&[0x4680, 0x0000, 0x3FFD], &[], InsertKind::Forbidden, 0),
    (&[0x1210, 0x0000, 0x3FFD], &[], InsertKind::Forbidden, 0),
    // RRA SP, RRC SR, SXT PC, RRA @R6+
    (&[0x1101, 0x3FFE], &[], InsertKind::Forbidden, 0),
    (&[0x1002, 0x3FFE], &[], InsertKind::Forbidden, 0),
    (&[0x1180, 0x3FFE], &[], InsertKind::Forbidden, 0),
    (&[0x1136, 0x3FFE], &[], InsertKind::Forbidden, 0),
    // PUSH @SP+, CALL @SP+, ADD @SP+,SP, MOV @SP+,SR, MOV @SP+,&0, MOV @SP+,0(R6)
    (&[0x1231, 0x3FFE], &[], InsertKind::Forbidden, 0),
    (&[0x12B1, 0x3FFE], &[], InsertKind::Forbidden, 0),
    (&[0x5131, 0x3FFE], &[], InsertKind::Forbidden, 0),
    (&[0x4132, 0x3FFE], &[], InsertKind::Forbidden, 0),
    (
        &[0x41B2, 0x0000, 0x3FFD],
        &[(0, DATA, 2)],
        InsertKind::Forbidden,
        0,
    ),
    (&[0x41B6, 0x0000, 0x3FFD], &[], InsertKind::Forbidden, 0),
    // MOV @R6+,0(R6)
    (&[0x46B6, 0x0000, 0x3FFD], &[], InsertKind::Forbidden, 0),
    // a relocation of a first word, of an absolute word other than DATA, of an index
    (
        &[0x4303, 0x4303, 0x3FFD],
        &[(0, DATA, 2)],
        InsertKind::Forbidden,
        2,
    ),
    (
        &[0x4216, 0x0000, 0x3FFD],
        &[(0, LO, 2)],
        InsertKind::Forbidden,
        0,
    ),
    (
        &[0x4303, 0x4617, 0x0001, 0x3FFC],
        &[(0, CODE, 4)],
        InsertKind::Forbidden,
        2,
    ),
];

pub(crate) const BAD_TARGETS: [Faulty; 20] = [
    // JMP into an operand, before the code and behind it
    (&[0x4036, 0x0000, 0x3FFE], &[], InsertKind::BadTarget, 4),
    (&[0x4303, 0x3FFD], &[], InsertKind::BadTarget, 2),
    (&[0x4303, 0x3C00], &[], InsertKind::BadTarget, 2),
    // MOV #2,PC into its operand, MOV #0,PC without relocation and with another, to F004, to F006
    (
        &[0x4030, 0x0002, 0x3FFD],
        &[(0, CODE, 2)],
        InsertKind::BadTarget,
        0,
    ),
    (&[0x4030, 0x0000, 0x3FFD], &[], InsertKind::BadTarget, 0),
    (
        &[0x4030, 0x0000, 0x3FFD],
        &[(0, DATA, 2)],
        InsertKind::BadTarget,
        0,
    ),
    (&[0x4030, 0xF004, 0x3FFD], &[], InsertKind::BadTarget, 0),
    (&[0x4030, 0xF006, 0x3FFD], &[], InsertKind::BadTarget, 0),
    // an application doesn't return from a module
    (&[0x4030, 0xF026, 0x3FFD], &[], InsertKind::BadTarget, 0),
    // MOV #0,PC by the constant generator
    (&[0x4300, 0x3FFE], &[], InsertKind::BadTarget, 0),
    // CALL #2 into its operand, of no relocation, of F004, F006 and F025, and of F008 with a relocation
    (
        &[0x12B0, 0x0002, 0x3FFD],
        &[(0, CODE, 2)],
        InsertKind::BadTarget,
        0,
    ),
    (&[0x12B0, 0x0000, 0x3FFD], &[], InsertKind::BadTarget, 0),
    (&[0x12B0, 0xF004, 0x3FFD], &[], InsertKind::BadTarget, 0),
    (&[0x12B0, 0xF006, 0x3FFD], &[], InsertKind::BadTarget, 0),
    (&[0x12B0, 0xF025, 0x3FFD], &[], InsertKind::BadTarget, 0),
    (
        &[0x12B0, 0xF008, 0x3FFD],
        &[(0, HI, 2)],
        InsertKind::BadTarget,
        0,
    ),
    // MOV #1,R6 as a place of code
    (
        &[0x4303, 0x4036, 0x0001, 0x3FFC],
        &[(0, CODE, 4)],
        InsertKind::BadTarget,
        2,
    ),
    // the code ends with NOP, with JEQ and with CALL
    (&[0x4303, 0x4303], &[], InsertKind::BadTarget, 2),
    (&[0x4303, 0x27FE], &[], InsertKind::BadTarget, 2),
    (&[0x4303, 0x12B0, 0xF008], &[], InsertKind::BadTarget, 2),
];

pub(crate) const FIRST_FAULTS: [Faulty; 4] = [
    // a jump before the code, and then RETI
    (&[0x3FF0, 0x1300, 0x3FFD], &[], InsertKind::BadTarget, 0),
    // RETI, and then MOV R6,R4
    (&[0x1300, 0x4604, 0x3FFD], &[], InsertKind::Forbidden, 0),
    // MOV.B #2,PC as a place of code
    (
        &[0x4070, 0x0002, 0x3FFD],
        &[(0, CODE, 2)],
        InsertKind::Forbidden,
        0,
    ),
    // MOV R4,SR
    (&[0x4402, 0x3FFE], &[], InsertKind::UsesCheckRegister, 0),
];
