//! Texts of worked objects, and what is wrong with damaged ones.

use code_model::object::Object;
use code_model::parts::Kind;
use object_form::fault::{FormFault, FormKind};
use object_form::reading::read_object;
use object_form::writing::write_object;
use std::alloc::Global;
use std::test::*;

/// An application of one jump to itself.
const SELF_JUMP: [u8; 22] = [
    0x52, 0x45, 0x54, 0x4F, 1, 1, 1, 0, 0, 0, 0, 0, 0x10, 0, 1, 0, 0, 0, 0, 0, 0xFF, 0x3F,
];

/// An application that stores at the end of its region behind a store guard, with three relocations.
const GUARDED: [u8; 68] = [
    0x52, 0x45, 0x54, 0x4F, 1, 1, 18, 0, 0, 0, 0, 0, 0x10, 0, 1, 0, 0, 0, 3, 0, 0x36, 0x40, 0, 0,
    0x05, 0x42, 0x04, 0x46, 0x34, 0x50, 0, 0, 0x34, 0x90, 0, 0, 0x03, 0x28, 0x34, 0x90, 0, 0, 0x02,
    0x28, 0x30, 0x40, 0x00, 0xF0, 0x02, 0x45, 0x84, 0x43, 0, 0, 0xFF, 0x3F, 0, 4, 2, 0, 0, 3, 0x0E,
    0, 0, 4, 0x14, 0,
];

/// A module of one jump to itself, with two exports.
const MODULE: [u8; 30] = [
    0x52, 0x45, 0x54, 0x4F, 1, 2, 1, 0, 0, 0, 2, 0, 0, 0, 0, 2, 0, 0, 0, 0, 0xFF, 0x3F, 3, 0, 0, 0,
    9, 0, 0, 0,
];

/// An application of one jump to itself, with two initialised bytes that are a code address.
const ADDRESS: [u8; 28] = [
    0x52, 0x45, 0x54, 0x4F, 1, 1, 1, 0, 2, 0, 4, 0, 0x10, 0, 1, 0, 0, 0, 1, 0, 0xFF, 0x3F, 0, 0, 1,
    1, 0, 0,
];

/// The same of version 2.
const SELF_JUMP_2: [u8; 22] = [
    0x52, 0x45, 0x54, 0x4F, 2, 1, 1, 0, 0, 0, 0, 0, 0x10, 0, 1, 0, 0, 0, 0, 0, 0xFF, 0x3F,
];

/// Whether a text is read and written again as it was.
fn comes_back(alloc: Global, text: &[u8]) -> bool {
    match read_object(alloc, text) {
        Err(_) => false,
        Ok(o) => match write_object(alloc, &o) {
            Err(_) => false,
            Ok(bytes) => bytes.as_slice() == text,
        },
    }
}

/// Whether a text has this fault.
fn has_fault(alloc: Global, text: &[u8], kind: FormKind, offset: u32) -> bool {
    match read_object(alloc, text) {
        Err(fault) => fault == FormFault::At { kind, offset },
        Ok(_) => false,
    }
}

#[test]
fn objects_come_back(rt: HostRuntime) {
    assert!(rt; comes_back(rt.alloc(), &SELF_JUMP));
    assert!(rt; comes_back(rt.alloc(), &GUARDED));
    assert!(rt; comes_back(rt.alloc(), &MODULE));
    assert!(rt; comes_back(rt.alloc(), &ADDRESS));
    assert!(rt; comes_back(rt.alloc(), &SELF_JUMP_2));
}

#[test]
fn numbers_are_read(rt: HostRuntime) -> Result<(), Fail> {
    let o: Object = read_object(rt.alloc(), &GUARDED)
        .ok()
        .ok_or("the text is an object's")?;
    assert!(rt; o.kind == Kind::App);
    assert_eq!(rt; (o.version, o.threads), (1, 1));
    assert_eq!(rt; (o.stack, o.zeroed, o.entry), (16, 0, 0));
    assert_eq!(rt;
        (o.code.len(), o.init.len(), o.relocs.len(), o.exports.len()),
        (18, 0, 3, 0)
    );
    assert_eq!(rt; o.code.get(17), Some(0x3FFF));
    Ok(())
}

#[test]
fn the_static_part_is_even(rt: HostRuntime) -> Result<(), Fail> {
    for (low, high, want) in [
        (0, 0, 2),
        (1, 0, 4),
        (4, 0, 6),
        (5, 0, 8),
        (0xFD, 0x3F, 16384),
        (0xFE, 0x3F, 16384),
    ] {
        let mut text = ADDRESS;
        text[10] = low;
        text[11] = high;
        let o: Object = read_object(rt.alloc(), &text)
            .ok()
            .ok_or("the text is an object's")?;
        assert_eq!(rt; o.static_bytes(), want, "{low} and {high} zeroed");
    }
    Ok(())
}

#[test]
fn a_text_cut_is_short(rt: HostRuntime) {
    for n in 0..68 {
        assert!(rt;
            has_fault(rt.alloc(), &GUARDED[..n], FormKind::Short, n as u32),
            "cut to {n}"
        );
    }
}

/// One byte of the guarded store changed, and the fault that it then has.
const DAMAGED: [(usize, u8, FormKind, u32); 13] = [
    (0, 0x53, FormKind::Magic, 0),
    (4, 0, FormKind::Version, 4),
    (4, 3, FormKind::Version, 4),
    (5, 3, FormKind::Kind, 5),
    (12, 0x0F, FormKind::Limit, 12),
    (14, 5, FormKind::Limit, 14),
    (16, 1, FormKind::Place, 16),
    (18, 4, FormKind::Short, 68),
    (18, 2, FormKind::Trailing, 64),
    (56, 2, FormKind::Place, 56),
    (57, 0, FormKind::Kind, 57),
    (58, 3, FormKind::Place, 58),
    (62, 2, FormKind::Order, 62),
];

#[test]
fn one_byte_changed_is_named(rt: HostRuntime) {
    for (byte, value, kind, offset) in DAMAGED {
        let mut text = GUARDED;
        if byte < 68 {
            text[byte] = value;
        }
        assert!(rt;
            has_fault(rt.alloc(), &text, kind, offset),
            "byte {byte} as {value}"
        );
    }
}

/// One byte of the module changed, and the fault that it then has.
const DAMAGED_MODULE: [(usize, u8, FormKind, u32); 10] = [
    (6, 0, FormKind::Limit, 6),
    (9, 0x80, FormKind::Limit, 8),
    (11, 0x40, FormKind::Limit, 10),
    (12, 0x10, FormKind::Limit, 12),
    (15, 0, FormKind::Limit, 15),
    (16, 2, FormKind::Place, 16),
    (22, 0x40, FormKind::Limit, 22),
    (26, 3, FormKind::Order, 26),
    (27, 1, FormKind::Place, 27),
    (28, 2, FormKind::Place, 28),
];

#[test]
fn a_module_damaged_is_named(rt: HostRuntime) {
    for (byte, value, kind, offset) in DAMAGED_MODULE {
        let mut text = MODULE;
        if byte < 30 {
            text[byte] = value;
        }
        assert!(rt;
            has_fault(rt.alloc(), &text, kind, offset),
            "byte {byte} as {value}"
        );
    }
}

#[test]
fn ends_are_named(rt: HostRuntime) {
    let mut longer = [0; 69];
    for (k, byte) in GUARDED.iter().enumerate() {
        longer[k] = *byte;
    }
    assert!(rt; has_fault(rt.alloc(), &longer, FormKind::Trailing, 68));
    assert!(rt; has_fault(rt.alloc(), &[], FormKind::Short, 0));
}

#[test]
fn a_fault_is_printed(rt: HostRuntime) -> Result<(), Fail> {
    let fault = FormFault::At {
        kind: FormKind::Short,
        offset: 68,
    };
    let line = format!(in rt.alloc(); "{fault}")?;
    assert_eq!(rt; line.as_str(), "form short at 68");
    Ok(())
}
