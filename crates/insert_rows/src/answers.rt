//! What becomes of a source object, beside what was expected.

use check_inserter::{InsertFault, InsertKind, insert};
use code_model::object::Object;
use code_model::parts::RelKind;
use object_parts::parts::{CODE, DATA, HI, LO, Parts, object_of};
use std::alloc::Global;

/// What became of a source object: it was none, it was given its guards as expected or otherwise, or it has a fault.
#[derive(Clone, Copy, PartialEq, Eq, Debug, Drop)]
pub(crate) enum Answer {
    NoObject,
    AsExpected,
    OtherCode,
    OtherRelocs,
    OtherData,
    OtherPlace,
    OtherVersion,
    Fault(InsertKind, u32),
}

/// What becomes of an object of version 1.
pub(crate) fn inserted(alloc: Global, source: &Parts, wanted: &Parts) -> Answer {
    inserted_in(alloc, 1, source, wanted)
}

/// What becomes of an object of a version.
pub(crate) fn inserted_in(alloc: Global, version: u8, source: &Parts, wanted: &Parts) -> Answer {
    match object_of(alloc, version, source) {
        Some(o) => inserted_of(alloc, &o, wanted),
        None => Answer::NoObject,
    }
}

fn inserted_of(alloc: Global, o: &Object, wanted: &Parts) -> Answer {
    match insert(alloc, o) {
        Ok(q) => {
            if q.version == o.version {
                compared(&q, wanted)
            } else {
                Answer::OtherVersion
            }
        }
        Err(InsertFault::At { kind, offset }) => Answer::Fault(kind, offset),
        Err(InsertFault::Memory) => Answer::NoObject,
    }
}

fn compared(q: &Object, wanted: &Parts) -> Answer {
    if q.code.as_slice() != wanted.code {
        return Answer::OtherCode;
    }
    if !same_relocs(q, wanted.relocs) {
        return Answer::OtherRelocs;
    }
    if q.init.as_slice() != wanted.init {
        return Answer::OtherData;
    }
    if q.entry != wanted.entry || !same_exports(q, wanted.exports) {
        return Answer::OtherPlace;
    }
    Answer::AsExpected
}

fn same_relocs(q: &Object, wanted: &[(u8, u8, u16)]) -> bool {
    if q.relocs.len() != wanted.len() {
        return false;
    }
    for (at, (section, kind, offset)) in wanted.iter().enumerate() {
        match q.relocs.get(at) {
            Some(r) => {
                if r.in_code != (*section == 0) || number(r.kind) != *kind || r.offset != *offset {
                    return false;
                }
            }
            None => return false,
        }
    }
    true
}

fn number(kind: RelKind) -> u8 {
    match kind {
        RelKind::Code => CODE,
        RelKind::Data => DATA,
        RelKind::Lo => LO,
        RelKind::Hi => HI,
    }
}

fn same_exports(q: &Object, wanted: &[(u8, u16)]) -> bool {
    if q.exports.len() != wanted.len() {
        return false;
    }
    for (at, (number, offset)) in wanted.iter().enumerate() {
        match q.exports.get(at) {
            Some(e) => {
                if e.number != *number || e.offset != *offset {
                    return false;
                }
            }
            None => return false,
        }
    }
    true
}
