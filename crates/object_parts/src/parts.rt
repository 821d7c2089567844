//! Objects put together from their parts, by their texts.

use super::texts::{APP, Head, Lists, MODULE, text};
use code_model::object::Object;
use object_form::reading::read_object;
use std::alloc::Global;

/// The kinds of relocations, as an object's text has them.
pub const CODE: u8 = 1;

pub const DATA: u8 = 2;

pub const LO: u8 = 3;

pub const HI: u8 = 4;

/// An object's parts: of an application the entry and no exports, of a module exports.
#[derive(Clone, Copy, Drop)]
pub struct Parts<'a> {
    pub entry: u16,
    pub code: &'a [u16],
    /// The section, the kind and the offset of each relocation.
    pub relocs: &'a [(u8, u8, u16)],
    pub init: &'a [u8],
    pub exports: &'a [(u8, u16)],
}

/// The head of a text of a version, with two zeroed bytes. An application has one thread with a stack of 16 bytes.
fn head(version: u8, parts: &Parts) -> Head {
    if parts.exports.is_empty() {
        Head {
            version,
            kind: APP,
            zeroed: 2,
            stack: 16,
            threads: 1,
            entry: parts.entry,
        }
    } else {
        Head {
            version,
            kind: MODULE,
            zeroed: 2,
            stack: 0,
            threads: 0,
            entry: 0,
        }
    }
}

/// The object of a version of these parts. None where they are no object's, or there is no memory.
pub fn object_of(alloc: Global, version: u8, parts: &Parts) -> Option<Object> {
    let lists = Lists {
        code: parts.code,
        init: parts.init,
        relocs: parts.relocs,
        exports: parts.exports,
    };
    match text(alloc, &head(version, parts), &lists) {
        Ok(text) => read_object(alloc, &text).ok(),
        Err(_) => None,
    }
}

/// An application of code words and relocations of them alone, whose entry is its first word.
pub fn code<'a>(code: &'a [u16], relocs: &'a [(u8, u8, u16)]) -> Parts<'a> {
    Parts {
        entry: 0,
        code,
        relocs,
        init: &[],
        exports: &[],
    }
}
