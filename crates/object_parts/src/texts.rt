//! Texts of objects.

use std::alloc::{AllocError, Global};

/// The kinds of objects, as a text has them.
pub const APP: u8 = 1;

pub const MODULE: u8 = 2;

/// The numbers in the head of an object's text.
#[derive(Clone, Copy, Drop)]
pub struct Head {
    pub version: u8,
    pub kind: u8,
    pub zeroed: u16,
    pub stack: u16,
    pub threads: u8,
    pub entry: u16,
}

/// The lists behind the head of an object's text.
#[derive(Clone, Copy, Drop)]
pub struct Lists<'a> {
    pub code: &'a [u16],
    pub init: &'a [u8],
    /// The section, the kind and the offset of each relocation.
    pub relocs: &'a [(u8, u8, u16)],
    /// The number and the offset of each export.
    pub exports: &'a [(u8, u16)],
}

/// The text of an object. A length that is no number of the head is written as 0.
pub fn text(alloc: Global, head: &Head, lists: &Lists) -> Result<Vec<u8>, AllocError> {
    let mut text = Vec::new(alloc);
    push_head(&mut text, head, lists)?;
    for word in lists.code {
        push_word(&mut text, *word)?;
    }
    text.extend_from_slice(lists.init)?;
    push_relocs(&mut text, lists.relocs)?;
    push_exports(&mut text, lists.exports)?;
    Ok(text)
}

fn push_head(text: &mut Vec<u8>, head: &Head, lists: &Lists) -> Result<(), AllocError> {
    for byte in [0x52, 0x45, 0x54, 0x4F, head.version, head.kind] {
        text.push(byte)?;
    }
    push_count(text, lists.code.len())?;
    push_count(text, lists.init.len())?;
    push_word(text, head.zeroed)?;
    push_word(text, head.stack)?;
    text.push(head.threads)?;
    text.push(u8::try_from(lists.exports.len()).unwrap_or(0))?;
    push_word(text, head.entry)?;
    push_count(text, lists.relocs.len())
}

fn push_word(text: &mut Vec<u8>, word: u16) -> Result<(), AllocError> {
    text.push((word % 256) as u8)?;
    text.push((word / 256) as u8)?;
    Ok(())
}

fn push_count(text: &mut Vec<u8>, count: usize) -> Result<(), AllocError> {
    push_word(text, u16::try_from(count).unwrap_or(0))
}

fn push_relocs(text: &mut Vec<u8>, relocs: &[(u8, u8, u16)]) -> Result<(), AllocError> {
    for (section, kind, offset) in relocs {
        text.push(*section)?;
        text.push(*kind)?;
        push_word(text, *offset)?;
    }
    Ok(())
}

fn push_exports(text: &mut Vec<u8>, exports: &[(u8, u16)]) -> Result<(), AllocError> {
    for (number, offset) in exports {
        text.push(*number)?;
        text.push(0)?;
        push_word(text, *offset)?;
    }
    Ok(())
}
