//! What the first pass leaves to the second.

use super::expression::Base;
use super::name::Name;
use msp_encode::instr::{Cond, Instr};

/// A part of the object whose names aren't known yet.
#[derive(Clone, Copy, Drop)]
pub enum Piece {
    /// An instruction, with what the words of its source and of its destination are added to.
    Operation {
        instr: Instr,
        source: Base,
        destination: Base,
    },
    /// A jump to a code label.
    Jump {
        cond: Cond,
        target: Name,
    },
    /// An initialised word, and what it is added to.
    Word {
        base: Base,
        word: u16,
    },
    /// An initialised byte.
    Byte(u8),
    /// The application's entry.
    Entry(Name),
    /// A function that the module exports.
    Export {
        number: u8,
        label: Name,
    },
}

/// A piece and the number of its line, counted from 1.
#[derive(Clone, Copy, Drop)]
pub struct Placed {
    pub line: u32,
    pub piece: Piece,
}

/// The unit of static data that a directive gives.
#[derive(Clone, Copy, Drop)]
pub enum DataUnit {
    /// Two bytes, the low one first.
    Word,
    Byte,
}

/// A unit of static data.
#[derive(Clone, Copy, Drop)]
pub struct Datum {
    pub piece: Piece,
    /// Whether the number in it is in its range.
    pub fits: bool,
}
