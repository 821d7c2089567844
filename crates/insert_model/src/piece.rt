//! What units are made of.

use code_model::parts::RelKind;
use msp_encode::instr::Instr;

/// An instruction of a unit, with the relocations of its source's and its destination's word. A word that isn't there has
/// none.
#[derive(Clone, Copy, PartialEq, Eq, Debug, Drop)]
pub struct Piece {
    pub instr: Instr,
    pub source: Option<RelKind>,
    pub destination: Option<RelKind>,
}

/// A code word with its relocation.
#[derive(Clone, Copy, PartialEq, Eq, Debug, Drop)]
pub struct Word {
    pub value: u16,
    pub kind: Option<RelKind>,
}
