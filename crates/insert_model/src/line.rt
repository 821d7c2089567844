//! Source instructions.

use code_model::parts::RelKind;
use msp_encode::instr::Instr;

/// A source instruction: its place, which is the number of its first word, and the relocations of its words. `second` and
/// `third` are empty where the instruction has no such word.
#[derive(Clone, Copy, PartialEq, Eq, Debug, Drop)]
pub struct Line {
    pub at: usize,
    pub instr: Instr,
    pub first: Option<RelKind>,
    pub second: Option<RelKind>,
    pub third: Option<RelKind>,
}
