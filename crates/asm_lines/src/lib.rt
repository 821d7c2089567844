//! The grammar of a line: what its bytes say, with the names that are defined so far.
//!
//! It stands on `asm_model`, whose definitions say what each part of a line stands for; a function here computes one of them and
//! says so in its contract. Nothing here knows the lines before, but for a `Names`, the list of the names that they defined.
//!
//! The two passes of `msp_asm` call it for the lines of a text and the parts of a line (`text`), for what a word is (`keyword` of
//! `keywords`, `numeral` of `numbers`, `taken` of `names`), for the instruction of a mnemonic and its operands (`instruction` of
//! `instructions`, which gives `instruction_of`), for an operand of static data (`address` of `operands`) and for what `.app`,
//! `.module` and `.equ` declare (`declarations`).
//!
//! From the bottom up: `bytes` (classes of bytes), `text`, `numbers`, `names` (with the map of those that are defined),
//! `expressions`, `operands`, `keywords` (mnemonics and directives), `instructions` (what a mnemonic's operands give) and
//! `declarations`.
#![tactic(auto)]

pub mod bytes;
pub mod declarations;
mod expressions;
pub mod instructions;
pub mod keywords;
pub mod names;
pub mod numbers;
pub mod operands;
pub mod text;
