//! The assembler: the object of a source text, or exactly its first fault with its line.
//!
//! `assemble` is the one call of the layers above. Its contract is `GivesObject` of
//! `asm_model/specs/Assembled.antt`, whose definitions say what a text stands for; each function here
//! computes one of them and says so in its contract. An object always meets its form, by a law of `asm_model`.
//!
//! It stands on `asm_lines`, the grammar of a line, and goes over a source in two passes. From the bottom up: `drafts` (what the
//! first pass collects), `directives`, `static_data`, `first_pass` (a line), `words` and `built` (operand words and the parts of an
//! object), `second_pass` (a piece) and `assembling` (both passes over a source).
#![tactic(auto)]

pub mod assembling;
mod built;
mod directives;
mod drafts;
mod first_pass;
mod second_pass;
mod static_data;
mod words;

pub use asm_model::fault::{AsmFault, AsmKind};
pub use assembling::assemble;
