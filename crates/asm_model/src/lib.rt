//! What a source text in assembly language stands for: the object, or the first fault with its line.
//!
//! The types here are shared by the definitions of `specs/` and by the assembler. The definitions go
//! from the text up: its lines, a line's parts, numbers and names, expressions, operands, mnemonics and
//! their instructions, directives, the first pass, which says what each line adds to a draft, the
//! second pass, which gives a draft's pieces their words where all names are known, and
//! `assembled` (`specs/Assembled.antt`), the whole. `laws` has what holds of them.
#![tactic(auto)]

pub mod expression;
pub mod fault;
pub mod laws;
pub mod mnemonic;
pub mod name;
pub mod operand;
pub mod piece;
pub mod progress;
