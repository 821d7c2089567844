//! The generator: the source object of a number.
//!
//! `generate` is the one call of the layers above: its object's fields are `generated n` of `gen_model/specs/Generated.antt`.
//! From the bottom up: `draws` (the numbers that are drawn), `choosing` (the block of three draws), `source` (the code so
//! far and its relocations) and `generating` (all blocks, and the object).
#![tactic(auto)]

mod choosing;
mod draws;
pub mod generating;
mod source;

pub use generating::generate;
