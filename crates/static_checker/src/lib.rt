//! The checker: which objects are accepted, with the marks of their unit starts, and which are refused, by which rule and where.
//!
//! It stands on the decoder (`msp_decode`) and on `code_model`, which has objects and the definitions that say what starts,
//! guards, unit starts, the fourteen rules and the verdict are. The layers above call `check`: its answer is the
//! verdict, no other answer is, and in an accepted object each dangerous instruction is guarded. `code_laws` has what
//! follows for accepted objects.
//!
//! The checker goes over the code twice, each time forward. The first pass (`pass`) goes from unit to unit: it tells guards
//! with what they guard from other instructions (`code_units`), marks the unit starts, and keeps the first refusal by the
//! rules that an instruction and what stands before it decide (`local`). The second (`landing`) goes over the jumps, branches
//! and calls that the first marked, the entry and the exports. `verdict` takes the lesser of the two refusals. No memory is
//! taken, a word is looked at a bounded number of times, and relocations are read along the pass (`cursor`), which goes on
//! at a guard that breaks off with its second instruction.
//!
//! Public beside `check` are questions that other crates ask of instructions too: which of their words may have a relocation
//! (`operand_words`), what stands at a place (`spot`), and marks by places (`marking`).
#![tactic(auto)]

mod code_units;
mod cursor;
mod guards;
mod landing;
mod local;
pub mod marking;
mod named;
pub mod operand_words;
mod pass;
mod refusal;
mod registers;
mod rules;
mod slots;
pub mod spot;
mod stores;
mod targets;
mod verdict;

pub use code_model::marks::Marks;
pub use code_model::verdict::Verdict;
pub use verdict::check;
