//! The decoder: from the words at a place to the instruction that they spell (SLAU049, CPU chapter).
//!
//! It stands on `msp_encode`, whose definition of spelling says which words spell which instruction.
//! The layers above call `decode`: `specs/Reading.antt` says where each of its answers comes, and no
//! other answer than the one given could come there. `specs/At.antt` has the words for a list of
//! words, `specs/Laws.antt` the laws of the spelling, which a caller has by calling `laws`, and
//! `specs/Function.antt` the reading of three words as a function, for definitions of what runs.
#![tactic(auto)]

mod fields;
mod instruction;
pub mod laws;
mod operand;
mod operation;
pub mod reading;
mod words;

pub use reading::NoInstr;
pub use words::decode;
