//! The inserter: an object whose instructions have the guards that the checker asks for, made from one that has none.
//!
//! It stands on the decoder and the encoder, on objects as data (`code_model`), on what the checker asks of instructions
//! (`static_checker`) and on the definitions of `insert_model`, which say what the unit of each source instruction is, what
//! object the units make, and what is wrong with a source object. The layers above call `insert`: its answer is that object
//! or the first fault with its offset, and no other answer is. `laws` has that an object has one answer, for callers.
//!
//! The lines of the source and its first fault come from `source_faults`. The inserter lays the units of the lines one after
//! another and keeps where each source word's unit stands (`laying`), and then gives the words, the
//! relocations, the initialised bytes, the entry and the exports their new places (`moving`). In version 2 up to four stores
//! near each other are a group with one unit (`named`, `groups`, `group_units`), and the units are laid three times: with each
//! jump in its longest unit, whose places tell which jumps are one word (`jumps`), with a word for each of these, whose places
//! are the final ones, and with their offsets. It looks at each word a bounded number of times.
#![tactic(auto)]

mod cells;
mod group_units;
mod groups;
mod guards;
mod inserter;
mod jumps;
pub mod laws;
mod laying;
mod moving;
mod named;
mod operands;
mod units;
mod words;

pub use insert_model::fault::{InsertFault, InsertKind};
pub use inserter::insert;
