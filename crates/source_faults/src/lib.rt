//! A source object, without guards, as its lines, and what is wrong with it first.
//!
//! `read_lines` reads the code once as lines (`source`), or names the word from which on it isn't spelled; `starts` marks where
//! lines begin; `first_fault` looks at each line, relocated byte and export (`forbidden`, `targets`), and gives the least offset
//! with a fault, and there the least kind. `insert_model` says what is wrong; the inserter is the layer above.
#![tactic(auto)]

pub mod faults;
mod forbidden;
mod forms;
pub mod source;
pub mod starts;
mod targets;
