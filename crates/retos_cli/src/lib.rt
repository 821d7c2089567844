//! The top call `retos`: words, inputs, commands, messages and statuses.
//!
//! `top` has the call, with a clause for each promise; `specs/Clauses.antt` has their words, `specs/Meaning.antt` what is refused
//! and what is printed, `specs/Commands.antt` what words are a command.
#![tactic(auto)]

pub mod assembling;
pub mod checking;
pub mod command;
pub mod counted;
pub mod generating;
pub mod input;
pub mod inserting;
pub mod laws;
pub mod lines;
pub mod outcome;
pub mod parse;
pub mod purpose;
pub mod report;
pub mod running;
pub mod top;
pub mod writing;

pub use read_script::read_script;
