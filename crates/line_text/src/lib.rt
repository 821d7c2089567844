//! Lines of text in a fixed buffer: pieces of text, decimal numbers and hexadecimal words, without memory.
//!
//! The crates above print each message and each line of a trace from a `Line`, whose contracts see the list of its bytes.
#![tactic(auto)]

pub mod line;
