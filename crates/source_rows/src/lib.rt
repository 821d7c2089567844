//! Rows on sources: the words and the objects that they assemble to, and their first faults with their lines.
//!
//! Nothing but tests stands here. They call `assemble` of `msp_asm`, which isn't proved a second time for them. What is expected is
//! worked out by hand from the tables, or comes from outside of the program.
#![tactic(auto)]

#[cfg(test)]
mod assembler;
#[cfg(test)]
mod assembler_faults;
