//! What an MSP430 instruction does to memory, to the sixteen registers and to the list of written bytes, as definitions
//! (SLAU049, CPU chapter, "Addressing Modes" and "Instruction Set"). They know no regions, domains or kernel.
//!
//! `specs/Does.antt` has `does m r i n`, the effect of the instruction `i` of `n` words. `writes` has the list of the bytes that a
//! step wrote, as records and the machine hold it.
#![tactic(auto)]

pub mod laws;
pub mod place;
pub mod writes;
