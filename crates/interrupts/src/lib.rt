//! Interrupt lines: which of them are pending, and what the machine does when it accepts one (SLAU049, "System Resets,
//! Interrupts, and Operating Modes", "Interrupt Acceptance"). It knows no threads and no kernel.
//!
//! It stands on `flat_mem` for memory, `machine_model` for what an acceptance is and `msp_machine` for registers and written
//! bytes. The layer above uses `Lines` of `lines.rt`, a set of lines that is kept in a word, and of `acceptance.rt` `are_allowed`,
//! which tells whether SR lets one be accepted, and `accept`, which leaves the memory and the registers and gives the written
//! bytes of `accepted`, of `machine_model`'s specs/Accepting.antt. `laws.rt` says which words keep such sets.
#![tactic(auto)]

pub mod acceptance;
pub mod laws;
pub mod lines;

pub use acceptance::{accept, are_allowed};
pub use lines::Lines;
