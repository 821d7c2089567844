//! What an MSP430 instruction does (SLAU049, CPU chapter, "Addressing Modes" and "Instruction Set"), run on a memory and sixteen
//! registers. It knows no regions, no kernel and no interrupts.
//!
//! It stands on `flat_mem` for memory, `msp_encode` for instructions, `msp_decode` for reading them and `machine_model` for what
//! they mean. The layer above uses `exec` of `exec.rt`, which leaves the memory and the registers and gives the written bytes of
//! `does`, of `machine_model`'s specs/Does.antt, and `fetch` of `fetch.rt`, which gives the instruction that stands at an address.
#![tactic(auto)]

mod arithmetic;
mod decimal;
pub mod exec;
pub mod fetch;
mod operand;
pub mod regs;
mod write_back;

pub use machine_model::writes::Writes;
pub use regs::Regs;
