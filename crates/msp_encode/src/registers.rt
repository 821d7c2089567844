//! The registers that have names, by their numbers.

/// PC, the program counter.
pub const PC: u8 = 0;

/// SP, the stack pointer.
pub const SP: u8 = 1;

/// SR, the status register.
pub const SR: u8 = 2;

/// The register that only generates constants, and always holds 0.
pub const CONSTANTS: u8 = 3;

/// R4, with what a guard checks: an address, or the new SP.
pub const CHECKED: u8 = 4;

/// R5, which keeps SR while a guard runs.
pub const KEPT_STATUS: u8 = 5;
