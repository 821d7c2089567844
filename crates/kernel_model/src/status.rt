//! The bits of the status register that the kernel and the acceptance of interrupts name (SLAU049, CPU chapter, "Status Register
//! (SR)").

/// GIE, general interrupt enable: where it is set, interrupts are accepted.
pub const GIE: u16 = 0x0008;

/// SCG0, system clock generator 0: the one bit that the acceptance of an interrupt keeps.
pub const SCG0: u16 = 0x0040;
