//! The sixteen registers: PC is 0, SP 1, SR 2, and 3 generates constants.

ghost use Rattle.std.specs.Prelude.{◌≡◌, ◌<◌, replicate};
ghost use Rattle.machine_model.specs.Context.{IsContext, reg, set_reg};

use msp_encode::registers::CONSTANTS;
pub use msp_encode::registers::{CHECKED, PC, SP, SR};
use std::marker::Model;

/// Sixteen words, with bit 0 of PC and of SP clear and register 3 zero.
#[derive(Drop)]
pub struct Regs {
    words: [u16; 16],
}

impl Model for Regs {
    ghost use Rattle.std.specs.Prelude.{List, ℕ};
    ghost use Rattle.machine_model.specs.Context.{IsContext};

    ghost Value = { List ℕ };

    ghost view = { λ regs. regs.words };

    ghost invariant = { λ regs. IsContext regs.words };
}

impl Regs {
    /// All zero.
    pub fn new() -> Regs
        ensures { result ≡ replicate 16 0 }
    {
        Regs { words: [0; 16] }
    }

    /// The word in register `r`, 0 to 15.
    pub fn get(&self, r: u8) -> u16
        requires { r < 16 }
        ensures { result ≡ reg self.now r }
    {
        self.words[r as usize]
    }

    /// Puts a word into register `r`, 0 to 15. PC and SP take it with bit 0 cleared, and register 3 takes nothing.
    #[tactic(auto, unfolding(machine_model::specs::Context::set_reg))]
    pub fn set(&mut self, r: u8, value: u16)
        requires { r < 16 }
        ensures { self.new ≡ set_reg self.old r value }
    {
        if r < SR {
            self.words[r as usize] = value / 2 * 2;
        } else if r != CONSTANTS {
            self.words[r as usize] = value;
        }
    }

    /// What holds of all registers.
    pub fn is_context(&self)
        ensures { IsContext self.now }
    {
        let _ = &self.words;
    }
}
