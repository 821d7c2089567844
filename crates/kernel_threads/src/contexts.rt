//! Contexts: sixteen words, saved from the registers and taken by them.

ghost use Rattle.std.specs.Prelude.{◌≡◌, length};
ghost use Rattle.kernel_model.specs.Running.{new_context};
ghost use Rattle.kernel_threads.specs.Contexts.{taken};

use kernel_model::status::GIE;
use msp_machine::Regs;

/// How many registers there are.
const REGISTERS: usize = 16;

/// The registers, R0 to R15.
pub fn words_of(r: &Regs) -> [u16; 16]
    ensures value { result ≡ r.now }
    ensures size { length result ≡ 16 }
{
    r.is_context();
    let mut words = [0; REGISTERS];
    for n in 0..REGISTERS {
        words[n] = r.get(n as u8);
    }
    words
}

/// Puts sixteen words into the registers, R0 to R15.
pub fn take(r: &mut Regs, words: &[u16; 16])
    requires { length words.now ≡ 16 }
    ensures { r.new ≡ taken words.now }
{
    for n in 0..REGISTERS {
        r.is_context();
        r.set(n as u8, words[n]);
    }
    r.is_context();
}

/// A new thread's registers: all 0 but PC, SP, SR and R12.
pub fn new_context(pc: u16, sp: u16, r12: u16) -> [u16; 16]
    ensures { result ≡ new_context pc sp r12 }
{
    [pc, sp, GIE, 0, 0, 0, 0, 0, 0, 0, 0, 0, r12, 0, 0, 0]
}
