//! Which instruction stands at an address.

ghost use Rattle.std.specs.Prelude.{◌≡◌, ◌+◌, ℕ, length, IfOk, Result};
ghost use Rattle.msp_encode.specs.Spelling.{Legal, words_after};
ghost use Rattle.msp_encode.specs.declared.instr.Instr.{Instr};
ghost use Rattle.msp_decode.specs.declared.reading.NoInstr.{NoInstr};
ghost use Rattle.msp_machine.specs.Fetch.{Fetches};

use crate::operand::{sum, word};
use flat_mem::FlatMem;
use msp_decode::{NoInstr, decode};
use msp_encode::instr::Instr;

/// The instruction that stands at `pc` and how many words it has, 1 to 3. The words behind `pc` are taken modulo 65,536, so
/// `Short` never comes, and `Unknown` says that no instruction begins with the word at `pc`.
#[tactic(auto, using(crate::proofs::Fetching::fetched))]
#[inline(always)]
pub fn fetch(m: &FlatMem, pc: u16) -> Result<(Instr, u8), NoInstr>
    ensures right { Fetches m.now pc result }
    ensures only { (answer : Result (Instr × ℕ) NoInstr) → Fetches m.now pc answer → result ≡ answer }
    ensures legal { IfOk result (λ x. Legal x.0) }
    ensures size { IfOk result (λ x. x.1 ≡ 1 + length (words_after x.0)) }
{
    decode(word(m, pc), word(m, sum(pc, 2)), word(m, sum(pc, 4)), 3)
}
