//! The reading of words.

ghost use Rattle.std.specs.Prelude.{◌≡◌, ◌+◌, ◌≤◌, [], ◌∷◌, ℕ, length, Result, IfOk};
ghost use Rattle.msp_encode.specs.declared.instr.Instr.{Instr};
ghost use Rattle.msp_encode.specs.Spelling.{Legal, words_after};
ghost use Rattle.msp_decode.specs.declared.reading.NoInstr.{NoInstr};
ghost use Rattle.msp_decode.specs.Reading.{Reads};

use crate::instruction::instruction;
use crate::laws::one_reading;
use crate::reading::NoInstr;
use msp_encode::instr::Instr;

/// The reading as the fields tell it.
#[inline(always)]
fn read(w0: u16, w1: u16, w2: u16, have: u8) -> Result<(Instr, u8), NoInstr>
    ensures right { Reads w0 (w1 ∷ w2 ∷ []) have result }
    ensures legal { IfOk result (λ x. Legal x.0) }
    ensures size { IfOk result (λ x. x.1 ≡ 1 + length (words_after x.0)) }
{
    if have == 0 {
        return Err(NoInstr::Short);
    }
    match instruction(w0, w1, w2) {
        None => Err(NoInstr::Unknown),
        Some(i) => {
            let n = i.words() as u8;
            if n > have {
                Err(NoInstr::Short)
            } else {
                Ok((i, n))
            }
        }
    }
}

/// The instruction that the words `w0`, `w1`, `w2` begin with, of which `have` are there, and its
/// length in words, 1 to 3. `Unknown` comes exactly where there is a word and no instruction begins
/// with it, and `Short` exactly where there is none, or an instruction begins with `w0` and needs more
/// than `have` words.
#[inline(always)]
pub fn decode(w0: u16, w1: u16, w2: u16, have: u8) -> Result<(Instr, u8), NoInstr>
    ensures right { Reads w0 (w1 ∷ w2 ∷ []) have result }
    ensures only { (answer : Result (Instr × ℕ) NoInstr) →
        Reads w0 (w1 ∷ w2 ∷ []) have answer → result ≡ answer }
    ensures legal { IfOk result (λ x. Legal x.0) }
    ensures size { IfOk result (λ x. x.1 ≡ 1 + length (words_after x.0)) }
    ensures least { IfOk result (λ x. 1 ≤ x.1) }
    ensures most { IfOk result (λ x. x.1 ≤ 3) }
    ensures there { IfOk result (λ x. x.1 ≤ have) }
{
    one_reading();
    read(w0, w1, w2, have)
}
