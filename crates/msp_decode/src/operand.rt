//! Operands by their register and mode.

ghost use Rattle.std.specs.Prelude.{◌≡◌, ◌<◌, [], ◌∷◌, MatchOption};
ghost use Rattle.msp_encode.specs.declared.instr.Src.{Src};
ghost use Rattle.msp_encode.specs.declared.instr.Dst.{Dst};
ghost use Rattle.msp_encode.specs.Spelling.{SrcRow, DstRow, src_words, dst_words};
ghost use Rattle.msp_decode.specs.Reading.{Leads};

use msp_encode::instr::{Cg, Dst, Src};

/// The source of a register and a mode, if there is one. `word` is what its word would be.
pub(crate) fn source(register: u8, mode: u8, word: u16) -> Option<Src>
    requires { mode < 4 }
    ensures { MatchOption result ((s : Src) → SrcRow s register mode → ⊥)
        (λ s. SrcRow s register mode × Leads (src_words s) (word ∷ [])) }
{
    Some(match (mode, register) {
        (0, 3) => Src::Const(Cg::Zero),
        (0, _) => Src::Reg(register),
        (1, 0) => Src::Symbolic(word),
        (1, 2) => Src::Absolute(word),
        (1, 3) => Src::Const(Cg::One),
        (1, _) => Src::Indexed(register, word),
        (2, 0) => return None,
        (2, 2) => Src::Const(Cg::Four),
        (2, 3) => Src::Const(Cg::Two),
        (2, _) => Src::Indirect(register),
        (_, 0) => Src::Immediate(word),
        (_, 2) => Src::Const(Cg::Eight),
        (_, 3) => Src::Const(Cg::AllOnes),
        (_, _) => Src::AutoInc(register),
    })
}

/// The destination of a register and a mode, if there is one. `word` is what its word would be.
pub(crate) fn destination(register: u8, mode: u8, word: u16) -> Option<Dst>
    requires { mode < 2 }
    ensures { MatchOption result ((d : Dst) → DstRow d register mode → ⊥)
        (λ d. DstRow d register mode × Leads (dst_words d) (word ∷ [])) }
{
    Some(match (mode, register) {
        (0, _) => Dst::Reg(register),
        (_, 0) => Dst::Symbolic(word),
        (_, 2) => Dst::Absolute(word),
        (_, 3) => return None,
        (_, _) => Dst::Indexed(register, word),
    })
}
