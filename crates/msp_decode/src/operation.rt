//! Operations and conditions by their codes.

ghost use Rattle.std.specs.Prelude.{◌≡◌, ◌<◌, MatchOption};
ghost use Rattle.msp_encode.specs.declared.instr.Op2.{Op2};
ghost use Rattle.msp_encode.specs.declared.instr.Op1.{Op1};
ghost use Rattle.msp_encode.specs.Spelling.{op2_code, op1_code, cond_code};

use msp_encode::instr::{Cond, Op1, Op2};

/// The operation of two operands with a code, if there is one.
pub(crate) fn two(code: u8) -> Option<Op2>
    ensures { MatchOption result ((op : Op2) → code ≡ op2_code op → ⊥) (λ op. code ≡ op2_code op) }
{
    Some(match code {
        4 => Op2::Mov,
        5 => Op2::Add,
        6 => Op2::Addc,
        7 => Op2::Subc,
        8 => Op2::Sub,
        9 => Op2::Cmp,
        10 => Op2::Dadd,
        11 => Op2::Bit,
        12 => Op2::Bic,
        13 => Op2::Bis,
        14 => Op2::Xor,
        15 => Op2::And,
        _ => return None,
    })
}

/// The operation of one operand with a code, if there is one.
pub(crate) fn one(code: u8) -> Option<Op1>
    ensures { MatchOption result ((op : Op1) → code ≡ op1_code op → ⊥) (λ op. code ≡ op1_code op) }
{
    Some(match code {
        0 => Op1::Rrc,
        1 => Op1::Swpb,
        2 => Op1::Rra,
        3 => Op1::Sxt,
        4 => Op1::Push,
        5 => Op1::Call,
        _ => return None,
    })
}

/// The condition with a code.
pub(crate) fn condition(code: u8) -> Cond
    requires { code < 8 }
    ensures { code ≡ cond_code result }
{
    match code {
        0 => Cond::Ne,
        1 => Cond::Eq,
        2 => Cond::Nc,
        3 => Cond::C,
        4 => Cond::N,
        5 => Cond::Ge,
        6 => Cond::L,
        _ => Cond::Always,
    }
}
