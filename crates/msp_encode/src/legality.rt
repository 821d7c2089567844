//! Which instructions have a spelling.

ghost use Rattle.std.specs.Prelude.{◌≡◌, ◌<◌, ◌↔◌, IsTrue};
ghost use Rattle.msp_encode.specs.Spelling.{
  IsBase,
  SrcFits,
  DstFits,
  TakesWidth,
  Takes,
  InstrFits,
  Legal,
};
ghost use Rattle.msp_encode.specs.Legality.{is_base, src_fits, dst_fits, takes_width, takes};

use crate::instr::{Dst, Instr, Op1, Src, Width};
use crate::laws::legal_by_cases;
use crate::registers::{CHECKED, CONSTANTS, SP};

/// Whether an address can be made of a register: SP or 4 to 15.
fn is_base(register: u8) -> bool
    ensures is { result ≡ is_base register }
    ensures says { IsTrue result ↔ ((register < 16) × IsBase register) }
{
    register == SP || register >= CHECKED && register < 16
}

/// Whether a source can be spelled in an operation of two operands.
fn source_fits(src: &Src) -> bool
    ensures is { result ≡ src_fits src.now }
    ensures says { IsTrue result ↔ SrcFits src.now }
{
    match *src {
        Src::Reg(register) => register < 16 && register != CONSTANTS,
        Src::Indexed(register, _) => is_base(register),
        Src::Indirect(register) | Src::AutoInc(register) => is_base(register),
        Src::Symbolic(_) | Src::Absolute(_) | Src::Immediate(_) | Src::Const(_) => true,
    }
}

/// Whether a destination can be spelled.
fn destination_fits(dst: &Dst) -> bool
    ensures is { result ≡ dst_fits dst.now }
    ensures says { IsTrue result ↔ DstFits dst.now }
{
    match *dst {
        Dst::Reg(register) => register < 16,
        Dst::Indexed(register, _) => is_base(register),
        Dst::Symbolic(_) | Dst::Absolute(_) => true,
    }
}

/// Whether an operation of one operand has a form of this width.
pub fn takes_width(op: Op1, width: Width) -> bool
    ensures is { result ≡ takes_width op width }
    ensures says { IsTrue result ↔ TakesWidth op width }
{
    match (op, width) {
        (Op1::Swpb | Op1::Sxt | Op1::Call, Width::Byte) => false,
        _ => true,
    }
}

/// Whether an operation of one operand takes a source of this mode.
pub fn takes(op: Op1, src: &Src) -> bool
    ensures is { result ≡ takes op src.now }
    ensures says { IsTrue result ↔ Takes op src.now }
{
    match src {
        Src::Const(_) => op.takes_constant(),
        Src::Immediate(_) => op.takes_immediate(),
        _ => true,
    }
}

/// Whether an instruction meets the conditions on its parts.
fn fits(i: &Instr) -> bool
    ensures { IsTrue result ↔ InstrFits i.now }
{
    match i {
        Instr::Two { src, dst, .. } => source_fits(src) && destination_fits(dst),
        Instr::One { op, width, src } => {
            source_fits(src) && takes_width(*op, *width) && takes(*op, src)
        }
        Instr::Reti => true,
        Instr::Jump { offset, .. } => *offset >= -512 && *offset < 512,
    }
}

/// Whether words spell an instruction: `encode` is for these.
pub fn legal(i: &Instr) -> bool
    ensures spelled { IsTrue result ↔ Legal i.now }
    ensures by_cases { IsTrue result ↔ InstrFits i.now }
{
    legal_by_cases();
    fits(i)
}
