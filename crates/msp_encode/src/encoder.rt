//! The encoder.

ghost use Rattle.std.specs.Prelude.{◌≡◌, ◌≢◌, ℕ, ◌+◌, ◌/◌, ◌%◌, ◌^◌, ◌<◌, ◌≤◌, List, [], ◌∷◌, ◌++◌, ℤ, pos, negsuc, ◌≤ℤ◌, ◌<ℤ◌, length};
ghost use Rattle.arrayvec.specs.ArrayVec.{array_vec_len};
ghost use Rattle.msp_encode.specs.Spelling.{
  op2_code,
  op1_code,
  cond_code,
  width_code,
  ConstRow,
  SrcRow,
  DstRow,
  SrcFits,
  DstFits,
  src_words,
  dst_words,
  OffsetRow,
  First,
  InstrFits,
  Legal,
  Spells,
  words_after,
};

use crate::instr::{Cg, Cond, Dst, Instr, Op1, Op2, Src, Width};
use crate::laws::legal_by_cases;
use arrayvec::ArrayVec;

/// The code of an operation of two operands.
fn two_code(op: Op2) -> u16
    ensures { (result ≡ op2_code op) × (result < 16) }
{
    match op {
        Op2::Mov => 4,
        Op2::Add => 5,
        Op2::Addc => 6,
        Op2::Subc => 7,
        Op2::Sub => 8,
        Op2::Cmp => 9,
        Op2::Dadd => 10,
        Op2::Bit => 11,
        Op2::Bic => 12,
        Op2::Bis => 13,
        Op2::Xor => 14,
        Op2::And => 15,
    }
}

/// The code of an operation of one operand.
fn one_code(op: Op1) -> u16
    ensures { (result ≡ op1_code op) × (result < 6) }
{
    match op {
        Op1::Rrc => 0,
        Op1::Swpb => 1,
        Op1::Rra => 2,
        Op1::Sxt => 3,
        Op1::Push => 4,
        Op1::Call => 5,
    }
}

/// The code of a condition.
fn condition_code(cond: Cond) -> u16
    ensures { (result ≡ cond_code cond) × (result < 8) }
{
    match cond {
        Cond::Ne => 0,
        Cond::Eq => 1,
        Cond::Nc => 2,
        Cond::C => 3,
        Cond::N => 4,
        Cond::Ge => 5,
        Cond::L => 6,
        Cond::Always => 7,
    }
}

/// The bit of a width.
fn width_bit(width: Width) -> u16
    ensures { (result ≡ width_code width) × (result < 2) }
{
    match width {
        Width::Wide => 0,
        Width::Byte => 1,
    }
}

/// The register and the mode that generate a constant.
fn constant_fields(constant: Cg) -> (u16, u16)
    ensures { ConstRow constant result.0 result.1 × (result.0 < 16) × (result.1 < 4) }
{
    match constant {
        Cg::Zero => (3, 0),
        Cg::One => (3, 1),
        Cg::Two => (3, 2),
        Cg::Four => (2, 2),
        Cg::Eight => (2, 3),
        Cg::AllOnes => (3, 3),
    }
}

/// The register and the mode of a source.
fn source_fields(src: &Src) -> (u16, u16)
    requires { SrcFits src.now }
    ensures { SrcRow src.now result.0 result.1 × (result.0 < 16) × (result.1 < 4) }
{
    match *src {
        Src::Reg(register) => (u16::from(register), 0),
        Src::Indexed(register, _) => (u16::from(register), 1),
        Src::Symbolic(_) => (0, 1),
        Src::Absolute(_) => (2, 1),
        Src::Indirect(register) => (u16::from(register), 2),
        Src::AutoInc(register) => (u16::from(register), 3),
        Src::Immediate(_) => (0, 3),
        Src::Const(constant) => constant_fields(constant),
    }
}

/// The register and the mode of a destination.
fn destination_fields(dst: &Dst) -> (u16, u16)
    requires { DstFits dst.now }
    ensures { DstRow dst.now result.0 result.1 × (result.0 < 16) × (result.1 < 2) }
{
    match *dst {
        Dst::Reg(register) => (u16::from(register), 0),
        Dst::Indexed(register, _) => (u16::from(register), 1),
        Dst::Symbolic(_) => (0, 1),
        Dst::Absolute(_) => (2, 1),
    }
}

/// A word of two operands, of its operation's code, the width's bit and each operand's register and mode.
#[tactic(auto, using(std::proofs::lemmas::Nat::or_shifted))]
fn two_word(op: u16, width: u16, source: (u16, u16), destination: (u16, u16)) -> u16
    requires op_fits { op < 16 }
    requires width_fits { width < 2 }
    requires source_fits { (source.0 < 16) × (source.1 < 4) }
    requires destination_fits { (destination.0 < 16) × (destination.1 < 2) }
    ensures op_code { result / 4096 ≡ op }
    ensures width_bit { result / 64 % 2 ≡ width }
    ensures source_register { result / 256 % 16 ≡ source.0 }
    ensures source_mode { result / 16 % 4 ≡ source.1 }
    ensures destination_register { result % 16 ≡ destination.0 }
    ensures destination_mode { result / 128 % 2 ≡ destination.1 }
{
    op << 12
        | (source.0 << 8 | (destination.1 << 7 | (width << 6 | (source.1 << 4 | destination.0))))
}

/// A word of one operand, of its operation's code, the width's bit and the operand's register and mode.
#[tactic(auto, using(std::proofs::lemmas::Nat::or_shifted))]
fn one_word(op: u16, width: u16, source: (u16, u16)) -> u16
    requires op_fits { op < 8 }
    requires width_fits { width < 2 }
    requires source_fits { (source.0 < 16) × (source.1 < 4) }
    ensures form { result / 1024 ≡ 4 }
    ensures op_code { result / 128 % 8 ≡ op }
    ensures width_bit { result / 64 % 2 ≡ width }
    ensures source_register { result % 16 ≡ source.0 }
    ensures source_mode { result / 16 % 4 ≡ source.1 }
{
    4 << 10 | (op << 7 | (width << 6 | (source.1 << 4 | source.0)))
}

/// A jump's word, of its condition's code and its offset.
#[tactic(auto, using(std::proofs::lemmas::Nat::or_shifted))]
fn jump_word(cond: u16, offset: u16) -> u16
    requires cond_fits { cond < 8 }
    requires offset_fits { offset < 1024 }
    ensures form { result / 8192 ≡ 1 }
    ensures code { result / 1024 % 8 ≡ cond }
    ensures place { result % 1024 ≡ offset }
{
    1 << 13 | (cond << 10 | offset)
}

/// A jump's offset as ten bits.
fn offset_bits(offset: i16) -> u16
    requires { (negsuc 511 ≤ℤ offset) × (offset <ℤ pos 512) }
    ensures { OffsetRow offset result × (result < 1024) }
{
    if offset < 0 {
        (offset + 1024) as u16
    } else {
        offset as u16
    }
}

/// The first word of an instruction.
fn first_word(i: &Instr) -> u16
    requires { InstrFits i.now }
    ensures { First i.now result }
{
    match i {
        Instr::Two {
            op,
            width,
            src,
            dst,
        } => {
            two_word(
                two_code(*op),
                width_bit(*width),
                source_fields(src),
                destination_fields(dst),
            )
        }
        Instr::One { op, width, src } => {
            one_word(one_code(*op), width_bit(*width), source_fields(src))
        }
        Instr::Reti => 0x1300,
        Instr::Jump { cond, offset } => jump_word(condition_code(*cond), offset_bits(*offset)),
    }
}

/// Appends the word that a source has, if it has one.
fn push_source(words: &mut ArrayVec<u16, 3>, src: &Src)
    requires { array_vec_len words.old < 3 }
    ensures { words.new.items ≡ words.old.items ++ src_words src.now }
{
    match *src {
        Src::Indexed(_, word) | Src::Symbolic(word) | Src::Absolute(word) | Src::Immediate(word) =>
            { words.push(word) }
        Src::Reg(_) | Src::Indirect(_) | Src::AutoInc(_) | Src::Const(_) => {}
    }
}

/// Appends the word that a destination has, if it has one.
fn push_destination(words: &mut ArrayVec<u16, 3>, dst: &Dst)
    requires { array_vec_len words.old < 3 }
    ensures { words.new.items ≡ words.old.items ++ dst_words dst.now }
{
    match *dst {
        Dst::Indexed(_, word) | Dst::Symbolic(word) | Dst::Absolute(word) => words.push(word),
        Dst::Reg(_) => {}
    }
}

/// The words that spell a legal instruction, 1 to 3.
pub fn encode(i: &Instr) -> ArrayVec<u16, 3>
    requires { Legal i.now }
    ensures spelled { Spells i.now result.items }
    ensures size { array_vec_len result ≡ 1 + length (words_after i.now) }
    ensures least { 1 ≤ array_vec_len result }
    ensures most { array_vec_len result ≤ 3 }
{
    legal_by_cases();
    let mut words = ArrayVec::new();
    words.push(first_word(i));
    match i {
        Instr::Two { src, dst, .. } => {
            push_source(&mut words, src);
            push_destination(&mut words, dst);
        }
        Instr::One { src, .. } => push_source(&mut words, src),
        Instr::Reti | Instr::Jump { .. } => {}
    }
    words
}
