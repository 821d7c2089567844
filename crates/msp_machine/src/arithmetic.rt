//! The arithmetic unit: the result and the flags of each operation.

ghost use Rattle.std.specs.Prelude.{◌≡◌, ◌≤◌, ◌<◌, ◌+◌, ◌%◌, nat_le, if◌then◌else◌};
ghost use Rattle.machine_model.specs.Operands.{size, sign_bit};
ghost use Rattle.machine_model.specs.Status.{with_flags};
ghost use Rattle.machine_model.specs.Alu.{complement, has_sign_bit, plain, flagged, overflows, added, logical, alu, alu_one};

use crate::decimal::decimal;
use machine_model::place::Outcome;
use msp_encode::instr::{Op1, Op2, Width};

/// SR's bits C, Z, N and V.
const FLAGS: u16 = 0x0107;

/// One more than the greatest value of a width.
fn size(width: Width) -> u32
    ensures { result ≡ size width }
{
    match width {
        Width::Wide => 65536,
        Width::Byte => 256,
    }
}

/// The highest bit of a width.
fn sign_bit(width: Width) -> u16
    ensures { result ≡ sign_bit width }
{
    match width {
        Width::Wide => 32768,
        Width::Byte => 128,
    }
}

/// The value with each bit of the width turned.
fn complement(width: Width, value: u16) -> u16
    requires { value < size width }
    ensures value { result ≡ complement width value }
    ensures small { result < size width }
{
    (size(width) - 1 - value as u32) as u16
}

/// Whether the highest bit of the width is 1.
fn has_sign_bit(width: Width, value: u16) -> bool
    ensures { result ≡ has_sign_bit width value }
{
    sign_bit(width) <= value
}

/// A status with C, Z, N and V as given, and the other bits as they were.
#[tactic(auto, using(crate::proofs::Kept::kept_bits), unfolding(machine_model::specs::Status::with_flags))]
fn with_flags(sr: u16, c: bool, z: bool, n: bool, v: bool) -> u16
    ensures { result ≡ with_flags sr c z n v }
{
    (sr & !FLAGS) + u16::from(v) * 256 + u16::from(n) * 4 + u16::from(z) * 2 + u16::from(c)
}

/// An outcome that leaves the flags.
fn plain(value: u16, sr: u16) -> Outcome
    ensures { result ≡ plain value sr }
{
    Outcome { value, status: sr }
}

/// An outcome with Z and N of the value, and C and V as given.
fn flagged(width: Width, value: u16, c: bool, v: bool, sr: u16) -> Outcome
    ensures { result ≡ flagged width value c v sr }
{
    Outcome {
        value,
        status: with_flags(sr, c, value == 0, has_sign_bit(width, value), v),
    }
}

/// V of a sum: the operands have equal highest bits, and the result another.
fn overflows(width: Width, s: u16, d: u16, value: u16) -> bool
    ensures { result ≡ overflows width s d value }
{
    has_sign_bit(width, s) == has_sign_bit(width, d)
        && has_sign_bit(width, value) != has_sign_bit(width, d)
}

/// The sum of two values and a carry.
#[tactic(auto, unfolding(machine_model::specs::Alu::added))]
fn added(width: Width, s: u16, d: u16, c: u16, sr: u16) -> Outcome
    requires { c ≤ 1 }
    ensures { result ≡ added width s d c sr }
{
    let sum = d as u32 + s as u32 + c as u32;
    let value = (sum % size(width)) as u16;
    flagged(
        width,
        value,
        size(width) <= sum,
        overflows(width, s, d, value),
        sr,
    )
}

/// An outcome whose C is not Z.
#[tactic(auto, unfolding(machine_model::specs::Alu::logical))]
fn logical(width: Width, value: u16, v: bool, sr: u16) -> Outcome
    ensures { result ≡ logical width value v sr }
{
    flagged(width, value, value != 0, v, sr)
}

/// The decimal sum of two values and C. V stays.
#[tactic(auto, unfolding(machine_model::specs::Alu::alu))]
fn decimally_added(width: Width, s: u16, d: u16, sr: u16) -> Outcome
    ensures { result ≡ alu Op2.Dadd width s d sr }
{
    let (value, carry) = decimal(width, s, d, sr % 2);
    flagged(width, value, carry == 1, sr / 256 % 2 == 1, sr)
}

/// An operation of two operands, source `s` and destination `d`.
#[tactic(auto, unfolding(machine_model::specs::Alu::alu))]
pub(crate) fn alu(op: Op2, width: Width, s: u16, d: u16, sr: u16) -> Outcome
    requires { s < size width }
    ensures { result ≡ alu op width s d sr }
{
    match op {
        Op2::Mov => plain(s, sr),
        Op2::Add => added(width, s, d, 0, sr),
        Op2::Addc => added(width, s, d, sr % 2, sr),
        Op2::Sub | Op2::Cmp => added(width, complement(width, s), d, 1, sr),
        Op2::Subc => added(width, complement(width, s), d, sr % 2, sr),
        Op2::Dadd => decimally_added(width, s, d, sr),
        Op2::And | Op2::Bit => logical(width, d & s, false, sr),
        Op2::Bic => plain(d & complement(width, s), sr),
        Op2::Bis => plain(d | s, sr),
        Op2::Xor => logical(
            width,
            d ^ s,
            has_sign_bit(width, s) && has_sign_bit(width, d),
            sr,
        ),
    }
}

/// Bit 7 moved through the high byte.
fn extended(value: u16) -> u16
    ensures { result ≡ value % 256 + (if nat_le 128 (value % 256) then 65280 else 0) }
{
    let low = value % 256;
    if low >= 128 { low + 0xFF00 } else { low }
}

/// An operation of one operand.
#[tactic(auto, unfolding(machine_model::specs::Alu::alu_one))]
pub(crate) fn alu_one(op: Op1, width: Width, value: u16, sr: u16) -> Outcome
    requires { value < size width }
    ensures { result ≡ alu_one op width value sr }
{
    match op {
        Op1::Rrc => flagged(
            width,
            value / 2 + sr % 2 * sign_bit(width),
            value % 2 == 1,
            false,
            sr,
        ),
        Op1::Rra => flagged(
            width,
            value / 2 + kept_top(width, value),
            value % 2 == 1,
            false,
            sr,
        ),
        Op1::Swpb => plain(value % 256 * 256 + value / 256, sr),
        Op1::Sxt => logical(Width::Wide, extended(value), false, sr),
        Op1::Push | Op1::Call => plain(value, sr),
    }
}

/// The highest bit of the width where it is 1, else 0.
fn kept_top(width: Width, value: u16) -> u16
    ensures { result ≡ (if has_sign_bit width value then sign_bit width else 0) }
{
    if has_sign_bit(width, value) {
        sign_bit(width)
    } else {
        0
    }
}
