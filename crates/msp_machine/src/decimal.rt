//! Decimal sums, four bits a digit.

ghost use Rattle.std.specs.Prelude.{◌≡◌, ◌≤◌, ◌<◌};
ghost use Rattle.machine_model.specs.Alu.{digit, digit_carry, decimal_byte, decimal};

use msp_encode::instr::Width;

/// The digit of a sum of two digits and a carry.
fn digit(total: u16) -> u16
    requires { total < 32 }
    ensures value { result ≡ digit total }
    ensures small { result < 16 }
{
    if total < 10 { total } else { (total + 6) % 16 }
}

/// The carry of a sum of two digits and a carry.
fn digit_carry(total: u16) -> u16
    ensures value { result ≡ digit_carry total }
    ensures small { result ≤ 1 }
{
    if total < 10 { 0 } else { 1 }
}

/// The low two digits of a sum with carry `c`, and their carry.
#[tactic(auto, unfolding(machine_model::specs::Alu::decimal_byte))]
fn decimal_byte(a: u16, b: u16, c: u16) -> (u16, u16)
    requires { c ≤ 1 }
    ensures value { result ≡ decimal_byte a b c }
    ensures small { result.0 < 256 }
    ensures carry { result.1 ≤ 1 }
{
    let low = a % 16 + b % 16 + c;
    let high = a / 16 % 16 + b / 16 % 16 + digit_carry(low);
    (digit(low) + 16 * digit(high), digit_carry(high))
}

/// A sum with carry `c`, of two or four digits, and its carry.
#[tactic(auto, unfolding(machine_model::specs::Alu::decimal))]
pub(crate) fn decimal(width: Width, a: u16, b: u16, c: u16) -> (u16, u16)
    requires { c ≤ 1 }
    ensures { result ≡ decimal width a b c }
{
    match width {
        Width::Byte => decimal_byte(a, b, c),
        Width::Wide => {
            let (low, carry) = decimal_byte(a, b, c);
            let (high, last) = decimal_byte(a / 256, b / 256, carry);
            (low + 256 * high, last)
        }
    }
}
