//! Numbers as written.

ghost use Rattle.std.specs.Prelude.{◌≡◌, ℕ, ◌≤◌, ◌<◌, drop, length, true, false, Some, None, option_map};
ghost use Rattle.std.specs.Char.{digit_value};
ghost use Rattle.asm_model.specs.Numbers.{digits_value, capped, is_decimal, is_hexadecimal, size_of, numeral_by, numeral_of, numeral_fits, numeral_word, is_between, byte_fits};

use crate::bytes::{Class, all, byte_at};
use asm_model::expression::Numeral;

/// All sizes from here on count as one.
const SIZE_MAX: u32 = 65_536;

/// The value of a digit, or 36 where it is none.
fn digit(byte: u8) -> u32
    ensures value { result ≡ digit_value byte }
    ensures small { result ≤ 36 }
{
    match byte {
        b'0'..=b'9' => (byte - b'0') as u32,
        b'A'..=b'Z' => (byte - b'A') as u32 + 10,
        b'a'..=b'z' => (byte - b'a') as u32 + 10,
        _ => 36,
    }
}

/// The size of the number of some digits.
fn size(base: u32, digits: &[u8]) -> u32
    requires base { (1 ≤ base) }
    requires most { base ≤ 16 }
    ensures { result ≡ capped (digits_value base digits.now) }
{
    let mut size = 0;
    for i in 0..digits.len() {
        size = (size * base + digit(digits[i])).min(SIZE_MAX);
    }
    size
}

/// Whether a word is one or more decimal digits without a leading zero.
#[tactic(auto, unfolding(asm_model::specs::Numbers::is_decimal))]
fn decimal(word: &[u8]) -> bool
    ensures { result ≡ is_decimal word.now }
{
    !word.is_empty() && all(Class::Digit, word) && (byte_at(word, 0) != b'0' || word.len() == 1)
}

/// Whether a word is `0x` and one or more hexadecimal digits.
#[tactic(auto, unfolding(asm_model::specs::Numbers::is_hexadecimal))]
fn hexadecimal(word: &[u8]) -> bool
    ensures value { result ≡ is_hexadecimal word.now }
    ensures long { result ≡ true → 3 ≤ length word.now }
{
    word.len() >= 3
        && byte_at(word, 0) == b'0'
        && byte_at(word, 1) == b'x'
        && all(Class::HexDigit, &word[2..])
}

/// The size of a number without sign.
#[tactic(auto, unfolding(asm_model::specs::Numbers::size_of))]
pub(crate) fn unsigned(word: &[u8]) -> Option<u32>
    ensures { result ≡ size_of word.now }
{
    if hexadecimal(word) {
        Some(size(16, &word[2..]))
    } else if decimal(word) {
        Some(size(10, word))
    } else {
        None
    }
}

/// A number, which may have a sign.
#[tactic(auto, unfolding(asm_model::specs::Numbers::numeral_of))]
pub fn numeral(word: &[u8]) -> Option<Numeral>
    ensures { result ≡ numeral_of word.now }
{
    let negative = byte_at(word, 0) == b'-';
    let digits = if negative && !word.is_empty() {
        &word[1..]
    } else {
        word
    };
    match unsigned(digits) {
        None => None,
        Some(size) => Some(Numeral { negative, size }),
    }
}

/// Whether a number is from -32768 to 65535.
#[tactic(auto, unfolding(asm_model::specs::Numbers::numeral_fits))]
pub fn fits(n: Numeral) -> bool
    ensures { result ≡ numeral_fits n }
{
    if n.negative {
        n.size <= 32_768
    } else {
        n.size <= 65_535
    }
}

/// A number's value modulo 65,536.
#[tactic(auto, unfolding(asm_model::specs::Numbers::numeral_word))]
pub fn word(n: Numeral) -> u16
    ensures { result ≡ numeral_word n }
{
    if n.negative {
        (SIZE_MAX.saturating_sub(n.size) % SIZE_MAX) as u16
    } else {
        (n.size % SIZE_MAX) as u16
    }
}

/// Whether a number is from the one to the other.
#[tactic(auto, unfolding(asm_model::specs::Numbers::is_between))]
pub fn between(least: u32, most: u32, n: Numeral) -> bool
    ensures value { result ≡ is_between least most n }
    ensures small { result ≡ true → n.size ≤ most }
{
    (!n.negative || n.size == 0) && least <= n.size && n.size <= most
}

/// Whether a number is from -128 to 255.
#[tactic(auto, unfolding(asm_model::specs::Numbers::byte_fits))]
pub fn fits_byte(n: Numeral) -> bool
    ensures { result ≡ byte_fits n }
{
    if n.negative {
        n.size <= 128
    } else {
        n.size <= 255
    }
}
