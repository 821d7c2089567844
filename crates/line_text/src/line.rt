//! A line of text.

ghost use Rattle.std.specs.Prelude.{◌≡◌, ℕ, ◌+◌, ◌≤◌, List, [], ◌∷◌, ◌++◌, length, decimal};
ghost use Rattle.line_text.specs.Hexadecimal.{hex_digit, hex_byte, hex_word};

use arrayvec::ArrayVec;
use itoa::Buffer;
use std::marker::Model;

/// How many bytes a line has at most: a name of 255 bytes, and the words around it.
pub const LINE_BYTES: usize = 384;

/// A line of text, at most `LINE_BYTES` bytes. Contracts see its bytes.
#[derive(Drop)]
pub struct Line {
    bytes: ArrayVec<u8, LINE_BYTES>,
}

impl Model for Line {
    ghost Value = { List ℕ };

    ghost view = { λ line. line.bytes.items };
}

impl Line {
    /// The empty line.
    pub fn new() -> Line
        ensures { result ≡ [] }
    {
        Line {
            bytes: ArrayVec::new(),
        }
    }

    /// The bytes.
    pub fn as_slice(&self) -> &[u8]
        ensures { result.now ≡ self.now }
    {
        self.bytes.as_slice()
    }

    /// Appends a byte.
    pub fn push(&mut self, byte: u8)
        requires { length self.old + 1 ≤ 384 }
        ensures text { self.new ≡ self.old ++ byte ∷ [] }
        ensures size { length self.new ≡ length self.old + 1 }
    {
        self.bytes.push(byte);
    }

    /// Appends a piece of text.
    pub fn push_text(&mut self, text: &[u8])
        requires { length self.old + length text.now ≤ 384 }
        ensures text { self.new ≡ self.old ++ text.now }
        ensures size { length self.new ≡ length self.old + length text.now }
    {
        if self.bytes.try_extend_from_slice(text).is_err() {
            unreachable!();
        }
    }

    /// Appends a number in decimal digits.
    pub fn push_decimal(&mut self, number: u32)
        requires { length self.old + 10 ≤ 384 }
        ensures text { self.new ≡ self.old ++ decimal number }
        ensures size { length self.new ≤ length self.old + 10 }
    {
        let mut buffer = Buffer::new();
        self.push_text(buffer.format(number).as_bytes());
    }

    /// Appends a byte as two upper-case hexadecimal digits.
    pub fn push_byte(&mut self, byte: u8)
        requires { length self.old + 2 ≤ 384 }
        ensures text { self.new ≡ self.old ++ hex_byte byte }
        ensures size { length self.new ≡ length self.old + 2 }
    {
        self.push(digit(byte / 16));
        self.push(digit(byte % 16));
    }

    /// Appends a word as four upper-case hexadecimal digits.
    #[tactic(auto, unfolding(crate::specs::Hexadecimal::hex_word))]
    pub fn push_word(&mut self, word: u16)
        requires { length self.old + 4 ≤ 384 }
        ensures text { self.new ≡ self.old ++ hex_word word }
        ensures size { length self.new ≡ length self.old + 4 }
    {
        self.push(digit((word / 4096) as u8));
        self.push(digit((word / 256 % 16) as u8));
        self.push(digit((word / 16 % 16) as u8));
        self.push(digit((word % 16) as u8));
    }
}

/// The upper-case hexadecimal digit of a number below 16.
fn digit(value: u8) -> u8
    requires { value ≤ 15 }
    ensures { result ≡ hex_digit value }
{
    if value < 10 { 48 + value } else { 55 + value }
}
