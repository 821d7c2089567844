//! Marks of code words.

ghost use Rattle.std.specs.Prelude.{◌≡◌, ◌≢◌, ℕ, ◌+◌, ◌*◌, ◌/◌, ◌%◌, ◌^◌, ◌<◌, ◌↔◌, IsTrue, List, length, replicate};
ghost use Rattle.std.specs.Int.{bit_at};
ghost use Rattle.kernel_model.specs.Bitmap.{Has};
ghost use Rattle.code_model.specs.declared.object.TheConstants.{CODE_BYTES_MAX};
ghost use Rattle.code_model.specs.Marks.{AreMarks};

use std::marker::Model;

/// A set of code words: a bitmap of 8,192 bits, bit i for the word at offset 2i. Contracts see its 1,024 bytes.
#[derive(Drop)]
pub struct Marks {
    bytes: [u8; 1024],
}

impl Model for Marks {
    ghost Value = { List ℕ };

    ghost view = { λ marks. marks.bytes };
}

impl Marks {
    /// No word is marked.
    pub fn new() -> Marks
        ensures value { result ≡ replicate 1024 0 }
        ensures empty { (k : ℕ) → Has result k → ⊥ }
    {
        Marks { bytes: [0; 1024] }
    }

    /// Marks the word at an offset in bytes.
    pub fn set(&mut self, offset: u16)
        requires even { offset % 2 ≡ 0 }
        requires below { offset < CODE_BYTES_MAX }
        ensures marked { Has self.new (offset / 2) }
        ensures others { (k : ℕ) → k ≢ offset / 2 → Has self.new k ↔ Has self.old k }
    {
        let word = usize::from(offset / 2);
        let byte = self.bytes[word / 8];
        self.bytes[word / 8] = with_bit(byte, word % 8);
    }

    /// Tells whether the word at an offset in bytes is marked.
    pub fn has(&self, offset: u16) -> bool
        requires even { offset % 2 ≡ 0 }
        requires below { offset < CODE_BYTES_MAX }
        ensures { IsTrue result ↔ Has self.now (offset / 2) }
    {
        let word = usize::from(offset / 2);
        has_bit(self.bytes[word / 8], word % 8)
    }

    /// What holds of all marks: they are a bitmap.
    pub fn is_bitmap(&self)
        ensures { AreMarks self.now }
    {
        are_marks(&self.bytes);
    }
}

/// So many bytes are marks.
fn are_marks(bytes: &[u8])
    requires { length bytes.now ≡ 1024 }
    ensures { AreMarks bytes.now }
{}

/// The byte with one more bit.
fn with_bit(byte: u8, bit: usize) -> u8
    requires { bit < 8 }
    ensures marked { bit_at result bit ≡ 1 }
    ensures others { (k : ℕ) → k ≢ bit → bit_at result k ≡ bit_at byte k }
{
    byte | 1 << bit
}

/// Tells whether a bit of the byte is set.
fn has_bit(byte: u8, bit: usize) -> bool
    requires { bit < 8 }
    ensures { IsTrue result ↔ (bit_at byte bit ≡ 1) }
{
    byte >> bit & 1 == 1
}
