//! The lines that are pending.

ghost use Rattle.std.specs.Prelude.{◌≡◌, ◌≢◌, ℕ, ◌<◌, ◌≤◌, ◌^◌, ◌↔◌, IsTrue, IsNone, IfSome};
ghost use Rattle.std.specs.FinSet as set;
ghost use Rattle.interrupts.specs.LineSets.{lines_of};

pub use kernel_model::map::LINES;
use std::marker::Model;

/// The bits of a word that are a line's.
const LINE_BITS: u16 = 0x3FFF;

/// A set of interrupt lines, 0 to 13, kept in the low fourteen bits of a word.
#[derive(Drop)]
pub struct Lines {
    word: u16,
}

impl Model for Lines {
    ghost use Rattle.std.specs.Prelude.{◌<◌};
    ghost use Rattle.std.specs.Coded.{coded_ℕ};
    ghost use Rattle.std.specs.FinSet as set;
    ghost use Rattle.interrupts.specs.LineSets.{LineSet, lines_of};

    ghost Value = { LineSet };

    ghost coded = { set.code coded_ℕ };

    ghost view = { λ lines. lines_of lines.word };

    ghost invariant = { λ lines. lines.word < 16384 };
}

impl Lines {
    /// The lines whose bits are 1 in a word. Bits 14 and 15 are no line's.
    pub fn from_word(w: u16) -> Lines
        ensures { result ≡ lines_of w }
    {
        Lines {
            word: w & LINE_BITS,
        }
    }

    /// The word that keeps the set: bit n is 1 exactly for line n, and bits 14 and 15 are 0.
    pub fn word(&self) -> u16
        ensures lines { lines_of result ≡ self.now }
        ensures low { result < 2 ^ 14 }
    {
        self.word
    }

    /// Puts the lines of a mask into the set. Bits 14 and 15 of the mask are ignored.
    pub fn raise(&mut self, mask: u16)
        ensures { self.new ≡ set.union self.old (lines_of mask) }
    {
        self.word |= mask & LINE_BITS;
    }

    /// Takes line `n` out of the set, if it is there. A number over 13 changes nothing.
    pub fn drop_line(&mut self, n: u8)
        ensures removed { self.new ≡ set.remove self.old n }
        ensures no_line { LINES ≤ n → self.new ≡ self.old }
    {
        if n < LINES {
            self.word &= !(1 << n);
        }
    }

    /// The highest line of the set. None exactly where there is no line.
    pub fn highest(&self) -> Option<u8>
        ensures none { IsNone result ↔ (self.now ≡ set.empty) }
        ensures member { IfSome result (λ n. IsTrue (set.contains self.now n)) }
        ensures greatest { IfSome result (λ n. (k : ℕ) → IsTrue (set.contains self.now k) → k ≤ n) }
        ensures line { IfSome result (λ n. n < LINES) }
    {
        if self.word == 0 {
            None
        } else {
            Some(self.word.ilog2() as u8)
        }
    }

    /// What holds of every set: its members are lines.
    pub fn are_lines(&self)
        ensures { (n : ℕ) → IsTrue (set.contains self.now n) → n < LINES }
    {
        let _ = &self.word;
    }
}
