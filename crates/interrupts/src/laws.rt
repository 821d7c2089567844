//! Which words keep sets of lines, as numbers. Each law is a function that does nothing: its clauses are the law. Whoever reads
//! a word, changes its set of lines and writes the word of the new set has by these laws which number that is.

ghost use Rattle.std.specs.Prelude.{◌≡◌, ◌==◌, ℕ, ◌-◌, ◌%◌, ◌^◌, ◌<◌, ◌≤◌, ◌↔◌, IsTrue, IsNone, IfSome, bit_or, find};
ghost use Rattle.std.specs.Int.{bit_at};
ghost use Rattle.std.specs.FinSet as set;
ghost use Rattle.interrupts.specs.LineSets.{lines_of, highest_first};

/// The word of the lines of a word is its low fourteen bits.
#[tactic(auto, using(crate::proofs::Words::kept))]
pub fn kept_word(before: u16, after: u16)
    requires low { after < 2 ^ 14 }
    requires lines { lines_of after ≡ lines_of before }
    ensures { after ≡ before % 2 ^ 14 }
{
    let _ = (before, after);
}

/// With the lines of a mask a word has the mask's bits beside its own.
#[tactic(auto, using(crate::proofs::Words::raised))]
pub fn raised_word(before: u16, mask: u16, after: u16)
    requires low { after < 2 ^ 14 }
    requires lines { lines_of after ≡ set.union (lines_of before) (lines_of mask) }
    ensures { after ≡ bit_or (before % 2 ^ 14) (mask % 2 ^ 14) }
{
    let _ = (before, mask, after);
}

/// Without one of its lines a word is less by that line's bit.
#[tactic(auto, using(crate::proofs::Words::dropped))]
pub fn dropped_word(before: u16, line: u8, after: u16)
    requires low { after < 2 ^ 14 }
    requires member { IsTrue (set.contains (lines_of before) line) }
    requires lines { lines_of after ≡ set.remove (lines_of before) line }
    ensures { after ≡ before % 2 ^ 14 - 2 ^ line }
{
    let _ = (before, line, after);
}

/// The highest line of a word is the first one found from line 13 down.
#[tactic(auto, using(crate::proofs::Words::found))]
pub fn highest_found(word: u16, highest: Option<u8>)
    requires none { IsNone highest ↔ (lines_of word ≡ set.empty) }
    requires member { IfSome highest (λ n. IsTrue (set.contains (lines_of word) n)) }
    requires greatest { IfSome highest (λ n. (k : ℕ) → IsTrue (set.contains (lines_of word) k) → k ≤ n) }
    ensures { highest ≡ find (λ n. bit_at word n == 1) highest_first }
{
    let _ = (word, highest);
}
