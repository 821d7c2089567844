//! Laws of the spelling, for the layers above: each is used by calling it.

ghost use Rattle.msp_decode.specs.Function.{ReadingLaw};
ghost use Rattle.msp_decode.specs.Laws.{OneInstruction, NoProperPrefix, FirstWordDecides, OneReading};

/// A list of words spells at most one instruction.
pub fn one_instruction()
    ensures { OneInstruction }
{}

/// No spelling is a proper prefix of another.
pub fn no_proper_prefix()
    ensures { NoProperPrefix }
{}

/// Whether an instruction begins with a word, and how many words it has, is told by that word alone:
/// where one does, exactly the lists of as many words behind it complete an instruction.
pub fn first_word_decides()
    ensures { FirstWordDecides }
{}

/// Words are read in one way: the cases of `Reads` exclude each other.
pub fn one_reading()
    ensures { OneReading }
{}

/// The reading as a function is by the spelling: it finds an instruction that the words spell, or none
/// begins with the first.
pub fn reading_law()
    ensures { ReadingLaw }
{}
