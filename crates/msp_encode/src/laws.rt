//! Laws of the spelling, for the layers above: each is used by calling it.

ghost use Rattle.msp_encode.specs.Laws.{LegalByCases, OneSpelling, SpellingLaw, TestsTell};

/// The instructions that some words spell are those that meet the conditions on their parts.
pub fn legal_by_cases()
    ensures { LegalByCases }
{}

/// An instruction has one spelling.
pub fn one_spelling()
    ensures { OneSpelling }
{}

/// The words of a legal instruction spell it.
pub fn spelling_spells()
    ensures { SpellingLaw }
{}

/// The tests of an instruction's parts tell whether it meets their conditions.
pub fn tests_tell()
    ensures { TestsTell }
{}
