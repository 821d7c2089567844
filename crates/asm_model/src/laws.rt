//! What holds of the definitions, for callers: each law is a function that does nothing.

ghost use Rattle.asm_model.specs.Laws.{TestedIsLegal, DraftsAreSound, ResultsMeetTheForm};

use msp_encode::laws::{legal_by_cases, tests_tell};

/// The test of legal instructions is right.
pub fn tested_is_legal()
    ensures { TestedIsLegal }
{
    legal_by_cases();
    tests_tell();
}

/// What holds of each draft that the first pass gives.
pub fn drafts_are_sound()
    ensures { DraftsAreSound }
{}

/// What a source assembles to meets the form of objects.
pub fn results_meet_the_form()
    ensures { ResultsMeetTheForm }
{}
