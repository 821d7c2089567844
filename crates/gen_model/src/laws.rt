//! What holds of the definitions, for callers: each law is a function that does nothing.

ghost use Rattle.gen_model.specs.Laws.{GeneratedMeetsTheForm};

/// The fields of a generated object meet the form of objects.
pub fn generated_meets_the_form()
    ensures { GeneratedMeetsTheForm }
{}
