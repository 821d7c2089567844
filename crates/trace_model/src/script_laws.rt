//! What holds of scripts, for callers: each law is a function that does nothing.

ghost use Rattle.trace_model.specs.ScriptLaws.{TextsGiveScripts, TextsGiveOneScript};

/// The script that a text stands for meets the rules.
pub fn texts_give_scripts()
    ensures { TextsGiveScripts }
{}

/// A text gives one answer.
pub fn texts_give_one_script()
    ensures { TextsGiveOneScript }
{}
