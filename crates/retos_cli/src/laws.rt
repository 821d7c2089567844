//! What holds of the definitions, for the top call: the law is used by calling it.

ghost use Rattle.std.specs.declared.option.Option.{Option};
ghost use Rattle.edge_io.specs.Known.{Files};
ghost use Rattle.retos_cli.specs.declared.command.Command.{Command};
ghost use Rattle.retos_cli.specs.Meaning.{HasOneAnswer};

use check_inserter::laws::one_answer;
use code_laws::one_verdict;
use code_model::laws::{same_fields_same_object, same_words_same_marks};
use object_form::laws::{objects_have_no_fault, one_object_has_a_text};

/// Words have one answer in a folder of these files.
pub fn words_have_one_answer()
    ensures { (command : Option Command) (m : Files) → HasOneAnswer command m }
{
    one_verdict();
    one_answer();
    one_object_has_a_text();
    objects_have_no_fault();
    same_fields_same_object();
    same_words_same_marks();
}
