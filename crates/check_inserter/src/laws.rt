//! A law of the definitions, for the layers above: it is used by calling it.

ghost use Rattle.std.specs.Prelude.{Result};
ghost use Rattle.code_model.specs.declared.object.Object.{Object};
ghost use Rattle.insert_model.specs.declared.fault.InsertFault.{InsertFault};
ghost use Rattle.insert_model.specs.Faults.{IsAnswer, SameAnswer};

use code_laws::one_verdict;
use code_model::laws::same_fields_same_object;

/// An object has one answer.
pub fn one_answer()
    ensures { (o : Object) (a b : Result Object InsertFault) → IsAnswer o a → IsAnswer o b → SameAnswer a b }
{
    one_verdict();
    same_fields_same_object();
}
