//! What holds of objects' texts, for callers: each law is a function that does nothing.

ghost use Rattle.std.specs.Prelude.{◌≡◌, ℕ, ◌<◌, List, None, slice_index};
ghost use Rattle.code_model.specs.declared.object.Object.{Object};
ghost use Rattle.object_form.specs.Spelling.{object_bytes};
ghost use Rattle.code_model.specs.Fields.{fields};
ghost use Rattle.object_form.specs.Reading.{fields_in};
ghost use Rattle.object_form.specs.Faults.{first_form_fault};

use code_model::laws::same_fields_same_object;

/// No object's text has a fault.
pub fn objects_have_no_fault()
    ensures { (o : Object) → first_form_fault (object_bytes o) ≡ None }
{}

/// A text is one object's at most.
pub fn one_object_has_a_text()
    ensures { (a b : Object) → object_bytes a ≡ object_bytes b → a ≡ b }
{
    same_fields_same_object();
}

/// A text of bytes without fault is an object's.
pub fn no_fault_means_an_object()
    ensures { (t : List ℕ) → ((k : ℕ) → slice_index t k < 256) → first_form_fault t ≡ None →
        (o : Object) × (t ≡ object_bytes o) }
{}

/// The fields that are read in an object's text by their places are the object's.
pub fn fields_stand_in_the_text()
    ensures { (o : Object) → fields_in (object_bytes o) ≡ fields o }
{}
