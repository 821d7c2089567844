//! What holds of objects and marks, for the layers above: each law is used by calling it.

ghost use Rattle.std.specs.Prelude.{◌≡◌, ◌↔◌, ℕ, List};
ghost use Rattle.kernel_model.specs.Bitmap.{Has};
ghost use Rattle.code_model.specs.declared.object.Object.{Object};
ghost use Rattle.code_model.specs.Fields.{fields};
ghost use Rattle.code_model.specs.Marks.{AreMarks};

/// Two objects of the same fields are equal.
pub fn same_fields_same_object()
    ensures { (a b : Object) → fields a ≡ fields b → a ≡ b }
{}

/// Two bitmaps that mark the same words are equal.
pub fn same_words_same_marks()
    ensures { (a b : List ℕ) → AreMarks a → AreMarks b → ((at : ℕ) → Has a at ↔ Has b at) → a ≡ b }
{}
