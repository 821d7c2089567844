//! What callers know of registers and marks. Each law is a function that does nothing, and its contract is the law.

ghost use Rattle.std.specs.Prelude.{◌≡◌, ◌↔◌, ℕ, Bool, IsTrue, List};
ghost use Rattle.machine_model.specs.Context.{IsContext};
ghost use Rattle.kernel_threads.specs.Contexts.{taken};
ghost use Rattle.place_model.specs.Marking.{IsOwnMark};

/// Registers take a context as it is.
pub fn contexts_are_taken()
    ensures { (c : List ℕ) → IsContext c → taken c ≡ c }
{}

/// Two answers to whether an address is a mark of the running domain are the same.
pub fn mark_answers_agree()
    ensures { (m : List ℕ) (at : ℕ) (b c : Bool) → (IsTrue b ↔ IsOwnMark m at) → (IsTrue c ↔ IsOwnMark m at) → b ≡ c }
{}
