//! Memory that was cleared is ready for loading. The law is a function that does nothing, and its contract is the law.

ghost use Rattle.std.specs.Prelude.{ℕ, List};
ghost use Rattle.kernel_tables.specs.Clearing.{Cleared};
ghost use Rattle.place_model.specs.Settled.{IsSettled};

use kernel_model::laws::empty_is_orderly;

/// Memory with the empty kernel is settled.
pub fn cleared_is_settled()
    ensures { (before after : List ℕ) → Cleared before after → IsSettled after }
{
    empty_is_orderly();
}
