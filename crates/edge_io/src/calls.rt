//! Lists of numbers of calls.

ghost use Rattle.std.specs.Prelude.{◌≡◌};
ghost use Rattle.edge_io.specs.Numbered.{has_call};

use item_lists::lists::Items;

/// A list of numbers of calls, each of 32 bits.
pub type Calls = Items<u32>;

/// Whether a list of numbers of calls has this number.
pub fn has_call(calls: &Calls, call: u64) -> bool
    ensures { result ≡ has_call calls.now call }
{
    calls.as_slice().iter().any(|item| u64::from(*item) == call)
}
