//! Counts of calls and of faults.

ghost use Rattle.std.specs.Prelude.{◌≡◌};
ghost use Rattle.edge_io.specs.Memory.{one_up};

/// One more, but for the last value, which stays.
pub(crate) fn one_up(count: u64) -> u64
    ensures { result ≡ one_up count }
{
    if count < u64::MAX { count + 1 } else { count }
}
