//! Copies of bytes.

ghost use Rattle.std.specs.Prelude.{◌≡◌, ◌≤◌, ◌++◌, length, drop};

/// Writes these bytes over the first of a slice that has room for them.
pub(crate) fn copy_over(into: &mut [u8], from: &[u8])
    requires { length from.now ≤ length into.old }
    ensures { into.new ≡ from.now ++ drop (length from.now) into.old }
{
    into[..from.len()].copy_from_slice(from);
}
