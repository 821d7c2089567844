//! Lists of threads.

ghost use Rattle.std.specs.Prelude.{◌↔◌, ◌<◌, All, IsTrue};

/// Whether all members are identities.
pub fn are_identities(list: &[u8]) -> bool
    ensures { IsTrue result ↔ All (λ t. t < 32) list.now }
{
    list.iter().all(|t| *t < 32)
}
