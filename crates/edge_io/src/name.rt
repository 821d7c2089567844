//! Names of files.

ghost use Rattle.std.specs.Prelude.{◌≡◌, ◌≤◌, ℕ, List, take, MatchOption};
ghost use Rattle.edge_io.specs.Naming.{IsName, NoName};

use crate::copying::copy_over;
use std::marker::Model;

/// The most bytes that a name has.
pub const NAME_BYTES: usize = 255;

/// The name of a file: 1 to 255 bytes, which contracts see as their list.
#[derive(Drop)]
pub struct Name {
    bytes: [u8; 255],
    len: usize,
}

impl Model for Name {
    ghost Value = { List ℕ };

    ghost view = { λ name. take name.len name.bytes };

    ghost invariant = { λ name. (1 ≤ name.len) × (name.len ≤ 255) };
}

impl Name {
    /// The name of these bytes. None exactly where there are none or over 255.
    pub fn from_slice(from: &[u8]) -> Option<Name>
        ensures { MatchOption result (NoName from.now) (λ name. IsName from.now × (name ≡ from.now)) }
    {
        if from.is_empty() || from.len() > NAME_BYTES {
            return None;
        }
        let mut bytes = [0; NAME_BYTES];
        copy_over(&mut bytes, from);
        Some(Name {
            bytes,
            len: from.len(),
        })
    }

    /// The bytes, 1 to 255.
    pub fn as_slice(&self) -> &[u8]
        ensures bytes { result.now ≡ self.now }
        ensures size { IsName self.now }
    {
        &self.bytes[..self.len]
    }

    /// The same name again.
    pub fn copied(&self) -> Name
        ensures { result ≡ self.now }
    {
        Name {
            bytes: self.bytes,
            len: self.len,
        }
    }
}
