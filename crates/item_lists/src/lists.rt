//! Lists that grow, which contracts see as lists.

pub use crate::items::Items;

/// A list of bytes.
pub type Bytes = Items<u8>;
