//! The lists of an object.

use super::parts::{Export, Reloc};
use item_lists::lists::Items;

/// A list of code words, each of 16 bits.
pub type CodeWords = Items<u16>;

/// A list of relocations.
pub type Relocs = Items<Reloc>;

/// A list of exports.
pub type Exports = Items<Export>;
