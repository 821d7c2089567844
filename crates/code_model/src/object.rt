//! Objects.

ghost use Rattle.std.specs.Prelude.{◌≡◌, ◌+◌, ◌*◌, ◌/◌, ◌≤◌, length};
ghost use Rattle.code_model.specs.Form.{MeetsForm};

use super::lists::{CodeWords, Exports, Relocs};
use super::parts::Kind;
use item_lists::lists::Bytes;

/// The largest number of code words.
pub const CODE_WORDS_MAX: usize = 8192;

/// The largest number of bytes of code, two for each word.
pub const CODE_BYTES_MAX: u16 = 16384;

/// The largest static part, initialised and zeroed bytes together.
pub const STATIC_BYTES_MAX: usize = 16384;

/// The largest number of relocations.
pub const RELOCS_MAX: usize = 16384;

/// The first version of the form.
pub const VERSION_MIN: u8 = 1;

/// The last version of the form.
pub const VERSION_MAX: u8 = 2;

/// The smallest stack of an application's thread, in bytes.
pub const STACK_BYTES_MIN: u16 = 16;

/// The largest stack of an application's thread, in bytes.
pub const STACK_BYTES_MAX: u16 = 1024;

/// The largest number of exports.
pub const EXPORTS_MAX: u8 = 64;

/// The last number that an export may have; the first is 0.
pub const EXPORT_NUMBER_MAX: u8 = 63;

/// An object as data. It always meets the form.
#[derive(Drop)]
pub struct Object {
    pub kind: Kind,
    /// The version of the form, 1 or 2.
    pub version: u8,
    pub code: CodeWords,
    /// The initialised bytes of the static part.
    pub init: Bytes,
    /// How many zeroed bytes of the static part follow the initialised ones.
    pub zeroed: u16,
    /// The bytes of each thread's stack.
    pub stack: u16,
    pub threads: u8,
    /// The offset in bytes of an application's first instruction.
    pub entry: u16,
    pub relocs: Relocs,
    pub exports: Exports,
    pub ghost form: { MeetsForm kind version code init zeroed stack threads entry relocs exports },
}

impl Object {
    /// The bytes of the static part, initialised and zeroed together, rounded up to even.
    pub fn static_bytes(&self) -> u16
        ensures size { result ≡ (length self.now.init + self.now.zeroed + 1) / 2 * 2 }
        ensures most { result ≤ STATIC_BYTES_MAX }
    {
        (self.init.len() as u16 + self.zeroed + 1) / 2 * 2
    }
}
