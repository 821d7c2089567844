//! The table of an object's text, for its reader and its writer alike: where each field stands, how many bytes it has, and the
//! numbers that stand for kinds and sections. Every offset and every size is in bytes; a word's low byte comes first. The limits of
//! the fields are those of objects, in `code_model::object`.

/// The four bytes that a text begins with: `RETO`.
pub const MAGIC: [u8; 4] = [0x52, 0x45, 0x54, 0x4F];

/// Where the magic bytes stand.
pub const MAGIC_AT: usize = 0;

/// How many magic bytes there are.
pub const MAGIC_BYTES: usize = 4;

/// Where the version stands, a byte.
pub const VERSION_AT: usize = 4;

/// Where the object's kind stands, a byte.
pub const KIND_AT: usize = 5;

/// Where the number of code words stands, a word.
pub const CODE_COUNT_AT: usize = 6;

/// Where the number of initialised bytes stands, a word.
pub const INIT_COUNT_AT: usize = 8;

/// Where the number of zeroed bytes stands, a word.
pub const ZEROED_AT: usize = 10;

/// Where the bytes of each thread's stack stand, a word.
pub const STACK_AT: usize = 12;

/// Where the number of threads stands, a byte.
pub const THREADS_AT: usize = 14;

/// Where the number of exports stands, a byte.
pub const EXPORT_COUNT_AT: usize = 15;

/// Where the offset of the first instruction stands, a word.
pub const ENTRY_AT: usize = 16;

/// Where the number of relocations stands, a word.
pub const RELOC_COUNT_AT: usize = 18;

/// The bytes of the head, which the code words follow.
pub const HEAD_BYTES: usize = 20;

/// The bytes of a word.
pub const WORD_BYTES: usize = 2;

/// The bytes of a relocation, and those of an export.
pub const RECORD_BYTES: usize = 4;

/// Where the kind stands in a relocation, a byte; in an export this byte is 0. Before it stands a relocation's section, or an
/// export's number.
pub const RECORD_KIND_AT: usize = 1;

/// Where the offset stands in a relocation and in an export, a word.
pub const RECORD_OFFSET_AT: usize = 2;

/// The number of an application.
pub const APP_NUMBER: u8 = 1;

/// The number of a module.
pub const MODULE_NUMBER: u8 = 2;

/// The number of the relocation CODE.
pub const RELOC_CODE: u8 = 1;

/// The number of the relocation DATA, the last that initialised bytes may have.
pub const RELOC_DATA: u8 = 2;

/// The number of the relocation LO.
pub const RELOC_LO: u8 = 3;

/// The number of the relocation HI, the last that code may have.
pub const RELOC_HI: u8 = 4;

/// The number of the code as a relocation's section.
pub const CODE_SECTION: u8 = 0;

/// The number of the initialised bytes as a relocation's section.
pub const INIT_SECTION: u8 = 1;
