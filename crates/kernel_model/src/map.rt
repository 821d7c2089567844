//! The map of a node's memory, in byte addresses, and how much a node has of what. An end is the address behind the last byte.

/// The first byte of the kernel's tables.
pub const TABLES: u16 = 0x0200;
/// The end of the kernel's tables.
pub const TABLES_END: u16 = 0x1000;

/// The word that has the limit of the running stack: the address that SP has to reach for a push or a call to pass.
pub const STACK_LIMIT: u16 = 0x0200;
/// The word that has the end of the running stack.
pub const STACK_TOP: u16 = 0x0202;

/// The lowest byte of the kernel's stack, on which modules run.
pub const KERNEL_STACK: u16 = 0x1000;
/// The limit of the kernel's stack: the address that SP has to reach there for a push or a call to pass.
pub const KERNEL_LIMIT: u16 = 0x1006;
/// The end of the kernel's stack, where SP starts.
pub const KERNEL_TOP: u16 = 0x1100;

/// The first byte of the bitmap of marks, which has a bit for each word of the code pool.
pub const BITMAP: u16 = 0x1100;
/// The end of the bitmap of marks.
pub const BITMAP_END: u16 = 0x1900;

/// The first byte of the data pool, in which regions are placed.
pub const DATA_POOL: u16 = 0x2000;
/// The end of the data pool.
pub const DATA_POOL_END: u16 = 0x6000;

/// The first byte of the code pool, in which code is placed.
pub const CODE_POOL: u16 = 0x6000;
/// The end of the code pool.
pub const CODE_POOL_END: u16 = 0xE000;

/// Where PC stands while nothing runs. No code and no entry is there.
pub const IDLE: u16 = 0xF07E;
/// The routine of line 0. That of each further line is one word higher.
pub const FIRST_ROUTINE: u16 = 0xF080;
/// The routine of line 13, the last.
pub const LAST_ROUTINE: u16 = 0xF09A;

/// The vector of line 0: a word, the address of its routine. That of each further line is one word higher.
pub const VECTORS: u16 = 0xFFE0;
/// The end of the lines' vectors.
pub const VECTORS_END: u16 = 0xFFFC;

/// How many applications a node has, and the number of the first module among the domains.
pub const APPS: u8 = 8;
/// How many modules a node has.
pub const MODULES: u8 = 4;
/// How many domains a node has: its applications and its modules.
pub const DOMAINS: usize = 12;
/// How many threads an application has at most.
pub const THREADS_OF_APP: u8 = 4;
/// How many mutexes an application has.
pub const MUTEXES: u8 = 4;
/// How many interrupt lines a node has.
pub const LINES: u8 = 14;

/// How many instructions a call of a module may take.
pub const MODULE_BUDGET: u16 = 4096;
