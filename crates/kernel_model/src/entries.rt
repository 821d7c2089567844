//! The addresses of the kernel's entries. Code goes to one by a branch or a call.

/// A store outside of the region.
pub const STORE_FAULT: u16 = 0xF000;
/// The stack would leave its bounds.
pub const STACK_FAULT: u16 = 0xF002;
/// A computed jump, to the address in R4.
pub const GOES: u16 = 0xF004;
/// A computed call, of the address in R4.
pub const CALLS: u16 = 0xF006;
/// A thread's end.
pub const EXITS: u16 = 0xF008;
/// A new thread: the first entry that pops its return address.
pub const SPAWN: u16 = 0xF00A;
/// The end of a thread's turn.
pub const YIELD: u16 = 0xF00C;
/// Waiting for ticks.
pub const SLEEP: u16 = 0xF00E;
/// Another priority.
pub const PRIORITY: u16 = 0xF010;
/// Who runs.
pub const IDENTITY: u16 = 0xF012;
/// The tick number.
pub const TICKS: u16 = 0xF014;
/// Locking a mutex.
pub const LOCK: u16 = 0xF016;
/// Unlocking one.
pub const UNLOCK: u16 = 0xF018;
/// Waiting for a condition.
pub const WAIT: u16 = 0xF01A;
/// Waking one that waits for one.
pub const SIGNAL: u16 = 0xF01C;
/// Waking all.
pub const BROADCAST: u16 = 0xF01E;
/// Waiting for a line.
pub const LINE: u16 = 0xF020;
/// A call of a module's function.
pub const MODULE_CALL: u16 = 0xF022;
/// A value that is printed: the last entry that pops its return address.
pub const EMITS: u16 = 0xF024;
/// A module's return: the last entry.
pub const LEAVE: u16 = 0xF026;

/// The lowest entry. Code that is placed lies below.
pub const FIRST_ENTRY: u16 = STORE_FAULT;
/// The highest entry.
pub const LAST_ENTRY: u16 = LEAVE;
