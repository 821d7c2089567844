//! The states of the kernel's rows, as their words have them.

/// No thread, no module, no owner, in place of a number.
pub const NONE: u16 = 0xFFFF;

/// Of a row of each kind: nothing is there.
pub const FREE: u16 = 0;

/// Of an application or a module: it is placed, and hasn't ended.
pub const LIVE: u16 = 1;
/// Of an application: its last thread ended.
pub const DONE: u16 = 2;
/// Of an application: one of its tests failed.
pub const FAULTED: u16 = 3;
/// Of a module: it ended.
pub const ENDED: u16 = 2;

/// Of a thread: it waits for its turn on a ready list.
pub const READY: u16 = 1;
/// Of a thread: it runs.
pub const RUNNING: u16 = 2;
/// Of a thread: it waits for a tick.
pub const ASLEEP: u16 = 3;
/// Of a thread: it waits for a mutex.
pub const ON_MUTEX: u16 = 4;
/// Of a thread: it waits on a condition.
pub const ON_CONDITION: u16 = 5;
/// Of a thread: it waits for an interrupt line.
pub const ON_LINE: u16 = 6;
/// Of a thread: it runs in a module.
pub const CALLING: u16 = 7;
