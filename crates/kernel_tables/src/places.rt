//! Where the tables lie, in bytes.

use kernel_model::map::TABLES;

/// The kernel's words, from CURLIM on.
pub const SYSTEM_WORDS: u16 = TABLES;
/// The unused words behind them.
pub const UNUSED_WORDS: u16 = 0x0210;
/// The first and the last thread of each queue.
pub const QUEUE_ENDS: u16 = 0x0220;
/// The unused bytes behind them.
pub const UNUSED_ENDS: u16 = 0x0232;
/// The applications' rows.
pub const APP_ROWS: u16 = 0x0260;
/// The modules' rows.
pub const MODULE_ROWS: u16 = 0x02E0;
/// The functions' rows.
pub const FUNCTION_ROWS: u16 = 0x0320;
/// The threads' rows.
pub const THREAD_ROWS: u16 = 0x0420;
/// The mutexes' rows.
pub const MUTEX_ROWS: u16 = 0x0A20;
/// The conditions' lists.
pub const CONDITION_LISTS: u16 = 0x0B20;
/// The lines' lists.
pub const LINE_LISTS: u16 = 0x0BA0;
/// The unused bytes behind the lines' lists.
pub const UNUSED_END: u16 = 0x0D60;
/// The bytes of a word.
pub const WORD_BYTES: u16 = 2;
/// The bytes of an application's row.
pub const APP_ROW_BYTES: u16 = 16;
/// The bytes of a module's row.
pub const MODULE_ROW_BYTES: u16 = 16;
/// The bytes of a function's row.
pub const FUNCTION_ROW_BYTES: u16 = 4;
/// The bytes of a thread's row.
pub const THREAD_ROW_BYTES: u16 = 48;
/// Where the priority stands in a thread's row.
pub const PRIORITY_AT: u16 = 34;
/// Where the next link stands in a thread's row.
pub const NEXT_AT: u16 = 44;
/// Where the previous link stands in a thread's row.
pub const PREVIOUS_AT: u16 = 45;
/// The bytes of a mutex's row.
pub const MUTEX_ROW_BYTES: u16 = 8;
/// The bytes of a condition's list.
pub const CONDITION_LIST_BYTES: u16 = 4;
/// The bytes of a line's list.
pub const LIST_BYTES: u16 = 32;

/// The number of the sleepers' queue. The ready queues have their priorities' numbers.
pub const SLEEPERS: u8 = 8;
