//! The kernel's tables in memory, 0200 to 0FFF, as typed rows and lists, and the interrupt vectors.
//!
//! It stands on `flat_mem` and on the definitions of `kernel_model`. No other crate names an address or a byte of the tables.
//! Contracts above speak of `kernel_of m`, the kernel that a memory has. A getter gives its part of that kernel on any memory. A
//! setter ensures `Leaves old new kernel`: the new memory has the old one's kernel with exactly that part replaced, the bytes
//! outside the tables are as before, and where the tables were laid out, or the two lists in order, they still are. No call takes
//! memory.
//!
//! `clear` begins a memory. `ready` and `sleepers` and the calls that change them stand on `queues_hold`, which tells whether a
//! memory's two lists are laid out and in order; an orderly kernel's are (`laws`). Each priority's ready threads, and the sleepers,
//! are a doubly linked queue in the threads' rows: putting a ready thread in, or taking a thread out, writes four bytes.
#![tactic(auto)]

mod domains;
mod emptying;
pub mod laws;
mod links;
mod order;
mod pieces;
mod places;
mod queues;
mod threads;
mod waiting;
mod words;

pub use domains::{app, function, module, set_app, set_function, set_module};
pub use emptying::clear;
pub use kernel_model::rows::{AppRow, FnRow, ModuleRow, MutexRow, SysWord, ThreadRow};
pub use order::queues_hold;
pub use queues::{
    first_later, ready, ready_end, ready_front, ready_take, sleep_in, sleep_take, sleepers,
};
pub use threads::{set_register, set_thread, thread};
pub use waiting::{cond, line, mutex, set_cond, set_line, set_mutex};
pub use words::{get, put};
