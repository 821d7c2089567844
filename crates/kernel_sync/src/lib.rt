//! The kernel's calls on mutexes and conditions: the running thread locks and unlocks mutexes of its application, waits for
//! conditions, and wakes those that wait.
//!
//! It stands on the rows and lists of `kernel_tables`, on `kernel_threads`, and on the definitions of `kernel_model` (`Sync.antt`),
//! of which each call does one: contracts say which kernel is left, so the bytes outside the tables are as before. Each call stands
//! on settled memory and leaves it settled (`sync_laws`). No call takes memory.
//!
//! `specs/Answers.antt` says what a call answers and leaves. What is promised of owners and of those that wait is `KeepsLocks` in
//! `kernel_model` (`Locks.antt`); each call names it.
#![tactic(auto)]

mod caller;
mod conditions;
mod mutexes;
mod waiting;

pub use conditions::{broadcast, signal, wait};
pub use kernel_threads::Code;
pub use mutexes::{hand_over_all, lock, unlock};
