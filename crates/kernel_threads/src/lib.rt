//! The kernel's calls on threads: they begin, run, wait their turn and end, and applications with them.
//!
//! It stands on the rows and lists of `kernel_tables`, on the marks of `region_table`, on the registers of `msp_machine`, and on
//! the definitions of `kernel_model`, of which each call does one: contracts say `Leaves old new (rule ..)`, so the kernel is the
//! rule's, and the bytes outside the tables are as before. Each call stands on settled memory and leaves it settled
//! (`thread_laws`). A rule's steps are the code's, in their order. No call takes memory.
//!
//! `specs/Contexts.antt` says what registers take of sixteen words, `specs/Returns.antt` where the running domain may go on, and
//! `specs/Entries.antt` what the entries answer. By `laws`, a dispatch gives exactly the saved registers where they are a context.
//! `tick` and `wake_line` also say, by `Ticks` and `LineWakes` of `thread_laws`, who wakes, in words that aren't the code's.
#![tactic(auto)]

mod contexts;
mod dispatching;
mod ending;
mod entries;
pub mod laws;
mod leaving;
mod lines;
mod returning;
mod stacks;
mod starting;
mod time;

pub use dispatching::{dispatch, save, to_end, to_front};
pub use ending::{end_app, exit};
pub use entries::{set_priority, spawn};
pub use kernel_model::code::Code;
pub use kernel_model::ends::AppEnd;
pub use kernel_model::map::THREADS_OF_APP;
pub use kernel_model::states::NONE;
pub use lines::{wait_line, wake_line};
pub use returning::{jump, take_return};
pub use stacks::{run_none, running};
pub use starting::{get_ready, start};
pub use time::{sleep, tick};
