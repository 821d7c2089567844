//! The kernel's calls on modules: a thread enters a module by the number of a function, and the module leaves or ends.
//!
//! It stands on the rows of `kernel_tables`, on `kernel_threads`, on the registers of `msp_machine`, and on the definitions of
//! `kernel_model` (`Modules.antt`), of which each call does one: contracts say which kernel is left, so the bytes outside the
//! tables are as before. Each call stands on settled memory and leaves it settled (`module_laws`). No call takes memory.
//!
//! `specs/Calls.antt` says what entering leaves in the registers.
#![tactic(auto)]

mod entering;
mod leaving;
mod loading;

pub use entering::enter;
pub use kernel_threads::Code;
pub use leaving::{end_module, leave};
pub use loading::load_module;
pub use region_table::NoRoom;
