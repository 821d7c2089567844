//! What the rows on the kernel begin with, and what they look at in it.
//!
//! `memories` makes memories of loaded applications, each settled (`IsSettled` of `place_model`), and reads what rows compare;
//! `lists` has a test of a list of threads. They stand on the tables and places (`kernel_tables`, `region_table`), and abort
//! nowhere. Crates of tests use them.
#![tactic(auto)]

pub mod lists;
pub mod memories;
