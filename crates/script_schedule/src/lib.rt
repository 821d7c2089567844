//! What a script gives a run for each step: the lines that it raises and the pick.
//!
//! `Schedule` moves along a script as a run makes its steps: `new`, then `next` for each step in its turn, and `has_later` tells
//! whether the script still gives anything. `IsReady` (`specs/Readiness.antt`) says what it has ready after so many steps.
#![tactic(auto)]

pub mod schedule;
