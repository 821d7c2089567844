//! A node: applications and kernel modules on one MSP430, with threads, time, interrupts, mutexes and conditions.
//!
//! Read `node.rt`' contracts first: a `Node` stands for a system of `node_model` (`Represents`), and `boot`, `step` and `run` leave
//! nodes that stand for the systems of its definitions. `objects` has the list of accepted objects that a node is given; `entries`,
//! `turns`, `calls`, `locks`, `modules` and `routines` what each entry and each vector routine does, `stepping` the cases of a
//! step, `untold` the steps of which no line tells, `booting` placing and starting, `running` a run with its lines, and `tails` the
//! lines of the last instructions before a fault. What a script gives for the next step is `script_schedule`'s.
#![tactic(auto)]

mod booting;
mod calls;
mod entries;
pub mod laws;
mod lines;
mod locks;
mod modules;
pub mod node;
pub mod objects;
mod printing;
mod quiet;
mod routines;
mod running;
mod step_laws;
mod stepping;
mod tails;
mod turns;
mod untold;

pub use node::{BootFault, End, Node};
pub use objects::ObjectList;
pub use trace_model::scripts::{At, AtKind, Ats, Every, Everys, Script, ScriptFault};
pub use trace_print::Show;
