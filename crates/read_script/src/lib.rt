//! The reader of scripts: the script that a text stands for, or the first line that breaks a rule.
//!
//! `read_script` and `number` are the calls of the layers above. The first has the contract `GivesScript` of
//! `trace_model/specs/Grammar.antt`, whose definitions say what a text stands for; each function here
//! computes one of them and says so in its contract.
//!
//! From the bottom up: `text` (lines, words and numbers), `statements` (what each kind of line says),
//! `draft` (the script of the lines so far) and `reading` (a line, and all lines).
#![tactic(auto)]

mod draft;
pub mod reading;
mod statements;
mod text;

pub use reading::read_script;
pub use text::number;
