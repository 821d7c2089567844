//! A record's line in a trace.
//!
//! `text` is the one call of the layers above: its bytes are `record_text` of `trace_model/specs/Texts.antt`, and no text is
//! cut, since the longest of each kind fits a `Line`. The crate stands on `trace_model` for records and texts, on
//! `machine_model` for the list of written bytes, and on `line_text` for digits.
//!
//! From the bottom up: `line` (the type), `parts` (whose step it was, names, written bytes), `record_lines` (a line for each
//! kind of record), `tail` (the last eight instructions, which are shown before a fault, each behind a bar) and `show` (what a run
//! prints, and what its tail keeps for that).
#![tactic(auto)]

pub mod line;
mod parts;
pub mod record_lines;
pub mod show;
pub mod tail;

pub use record_lines::text;
pub use show::Show;
pub use tail::{Tail, barred};
pub use trace_model::records::{FaultKind, Record, Who};
