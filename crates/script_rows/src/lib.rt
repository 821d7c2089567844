//! Rows on scripts: what a text of lines stands for, and the first line that breaks a rule; on the lines of records, and on the
//! text of a line.
//!
//! Nothing but tests stands here. They make public calls of `read_script`, `trace_model`, `trace_print` and `line_text`, so none of
//! those is proved a second time for them.
#![tactic(auto)]

#[cfg(test)]
mod line_texts;
#[cfg(test)]
mod record_lines;
#[cfg(test)]
mod scripts;
