//! Rows on files, streams, names and lists: what whole reads and writes answer and leave, in memory and over the system.
//!
//! Nothing but tests stands here. They make public calls of `edge_io` and `item_lists`, so that neither is proved a second time for
//! them. `list_rows` has names, words and lists, `sink_rows` sinks, `folder_rows` folders, and `system_rows` the system's own files
//! and its standard output.
#![tactic(auto)]

#[cfg(test)]
mod folder_rows;
#[cfg(test)]
mod list_rows;
#[cfg(test)]
mod sink_rows;
#[cfg(test)]
mod system_rows;
#[cfg(test)]
mod test_support;
