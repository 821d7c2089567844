//! The edge of the program: what it reads and what it writes, seen through two traits.
//!
//! A [`Folder`] holds files by name, a [`Sink`] takes bytes in order. Each means a record (`FolderState`, `SinkState` of
//! `specs/Known.antt`): the contents, where they are told, counts of faults that never fall, and for a folder the last
//! failed name and the created name. `read_all`, `write_all` and `write_file` take and give whole contents; what they
//! answer, and when a fault may be answered (`specs/Causes.antt`), is what the layers above build on. `MemFolder` and
//! `MemSink` are exact forms in memory, with calls that can be made to fail (`specs/Memory.antt`). `StdFolder` and
//! `StdSink` stand over files and standard streams, and tell no contents. The crate stands on `item_lists` for bytes that grow.
#![tactic(auto)]

pub mod calls;
mod copying;
mod counts;
pub mod folder;
pub mod mem_folder;
pub mod mem_sink;
pub mod name;
pub mod null_sink;
pub mod sink;
pub mod standard;
mod std_folder;
mod std_sink;
pub mod whole;
pub mod words;
