//! Lists that grow at their end.
//!
//! `Items` is a list of values of one type, and contracts see it as a list; `Bytes` is the one of bytes. A call that wants memory
//! leaves the list as it was where there is none. Crates above name the lists that they need after what is in them. The crate
//! stands on `std` alone.
#![tactic(auto)]

pub mod items;
pub mod lists;
