//! Rows on the kernel's tables: each row, list and queue at its address, and each setter beside each getter.
//!
//! Nothing but tests stands here. The rows make public calls of `kernel_tables`, so that it isn't proved a second time for them.
//! What is expected is worked out by hand from the tables' addresses.
#![tactic(auto)]

#[cfg(test)]
mod tables;
