//! Rows on what is done to the kernel's memory beside its calls: places and marks, loading, and interrupts that are accepted.
//!
//! Nothing but tests stands here. The rows make public calls of `region_table`, `reloc_loader` and `interrupts`, so that none of
//! those is proved a second time for them. The texts of objects that are loaded are written by `object_parts`. What is expected is
//! worked out by hand from the tables' addresses and from the rules.
#![tactic(auto)]

#[cfg(test)]
mod acceptances;
#[cfg(test)]
mod loading;
#[cfg(test)]
mod regions;
