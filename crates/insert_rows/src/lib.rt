//! Rows on the inserter: units and faults of small objects, each worked out by hand from the table of units.
//!
//! Nothing but tests stands here. `rows` has the objects that `table` looks at, and `faulty` those of `faults`; `groups` and
//! `jumps` are of version 2. `object_parts` puts the objects together.
#![tactic(auto)]

#[cfg(test)]
mod answers;
#[cfg(test)]
mod faults;
#[cfg(test)]
mod faulty;
#[cfg(test)]
mod groups;
#[cfg(test)]
mod jumps;
#[cfg(test)]
mod rows;
#[cfg(test)]
mod table;
