//! Rows on code: words and what they spell, what instructions do, the memory that they do it in, texts of objects, and marks.
//!
//! Nothing but tests stands here. They make public calls of the crates whose names they have, so none of those is proved a second
//! time for them. What is expected is worked out by hand from the tables, or comes from outside of the program.
#![tactic(auto)]

#[cfg(test)]
mod decoder;
#[cfg(test)]
mod encoder;
#[cfg(test)]
mod generated;
#[cfg(test)]
mod machine;
#[cfg(test)]
mod memory;
#[cfg(test)]
mod object_texts;
#[cfg(test)]
mod unit_marks;
