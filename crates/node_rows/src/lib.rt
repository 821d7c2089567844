//! Rows on a node itself: that it is no more than its public fields, and what interrupts leave in its memory.
//!
//! Nothing but tests stands here. They call `Node::boot` and `Node::step` (`retos_node`), so that crate isn't proved a second time
//! for them. What is expected is worked out by hand, or comes from outside of the program.
#![tactic(auto)]

#[cfg(test)]
mod steps;
#[cfg(test)]
mod test_support;
