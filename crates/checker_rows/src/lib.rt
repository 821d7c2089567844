//! Rows on the checker: verdicts on small objects and on whole ones, in both versions.
//!
//! Nothing but tests stands here. `object_parts` puts their objects together. What is expected is worked out by hand from the
//! rules.
#![tactic(auto)]

#[cfg(test)]
mod checker;
