//! Worked runs of small programs, by computation over the definitions of a node alone, and invariants of a booted system.
//!
//! `specs/Programs.antt` has the programs as objects, `specs/Rows.antt` what they print.
#![tactic(auto)]
