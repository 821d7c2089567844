//! What the inserter makes of an object, as definitions: the source instructions as lines, the unit that stands for each of
//! them, the object with its guards, and the faults of a source object.
//!
//! `specs/Units.antt` has the table of units, a list of pieces for each source instruction. `specs/Inserted.antt` has the
//! place map and the object, and `specs/Faults.antt` what is wrong with a source object, where, and which fault comes first.
#![tactic(auto)]

pub mod aim;
pub mod fault;
pub mod laws;
pub mod line;
pub mod piece;
