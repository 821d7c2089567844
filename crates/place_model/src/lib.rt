//! Where an object's code and region are placed, and which places are marked, as definitions.
//!
//! `specs/Gaps.antt` has the gaps that ranges of addresses leave in a pool and the lowest one that fits, `specs/Placing.antt` the
//! number, the code and the region that an object gets among the rows of a kernel, `specs/Marking.antt` the bitmap of marks.
//! `laws` ties the gaps that are computed to "a maximal run of addresses of the pool that lie in no range", and a place to them.
#![tactic(auto)]

pub mod laws;
pub mod places;
