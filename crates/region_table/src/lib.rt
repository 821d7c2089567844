//! Where objects are placed and which of their words are marks.
//!
//! It stands on the rows of `kernel_tables` and on the definitions of `place_model`. `place` takes the least free row of the kind
//! and the lowest gaps of the two pools that fit, and fills the row; a gap is a maximal run of addresses of a pool in no domain's
//! range. `set_marks` makes the bits of a domain's code exactly its object's marks, and `is_marked` tells whether an address is a
//! mark of a domain. No call takes memory, each row is read once, and the only bytes outside the tables that are looked at are
//! those of the bitmap of marks, 1100 to 18FF.
#![tactic(auto)]

mod marking;
mod placing;
mod rows;
mod search;

pub use marking::{is_marked, set_marks};
pub use place_model::places::{NoRoom, Regions};
pub use placing::{free_row, place};
