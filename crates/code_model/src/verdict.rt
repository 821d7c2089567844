//! What the checker answers.

use super::marks::Marks;

/// An object is accepted, with the marks of its unit starts, or refused by a rule, 1 to 14, at a place: an offset in bytes.
#[derive(Drop)]
pub enum Verdict {
    Accepted(Marks),
    Refused { rule: u8, place: u16 },
}
