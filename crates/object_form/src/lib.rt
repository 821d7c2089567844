//! Objects: what an assembler gives and a loader places, as data and as text.
//!
//! An `Object` always meets the form of `specs/Form.antt`. `object_bytes` (`specs/Spelling.antt`) is its
//! one text, written as a concatenation of its fields. `first_form_fault` (`specs/Faults.antt`) is what
//! is wrong with a text that is no object's: the fields of a text are a table, each with its place, its
//! size and its conditions in order, and the first condition of the first field that fails is the fault.
//!
//! - `layout` is the table that both sides and the definitions share: where each field stands, and its size.
//! - `reading::read_object` gives the object of a text, or exactly that fault.
//! - `writing::write_object` gives the text of an object.
//! - `laws` has what callers need of both: no object's text has a fault, a text without fault is an
//!   object's, and of one object only.
//! - `lists` are the lists of an object, and `marks` is a set of its code words.
#![tactic(auto)]

pub mod fault;
mod head;
pub mod laws;
pub mod layout;
mod lists;
pub mod reading;
mod sections;
pub mod writing;

pub use code_model::lists::{CodeWords, Exports, Relocs};
pub use code_model::marks::Marks;
pub use code_model::object::Object;
pub use code_model::parts::{Export, Kind, RelKind, Reloc};
