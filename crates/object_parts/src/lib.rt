//! Objects put together from their parts, for the rows that check, insert guards into, and load them.
//!
//! `texts` writes the text of an object from the numbers of its head and from its lists, and promises nothing of it: what is no
//! object's may be written too, since rows are of that as well. `parts` reads such a text as an object. Both stand on the object
//! (`code_model`) and on the reader of its text (`object_form`), and neither aborts. Crates of tests use them.
#![tactic(auto)]

pub mod parts;
pub mod texts;
