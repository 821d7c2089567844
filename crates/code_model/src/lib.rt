//! Objects as data, and what the checker decides, as definitions: the starts of an object's code, the four guards, interior places,
//! unit starts, the fourteen rules, the verdict as a least over all places, and which instructions are dangerous.
//!
//! An `Object` always meets the form of `specs/Form.antt`; `lists` are its lists, `parts` their members, and `marks` is a set of
//! its code words; `forms` asks which forms operands have; `laws` says when two objects or two sets are equal. `object_form` has
//! the object's text, which nothing here speaks of.
//!
//! `specs/Verdicts.antt` has the verdict, `specs/Guards.antt` the guards and `specs/Rules.antt` what each rule refuses.
#![tactic(auto)]

pub mod forms;
pub mod guards;
pub mod laws;
pub mod lists;
pub mod marks;
pub mod object;
pub mod parts;
pub mod rules;
pub mod verdict;
