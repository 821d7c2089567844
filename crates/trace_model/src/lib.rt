//! What a step is recorded as, the lines of a trace, and the scripts that a run stands under, as definitions.
//!
//! `records` declares a step's record; `specs/Texts.antt` has its line, and the lines of a run. `scripts` declares what raises
//! lines and picks threads; `specs/Grammar.antt` has the script that a text stands for, `specs/Scripts.antt` the rules that one
//! meets, and `specs/Draws.antt` what it gives for a step. The crate stands on `line_text` for hexadecimal digits, on `item_lists`
//! for a list that grows, and on `machine_model` for the list of written bytes.
#![tactic(auto)]

pub mod records;
pub mod script_laws;
pub mod scripts;
