//! What the generator makes of a number, as definitions: the source object of N.
//!
//! A number gives draws (`specs/Draws.antt`), draws give blocks, each a few instructions (`block` has their type,
//! `specs/Blocks.antt` their words), and the blocks one behind another are the code of an application
//! (`specs/Generated.antt`). `laws` says that it meets the form of objects.
#![tactic(auto)]

pub mod block;
pub mod laws;
