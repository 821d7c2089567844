//! The program that runs the examples of its folder `data` through the top call, over folders in memory.
//!
//! `sources` has the texts and what stands in them, `commands` a command over files in memory, `guards` what the sources give,
//! `words` what three of them leave in their regions, and `attacks` the attack programs. What it has to print stands in the file
//! `stdout`, which doesn't come from it.
#![tactic(auto)]

mod attacks;
mod commands;
mod guards;
mod sources;
mod words;

use std::io;

fn main(rt: HostRuntime) -> io::Result<()> {
    guards::compare_objects(&rt)?;
    guards::print_guarded(&rt)?;
    guards::print_node(&rt)?;
    words::compare_words(&rt)?;
    attacks::compare_attacks(&rt)
}
