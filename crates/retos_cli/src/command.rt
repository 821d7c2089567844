//! The commands that words are.

use edge_io::name::Name;
use item_lists::lists::Items;
use retos_node::Show;

/// A list of names.
pub type Names = Items<Name>;

/// A run: of 1 to 16 objects under a script, or of one application without a script.
#[derive(Drop)]
pub struct Job {
    /// What is printed beside the lines that are always printed.
    pub show: Show,
    /// The script's name. None: no line is raised and no choice made, and the one object is an application.
    pub script: Option<Name>,
    /// How many steps are made at most.
    pub steps: u32,
    /// The objects, in the order in which they are placed.
    pub names: Names,
}

/// A command with its names and numbers.
#[derive(Drop)]
pub enum Command {
    /// Runs objects.
    Run(Job),
    /// Checks 1 to 16 objects.
    Check { names: Names },
    /// Assembles a source text, and writes the object.
    Asm { from: Name, to: Name },
    /// Gives an object its guards, and writes the object with them.
    Insert { from: Name, to: Name },
    /// Makes an object from a number, runs it, and writes it.
    Gen { seed: u32, to: Name },
}
