//! Laws of generated objects, for the layers above: each is used by calling it.
//!
//! `specs/Laws.antt` states them: the inserter never refuses the source object of a number, and what it makes of it has at
//! most 7,664 words and has room on an empty node. `specs/Instructions.antt` has the instructions of each block.
#![tactic(auto)]

ghost use Rattle.gen_laws.specs.Laws.{NeverRefused, StaysSmall, HasRoom};

use code_laws::one_stands;
use insert_model::laws::{first_version, line_stands};

/// Nothing is wrong with a generated object: the inserter never refuses it.
pub fn never_refused()
    ensures { NeverRefused }
{
    one_stands();
    line_stands();
    first_version();
}

/// A generated object with its guards has at most 7,664 words.
pub fn stays_small()
    ensures { StaysSmall }
{
    line_stands();
    first_version();
}

/// A generated object with its guards has room on an empty node.
pub fn has_room()
    ensures { HasRoom }
{
    line_stands();
    first_version();
}
