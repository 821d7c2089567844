//! Laws of the definitions, for the layers above: each is used by calling it.

ghost use Rattle.insert_model.specs.Laws.{SizeLaw, LineLaw, GroupsLaw, SizedLaw, ShortLaw, FirstVersionLaw};

use msp_decode::laws::{first_word_decides, one_instruction, reading_law};

/// An instruction that stands at a place has as many words as it is spelled in.
pub fn instruction_size()
    ensures { SizeLaw }
{}

/// The line of an instruction that stands at a place is followed by the lines behind it.
pub fn line_stands()
    ensures { LineLaw }
{
    one_instruction();
    first_word_decides();
    reading_law();
}

/// The groups are the source instructions in order. Each is one instruction or a run of two to four stores.
pub fn groups_stand()
    ensures { GroupsLaw }
{}

/// How many words the units have doesn't depend on the offsets of short jumps.
pub fn sizes_alike()
    ensures { SizedLaw }
{}

/// The offset that a short jump has in the final layout can be spelled: no distance is greater there than in the layout that told
/// that the jump is short.
pub fn short_jumps_fit()
    ensures { ShortLaw }
{}

/// In version 1 each source instruction has a unit of its own, and jumps are branches.
pub fn first_version()
    ensures { FirstVersionLaw }
{}
