//! Laws of the definitions, each a function that does nothing: its clause is the law.

ghost use Rattle.node_model.specs.Laws.{FetchedLaw, RowlessLaw, UnspelledLaw};

use msp_decode::laws::{no_proper_prefix, one_instruction, reading_law};

/// A step at which no instruction is spelled has no confined record. So where each record is confined, none comes.
pub fn unspelled_is_not_confined()
    ensures { UnspelledLaw }
{}

/// Nor has a step at an entry that has no row for who runs.
pub fn rowless_is_not_confined()
    ensures { RowlessLaw }
{}

/// An instruction is fetched exactly where the words spell it: the decoder that computes a step is by the relation of spelling.
pub fn fetched_where_spelled()
    ensures { FetchedLaw }
{
    reading_law();
    one_instruction();
    no_proper_prefix();
}
