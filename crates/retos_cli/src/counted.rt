//! How many code words and units an accepted object has.

ghost use Rattle.std.specs.Prelude.{◌≡◌, ◌≤◌, length};
ghost use Rattle.retos_cli.specs.Lines.{marked_below};
ghost use Rattle.code_model.specs.declared.object.TheConstants.{CODE_WORDS_MAX};

use code_model::marks::Marks;
use code_model::object::Object;

/// The code words of an object, at most 8,192.
pub fn count_words(o: &Object) -> u32
    ensures { result ≡ length o.now.code }
{
    o.code.len() as u32
}

/// The units of an object with these unit starts, at most 8,192.
pub fn count_units(o: &Object, units: &Marks) -> u32
    ensures { result ≡ marked_below units.now (length o.now.code) }
{
    count_marks(units, o.code.len())
}

/// How many of the first words are marked.
#[tactic(auto, using(crate::proofs::Counting::marked_more, crate::proofs::Counting::unmarked_more))]
fn count_marks(units: &Marks, words: usize) -> u32
    requires { words ≤ CODE_WORDS_MAX }
    ensures { result ≡ marked_below units.now words }
{
    let mut count = 0;
    for at in 0..words {
        if units.has(2 * at as u16) {
            count += 1;
        }
    }
    count
}
