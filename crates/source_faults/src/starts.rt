//! The places where source instructions start.

ghost use Rattle.std.specs.Prelude.{◌<◌, ◌↔◌, IsTrue};
ghost use Rattle.code_model.specs.declared.object.TheConstants.{CODE_WORDS_MAX};
ghost use Rattle.code_model.specs.Starts.{AreStarts};
ghost use Rattle.insert_model.specs.Faults.{IsStartOffset, IsJumpStart};
ghost use Rattle.source_faults.specs.Read.{StartsIn, AreWhole, IsSource};

use code_model::marks::Marks;
use code_model::object::{CODE_BYTES_MAX, Object};
use insert_model::line::Line;
use static_checker::marking::{jump_place, mark};

/// The places where lines start, as marks.
pub fn starts(o: &Object, lines: &[Line]) -> Marks
    requires { IsSource o.now lines.now }
    ensures { AreStarts o.now.code result }
{
    let mut marks = Marks::new();
    for line in lines {
        mark(&mut marks, line.at);
    }
    marks
}

/// Tells whether a word is the offset of a start.
pub(crate) fn is_start_offset(o: &Object, starts: &Marks, word: u16) -> bool
    requires { AreStarts o.now.code starts.now }
    ensures { IsTrue result ↔ IsStartOffset o.now.code word }
{
    if word % 2 == 1 {
        return false;
    }
    if CODE_BYTES_MAX <= word {
        return false;
    }
    starts.has(word)
}

/// Tells whether a jump at a place, with an offset in words from the place behind it, goes to a start.
pub(crate) fn is_jump_start(o: &Object, starts: &Marks, at: usize, offset: i16) -> bool
    requires starts { AreStarts o.now.code starts.now }
    requires within { at < CODE_WORDS_MAX }
    ensures { IsTrue result ↔ IsJumpStart o.now.code at offset }
{
    match jump_place(at, offset) {
        Some(target) => starts.has((2 * target) as u16),
        None => false,
    }
}
