//! A line of a trace.

ghost use Rattle.std.specs.Prelude.{◌≡◌, ◌+◌, ◌≤◌, ◌++◌, length, codes};

use line_text::line::Line as Text;
use std::marker::Model;

/// How many bytes a line has at most, LF included.
pub const LINE_BYTES: usize = 96;

/// A line of a trace, at most `LINE_BYTES` bytes. Contracts see its bytes.
#[derive(Drop)]
pub struct Line {
    text: Text,
}

impl Model for Line {
    ghost use Rattle.std.specs.Prelude.{List, ℕ, length, ◌≤◌};

    ghost Value = { List ℕ };

    ghost view = { λ line. line.text };

    ghost invariant = { λ line. length line.text ≤ 96 };
}

impl Line {
    /// A text, and LF behind it.
    pub(crate) fn ended(mut text: Text) -> Line
        requires { length text + 1 ≤ 96 }
        ensures { result ≡ text ++ codes "\n" }
    {
        text.push(b'\n');
        Line { text }
    }

    /// The bytes.
    pub fn as_slice(&self) -> &[u8]
        ensures bytes { result.now ≡ self.now }
        ensures size { length result.now ≤ LINE_BYTES }
    {
        self.text.as_slice()
    }
}
