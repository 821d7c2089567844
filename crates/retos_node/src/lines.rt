//! The lines of a run that no record has: where an object was placed, and the end.

ghost use Rattle.std.specs.Prelude.{◌≡◌, ◌<◌, ◌≤◌, ◌+◌, ◌++◌, length, codes, decimal};
ghost use Rattle.line_text.specs.Hexadecimal.{hex_word};
ghost use Rattle.trace_model.specs.Texts.{end_of_line, space};
ghost use Rattle.kernel_model.specs.Layout.{kernel_of};
ghost use Rattle.node_model.specs.Nodes.{placement_line, reason_text};

use flat_mem::FlatMem;
use kernel_model::map::APPS;
use kernel_tables::{app, module};
use line_text::line::Line;

/// Where the domain with this number, below 12, was placed.
pub(crate) fn of_placement(m: &FlatMem, number: u8) -> Line
    requires { number < 12 }
    ensures { result ≡ placement_line (kernel_of m.now) number }
{
    if number < APPS {
        let row = app(m, number);
        of_places(b"a", number, row.code_lo, row.code_hi, row.lo, row.hi)
    } else {
        let row = module(m, number - APPS);
        of_places(
            b"m",
            number - APPS,
            row.code_lo,
            row.code_hi,
            row.lo,
            row.hi,
        )
    }
}

/// The places of a code and a region, behind the name that a letter and a number are.
fn of_places(letter: &[u8], number: u8, code_lo: u16, code_hi: u16, lo: u16, hi: u16) -> Line
    requires { length letter.now ≡ 1 }
    ensures { result ≡ letter.now ++ decimal number ++ space ++ hex_word code_lo ++ space ++ hex_word code_hi ++ space ++ hex_word lo ++ space ++ hex_word hi ++ end_of_line }
{
    let mut line = Line::new();
    line.push_text(letter);
    line.push_decimal(number as u32);
    push_spaced(&mut line, code_lo);
    push_spaced(&mut line, code_hi);
    push_spaced(&mut line, lo);
    push_spaced(&mut line, hi);
    line.push(b'\n');
    line
}

/// Appends a space and a word.
fn push_spaced(line: &mut Line, word: u16)
    requires { length line.old ≤ 300 }
    ensures text { line.new ≡ line.old ++ space ++ hex_word word }
    ensures size { length line.new ≡ length line.old + 5 }
{
    line.push(b' ');
    line.push_word(word);
}

/// Why the run ended, and how many steps, printed values and faults it had.
pub(crate) fn of_end(quiet: bool, steps: u32, emits: u32, faults: u32) -> Line
    ensures { result ≡ reason_text quiet ++ decimal steps ++ codes " emits " ++ decimal emits ++ codes " faults " ++ decimal faults ++ end_of_line }
{
    let mut line = Line::new();
    line.push_text(if quiet { b"end quiet " } else { b"end limit " });
    line.push_decimal(steps);
    line.push_text(b" emits ");
    line.push_decimal(emits);
    line.push_text(b" faults ");
    line.push_decimal(faults);
    line.push(b'\n');
    line
}
