//! The lines on the error stream, and those of accepted and of written objects.

ghost use Rattle.std.specs.Prelude.{◌≡◌, ◌+◌, ◌≤◌, ◌++◌, length, codes, decimal};
ghost use Rattle.retos_cli.specs.Lines.{words_line, write_line, memory_line, read_line, refused_line, room_text, why_text, form_word, asm_word, insert_word};
ghost use Rattle.line_text.specs.Hexadecimal.{hex_word};

use super::outcome::{Refused, Why};
use asm_model::fault::AsmKind;
use edge_io::name::Name;
use insert_model::fault::InsertKind;
use line_text::line::Line;
use object_form::fault::FormKind;
use place_model::places::NoRoom;

/// A line of fixed words.
fn fixed(text: &[u8]) -> Line
    requires { length text.now ≤ 100 }
    ensures { result ≡ text.now ++ codes "\n" }
{
    let mut line = Line::new();
    line.push_text(text);
    line.push(b'\n');
    line
}

/// The words are no command.
#[tactic(auto, unfolding(crate::specs::Lines::words_line))]
pub fn of_words() -> Line
    ensures { result ≡ words_line }
{
    fixed(b"retos: words")
}

/// A write failed.
#[tactic(auto, unfolding(crate::specs::Lines::write_line))]
pub fn of_write() -> Line
    ensures { result ≡ write_line }
{
    fixed(b"retos: write fault")
}

/// No memory was found.
#[tactic(auto, unfolding(crate::specs::Lines::memory_line))]
pub fn of_memory() -> Line
    ensures { result ≡ memory_line }
{
    fixed(b"retos: want of memory")
}

/// The beginning of a line on an input.
fn named(name: &Name) -> Line
    ensures text { result ≡ codes "retos: " ++ name.now }
    ensures size { length result ≤ 262 }
{
    let mut line = Line::new();
    line.push_text(b"retos: ");
    line.push_text(name.as_slice());
    line
}

/// The read of this input failed.
#[tactic(auto, unfolding(crate::specs::Lines::read_line))]
pub fn of_read(name: &Name) -> Line
    ensures { result ≡ read_line name.now }
{
    let mut line = named(name);
    line.push_text(b": read fault");
    line.push(b'\n');
    line
}

/// The word of a fault of the form.
fn form_word(kind: FormKind) -> &'static [u8]
    ensures word { result.now ≡ form_word kind }
    ensures size { length result.now ≤ 8 }
{
    match kind {
        FormKind::Magic => b"magic",
        FormKind::Version => b"version",
        FormKind::Kind => b"kind",
        FormKind::Limit => b"limit",
        FormKind::Order => b"order",
        FormKind::Place => b"place",
        FormKind::Short => b"short",
        FormKind::Trailing => b"trailing",
    }
}

/// The word of a fault of a source text.
fn asm_word(kind: AsmKind) -> &'static [u8]
    ensures word { result.now ≡ asm_word kind }
    ensures size { length result.now ≤ 12 }
{
    match kind {
        AsmKind::NotText => b"nottext",
        AsmKind::DoubleLabel => b"doublelabel",
        AsmKind::UnknownWord => b"unknownword",
        AsmKind::BadDirective => b"baddirective",
        AsmKind::BadOperand => b"badoperand",
        AsmKind::NumberRange => b"numberrange",
        AsmKind::TooLarge => b"toolarge",
        AsmKind::NoLabel => b"nolabel",
        AsmKind::JumpRange => b"jumprange",
    }
}

/// The word of a fault of an object that is to get guards.
fn insert_word(kind: InsertKind) -> &'static [u8]
    ensures word { result.now ≡ insert_word kind }
    ensures size { length result.now ≤ 17 }
{
    match kind {
        InsertKind::NotDecoded => b"notdecoded",
        InsertKind::UsesCheckRegister => b"usescheckregister",
        InsertKind::Forbidden => b"forbidden",
        InsertKind::BadTarget => b"badtarget",
        InsertKind::TooLarge => b"toolarge",
    }
}

/// Appends why an input is refused.
fn push_why(line: &mut Line, why: &Why)
    requires { length line.old ≤ 262 }
    ensures why { line.new ≡ line.old ++ why_text why.now }
    ensures size { length line.new ≤ 340 }
{
    match why {
        Why::Absent => line.push_text(b": absent"),
        Why::TooLong => line.push_text(b": too long"),
        Why::Form { kind, at } => push_form(line, *kind, *at),
        Why::NotApplication => line.push_text(b": not an application"),
        Why::Check { rule, place } => push_check(line, *rule as u32, *place),
        Why::Room(cause) => push_room(line, cause),
        Why::Line { line: at, kind } => push_fault(line, *at, *kind),
        Why::Script { line: at } => push_script(line, *at),
        Why::Insert { kind, offset } => push_insert(line, *kind, *offset),
    }
}

/// Appends why there is no room.
fn push_room(line: &mut Line, cause: &NoRoom)
    requires { length line.old ≤ 262 }
    ensures text { line.new ≡ line.old ++ room_text cause.now }
    ensures size { length line.new ≤ 340 }
{
    match cause {
        NoRoom::Slots => line.push_text(b": no room, slots"),
        NoRoom::Code { need, gap } => push_gap(line, b": no room, code, need ", *need, *gap),
        NoRoom::Region { need, gap } => push_gap(line, b": no room, region, need ", *need, *gap),
        NoRoom::Taken { number } => {
            line.push_text(b": function ");
            line.push_decimal(*number as u32);
            line.push_text(b" taken");
        }
    }
}

/// Appends what is needed, and the longest gap.
fn push_gap(line: &mut Line, text: &[u8], need: u32, gap: u32)
    requires before { length line.old ≤ 262 }
    requires short { length text.now ≤ 24 }
    ensures text { line.new ≡ line.old ++ (text.now ++ decimal need ++ codes ", gap " ++ decimal gap) }
    ensures size { length line.new ≤ 340 }
{
    line.push_text(text);
    line.push_decimal(need);
    line.push_text(b", gap ");
    line.push_decimal(gap);
}

fn push_form(line: &mut Line, kind: FormKind, at: u32)
    requires { length line.old ≤ 262 }
    ensures text { line.new ≡ line.old ++ (codes ": form " ++ form_word kind ++ codes " at " ++ decimal at) }
    ensures size { length line.new ≤ 340 }
{
    line.push_text(b": form ");
    line.push_text(form_word(kind));
    line.push_text(b" at ");
    line.push_decimal(at);
}

fn push_fault(line: &mut Line, at: u32, kind: AsmKind)
    requires { length line.old ≤ 262 }
    ensures text { line.new ≡ line.old ++ (codes ": line " ++ decimal at ++ codes ": " ++ asm_word kind) }
    ensures size { length line.new ≤ 340 }
{
    line.push_text(b": line ");
    line.push_decimal(at);
    line.push_text(b": ");
    line.push_text(asm_word(kind));
}

fn push_script(line: &mut Line, at: u32)
    requires { length line.old ≤ 262 }
    ensures text { line.new ≡ line.old ++ (codes ": line " ++ decimal at ++ codes ": script") }
    ensures size { length line.new ≤ 340 }
{
    line.push_text(b": line ");
    line.push_decimal(at);
    line.push_text(b": script");
}

fn push_insert(line: &mut Line, kind: InsertKind, at: u32)
    requires { length line.old ≤ 262 }
    ensures text { line.new ≡ line.old ++ (codes ": insert " ++ insert_word kind ++ codes " at " ++ decimal at) }
    ensures size { length line.new ≤ 340 }
{
    line.push_text(b": insert ");
    line.push_text(insert_word(kind));
    line.push_text(b" at ");
    line.push_decimal(at);
}

fn push_check(line: &mut Line, rule: u32, place: u16)
    requires { length line.old ≤ 262 }
    ensures text { line.new ≡ line.old ++ (codes ": check rule " ++ decimal rule ++ codes " at " ++ hex_word place) }
    ensures size { length line.new ≤ 340 }
{
    line.push_text(b": check rule ");
    line.push_decimal(rule);
    line.push_text(b" at ");
    line.push_word(place);
}

/// An input is refused.
#[tactic(auto, unfolding(crate::specs::Lines::refused_line))]
pub fn of_refused(refused: &Refused) -> Line
    ensures { result ≡ refused_line refused.now }
{
    let mut line = named(&refused.name);
    push_why(&mut line, &refused.why);
    line.push(b'\n');
    line
}

/// An object is accepted, with this many code words and units.
pub fn of_accepted(name: &Name, words: u32, units: u32) -> Line
    ensures { result ≡ name.now ++ codes ": accepted " ++ decimal words ++ codes " words " ++ decimal units ++ codes " units" ++ codes "\n" }
{
    let mut line = Line::new();
    line.push_text(name.as_slice());
    line.push_text(b": accepted ");
    line.push_decimal(words);
    line.push_text(b" words ");
    line.push_decimal(units);
    line.push_text(b" units");
    line.push(b'\n');
    line
}

/// An object is assembled and written, with this many code words.
pub fn of_assembled(name: &Name, words: u32) -> Line
    ensures { result ≡ name.now ++ codes ": assembled " ++ decimal words ++ codes " words" ++ codes "\n" }
{
    let mut line = Line::new();
    line.push_text(name.as_slice());
    line.push_text(b": assembled ");
    line.push_decimal(words);
    line.push_text(b" words");
    line.push(b'\n');
    line
}

/// An object is generated: of which number, the code words of its source, and with its guards its code words and units.
pub fn of_generated(seed: u32, source_words: u32, words: u32, units: u32) -> Line
    ensures { result ≡ codes "gen " ++ decimal seed ++ codes ": source " ++ decimal source_words ++ codes " words, inserted " ++ decimal words ++ codes " words, units " ++ decimal units ++ codes "\n" }
{
    let mut line = Line::new();
    line.push_text(b"gen ");
    line.push_decimal(seed);
    line.push_text(b": source ");
    line.push_decimal(source_words);
    line.push_text(b" words, inserted ");
    line.push_decimal(words);
    line.push_text(b" words, units ");
    line.push_decimal(units);
    line.push(b'\n');
    line
}

/// An object has got its guards and is written, with this many code words.
pub fn of_inserted(name: &Name, words: u32) -> Line
    ensures { result ≡ name.now ++ codes ": inserted " ++ decimal words ++ codes " words" ++ codes "\n" }
{
    let mut line = Line::new();
    line.push_text(name.as_slice());
    line.push_text(b": inserted ");
    line.push_decimal(words);
    line.push_text(b" words");
    line.push(b'\n');
    line
}
