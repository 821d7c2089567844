//! The line of a record.

ghost use Rattle.std.specs.Prelude.{◌≡◌, ◌≤◌, length, IsTrue};
ghost use Rattle.trace_model.specs.Texts.{record_text};
ghost use Rattle.trace_print.specs.Named.{has_name, HasLine};

use super::line::Line;
use super::parts::{entry_word, head, kind_word, push_writes};
use line_text::line::Line as Text;
use machine_model::writes::Writes;
use trace_model::records::{FaultKind, Record, Who};

/// The line of a record, with LF at its end. The entry of an `Entry` record has to be one that has a name: the two checks, exit
/// and emit have records of their own.
pub fn text(rec: &Record) -> Line
    requires { HasLine rec.now }
    ensures text { result ≡ record_text rec.now }
    ensures size { length result ≤ 96 }
{
    match rec {
        Record::Instr {
            step,
            who,
            pc,
            word,
            writes,
        } => of_instr(*step, *who, *pc, *word, writes),
        Record::Entry { step, who, entry } => of_entry(*step, *who, *entry),
        Record::Emit { step, who, value } => of_emit(*step, *who, *value),
        Record::Exit { step, who, last } => of_exit(*step, *who, *last),
        Record::Fault {
            step,
            who,
            kind,
            value,
        } => of_fault(*step, *who, *kind, *value),
        Record::Accept {
            step,
            who,
            line,
            pc,
            writes,
        } => of_accept(*step, *who, *line, *pc, writes),
        Record::Vector { step, line } => of_vector(*step, *line),
        Record::IdleTurn { step } => of_idle_turn(*step),
    }
}

fn of_instr(step: u32, who: Who, pc: u16, word: u16, writes: &Writes) -> Line
    ensures text { result ≡ record_text (Record.Instr step who pc word writes.now) }
    ensures size { length result ≤ 96 }
{
    let mut text = head(step, who);
    text.push_word(pc);
    text.push(b' ');
    text.push_word(word);
    push_writes(&mut text, writes);
    Line::ended(text)
}

fn of_entry(step: u32, who: Who, entry: u16) -> Line
    requires { IsTrue (has_name entry) }
    ensures text { result ≡ record_text (Record.Entry step who entry) }
    ensures size { length result ≤ 96 }
{
    let mut text = head(step, who);
    text.push_text(b"entry ");
    text.push_text(entry_word(entry));
    Line::ended(text)
}

fn of_emit(step: u32, who: Who, value: u16) -> Line
    ensures text { result ≡ record_text (Record.Emit step who value) }
    ensures size { length result ≤ 96 }
{
    let mut text = head(step, who);
    text.push_text(b"emit ");
    text.push_word(value);
    Line::ended(text)
}

fn of_exit(step: u32, who: Who, last: bool) -> Line
    ensures text { result ≡ record_text (Record.Exit step who last) }
    ensures size { length result ≤ 96 }
{
    let mut text = head(step, who);
    text.push_text(b"exit");
    if last {
        text.push_text(b" last");
    }
    Line::ended(text)
}

fn of_fault(step: u32, who: Who, kind: FaultKind, value: u16) -> Line
    ensures text { result ≡ record_text (Record.Fault step who kind value) }
    ensures size { length result ≤ 96 }
{
    let mut text = head(step, who);
    text.push_text(b"fault ");
    text.push_text(kind_word(kind));
    text.push(b' ');
    text.push_word(value);
    Line::ended(text)
}

fn of_accept(step: u32, who: Who, line: u8, pc: u16, writes: &Writes) -> Line
    ensures text { result ≡ record_text (Record.Accept step who line pc writes.now) }
    ensures size { length result ≤ 96 }
{
    let mut text = head(step, who);
    text.push_text(b"int ");
    text.push_decimal(line as u32);
    text.push(b' ');
    text.push_word(pc);
    push_writes(&mut text, writes);
    Line::ended(text)
}

fn of_vector(step: u32, line: u8) -> Line
    ensures text { result ≡ record_text (Record.Vector step line) }
    ensures size { length result ≤ 96 }
{
    let mut text = Text::new();
    text.push_decimal(step);
    text.push_text(b" kernel line ");
    text.push_decimal(line as u32);
    Line::ended(text)
}

fn of_idle_turn(step: u32) -> Line
    ensures text { result ≡ record_text (Record.IdleTurn step) }
    ensures size { length result ≤ 96 }
{
    let mut text = Text::new();
    text.push_decimal(step);
    text.push_text(b" idle");
    Line::ended(text)
}
