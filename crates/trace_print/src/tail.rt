//! The last instructions of a run.

ghost use Rattle.std.specs.Prelude.{◌≡◌, ◌∷◌, ◌++◌, [], List, IsTrue, IsFalse, slice_get, length, codes, ◌<◌, ◌≤◌, IfOk, IfSome};
ghost use Rattle.std.specs.Option.{option_map};
ghost use Rattle.trace_model.specs.declared.records.Record.{Record};
ghost use Rattle.trace_model.specs.declared.records.Record.TheVariants as told;
ghost use Rattle.trace_model.specs.Texts.{is_instr, last_instrs, record_text, tail_length};
ghost use Rattle.circular_buffer.specs.Buffer.{keep_last};

use super::line::Line;
use super::record_lines::text;
use circular_buffer::HeapCircularBuffer;
use line_text::line::Line as Text;
use machine_model::writes::Writes;
use std::alloc::{AllocError, Global};
use std::marker::Model;
use trace_model::records::{Record, Who};

/// How many instructions are kept.
pub const TAIL_LENGTH: usize = 8;

/// The records of the last instructions that were made, at most eight, the oldest first.
#[derive(Drop)]
pub struct Tail {
    kept: HeapCircularBuffer<Record>,
}

impl Model for Tail {
    ghost use Rattle.std.specs.Prelude.{◌≡◌, ◌≤◌, List, length};
    ghost use Rattle.trace_model.specs.declared.records.Record.{Record};
    ghost use Rattle.trace_print.specs.Kept.{AreInstrs};

    ghost Value = { List Record };

    ghost view = { λ tail. tail.kept.items };

    ghost invariant = { λ tail. (tail.kept.capacity ≡ 8) × (length tail.kept.items ≤ 8) × AreInstrs tail.kept.items };
}

impl Tail {
    /// No record, or want of memory: the room of eight records is taken at once.
    pub fn new(alloc: Global) -> Result<Tail, AllocError>
        ensures { IfOk result (λ tail. tail ≡ []) }
    {
        Ok(Tail {
            kept: HeapCircularBuffer::with_capacity(alloc, TAIL_LENGTH)?,
        })
    }

    /// Keeps the record of an instruction, and gives up the oldest where there were eight. Other records change nothing.
    #[tactic(auto, using(crate::proofs::Following::last_with_instr, crate::proofs::Following::last_with_other))]
    pub fn push(&mut self, rec: &Record)
        ensures instr { IsTrue (is_instr rec.now) → self.new ≡ keep_last tail_length (self.old ++ rec.now ∷ []) }
        ensures other { IsFalse (is_instr rec.now) → self.new ≡ self.old }
        ensures follows { (earlier : List Record) → self.old ≡ last_instrs earlier → self.new ≡ last_instrs (earlier ++ rec.now ∷ []) }
    {
        if let Record::Instr {
            step,
            who,
            pc,
            word,
            writes,
        } = rec
        {
            self.keep(*step, *who, *pc, *word, copied(writes));
        }
    }

    /// Keeps an instruction's record, of these parts, and gives up the oldest where there were eight.
    #[inline(always)]
    #[tactic(auto, using(crate::proofs::Following::last_with_instr))]
    pub fn keep(&mut self, step: u32, who: Who, pc: u16, word: u16, writes: Writes)
        ensures kept { self.new ≡ keep_last tail_length (self.old ++ told.Instr step who pc word writes ∷ []) }
        ensures follows { (earlier : List Record) → self.old ≡ last_instrs earlier → self.new ≡ last_instrs (earlier ++ told.Instr step who pc word writes ∷ []) }
    {
        let _oldest = self.kept.push_back(Record::Instr {
            step,
            who,
            pc,
            word,
            writes,
        });
    }

    /// The line of the record at a place, the oldest at 0. None exactly past the last.
    pub fn lines(&self, at: usize) -> Option<Line>
        ensures line { result ≡ option_map record_text (slice_get self.now at) }
        ensures few { IfSome result (λ line. at < TAIL_LENGTH) }
    {
        match self.kept.get(at) {
            None => None,
            Some(rec) => Some(text(rec)),
        }
    }
}

/// A record's line, with a bar and a blank before it.
#[inline(always)]
pub fn barred(line: &[u8]) -> Text
    requires { length line.now ≤ 96 }
    ensures { result ≡ codes "| " ++ line.now }
{
    let mut text = Text::new();
    text.push_text(b"| ");
    text.push_text(line);
    text
}

/// The same written bytes.
#[tactic(auto, using(crate::proofs::Copying::lacks_it, crate::proofs::Copying::put_last))]
fn copied(writes: &Writes) -> Writes
    ensures { result ≡ writes.now }
{
    writes.is_rising();
    let mut copy = Writes::new();
    for at in 0..writes.len() {
        if let Some((address, byte)) = writes.get(at) {
            copy.add(address, byte);
        }
    }
    copy
}
