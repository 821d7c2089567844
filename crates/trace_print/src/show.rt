//! What a run prints beside the lines that are always printed, and what its tail keeps for that.

ghost use Rattle.std.specs.Prelude.{◌≡◌, ◌∷◌, [], ◌++◌, List};
ghost use Rattle.trace_model.specs.declared.records.Record.{Record as RecordOf};
ghost use Rattle.trace_model.specs.declared.records.Record.TheVariants as told;
ghost use Rattle.trace_print.specs.Shown.{kept_of, kept_with};

use super::tail::Tail;
use machine_model::writes::Writes;
use trace_model::records::{Record, Who};

/// What a run prints beside the lines that are always printed.
#[derive(Clone, Copy, PartialEq, Eq, Debug, Drop)]
pub struct Show {
    /// A line for each step.
    pub all: bool,
    /// The lines of the last eight instructions before a fault's.
    pub tail: bool,
}

impl Tail {
    /// Keeps a record, where the last instructions are shown and it is an instruction's.
    #[inline(always)]
    pub fn keep_shown(&mut self, show: Show, rec: &Record)
        ensures kept { self.new ≡ kept_with show self.old rec.now }
        ensures holds { (made : List RecordOf) → self.old ≡ kept_of show made → self.new ≡ kept_of show (made ++ rec.now ∷ []) }
    {
        if show.tail {
            self.push(rec);
        }
    }

    /// Keeps an instruction's record, of these parts, where the last instructions are shown. Only there it is made.
    #[inline(always)]
    pub fn keep_shown_instr(
        &mut self,
        show: Show,
        step: u32,
        who: Who,
        pc: u16,
        word: u16,
        writes: Writes,
    )
        ensures kept { self.new ≡ kept_with show self.old (told.Instr step who pc word writes) }
        ensures holds { (made : List RecordOf) → self.old ≡ kept_of show made
            → self.new ≡ kept_of show (made ++ told.Instr step who pc word writes ∷ []) }
    {
        if !show.tail {
            return;
        }
        self.keep(step, who, pc, word, writes);
    }
}
