//! The offsets that something names.

ghost use Rattle.std.specs.Prelude.{◌≡◌, ◌+◌, ◌*◌, ◌%◌, ◌<◌, ◌≤◌, ◌⊎◌, ◌==◌, IsTrue, ℕ, true, false, length};
ghost use Rattle.std.specs.List.{Any};
ghost use Rattle.msp_encode.specs.Spelling.{InstrFits};
ghost use Rattle.code_model.specs.declared.object.TheConstants.{CODE_WORDS_MAX};
ghost use Rattle.code_model.specs.declared.parts.Export.{Export};
ghost use Rattle.code_model.specs.declared.parts.Reloc.{Reloc};
ghost use Rattle.code_model.specs.Fields.{fields};
ghost use Rattle.code_model.specs.Form.{RelocFits};
ghost use Rattle.insert_model.specs.declared.line.Line.{Line};
ghost use Rattle.insert_model.specs.Groups.{relocated_word};
ghost use Rattle.source_faults.specs.Read.{IsSource};
ghost use Rattle.check_inserter.specs.Fitting.{IsLegalLine, AreLegalLines};
ghost use Rattle.check_inserter.specs.Named.{AreAdded, JumpsTo, SomeJumpTo, Relocates, SomeRelocate, SomeExport, AreTargets};

use crate::units::target_offset;
use code_model::marks::Marks;
use code_model::object::{CODE_BYTES_MAX, Object};
use code_model::parts::{Export, RelKind, Reloc};
use insert_model::line::Line;
use msp_encode::instr::Instr;
use source_faults::source::word_in;

/// The offsets that a jump, a word to which the code's address is added, the entry or an export names, as marks.
pub(crate) fn targets(o: &Object, lines: &[Line]) -> Marks
    requires { IsSource o.now lines.now }
    ensures { AreTargets o.now result }
{
    let mut marks = Marks::new();
    mark_jumps(&mut marks, lines);
    mark_words(&mut marks, o);
    mark_offset(&mut marks, o.entry);
    mark_exports(&mut marks, o.exports.as_slice());
    marks
}

/// Marks an offset, if a code word can be there.
fn mark_offset(marks: &mut Marks, offset: u16)
    ensures { AreAdded marks.old marks.new (λ x. IsTrue (offset == x)) }
{
    if offset % 2 == 0 && offset < CODE_BYTES_MAX {
        marks.set(offset);
    }
}

/// Marks what jumps name.
fn mark_jumps(marks: &mut Marks, lines: &[Line])
    requires { AreLegalLines lines.now }
    ensures { AreAdded marks.old marks.new (SomeJumpTo lines.now) }
{
    for line in lines {
        mark_jump(marks, line);
    }
}

/// Marks what a line names, if it is a jump.
fn mark_jump(marks: &mut Marks, line: &Line)
    requires { IsLegalLine line.now }
    ensures { AreAdded marks.old marks.new (JumpsTo line.now) }
{
    match line.instr {
        Instr::Jump { offset, .. } => mark_offset(marks, target_offset(line.at, offset)),
        _ => {}
    }
}

/// Marks what words name to which the code's address is added.
fn mark_words(marks: &mut Marks, o: &Object)
    ensures { AreAdded marks.old marks.new (SomeRelocate (fields o.now) o.now.relocs) }
{
    for reloc in o.relocs.as_slice() {
        mark_word(marks, o, reloc);
    }
}

/// Marks what a relocation's word names, if the code's address is added to it.
fn mark_word(marks: &mut Marks, o: &Object, reloc: &Reloc)
    requires { RelocFits o.now.code o.now.init reloc.now }
    ensures { AreAdded marks.old marks.new (Relocates (fields o.now) reloc.now) }
{
    match reloc.kind {
        RelKind::Code => mark_offset(marks, relocated_word(o, reloc)),
        RelKind::Data | RelKind::Lo | RelKind::Hi => {}
    }
}

/// The word that a relocation is of.
fn relocated_word(o: &Object, reloc: &Reloc) -> u16
    requires { RelocFits o.now.code o.now.init reloc.now }
    ensures { result ≡ relocated_word (fields o.now) reloc.now }
{
    let offset = usize::from(reloc.offset);
    if reloc.in_code {
        o.code.as_slice()[offset / 2]
    } else {
        word_in(o.init.as_slice(), offset)
    }
}

/// Marks what exports name.
fn mark_exports(marks: &mut Marks, exports: &[Export])
    ensures { AreAdded marks.old marks.new (SomeExport exports.now) }
{
    for export in exports {
        mark_offset(marks, export.offset);
    }
}
