//! The rules on written memory.

ghost use Rattle.std.specs.Prelude.{◌≡◌, ◌<◌, ◌≤◌, ◌↔◌, IsTrue};
ghost use Rattle.code_model.specs.Rules.{KeepsStores, IsMemoryDst, IsMemorySrc, WritesMemory, IsWildDst, IsWildSrc, WritesWild};
ghost use Rattle.code_model.specs.Statics.{InStatic};
ghost use Rattle.code_model.specs.declared.object.TheConstants.{CODE_WORDS_MAX};
ghost use Rattle.static_checker.specs.Cursors.{IsCursor};
ghost use Rattle.static_checker.specs.CodeUnits.{IsStoreGuard};

use crate::cursor::{Cursor, has_reloc};
use code_model::guards::GuardKind;
use code_model::object::Object;
use code_model::parts::RelKind;
use msp_encode::instr::{Dst, Instr, Src};

/// Tells whether memory is written through an indexed, symbolic or indirect operand without a guard.
pub fn breaks_store(i: Instr, guard: Option<GuardKind>) -> bool
    ensures { IsTrue result ↔ (WritesMemory i × (IsStoreGuard guard → ⊥)) }
{
    writes_memory(i) && !is_store_guard(guard)
}

/// Tells whether there is a guard, and it keeps stores in the region.
fn is_store_guard(guard: Option<GuardKind>) -> bool
    ensures { IsTrue result ↔ IsStoreGuard guard }
{
    match guard {
        Some(kind) => keeps_stores(kind),
        None => false,
    }
}

/// Tells whether a guard keeps stores in the region.
fn keeps_stores(kind: GuardKind) -> bool
    ensures { IsTrue result ↔ KeepsStores kind }
{
    matches!(kind, GuardKind::Store | GuardKind::Wide(_))
}

/// Tells whether an instruction at a place writes an absolute operand that isn't in the static part.
pub fn writes_wild(o: &Object, cursor: Cursor, at: usize, i: Instr) -> bool
    requires cursor { IsCursor o.now.relocs cursor }
    requires order { cursor.at ≤ at }
    requires within { at < CODE_WORDS_MAX }
    ensures { IsTrue result ↔ WritesWild o.now at i }
{
    match i {
        Instr::Two { op, src, dst, .. } => op.writes()
            && is_wild_dst(o, cursor, at + 1 + src.words(), dst),
        Instr::One { op, src, .. } => op.changes() && is_wild_src(o, cursor, at + 1, src),
        _ => false,
    }
}

/// Tells whether memory is written through an indexed, symbolic or indirect operand.
fn writes_memory(i: Instr) -> bool
    ensures { IsTrue result ↔ WritesMemory i }
{
    match i {
        Instr::Two { op, dst, .. } => op.writes() && is_memory_dst(dst),
        Instr::One { op, src, .. } => op.changes() && is_memory_src(src),
        _ => false,
    }
}

fn is_memory_dst(dst: Dst) -> bool
    ensures { IsTrue result ↔ IsMemoryDst dst }
{
    matches!(dst, Dst::Indexed(_, _) | Dst::Symbolic(_))
}

fn is_memory_src(src: Src) -> bool
    ensures { IsTrue result ↔ IsMemorySrc src }
{
    matches!(
        src,
        Src::Indexed(_, _) | Src::Symbolic(_) | Src::Indirect(_) | Src::AutoInc(_)
    )
}

/// Tells whether a destination, whose word is at a place, is absolute and not in the static part.
fn is_wild_dst(o: &Object, cursor: Cursor, at: usize, dst: Dst) -> bool
    requires cursor { IsCursor o.now.relocs cursor }
    requires order { cursor.at ≤ at }
    requires within { at < 32768 }
    ensures { IsTrue result ↔ IsWildDst o.now at dst }
{
    match dst {
        Dst::Absolute(x) => !in_static(o, cursor, at, x),
        _ => false,
    }
}

/// Tells whether a source, whose word is at a place, is absolute and not in the static part.
fn is_wild_src(o: &Object, cursor: Cursor, at: usize, src: Src) -> bool
    requires cursor { IsCursor o.now.relocs cursor }
    requires order { cursor.at ≤ at }
    requires within { at < 32768 }
    ensures { IsTrue result ↔ IsWildSrc o.now at src }
{
    match src {
        Src::Absolute(x) => !in_static(o, cursor, at, x),
        _ => false,
    }
}

/// Tells whether the word at a place is the address of a byte of the static part.
pub(crate) fn in_static(o: &Object, cursor: Cursor, at: usize, word: u16) -> bool
    requires cursor { IsCursor o.now.relocs cursor }
    requires order { cursor.at ≤ at }
    requires within { at < 32768 }
    ensures { IsTrue result ↔ InStatic o.now at word }
{
    has_reloc(o, cursor, at, RelKind::Data) && word < o.static_bytes()
}
