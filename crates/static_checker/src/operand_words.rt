//! The rule on the words that may have a relocation.

ghost use Rattle.std.specs.Prelude.{◌≡◌, ◌+◌, ◌<◌, ◌≤◌, ◌↔◌, IsTrue, length};
ghost use Rattle.code_model.specs.Rules.{IsData, SrcCarries, DstCarries, Carries, HasWrongReloc};
ghost use Rattle.static_checker.specs.Cursors.{IsCursor};
ghost use Rattle.static_checker.specs.Spots.{IsStartSpot};

use crate::cursor::{Cursor, reloc_on};
use crate::spot::Spot;
use code_model::object::Object;
use code_model::parts::RelKind;
use msp_encode::instr::{Dst, Instr, Src};

/// Tells whether a word of an instruction, counted from 0, has a relocation that it may not have.
pub(crate) fn has_wrong_reloc(o: &Object, cursor: Cursor, spot: &Spot, word: usize) -> bool
    requires cursor { IsCursor o.now.relocs cursor }
    requires order { cursor.at ≤ spot.now.at }
    requires spot { IsStartSpot o.now.code spot.now }
    requires within { word < spot.now.words }
    ensures { IsTrue result ↔ HasWrongReloc o.now (spot.now.at + word) }
{
    match reloc_on(o, cursor, spot.at + word) {
        Some(kind) => !carries(spot.instr, word, kind),
        None => false,
    }
}

/// Tells whether an instruction may have a relocation of this kind on this of its words, counted from 0.
pub fn carries(i: Instr, word: usize, kind: RelKind) -> bool
    ensures { IsTrue result ↔ Carries i word kind }
{
    match i {
        Instr::Two { src, dst, .. } => (word == 1 && src_carries(src, kind))
            || (word == 1 + src.words() && dst_carries(dst, kind)),
        Instr::One { src, .. } => word == 1 && src_carries(src, kind),
        _ => false,
    }
}

/// Tells whether a source's word may have a relocation of this kind.
fn src_carries(src: Src, kind: RelKind) -> bool
    ensures { IsTrue result ↔ SrcCarries src kind }
{
    match src {
        Src::Immediate(_) => true,
        Src::Absolute(_) | Src::Indexed(_, _) => is_data(kind),
        _ => false,
    }
}

/// Tells whether a destination's word may have a relocation of this kind.
fn dst_carries(dst: Dst, kind: RelKind) -> bool
    ensures { IsTrue result ↔ DstCarries dst kind }
{
    match dst {
        Dst::Absolute(_) | Dst::Indexed(_, _) => is_data(kind),
        _ => false,
    }
}

/// Tells whether a relocation's kind is the region's first byte.
fn is_data(kind: RelKind) -> bool
    ensures { IsTrue result ↔ IsData kind }
{
    matches!(kind, RelKind::Data)
}
