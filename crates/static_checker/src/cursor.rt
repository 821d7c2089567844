//! The relocations of code words, found by going forward.

ghost use Rattle.std.specs.Prelude.{◌≡◌, ◌≢◌, ℕ, ◌+◌, ◌*◌, ◌<◌, ◌≤◌, ◌↔◌, length, slice_index_or, IsTrue, true, MatchOption, List};
ghost use Rattle.code_model.specs.declared.parts.Reloc.{Reloc};
ghost use Rattle.code_model.specs.declared.parts.RelKind.{RelKind};
ghost use Rattle.code_model.specs.Form.{key};
ghost use Rattle.code_model.specs.Relocs.{HasReloc, Unrelocated};
ghost use Rattle.static_checker.specs.Cursors.{IsCursor};

use code_model::lists::Relocs;
use code_model::object::Object;
use code_model::parts::{RelKind, Reloc};

/// A place, and the first relocation that stands there or behind.
#[derive(Clone, Copy, Drop)]
pub struct Cursor {
    pub at: usize,
    pub reloc: usize,
}

/// The cursor at the first place.
pub fn at_start() -> Cursor
    ensures is { (relocs : List Reloc) → IsCursor relocs result }
    ensures at { result.at ≡ 0 }
{
    Cursor { at: 0, reloc: 0 }
}

/// The cursor at a place that isn't before this one.
pub fn go_to(o: &Object, cursor: Cursor, at: usize) -> Cursor
    requires is { IsCursor o.now.relocs cursor }
    requires order { cursor.at ≤ at }
    requires within { at < 32768 }
    ensures is { IsCursor o.now.relocs result }
    ensures at { result.at ≡ at }
{
    let mut reloc = cursor.reloc;
    while is_before(&o.relocs, reloc, 2 * at) {
        reloc += 1;
    }
    Cursor { at, reloc }
}

/// Tells whether there is a relocation at an index, and its key is below the target.
fn is_before(relocs: &Relocs, index: usize, target: usize) -> bool
    ensures inside { IsTrue result → index < length relocs.now }
    ensures below { (d : Reloc) → IsTrue result → key (slice_index_or relocs.now index d) < target }
    ensures above { (d : Reloc) → index < length relocs.now → key (slice_index_or relocs.now index d) < target → IsTrue result }
{
    match relocs.get(index) {
        Some(r) => key(&r) < target,
        None => false,
    }
}

/// The kind of the one relocation of the code word at a place. None exactly where it has none.
pub fn reloc_on(o: &Object, cursor: Cursor, at: usize) -> Option<RelKind>
    requires is { IsCursor o.now.relocs cursor }
    requires order { cursor.at ≤ at }
    requires within { at < 32768 }
    ensures found { MatchOption result (Unrelocated o.now.relocs at) (λ k. HasReloc o.now.relocs at k) }
    ensures one { (j k : RelKind) → HasReloc o.now.relocs at j → HasReloc o.now.relocs at k → j ≡ k }
{
    let there = go_to(o, cursor, at);
    match o.relocs.get(there.reloc) {
        Some(r) => kind_at(&r, 2 * at),
        None => None,
    }
}

/// Tells whether the code word at a place has a relocation of this kind.
#[tactic(auto, using(crate::proofs::RelocLemmas::reloc_rules))]
pub fn has_reloc(o: &Object, cursor: Cursor, at: usize, kind: RelKind) -> bool
    requires is { IsCursor o.now.relocs cursor }
    requires order { cursor.at ≤ at }
    requires within { at < 32768 }
    ensures { IsTrue result ↔ HasReloc o.now.relocs at kind }
{
    match reloc_on(o, cursor, at) {
        Some(found) => found == kind,
        None => false,
    }
}

/// Tells whether the code word at a place has no relocation.
#[tactic(auto, using(crate::proofs::RelocLemmas::reloc_rules))]
pub fn unrelocated(o: &Object, cursor: Cursor, at: usize) -> bool
    requires is { IsCursor o.now.relocs cursor }
    requires order { cursor.at ≤ at }
    requires within { at < 32768 }
    ensures { IsTrue result ↔ Unrelocated o.now.relocs at }
{
    reloc_on(o, cursor, at).is_none()
}

/// The kind of a relocation, if it stands on the code word at this offset.
fn kind_at(r: &Reloc, offset: usize) -> Option<RelKind>
    requires { offset < 65536 }
    ensures { MatchOption result (key r.now ≢ offset) (λ k. r.now ≡ record { in_code = true; kind = k; offset = offset }) }
{
    if r.in_code && usize::from(r.offset) == offset {
        Some(r.kind)
    } else {
        None
    }
}

/// What relocations are ordered by.
fn key(r: &Reloc) -> usize
    ensures { result ≡ key r.now }
{
    if r.in_code {
        usize::from(r.offset)
    } else {
        usize::from(r.offset) + 65536
    }
}
