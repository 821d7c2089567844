//! The words of the code or of the region, each with what its relocation adds.

ghost use Rattle.std.specs.Prelude.{◌≡◌, ℕ, ◌+◌, ◌*◌, ◌%◌, ◌<◌, ◌≤◌, length, false, MatchOption, slice_index_or};
ghost use Rattle.std.specs.List.{flat_map};
ghost use Rattle.flat_mem.specs.Bytes.{patch, word_bytes};
ghost use Rattle.code_model.specs.declared.parts.Reloc.{Reloc};
ghost use Rattle.code_model.specs.declared.object.Object.{Object};
ghost use Rattle.load_model.specs.Images.{is_on, section_word, placed_word, placed_words};
ghost use Rattle.reloc_loader.specs.Sections.{key_at, IsNext, FindsOn, count_on, added_of};
ghost use Rattle.reloc_loader.specs.Loading.{unmarked};

use code_model::object::Object;
use code_model::parts::{RelKind, Reloc};
use flat_mem::FlatMem;
use region_table::Regions;

/// Where the code, or the region with the initialised bytes at its front, is written, and how many words it has.
#[derive(Clone, Copy, Drop)]
pub struct Section {
    pub in_code: bool,
    pub at: u16,
    pub words: usize,
}

/// Writes the words of a section. Relocation `first` is the first that isn't before the section; answers the first behind it.
pub fn put_section(
    m: &mut FlatMem,
    o: &Object,
    r: &Regions,
    section: &Section,
    first: usize,
) -> usize
    requires aligned { section.now.at % 2 ≡ 0 }
    requires room { section.now.at + 2 * section.now.words ≤ 65536 }
    requires first { IsNext (o.now).relocs first (key_at section.now.in_code 0) }
    ensures written { m.new ≡ patch m.old section.now.at (flat_map word_bytes (placed_words (unmarked o.now r.now) section.now.in_code section.now.words)) }
    ensures next { IsNext (o.now).relocs result (key_at section.now.in_code (2 * section.now.words)) }
{
    m.is_flat();
    let mut next = first;
    for i in 0..section.words {
        next = put_word(m, o, r, section, i, next);
    }
    next
}

/// Writes word i of a section. Relocation `next` is the first that isn't before the word; answers the first behind it.
fn put_word(
    m: &mut FlatMem,
    o: &Object,
    r: &Regions,
    section: &Section,
    i: usize,
    next: usize,
) -> usize
    requires aligned { section.now.at % 2 ≡ 0 }
    requires room { section.now.at + 2 * i + 2 ≤ 65536 }
    requires next { IsNext (o.now).relocs next (key_at section.now.in_code (2 * i)) }
    ensures written { m.new ≡ patch m.old (section.now.at + 2 * i) (word_bytes (placed_word (unmarked o.now r.now) section.now.in_code i)) }
    ensures next { IsNext (o.now).relocs result (key_at section.now.in_code (2 * i + 2)) }
{
    let kind = kind_on(o, next, section.in_code, i);
    let word = section_word(o, section.in_code, i);
    m.set_word(section.at + 2 * i as u16, word.wrapping_add(added(r, kind)));
    next + count(kind)
}

/// The kind of the relocation of word i, where relocation `next` is the first that isn't before the word.
fn kind_on(o: &Object, next: usize, in_code: bool, i: usize) -> Option<RelKind>
    requires within { 2 * i < 65536 }
    requires next { IsNext (o.now).relocs next (key_at in_code (2 * i)) }
    ensures found { FindsOn (o.now).relocs in_code (2 * i) result }
    ensures after { IsNext (o.now).relocs (next + count_on result) (key_at in_code (2 * i + 2)) }
{
    match o.relocs.get(next) {
        Some(reloc) => kind_at(&reloc, in_code, 2 * i),
        None => None,
    }
}

/// The kind of a relocation, if it is of the word at this offset.
fn kind_at(reloc: &Reloc, in_code: bool, offset: usize) -> Option<RelKind>
    ensures { MatchOption result (is_on in_code offset reloc.now ≡ false) (λ k. reloc.now ≡ record { in_code = in_code; kind = k; offset = offset }) }
{
    if reloc.in_code == in_code && usize::from(reloc.offset) == offset {
        Some(reloc.kind)
    } else {
        None
    }
}

/// Word i of the code, or two of the initialised bytes, 0 behind the last one.
fn section_word(o: &Object, in_code: bool, i: usize) -> u16
    requires { 2 * i < 65536 }
    ensures { result ≡ section_word o.now in_code i }
{
    if in_code {
        code_word(o, i)
    } else {
        init_byte(o, 2 * i) + 256 * init_byte(o, 2 * i + 1)
    }
}

/// A code word, or 0 behind the last one.
fn code_word(o: &Object, i: usize) -> u16
    ensures { result ≡ slice_index_or (o.now).code i 0 }
{
    o.code.as_slice().get(i).copied().unwrap_or(0)
}

/// An initialised byte, or 0 behind the last one.
fn init_byte(o: &Object, at: usize) -> u16
    ensures value { result ≡ slice_index_or (o.now).init at 0 }
    ensures small { result < 256 }
{
    o.init.as_slice().get(at).copied().unwrap_or(0) as u16
}

/// What a relocation of this kind adds, 0 where there is none.
fn added(r: &Regions, kind: Option<RelKind>) -> u16
    ensures { (o : Object) → result ≡ added_of (unmarked o r.now) kind }
{
    match kind {
        None => 0,
        Some(RelKind::Code) => r.code_lo,
        Some(RelKind::Data) => r.lo,
        Some(RelKind::Lo) => r.lo,
        Some(RelKind::Hi) => r.hi,
    }
}

/// How many relocations a word has.
fn count(kind: Option<RelKind>) -> usize
    ensures { result ≡ count_on kind }
{
    match kind {
        None => 0,
        Some(_) => 1,
    }
}
