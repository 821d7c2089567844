//! The new places of what source names.

ghost use Rattle.std.specs.Prelude.{◌≡◌, ℕ, ◌+◌, ◌*◌, ◌/◌, ◌%◌, ◌^◌, ◌<◌, ◌≤◌, [], ◌∷◌, ◌++◌, length, map, false, IfOk, OnOk, IsTrue, slice_index, slice_index_or};
ghost use Rattle.std.specs.List.{fold};
ghost use Rattle.code_model.specs.declared.object.TheConstants.{CODE_WORDS_MAX};
ghost use Rattle.code_model.specs.declared.parts.Reloc.{Reloc};
ghost use Rattle.code_model.specs.declared.parts.Export.{Export};
ghost use Rattle.code_model.specs.Fields.{fields};
ghost use Rattle.insert_model.specs.declared.piece.Word.{Word};
ghost use Rattle.insert_model.specs.Inserted.{moved_value, moved, with_reloc, relocs_from, with_word, moved_at, moved_data, of_data, moved_export};
ghost use Rattle.insert_model.specs.Layout.{place_map};
ghost use Rattle.check_inserter.specs.Places.{IsLaid};

use crate::jumps::words_before;
use crate::laying::Laid;
use code_model::lists::{CodeWords, Exports, Relocs};
use code_model::object::Object;
use code_model::parts::{Export, RelKind, Reloc};
use insert_model::piece::Word;
use item_lists::lists::Bytes;
use source_faults::source::word_in;
use std::alloc::{AllocError, Global};

/// Where a source offset went.
pub(crate) fn place_of(o: &Object, laid: &Laid, offset: u16) -> u16
    requires { IsLaid o.now laid.now }
    ensures { result ≡ place_map (fields o.now) offset }
{
    2 * words_before(o, &laid.places, offset) as u16
}

/// The new code words.
pub(crate) fn moved_words(alloc: Global, o: &Object, laid: &Laid) -> Result<CodeWords, AllocError>
    requires { IsLaid o.now laid.now }
    ensures moved { IfOk result (λ list. list ≡ map (moved (place_map (fields o.now))) laid.now.words.items) }
    ensures small { IfOk result (λ list. (k : ℕ) → slice_index list k < 65536) }
{
    let mut code = CodeWords::with_room(alloc, laid.words.len())?;
    for word in &laid.words {
        push_word(&mut code, moved_word(o, laid, *word))?;
    }
    Ok(code)
}

/// Appends a code word.
fn push_word(code: &mut CodeWords, word: u16) -> Result<(), AllocError>
    ensures pushed { OnOk result (code.new ≡ code.old ++ word ∷ []) }
    ensures small { word < 65536 }
{
    code.push(word)
}

/// A word's new value.
fn moved_word(o: &Object, laid: &Laid, word: Word) -> u16
    requires { IsLaid o.now laid.now }
    ensures { result ≡ moved (place_map (fields o.now)) word }
{
    match word.kind {
        Some(RelKind::Code) => place_of(o, laid, word.value),
        None | Some(RelKind::Data | RelKind::Lo | RelKind::Hi) => word.value,
    }
}

/// The relocations of the new code words, and then those of static data.
pub(crate) fn all_relocs(alloc: Global, o: &Object, laid: &Laid) -> Result<Relocs, AllocError>
    requires { IsLaid o.now laid.now }
    ensures { IfOk result (λ list. list ≡ relocs_from 0 laid.now.words.items ++ of_data o.now.relocs) }
{
    let mut relocs = Relocs::new(alloc);
    put_code_relocs(&mut relocs, &laid.words)?;
    put_data_relocs(&mut relocs, o.relocs.as_slice())?;
    Ok(relocs)
}

/// Appends the relocations of code words.
fn put_code_relocs(out: &mut Relocs, words: &[Word]) -> Result<(), AllocError>
    requires { length words.now ≤ CODE_WORDS_MAX }
    ensures { OnOk result (out.new ≡ out.old ++ relocs_from 0 words.now) }
{
    for (at, word) in words.iter().enumerate() {
        put_code_reloc(out, at, word.kind)?;
    }
    Ok(())
}

/// Appends the relocation of the code word at a place, if it has one.
fn put_code_reloc(out: &mut Relocs, at: usize, kind: Option<RelKind>) -> Result<(), AllocError>
    requires { at < CODE_WORDS_MAX }
    ensures { OnOk result (out.new ≡ out.old ++ with_reloc at kind []) }
{
    match kind {
        Some(kind) => out.push(Reloc {
            in_code: true,
            kind,
            offset: (2 * at) as u16,
        }),
        None => Ok(()),
    }
}

/// Appends those relocations that are of static data.
fn put_data_relocs(out: &mut Relocs, relocs: &[Reloc]) -> Result<(), AllocError>
    ensures { OnOk result (out.new ≡ out.old ++ of_data relocs.now) }
{
    for reloc in relocs {
        put_data_reloc(out, *reloc)?;
    }
    Ok(())
}

/// Appends a relocation if it is of static data.
fn put_data_reloc(out: &mut Relocs, reloc: Reloc) -> Result<(), AllocError>
    ensures { OnOk result (out.new ≡ out.old ++ of_data (reloc ∷ [])) }
{
    if reloc.in_code {
        Ok(())
    } else {
        out.push(reloc)
    }
}

/// The new initialised bytes.
pub(crate) fn moved_bytes(alloc: Global, o: &Object, laid: &Laid) -> Result<Bytes, AllocError>
    requires { IsLaid o.now laid.now }
    ensures moved { IfOk result (λ list. list ≡ fold (moved_data (place_map (fields o.now))) o.now.init o.now.relocs) }
    ensures small { IfOk result (λ list. (k : ℕ) → slice_index list k < 256) }
{
    let mut bytes = Vec::from_slice(alloc, o.init.as_slice())?;
    for reloc in o.relocs.as_slice() {
        move_datum(o, laid, &mut bytes, *reloc);
    }
    copied(alloc, &bytes)
}

/// The bytes as a list.
fn copied(alloc: Global, bytes: &[u8]) -> Result<Bytes, AllocError>
    ensures copied { IfOk result (λ list. list ≡ bytes.now) }
    ensures small { (k : ℕ) → slice_index bytes.now k < 256 }
{
    Bytes::from_slice(alloc, bytes)
}

/// Gives a relocation's word of static data its new value.
fn move_datum(o: &Object, laid: &Laid, bytes: &mut [u8], reloc: Reloc)
    requires laid { IsLaid o.now laid.now }
    requires within { reloc.in_code ≡ false → reloc.offset + 2 ≤ length bytes.old }
    ensures { bytes.new ≡ moved_data (place_map (fields o.now)) bytes.old reloc }
{
    if !reloc.in_code && reloc.kind == RelKind::Code {
        let at = usize::from(reloc.offset);
        let word = place_of(o, laid, word_in(bytes, at));
        let halves = word.to_le_bytes();
        bytes[at] = halves[0];
        bytes[at + 1] = halves[1];
    }
}

/// The exports with their new offsets.
pub(crate) fn moved_exports(alloc: Global, o: &Object, laid: &Laid) -> Result<Exports, AllocError>
    requires { IsLaid o.now laid.now }
    ensures { IfOk result (λ list. list ≡ map (moved_export (place_map (fields o.now))) o.now.exports) }
{
    let mut exports = Exports::with_room(alloc, o.exports.len())?;
    for export in o.exports.as_slice() {
        exports.push(Export {
            number: export.number,
            offset: place_of(o, laid, export.offset),
        })?;
    }
    Ok(exports)
}
