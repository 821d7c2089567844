//! Reading relocations and exports.

ghost use Rattle.std.specs.Prelude.{◌≡◌, ℕ, ◌+◌, ◌*◌, ◌<◌, ◌≤◌, ◌^◌, length};
ghost use Rattle.object_form.specs.Reading.{byte_at, word_at, rel_kind_of, reloc_at, export_at, relocs_from, exports_from};
ghost use Rattle.object_form.specs.Faults.{key_at, reloc_field, reloc_fields, export_field, export_fields};
ghost use Rattle.object_form.specs.Given.{ReadsField, ReadsFields};
ghost use Rattle.object_form.specs.declared.layout.TheConstants.{CODE_COUNT_AT, INIT_COUNT_AT, RECORD_BYTES, WORD_BYTES};
ghost use Rattle.code_model.specs.declared.object.TheConstants.{EXPORT_NUMBER_MAX};

use super::fault::{FormFault, FormKind};
use super::head::{word_in, wrong};
use super::layout::{
    CODE_SECTION, INIT_SECTION, RECORD_BYTES, RECORD_KIND_AT, RECORD_OFFSET_AT, RELOC_CODE,
    RELOC_DATA, RELOC_HI, RELOC_LO, WORD_BYTES,
};
use code_model::lists::{Exports, Relocs};
use code_model::object::EXPORT_NUMBER_MAX;
use code_model::parts::{Export, RelKind, Reloc};
use std::alloc::Global;

/// The kind of a number from `RELOC_CODE` to `RELOC_HI`.
fn rel_kind(number: u8) -> RelKind
    ensures { result ≡ rel_kind_of number }
{
    match number {
        RELOC_CODE => RelKind::Code,
        RELOC_DATA => RelKind::Data,
        RELOC_LO => RelKind::Lo,
        _ => RelKind::Hi,
    }
}

/// The sizes of the two sections in bytes.
#[derive(Clone, Copy, Drop)]
pub(crate) struct Sizes {
    pub code: usize,
    pub init: usize,
}

/// The relocation at a place, and its key, which has to be `least` or greater.
#[tactic(auto, unfolding(crate::specs::Faults::reloc_field))]
fn reloc(text: &[u8], at: usize, sizes: Sizes, least: u32) -> Result<(Reloc, u32), FormFault>
    requires place { at < 2 ^ 24 }
    requires code { sizes.code ≡ WORD_BYTES * word_at text.now CODE_COUNT_AT }
    requires init { sizes.init ≡ word_at text.now INIT_COUNT_AT }
    ensures { ReadsField text.now (reloc_field text.now at least) result
        (λ r. (r.0 ≡ reloc_at text.now at) × (r.1 ≡ key_at text.now at) × (r.1 < 2 ^ 17)) }
{
    if text.len() < at + RECORD_BYTES {
        return Err(wrong(FormKind::Short, text.len()));
    }
    let section = text[at];
    if section > INIT_SECTION {
        return Err(wrong(FormKind::Place, at));
    }
    let in_code = section == CODE_SECTION;
    let number = text[at + RECORD_KIND_AT];
    if number < RELOC_CODE || number > (if in_code { RELOC_HI } else { RELOC_DATA }) {
        return Err(wrong(FormKind::Kind, at + RECORD_KIND_AT));
    }
    let offset = word_in(text, at + RECORD_OFFSET_AT);
    let size = if in_code { sizes.code } else { sizes.init };
    if offset % 2 != 0 || offset as usize + WORD_BYTES > size {
        return Err(wrong(FormKind::Place, at + RECORD_OFFSET_AT));
    }
    let key = 65536 * section as u32 + offset as u32;
    if key < least {
        return Err(wrong(FormKind::Order, at + RECORD_OFFSET_AT));
    }
    let kind = rel_kind(number);
    Ok((
        Reloc {
            in_code,
            kind,
            offset,
        },
        key,
    ))
}

/// The export at a place, whose number has to be `least` or greater.
#[tactic(auto, unfolding(crate::specs::Faults::export_field))]
fn export(text: &[u8], at: usize, code: usize, least: u8) -> Result<Export, FormFault>
    requires place { at < 2 ^ 24 }
    requires code { code ≡ WORD_BYTES * word_at text.now CODE_COUNT_AT }
    ensures { ReadsField text.now (export_field text.now at least) result
        (λ e. (e ≡ export_at text.now at) × (e.number ≤ EXPORT_NUMBER_MAX)) }
{
    if text.len() < at + RECORD_BYTES {
        return Err(wrong(FormKind::Short, text.len()));
    }
    let number = text[at];
    if number > EXPORT_NUMBER_MAX {
        return Err(wrong(FormKind::Limit, at));
    }
    if number < least {
        return Err(wrong(FormKind::Order, at));
    }
    if text[at + RECORD_KIND_AT] != 0 {
        return Err(wrong(FormKind::Place, at + RECORD_KIND_AT));
    }
    let offset = word_in(text, at + RECORD_OFFSET_AT);
    if offset % 2 != 0 || offset as usize >= code {
        return Err(wrong(FormKind::Place, at + RECORD_OFFSET_AT));
    }
    Ok(Export { number, offset })
}

/// The smaller of a number and the number of whole records from a place on.
fn room(text: &[u8], start: usize, count: usize) -> usize {
    let rest = text.len().saturating_sub(start) / RECORD_BYTES;
    if rest < count { rest } else { count }
}

/// So many relocations from a place on, or the first fault of them.
pub(crate) fn read_relocs(
    alloc: Global,
    text: &[u8],
    start: usize,
    count: usize,
    sizes: Sizes,
) -> Result<Relocs, FormFault>
    requires place { start + RECORD_BYTES * count < 2 ^ 24 }
    requires code { sizes.code ≡ WORD_BYTES * word_at text.now CODE_COUNT_AT }
    requires init { sizes.init ≡ word_at text.now INIT_COUNT_AT }
    ensures { ReadsFields text.now (reloc_fields text.now start count) result
        (λ relocs. relocs ≡ relocs_from text.now start count) }
{
    let mut relocs = Relocs::with_room(alloc, room(text, start, count))?;
    let mut least = 0;
    for k in 0..count {
        let (reloc, key) = reloc(text, start + RECORD_BYTES * k, sizes, least)?;
        relocs.push(reloc)?;
        least = key + 1;
    }
    Ok(relocs)
}

/// So many exports from a place on, or the first fault of them.
pub(crate) fn read_exports(
    alloc: Global,
    text: &[u8],
    start: usize,
    count: usize,
    code: usize,
) -> Result<Exports, FormFault>
    requires place { start + RECORD_BYTES * count < 2 ^ 24 }
    requires code { code ≡ WORD_BYTES * word_at text.now CODE_COUNT_AT }
    ensures { ReadsFields text.now (export_fields text.now start count) result
        (λ exports. exports ≡ exports_from text.now start count) }
{
    let mut exports = Exports::with_room(alloc, room(text, start, count))?;
    let mut least = 0;
    for k in 0..count {
        let export = export(text, start + RECORD_BYTES * k, code, least)?;
        exports.push(export)?;
        least = export.number + 1;
    }
    Ok(exports)
}
