//! Writing an object's text.

ghost use Rattle.std.specs.Prelude.{◌≡◌, ◌<◌, ◌≤◌, [], ◌∷◌, ◌++◌, length, IfOk, OnOk};
ghost use Rattle.std.specs.List.{flat_map};
ghost use Rattle.code_model.specs.Form.{kind_code};
ghost use Rattle.object_form.specs.Spelling.{word_bytes, kind_number, section_number, reloc_bytes, export_bytes, start_bytes, size_bytes, run_bytes, head_bytes, object_bytes};
ghost use Rattle.code_model.specs.Fields.{fields};

use super::layout::{
    APP_NUMBER, CODE_SECTION, INIT_SECTION, MAGIC, MODULE_NUMBER, RELOC_CODE, RELOC_DATA, RELOC_HI,
    RELOC_LO,
};
use code_model::object::Object;
use code_model::parts::{Export, Kind, RelKind, Reloc};
use item_lists::lists::Bytes;
use std::alloc::{AllocError, Global};

/// The number of a kind in the text.
fn kind_byte(kind: Kind) -> u8
    ensures { result ≡ kind_number kind }
{
    match kind {
        Kind::App => APP_NUMBER,
        Kind::Module => MODULE_NUMBER,
    }
}

/// The number of a relocation's kind in the text.
fn rel_kind_byte(kind: RelKind) -> u8
    ensures { result ≡ kind_code kind }
{
    match kind {
        RelKind::Code => RELOC_CODE,
        RelKind::Data => RELOC_DATA,
        RelKind::Lo => RELOC_LO,
        RelKind::Hi => RELOC_HI,
    }
}

/// The number of a relocation's section in the text.
fn section_byte(in_code: bool) -> u8
    ensures { result ≡ section_number in_code }
{
    if in_code { CODE_SECTION } else { INIT_SECTION }
}

/// Appends a word, its low byte first.
fn put_word(out: &mut Bytes, word: u16) -> Result<(), AllocError>
    ensures { OnOk result (out.new ≡ out.old ++ word_bytes word) }
{
    out.extend_from_slice(&word.to_le_bytes())
}

/// Appends two bytes.
fn put_two(out: &mut Bytes, first: u8, second: u8) -> Result<(), AllocError>
    ensures { OnOk result (out.new ≡ out.old ++ first ∷ second ∷ []) }
{
    out.push(first)?;
    out.push(second)
}

/// Appends code words.
fn put_words(out: &mut Bytes, words: &[u16]) -> Result<(), AllocError>
    ensures { OnOk result (out.new ≡ out.old ++ flat_map word_bytes words.now) }
{
    for word in words {
        put_word(out, *word)?;
    }
    Ok(())
}

/// Appends bytes.
fn put_bytes(out: &mut Bytes, bytes: &[u8]) -> Result<(), AllocError>
    ensures { OnOk result (out.new ≡ out.old ++ bytes.now) }
{
    for byte in bytes {
        out.push(*byte)?;
    }
    Ok(())
}

/// Appends a relocation.
fn put_reloc(out: &mut Bytes, reloc: Reloc) -> Result<(), AllocError>
    ensures { OnOk result (out.new ≡ out.old ++ reloc_bytes reloc) }
{
    put_two(out, section_byte(reloc.in_code), rel_kind_byte(reloc.kind))?;
    put_word(out, reloc.offset)
}

/// Appends relocations.
fn put_relocs(out: &mut Bytes, relocs: &[Reloc]) -> Result<(), AllocError>
    ensures { OnOk result (out.new ≡ out.old ++ flat_map reloc_bytes relocs.now) }
{
    for reloc in relocs {
        put_reloc(out, *reloc)?;
    }
    Ok(())
}

/// Appends an export.
fn put_export(out: &mut Bytes, export: Export) -> Result<(), AllocError>
    ensures { OnOk result (out.new ≡ out.old ++ export_bytes export) }
{
    put_two(out, export.number, 0)?;
    put_word(out, export.offset)
}

/// Appends exports.
fn put_exports(out: &mut Bytes, exports: &[Export]) -> Result<(), AllocError>
    ensures { OnOk result (out.new ≡ out.old ++ flat_map export_bytes exports.now) }
{
    for export in exports {
        put_export(out, *export)?;
    }
    Ok(())
}

/// Appends the magic bytes, the version and the kind.
fn put_start(out: &mut Bytes, o: &Object) -> Result<(), AllocError>
    ensures { OnOk result (out.new ≡ out.old ++ start_bytes (fields o.now)) }
{
    out.extend_from_slice(&MAGIC)?;
    put_two(out, o.version, kind_byte(o.kind))
}

/// Appends how many code words, initialised and zeroed bytes there are.
fn put_sizes(out: &mut Bytes, o: &Object) -> Result<(), AllocError>
    ensures { OnOk result (out.new ≡ out.old ++ size_bytes (fields o.now)) }
{
    put_word(out, o.code.len() as u16)?;
    put_word(out, o.init.len() as u16)?;
    put_word(out, o.zeroed)
}

/// Appends the stack, the threads, how many exports, the entry and how many relocations.
fn put_run(out: &mut Bytes, o: &Object) -> Result<(), AllocError>
    ensures { OnOk result (out.new ≡ out.old ++ run_bytes (fields o.now)) }
{
    put_word(out, o.stack)?;
    put_two(out, o.threads, o.exports.len() as u8)?;
    put_word(out, o.entry)?;
    put_word(out, o.relocs.len() as u16)
}

/// Appends the head, the bytes before the code.
fn put_head(out: &mut Bytes, o: &Object) -> Result<(), AllocError>
    ensures { OnOk result (out.new ≡ out.old ++ head_bytes (fields o.now)) }
{
    put_start(out, o)?;
    put_sizes(out, o)?;
    put_run(out, o)
}

/// The one text of an object.
#[tactic(auto, unfolding(crate::specs::Spelling::object_bytes))]
pub fn write_object(alloc: Global, o: &Object) -> Result<Bytes, AllocError>
    ensures { IfOk result (λ bytes. bytes ≡ object_bytes o.now) }
{
    let mut out = Bytes::new(alloc);
    put_head(&mut out, o)?;
    put_words(&mut out, o.code.as_slice())?;
    put_bytes(&mut out, o.init.as_slice())?;
    put_relocs(&mut out, o.relocs.as_slice())?;
    put_exports(&mut out, o.exports.as_slice())?;
    Ok(out)
}
