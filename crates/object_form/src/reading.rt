//! Reading an object's text.

ghost use Rattle.std.specs.Prelude.{◌≡◌, None, IfOk, MatchResult};
ghost use Rattle.code_model.specs.declared.object.Object.{Object};
ghost use Rattle.object_form.specs.Spelling.{object_bytes};
ghost use Rattle.object_form.specs.Faults.{first_form_fault, Names};
ghost use Rattle.object_form.specs.Given.{AreRead};

use super::fault::{FormFault, FormKind};
use super::head::{Head, read_head, wrong};
use super::laws::one_object_has_a_text;
use super::layout::{HEAD_BYTES, RECORD_BYTES, WORD_BYTES};
use super::lists::{Sizes, read_exports, read_relocs};
use super::sections::read_sections;
use code_model::lists::{CodeWords, Exports, Relocs};
use code_model::object::Object;
use item_lists::lists::Bytes;
use std::alloc::Global;

/// What stands in a text: its head and its parts.
#[derive(Drop)]
struct Parts {
    head: Head,
    code: CodeWords,
    init: Bytes,
    relocs: Relocs,
    exports: Exports,
}

/// What stands in a text without fault, or its first fault.
fn read_all(alloc: Global, text: &[u8]) -> Result<Parts, FormFault>
    ensures { MatchResult result (AreRead text.now) (λ e. Names e (first_form_fault text.now)) }
{
    let head = read_head(text)?;
    let (code, init) = read_sections(alloc, text, head.code, head.init)?;
    let sizes = Sizes {
        code: WORD_BYTES * head.code as usize,
        init: head.init as usize,
    };
    let start = HEAD_BYTES + sizes.code + sizes.init;
    let relocs = read_relocs(alloc, text, start, head.relocs as usize, sizes)?;
    let start = start + RECORD_BYTES * head.relocs as usize;
    let exports = read_exports(alloc, text, start, head.exports as usize, sizes.code)?;
    let end = start + RECORD_BYTES * head.exports as usize;
    if text.len() > end {
        return Err(wrong(FormKind::Trailing, end));
    }
    Ok(Parts {
        head,
        code,
        init,
        relocs,
        exports,
    })
}

/// The object whose text this is, or the first fault of the text. Each list takes its memory once,
/// in proportion to the text, which is gone over once.
pub fn read_object(alloc: Global, text: &[u8]) -> Result<Object, FormFault>
    // What is read has this text.
    ensures found { IfOk result (λ o. text.now ≡ object_bytes o) }
    // What has this text is read, unless memory runs out.
    ensures only { (o : Object) → text.now ≡ object_bytes o →
        MatchResult result (λ read. read ≡ o) (λ e. e ≡ FormFault.Memory) }
    // Another answer is the first fault of the text.
    ensures fault { MatchResult result
        (λ _. first_form_fault text.now ≡ None)
        (λ e. Names e (first_form_fault text.now)) }
{
    one_object_has_a_text();
    let Parts {
        head,
        code,
        init,
        relocs,
        exports,
    } = read_all(alloc, text)?;
    Ok(Object {
        kind: head.kind,
        version: head.version,
        code,
        init,
        zeroed: head.zeroed,
        stack: head.stack,
        threads: head.threads,
        entry: head.entry,
        relocs,
        exports,
    })
}
