//! Reading code words and initialised bytes.

ghost use Rattle.std.specs.Prelude.{◌≡◌, ◌+◌, ◌*◌, ◌≤◌, length, IfOk};
ghost use Rattle.object_form.specs.Reading.{word_at, init_start, words_from, bytes_from};
ghost use Rattle.object_form.specs.Faults.{part_fields};
ghost use Rattle.object_form.specs.Given.{ReadsFields};
ghost use Rattle.object_form.specs.declared.layout.TheConstants.{CODE_COUNT_AT, HEAD_BYTES, INIT_COUNT_AT, WORD_BYTES};

use super::fault::{FormFault, FormKind};
use super::head::{word_in, wrong};
use super::layout::{HEAD_BYTES, WORD_BYTES};
use code_model::lists::CodeWords;
use item_lists::lists::Bytes;
use std::alloc::{AllocError, Global};

/// So many code words behind the head.
fn code_words(alloc: Global, text: &[u8], count: usize) -> Result<CodeWords, AllocError>
    requires { HEAD_BYTES + WORD_BYTES * count ≤ length text.now }
    ensures { IfOk result (λ words. words ≡ words_from text.now HEAD_BYTES count) }
{
    let mut words = CodeWords::with_room(alloc, count)?;
    for k in 0..count {
        words.push(word_in(text, HEAD_BYTES + WORD_BYTES * k))?;
    }
    Ok(words)
}

/// So many bytes from a place on.
fn init_bytes(alloc: Global, text: &[u8], start: usize, count: usize) -> Result<Bytes, AllocError>
    requires { start + count ≤ length text.now }
    ensures { IfOk result (λ bytes. bytes ≡ bytes_from text.now start count) }
{
    Bytes::from_slice(alloc, &text[start..start + count])
}

/// The code words and the initialised bytes, or that the text is short of them.
#[tactic(auto, unfolding(crate::specs::Faults::first_fault))]
pub(crate) fn read_sections(
    alloc: Global,
    text: &[u8],
    code: u16,
    init: u16,
) -> Result<(CodeWords, Bytes), FormFault>
    requires code { code ≡ word_at text.now CODE_COUNT_AT }
    requires init { init ≡ word_at text.now INIT_COUNT_AT }
    ensures { ReadsFields text.now (part_fields text.now) result
        (λ x. (x.0 ≡ words_from text.now HEAD_BYTES code) × (x.1 ≡ bytes_from text.now (init_start text.now) init)) }
{
    let start = HEAD_BYTES + WORD_BYTES * code as usize;
    if text.len() < start {
        return Err(wrong(FormKind::Short, text.len()));
    }
    let code = code_words(alloc, text, code as usize)?;
    if text.len() < start + init as usize {
        return Err(wrong(FormKind::Short, text.len()));
    }
    let init = init_bytes(alloc, text, start, init as usize)?;
    Ok((code, init))
}
