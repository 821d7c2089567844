//! Reading the head: the bytes before an object's code.

ghost use Rattle.std.specs.Prelude.{◌≡◌, ℕ, ◌+◌, ◌*◌, ◌<◌, ◌≤◌, ◌^◌, length, MatchResult};
ghost use Rattle.object_form.specs.Reading.{byte_at, word_at, kind_of};
ghost use Rattle.object_form.specs.Faults.{magic_field, version_field, kind_field, code_count_field, init_count_field, zeroed_field, stack_field, threads_field, export_count_field, entry_field, reloc_count_field, head_fields};
ghost use Rattle.object_form.specs.Given.{ReadsField, ReadsFields, IsHead};
ghost use Rattle.object_form.specs.declared.fault.FormKind.TheVariants as kinds;
ghost use Rattle.object_form.specs.declared.fault.FormFault.TheVariants.{At};
ghost use Rattle.object_form.specs.declared.layout.TheConstants.{CODE_COUNT_AT, ENTRY_AT, EXPORT_COUNT_AT, HEAD_BYTES, INIT_COUNT_AT, KIND_AT, MAGIC_BYTES, RELOC_COUNT_AT, STACK_AT, THREADS_AT, VERSION_AT, ZEROED_AT};

use super::fault::{FormFault, FormKind};
use super::layout::{
    APP_NUMBER, CODE_COUNT_AT, ENTRY_AT, EXPORT_COUNT_AT, INIT_COUNT_AT, KIND_AT, MAGIC, MAGIC_AT,
    MAGIC_BYTES, MODULE_NUMBER, RELOC_COUNT_AT, STACK_AT, THREADS_AT, VERSION_AT, WORD_BYTES,
    ZEROED_AT,
};
use code_model::object::{
    CODE_WORDS_MAX, EXPORTS_MAX, RELOCS_MAX, STACK_BYTES_MAX, STACK_BYTES_MIN, STATIC_BYTES_MAX,
    VERSION_MAX, VERSION_MIN,
};
use code_model::parts::Kind;
use kernel_model::map::THREADS_OF_APP;

/// A fault of this kind at an offset.
pub(crate) fn wrong(kind: FormKind, offset: usize) -> FormFault
    requires { offset < 2 ^ 32 }
    ensures { result ≡ At kind offset }
{
    FormFault::At {
        kind,
        offset: offset as u32,
    }
}

/// The byte at a place, or that the text is short of it.
fn byte(text: &[u8], at: usize) -> Result<u8, FormFault>
    requires { at < HEAD_BYTES }
    ensures { MatchResult result
        (λ b. (at + 1 ≤ length text.now) × (b ≡ byte_at text.now at))
        (λ e. (length text.now < at + 1) × (e ≡ At kinds.Short (length text.now))) }
{
    if at < text.len() {
        Ok(text[at])
    } else {
        Err(wrong(FormKind::Short, text.len()))
    }
}

/// The word at a place, its low byte first.
pub(crate) fn word_in(text: &[u8], at: usize) -> u16
    requires { at + 2 ≤ length text.now }
    ensures { result ≡ word_at text.now at }
{
    u16::from_le_bytes([text[at], text[at + 1]])
}

/// The word at a place, or that the text is short of it.
fn word(text: &[u8], at: usize) -> Result<u16, FormFault>
    requires { at < HEAD_BYTES }
    ensures { MatchResult result
        (λ w. (at + 2 ≤ length text.now) × (w ≡ word_at text.now at))
        (λ e. (length text.now < at + 2) × (e ≡ At kinds.Short (length text.now))) }
{
    if at + 1 < text.len() {
        Ok(word_in(text, at))
    } else {
        Err(wrong(FormKind::Short, text.len()))
    }
}

#[tactic(auto, unfolding(crate::specs::Faults::magic_field))]
fn magic(text: &[u8]) -> Result<(), FormFault>
    ensures { ReadsField text.now (magic_field text.now) result (λ _. MAGIC_BYTES ≤ length text.now) }
{
    if text.len() < MAGIC_BYTES {
        return Err(wrong(FormKind::Short, text.len()));
    }
    if text[0] == MAGIC[0] && text[1] == MAGIC[1] && text[2] == MAGIC[2] && text[3] == MAGIC[3] {
        Ok(())
    } else {
        Err(wrong(FormKind::Magic, MAGIC_AT))
    }
}

#[tactic(auto, unfolding(crate::specs::Faults::version_field))]
fn version(text: &[u8]) -> Result<u8, FormFault>
    ensures { ReadsField text.now (version_field text.now) result (λ v. v ≡ byte_at text.now VERSION_AT) }
{
    let version = byte(text, VERSION_AT)?;
    if version < VERSION_MIN || version > VERSION_MAX {
        return Err(wrong(FormKind::Version, VERSION_AT));
    }
    Ok(version)
}

#[tactic(auto, unfolding(crate::specs::Faults::kind_field))]
fn kind(text: &[u8]) -> Result<Kind, FormFault>
    ensures { ReadsField text.now (kind_field text.now) result (λ k. k ≡ kind_of (byte_at text.now KIND_AT)) }
{
    match byte(text, KIND_AT)? {
        APP_NUMBER => Ok(Kind::App),
        MODULE_NUMBER => Ok(Kind::Module),
        _ => Err(wrong(FormKind::Kind, KIND_AT)),
    }
}

#[tactic(auto, unfolding(crate::specs::Faults::code_count_field))]
fn code_count(text: &[u8]) -> Result<u16, FormFault>
    ensures { ReadsField text.now (code_count_field text.now) result (λ n. n ≡ word_at text.now CODE_COUNT_AT) }
{
    let count = word(text, CODE_COUNT_AT)?;
    if count == 0 || count as usize > CODE_WORDS_MAX {
        return Err(wrong(FormKind::Limit, CODE_COUNT_AT));
    }
    Ok(count)
}

#[tactic(auto, unfolding(crate::specs::Faults::init_count_field))]
fn init_count(text: &[u8]) -> Result<u16, FormFault>
    ensures { ReadsField text.now (init_count_field text.now) result (λ n. n ≡ word_at text.now INIT_COUNT_AT) }
{
    let count = word(text, INIT_COUNT_AT)?;
    if count as usize > STATIC_BYTES_MAX {
        return Err(wrong(FormKind::Limit, INIT_COUNT_AT));
    }
    Ok(count)
}

#[tactic(auto, unfolding(crate::specs::Faults::zeroed_field))]
fn zeroed(text: &[u8], init: u16) -> Result<u16, FormFault>
    requires { init ≡ word_at text.now INIT_COUNT_AT }
    ensures { ReadsField text.now (zeroed_field text.now) result (λ n. n ≡ word_at text.now ZEROED_AT) }
{
    let count = word(text, ZEROED_AT)?;
    if init as usize + count as usize > STATIC_BYTES_MAX {
        return Err(wrong(FormKind::Limit, ZEROED_AT));
    }
    Ok(count)
}

#[tactic(auto, unfolding(crate::specs::Faults::stack_field))]
fn stack(text: &[u8], kind: Kind) -> Result<u16, FormFault>
    requires { kind ≡ kind_of (byte_at text.now KIND_AT) }
    ensures { ReadsField text.now (stack_field text.now) result (λ n. n ≡ word_at text.now STACK_AT) }
{
    let stack = word(text, STACK_AT)?;
    let serves = match kind {
        Kind::App => stack % 2 == 0 && stack >= STACK_BYTES_MIN && stack <= STACK_BYTES_MAX,
        Kind::Module => stack == 0,
    };
    if !serves {
        return Err(wrong(FormKind::Limit, STACK_AT));
    }
    Ok(stack)
}

#[tactic(auto, unfolding(crate::specs::Faults::threads_field))]
fn threads(text: &[u8], kind: Kind) -> Result<u8, FormFault>
    requires { kind ≡ kind_of (byte_at text.now KIND_AT) }
    ensures { ReadsField text.now (threads_field text.now) result (λ n. n ≡ byte_at text.now THREADS_AT) }
{
    let threads = byte(text, THREADS_AT)?;
    let serves = match kind {
        Kind::App => threads >= 1 && threads <= THREADS_OF_APP,
        Kind::Module => threads == 0,
    };
    if !serves {
        return Err(wrong(FormKind::Limit, THREADS_AT));
    }
    Ok(threads)
}

#[tactic(auto, unfolding(crate::specs::Faults::export_count_field))]
fn export_count(text: &[u8], kind: Kind) -> Result<u8, FormFault>
    requires { kind ≡ kind_of (byte_at text.now KIND_AT) }
    ensures { ReadsField text.now (export_count_field text.now) result (λ n. n ≡ byte_at text.now EXPORT_COUNT_AT) }
{
    let count = byte(text, EXPORT_COUNT_AT)?;
    let serves = match kind {
        Kind::App => count == 0,
        Kind::Module => count >= 1 && count <= EXPORTS_MAX,
    };
    if !serves {
        return Err(wrong(FormKind::Limit, EXPORT_COUNT_AT));
    }
    Ok(count)
}

#[tactic(auto, unfolding(crate::specs::Faults::entry_field))]
fn entry(text: &[u8], kind: Kind, code: u16) -> Result<u16, FormFault>
    requires kind_is { kind ≡ kind_of (byte_at text.now KIND_AT) }
    requires code_is { code ≡ word_at text.now CODE_COUNT_AT }
    ensures { ReadsField text.now (entry_field text.now) result (λ n. n ≡ word_at text.now ENTRY_AT) }
{
    let entry = word(text, ENTRY_AT)?;
    let serves = match kind {
        Kind::App => entry % 2 == 0 && (entry as usize) < WORD_BYTES * code as usize,
        Kind::Module => entry == 0,
    };
    if !serves {
        return Err(wrong(FormKind::Place, ENTRY_AT));
    }
    Ok(entry)
}

#[tactic(auto, unfolding(crate::specs::Faults::reloc_count_field))]
fn reloc_count(text: &[u8]) -> Result<u16, FormFault>
    ensures { ReadsField text.now (reloc_count_field text.now) result (λ n. n ≡ word_at text.now RELOC_COUNT_AT) }
{
    let count = word(text, RELOC_COUNT_AT)?;
    if count as usize > RELOCS_MAX {
        return Err(wrong(FormKind::Limit, RELOC_COUNT_AT));
    }
    Ok(count)
}

/// The numbers of a text's head.
#[derive(Clone, Copy, Drop)]
pub(crate) struct Head {
    pub kind: Kind,
    pub version: u8,
    /// How many code words there are.
    pub code: u16,
    /// How many initialised bytes there are.
    pub init: u16,
    /// How many zeroed bytes there are.
    pub zeroed: u16,
    pub stack: u16,
    pub threads: u8,
    /// How many exports there are.
    pub exports: u8,
    pub entry: u16,
    /// How many relocations there are.
    pub relocs: u16,
}

/// The head, or the first fault of its fields.
#[tactic(auto, unfolding(crate::specs::Faults::first_fault))]
pub(crate) fn read_head(text: &[u8]) -> Result<Head, FormFault>
    ensures { ReadsFields text.now (head_fields text.now) result (IsHead text.now) }
{
    magic(text)?;
    let version = version(text)?;
    let kind = kind(text)?;
    let code = code_count(text)?;
    let init = init_count(text)?;
    let zeroed = zeroed(text, init)?;
    let stack = stack(text, kind)?;
    let threads = threads(text, kind)?;
    let exports = export_count(text, kind)?;
    let entry = entry(text, kind, code)?;
    let relocs = reloc_count(text)?;
    Ok(Head {
        kind,
        version,
        code,
        init,
        zeroed,
        stack,
        threads,
        exports,
        entry,
        relocs,
    })
}
