//! The words of operands where all names are known.

ghost use Rattle.std.specs.Prelude.{◌≡◌, ◌≤◌, ◌<◌, ◌+◌, ◌^◌, ◌++◌, OnOk};
ghost use Rattle.asm_model.specs.SecondPass.{source_use, destination_use, is_known, is_place_of_code, is_place_of_data, label_suits, suits, offset_in, label_word, placed_word, place_relocation, label_relocation, relocation, relocation_at, source_with, destination_with, source_word, destination_word, placed_source, placed_destination, known_from};
ghost use Rattle.asm_model.specs.declared.progress.Progress.{Progress};

use asm_lines::names::Names;
use asm_model::expression::Base;
use asm_model::name::Value;
use asm_model::operand::Use;
use asm_model::progress::Progress;
use code_model::lists::Relocs;
use code_model::parts::{RelKind, Reloc};
use msp_encode::instr::{Dst, Src};
use std::alloc::AllocError;

/// What the word of a source has to be.
pub(crate) fn use_of_source(src: &Src) -> Use
    ensures { result ≡ source_use src.now }
{
    match src {
        Src::Reg(_) | Src::Indirect(_) | Src::AutoInc(_) | Src::Const(_) => Use::Nothing,
        Src::Indexed(_, _) | Src::Absolute(_) => Use::Address,
        Src::Symbolic(_) => Use::Distance,
        Src::Immediate(_) => Use::Immediate,
    }
}

/// What the word of a destination has to be.
pub(crate) fn use_of_destination(dst: &Dst) -> Use
    ensures { result ≡ destination_use dst.now }
{
    match dst {
        Dst::Reg(_) => Use::Nothing,
        Dst::Indexed(_, _) | Dst::Absolute(_) => Use::Address,
        Dst::Symbolic(_) => Use::Distance,
    }
}

/// Whether a base is no label or one that is defined.
pub(crate) fn known(names: &Names, base: Base) -> bool
    ensures { result ≡ is_known names.now base }
{
    match base {
        Base::Label(name) => names.get(name).is_some(),
        Base::Number | Base::Lo | Base::Hi => true,
    }
}

/// Whether a name stands for a place in the code.
fn in_code(value: Option<Value>) -> bool
    ensures { result ≡ is_place_of_code value }
{
    matches!(value, Some(Value::Code(_)))
}

/// Whether a name stands for a place in static data.
fn in_data(value: Option<Value>) -> bool
    ensures { result ≡ is_place_of_data value }
{
    matches!(value, Some(Value::Initialised(_) | Value::Zeroed(_)))
}

/// Whether a base is of the kind that a word needs.
pub(crate) fn suit(names: &Names, needed: Use, base: Base) -> bool
    ensures { result ≡ suits names.now needed base }
{
    match base {
        Base::Label(name) => match needed {
            Use::Address => in_data(names.get(name)),
            Use::Distance => in_code(names.get(name)),
            Use::Immediate | Use::Nothing => true,
        },
        Base::Number | Base::Lo | Base::Hi => true,
    }
}

/// A label's offset in bytes, where there are so many initialised bytes.
fn offset(initialised: u16, value: Option<Value>) -> u32
    ensures value { result ≡ offset_in initialised value }
    ensures small { result < 2 ^ 20 }
{
    match value {
        None => 0,
        Some(Value::Number(n)) => n as u32,
        Some(Value::Code(word)) => 2 * word as u32,
        Some(Value::Initialised(at)) => at as u32,
        Some(Value::Zeroed(at)) => initialised as u32 + at as u32,
    }
}

/// The word at an offset, of a label at another.
fn word_of_label(needed: Use, at: u32, target: u32, word: u16) -> u16
    requires at { at < 65536 }
    requires target { target < 2 ^ 20 }
    ensures { result ≡ label_word needed at target word }
{
    let sum = target + word as u32;
    match needed {
        Use::Immediate | Use::Address => (sum % 65_536) as u16,
        Use::Distance => ((sum + (65_536 - at)) % 65_536) as u16,
        Use::Nothing => word,
    }
}

/// The word at an offset, of a base and a word on it.
pub(crate) fn word_on(
    names: &Names,
    p: Progress,
    needed: Use,
    at: u32,
    base: Base,
    word: u16,
) -> u16
    requires { at < 65536 }
    ensures { result ≡ placed_word (known_from names.now p) needed at base word }
{
    match base {
        Base::Number | Base::Lo | Base::Hi => word,
        Base::Label(name) => {
            word_of_label(needed, at, offset(p.initialised, names.get(name)), word)
        }
    }
}

/// The relocation of a label's word.
fn relocation_of_label(needed: Use, value: Option<Value>) -> Option<RelKind>
    ensures { result ≡ label_relocation needed value }
{
    match needed {
        Use::Immediate if in_code(value) => Some(RelKind::Code),
        Use::Immediate | Use::Address => Some(RelKind::Data),
        Use::Distance | Use::Nothing => None,
    }
}

/// The relocation of a base's word.
pub(crate) fn relocation_on(names: &Names, needed: Use, base: Base) -> Option<RelKind>
    ensures { result ≡ relocation names.now needed base }
{
    match (needed, base) {
        (Use::Nothing, _) | (_, Base::Number) => None,
        (_, Base::Lo) => Some(RelKind::Lo),
        (_, Base::Hi) => Some(RelKind::Hi),
        (_, Base::Label(name)) => relocation_of_label(needed, names.get(name)),
    }
}

/// Appends the relocation of the word at an offset, if it has one.
pub(crate) fn push_relocation(
    relocs: &mut Relocs,
    in_code: bool,
    at: u32,
    kind: Option<RelKind>,
) -> Result<(), AllocError>
    requires { at < 65536 }
    ensures { OnOk result (relocs.new ≡ relocs.old ++ relocation_at in_code at kind) }
{
    match kind {
        None => Ok(()),
        Some(kind) => relocs.push(Reloc {
            in_code,
            kind,
            offset: at as u16,
        }),
    }
}

/// A source with another word.
fn source_by(src: &Src, word: u16) -> Src
    ensures { result ≡ source_with src.now word }
{
    match *src {
        Src::Indexed(register, _) => Src::Indexed(register, word),
        Src::Symbolic(_) => Src::Symbolic(word),
        Src::Absolute(_) => Src::Absolute(word),
        Src::Immediate(_) => Src::Immediate(word),
        Src::Reg(_) | Src::Indirect(_) | Src::AutoInc(_) | Src::Const(_) => *src,
    }
}

/// A destination with another word.
fn destination_by(dst: &Dst, word: u16) -> Dst
    ensures { result ≡ destination_with dst.now word }
{
    match *dst {
        Dst::Indexed(register, _) => Dst::Indexed(register, word),
        Dst::Symbolic(_) => Dst::Symbolic(word),
        Dst::Absolute(_) => Dst::Absolute(word),
        Dst::Reg(_) => *dst,
    }
}

/// The word that a source has, or 0.
fn word_of_source(src: &Src) -> u16
    ensures { result ≡ source_word src.now }
{
    match *src {
        Src::Indexed(_, word) | Src::Symbolic(word) | Src::Absolute(word) | Src::Immediate(word) =>
            { word }
        Src::Reg(_) | Src::Indirect(_) | Src::AutoInc(_) | Src::Const(_) => 0,
    }
}

/// The word that a destination has, or 0.
fn word_of_destination(dst: &Dst) -> u16
    ensures { result ≡ destination_word dst.now }
{
    match *dst {
        Dst::Indexed(_, word) | Dst::Symbolic(word) | Dst::Absolute(word) => word,
        Dst::Reg(_) => 0,
    }
}

/// A source whose word stands at an offset.
pub(crate) fn place_source(names: &Names, p: Progress, at: u32, base: Base, src: &Src) -> Src
    requires { at < 65536 }
    ensures { result ≡ placed_source (known_from names.now p) at base src.now }
{
    let word = word_on(names, p, use_of_source(src), at, base, word_of_source(src));
    source_by(src, word)
}

/// A destination whose word stands at an offset.
pub(crate) fn place_destination(names: &Names, p: Progress, at: u32, base: Base, dst: &Dst) -> Dst
    requires { at < 65536 }
    ensures { result ≡ placed_destination (known_from names.now p) at base dst.now }
{
    let word = word_on(
        names,
        p,
        use_of_destination(dst),
        at,
        base,
        word_of_destination(dst),
    );
    destination_by(dst, word)
}
