//! The second pass: the words and relocations of each piece.

ghost use Rattle.std.specs.Prelude.{◌≡◌, ◌+◌, ◌*◌, ◌≤◌, ◌<◌, ◌%◌, ◌^◌, ◌++◌, ◌≤ℤ◌, ◌<ℤ◌, pos, negsuc, true, length, OnOk, IfOk};
ghost use Rattle.msp_encode.specs.Spelling.{Legal, src_words, dst_words, words_after};
ghost use Rattle.asm_model.specs.declared.progress.Progress.{Progress};
ghost use Rattle.msp_encode.specs.declared.instr.Instr.TheVariants as jumps;
ghost use Rattle.msp_encode.specs.Spelled.{spelling};
ghost use Rattle.asm_model.specs.Instructions.{is_legal};
ghost use Rattle.asm_model.specs.Drafts.{code_words, initialised_bytes};
ghost use Rattle.asm_model.specs.SecondPass.{behind_source, settled, settle, instr_suits, in_reach, jump_offset, with_instr, with_data, with_entry, with_export, code_end, bytes_of, put_operation, code_place, put_jump_to, put_jump, put_word, below_end, start_of, enter_at, export_at, put_piece, second_pass, known_from};
ghost use Rattle.msp_asm.specs.Given.{IsLegalPiece, Puts, output_of};
ghost use Rattle.code_model.specs.declared.object.TheConstants.{CODE_BYTES_MAX, CODE_WORDS_MAX, STATIC_BYTES_MAX};

use crate::built::Built;
use crate::drafts::Stop;
use crate::words::{
    known, place_destination, place_source, push_relocation, relocation_on, suit,
    use_of_destination, use_of_source, word_on,
};
use arrayvec::ArrayVec;
use asm_lines::names::Names;
use asm_model::expression::Base;
use asm_model::fault::AsmKind;
use asm_model::laws::tested_is_legal;
use asm_model::name::{Name, Value};
use asm_model::operand::Use;
use asm_model::piece::Piece;
use asm_model::progress::Progress;
use code_model::lists::{CodeWords, Relocs};
use code_model::parts::Export;
use msp_encode::encode;
use msp_encode::instr::{Cond, Instr, Src};
use msp_encode::laws::{legal_by_cases, one_spelling, spelling_spells};
use std::alloc::AllocError;

/// The words of a legal instruction.
fn spelled(i: &Instr) -> ArrayVec<u16, 3>
    requires { Legal i.now }
    ensures words { result.items ≡ spelling i.now }
    ensures size { length (spelling i.now) ≡ 1 + length (words_after i.now) }
{
    legal_by_cases();
    spelling_spells();
    one_spelling();
    encode(i)
}

/// Appends the words of a legal instruction.
fn push_words(code: &mut CodeWords, i: &Instr) -> Result<(), AllocError>
    requires { Legal i.now }
    ensures words { OnOk result (code.new ≡ code.old ++ spelling i.now) }
    ensures size { OnOk result (length code.new ≡ length code.old + (1 + length (words_after i.now))) }
{
    let words = spelled(i);
    for word in words.as_slice() {
        code.push(*word)?;
    }
    Ok(())
}

/// An instruction at an offset.
#[tactic(auto, unfolding(asm_model::specs::SecondPass::settle))]
fn settled_instr(
    names: &Names,
    p: Progress,
    at: u32,
    source: Base,
    destination: Base,
    i: &Instr,
) -> Instr
    requires { at < 65000 }
    ensures value { result ≡ (settle (known_from names.now p) at source destination i.now).instr }
    ensures legal { is_legal result ≡ is_legal i.now }
    ensures size { length (words_after result) ≡ length (words_after i.now) }
{
    match i {
        Instr::Two {
            op,
            width,
            src,
            dst,
        } => Instr::Two {
            op: *op,
            width: *width,
            src: place_source(names, p, at + 2, source, src),
            dst: place_destination(names, p, behind(at, src), destination, dst),
        },
        Instr::One { op, width, src } => Instr::One {
            op: *op,
            width: *width,
            src: place_source(names, p, at + 2, source, src),
        },
        Instr::Reti | Instr::Jump { .. } => *i,
    }
}

/// Where a destination's word stands in an instruction at an offset.
fn behind(at: u32, src: &Src) -> u32
    requires { at < 65000 }
    ensures value { result ≡ behind_source at src.now }
    ensures small { result < 65536 }
{
    at + 2 + 2 * src.words() as u32
}

/// Appends the relocations of an instruction at an offset.
#[tactic(auto, unfolding(asm_model::specs::SecondPass::settle))]
fn push_relocations(
    names: &Names,
    relocs: &mut Relocs,
    at: u32,
    source: Base,
    destination: Base,
    i: &Instr,
) -> Result<(), AllocError>
    requires { at < 65000 }
    ensures { (p : Progress) → OnOk result (relocs.new ≡ relocs.old ++ (settle (known_from names.now p) at source destination i.now).relocs) }
{
    match i {
        Instr::Two { src, dst, .. } => {
            let kind = relocation_on(names, use_of_source(src), source);
            push_relocation(relocs, true, at + 2, kind)?;
            let kind = relocation_on(names, use_of_destination(dst), destination);
            push_relocation(relocs, true, behind(at, src), kind)
        }
        Instr::One { src, .. } => {
            let kind = relocation_on(names, use_of_source(src), source);
            push_relocation(relocs, true, at + 2, kind)
        }
        Instr::Reti | Instr::Jump { .. } => Ok(()),
    }
}

/// Whether the names of an instruction are of the kinds that its operands need.
fn instr_suit(names: &Names, source: Base, destination: Base, i: &Instr) -> bool
    ensures { result ≡ instr_suits names.now source destination i.now }
{
    match i {
        Instr::Two { src, dst, .. } => {
            suit(names, use_of_source(src), source)
                && suit(names, use_of_destination(dst), destination)
        }
        Instr::One { src, .. } => suit(names, use_of_source(src), source),
        Instr::Reti | Instr::Jump { .. } => true,
    }
}

/// The offset of the code's end.
fn end(out: &Built) -> u32
    requires { length out.now.code ≤ CODE_WORDS_MAX }
    ensures value { result ≡ code_end (output_of out.now) }
    ensures small { result ≤ CODE_BYTES_MAX }
{
    2 * out.code.len() as u32
}

/// Appends an instruction.
#[tactic(auto, unfolding(asm_model::specs::SecondPass::put_operation))]
fn operation(
    names: &Names,
    p: Progress,
    out: &mut Built,
    i: &Instr,
    source: Base,
    destination: Base,
) -> Result<(), Stop>
    requires legal { is_legal i.now ≡ true }
    requires room { length out.old.code ≤ CODE_WORDS_MAX }
    ensures output { Puts result (put_operation (known_from names.now p) (output_of out.old) i.now source destination) (output_of out.new) }
    ensures code { OnOk result (length out.new.code ≡ length out.old.code + (1 + length (words_after i.now))) }
    ensures initialised { OnOk result (length out.new.initialised ≡ length out.old.initialised) }
{
    if !known(names, source) || !known(names, destination) {
        return Err(Stop::Kind(AsmKind::NoLabel));
    }
    if !instr_suit(names, source, destination, i) {
        return Err(Stop::Kind(AsmKind::BadOperand));
    }
    tested_is_legal();
    let at = end(out);
    let settled = settled_instr(names, p, at, source, destination, i);
    push_words(&mut out.code, &settled)?;
    push_relocations(names, &mut out.code_relocs, at, source, destination, i)?;
    Ok(())
}

/// The offset of a code label.
fn place_of_code(value: Option<Value>) -> Result<u32, AsmKind>
    ensures value { result ≡ code_place value }
    ensures even { IfOk result (λ at. at % 2 ≡ 0) }
    ensures small { IfOk result (λ at. at < 2 ^ 17) }
{
    match value {
        None => Err(AsmKind::NoLabel),
        Some(Value::Code(word)) => Ok(2 * word as u32),
        Some(Value::Number(_) | Value::Initialised(_) | Value::Zeroed(_)) => {
            Err(AsmKind::BadOperand)
        }
    }
}

/// A jump's offset in words, from an even offset to another.
fn offset_words(at: u32, target: u32) -> i16
    requires reach { in_reach at target ≡ true }
    requires at { at ≤ CODE_BYTES_MAX }
    ensures value { result ≡ jump_offset at target }
    ensures legal { (negsuc 511 ≤ℤ result) × (result <ℤ pos 512) }
{
    (target / 2) as i16 - (at / 2 + 1) as i16
}

/// A jump from an offset to another in its reach.
fn jump_between(cond: Cond, at: u32, target: u32) -> Instr
    requires reach { in_reach at target ≡ true }
    requires at { at ≤ CODE_BYTES_MAX }
    ensures value { result ≡ jumps.Jump cond (jump_offset at target) }
    ensures legal { Legal result }
{
    legal_by_cases();
    Instr::Jump {
        cond,
        offset: offset_words(at, target),
    }
}

/// Whether a place is in a jump's reach.
fn reaches(at: u32, target: u32) -> bool
    requires { (at < 65000) × (target < 2 ^ 17) }
    ensures { result ≡ in_reach at target }
{
    at + 2 <= target + 1024 && target <= at + 1024
}

/// Appends a jump to a place.
fn jump_to(out: &mut Built, cond: Cond, target: Result<u32, AsmKind>) -> Result<(), Stop>
    requires target { IfOk target (λ at. at < 2 ^ 17) }
    requires room { length out.old.code ≤ CODE_WORDS_MAX }
    ensures output { Puts result (put_jump_to (output_of out.old) cond target) (output_of out.new) }
    ensures code { OnOk result (length out.new.code ≡ length out.old.code + 1) }
    ensures initialised { OnOk result (length out.new.initialised ≡ length out.old.initialised) }
{
    let target = match target {
        Err(kind) => return Err(Stop::Kind(kind)),
        Ok(target) => target,
    };
    let at = end(out);
    if !reaches(at, target) {
        return Err(Stop::Kind(AsmKind::JumpRange));
    }
    push_words(&mut out.code, &jump_between(cond, at, target))?;
    Ok(())
}

/// Appends a jump.
#[tactic(auto, unfolding(asm_model::specs::SecondPass::put_jump))]
fn jump(names: &Names, p: Progress, out: &mut Built, cond: Cond, target: Name) -> Result<(), Stop>
    requires { length out.old.code ≤ CODE_WORDS_MAX }
    ensures output { Puts result (put_jump (known_from names.now p) (output_of out.old) cond target) (output_of out.new) }
    ensures code { OnOk result (length out.new.code ≡ length out.old.code + 1) }
    ensures initialised { OnOk result (length out.new.initialised ≡ length out.old.initialised) }
{
    jump_to(out, cond, place_of_code(names.get(target)))
}

/// Appends an initialised word.
#[tactic(auto, unfolding(asm_model::specs::SecondPass::put_word))]
fn word(names: &Names, p: Progress, out: &mut Built, base: Base, word: u16) -> Result<(), Stop>
    requires { length out.old.initialised ≤ STATIC_BYTES_MAX }
    ensures output { Puts result (put_word (known_from names.now p) (output_of out.old) base word) (output_of out.new) }
    ensures code { OnOk result (length out.new.code ≡ length out.old.code) }
    ensures initialised { OnOk result (length out.new.initialised ≡ length out.old.initialised + 2) }
{
    if !known(names, base) {
        return Err(Stop::Kind(AsmKind::NoLabel));
    }
    let at = out.initialised.len() as u32;
    let word = word_on(names, p, Use::Immediate, at, base, word);
    out.initialised.extend_from_slice(&word.to_le_bytes())?;
    let kind = relocation_on(names, Use::Immediate, base);
    push_relocation(&mut out.data_relocs, false, at, kind)?;
    Ok(())
}

/// Where an entry or an export leads: a place in the code and not at its end.
#[tactic(auto, unfolding(asm_model::specs::SecondPass::start_of))]
fn start(names: &Names, p: Progress, label: Name) -> Result<u32, AsmKind>
    ensures value { result ≡ start_of (known_from names.now p) label }
    ensures small { IfOk result (λ at. at < 2 * p.code) }
{
    match place_of_code(names.get(label)) {
        Err(kind) => Err(kind),
        Ok(at) if at < 2 * p.code as u32 => Ok(at),
        Ok(_) => Err(AsmKind::BadOperand),
    }
}

/// The entry at a place.
fn enter(out: &mut Built, at: Result<u32, AsmKind>) -> Result<(), Stop>
    requires { IfOk at (λ at. at < 65536) }
    ensures output { Puts result (enter_at (output_of out.old) at) (output_of out.new) }
    ensures code { OnOk result (length out.new.code ≡ length out.old.code) }
    ensures initialised { OnOk result (length out.new.initialised ≡ length out.old.initialised) }
{
    match at {
        Err(kind) => Err(Stop::Kind(kind)),
        Ok(at) => {
            out.entry = at as u16;
            Ok(())
        }
    }
}

/// An export at a place.
fn export(out: &mut Built, number: u8, at: Result<u32, AsmKind>) -> Result<(), Stop>
    requires { IfOk at (λ at. at < 65536) }
    ensures output { Puts result (export_at (output_of out.old) number at) (output_of out.new) }
    ensures code { OnOk result (length out.new.code ≡ length out.old.code) }
    ensures initialised { OnOk result (length out.new.initialised ≡ length out.old.initialised) }
{
    match at {
        Err(kind) => Err(Stop::Kind(kind)),
        Ok(at) => {
            out.exports.push(Export {
                number,
                offset: at as u16,
            })?;
            Ok(())
        }
    }
}

/// Appends a piece.
#[tactic(auto, unfolding(asm_model::specs::SecondPass::put_piece))]
pub(crate) fn put(names: &Names, p: Progress, out: &mut Built, piece: &Piece) -> Result<(), Stop>
    requires legal { IsLegalPiece piece.now }
    requires code { length out.old.code ≤ CODE_WORDS_MAX }
    requires initialised { length out.old.initialised ≤ STATIC_BYTES_MAX }
    requires total { p.code ≤ CODE_WORDS_MAX }
    ensures output { Puts result (put_piece (known_from names.now p) (output_of out.old) piece.now) (output_of out.new) }
    ensures code { OnOk result (length out.new.code ≡ length out.old.code + code_words piece.now) }
    ensures initialised { OnOk result (length out.new.initialised ≡ length out.old.initialised + initialised_bytes piece.now) }
{
    match piece {
        Piece::Operation {
            instr,
            source,
            destination,
        } => operation(names, p, out, instr, *source, *destination),
        Piece::Jump { cond, target } => jump(names, p, out, *cond, *target),
        Piece::Word { base, word: added } => word(names, p, out, *base, *added),
        Piece::Byte(byte) => {
            out.initialised.push(*byte)?;
            Ok(())
        }
        Piece::Entry(label) => enter(out, start(names, p, *label)),
        Piece::Export { number, label } => export(out, *number, start(names, p, *label)),
    }
}
