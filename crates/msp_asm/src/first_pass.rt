//! The first pass: what each line adds to the draft.

ghost use Rattle.std.specs.Prelude.{◌≡◌, ◌+◌, ◌<◌, ◌≤◌, ◌^◌, false, is_some, length, List, IfOk};
ghost use Rattle.asm_model.specs.Words.{operands_of};
ghost use Rattle.asm_model.specs.Names.{is_taken, value_of};
ghost use Rattle.asm_model.specs.Drafts.{draft_by};
ghost use Rattle.asm_model.specs.declared.name.Name.{Name};
ghost use Rattle.asm_model.specs.declared.name.Value.{Value};
ghost use Rattle.asm_model.specs.declared.piece.Placed.{Placed};
ghost use Rattle.asm_model.specs.declared.progress.Progress.{Progress};
ghost use Rattle.asm_model.specs.Lines.{lines_of};
ghost use Rattle.asm_model.specs.FirstPass.{put_code, take_instruction, go_on, define, tell, take_directive, take_keyword, take_statement, take_labelled, take_body, take_line, first_pass};
ghost use Rattle.msp_asm.specs.Given.{Gives, HasSmallNumber};

use crate::directives::{enter, entry, export, head, in_code, space, tell, version, with_version};
use crate::drafts::{Pieces, Stop, grow, place, words};
use crate::static_data::data;
use asm_lines::bytes::{is_empty, is_text};
use asm_lines::declarations::{app_header, equated, module_header};
use asm_lines::instructions::instruction;
use asm_lines::keywords::keyword;
use asm_lines::names::{Names, has_form, name, taken};
use asm_lines::text::{
    body, is_labelled, label_word, labelled, rest as behind_word, word as first_word,
};
use asm_model::fault::AsmKind;
use asm_model::mnemonic::{Directive, Keyword, MnemonicForm};
use asm_model::name::{Name, Value};
use asm_model::piece::{DataUnit, Piece, Placed};
use asm_model::progress::{Progress, Section};
use msp_encode::instr::Width;

/// With a piece of code.
fn put(
    line: u32,
    p: Progress,
    pieces: &mut Pieces,
    piece: Result<Piece, AsmKind>,
) -> Result<Progress, Stop>
    ensures { (names : List (Name × Value)) → Gives result (put_code line (draft_by p names pieces.old) piece) names pieces.new }
{
    let piece = match piece {
        Err(kind) => return Err(Stop::Kind(kind)),
        Ok(piece) => piece,
    };
    match grow(p, words(&piece), 0, 0) {
        Err(kind) => Err(Stop::Kind(kind)),
        Ok(next) => {
            pieces.push(Placed { line, piece })?;
            Ok(next)
        }
    }
}

/// With an instruction.
#[tactic(auto, unfolding(asm_model::specs::FirstPass::take_instruction))]
fn put_instruction(
    line: u32,
    p: Progress,
    names: &Names,
    pieces: &mut Pieces,
    form: MnemonicForm,
    width: Width,
    rest: &[u8],
) -> Result<Progress, Stop>
    ensures { Gives result (take_instruction line (draft_by p names.now pieces.old) form width rest.now) names.now pieces.new }
{
    if p.header.is_some() && in_code(p.section) {
        put(line, p, pieces, instruction(names, form, width, rest))
    } else {
        Err(Stop::Kind(AsmKind::BadDirective))
    }
}

/// With a progress alone.
fn go(p: Result<Progress, AsmKind>) -> Result<Progress, Stop>
    ensures { (old : Progress) (names : List (Name × Value)) (pieces : List Placed) → Gives result (go_on (draft_by old names pieces) p) names pieces }
{
    match p {
        Err(kind) => Err(Stop::Kind(kind)),
        Ok(p) => Ok(p),
    }
}

/// With a name of a number.
fn equate(
    p: Progress,
    names: &mut Names,
    entry: Result<(Name, Value), AsmKind>,
) -> Result<Progress, Stop>
    requires { IfOk entry (λ entry. is_some (value_of names.old entry.0) ≡ false) }
    ensures { (pieces : List Placed) → Gives result (define (draft_by p names.old pieces) entry) names.new pieces }
{
    match entry {
        Err(kind) => Err(Stop::Kind(kind)),
        Ok((name, value)) => {
            names.define(name, value)?;
            Ok(with_version(p, p.version))
        }
    }
}

/// With an entry or an export.
fn put_start(
    line: u32,
    p: Progress,
    pieces: &mut Pieces,
    piece: Result<Piece, AsmKind>,
) -> Result<Progress, Stop>
    requires { IfOk piece HasSmallNumber }
    ensures { (names : List (Name × Value)) → Gives result (tell line (draft_by p names pieces.old) piece) names pieces.new }
{
    match piece {
        Err(kind) => Err(Stop::Kind(kind)),
        Ok(piece) => {
            pieces.push(Placed { line, piece })?;
            Ok(tell(p, &piece))
        }
    }
}

/// With a directive.
#[tactic(auto, unfolding(asm_model::specs::FirstPass::take_directive))]
fn put_directive(
    line: u32,
    p: Progress,
    names: &mut Names,
    pieces: &mut Pieces,
    directive: Directive,
    rest: &[u8],
) -> Result<Progress, Stop>
    ensures { Gives result (take_directive line (draft_by p names.old pieces.old) directive rest.now) names.new pieces.new }
{
    match directive {
        Directive::App => go(head(p, app_header(rest))),
        Directive::Module => go(head(p, module_header(rest))),
        Directive::Version => go(version(p, rest)),
        Directive::Equ => {
            let entry = equated(names, p.header.is_some() && !p.begun, rest);
            equate(p, names, entry)
        }
        Directive::Entry => put_start(line, p, pieces, entry(names, p, rest)),
        Directive::Export => put_start(line, p, pieces, export(names, p, rest)),
        Directive::Code => go(enter(p, Section::Code, rest)),
        Directive::Data => go(enter(p, Section::Data, rest)),
        Directive::Zero => go(enter(p, Section::Zero, rest)),
        Directive::Word => data(DataUnit::Word, line, p, names, pieces, rest),
        Directive::Byte => data(DataUnit::Byte, line, p, names, pieces, rest),
        Directive::Space => go(space(p, rest)),
    }
}

/// With a statement, or as it was where there is none.
#[tactic(auto, unfolding(asm_model::specs::FirstPass::take_statement))]
fn put_statement(
    line: u32,
    p: Progress,
    names: &mut Names,
    pieces: &mut Pieces,
    text: &[u8],
) -> Result<Progress, Stop>
    ensures { Gives result (take_statement line (draft_by p names.old pieces.old) text.now) names.new pieces.new }
{
    if is_empty(text) {
        return Ok(p);
    }
    let rest = behind_word(text);
    match keyword(first_word(text)) {
        None => Err(Stop::Kind(AsmKind::UnknownWord)),
        Some(Keyword::Directive(directive)) => {
            put_directive(line, p, names, pieces, directive, rest)
        }
        Some(Keyword::Mnemonic(form, width)) => {
            put_instruction(line, p, names, pieces, form, width, rest)
        }
    }
}

/// With a label and what stands behind it.
#[tactic(auto, unfolding(asm_model::specs::FirstPass::take_labelled, asm_model::specs::Names::is_taken))]
fn put_labelled(
    line: u32,
    p: Progress,
    names: &mut Names,
    pieces: &mut Pieces,
    word: &[u8],
    rest: &[u8],
) -> Result<Progress, Stop>
    ensures { Gives result (take_labelled line (draft_by p names.old pieces.old) word.now rest.now) names.new pieces.new }
{
    if taken(names, word) {
        return Err(Stop::Kind(AsmKind::DoubleLabel));
    }
    if !has_form(word) {
        return Err(Stop::Kind(AsmKind::UnknownWord));
    }
    names.define(name(word), place(p.section, p))?;
    put_statement(line, p, names, pieces, rest)
}

/// With a line.
#[tactic(auto, unfolding(asm_model::specs::FirstPass::take_line, asm_model::specs::FirstPass::take_body))]
pub(crate) fn put_line(
    line: u32,
    p: Progress,
    names: &mut Names,
    pieces: &mut Pieces,
    bytes: &[u8],
) -> Result<Progress, Stop>
    ensures { Gives result (take_line line (draft_by p names.old pieces.old) bytes.now) names.new pieces.new }
{
    if !is_text(bytes) {
        return Err(Stop::Kind(AsmKind::NotText));
    }
    let body = body(bytes);
    if is_labelled(body) {
        put_labelled(line, p, names, pieces, label_word(body), labelled(body))
    } else {
        put_statement(line, p, names, pieces, body)
    }
}
