//! What directives do to what the first pass has come to.

ghost use Rattle.std.specs.Prelude.{◌≡◌, true, IfOk};
ghost use Rattle.asm_model.specs.Drafts.{by_progress};
ghost use Rattle.msp_asm.specs.Given.{HasSmallNumber};
ghost use Rattle.asm_model.specs.Directives.{with_header, headed, only_header, with_version, is_two, version_of, is_application, is_module, entry_by, entry_of, export_by, export_of, told, section_from, is_code, is_data, is_zero, space_by, space_of};

use crate::drafts::grow;
use asm_lines::bytes::is_empty;
use asm_lines::instructions::label;
use asm_lines::names::Names;
use asm_lines::numbers::{between, numeral};
use asm_lines::text::{rest as behind_word, word as first_word};
use asm_model::expression::Numeral;
use asm_model::fault::AsmKind;
use asm_model::name::Name;
use asm_model::piece::Piece;
use asm_model::progress::{Header, Progress, Section, Version};
use code_model::object::{EXPORT_NUMBER_MAX, STATIC_BYTES_MAX};

/// With a header, where there is none yet.
pub(crate) fn head(p: Progress, header: Result<Header, AsmKind>) -> Result<Progress, AsmKind>
    ensures { result ≡ only_header p p.header header }
{
    if p.header.is_some() {
        return Err(AsmKind::BadDirective);
    }
    match header {
        Err(kind) => Err(kind),
        Ok(header) => Ok(Progress {
            header: Some(header),
            version: p.version,
            named: p.named,
            begun: p.begun,
            section: p.section,
            entered: p.entered,
            least_export: p.least_export,
            code: p.code,
            initialised: p.initialised,
            zeroed: p.zeroed,
        }),
    }
}

/// With a version, by `.version` or in front of a name by `.equ`.
pub(crate) fn with_version(p: Progress, version: Version) -> Progress
    ensures { result ≡ with_version p version }
{
    Progress {
        header: p.header,
        version,
        named: true,
        begun: p.begun,
        section: p.section,
        entered: p.entered,
        least_export: p.least_export,
        code: p.code,
        initialised: p.initialised,
        zeroed: p.zeroed,
    }
}

/// With version 2, directly behind the header.
#[tactic(auto, unfolding(asm_model::specs::Directives::version_of))]
pub(crate) fn version(p: Progress, rest: &[u8]) -> Result<Progress, AsmKind>
    ensures { result ≡ version_of p rest.now }
{
    if p.header.is_none() || p.named || p.begun {
        return Err(AsmKind::BadDirective);
    }
    match numeral(rest) {
        Some(n) if between(2, 2, n) => Ok(with_version(p, Version::Two)),
        _ => Err(AsmKind::BadDirective),
    }
}

/// Whether a header is an application's.
fn of_application(header: Option<Header>) -> bool
    ensures { result ≡ is_application header }
{
    matches!(header, Some(Header::App { .. }))
}

/// Whether a header is a module's.
fn of_module(header: Option<Header>) -> bool
    ensures { result ≡ is_module header }
{
    matches!(header, Some(Header::Module))
}

/// The entry of an application.
#[tactic(auto, unfolding(asm_model::specs::Directives::entry_of))]
pub(crate) fn entry(names: &Names, p: Progress, rest: &[u8]) -> Result<Piece, AsmKind>
    ensures value { result ≡ entry_of names.now p rest.now }
    ensures small { IfOk result HasSmallNumber }
{
    if !of_application(p.header) || p.entered {
        return Err(AsmKind::BadDirective);
    }
    match label(names, rest) {
        None => Err(AsmKind::BadDirective),
        Some(label) => Ok(Piece::Entry(label)),
    }
}

/// An export's number and label.
fn exported(least: u8, number: Option<Numeral>, label: Option<Name>) -> Result<Piece, AsmKind>
    ensures value { result ≡ export_by least number label }
    ensures small { IfOk result HasSmallNumber }
{
    let (Some(number), Some(label)) = (number, label) else {
        return Err(AsmKind::BadDirective);
    };
    if between(u32::from(least), u32::from(EXPORT_NUMBER_MAX), number) {
        Ok(Piece::Export {
            number: number.size as u8,
            label,
        })
    } else {
        Err(AsmKind::NumberRange)
    }
}

/// An export of a module.
#[tactic(auto, unfolding(asm_model::specs::Directives::export_of))]
pub(crate) fn export(names: &Names, p: Progress, rest: &[u8]) -> Result<Piece, AsmKind>
    ensures value { result ≡ export_of names.now p rest.now }
    ensures small { IfOk result HasSmallNumber }
{
    if !of_module(p.header) {
        return Err(AsmKind::BadDirective);
    }
    exported(
        p.least_export,
        numeral(first_word(rest)),
        label(names, behind_word(rest)),
    )
}

/// With so much told beside the header and the sizes.
fn tell_by(p: Progress, section: Section, entered: bool, least_export: u8) -> Progress
    ensures { result ≡ by_progress p true section entered least_export p.code p.initialised p.zeroed }
{
    Progress {
        header: p.header,
        version: p.version,
        named: p.named,
        begun: true,
        section,
        entered,
        least_export,
        code: p.code,
        initialised: p.initialised,
        zeroed: p.zeroed,
    }
}

/// With the entry or an export told.
pub(crate) fn tell(p: Progress, piece: &Piece) -> Progress
    requires { HasSmallNumber piece.now }
    ensures { result ≡ told p piece.now }
{
    match piece {
        Piece::Entry(_) => tell_by(p, p.section, true, p.least_export),
        Piece::Export { number, .. } => tell_by(p, p.section, p.entered, *number + 1),
        _ => p,
    }
}

/// In a section from here on.
#[tactic(auto, unfolding(asm_model::specs::Directives::section_from))]
pub(crate) fn enter(p: Progress, section: Section, rest: &[u8]) -> Result<Progress, AsmKind>
    ensures { result ≡ section_from p section rest.now }
{
    if p.header.is_some() && is_empty(rest) {
        Ok(tell_by(p, section, p.entered, p.least_export))
    } else {
        Err(AsmKind::BadDirective)
    }
}

/// Whether a section is the code's.
pub(crate) fn in_code(section: Section) -> bool
    ensures { result ≡ is_code section }
{
    matches!(section, Section::Code)
}

/// Whether a section is that of initialised bytes.
pub(crate) fn in_data(section: Section) -> bool
    ensures { result ≡ is_data section }
{
    matches!(section, Section::Data)
}

/// Whether a section is that of zeroed bytes.
fn in_zero(section: Section) -> bool
    ensures { result ≡ is_zero section }
{
    matches!(section, Section::Zero)
}

/// With so many zeroed bytes.
fn spaced(p: Progress, n: Option<Numeral>) -> Result<Progress, AsmKind>
    ensures { result ≡ space_by p n }
{
    match n {
        None => Err(AsmKind::BadDirective),
        Some(n) if between(0, STATIC_BYTES_MAX as u32, n) => grow(p, 0, 0, n.size),
        Some(_) => Err(AsmKind::NumberRange),
    }
}

/// With zeroed bytes, where they may stand.
#[tactic(auto, unfolding(asm_model::specs::Directives::space_of))]
pub(crate) fn space(p: Progress, rest: &[u8]) -> Result<Progress, AsmKind>
    ensures { result ≡ space_of p rest.now }
{
    if in_zero(p.section) {
        spaced(p, numeral(rest))
    } else {
        Err(AsmKind::BadDirective)
    }
}
