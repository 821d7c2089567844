//! What `.app`, `.module` and `.equ` declare, by their line alone.

ghost use Rattle.std.specs.Prelude.{◌≡◌, false, is_some, IfOk};
ghost use Rattle.asm_model.specs.Names.{is_taken, name_of, value_of};
ghost use Rattle.asm_model.specs.Directives.{application, application_of, module_of, number_named, named_by, equate};

use crate::bytes::is_empty;
use crate::names::{Names, has_form, name, taken};
use crate::numbers::{between, fits, numeral, word as numeral_word};
use crate::text::{rest as behind_word, word as first_word};
use asm_model::expression::Numeral;
use asm_model::fault::AsmKind;
use asm_model::name::{Name, Value};
use asm_model::progress::Header;
use code_model::object::{STACK_BYTES_MAX, STACK_BYTES_MIN};
use kernel_model::map::THREADS_OF_APP;

/// An application's header.
fn application(stack: Option<Numeral>, threads: Option<Numeral>) -> Result<Header, AsmKind>
    ensures { result ≡ application stack threads }
{
    let (Some(stack), Some(threads)) = (stack, threads) else {
        return Err(AsmKind::BadDirective);
    };
    if between(
        u32::from(STACK_BYTES_MIN),
        u32::from(STACK_BYTES_MAX),
        stack,
    ) && stack.size % 2 == 0
        && between(1, u32::from(THREADS_OF_APP), threads)
    {
        Ok(Header::App {
            stack: stack.size as u16,
            threads: threads.size as u8,
        })
    } else {
        Err(AsmKind::NumberRange)
    }
}

/// The header of `.app`.
#[tactic(auto, unfolding(asm_model::specs::Directives::application_of))]
pub fn app_header(rest: &[u8]) -> Result<Header, AsmKind>
    ensures { result ≡ application_of rest.now }
{
    application(numeral(first_word(rest)), numeral(behind_word(rest)))
}

/// The header of `.module`.
#[tactic(auto, unfolding(asm_model::specs::Directives::module_of))]
pub fn module_header(rest: &[u8]) -> Result<Header, AsmKind>
    ensures { result ≡ module_of rest.now }
{
    if is_empty(rest) {
        Ok(Header::Module)
    } else {
        Err(AsmKind::BadDirective)
    }
}

/// The number of a name.
fn named_number(n: Option<Numeral>) -> Result<Value, AsmKind>
    ensures { result ≡ number_named n }
{
    match n {
        None => Err(AsmKind::BadDirective),
        Some(n) if fits(n) => Ok(Value::Number(numeral_word(n))),
        Some(_) => Err(AsmKind::NumberRange),
    }
}

/// The name and the number of `.equ`, where it may stand.
#[tactic(auto, unfolding(asm_model::specs::Directives::equate, asm_model::specs::Names::is_taken))]
pub fn equated(names: &Names, allowed: bool, rest: &[u8]) -> Result<(Name, Value), AsmKind>
    ensures value { result ≡ equate names.now allowed rest.now }
    ensures new { IfOk result (λ entry. is_some (value_of names.now entry.0) ≡ false) }
{
    let word = first_word(rest);
    if taken(names, word) {
        return Err(AsmKind::DoubleLabel);
    }
    if !allowed || !has_form(word) {
        return Err(AsmKind::BadDirective);
    }
    match named_number(numeral(behind_word(rest))) {
        Err(kind) => Err(kind),
        Ok(value) => Ok((name(word), value)),
    }
}
