//! Expressions.

ghost use Rattle.std.specs.Prelude.{◌≡◌, None};
ghost use Rattle.asm_model.specs.Numbers.{numeral_by};
ghost use Rattle.asm_model.specs.Expressions.{number_alone, added, named, name_plus, with_numeral, over_name, expression_of, is_plain, is_over_label};

use crate::bytes::{Class, byte_at, position};
use crate::names::{Names, can_be_label, is_high, is_low, name};
use crate::numbers::{fits, numeral, unsigned, word as numeral_word};
use asm_model::expression::{Base, Expression, Numeral};
use asm_model::name::{Name, Value};

/// The largest number behind a sign.
const ADDED_MAX: u32 = 65_535;

/// A number that stands alone.
#[tactic(auto, unfolding(asm_model::specs::Expressions::number_alone))]
fn alone(n: Numeral) -> Expression
    ensures { result ≡ number_alone n }
{
    Expression {
        base: Base::Number,
        word: numeral_word(n),
        fits: fits(n),
    }
}

/// A base and a word on it, with a number added, which behind either sign goes to 65535.
#[tactic(auto, unfolding(asm_model::specs::Expressions::added))]
fn add(base: Base, word: u16, n: Numeral) -> Expression
    ensures { result ≡ added base word n }
{
    Expression {
        base,
        word: word.wrapping_add(numeral_word(n)),
        fits: n.size <= ADDED_MAX,
    }
}

/// A name with a number added: one given by `.equ` counts as its number.
fn add_to_name(name: Name, value: Option<Value>, n: Numeral) -> Expression
    ensures { result ≡ named name value n }
{
    match value {
        Some(Value::Number(number)) => add(Base::Number, number, n),
        _ => add(Base::Label(name), 0, n),
    }
}

/// A word that is a name, with a number added.
#[tactic(auto, unfolding(asm_model::specs::Expressions::name_plus))]
fn over_word(names: &Names, word: &[u8], n: Numeral) -> Option<Expression>
    ensures { result ≡ name_plus names.now word.now n }
{
    if is_low(word) {
        Some(add(Base::Lo, 0, n))
    } else if is_high(word) {
        Some(add(Base::Hi, 0, n))
    } else if can_be_label(word) {
        let name = name(word);
        Some(add_to_name(name, names.get(name), n))
    } else {
        None
    }
}

/// A word that is a name, a name `+` number or a name `-` number.
#[tactic(auto, unfolding(asm_model::specs::Expressions::over_name))]
fn with_sign(names: &Names, word: &[u8]) -> Option<Expression>
    ensures { result ≡ over_name names.now word.now }
{
    let at = position(Class::Sign, word);
    if at == word.len() {
        return over_word(
            names,
            word,
            Numeral {
                negative: false,
                size: 0,
            },
        );
    }
    match unsigned(&word[at + 1..]) {
        None => None,
        Some(size) => over_word(
            names,
            &word[..at],
            Numeral {
                negative: word[at] == b'-',
                size,
            },
        ),
    }
}

/// An expression: a number, or one over a name.
#[tactic(auto, unfolding(asm_model::specs::Expressions::expression_of))]
pub(crate) fn expression(names: &Names, word: &[u8]) -> Option<Expression>
    ensures { result ≡ expression_of names.now word.now }
{
    let first = byte_at(word, 0);
    if first.is_ascii_digit() || first == b'-' {
        match numeral(word) {
            None => None,
            Some(n) => Some(alone(n)),
        }
    } else {
        with_sign(names, word)
    }
}

/// Whether a base is a number or a label.
pub(crate) fn plain(base: Base) -> bool
    ensures { result ≡ is_plain base }
{
    match base {
        Base::Number | Base::Label(_) => true,
        Base::Lo | Base::Hi => false,
    }
}

/// Whether a base is a label.
pub(crate) fn over_label(base: Base) -> bool
    ensures { result ≡ is_over_label base }
{
    match base {
        Base::Label(_) => true,
        Base::Number | Base::Lo | Base::Hi => false,
    }
}
