//! Operands as written.

ghost use Rattle.std.specs.Prelude.{◌≡◌, ◌-◌, take, drop, length};
ghost use Rattle.asm_model.specs.Operands.{plain_only, label_only, address_of, distance_of, hash_operand, at_operand, indexed, indexed_operand, plain_operand, operand_of};

use crate::bytes::{Class, byte_at, position};
use crate::expressions::{expression, over_label, plain};
use crate::names::{Names, register};
use asm_model::expression::Expression;
use asm_model::operand::Operand;

/// What stands behind the first byte.
fn tail(word: &[u8]) -> &[u8]
    ensures { result.now ≡ drop 1 word.now }
{
    if word.is_empty() { word } else { &word[1..] }
}

/// A number or a label of static data.
#[tactic(auto, unfolding(asm_model::specs::Operands::address_of))]
pub fn address(names: &Names, word: &[u8]) -> Option<Expression>
    ensures { result ≡ address_of names.now word.now }
{
    match expression(names, word) {
        Some(e) if plain(e.base) => Some(e),
        _ => None,
    }
}

/// `name` or `name+n`.
#[tactic(auto, unfolding(asm_model::specs::Operands::distance_of))]
fn distance(names: &Names, word: &[u8]) -> Option<Expression>
    ensures { result ≡ distance_of names.now word.now }
{
    if word.contains(&b'-') {
        return None;
    }
    match expression(names, word) {
        Some(e) if over_label(e.base) => Some(e),
        _ => None,
    }
}

/// `##expr` or `#expr`, behind the first `#`.
#[tactic(auto, unfolding(asm_model::specs::Operands::hash_operand))]
fn after_hash(names: &Names, word: &[u8]) -> Option<Operand>
    ensures { result ≡ hash_operand names.now word.now }
{
    match word.strip_prefix(b"#") {
        Some(rest) => Some(Operand::Immediate(expression(names, rest)?)),
        None => Some(Operand::Value(expression(names, word)?)),
    }
}

/// `@Rn` or `@Rn+`, behind the `@`.
#[tactic(auto, unfolding(asm_model::specs::Operands::at_operand))]
fn after_at(word: &[u8]) -> Option<Operand>
    ensures { result ≡ at_operand word.now }
{
    match word.strip_suffix(b"+") {
        Some(front) => Some(Operand::AutoInc(register(front)?)),
        None => Some(Operand::Indirect(register(word)?)),
    }
}

/// `X(Rn)`, before the last `)`.
#[tactic(auto, unfolding(asm_model::specs::Operands::indexed_operand))]
fn before_bracket(names: &Names, word: &[u8]) -> Option<Operand>
    ensures { result ≡ indexed_operand names.now word.now }
{
    let at = position(Class::Byte(b'('), word);
    let behind = if at < word.len() {
        &word[at + 1..]
    } else {
        &word[at..]
    };
    match (address(names, &word[..at]), register(behind)) {
        (Some(x), Some(register)) => Some(Operand::Indexed(register, x)),
        _ => None,
    }
}

/// An operand that begins with none of `#`, `&` and `@`.
#[tactic(auto, unfolding(asm_model::specs::Operands::plain_operand))]
fn without_sign(names: &Names, register: Option<u8>, word: &[u8]) -> Option<Operand>
    ensures { result ≡ plain_operand names.now register word.now }
{
    match (register, word.strip_suffix(b")")) {
        (Some(register), _) => Some(Operand::Reg(register)),
        (None, Some(front)) => before_bracket(names, front),
        (None, None) => Some(Operand::Symbolic(distance(names, word)?)),
    }
}

/// The operand that a word is.
#[tactic(auto, unfolding(asm_model::specs::Operands::operand_of))]
pub(crate) fn operand(names: &Names, word: &[u8]) -> Option<Operand>
    ensures { result ≡ operand_of names.now word.now }
{
    match byte_at(word, 0) {
        b'#' => after_hash(names, tail(word)),
        b'&' => match address(names, tail(word)) {
            None => None,
            Some(e) => Some(Operand::Absolute(e)),
        },
        b'@' => after_at(tail(word)),
        _ => without_sign(names, register(word), word),
    }
}
