//! What each kind of line says behind its first word.

ghost use Rattle.std.specs.Prelude.{◌≡◌};
ghost use Rattle.trace_model.specs.Grammar.{words_of, every_of, kind_of, at_of, mix_of};

use crate::text::{next_word, number};
use trace_model::scripts::{At, AtKind, Every, LINE_MAX, STEP_MAX};

/// `every N LINE`.
pub(crate) fn every(rest: &[u8]) -> Option<Every>
    ensures { result ≡ every_of (words_of rest.now) }
{
    let (period, rest) = next_word(rest)?;
    let (line, rest) = next_word(rest)?;
    if next_word(rest).is_some() {
        return None;
    }
    let period = number(1, STEP_MAX, period)?;
    let line = number(0, LINE_MAX, line)?;
    Some(Every {
        period,
        line: line as u8,
    })
}

/// `raise LINE` and `pick K`.
#[tactic(auto, unfolding(trace_model::specs::Grammar::kind_of))]
fn kind(word: &[u8], operand: &[u8]) -> Option<AtKind>
    ensures { result ≡ kind_of word.now operand.now }
{
    if word == b"raise".as_slice() {
        let line = number(0, LINE_MAX, operand)?;
        Some(AtKind::Raise(line as u8))
    } else if word == b"pick".as_slice() {
        let pick = number(0, u32::MAX, operand)?;
        Some(AtKind::Pick(pick))
    } else {
        None
    }
}

/// `at S raise LINE` and `at S pick K`.
pub(crate) fn at(rest: &[u8]) -> Option<At>
    ensures { result ≡ at_of (words_of rest.now) }
{
    let (step, rest) = next_word(rest)?;
    let (word, rest) = next_word(rest)?;
    let (operand, rest) = next_word(rest)?;
    if next_word(rest).is_some() {
        return None;
    }
    let step = number(1, STEP_MAX, step)?;
    let what = kind(word, operand)?;
    Some(At { step, what })
}

/// `mix N`.
pub(crate) fn mix(rest: &[u8]) -> Option<u32>
    ensures { result ≡ mix_of (words_of rest.now) }
{
    let (word, rest) = next_word(rest)?;
    if next_word(rest).is_some() {
        return None;
    }
    number(0, u32::MAX, word)
}
