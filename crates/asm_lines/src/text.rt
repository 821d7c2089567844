//! The parts of a text: lines, the parts of a line, operands.

ghost use Rattle.std.specs.Prelude.{◌≡◌, ◌==◌, ◌<◌, [], ◌∷◌, MatchOption, IfSome, length};
ghost use Rattle.std.specs.List.{slice_split, before_first};
ghost use Rattle.asm_model.specs.Lines.{without_return, lines_of};
ghost use Rattle.asm_model.specs.Words.{is_semicolon, trimmed_start, trimmed_end, trimmed, first_word, behind_word, body_of, word_end, has_colon, before_colon, behind_colon, word_is};

use crate::bytes::{Class, byte_at, count_at_end, position};

/// What stands before the first of a byte, and what stands behind it, if it is there.
pub fn cut(text: &[u8], byte: u8) -> (&[u8], Option<&[u8]>)
    ensures shorter { IfSome result.1 (λ behind. length behind.now < length text.now) }
    ensures parts { MatchOption result.1
        (slice_split (λ b. b == byte) text.now ≡ result.0.now ∷ [])
        (λ behind. slice_split (λ b. b == byte) text.now ≡ result.0.now ∷ slice_split (λ b. b == byte) behind.now) }
{
    let at = position(Class::Byte(byte), text);
    if at < text.len() {
        (&text[..at], Some(&text[at + 1..]))
    } else {
        (text, None)
    }
}

/// A line without the CR at its end.
#[tactic(auto, unfolding(asm_model::specs::Lines::without_return))]
fn strip_return(line: &[u8]) -> &[u8]
    ensures { result.now ≡ without_return line.now }
{
    match line.strip_suffix(b"\r") {
        Some(front) => front,
        None => line,
    }
}

/// A text's first line, and what stands behind its LF, if it is there.
#[tactic(auto, using(crate::proofs::Lining::ended_more), unfolding(asm_model::specs::Lines::lines_of))]
pub fn cut_line(text: &[u8]) -> (&[u8], Option<&[u8]>)
    ensures shorter { IfSome result.1 (λ behind. length behind.now < length text.now) }
    ensures lines { MatchOption result.1
        (lines_of text.now ≡ result.0.now ∷ [])
        (λ behind. lines_of text.now ≡ result.0.now ∷ lines_of behind.now) }
{
    let (line, behind) = cut(text, b'\n');
    match behind {
        None => (line, None),
        Some(behind) => (strip_return(line), Some(behind)),
    }
}

/// Without the blanks at the front.
#[tactic(auto, unfolding(asm_model::specs::Words::trimmed_start))]
fn trim_start(text: &[u8]) -> &[u8]
    ensures { result.now ≡ trimmed_start text.now }
{
    &text[position(Class::NotBlank, text)..]
}

/// Without the blanks at the end.
#[tactic(auto, unfolding(asm_model::specs::Words::trimmed_end))]
fn trim_end(text: &[u8]) -> &[u8]
    ensures { result.now ≡ trimmed_end text.now }
{
    &text[..text.len() - count_at_end(Class::Blank, text)]
}

/// Without the blanks at both ends.
pub fn trim(text: &[u8]) -> &[u8]
    ensures { result.now ≡ trimmed text.now }
{
    trim_end(trim_start(text))
}

/// The bytes up to the first blank.
#[tactic(auto, unfolding(asm_model::specs::Words::first_word))]
pub fn word(text: &[u8]) -> &[u8]
    ensures { result.now ≡ first_word text.now }
{
    &text[..position(Class::Blank, text)]
}

/// What stands behind the first word.
#[tactic(auto, unfolding(asm_model::specs::Words::behind_word))]
pub fn rest(text: &[u8]) -> &[u8]
    ensures { result.now ≡ behind_word text.now }
{
    trim_start(&text[position(Class::Blank, text)..])
}

/// A line without its comment and without blanks at its ends.
#[tactic(auto, unfolding(asm_model::specs::Words::body_of))]
pub fn body(line: &[u8]) -> &[u8]
    ensures { result.now ≡ body_of line.now }
{
    trim(&line[..position(Class::Byte(b';'), line)])
}

/// Whether a body's first word stands before a colon.
#[tactic(auto, unfolding(asm_model::specs::Words::has_colon))]
pub fn is_labelled(body: &[u8]) -> bool
    ensures { result ≡ has_colon body.now }
{
    byte_at(body, position(Class::BlankOrColon, body)) == b':'
}

/// A body's first word.
#[tactic(auto, unfolding(asm_model::specs::Words::before_colon))]
pub fn label_word(body: &[u8]) -> &[u8]
    ensures { result.now ≡ before_colon body.now }
{
    &body[..position(Class::BlankOrColon, body)]
}

/// What stands behind the colon of a label.
#[tactic(auto, unfolding(asm_model::specs::Words::behind_colon))]
pub fn labelled(body: &[u8]) -> &[u8]
    ensures { result.now ≡ behind_colon body.now }
{
    let end = position(Class::BlankOrColon, body);
    if end < body.len() {
        trim_start(&body[end + 1..])
    } else {
        trim_start(&body[end..])
    }
}

/// Whether a word is this keyword, in either case.
#[tactic(auto, unfolding(asm_model::specs::Words::word_is))]
pub(crate) fn is_word(word: &[u8], keyword: &[u8]) -> bool
    ensures { result ≡ word_is word.now keyword.now }
{
    if word.len() != keyword.len() {
        return false;
    }
    for i in 0..word.len() {
        if word[i].to_ascii_uppercase() != keyword[i] {
            return false;
        }
    }
    true
}
