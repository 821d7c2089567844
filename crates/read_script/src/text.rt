//! The parts of a text: lines, words, numbers.

ghost use Rattle.std.specs.Prelude.{◌≡◌, ◌==◌, ◌≤◌, ◌<◌, [], ◌∷◌, slice_index, true, false, MatchOption, IfSome, nat_le, length, take, Some, None, if◌then◌else◌};
ghost use Rattle.std.specs.List.{position_or_len, list_all};
ghost use Rattle.std.specs.Char.{is_ascii, is_ascii_digit};
ghost use Rattle.std.specs.Str.Lines.{lines, strip_carriage_return};
ghost use Rattle.std.specs.Str.Parse.{digits_value};
ghost use Rattle.trace_model.specs.Grammar.{is_blank, words_of, first_byte, is_decimal, number_in};

/// The place of the first LF, or the length.
fn line_end(text: &[u8]) -> usize
    ensures place { result ≡ position_or_len (λ b. b == 10) text.now }
    ensures within { result ≤ length text.now }
{
    for i in 0..text.len() {
        if text[i] == b'\n' {
            return i;
        }
    }
    text.len()
}

/// A line without the CR at its end.
fn strip_return(line: &[u8]) -> &[u8]
    ensures { result.now ≡ strip_carriage_return line.now }
{
    match line.split_last() {
        Some((b'\r', front)) => front,
        _ => line,
    }
}

#[tactic(auto, using(crate::proofs::Cutting::line_ended, crate::proofs::Cutting::last_line))]
/// A text's first line, and what stands behind it. A CR before its LF is dropped.
pub(crate) fn cut_line(text: &[u8]) -> (&[u8], &[u8])
    requires { 0 < length text.now }
    ensures lines { lines text.now ≡ result.0.now ∷ lines result.1.now }
    ensures shorter { length result.1.now < length text.now }
{
    let end = line_end(text);
    if end < text.len() {
        (strip_return(&text[..end]), &text[end + 1..])
    } else {
        (text, &text[end..])
    }
}

/// Whether all bytes are at most 7F.
pub(crate) fn all_ascii(line: &[u8]) -> bool
    ensures { result ≡ list_all is_ascii line.now }
{
    line.iter().all(|byte| byte.is_ascii())
}

/// Whether a byte is a space or a tab.
fn blank(byte: u8) -> bool
    ensures { result ≡ is_blank byte }
{
    byte == b' ' || byte == b'\t'
}

/// Without the blanks at the front.
fn skip_blanks(text: &[u8]) -> &[u8]
    ensures words { words_of result.now ≡ words_of text.now }
    ensures word { 0 < length result.now → is_blank (slice_index result.now 0) ≡ false }
{
    for i in 0..text.len() {
        if !blank(text[i]) {
            return &text[i..];
        }
    }
    &text[text.len()..]
}

/// The place of the first blank, or the length.
fn word_end(text: &[u8]) -> usize
    ensures place { result ≡ position_or_len is_blank text.now }
    ensures within { result ≤ length text.now }
{
    for i in 0..text.len() {
        if blank(text[i]) {
            return i;
        }
    }
    text.len()
}

/// A line's first word, and what stands behind it. None where there is no word.
pub(crate) fn next_word(line: &[u8]) -> Option<(&[u8], &[u8])>
    ensures { MatchOption result
        (words_of line.now ≡ [])
        (λ parts. words_of line.now ≡ parts.0.now ∷ words_of parts.1.now) }
{
    let text = skip_blanks(line);
    if text.is_empty() {
        return None;
    }
    let end = word_end(text);
    Some((&text[..end], &text[end..]))
}

/// A word's first byte, or 0 where there is none.
pub(crate) fn first(word: &[u8]) -> u8
    ensures { result ≡ first_byte word.now }
{
    match word.first() {
        Some(byte) => *byte,
        None => 0,
    }
}

/// Whether all bytes are digits.
fn all_digits(word: &[u8]) -> bool
    ensures { result ≡ list_all is_ascii_digit word.now }
{
    word.iter().all(|byte| byte.is_ascii_digit())
}

/// Whether a word is one or more digits without a leading zero.
#[tactic(auto, unfolding(trace_model::specs::Grammar::is_decimal))]
fn decimal(word: &[u8]) -> bool
    ensures value { result ≡ is_decimal word.now }
    ensures digits { result ≡ true → list_all is_ascii_digit word.now ≡ true }
{
    !word.is_empty() && all_digits(word) && (first(word) != b'0' || word.len() == 1)
}

/// The number of some digits, if it isn't over the most.
fn value_up_to(most: u32, digits: &[u8]) -> Option<u32>
    requires { list_all is_ascii_digit digits.now ≡ true }
    ensures value { result ≡ (if nat_le (digits_value 10 digits.now) most then Some (digits_value 10 digits.now) else None) }
    ensures bounded { IfSome result (λ n. n ≤ most) }
{
    let mut value: u64 = 0;
    for i in 0..digits.len() {
        value = value * 10 + (digits[i] - b'0') as u64;
        if value > most as u64 {
            return None;
        }
    }
    Some(value as u32)
}

/// The number of a word, where it is from the one to the other.
#[tactic(auto, unfolding(trace_model::specs::Grammar::number_in))]
pub fn number(least: u32, most: u32, word: &[u8]) -> Option<u32>
    ensures value { result ≡ number_in least most word.now }
    ensures bounded { IfSome result (λ n. n ≤ most) }
{
    if !decimal(word) {
        return None;
    }
    let value = value_up_to(most, word)?;
    if value < least { None } else { Some(value) }
}
