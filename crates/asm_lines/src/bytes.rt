//! Bytes by their classes.

ghost use Rattle.std.specs.Prelude.{◌≡◌, ◌≤◌, length};
ghost use Rattle.std.specs.List.{position_or_len, suffix_len, list_all, slice_index_or};
ghost use Rattle.asm_model.specs.Lines.{is_nil, is_text_byte};
ghost use Rattle.asm_model.specs.Numbers.{first_byte};
ghost use Rattle.asm_lines.specs.Classes.{passes};

/// A class of bytes.
#[derive(Clone, Copy, Drop)]
pub(crate) enum Class {
    /// This byte alone.
    Byte(u8),
    /// Space and tab.
    Blank,
    NotBlank,
    /// What ends a line's first word.
    BlankOrColon,
    /// `+` and `-`.
    Sign,
    /// What may stand in a line.
    Text,
    /// What may stand in a name.
    Name,
    Digit,
    HexDigit,
}

/// Whether a byte is of a class.
fn is_of(class: Class, byte: u8) -> bool
    ensures { result ≡ passes class byte }
{
    match class {
        Class::Byte(other) => byte == other,
        Class::Blank => byte == b' ' || byte == b'\t',
        Class::NotBlank => !(byte == b' ' || byte == b'\t'),
        Class::BlankOrColon => byte == b' ' || byte == b'\t' || byte == b':',
        Class::Sign => byte == b'+' || byte == b'-',
        Class::Text => byte >= 0x20 && byte <= 0x7E || byte == b'\t',
        Class::Name => byte.is_ascii_alphanumeric() || byte == b'_',
        Class::Digit => byte.is_ascii_digit(),
        Class::HexDigit => byte.is_ascii_hexdigit(),
    }
}

/// The first place of a byte of a class, or the length.
pub(crate) fn position(class: Class, text: &[u8]) -> usize
    ensures place { result ≡ position_or_len (passes class) text.now }
    ensures within { result ≤ length text.now }
{
    for i in 0..text.len() {
        if is_of(class, text[i]) {
            return i;
        }
    }
    text.len()
}

/// How many bytes at the end are of a class.
pub(crate) fn count_at_end(class: Class, text: &[u8]) -> usize
    ensures place { result ≡ suffix_len (passes class) text.now }
    ensures within { result ≤ length text.now }
{
    for i in 0..text.len() {
        if !is_of(class, text[text.len() - 1 - i]) {
            return i;
        }
    }
    text.len()
}

/// Whether all bytes are of a class.
pub(crate) fn all(class: Class, text: &[u8]) -> bool
    ensures { result ≡ list_all (passes class) text.now }
{
    text.iter().all(|byte| is_of(class, *byte))
}

/// Whether all bytes may stand in a line.
pub fn is_text(line: &[u8]) -> bool
    ensures { result ≡ list_all is_text_byte line.now }
{
    all(Class::Text, line)
}

/// The byte at a place, or 0 past the end.
pub(crate) fn byte_at(text: &[u8], at: usize) -> u8
    ensures { result ≡ slice_index_or text.now at 0 }
{
    match text.get(at) {
        Some(byte) => *byte,
        None => 0,
    }
}

/// Whether there are no bytes.
pub fn is_empty(text: &[u8]) -> bool
    ensures { result ≡ is_nil text.now }
{
    text.is_empty()
}
