//! The letters and digits of names. (Go: Letters and digits.)

ghost use Rattle.std.specs.Prelude.{◌≡◌, ◌+◌, ◌≤◌, length};
ghost use Rattle.std.specs.Str.{continuation_len};
ghost use Rattle.scanner.specs.Letters.{is_letter, is_letter_or_digit, is_letter_byte, front_bytes, first_of, front_char, begins_letter, begins_letter_or_digit};

use unicode::properties::{GeneralCategory, GeneralCategoryGroup};

/// `_`, or a character of category Lu, Ll, Lt, Lm or Lo.
#[tactic(auto, using(crate::proofs::Ascii::letter_ascii))]
fn is_letter(c: char) -> bool
    ensures { result ≡ is_letter c }
{
    if c.is_ascii() {
        c == '_' || c.is_ascii_alphabetic()
    } else {
        GeneralCategoryGroup::Letter.contains(GeneralCategory::for_char(c))
    }
}

/// A letter, or a character of category Nd.
#[tactic(auto, using(crate::proofs::Ascii::digit_ascii))]
fn is_letter_or_digit(c: char) -> bool
    ensures { result ≡ is_letter_or_digit c }
{
    if c.is_ascii() {
        is_letter(c) || c.is_ascii_digit()
    } else {
        is_letter(c) || GeneralCategory::for_char(c) == GeneralCategory::DecimalNumber
    }
}

/// Whether a letter may begin with the byte.
pub(crate) fn is_letter_byte(byte: u8) -> bool
    ensures { result ≡ is_letter_byte byte }
{
    byte == b'_' || byte.is_ascii_alphabetic() || !byte.is_ascii()
}

/// How many bytes a character has of which this is the first.
fn char_len(first: u8) -> usize
    ensures { result ≡ 1 + continuation_len first }
{
    match first {
        0..=127 => 1,
        128..=223 => 2,
        224..=239 => 3,
        _ => 4,
    }
}

/// How many bytes the first character of the text has.
pub(crate) fn front_len(text: &[u8]) -> usize
    ensures len { result ≡ length (front_bytes text.now) }
    ensures within { result ≤ length text.now }
    ensures some { 1 ≤ length text.now → 1 ≤ result }
{
    match text {
        [] => 0,
        [first, ..] => text.len().min(char_len(*first)),
    }
}

/// The first character of bytes in UTF-8.
fn first_of(bytes: &[u8]) -> Option<char>
    ensures { result ≡ first_of bytes.now }
{
    match str::from_utf8(bytes) {
        Ok(text) => text.chars().next(),
        Err(_) => None,
    }
}

/// The character with which the text begins, if it is UTF-8 there.
fn front_char(text: &[u8]) -> Option<char>
    ensures { result ≡ front_char text.now }
{
    match text {
        [first, ..] if first.is_ascii() => Some(char::from(*first)),
        _ => first_of(&text[..front_len(text)]),
    }
}

/// Whether the text begins with a letter.
pub(crate) fn begins_letter(text: &[u8]) -> bool
    ensures { result ≡ begins_letter text.now }
{
    match front_char(text) {
        Some(c) => is_letter(c),
        None => false,
    }
}

/// Whether the text begins with a letter or a digit.
pub(crate) fn begins_letter_or_digit(text: &[u8]) -> bool
    ensures { result ≡ begins_letter_or_digit text.now }
{
    match front_char(text) {
        Some(c) => is_letter_or_digit(c),
        None => false,
    }
}
