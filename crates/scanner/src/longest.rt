//! The longest token at the front of a text. (Go: Tokens, Identifiers, Integer literals.)

ghost use Rattle.std.specs.Prelude.{◌≡◌, ◌≤◌, ◌<◌, take, drop, length, true, false, IfSome};
ghost use Rattle.std.specs.List.{prefix_len};
ghost use Rattle.scanner.specs.Lexical.{longest, longest_mark, hexadecimal_len, is_digit, is_hex_digit};
ghost use Rattle.scanner.specs.Letters.{are_letters_and_digits, begins_letter_or_digit};

use crate::kind::TokenKind;
use crate::letters::{begins_letter, begins_letter_or_digit, front_len, is_letter_byte};
use crate::lexical::{is_digit, is_hex_digit, mark_1, mark_2, mark_3, word};

/// How many bytes at the front are letters and digits.
fn name_run(text: &[u8]) -> usize
    ensures all { are_letters_and_digits (take result text.now) ≡ true }
    ensures end { begins_letter_or_digit (drop result text.now) ≡ false }
    ensures within { result ≤ length text.now }
{
    let mut at = 0;
    while begins_letter_or_digit(&text[at..]) {
        at += front_len(&text[at..]);
    }
    at
}

/// How many bytes at the front are digits.
fn digit_run(text: &[u8]) -> usize
    ensures { result ≡ prefix_len is_digit text.now }
{
    text.iter().take_while(|byte| is_digit(**byte)).count()
}

/// How many bytes at the front are hexadecimal digits.
fn hex_digit_run(text: &[u8]) -> usize
    ensures run { result ≡ prefix_len is_hex_digit text.now }
    ensures within { result ≤ length text.now }
{
    text.iter().take_while(|byte| is_hex_digit(**byte)).count()
}

/// How many bytes after a 0 make a hexadecimal number of it: `x` or `X` with all digits that follow, if there are any.
fn hexadecimal_len(text: &[u8]) -> usize
    requires { length text.now < 1048576 }
    ensures len { result ≡ hexadecimal_len text.now }
    ensures within { result ≤ length text.now }
{
    let [b'x' | b'X', digits @ ..] = text else {
        return 0;
    };
    let run = hex_digit_run(digits);
    if run == 0 { 0 } else { run + 1 }
}

/// The longest token at the front of a text that isn't empty: its length in bytes and its kind.
pub(crate) fn longest(text: &[u8]) -> Option<(usize, TokenKind)>
    requires some { 1 ≤ length text.now }
    requires short { length text.now ≤ 1048576 }
    ensures token { result ≡ longest text.now }
    ensures within { IfSome result (λ found. (1 ≤ found.0) × (found.0 ≤ length text.now)) }
{
    let first = text[0];
    if is_letter_byte(first) {
        if !begins_letter(text) {
            return None;
        }
        let len = name_run(text);
        return Some((len, word(&text[..len])));
    }
    if is_digit(first) {
        if first == b'0' {
            return Some((1 + hexadecimal_len(&text[1..]), TokenKind::Integer));
        }
        return Some((digit_run(text), TokenKind::Integer));
    }
    longest_mark(text)
}

/// The longest operator or mark at the front: its length in bytes and its kind.
fn longest_mark(text: &[u8]) -> Option<(usize, TokenKind)>
    ensures token { result ≡ longest_mark text.now }
    ensures within { IfSome result (λ found. (1 ≤ found.0) × (found.0 ≤ length text.now)) }
{
    if let [first, second, third, ..] = text {
        if let Some(kind) = mark_3(*first, *second, *third) {
            return Some((3, kind));
        }
    }
    if let [first, second, ..] = text {
        if let Some(kind) = mark_2(*first, *second) {
            return Some((2, kind));
        }
    }
    let kind = mark_1(*text.first()?)?;
    Some((1, kind))
}
