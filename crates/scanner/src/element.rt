//! The element at the front of a text.

ghost use Rattle.std.specs.Prelude.{◌≡◌, ◌+◌, ◌≤◌, length, slice_index, drop, IfOk};
ghost use Rattle.scanner.specs.Elements.{length_of, byte_place, goes_on, token_at, element_at};

use crate::comment::{general_comment, line_comment};
use crate::kind::TokenKind;
use crate::letters::{begins_letter_or_digit, front_len};
use crate::lexical::is_space;
use crate::longest::longest;
use crate::string_literal::string_literal;
use go_text::{Fault, Place, Span};

/// White space, a comment or a token, with its length in bytes, which is at least 1.
#[derive(Clone, Copy)]
pub enum Element {
    /// A space, a tab, a carriage return, or a general comment without a newline.
    Blank(usize),
    /// A newline, or a comment that acts like one.
    LineEnd(usize),
    /// A name, a keyword, a number, a string, an operator or a mark, and which of them.
    Token(usize, TokenKind),
}

impl Element {
    ghost use Rattle.scanner.specs.Elements.{length_of};

    /// Its length in bytes.
    pub(crate) fn len(self) -> usize
        ensures { result ≡ length_of self }
    {
        match self {
            Element::Blank(len) => len,
            Element::LineEnd(len) => len,
            Element::Token(len, _) => len,
        }
    }
}

/// The location of one byte of a text.
pub(crate) fn byte_place(at: u32) -> Place
    requires { at ≤ 1048576 }
    ensures { result ≡ byte_place at }
{
    Place::from(Span {
        from: at,
        to: at + 1,
    })
}

/// Whether a token of this kind is a number that goes on wrongly.
fn goes_on(kind: TokenKind, rest: &[u8]) -> bool
    ensures { result ≡ goes_on kind rest.now }
{
    match (kind, rest) {
        (TokenKind::Integer, [first, ..]) => *first == b'.' || begins_letter_or_digit(rest),
        _ => false,
    }
}

/// The longest token at the front of `text`, which begins at offset `place`.
fn token_at(place: u32, text: &[u8]) -> Result<Element, Fault>
    requires some { 1 ≤ length text.now }
    requires short { place + length text.now ≤ 1048576 }
    ensures token { result ≡ token_at place text.now }
    ensures within { IfOk result (λ e. (1 ≤ length_of e) × (length_of e ≤ length text.now)) }
{
    let Some((len, kind)) = longest(text) else {
        let span = Span {
            from: place,
            to: place + front_len(text) as u32,
        };
        return Err(Fault::BadCharacter(Place::from(span)));
    };
    if goes_on(kind, &text[len..]) {
        let span = Span {
            from: place,
            to: place + len as u32,
        };
        return Err(Fault::BadNumber(Place::from(span)));
    }
    Ok(Element::Token(len, kind))
}

/// The element at the front of `text`, which isn't empty and begins at offset `place`.
///
/// Errors: `BadCharacter`, `BadNumber`, `OpenString` and `OpenComment`, placed at the first byte of what is wrong.
pub(crate) fn element_at(place: u32, text: &[u8]) -> Result<Element, Fault>
    requires some { 1 ≤ length text.now }
    requires short { place + length text.now ≤ 1048576 }
    ensures element { result ≡ element_at place (slice_index text.now 0) (drop 1 text.now) }
    ensures within { IfOk result (λ e. (1 ≤ length_of e) × (length_of e ≤ length text.now)) }
{
    match text {
        [b'\n', ..] => Ok(Element::LineEnd(1)),
        [b'/', b'/', rest @ ..] => line_comment(place, rest),
        [b'/', b'*', rest @ ..] => general_comment(place, rest),
        [b'"', rest @ ..] => string_literal(place, rest),
        [first, ..] if is_space(*first) => Ok(Element::Blank(1)),
        _ => token_at(place, text),
    }
}
