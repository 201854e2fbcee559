//! Strings between double quotes. (Go: String literals.)

ghost use Rattle.std.specs.Prelude.{◌≡◌, ◌+◌, ◌≤◌, length, false, IfOk};
ghost use Rattle.scanner.specs.Elements.{length_of, is_escape, is_broken, is_closing, is_escaping, string_rest, string_literal};

use crate::element::{Element, byte_place};
use crate::kind::TokenKind;
use crate::lexical::is_forbidden;
use go_text::Fault;

/// Whether an escape may have this byte after its backslash.
fn is_escape(byte: u8) -> bool
    ensures { result ≡ is_escape byte }
{
    matches!(byte, b'n' | b't' | b'\\' | b'"')
}

/// Whether the byte ends the line, or can't follow a backslash in an escape.
fn is_broken(escaped: bool, byte: u8) -> bool
    ensures { result ≡ is_broken escaped byte }
{
    byte == b'\n' || (escaped && !is_escape(byte))
}

/// Whether the byte is the closing quote.
fn is_closing(escaped: bool, byte: u8) -> bool
    ensures { result ≡ is_closing escaped byte }
{
    byte == b'"' && !escaped
}

/// Whether the byte is the backslash of an escape.
fn is_escaping(escaped: bool, byte: u8) -> bool
    ensures { result ≡ is_escaping escaped byte }
{
    byte == b'\\' && !escaped
}

/// How many bytes of a string there are up to and with its closing quote.
fn string_rest(opened: u32, text: &[u8]) -> Result<usize, Fault>
    requires { opened ≤ 1048576 }
    ensures rest { result ≡ string_rest opened false text.now }
    ensures within { IfOk result (λ len. len ≤ length text.now) }
{
    let mut escaped = false;
    for (at, byte) in text.iter().enumerate() {
        if is_forbidden(&text[at..]) {
            return Err(Fault::BadCharacter(byte_place(opened)));
        }
        if is_broken(escaped, *byte) {
            return Err(Fault::OpenString(byte_place(opened)));
        }
        if is_closing(escaped, *byte) {
            return Ok(at + 1);
        }
        escaped = is_escaping(escaped, *byte);
    }
    Err(Fault::OpenString(byte_place(opened)))
}

/// A string; `text` follows the opening quote.
pub(crate) fn string_literal(opened: u32, text: &[u8]) -> Result<Element, Fault>
    requires { opened + length text.now ≤ 1048576 }
    ensures string { result ≡ string_literal (string_rest opened false text.now) }
    ensures within { IfOk result (λ e. (1 ≤ length_of e) × (length_of e ≤ 1 + length text.now)) }
{
    let len = string_rest(opened, text)?;
    Ok(Element::Token(1 + len, TokenKind::String))
}
