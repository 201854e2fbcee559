//! Comments. (Go: Comments.)

ghost use Rattle.std.specs.Prelude.{◌≡◌, ◌+◌, ◌≤◌, length, IfOk};
ghost use Rattle.scanner.specs.Elements.{length_of, line_comment, line_comment_rest, general_comment, general_comment_rest, is_close};

use crate::element::{Element, byte_place};
use crate::lexical::is_forbidden;
use go_text::Fault;

/// How many bytes of a line comment are before its line's end.
fn line_comment_rest(opened: u32, text: &[u8]) -> Result<usize, Fault>
    requires { opened ≤ 1048576 }
    ensures rest { result ≡ line_comment_rest opened text.now }
    ensures within { IfOk result (λ len. len ≤ length text.now) }
{
    for (at, byte) in text.iter().enumerate() {
        if is_forbidden(&text[at..]) {
            return Err(Fault::BadCharacter(byte_place(opened)));
        }
        if *byte == b'\n' {
            return Ok(at);
        }
    }
    Ok(text.len())
}

/// A line comment; `text` follows the `//`. It acts like a newline.
pub(crate) fn line_comment(opened: u32, text: &[u8]) -> Result<Element, Fault>
    requires { opened + length text.now ≤ 1048576 }
    ensures comment { result ≡ line_comment (line_comment_rest opened text.now) }
    ensures within { IfOk result (λ e. (1 ≤ length_of e) × (length_of e ≤ 2 + length text.now)) }
{
    let len = line_comment_rest(opened, text)?;
    Ok(Element::LineEnd(2 + len))
}

/// Whether the text begins with the end of a general comment.
fn is_close(text: &[u8]) -> bool
    ensures { result ≡ is_close text.now }
{
    matches!(text, [b'*', b'/', ..])
}

/// How many bytes of a general comment there are up to and with its end.
fn general_comment_rest(opened: u32, text: &[u8]) -> Result<usize, Fault>
    requires { opened ≤ 1048576 }
    ensures rest { result ≡ general_comment_rest opened text.now }
    ensures within { IfOk result (λ len. len ≤ length text.now) }
{
    for at in 0..text.len() {
        let rest = &text[at..];
        if is_forbidden(rest) {
            return Err(Fault::BadCharacter(byte_place(opened)));
        }
        if is_close(rest) {
            return Ok(at + 2);
        }
    }
    Err(Fault::OpenComment(byte_place(opened)))
}

/// A general comment; `text` follows the `/*`. It acts like a newline if it contains one, else like a
/// space.
pub(crate) fn general_comment(opened: u32, text: &[u8]) -> Result<Element, Fault>
    requires { opened + length text.now ≤ 1048576 }
    ensures comment { result ≡ general_comment text.now (general_comment_rest opened text.now) }
    ensures within { IfOk result (λ e. (1 ≤ length_of e) × (length_of e ≤ 2 + length text.now)) }
{
    let len = general_comment_rest(opened, text)?;
    if text[..len].contains(&b'\n') {
        Ok(Element::LineEnd(2 + len))
    } else {
        Ok(Element::Blank(2 + len))
    }
}
