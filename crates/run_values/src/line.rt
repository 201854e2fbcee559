//! The line of an event.

ghost use Rattle.std.specs.Prelude.{◌≡◌, IfOk};
ghost use Rattle.run_values.specs.Values.{IsLine};

use crate::forms::Forms;
use channel_names::push_item;
use diagnostic_words::words::Words;
use go_text::Memory;
use std::alloc::Global;
use std::str;
use timeline::transfer_of;
use word::request::{Event, Request};

/// The digits of a byte that is written by its number.
const DIGITS: [&str; 16] = [
    "0", "1", "2", "3", "4", "5", "6", "7", "8", "9", "a", "b", "c", "d", "e", "f",
];

/// The line of an event: the item that it sends or receives, what it prints as a Go string, or `-`.
///
/// Errors: out of memory.
pub(crate) fn line_of(alloc: Global, forms: &Forms<'_>, event: &Event) -> Result<Vec<u8>, Memory>
    ensures { IfOk result (λ line. IsLine line.items) }
{
    let mut said = Words::new(alloc);
    if let Request::Print(bytes) = &event.request {
        push_quoted(&mut said, bytes.as_slice());
    } else if let Some(transfer) = transfer_of(event) {
        let form = forms.form(transfer.channel);
        push_item(&mut said, form, transfer.item.words());
    } else {
        said.text("-");
    }
    let words = said.into_bytes()?;
    ended(alloc, words.as_slice())
}

/// These bytes as a line. They have no newline; one would be left out.
#[tactic(auto, using(crate::proofs::Lines::clean_none, crate::proofs::Lines::clean_more, crate::proofs::Lines::clean_line))]
fn ended(alloc: Global, words: &[u8]) -> Result<Vec<u8>, Memory>
    ensures { IfOk result (λ line. IsLine line.items) }
{
    let mut line = Vec::new(alloc);
    for byte in words {
        if *byte != b'\n' {
            line.push(*byte)?;
        }
    }
    line.push(b'\n')?;
    Ok(line)
}

/// Appends bytes as a string literal of Go.
fn push_quoted(said: &mut Words, bytes: &[u8]) {
    said.text("\"");
    match str::from_utf8(bytes) {
        Ok(text) => push_text(said, text),
        Err(_) => {
            for byte in bytes {
                push_byte(said, *byte);
            }
        }
    }
    said.text("\"");
}

/// Appends text as it stands within a string literal of Go.
fn push_text(said: &mut Words, text: &str) {
    for byte in text.as_bytes() {
        if *byte < 0x80 {
            push_byte(said, *byte);
        } else {
            said.bytes(&[*byte]);
        }
    }
}

/// Appends a byte as it stands within a string literal of Go.
fn push_byte(said: &mut Words, byte: u8) {
    match byte {
        b'\n' => said.text("\\n"),
        b'\t' => said.text("\\t"),
        b'\r' => said.text("\\r"),
        b'"' => said.text("\\\""),
        b'\\' => said.text("\\\\"),
        b' '..=b'~' => said.bytes(&[byte]),
        _ => {
            said.text("\\x");
            said.text(digit(byte >> 4));
            said.text(digit(byte & 15));
        }
    }
}

/// A digit in hexadecimal.
fn digit(value: u8) -> &'static str {
    DIGITS.get(value as usize).copied().unwrap_or("")
}
