//! A fault of the syntax in words.

use crate::expected::{Expected, push_expected};
use crate::nesting::Nesting;
use crate::site::{Site, piece_at};
use crate::trouble::Trouble;
use diagnostic_words::words::Words;
use go_text::{Fault, Memory, Place, Source};
use scanner::{Token, scan};
use std::alloc::Global;

/// The tokens of a source file; none if it has an error before its tree.
fn tokens_of(alloc: Global, text: &str) -> Result<Vec<Token>, Memory> {
    let bytes = Vec::from_slice(alloc, text.as_bytes())?;
    let Ok(source) = Source::new(bytes) else {
        return Ok(Vec::new(alloc));
    };
    match scan(alloc, &source) {
        Ok(tokens) => Ok(tokens),
        Err(Fault::Memory) => Err(Memory),
        Err(_) => Ok(Vec::new(alloc)),
    }
}

/// A token as it is printed.
fn spoken(found: &str) -> &str {
    match found {
        "," => "comma",
        ";" => "semicolon",
        _ => found,
    }
}

/// What is found at a syntax error.
fn found_at(text: &str, place: Place) -> &str {
    if place.span.from as usize >= text.len() {
        return "end of file";
    }
    let found = piece_at(text, place);
    if found.is_empty() {
        "newline"
    } else {
        spoken(found)
    }
}

/// Appends what was found at a syntax error and what was expected to `message`, and what to write instead, if that is known, to `hint`.
///
/// # Errors
///
/// `Memory` if memory is refused.
pub fn push_syntax(
    alloc: Global,
    message: &mut Words,
    hint: &mut Words,
    text: &str,
    place: Place,
) -> Result<(), Memory> {
    let tokens = tokens_of(alloc, text)?;
    let site = Site::new(text, tokens.as_slice(), place);
    let nesting = Nesting::of(alloc, &site)?;
    let expected = Expected::at(alloc, &site, &nesting)?;
    message.text("syntax error: unexpected ");
    message.text(found_at(text, place));
    push_expected(message, &site, &nesting, &expected)?;
    let trouble = Trouble {
        site,
        expected: &expected,
        nesting: &nesting,
    };
    if let Some(known) = trouble.hint() {
        known.push(hint);
    }
    Ok(())
}
