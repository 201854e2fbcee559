//! The declaration that a location is in.

use diagnostic_words::words::Words;
use go_text::{Fault, Place, Source, Span};
use scanner::{Token, TokenKind, scan};
use std::alloc::Global;

/// The name after the last `func` or `type` before the offset `from`, if there is one.
fn name_before(tokens: &[Token], from: u32) -> Option<Span> {
    let mut name = None;
    let mut declares = false;
    for token in tokens {
        if token.span.from >= from {
            return name;
        }
        if declares && token.kind == TokenKind::Name {
            name = Some(token.span);
        }
        declares = matches!(token.kind, TokenKind::Func | TokenKind::TypeKeyword);
    }
    name
}

/// Appends ` in NAME`, with the name of the declaration that `place` is in, if there is one.
fn push_declared(said: &mut Words, source: &Source, tokens: &[Token], place: Place) {
    let Some(span) = name_before(tokens, place.span.from) else {
        return;
    };
    if let Some(name) = source.as_str().get(span.from as usize..span.to as usize) {
        said.text(" in ");
        said.text(name);
    }
}

/// Like `push_declared`, but of a text whose tokens are not known.
fn push_name(alloc: Global, said: &mut Words, source: &Source, place: Place) {
    match scan(alloc, source) {
        Ok(tokens) => push_declared(said, source, tokens.as_slice(), place),
        Err(Fault::Memory) => said.refuse(),
        Err(_) => {}
    }
}

/// Like `push_name`, but of a text that may be no program's.
fn push_name_in(alloc: Global, said: &mut Words, text: &str, place: Place) {
    let Ok(bytes) = Vec::from_slice(alloc, text.as_bytes()) else {
        return said.refuse();
    };
    if let Ok(source) = Source::new(bytes) {
        push_name(alloc, said, &source, place);
    }
}

/// Appends a sentence, and within it the name of the declaration that `place` is in.
pub(crate) fn push_within(
    alloc: Global,
    said: &mut Words,
    text: &str,
    place: Place,
    before: &str,
    after: &str,
) {
    said.text(before);
    push_name_in(alloc, said, text, place);
    said.text(after);
}
