//! What is wrong, in a sentence.

use crate::declaration::push_within;
use crate::phrase::{phrase_of_limit, phrase_of_rule};
use diagnostic_syntax::{piece_at, shortened};
use diagnostic_typing::push_violation;
use diagnostic_words::excerpt::push_shown;
use diagnostic_words::words::Words;
use go_text::{Fault, LimitKind, Place, Rule};
use std::alloc::Global;
use typing_rules::violation::Violation;

/// Writes what is wrong to `said`, which is empty.
pub(crate) fn push_sentence(alloc: Global, said: &mut Words, text: &str, fault: &Fault) {
    match *fault {
        Fault::Typing { rule, node, place } => push_rule(alloc, said, text, rule, node, place),
        Fault::Limit { kind, node, place } => push_limit(alloc, said, text, kind, node, place),
        Fault::TooDeep(place) => {
            let after = ": a program is at most 200 levels high";
            push_within(alloc, said, text, place, "nested too deeply", after);
        }
        Fault::BadCharacter(place) => push_character(said, piece_at(text, place)),
        Fault::BadNumber(place) => push_number(said, text, place),
        Fault::OpenString(place) => push_string(said, text, place),
        _ => said.text(plain(fault)),
    }
}

/// A sentence that names nothing of the text.
fn plain(fault: &Fault) -> &'static str {
    match fault {
        Fault::TooLong => "the program is longer than 1,048,576 bytes",
        Fault::NotUtf8 => "the program is not UTF-8",
        Fault::OpenComment(_) => "comment not terminated",
        Fault::Memory => "there was not enough memory",
        Fault::Write => "the output could not be written",
        Fault::BadWorkers => "the number of workers is not 1 to 64",
        Fault::BadLimit => "the limit is not 1 to 2^62",
        _ => "the program was refused",
    }
}

/// Writes how a typing rule is violated at this node of the tree to `said`, which is empty.
fn push_rule(alloc: Global, said: &mut Words, text: &str, rule: Rule, node: u32, place: Place) {
    push_violation(alloc, said, text, Violation::Broken(rule, node));
    if said.is_empty() {
        push_phrase(said, phrase_of_rule(rule), piece_at(text, place));
    }
}

/// Writes which limit is exceeded, at this node of the tree if the check finds it, to `said`, which is empty.
fn push_limit(
    alloc: Global,
    said: &mut Words,
    text: &str,
    kind: LimitKind,
    node: Option<u32>,
    place: Place,
) {
    match (kind, node) {
        (LimitKind::SelectClauses, _) => {
            push_within(
                alloc,
                said,
                text,
                place,
                "a select",
                " has more than 64 clauses",
            );
        }
        (LimitKind::ListEntries, _) => {
            push_within(
                alloc,
                said,
                text,
                place,
                "a list",
                " has more than 64 entries",
            );
        }
        (_, Some(node)) => push_violation(alloc, said, text, Violation::Exceeded(kind, node)),
        _ => {}
    }
    if said.is_empty() {
        push_phrase(said, phrase_of_limit(kind), piece_at(text, place));
    }
}

/// Appends a phrase, with `piece` instead of `{}`.
fn push_phrase(said: &mut Words, phrase: &str, piece: &str) {
    match phrase.split_once("{}") {
        Some((before, after)) => {
            said.text(before);
            said.text(piece);
            said.text(after);
        }
        None => said.text(phrase),
    }
}

/// Reports a character that begins no token, or one that a string or a comment can't have.
fn push_character(said: &mut Words, piece: &str) {
    if piece.starts_with("\"") || piece.starts_with("/") {
        return said.text("a NUL or a byte-order mark in a string or a comment");
    }
    said.text("invalid character ");
    push_shown(said, piece);
    match piece {
        "\u{feff}" => said.text(" (a byte-order mark)"),
        "\u{a0}" => said.text(" (a no-break space)"),
        "\u{200b}" => said.text(" (a space without width)"),
        _ => {}
    }
}

/// Reports a number with all letters, digits and points that follow it.
fn push_number(said: &mut Words, text: &str, place: Place) {
    let from = place.span.from as usize;
    let after = text.get(from..).unwrap_or("");
    let end = after
        .bytes()
        .position(|byte| !(byte.is_ascii_alphanumeric() || byte == b'_' || byte == b'.'))
        .unwrap_or(after.len());
    said.text("invalid number ");
    said.text(shortened(after.get(..end).unwrap_or("")));
    said.text(" (numbers are 0, decimal without a leading zero, or 0x and hexadecimal digits)");
}

/// Reports a string that is not closed on its line, or has another escape.
fn push_string(said: &mut Words, text: &str, place: Place) {
    let from = place.span.from as usize;
    let after = text.get(from..).unwrap_or("");
    let line = after.split('\n').next().unwrap_or("");
    match other_escape(line.as_bytes()) {
        Some(at) => push_escape(said, line.get(at..).unwrap_or("")),
        None => said.text("string not terminated"),
    }
}

/// Reports an escape that there is not, with which a piece of a string begins.
fn push_escape(said: &mut Words, piece: &str) {
    said.text("unknown escape ");
    for end in 2..6 {
        if let Some(escape) = piece.get(..end) {
            said.text(escape);
            break;
        }
    }
    said.text(" in string (there are \\n, \\t, \\\\ and \\\")");
}

/// The offset in `line`, which begins with a string, of the first escape other than `\n`, `\t`, `\\` and `\"`, if there is one.
fn other_escape(line: &[u8]) -> Option<usize> {
    let mut escapes = false;
    for (at, &byte) in line.iter().enumerate() {
        if escapes {
            if !matches!(byte, b'n' | b't' | b'\\' | b'"') {
                return Some(at.saturating_sub(1));
            }
            escapes = false;
        } else {
            escapes = byte == b'\\';
        }
    }
    None
}
