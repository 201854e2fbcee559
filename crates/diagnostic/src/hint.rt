//! What to write instead of common Go that is not in the language, but for faults of the syntax.

use diagnostic_syntax::known::{NAMES, PACKAGES, stand_in};
use diagnostic_syntax::line_before;
use diagnostic_typing::push_near;
use diagnostic_words::words::Words;
use go_text::{Fault, Place, Rule};
use std::alloc::Global;
use typing_rules::violation::Violation;

/// Writes what to write instead, if that is known, to `said`, which is empty.
pub(crate) fn push_hint(alloc: Global, said: &mut Words, text: &str, fault: &Fault) {
    if let Some(hint) = hint_of(text, fault) {
        said.text(hint);
    } else if let Fault::Typing { rule, node, place } = *fault {
        push_meant(alloc, said, text, Violation::Broken(rule, node));
        if matches!(rule, Rule::Visible) && said.is_empty() {
            push_declaration(said, text, place);
        }
    }
}

/// Writes how the name at `place` is declared to `said`, which is empty, if a statement that begins there assigns to it.
fn push_declaration(said: &mut Words, text: &str, place: Place) {
    let name = piece_at(text, place);
    let rest = text.get(place.span.to as usize..).unwrap_or("");
    let line = rest.split('\n').next().unwrap_or("");
    let begins = line_before(text, place.span.from).trim().is_empty() && first_word(name) == name;
    let value = match line.trim_start().strip_prefix("=") {
        Some(value) if begins && !value.starts_with("=") => value,
        _ => return,
    };
    if text.split('\n').any(|line| declares(line, name)) {
        return;
    }
    said.text(":= declares: ");
    said.text(name);
    said.text(" := ");
    said.text(shown_value(value));
}

/// Whether a line begins with the declaration of a function or a type of this name.
fn declares(line: &str, name: &str) -> bool {
    for keyword in ["func ", "type "] {
        if let Some(rest) = line.strip_prefix(keyword) {
            return first_word(rest.trim_start()) == name;
        }
    }
    false
}

/// The value that the rest of a line assigns, or `..` if it may not end there.
fn shown_value(rest: &str) -> &str {
    let value = rest.split("//").next().unwrap_or("").trim();
    let is_whole = match value.bytes().last() {
        Some(last) => last.is_ascii_alphanumeric() || last == b'_' || last == b')',
        None => false,
    };
    if is_whole && !value.contains(';') {
        value
    } else {
        ".."
    }
}

/// Appends the hint that another name could be meant, if one is known.
fn push_meant(alloc: Global, said: &mut Words, text: &str, violation: Violation) {
    let mut near = Words::new(alloc);
    push_near(alloc, &mut near, text, violation);
    if near.is_empty() {
        return;
    }
    match near.into_bytes() {
        Ok(name) => {
            said.text("did you mean ");
            said.bytes(name.as_slice());
            said.text("?");
        }
        Err(_) => said.refuse(),
    }
}

/// A hint for what is wrong with a text, if there is one.
fn hint_of(text: &str, fault: &Fault) -> Option<&'static str> {
    match *fault {
        Fault::BadCharacter(place) => character_hint(piece_at(text, place)),
        Fault::BadNumber(place) => number_hint(text, place),
        Fault::Typing { rule, place, .. } => typing_hint(text, rule, place),
        _ => None,
    }
}

/// The part of `text` at `place`.
fn piece_at(text: &str, place: Place) -> &str {
    let to = (place.span.to as usize).min(text.len());
    text.get(place.span.from as usize..to).unwrap_or("")
}

/// A hint for a character that begins no token.
fn character_hint(found: &str) -> Option<&'static str> {
    match found {
        "'" => Some("there are no characters: write their number"),
        "`" => Some("strings stand between two \" on one line"),
        "#" => Some("a comment begins with //"),
        "?" => Some("there is no ? : write if and else"),
        "\u{feff}" => Some("save the file as UTF-8 without a byte-order mark"),
        "\u{a0}" | "\u{200b}" => Some("write a plain space"),
        "\u{201c}" | "\u{201d}" | "\u{2018}" | "\u{2019}" => {
            Some("strings stand between two straight quotes: \"")
        }
        _ => None,
    }
}

/// A hint for a number that is none.
fn number_hint(text: &str, place: Place) -> Option<&'static str> {
    let after = text.get(place.span.from as usize..).unwrap_or("");
    let length = after
        .bytes()
        .position(|byte| !(byte.is_ascii_alphanumeric() || byte == b'_' || byte == b'.'))
        .unwrap_or(after.len());
    let number = after.get(..length).unwrap_or("");
    if number.contains('.') {
        Some("there are no floating-point numbers")
    } else {
        None
    }
}

/// The word with which a piece of a text begins.
fn first_word(piece: &str) -> &str {
    let length = piece
        .bytes()
        .position(|byte| !(byte.is_ascii_alphanumeric() || byte == b'_'))
        .unwrap_or(piece.len());
    piece.get(..length).unwrap_or("")
}

/// A hint for a typing rule that is violated.
fn typing_hint(text: &str, rule: Rule, place: Place) -> Option<&'static str> {
    let word = first_word(piece_at(text, place));
    match rule {
        Rule::Main => Some("the run begins with func main()"),
        Rule::Visible => match stand_in(&NAMES, word) {
            Some(hint) => Some(hint),
            None => stand_in(&PACKAGES, word),
        },
        Rule::NewName => Some("= assigns to a variable that is there"),
        Rule::Made => Some("make(chan T) or make(chan T, size)"),
        Rule::Nil if line_before(text, place.span.from).ends_with(":= ") => {
            Some("the type of a nil channel has to be said: var c chan int")
        }
        Rule::Nil => Some(
            "only a channel can be nil: the zero value of a struct T is T{}, and a bool can say that there is none",
        ),
        Rule::Channel if line_before(text, place.span.from).ends_with("range ") => {
            Some("a loop over numbers counts: for i := 0; i < n; i++ { .. }")
        }
        _ => None,
    }
}
