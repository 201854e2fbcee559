//! Numbers with `_` between their digits.

use std::alloc::{AllocError, Global};

/// The options that have a number.
const OPTIONS: [&str; 9] = [
    "--workers",
    "--limit",
    "--from",
    "--last",
    "--event",
    "--at",
    "--tries",
    "--states",
    "--seconds",
];

/// What a word of a command line can be.
#[derive(Clone, Copy, PartialEq, Eq)]
enum Position {
    /// Any word.
    Any,
    /// The number of an option, which is the word before.
    Number,
    /// A file, since it comes after `--`.
    File,
}

impl Position {
    /// That of the word after `word`, which has this one.
    fn after(self, word: &str) -> Position {
        if self == Position::File || word == "--" {
            Position::File
        } else if has_number(word) {
            Position::Number
        } else {
            Position::Any
        }
    }
}

/// The words of a command line, with the numbers of options as digits alone: `1_000_000` is `1000000`, as in Go. What is not digits with
/// one `_` at most between two of them stays as it is, and so do files.
pub fn plain_words(alloc: Global, words: &[String]) -> Result<Vec<String>, AllocError> {
    let mut plain = Vec::new(alloc);
    let mut position = Position::Any;
    for word in words {
        let word = word.as_str();
        plain.push(plain_word(alloc, word, position)?)?;
        position = position.after(word);
    }
    Ok(plain)
}

/// Like `plain_words`, for the word at this position.
fn plain_word(alloc: Global, word: &str, position: Position) -> Result<String, AllocError> {
    match (position, word.split_once("=")) {
        (Position::Number, _) => plain_number(alloc, word),
        (Position::Any, Some((name, number))) if has_number(name) => {
            let number = plain_number(alloc, number)?;
            format!(in alloc; "{name}={number}")
        }
        _ => String::from_str(alloc, word),
    }
}

/// Whether an option of this name has a number.
fn has_number(name: &str) -> bool {
    OPTIONS.iter().any(|option| *option == name)
}

/// The number without the `_` between its digits; the text itself if it is no such number.
fn plain_number(alloc: Global, text: &str) -> Result<String, AllocError> {
    if !is_grouped(text.strip_prefix("+").unwrap_or(text)) {
        return String::from_str(alloc, text);
    }
    let mut plain = String::new(alloc);
    for part in text.split('_') {
        plain.push_str(part)?;
    }
    Ok(plain)
}

/// Whether the text is digits, with one `_` at most between two of them.
fn is_grouped(text: &str) -> bool {
    text.split('_').all(|part| !part.is_empty()
        && part.as_bytes().iter().all(|byte| byte.is_ascii_digit()))
}
