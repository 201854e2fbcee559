//! Whether a program has an output comment.

use expected_output::{Expectation, ExpectationError};
use go_text::{Fault, Source};
use std::alloc::{AllocError, Global};

/// The words with which an output comment begins, in lower case.
const WORDS: [&str; 3] = ["output:", "unordered output:", "ends:"];

/// Whether a comment of a program says what it prints, or how it ends. If the program has no tokens, the beginnings of its lines decide.
///
/// Errors: out of memory.
pub(crate) fn is_commented(alloc: Global, bytes: Vec<u8>) -> Result<bool, AllocError> {
    let has_line = bytes.split(|byte| *byte == b'\n').any(is_comment_line);
    let Ok(source) = Source::new(bytes) else {
        return Ok(has_line);
    };
    match Expectation::of(alloc, &source) {
        Ok(expectation) => Ok(expectation.is_said),
        Err(ExpectationError::UnknownEnd(_)) => Ok(true),
        Err(ExpectationError::Fault(Fault::Memory)) => Err(AllocError),
        Err(ExpectationError::Fault(_)) => Ok(has_line),
    }
}

/// Whether a line begins a comment, and this one with the words of an output comment.
fn is_comment_line(line: &[u8]) -> bool {
    let line = line.trim_ascii_start();
    let comment = line
        .strip_prefix(b"//".as_slice())
        .or(line.strip_prefix(b"/*".as_slice()));
    let Some(comment) = comment else {
        return false;
    };
    let comment = comment.trim_ascii_start();
    WORDS.iter().any(|words| begins(comment, words))
}

/// Whether a comment begins with these words. The case of letters doesn't count.
fn begins(comment: &[u8], words: &str) -> bool {
    match comment.get(..words.len()) {
        Some(front) => front.eq_ignore_ascii_case(words.as_bytes()),
        None => false,
    }
}
