//! The lines of an explanation.

ghost use Rattle.std.specs.Prelude.{◌≡◌, IfOk, OnOk};
ghost use Rattle.terminal_style.specs.Cutting.{whole_of};
ghost use Rattle.terminal_style.specs.Styles.{IsStyled, plain_of};

use crate::cutter::Cutter;
use crate::piece::{Piece, Style, shown};
use std::alloc::{AllocError, Global};

/// What the next line of an explanation is.
#[derive(Clone, Copy, PartialEq, Eq)]
enum Next {
    /// A heading, a hint, or another sentence.
    Sentence,
    /// The line of the program that a heading names, whatever it looks like.
    Source,
    /// The marks under that line.
    Marks,
}

/// A location in a line: it begins at `from` and has `length` bytes.
#[derive(Clone, Copy)]
struct Location {
    from: usize,
    length: usize,
}

/// An explanation of errors in the program at `path` or of ends of its runs, with escape sequences: `FILE:LINE:COLUMN` is bold where
/// a line of the program and marks follow, the marks are red, and `hint:` is cyan. Lines of the program stay as they are.
///
/// # Errors
///
/// `AllocError` if memory is refused.
pub fn styled(alloc: Global, path: &str, text: &[u8]) -> Result<Vec<u8>, AllocError>
    ensures { IfOk result (λ bytes. IsStyled text.now bytes.items) }
{
    let pieces = pieces_of(alloc, path.as_bytes(), text)?;
    shown(alloc, pieces.as_slice())
}

/// The pieces of an explanation.
fn pieces_of<'t>(alloc: Global, path: &[u8], text: &'t [u8]) -> Result<Vec<Piece<'t>>, AllocError>
    ensures { IfOk result (λ pieces. plain_of pieces.items ≡ text.now) }
{
    let mut cutter = Cutter::new(alloc, text);
    let mut next = Next::Sentence;
    for _ in text {
        if cutter.rest().is_empty() {
            break;
        }
        next = take_line(&mut cutter, path, next)?;
    }
    cutter.into_pieces()
}

/// Takes the first line of the rest. Returns what the line after it is.
fn take_line(cutter: &mut Cutter<'_>, path: &[u8], next: Next) -> Result<Next, AllocError>
    ensures { OnOk result (whole_of cutter.new ≡ whole_of cutter.old) }
{
    let line = first_line(cutter.rest());
    match next {
        Next::Sentence => take_sentence(cutter, path, line),
        Next::Source => {
            cutter.take(line.len(), Style::Plain)?;
            Ok(Next::Marks)
        }
        Next::Marks => {
            let blanks = line.len().saturating_sub(line.trim_ascii_start().len());
            cutter.take(blanks, Style::Plain)?;
            cutter.take(line.trim_ascii().len(), Style::Marks)?;
            cutter.take(1, Style::Plain)?;
            Ok(Next::Sentence)
        }
    }
}

/// Takes a line that is a heading, a hint or another sentence. Returns what the line after it is.
fn take_sentence(cutter: &mut Cutter<'_>, path: &[u8], line: &[u8]) -> Result<Next, AllocError>
    ensures { OnOk result (whole_of cutter.new ≡ whole_of cutter.old) }
{
    if let Some(location) = location_in(path, line) {
        let Location { from, length } = location;
        cutter.take(from, Style::Plain)?;
        cutter.take(length, Style::Location)?;
        let taken = from.saturating_add(length);
        cutter.take(line.len().saturating_sub(taken), Style::Plain)?;
        return Ok(Next::Source);
    }
    if line.starts_with(b"hint: ") {
        cutter.take(5, Style::Label)?;
        cutter.take(line.len().saturating_sub(5), Style::Plain)?;
    } else {
        cutter.take(line.len(), Style::Plain)?;
    }
    Ok(Next::Sentence)
}

/// The first line of a text, with its newline.
fn first_line(text: &[u8]) -> &[u8] {
    let length = match text.iter().position(|&byte| byte == b'\n') {
        Some(index) => index.saturating_add(1),
        None => text.len(),
    };
    text.get(..length).unwrap_or(text)
}

/// The location that a line of the program follows: with it an error's line begins, and the line of a goroutine that is somewhere,
/// or of one that closed a channel, has it within.
fn location_in(path: &[u8], line: &[u8]) -> Option<Location> {
    if let Some(length) = location_length(path, line) {
        return Some(Location { from: 0, length });
    }
    if !line.starts_with(b"goroutine ") && !line.starts_with(b"closed ") {
        return None;
    }
    for from in 1..line.len() {
        let rest = line.get(from..).unwrap_or(b"".as_slice());
        if let Some(length) = location_length(path, rest) {
            return Some(Location { from, length });
        }
    }
    None
}

/// How many bytes the location `PATH:LINE:COLUMN` has with which a text begins, if it begins with one.
fn location_length(path: &[u8], text: &[u8]) -> Option<usize> {
    let rest = text.strip_prefix(path)?;
    let rest = after_number(rest)?;
    let rest = after_number(rest)?;
    Some(text.len().saturating_sub(rest.len()))
}

/// What follows a colon and a number, if a text begins with these.
fn after_number(text: &[u8]) -> Option<&[u8]> {
    let digits = text.strip_prefix(b":".as_slice())?;
    let length = digits
        .iter()
        .position(|byte| !byte.is_ascii_digit())
        .unwrap_or(digits.len());
    if length == 0 {
        None
    } else {
        digits.get(length..)
    }
}
