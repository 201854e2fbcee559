//! The lines of a plan's file.

ghost use Rattle.std.specs.Prelude.{◌≡◌, [], IfOk, map, option_map};
ghost use Rattle.pauses.specs.Files.{change_in, line_of, number, numbers_after, pause_in, way_in};
ghost use Rattle.pauses.specs.Lines.{line_kept};
ghost use Rattle.pauses.specs.Plans.{pause_of};

use crate::number::{number, pieces};
use crate::plan::{Change, Pause};
use go_text::is_word;
use std::alloc::{AllocError, Global};

/// What a line says.
#[derive(Drop)]
pub(crate) enum Line {
    /// Nothing: it is empty, or a comment.
    Silent,
    /// A pause.
    Says(Pause),
    /// Neither.
    Broken,
}

/// The numbers that these words write, if each of them writes one.
fn numbers(alloc: Global, words: &[&[u8]]) -> Result<Option<Vec<u64>>, AllocError>
    ensures { IfOk result (λ found. option_map (λ v. v.items) found ≡ numbers_after [] (map (λ w. w.now) words.now)) }
{
    let mut found = Vec::new(alloc);
    for word in words {
        let Some(one) = number(word) else {
            return Ok(None);
        };
        found.push(one)?;
    }
    Ok(Some(found))
}

/// A way, as `1.2`.
fn way_in(alloc: Global, word: &[u8]) -> Result<Option<Vec<u64>>, AllocError>
    ensures { IfOk result (λ found. option_map (λ v. v.items) found ≡ way_in word.now) }
{
    let words = pieces(alloc, word, b'.')?;
    numbers(alloc, words.as_slice())
}

/// `wait 30` or `clause 2`.
fn change_in(word: &[u8], count: &[u8]) -> Option<Change>
    ensures { result ≡ change_in word.now (number count.now) }
{
    let count = number(count)?;
    if is_word(word, b"wait") {
        Some(Change::Wait(count))
    } else if is_word(word, b"clause") {
        Some(Change::Clause(count))
    } else {
        None
    }
}

/// The pause that these words say.
fn pause_in(alloc: Global, words: &[&[u8]]) -> Result<Option<Pause>, AllocError>
    ensures { IfOk result (λ found. option_map pause_of found ≡ pause_in (map (λ w. w.now) words.now)) }
{
    let [way_word, request, word, count] = words else {
        return Ok(None);
    };
    let (Some(way), Some(request), Some(change)) = (
        way_in(alloc, way_word)?,
        number(request),
        change_in(word, count),
    ) else {
        return Ok(None);
    };
    Ok(Some(Pause {
        way,
        request,
        change,
    }))
}

/// What a line says.
pub(crate) fn line_in(alloc: Global, bytes: &[u8]) -> Result<Line, AllocError>
    ensures { IfOk result (λ line. line_kept line ≡ line_of bytes.now) }
{
    let Some((first, _)) = bytes.split_first() else {
        return Ok(Line::Silent);
    };
    if *first == b'#' {
        return Ok(Line::Silent);
    }
    let words = pieces(alloc, bytes, b' ')?;
    match pause_in(alloc, words.as_slice())? {
        Some(pause) => Ok(Line::Says(pause)),
        None => Ok(Line::Broken),
    }
}
