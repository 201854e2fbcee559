//! The goroutines of a book at the end of a run.

use crate::compiled::Compiled;
use crate::ending::is_ending;
use crate::variables::scope_of;
use book::{Book, BookName};
use end_explanation::{Call, Goroutine, variables_line};
use go_text::Memory;
use goroutine_vm::{Frame, GoState, Sleeping};
use std::alloc::Global;
use watched_goroutine::Wish;
use word::request::Request;
use word::value::Word;

/// All goroutines of a book that have not ended, in the order of their numbers. Their variables are left out.
///
/// Errors: out of memory.
pub(crate) fn goroutines_of<B: BookName>(
    alloc: Global,
    compiled: &Compiled<'_>,
    book: &Book<B>,
) -> Result<Vec<Goroutine>, Memory> {
    let mut all = Vec::new(alloc);
    for number in 1..book.next_number() {
        if let Some(sleeping) = book.asleep(number) {
            all.push(asleep(alloc, compiled, number, sleeping)?)?;
        } else if let Some(state) = book.awake(number) {
            all.push(awake(alloc, compiled, number, state)?)?;
        }
    }
    Ok(all)
}

/// The line with the variables of a goroutine's function that was called last; empty if there are none.
///
/// Errors: out of memory.
pub(crate) fn variables_of<B: BookName>(
    alloc: Global,
    compiled: &Compiled<'_>,
    book: &Book<B>,
    goroutine: &Goroutine,
) -> Result<Vec<u8>, Memory> {
    let frames = frames_of(book, goroutine.number);
    match (frames.last(), goroutine.calls.last()) {
        (Some(frame), Some(call)) => {
            let scope = scope_of(alloc, compiled, *call, frame.locals())?;
            variables_line(alloc, &scope)
        }
        _ => Ok(Vec::new(alloc)),
    }
}

/// The functions of a goroutine, the one called last at the end.
fn frames_of<B: BookName>(book: &Book<B>, number: u64) -> &[Frame] {
    match (book.asleep(number), book.awake(number)) {
        (Some(sleeping), _) => sleeping.frames(),
        (None, Some(state)) => state.frames(),
        (None, None) => &[],
    }
}

/// A goroutine that is asleep.
fn asleep(
    alloc: Global,
    compiled: &Compiled<'_>,
    number: u64,
    sleeping: &Sleeping,
) -> Result<Goroutine, Memory> {
    let mut request = Request::End;
    let _stands = sleeping.ask(alloc, &compiled.code, &mut request)?;
    let frames = sleeping.frames();
    Ok(Goroutine {
        number,
        clock: sleeping.clock().time(),
        wish: Some(Wish::of(alloc, &request)?),
        is_ending: false,
        calls: calls_of(alloc, compiled, frames)?,
        held: held_by(alloc, frames)?,
        variables: Vec::new(alloc),
    })
}

/// A goroutine that is awake.
fn awake(
    alloc: Global,
    compiled: &Compiled<'_>,
    number: u64,
    state: &GoState,
) -> Result<Goroutine, Memory> {
    let frames = state.frames();
    Ok(Goroutine {
        number,
        clock: state.clock().time(),
        wish: None,
        is_ending: is_ending(compiled.code.code().functions(), frames),
        calls: calls_of(alloc, compiled, frames)?,
        held: held_by(alloc, frames)?,
        variables: Vec::new(alloc),
    })
}

/// The functions that run, and where they are. Each but the last one waits after its call.
fn calls_of(alloc: Global, compiled: &Compiled<'_>, frames: &[Frame]) -> Result<Vec<Call>, Memory> {
    let mut calls = Vec::new(alloc);
    let callers = frames.len().saturating_sub(1);
    for (depth, frame) in frames.iter().enumerate() {
        calls.push(compiled.call_of(frame, depth < callers))?;
    }
    Ok(calls)
}

/// The channels that functions hold in their locals and on their stacks.
fn held_by(alloc: Global, frames: &[Frame]) -> Result<Vec<u32>, Memory> {
    let mut held = Vec::new(alloc);
    for frame in frames {
        hold(&mut held, frame.locals())?;
        hold(&mut held, frame.stack())?;
    }
    Ok(held)
}

/// Adds the channels among these words.
fn hold(held: &mut Vec<u32>, words: &[Word]) -> Result<(), Memory> {
    for word in words {
        if let Word::Chan(Some(channel)) = word {
            held.push(*channel)?;
        }
    }
    Ok(())
}
