//! A trace, as a file has it.

ghost use Rattle.std.specs.Prelude.{◌≡◌, ◌≢◌, ◌==◌, ◌+◌, ◌^◌, ◌<◌, ◌++◌, ◌∷◌, [], ℕ, IsUtf8, List, MatchOption, MatchResult, OnOk, position};
ghost use Rattle.trace_comparison.specs.Requests.{Event, event_of, events_of};
ghost use Rattle.trace_comparison.specs.Texts.{HasNoNewline, IsEventLine, IsTrace, IsWhy};
ghost use Rattle.trace_comparison.specs.declared.trace.TraceError.TheVariants as errors;

use crate::line::TraceLine;
use std::alloc::{AllocError, Global};

/// A trace: its lines.
#[derive(Drop)]
pub struct Trace<'t> {
    pub lines: Vec<TraceLine<'t>>,
}

/// Why a text is no trace.
#[derive(Clone, Copy)]
pub enum TraceError {
    /// Out of memory.
    Memory,
    /// This line, counted from 1, is the first that is not `CLOCK GOROUTINE REQUEST`, or not whole.
    Broken(u64),
}

impl From<AllocError> for TraceError {
    ghost from_gives = { λ _ e. e ≡ errors.Memory };

    fn from(_error: AllocError) -> TraceError {
        TraceError::Memory
    }
}

impl<'t> Trace<'t> {
    /// The trace that a text is.
    ///
    /// Errors: `Broken` with the first line that is not an event's, counted from 1; `Memory`.
    pub fn read(alloc: Global, bytes: &'t [u8]) -> Result<Trace<'t>, TraceError>
        ensures { MatchResult result (λ trace. IsTrace bytes.entry.now (events_of trace.lines.items)) (IsWhy bytes.entry.now) }
    {
        let mut lines = Vec::new(alloc);
        let mut rest = bytes;
        while !rest.is_empty() {
            let Some((line, others)) = first_line(rest) else {
                return Err(broken(lines.len()));
            };
            match event_in(line) {
                Some(event) => add(&mut lines, event)?,
                None => return Err(broken(lines.len())),
            }
            rest = others;
        }
        Ok(Trace { lines })
    }
}

/// Appends an event.
fn add<'t>(lines: &mut Vec<TraceLine<'t>>, event: TraceLine<'t>) -> Result<(), AllocError>
    ensures { OnOk result (lines.new.items ≡ lines.old.items ++ event.entry ∷ []) }
{
    lines.push(event)?;
    Ok(())
}

/// The first line that is malformed, after `before` others.
fn broken(before: usize) -> TraceError
    requires { before < 2 ^ 63 }
    ensures { result ≡ errors.Broken (before + 1) }
{
    TraceError::Broken(before as u64 + 1)
}

/// The first line of some bytes, without its newline, and what follows; `None` if there is no newline.
fn first_line<'t>(bytes: &'t [u8]) -> Option<(&'t [u8], &'t [u8])>
    ensures { MatchOption result ((line more : List ℕ) → bytes.entry.now ≢ line ++ 10 ∷ more) (λ parts. (bytes.entry.now ≡ parts.0.now ++ 10 ∷ parts.1.now) × HasNoNewline parts.0.now) }
{
    let end = newline(bytes)?;
    Some((&bytes[..end], &bytes[end + 1..]))
}

/// The index of the first newline.
fn newline(bytes: &[u8]) -> Option<usize>
    ensures { result ≡ position (λ b. b == 10) bytes.now }
{
    bytes.iter().position(|byte| *byte == b'\n')
}

/// The event of a line; `None` if it is none.
fn event_in<'t>(bytes: &'t [u8]) -> Option<TraceLine<'t>>
    ensures { MatchOption result ((e : Event) → IsUtf8 e.line → IsEventLine e → e.line ≢ bytes.entry.now) (λ found. IsEventLine (event_of found) × IsUtf8 found.line.now × (found.line.now ≡ bytes.entry.now)) }
{
    match str::from_utf8(bytes) {
        Ok(line) => TraceLine::of(line),
        Err(_) => None,
    }
}
