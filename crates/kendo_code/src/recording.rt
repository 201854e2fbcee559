//! The recording of a program's run, of which pictures are made.

ghost use Rattle.std.specs.Prelude.{◌≡◌, ◌≤◌, ◌⊎◌, ◌↔◌, IfErr, IfNone, IfOk, IfSome, IsErrOf, length, map};
ghost use Rattle.meaning.specs.Source.{source_kind};
ghost use Rattle.kendo_reading.specs.Reading.{HasNoReading, IsRefusal, IsWhy, Reads};
ghost use Rattle.event_window.specs.Windows.{IsWindow, Shows};
ghost use Rattle.kendo_code.specs.Recorded.{IsRecorded};
ghost use Rattle.whole_run.specs.Runs.{IsLimit};
ghost use Rattle.syntax.specs.Tree.{File};
ghost use Rattle.word.specs.Views.{event_of};
ghost use Rattle.checker.specs.Trees.{tree_in};
ghost use Rattle.syntax.specs.Spans.{tree_of};

use crate::lines::{lines_of, mentions_of};
use checker::Typed;
use codegen::compile_marked;
use go_text::{Fault, Source};
use kendo_reading::read;
use recorder::record;
use statement_map::StatementMap;
use std::alloc::Global;
use std::sync::Arc;
use timeline::{Notes, Recording, Window};
use verifier::verify;

/// Runs the program that a source file is, up to the clock limit (1 to 2^62 steps) on this thread, and keeps its first events, at
/// most `most`, and how the run ended if it has no more: what a picture of the run shows. What it prints is not written.
///
/// Errors: by the numbers 1 to 10 why it is no program, with line and column; `Memory`; `BadLimit`.
#[tactic(auto, using(crate::proofs::Recordings::from_the_first))]
pub fn timeline_bytes(
    alloc: Global,
    bytes: Vec<u8>,
    limit: u64,
    most: usize,
) -> Result<Recording, Fault>
    ensures limit { IsErrOf result Fault.BadLimit ↔ (IsLimit limit → ⊥) }
    ensures refused { IfErr result (λ fault. IsRefusal fault → HasNoReading bytes.items) }
    ensures why { IfErr result (λ fault. IsRefusal fault → IsWhy bytes.items fault) }
    ensures only { IfErr result (λ fault. IsRefusal fault ⊎ ((fault ≡ Fault.Memory) ⊎ (fault ≡ Fault.BadLimit))) }
    ensures recorded { IfOk result (λ made. (file : File) × Reads bytes.items file × IsRecorded (source_kind file) limit (map event_of made.events.items) made.end) }
    ensures few { IfOk result (λ made. length made.events.items ≤ most) }
    ensures cut { IfOk result (λ made. IfNone made.end (most ≤ length made.events.items)) }
{
    timeline_window(alloc, bytes, limit, Window::First, most)
}

/// Like `timeline_bytes`, but keeps the events of a window, at most `most`, and what there was before them. Of `Window::Last` it
/// keeps no more events in memory while the program runs, however many there are.
///
/// Errors: by the numbers 1 to 10 why the source file is no program, with line and column; `Memory`; `BadLimit`.
pub fn timeline_window(
    alloc: Global,
    bytes: Vec<u8>,
    limit: u64,
    window: Window,
    most: usize,
) -> Result<Recording, Fault>
    ensures limit { IsErrOf result Fault.BadLimit ↔ (IsLimit limit → ⊥) }
    ensures refused { IfErr result (λ fault. IsRefusal fault → HasNoReading bytes.items) }
    ensures why { IfErr result (λ fault. IsRefusal fault → IsWhy bytes.items fault) }
    ensures only { IfErr result (λ fault. IsRefusal fault ⊎ ((fault ≡ Fault.Memory) ⊎ (fault ≡ Fault.BadLimit))) }
    ensures reads { IfOk result (λ _. (file : File) × Reads bytes.items file) }
    ensures recorded { IfOk result (λ made. (file : File) × Reads bytes.items file × IsWindow (source_kind file) limit made.before (map event_of made.events.items) made.end) }
    ensures shows { IfOk result (λ made. Shows window most made.before (length made.events.items) made.end) }
    ensures few { IfOk result (λ made. length made.events.items ≤ most) }
    ensures cut { IfOk result (λ made. IfNone made.end (most ≤ length made.events.items)) }
{
    if limit < 1 || limit > 1 << 62 {
        return Err(Fault::BadLimit);
    }
    let (source, typed) = read(alloc, bytes)?;
    let recording = recorded(alloc, &source, &typed, limit, window, most)?;
    Ok(recording)
}

/// The events of a window of the run of a checked program.
fn recorded(
    alloc: Global,
    source: &Source,
    typed: &Typed,
    limit: u64,
    window: Window,
    most: usize,
) -> Result<Recording, Fault>
    requires limit { IsLimit limit }
    ensures recorded { IfOk result (λ made. IsWindow (source_kind (tree_of (tree_in typed.now))) limit made.before (map event_of made.events.items) made.end) }
    ensures shows { IfOk result (λ made. Shows window most made.before (length made.events.items) made.end) }
    ensures few { IfOk result (λ made. length made.events.items ≤ most) }
    ensures cut { IfOk result (λ made. IfNone made.end (most ≤ length made.events.items)) }
    ensures only { IfErr result (λ fault. fault ≡ Fault.Memory) }
{
    let (code, marks) = compile_marked(alloc, typed)?;
    let map = StatementMap::new(alloc, typed.tree(), &code, &marks)?;
    let lines = lines_of(alloc, source, typed.tree(), &code, &map)?;
    let verified = verify(alloc, code)?;
    let program = Arc::new(alloc, verified)?;
    let recording = record(alloc, program, limit, window, most)?;
    let mentions = mentions_of(alloc, typed.tree(), &map, &recording)?;
    Ok(recording.with_notes(Notes {
        lines,
        mentions,
        pauses: Vec::new(alloc),
    }))
}
