//! The state of all goroutines at a moment of a run.

ghost use Rattle.std.specs.Prelude.{◌≡◌, ◌↔◌, ◌^◌, ◌≤◌, IfOk, IsTrue, None, option_map};
ghost use Rattle.word.specs.Related.{kind_of};
ghost use Rattle.word.specs.Views.{event_of};
ghost use Rattle.one_thread.specs.Snapshots.{IsFarBefore, IsNotPast, IsReached, IsSeen};

use crate::goroutine::Goroutine;
use crate::history::{OpenRun, event_before, open_run};
use crate::interpreter::Interpreter;
use go_text::Memory;
use logical_clock::Key;
use reference_world::Shared;
use std::alloc::Global;
use word::end::End;
use word::request::Event;

/// How far a run goes.
#[derive(Clone, Copy)]
pub enum Until {
    /// Up to and with the event of this number, counted from 1.
    Event(u64),
    /// Up to and with the last event at this clock or before it.
    Clock(u64),
}

/// Whether a run has come so far, after this many events, before this turn. One that should go on to its end never has.
pub(crate) fn is_reached(until: Option<Until>, events: u64, turn: &Key) -> bool
    ensures { IsTrue result ↔ IsFarBefore until events turn.now }
{
    match until {
        Some(Until::Event(number)) => number <= events,
        Some(Until::Clock(time)) => time < turn.clock.time(),
        None => false,
    }
}

/// A run that has come so far as it should, or has ended before.
pub struct Snapshot<S: Drop> {
    /// How it has ended, if it has.
    pub end: Option<End>,
    /// The last event, if there was one.
    pub event: Option<Event>,
    /// All goroutines that have not ended, goroutine n at index n.
    pub goroutines: Vec<Option<Goroutine<S>>>,
    /// The channels, the goroutines that sleep there, and how many events there were.
    pub shared: Shared,
}

impl<S: Drop> Drop for Snapshot<S> {
    fn drop(self) {
        let Snapshot {
            end: _,
            event,
            goroutines,
            shared,
        } = self;
        drop(event);
        drop(goroutines);
        drop(shared);
    }
}

/// Like `run`, but only goes as far as `until`, and returns the state of all
/// goroutines then. Their output is dropped. At the clock limit nothing is claimed about their state.
///
/// Errors: out of memory.
pub fn run_until<P: Interpreter>(
    alloc: Global,
    program: &P,
    limit: u64,
    until: Until,
) -> Result<Snapshot<P::State>, Memory>
    requires { limit ≤ 2 ^ 62 }
    ensures seen { IfOk result (λ seen. IsSeen (kind_of (P.parts program.now)) (P.held program.now) limit seen.goroutines.items seen.shared (option_map event_of seen.event) seen.end) }
    ensures reached { IfOk result (λ seen. seen.end ≡ None → IsReached until seen.goroutines.items seen.shared) }
    ensures bound { IfOk result (λ seen. IsNotPast until seen.shared (option_map event_of seen.event)) }
{
    let mut run = open_run(alloc, program, limit)?;
    let mut event = None;
    // Each event leaves fewer of the 2^62 that a run can have.
    'events: loop {
        let Some(seen) = event_before(alloc, program, &mut run, Some(until))? else {
            return Ok(snapshot_of(run.end(), event, run));
        };
        event = Some(seen);
        if let Some(end) = run.end() {
            return Ok(snapshot_of(Some(end), event, run));
        }
    }
}

/// A run that has come so far.
fn snapshot_of<S: Drop>(end: Option<End>, event: Option<Event>, run: OpenRun<S>) -> Snapshot<S>
    ensures end { result.end ≡ end }
    ensures event { result.event ≡ event }
    ensures goroutines { result.goroutines.items ≡ run.places }
    ensures shared { result.shared ≡ run.shared }
{
    let (goroutines, shared) = run.into_parts();
    Snapshot {
        end,
        event,
        goroutines,
        shared,
    }
}
