//! How the trace of a run compares with a recorded one.

ghost use Rattle.std.specs.Prelude.{◌≡◌, ◌↔◌, IfOk, IsTrue, List, MatchOption, Some, map};
ghost use Rattle.std.specs.List.{slice_get};
ghost use Rattle.trace_comparison.specs.Comparing.{IsComparison, IsDifference, IsFirstOther, part_of};
ghost use Rattle.trace_comparison.specs.Counting.{ArePlaces, HasGoroutines};
ghost use Rattle.trace_comparison.specs.Requests.{Event, HaveSameRequests, event_of, events_of};

use crate::line::{Part, TraceLine};
use crate::places::Places;
use crate::trace::Trace;
use crate::unmatched::first_unmatched;
use std::alloc::{AllocError, Global};

/// How the trace of a run compares with a recorded one. Events are counted from 1.
#[derive(Clone, Copy)]
pub enum Comparison {
    /// Each line is the same.
    Same,
    /// Each event is the same, but this one and others have other clocks.
    OtherClocks(usize),
    /// Each goroutine has the same events, but from this one on they are in another order.
    OtherOrder(usize),
    /// A goroutine has other events.
    Differs(Difference),
}

impl Comparison {
    /// Whether each goroutine has the same events, in the same order.
    pub fn is_same_by_goroutine(self) -> bool
        ensures { (recorded run : List Event) → IsComparison recorded run self → IsTrue result ↔ HaveSameRequests run recorded }
    {
        !matches!(self, Comparison::Differs(_))
    }
}

/// The first event that is not the same in both traces. Events are counted from 1.
#[derive(Clone, Copy)]
pub struct Difference {
    /// The event of the run; `None` if it has no more events of that goroutine.
    pub event: Option<usize>,
    /// The recorded event of the same number of that goroutine; `None` if there is none.
    pub recorded: Option<usize>,
    pub goroutine: u64,
    /// The number of the event among those of the goroutine.
    pub number: u64,
}

/// Compares the trace of a run with a recorded one, goroutine by goroutine, and returns how many goroutines the run has, too.
///
/// Errors: out of memory.
pub fn compare(
    alloc: Global,
    recorded: &Trace<'_>,
    run: &Trace<'_>,
) -> Result<(Comparison, usize), AllocError>
    ensures compared { IfOk result (λ found. IsComparison (events_of recorded.now.lines.items) (events_of run.now.lines.items) found.0) }
    ensures counted { IfOk result (λ found. HasGoroutines (events_of run.now.lines.items) found.1) }
{
    let recorded = recorded.lines.as_slice();
    let run = run.lines.as_slice();
    let places = Places::of(alloc, run)?;
    let comparison = match first_difference(alloc, recorded, run, &places)? {
        Some(difference) => Comparison::Differs(difference),
        None => same_requests(recorded, run),
    };
    Ok((comparison, places.counts.len()))
}

/// The first event of a goroutine of the run that is another one in the recorded trace, or else the first recorded one that the run
/// doesn't have.
///
/// Errors: out of memory.
fn first_difference(
    alloc: Global,
    recorded: &[TraceLine<'_>],
    run: &[TraceLine<'_>],
    places: &Places,
) -> Result<Option<Difference>, AllocError>
    requires { ArePlaces places.now (events_of run.now) }
    ensures { IfOk result (λ found. MatchOption found (HaveSameRequests (events_of run.now) (events_of recorded.now)) (IsDifference (events_of recorded.now) (events_of run.now))) }
{
    let recorded_places = Places::of(alloc, recorded)?;
    if let Some(other) = first_unmatched(alloc, run, recorded, &recorded_places)? {
        return Ok(Some(Difference {
            event: Some(other.event),
            recorded: other.there,
            goroutine: other.goroutine,
            number: other.number,
        }));
    }
    match first_unmatched(alloc, recorded, run, places)? {
        Some(missing) => Ok(Some(Difference {
            event: None,
            recorded: Some(missing.event),
            goroutine: missing.goroutine,
            number: missing.number,
        })),
        None => Ok(None),
    }
}

/// How traces compare of which each goroutine has the same requests.
fn same_requests(recorded: &[TraceLine<'_>], run: &[TraceLine<'_>]) -> Comparison
    requires { HaveSameRequests (events_of run.now) (events_of recorded.now) }
    ensures { IsComparison (events_of recorded.now) (events_of run.now) result }
{
    match first_other(recorded, run, Part::Request) {
        Some(event) => Comparison::OtherOrder(event),
        None => match first_other(recorded, run, Part::Line) {
            Some(event) => Comparison::OtherClocks(event),
            None => Comparison::Same,
        },
    }
}

/// The first event, counted from 1, of which this part is not the same in both.
fn first_other(recorded: &[TraceLine<'_>], run: &[TraceLine<'_>], part: Part) -> Option<usize>
    ensures { let was = map (part_of part) (events_of recorded.now) in let is = map (part_of part) (events_of run.now) in MatchOption result (is ≡ was) (IsFirstOther is was) }
{
    for (index, line) in run.iter().enumerate() {
        if !has_line(recorded, index, line, part) {
            return Some(index + 1);
        }
    }
    if run.len() < recorded.len() {
        Some(run.len() + 1)
    } else {
        None
    }
}

/// Whether this part of a line is the same in the line at an index.
fn has_line(lines: &[TraceLine<'_>], index: usize, line: &TraceLine<'_>, part: Part) -> bool
    ensures { IsTrue result ↔ (slice_get (map (part_of part) (events_of lines.now)) index ≡ Some (part_of part (event_of line.now))) }
{
    match lines.get(index) {
        Some(other) => other.is_same(line, part),
        None => false,
    }
}
