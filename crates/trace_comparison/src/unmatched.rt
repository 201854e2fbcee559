//! The first event of a trace that another trace doesn't have.

ghost use Rattle.std.specs.Prelude.{◌↔◌, ◌<◌, IfOk, IfSome, IsTrue};
ghost use Rattle.trace_comparison.specs.Comparing.{HasRequest, IsUnmatched};
ghost use Rattle.trace_comparison.specs.Counting.{ArePlaces};
ghost use Rattle.trace_comparison.specs.Requests.{events_of};

use crate::counts::Counts;
use crate::line::TraceLine;
use crate::places::{Name, Places};
use std::alloc::{AllocError, Global};

/// An event that another trace doesn't have. Events and requests are counted from 1.
#[derive(Clone, Copy)]
pub(crate) struct Unmatched {
    pub goroutine: u64,
    /// The number of the request among those of the goroutine.
    pub number: u64,
    pub event: usize,
    /// The event at which the goroutine makes its request of that number in the other trace, if it does.
    pub there: Option<usize>,
}

/// The first of these lines that is not, among `others`, the request of the same number of its goroutine.
///
/// Errors: out of memory.
pub(crate) fn first_unmatched(
    alloc: Global,
    lines: &[TraceLine<'_>],
    others: &[TraceLine<'_>],
    places: &Places,
) -> Result<Option<Unmatched>, AllocError>
    requires { ArePlaces places.now (events_of others.now) }
    ensures { IfOk result (IsUnmatched (events_of lines.now) (events_of others.now)) }
{
    let mut counts = Counts::new(alloc);
    for (index, line) in lines.iter().enumerate() {
        let goroutine = line.goroutine;
        let before = counts.add(goroutine)?;
        let there = places.event(Name { goroutine, before });
        if !has_request(others, there, line.request) {
            return Ok(Some(Unmatched {
                goroutine,
                number: before + 1,
                event: index + 1,
                there,
            }));
        }
    }
    Ok(None)
}

/// Whether this is what was requested in an event, counted from 1, if there is one.
fn has_request(lines: &[TraceLine<'_>], event: Option<usize>, request: &str) -> bool
    requires { IfSome event (λ e. 0 < e) }
    ensures { IsTrue result ↔ HasRequest (events_of lines.now) event request.now }
{
    let Some(event) = event else {
        return false;
    };
    match lines.get(event - 1) {
        Some(line) => line.request == request,
        None => false,
    }
}
