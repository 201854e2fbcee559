//! Where a trace has the requests of its goroutines.

ghost use Rattle.std.specs.Prelude.{◌≡◌, IfOk};
ghost use Rattle.trace_comparison.specs.Counting.{ArePlaces, event_at};
ghost use Rattle.trace_comparison.specs.Requests.{events_of};

use crate::counts::Counts;
use crate::line::TraceLine;
use std::alloc::{AllocError, Global};
use std::collections::BTreeMap;

/// A request by its goroutine, and by how many requests that goroutine made before it.
#[derive(Clone, Copy, PartialEq, Eq, PartialOrd, Ord)]
pub(crate) struct Name {
    pub goroutine: u64,
    pub before: u64,
}

/// Where a trace has the requests of its goroutines.
#[derive(Drop)]
pub(crate) struct Places {
    /// The event of each request, counted from 1.
    events: BTreeMap<Name, usize>,
    /// How many requests each goroutine makes.
    pub counts: Counts,
}

impl Places {
    /// The requests of these lines.
    ///
    /// Errors: out of memory.
    pub(crate) fn of(alloc: Global, lines: &[TraceLine<'_>]) -> Result<Places, AllocError>
        ensures { IfOk result (λ places. ArePlaces places (events_of lines.now)) }
    {
        let mut events = BTreeMap::new(alloc);
        let mut counts = Counts::new(alloc);
        for (index, line) in lines.iter().enumerate() {
            let before = counts.add(line.goroutine)?;
            let name = Name {
                goroutine: line.goroutine,
                before,
            };
            events.insert(name, index + 1)?;
        }
        Ok(Places { events, counts })
    }

    /// The event of a request, counted from 1, if there is one.
    pub(crate) fn event(&self, name: Name) -> Option<usize>
        ensures { result ≡ event_at self.now name }
    {
        self.events.get(&name).copied()
    }
}
