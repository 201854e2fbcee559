//! How many requests goroutines make.

ghost use Rattle.std.specs.Prelude.{◌≡◌, ◌+◌, ◌++◌, ◌∷◌, ◌<◌, ◌^◌, ◌-◌, [], IfOk, List, length};
ghost use Rattle.std.specs.Option.{IfSome};
ghost use Rattle.std.specs.Ordering.{nat_cmp};
ghost use Rattle.std.specs.BTreeMap.{get};
ghost use Rattle.trace_comparison.specs.Counting.{AreCounts, HasGoroutines};
ghost use Rattle.trace_comparison.specs.Requests.{Event, requests_of};

use std::alloc::{AllocError, Global};
use std::collections::BTreeMap;

/// How many requests each goroutine has made.
#[derive(Drop)]
pub(crate) struct Counts {
    counts: BTreeMap<u64, u64>,
}

impl Counts {
    /// No goroutine has made any.
    pub(crate) fn new(alloc: Global) -> Counts
        ensures { AreCounts result [] }
    {
        Counts {
            counts: BTreeMap::new(alloc),
        }
    }

    /// Counts another request of a goroutine, and returns how many it made before.
    ///
    /// Errors: out of memory.
    pub(crate) fn add(&mut self, goroutine: u64) -> Result<u64, AllocError>
        requires { IfSome (get nat_cmp self.old.counts goroutine) (λ n. n < 2 ^ 64 - 1) }
        ensures { IfOk result (λ n. (es : List Event) (e : Event) → AreCounts self.old es → (e.goroutine ≡ goroutine) → (n ≡ length (requests_of goroutine es)) × AreCounts self.new (es ++ e ∷ [])) }
    {
        let before = self.counts.get(&goroutine).copied().unwrap_or(0);
        self.counts.insert(goroutine, before + 1)?;
        Ok(before)
    }

    /// How many goroutines have made any.
    pub(crate) fn len(&self) -> usize
        ensures { (es : List Event) → AreCounts self.now es → HasGoroutines es result }
    {
        self.counts.len()
    }
}
