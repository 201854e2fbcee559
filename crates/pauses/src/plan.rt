//! Plans of pauses.

ghost use Rattle.std.specs.Prelude.{◌≡◌};
ghost use Rattle.pauses.specs.Plans.{is_alike, is_rival, pause_of};

/// What is changed at a request.
#[derive(Clone, Copy)]
pub enum Change {
    /// The goroutine waits for this many ticks before it makes the request.
    Wait(u64),
    /// The request is a select, and its clause of this number, counted from 1 in source order, is tried before the others.
    Clause(u64),
}

impl Change {
    /// Whether both are waits, or both clauses.
    fn is_alike(self, other: Change) -> bool
        ensures { result ≡ is_alike self other }
    {
        match (self, other) {
            (Change::Wait(_), Change::Wait(_)) => true,
            (Change::Clause(_), Change::Clause(_)) => true,
            _ => false,
        }
    }
}

/// What is changed at one request of one goroutine.
#[derive(Drop)]
pub struct Pause {
    /// The way from `main` to the goroutine: `[1]` is goroutine 1, `[1, 2]` the second goroutine that it starts.
    pub way: Vec<u64>,
    /// The number of the request among those that the goroutine makes, counted from 1.
    pub request: u64,
    pub change: Change,
}

impl Pause {
    /// Whether both change the same thing of one request.
    pub(crate) fn is_rival(&self, other: &Pause) -> bool
        ensures { result ≡ is_rival (pause_of self.now) (pause_of other.now) }
    {
        self.way.as_slice() == other.way.as_slice()
            && self.request == other.request
            && self.change.is_alike(other.change)
    }
}

/// Pauses; of several that change the same thing of one request the first counts.
#[derive(Drop)]
pub struct Plan {
    pub pauses: Vec<Pause>,
}
