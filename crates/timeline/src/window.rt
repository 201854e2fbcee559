//! Which events of a run a picture shows.

/// Which events of a run a recording keeps, next to how many it keeps at most.
#[derive(Clone, Copy)]
pub enum Window {
    /// The first events.
    First,
    /// The events from this number on, counted from 1.
    From(u64),
    /// At most this many events, the last ones of the run.
    Last(u64),
}
