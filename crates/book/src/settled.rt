//! What a settling comes to.

use word::end::End;
use word::request::Event;

/// The result of a settling.
#[derive(Drop)]
pub enum Settled {
    /// The next event of the run is committed.
    Committed(Event),
    /// This goroutine stands before the next event: it has to come back first.
    Waiting(u64),
    /// The run has ended.
    Ended(End),
}

/// Like `Settled`, but the event is written elsewhere.
#[derive(Drop)]
pub enum Reached {
    /// The next event of the run is committed, and was written.
    Committed,
    /// This goroutine stands before the next event: it has to come back first.
    Waiting(u64),
    /// The run has ended.
    Ended(End),
}
