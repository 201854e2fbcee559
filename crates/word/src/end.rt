//! How a run ends.

use crate::panic::Panic;

/// How a run ends.
#[derive(Clone, Copy, Debug, PartialEq, Eq)]
pub enum End {
    /// Goroutine 1 returned from `main`.
    Finished,
    /// A goroutine panicked.
    Panicked(Panic),
    /// Nobody is awake.
    Deadlock,
    /// The goroutine in its turn had reached the clock limit.
    Exhausted,
}
