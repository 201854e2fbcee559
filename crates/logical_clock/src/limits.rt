//! The limit of a run's goroutines.

/// The most goroutines that are alive, awake or asleep, at once.
pub const MAX_GOROUTINES: u64 = 16_384;
