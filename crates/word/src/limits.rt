//! The limits of a run.

/// The most functions that wait for one another, the running one counted.
pub const MAX_DEPTH: usize = 1_000;

/// The most channels that a run makes.
pub const MAX_CHANNELS: usize = 65_536;

/// The most words of an item.
pub const MAX_WORDS: usize = 16;

/// The largest capacity of a channel's buffer.
pub const MAX_CAPACITY: u64 = 65_536;
