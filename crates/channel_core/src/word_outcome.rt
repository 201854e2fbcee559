//! The outcome of a request with one word.

use word::value::Word;

/// The outcome of a send of one word.
#[derive(Clone, Copy)]
pub enum SentWord {
    /// Goroutine number `.0`, which was asleep, received the word.
    To(u64),
    /// The word is in the channel's buffer.
    Kept,
    /// The sender fell asleep.
    Sleeps,
    /// Nothing was done: the channel is closed, or a select receives.
    Other,
}

/// The outcome of a receive of one word.
#[derive(Clone, Copy)]
pub enum ReceivedWord {
    /// This word was in the channel's buffer.
    Kept(Word),
    /// This word was received, and the sender of number `.1`, which was asleep, was woken.
    From(Word, u64),
    /// The receiver fell asleep.
    Sleeps,
    /// Nothing was done: a select sends, an item has not one word, or the channel is closed and empty.
    Other,
}
