//! Channels, and the goroutines that sleep at them.
#![tactic(auto)]

mod channel;
mod channels;
mod order;
mod outcome;
mod rows;
mod sleepers;
mod word_outcome;

pub use channels::Channels;
pub use outcome::{Outcome, Woken};
pub use word_outcome::{ReceivedWord, SentWord};
