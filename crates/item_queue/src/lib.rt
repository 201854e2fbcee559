//! The items in a channel's buffer.
#![tactic(auto)]

mod line;
mod queue;
mod words;

pub use queue::ItemQueue;
