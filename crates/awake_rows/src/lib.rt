//! The goroutines of a world that are awake or asleep, each with its state. An awake one also has a floor, and may be lent or parked.
#![tactic(auto)]

mod goroutine;
mod goroutines;
mod orders;
mod replies;
mod rows;
mod slot;
mod turns;

pub use goroutines::Goroutines;
pub use replies::WordReply;
pub use slot::Slot;
pub use turns::Among;
