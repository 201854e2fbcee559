//! What the goroutines of the reference interpreter share, and what each request does to it.
#![tactic(auto)]

mod channel;
mod deed;
mod meeting;
mod reply;
mod seen;
mod shared;
mod sleeper;

pub use channel::Channel;
pub use deed::{Deed, Woken};
pub use shared::Shared;
pub use sleeper::Sleeper;
