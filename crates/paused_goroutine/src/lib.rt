//! Goroutines that keep to a plan of pauses, over any interpreter.
#![tactic(auto)]

mod noted;
mod paused;
mod progress;
mod uses;

pub use noted::Noted;
pub use paused::{Paused, PausedState};
pub use progress::Progress;
pub use uses::PauseUses;
