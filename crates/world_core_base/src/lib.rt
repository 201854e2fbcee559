//! A world of goroutines that run ahead of their turn, and the requests that it performs.
#![tactic(auto)]

mod core_model;
mod situation;
mod spare;
mod talked;
mod talking;
mod waking;

pub use awake_rows::Slot;
pub use core_model::{Core, blank_event};
pub use talked::Talked;
pub use turn_rule::Step;
