//! Schedules of goroutines that run ahead of their turn, and the world that they lead to.
#![tactic(auto)]

mod laws;
mod schedule;

pub use laws::{entries_are_accepted, moments_settle};
pub use schedule::{World, run_schedule};
pub use world_core_base::{Core, Slot, Step, blank_event};
