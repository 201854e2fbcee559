//! The recording of a run: a window of its events, as the one-thread run has them.
#![tactic(auto)]

mod kept;
mod recorder_loop;

pub use recorder_loop::record;
