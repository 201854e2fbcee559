//! The recording of a program's run by a plan of pauses, of which pictures are made.
#![tactic(auto)]

mod functions;
mod keeping;
mod recording;
mod sited;

pub use recording::timeline_paused;
