//! What is made of a program's code besides a run of it: its listing, and the recording of its run for pictures.
#![tactic(auto)]

mod lines;
mod listing;
mod recording;

pub use listing::list_bytes;
pub use recording::{timeline_bytes, timeline_window};
