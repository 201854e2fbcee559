//! Pieces of what a run writes, and their way into a writer.
#![tactic(auto)]

pub mod draining;
pub mod piece;
pub mod progress;

pub use draining::{DrainFault, drain, drain_next};
pub use piece::{Kind, Piece};
pub use progress::Progress;
