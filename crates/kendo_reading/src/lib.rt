//! Reads a source file: from bytes to a checked program, or why there is none.
#![tactic(auto)]

mod checking;
pub mod laws;
mod reading;

pub use checking::check_bytes;
pub use reading::read;
