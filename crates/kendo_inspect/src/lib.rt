//! From the bytes of a source file to what is shown of a moment of its run.
#![tactic(auto)]

mod inspecting;

pub use inspecting::{Inspected, inspect_bytes, inspect_paused_bytes};
pub use one_thread::Until;
