//! The run of any kind of goroutine, by a plain interpreter of it, with its trace.
#![tactic(auto)]

mod tracing;

pub use tracing::run_traced;
