//! The reference interpreter: runs a program as its source says, all goroutines in one thread.
#![tactic(auto)]

mod begin;
mod call;
mod program;
mod run;
mod source;
mod step;

pub use program::program_of;
pub use run::run_source;
pub use source::Source;
