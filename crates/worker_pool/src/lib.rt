//! The threads of a run: workers that share its book, and the calling thread, which writes what they commit.
#![tactic(auto)]

mod locked;
mod pool;
mod shared;
mod worker;
mod writing;

pub use pool::run;
pub use workers::{Gate, TraceWriter};
