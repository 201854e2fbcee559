//! From bytes to bytes: a run of a source file.
#![tactic(auto)]

mod command;
pub mod run;
mod running;

pub use command::{Open, run_text};
pub use run::run_bytes;
pub use worker_pool::{Gate, TraceWriter};
