//! Calls that no program makes, of books, clocks, queues and workers, and their expected results.
#![tactic(auto)]

mod books;
mod calls;
mod clocks;
pub mod gates;
mod keys;
mod queues;
mod runs;
mod strangers;

pub use calls::{failed_calls, failed_refused_calls};
