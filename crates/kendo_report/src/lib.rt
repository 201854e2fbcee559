//! The report of an outcome: what is said of it on standard error, and the exit status.
#![tactic(auto)]

mod outcome;

pub use outcome::{report, text_of_panic};
