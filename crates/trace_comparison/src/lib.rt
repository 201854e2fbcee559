//! Traces as files have them, and how the trace of a run compares with a recorded one.
#![tactic(auto)]

mod comparison;
mod counts;
mod line;
mod places;
mod trace;
mod unmatched;

pub use comparison::{Comparison, Difference, compare};
pub use line::TraceLine;
pub use trace::{Trace, TraceError};
