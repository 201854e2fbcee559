//! A run that is compared with a recorded trace.
#![tactic(auto)]

mod comparing;
mod lines;
mod place;
mod report;

pub use comparing::{run_paused_with_trace, run_with_trace};
pub use lines::{Compared, Program, Recorded, check_trace, compare_traces};
pub use trace_comparison::TraceError;
