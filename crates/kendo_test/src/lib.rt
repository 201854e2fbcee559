//! The test of a program: whether its run prints what its comments say, and ends so, and whether its other orders do.
#![tactic(auto)]

mod differences;
mod lines;
mod ordering;
mod report;
mod running;
mod testing;
mod updating;

pub use kendo_explore::{Extent, PlanFile, Progress};
pub use ordering::{OrderSearch, Searched};
pub use testing::{TestOptions, Tested, Verdict, test_bytes};
pub use updating::{Updated, update_bytes};
