//! Where the goroutines of a program are at the end of its run by a plan of pauses. The program is interpreted once more, by the plan.
#![tactic(auto)]

mod ending;
mod explanation;
mod goroutine;
mod run;

pub use explanation::paused_end;
