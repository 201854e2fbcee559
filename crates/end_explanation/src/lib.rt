//! Where the goroutines of a program are at the end of a run, in lines as Go prints them: one form, whatever made the run.
#![tactic(auto)]

mod cycle;
mod explanation;
mod forever;
mod goroutine;
mod moment;
mod named;
mod notes;
mod sentence;
mod wish;

pub use explanation::end_explanation;
pub use goroutine::{Call, Goroutine, variables_line};
pub use moment::{Moment, Shown};
pub use notes::Notes;
