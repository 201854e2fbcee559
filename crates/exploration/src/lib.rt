//! What is found in other orders of a program's events: each end, shown by a run of the interpreter with a few pauses.
#![tactic(auto)]

mod exploration;
mod findings;
mod hint;
mod lines;
mod mixed;
mod outcomes;
mod runner;
mod scene;
mod shown;
mod shrink;
mod telling;

pub use exploration::{Exploration, Extent, Options};
pub use findings::{Findings, Verdict};
pub use outcomes::{Cause, Outcome, OutcomeEnd, PlannedPause};
pub use runner::{Ran, Runner};
pub use scene::Scene;
pub use shown::Shown;
pub use telling::Stop;
