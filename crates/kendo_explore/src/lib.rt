//! The exploration of the program that a source file is: its report, and the files of plans that show its ends again.
#![tactic(auto)]

mod exploring;

pub use exploration::{Cause, Extent, Options, Outcome, OutcomeEnd, PlannedPause, Ran, Verdict};
pub use exploring::{Explored, PlanFile, Progress, explore_bytes};
pub use program_states::Scope;
