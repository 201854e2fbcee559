//! Calls that no text makes, of the crates from code to schedules, and what has to come of them.
#![tactic(auto)]

mod channels;
pub mod checks;
mod listings;
pub mod made;
mod pieces;
pub mod programs;
pub mod requests;
mod rules;
mod schedules;

pub use checks::{Checks, is_refused, make_calls, make_refused_calls};
