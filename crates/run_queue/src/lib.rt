//! A queue of which one worker is the owner, and from which others may take.
#![tactic(auto)]

mod queue;
mod rule;
mod view;

pub use queue::{PutPass, RunQueue, TakePass};
