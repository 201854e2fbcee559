//! Events that follow one another in a run, of which pictures are made.
#![tactic(auto)]

mod kept;

pub use kept::{Kept, Latest};
