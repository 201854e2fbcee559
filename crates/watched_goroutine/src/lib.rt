//! Goroutines of a program that is interpreted, with the statements that their functions are at.
#![tactic(auto)]

mod callee;
mod operation;
mod site;
mod start;
mod trail;
mod watched;
mod wish;

pub use site::Site;
pub use trail::{Track, Trail};
pub use watched::{LastStep, Placed, Watched};
pub use wish::{Offer, Wish};
