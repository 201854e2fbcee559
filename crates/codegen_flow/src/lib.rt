//! Jumps that wait for their targets, and where control goes from what was emitted.
#![tactic(auto)]

pub mod flow;
pub mod select;
pub mod waits;
pub mod way;
