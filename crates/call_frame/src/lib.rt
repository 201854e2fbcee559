//! The frame of a function that runs, and what instructions and forms do to it.
#![tactic(auto)]

pub mod fetch;
pub mod frame;
pub mod fused;
mod instrs;
pub mod outcome;
pub mod plain;
pub mod step;
