//! Reading the headers of an if and a for, and what a clause of a select waits for.
#![tactic(auto)]

pub mod comm;
pub mod header;
