//! The functions of a goroutine that run: calls, returns, and local steps one after the other.
#![tactic(auto)]

pub mod call_stack;
pub mod run;
pub mod single;
