//! The command line of the program: which words it accepts, and what they request.
#![tactic(auto)]

pub mod arguments;
pub mod numbers;
