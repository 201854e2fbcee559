//! The variables of a function by name, in blocks; their words, parts of their words, and where values go.
#![tactic(auto)]

pub mod part;
pub mod place;
pub mod scope;
pub mod words;
