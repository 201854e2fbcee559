//! The check of a tree against the typing rules and the limits.
#![tactic(auto)]

mod body;
mod file;
mod tree;
mod typed;

pub use tree::check;
pub use typed::Typed;
