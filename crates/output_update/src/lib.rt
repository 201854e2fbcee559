//! A program with comments that say what it prints and how it ends.
#![tactic(auto)]

mod groups;
mod rewriting;
mod wording;

pub use rewriting::rewritten;
