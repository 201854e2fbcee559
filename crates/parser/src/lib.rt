//! The one tree that spells a list of tokens.
#![tactic(auto)]

mod declared;
mod file;
mod parser;
mod top;

pub use parser::{one_tree, parse};
