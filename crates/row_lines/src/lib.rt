//! What rows compare line by line: the tokens of a program, the nodes of its tree, and the result of a command line.
#![tactic(auto)]

mod kinds;
mod parts;
mod words;

pub use parts::{spans, tokens};
pub use words::check_words;
