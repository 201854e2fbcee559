//! The unit that a node of a tree is in, and what is visible there: what sentences about a fault are made of. No contract
//! says what is found.
#![tactic(auto)]

pub mod ends;
pub mod given;
mod number;
pub mod operations;
pub mod scene;
pub mod search;
pub mod unit;
