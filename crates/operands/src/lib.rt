//! What the machine's instructions take and make of words, whatever their frames are.
#![tactic(auto)]

pub mod kinds;
pub mod moved;
pub mod print;
pub mod select;
pub mod width;
