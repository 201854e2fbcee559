//! Values and operations that do not fit their context, in the words of Go: the scene of a fault, and the sentences about
//! the values there. No contract says what is printed.
#![tactic(auto)]

pub mod assigning;
pub mod channel;
pub mod counting;
pub mod operator;
pub mod place;
