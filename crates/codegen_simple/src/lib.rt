//! The instructions of simple statements and assignments, and the layout of variables.
#![tactic(auto)]

pub mod assignment;
pub mod define;
pub mod layout;
pub mod place;
pub mod print;
pub mod right;
pub mod simple;
pub mod spot;
pub mod update;
