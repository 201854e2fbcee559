//! Rows: programs, and the files next to them that state the expected results of each.
#![tactic(auto)]

pub mod folder;
pub mod row;
pub mod row_error;
pub mod written;
