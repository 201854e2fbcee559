//! The values of a run: for each of its events what it sends, receives or prints.
#![tactic(auto)]

mod forms;
mod line;
mod writing;

pub use writing::write_values;
