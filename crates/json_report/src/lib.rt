//! What `kendo check`, `kendo explore` and `kendo test` find, as JSON: an object a line.
#![tactic(auto)]

mod errors;
mod explored;
mod record;

pub use errors::error_lines;
pub use explored::exploration_lines;
pub use record::{PauseRecord, Record, SearchRecord};
