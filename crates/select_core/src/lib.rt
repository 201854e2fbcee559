//! Selects: which clause is done, and how a goroutine sleeps at all of them.
#![tactic(auto)]

mod choice;
mod requests;

pub use choice::{Choice, choose};
pub use requests::{enter_all, leave_all, meet, perform, select};
