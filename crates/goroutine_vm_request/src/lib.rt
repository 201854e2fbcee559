//! The request of a goroutine.
#![tactic(auto)]

mod asked;
mod lists;
mod select;
mod talks;

pub use asked::{is_asking, request};
pub use lists::RequestLists;
pub use talks::{Talk, find_talk};
