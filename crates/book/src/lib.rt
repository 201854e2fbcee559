//! The book of a run, which is in a state of the one-thread run, the leases of goroutines that run ahead, and what is handed out
//! of the book of a run that has a name.
#![tactic(auto)]

mod blank;
mod book_model;
pub mod handed;
mod kept_lines;
mod lease;
mod name;
mod program;
pub mod run_book;
pub mod run_name;
mod settled;
mod slots;

pub use blank::Blank;
pub use book_model::Book;
pub use lease::Lease;
pub use name::BookName;
pub use settled::{Reached, Settled};
