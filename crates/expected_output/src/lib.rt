//! What a program's comments say of its run: what it prints, and how it ends.
#![tactic(auto)]

mod comments;
mod ends;
mod expectation;
mod lines;
mod meeting;
mod printed;
mod said;

pub use expectation::{Expectation, ExpectationError, ExpectedOutput};
pub use lines::sorted_lines;
pub use meeting::have_same_lines;
pub use printed::{MOST_BYTES, Printed};
