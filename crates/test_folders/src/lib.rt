//! The programs that the paths of a command line stand for: source files, and the tests in folders.
#![tactic(auto)]

mod commented;
mod finding;

pub use finding::{Tests, tests_of};
