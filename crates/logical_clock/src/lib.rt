//! Logical time, and the order in which goroutines move.
//!
//! Each goroutine has a clock of its own, after Olszewski, Ansel and Amarasinghe, «Kendo: Efficient
//! Deterministic Multithreading in Software»; the one of least clock, and at one clock of least number, moves.
#![tactic(auto)]

mod clock;
mod key;
pub mod limits;
mod steps;

pub use clock::{Clock, LAST, tick};
pub use key::{Key, sooner};
pub use steps::Steps;
