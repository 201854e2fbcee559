//! Explanations as a terminal shows them: locations bold, marks and hints in colours. Without the escape sequences they are as they
//! were.
#![tactic(auto)]

mod cutter;
mod explanation;
pub mod piece;

pub use explanation::styled;
pub use piece::{Piece, Style};
