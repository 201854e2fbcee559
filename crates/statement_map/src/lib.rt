//! Which statement of a program, and which operation in it, each instruction of its code comes from, and on which lines they are.
#![tactic(auto)]

mod lines;
mod map;
mod nodes;
mod walk;

pub use lines::NodeLines;
pub use map::StatementMap;
