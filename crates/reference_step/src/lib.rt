//! What the tasks of a function do, as the source says: statements, loops and selects.
#![tactic(auto)]

mod block;
mod branch;
mod clause;
mod loops;
mod places;
mod select;
mod simple;
mod statement;
mod variables;
pub mod work;
