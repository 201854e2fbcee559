//! The check of the declarations of a file: its struct types and the heads of its functions.
#![tactic(auto)]

mod earliest;
pub mod group;
pub mod header;
mod held;
mod name;
mod parts;
mod search;
mod sizes;
mod structs;
pub mod table;
mod wide;

pub use name::own_node;
