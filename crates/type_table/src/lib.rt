//! The types of values, what is declared in a file, and which variables are visible.
#![tactic(auto)]

pub mod entry;
pub mod layout;
mod name_index;
pub mod name_list;
pub mod scope;
pub mod table;
pub mod value_type;
pub mod visible;
pub mod width;
pub mod zero;
