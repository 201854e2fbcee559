//! The instructions of the parts of control statements.
#![tactic(auto)]

pub mod blank;
pub mod carried;
pub mod comm;
pub mod range;
pub mod returned;
pub mod select;
pub mod start;
pub mod test;
pub mod variables;

pub use codegen_simple::{layout, print, simple};
