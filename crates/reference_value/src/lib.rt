//! The variables of a function, the values of expressions, and where values go.
#![tactic(auto)]

pub mod callee;
pub mod fault;
pub mod given;
pub mod kind;
pub mod operation;
pub mod value;
pub mod worth;
