//! Reading simple statements.
#![tactic(auto)]

pub mod form;
pub mod place;
pub mod right;
pub mod simple;
