//! Reading statements.
#![tactic(auto)]

mod leaf;
pub mod statement;
