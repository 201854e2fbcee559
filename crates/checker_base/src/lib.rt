//! The types and constant values of expressions, and the violations of the typing rules in them.
#![tactic(auto)]

pub mod callee;
pub mod constant;
pub(crate) mod form;
pub mod misuse;
pub mod operand;
pub(crate) mod operator;
pub mod refusal;
pub mod value;
pub(crate) mod wanted;
pub mod worth;
