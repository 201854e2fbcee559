//! Reading types and expressions.
#![tactic(auto)]

pub mod beside;
pub mod cursor;
pub mod expression;
pub mod fault;
pub mod found;
pub mod list;
pub mod literal;
pub mod node;
pub mod operator;
pub mod text;
pub mod types;
