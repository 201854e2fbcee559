//! The instructions of expressions: what channels carry, where variables lie, and the values that are pushed.
#![tactic(auto)]

pub mod channel;
pub mod context;
pub mod element_list;
pub mod emission;
pub mod noting;
pub mod operand;
pub mod operation;
pub mod operator;
pub mod shape;
pub mod value;
