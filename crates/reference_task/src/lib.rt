//! The functions of a program that runs, with their tasks in memory, and the operands of statements.
#![tactic(auto)]

pub mod operand;
pub mod outcome;
pub mod program;
pub mod task;
