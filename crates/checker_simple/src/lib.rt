//! The check of simple statements and of declarations of variables: of lvalues, and of the values that go to them.
#![tactic(auto)]

pub mod assign;
pub mod call;
pub mod channel;
pub mod define;
pub mod given;
pub mod names;
pub mod place;
pub mod print;
pub mod simple;
pub mod update;
pub mod variables;
