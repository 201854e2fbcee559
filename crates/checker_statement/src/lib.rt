//! The check of statements and their headers, and which statements are terminating.
#![tactic(auto)]

mod header;
pub mod statement;
pub mod terminate;
