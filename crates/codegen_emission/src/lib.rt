//! The instructions of statements.
#![tactic(auto)]

pub mod alone;
pub mod body;
pub mod context;
pub mod emitter;
pub mod marks;
pub mod single;
pub mod statement;
pub mod turn;

pub use codegen_header::{blank, layout};
