//! The compiler: code that does what the source does.
#![tactic(auto)]

mod compiler;
mod function;
mod head;
mod program;
mod shapes;

pub use codegen_emission::marks::{Mark, Marks, Part};
pub use compiler::{compile, compile_marked};
