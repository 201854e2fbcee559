//! The tokens of a source file.
#![tactic(auto)]

mod comment;
mod element;
pub mod kind;
pub mod laws;
mod letters;
mod lexical;
mod longest;
mod string_literal;
pub mod token;
mod tokens;

pub use kind::TokenKind;
pub use token::Token;
pub use tokens::scan;
