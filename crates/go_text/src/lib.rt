//! A source in UTF-8 of bounded length, its spans and positions, and all errors of the product.
#![tactic(auto)]

pub mod fault;
pub mod place;
pub mod rule;
pub mod source;
pub mod word;

pub use fault::{Fault, Memory, NotYours};
pub use place::{Place, Position, Span};
pub use rule::{LimitKind, Rule};
pub use source::Source;
pub use word::is_word;
