//! The spans of the nodes of a syntax tree: a walk over a finished tree and its tokens.
//!
//! Each function takes a part of the tree, and the number `at` of the part's first token. It appends the spans of the
//! part's nodes, in the order of the nodes' numbers, and returns how many tokens spell the part. It fails only if it is
//! out of memory.
#![tactic(auto)]

mod expression;
mod file;
mod header;
mod over;
mod simple;
mod statement;
mod types;

pub use file::file_spans;
