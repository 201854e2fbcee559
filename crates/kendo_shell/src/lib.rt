//! What the programs share: their words, files, streams and exit statuses, and the check of a program.
#![tactic(auto)]

pub mod checking;
pub mod files;
pub mod names;
pub mod notice;
pub mod reason;
pub mod streams;
mod suggestion;
pub mod tracing;
pub mod words;

/// The exit status if memory is refused.
pub const MEMORY: u8 = 5;

/// The exit status if an output refuses bytes.
pub const WRITE: u8 = 6;

/// The exit status if the command line or a file can't be used.
pub const USAGE: u8 = 64;
