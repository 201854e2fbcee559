//! What a pass knows. No value of it is made.

use std::collections::LinkedList;

/// What a pass may do, and what it knows of what was put and taken.
pub struct View<T> {
    /// Whether it is the pass that puts.
    pub puts: bool,
    /// Whether it takes.
    pub takes: bool,
    /// Whether no other pass takes.
    pub alone: bool,
    /// The first items that were put; of the pass that puts, all of them.
    pub put: LinkedList<T>,
    /// How many of these were taken at least; of a pass that takes alone, how many were.
    pub gone: u64,
}
