//! The outcome of a task.

use word::value::Word;

/// Where a task leads, once all within it is done.
#[derive(Clone, Copy)]
pub enum Course {
    /// The function goes on, which costs nothing.
    Goes,
    /// An assignment is done, or a loop goes back to its head, which costs one.
    Moves,
}

/// The outcome of a task, once all within it is done.
#[derive(Drop)]
pub enum Outcome {
    /// The function goes on.
    Leads(Course),
    /// The function returns these words, and is where it was.
    Returns(Vec<Word>),
}
