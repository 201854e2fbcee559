//! Lists with separators.

use crate::cursor::Cursor;

/// What follows an entry of a list.
#[derive(Clone, Copy)]
pub enum Next {
    /// Another entry.
    More,
    /// The list's end, and whether a separator is before it.
    End(bool),
}

/// A list that was read, and what follows it.
#[derive(Drop)]
pub struct List<'a, T: Drop> {
    pub entries: Vec<T>,
    /// Whether a separator follows the last entry.
    pub trailing: bool,
    pub rest: Cursor<'a>,
}
