//! What was read.

use crate::cursor::Cursor;

/// What was read, and what follows it.
#[derive(Drop)]
pub struct Found<'a, T: Drop> {
    pub node: T,
    pub rest: Cursor<'a>,
}
