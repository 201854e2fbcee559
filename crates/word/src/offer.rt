//! What a sleeper offers on a channel.

use crate::value::Item;

/// A way to serve the goroutine of this number: on channel `chan`, by clause `case` of its select, counted from 1, which is 0
/// outside a select. A send if there is an item.
#[derive(Drop)]
pub struct Offer {
    pub number: u64,
    pub case: usize,
    pub chan: u32,
    pub item: Option<Item>,
}
