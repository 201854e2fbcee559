//! What sleepers offer.

use std::snapshot::Snapshot;
use word::offer::Offer;
use word::value::Item;

/// An offer whose item is lent.
#[derive(Clone, Copy)]
pub struct OfferView<'a> {
    pub number: u64,
    pub case: usize,
    pub chan: u32,
    pub item: Option<&'a Item>,
}

impl OfferView<'_> {
    ghost use Rattle.std.specs.Prelude.{◌≡◌};
    ghost use Rattle.sleep_queue.specs.Stored.{view_of};

    /// The offer with an item of its own.
    pub fn copy(&self) -> Offer
        ensures { result ≡ view_of self.now }
    {
        let item = match self.item {
            Some(item) => Some(item.copy()),
            None => None,
        };
        Offer {
            number: self.number,
            case: self.case,
            chan: self.chan,
            item,
        }
    }
}

/// An item in a store, by its index there. Only contracts see the item itself.
#[derive(Drop)]
pub(crate) struct Stored {
    pub place: usize,
    pub item: Snapshot<Item>,
}

/// An offer whose item, if it has one, is in a store.
#[derive(Drop)]
pub(crate) struct Kept {
    pub number: u64,
    pub case: usize,
    pub chan: u32,
    pub item: Option<Stored>,
}

/// An offer in its row, and when it entered: of two offers the earlier one has the lesser stamp.
#[derive(Drop)]
pub(crate) struct Node {
    pub row: usize,
    pub stamp: u128,
    pub offer: Kept,
}
