//! The items of offers, in a store of their own.

ghost use Rattle.std.specs.Prelude.{◌≡◌, ◌≢◌, ℕ, IfSome, None, Some, option_copied, option_map};
ghost use Rattle.slab.specs.Slab.{HasRoomFor, Updates, get};
ghost use Rattle.sleep_queue.specs.Stored.{item_at, offer_of, stored_item, view_of};
ghost use Rattle.sleep_queue.specs.declared.offer.Stored.{Stored};

use crate::offer::{Kept, OfferView, Stored};
use slab::Slab;
use std::alloc::Global;
use std::snapshot::Snapshot;
use word::value::Item;

/// Puts an item, if there is one, at a free index of the store.
pub(crate) fn store(alloc: Global, items: &mut Slab<Item>, item: Option<&Item>) -> Option<Stored>
    requires { HasRoomFor items.old 1 }
    ensures item { stored_item result ≡ option_copied item.entry }
    ensures at { IfSome result (λ s. get items.new s.place ≡ Some s.item.value) }
    ensures free { IfSome result (λ s. get items.old s.place ≡ None) }
    ensures others { (p : ℕ) → ((s : Stored) → result ≡ Some s → p ≢ s.place) → get items.new p ≡ get items.old p }
{
    match item {
        Some(item) => {
            let place = items.insert_reserved(Item::empty(alloc));
            write(items, place, item);
            Some(Stored {
                place,
                item: Snapshot::of(item),
            })
        }
        None => None,
    }
}

/// Writes this item at index `place` of the store.
fn write(items: &mut Slab<Item>, place: usize, item: &Item)
    requires { get items.old place ≢ None }
    ensures { Updates items.old items.new place (Some item.now) }
{
    if let Some(room) = items.get_mut(place) {
        room.set(item.words());
    }
}

/// Takes an item, if there is one, out of the store.
pub(crate) fn forget(items: &mut Slab<Item>, stored: &Option<Stored>)
    ensures gone { (s : Stored) → stored.now ≡ Some s → get items.new s.place ≡ None }
    ensures others { (p : ℕ) → ((s : Stored) → stored.now ≡ Some s → p ≢ s.place) → get items.new p ≡ get items.old p }
{
    if let Some(stored) = stored {
        items.try_remove(stored.place);
    }
}

/// The offer, with its item out of the store.
pub(crate) fn lend<'a>(items: &'a Slab<Item>, offer: &Kept) -> OfferView<'a>
    ensures { view_of result ≡ record { number = offer.now.number; case = offer.now.case; chan = offer.now.chan; item = item_at items.now.slots offer.now.item } }
{
    let item = match &offer.item {
        Some(stored) => items.get(stored.place),
        None => None,
    };
    OfferView {
        number: offer.number,
        case: offer.case,
        chan: offer.chan,
        item,
    }
}
