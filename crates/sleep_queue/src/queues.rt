//! Rows of offers.

ghost use Rattle.std.specs.Prelude.{◌≡◌, ◌≢◌, ℕ, ◌+◌, ◌*◌, ◌<◌, ◌≤◌, List, Option, None, Some, [], ◌∷◌, ◌++◌, length, IfOk, IfNone, IfSome, OnErr, OnOk, OnSome, option_copied, option_map, true};
ghost use Rattle.std.specs.List.{filter};
ghost use Rattle.sleep_queue.specs.Stored.{offer_of, view_of};
ghost use Rattle.sleep_queue.specs.Queue.{AreApart, AreBefore, IsFirst, IsRing, Waiting, by_row, first, head_at, head_with, head_without, in_order, is_at, is_in_either, is_not_of, is_of, is_other, node_at, places_by, row_of, sooner, without_first};
ghost use Rattle.sleep_queue.specs.Linked.{link};
ghost use Rattle.slab.specs.Slab.{get};
ghost use Rattle.std.specs.Option.{is_some};

use crate::heads::{head_of, head_with, head_without, set_head};
use crate::items::{forget, lend, store};
use crate::offer::{Kept, Node, OfferView};
use crate::owners::Owners;
use crate::rings::Rings;
use go_text::Memory;
use logical_clock::Steps;
use slab::Slab;
use std::alloc::Global;
use std::marker::Model;
use std::sync::ledger::Ledger;
use word::offer::Offer;
use word::value::Item;

/// Rows of offers, each in the order in which its offers entered. An offer leaves from anywhere, and all offers of a
/// goroutine leave together; nothing is searched.
#[derive(Drop)]
pub struct SleepQueues {
    alloc: Global,
    slots: Slab<Node>,
    /// The items of offers to send.
    items: Slab<Item>,
    /// Above the stamp of each offer.
    time: u128,
    /// Each row is a ring of the keys of its offers.
    rows: Rings,
    /// Each row's first offer.
    heads: Vec<Option<usize>>,
    /// Each goroutine's offers are a ring of their keys.
    own: Rings,
    /// Each goroutine's first offer.
    owners: Owners,
}

impl Model for SleepQueues {
    ghost use Rattle.sleep_queue.specs.Queue.{IsQueues, QueuesValue, in_order};
    ghost use Rattle.std.specs.Prelude.{length};

    ghost Value = { QueuesValue };

    ghost view = { λ q. record { rows = length q.heads.items; waiting = in_order q.slots.slots q.time } };

    ghost invariant = { λ q. IsQueues q.slots.slots q.items.slots q.time q.rows.next q.heads.items q.own.next q.owners };
}

impl SleepQueues {
    /// No rows.
    pub fn new(alloc: Global) -> SleepQueues
        ensures { result ≡ record { rows = 0; waiting = [] } }
    {
        SleepQueues {
            alloc,
            slots: Slab::new(alloc),
            items: Slab::new(alloc),
            time: 0,
            rows: Rings::new(alloc),
            heads: Vec::new(alloc),
            own: Rings::new(alloc),
            owners: Owners::new(alloc),
        }
    }

    /// Two more rows, which are empty: the number of the first.
    pub fn add_rows(&mut self) -> Result<usize, Memory>
        ensures row { IfOk result (λ row. row ≡ self.old.rows) }
        ensures ok { OnOk result (self.new ≡ record self.old { rows = self.old.rows + 2 }) }
        ensures memory { OnErr result (self.new ≡ self.old) }
    {
        self.heads.reserve(2)?;
        let row = self.heads.len();
        self.heads.push_reserved(None);
        self.heads.push_reserved(None);
        Ok(row)
    }

    /// How many rows there are.
    pub fn rows(&self) -> usize
        ensures { result ≡ self.now.rows }
    {
        self.heads.len()
    }

    /// An offer enters a row at its back. Returns its key.
    ///
    /// # Errors
    ///
    /// `Memory` if it is out of memory, or after 2^128 offers.
    pub fn enter(&mut self, row: usize, offer: OfferView<'_>) -> Result<usize, Memory>
        requires { row < self.old.rows }
        ensures ok { IfOk result (λ key. self.new ≡ record self.old { waiting = self.old.waiting ++ record { key = key; row = row; offer = view_of offer.entry } ∷ [] }) }
        ensures memory { OnErr result (self.new ≡ self.old) }
    {
        let Some(later) = later(self.time) else {
            return Err(Memory);
        };
        self.slots.reserve(1)?;
        self.items.reserve(1)?;
        let key = self.slots.vacant_key();
        self.rows.cover(key)?;
        self.own.cover(key)?;
        let first = self.owners.join(offer.number, key)?;
        self.own.join(key, first);
        let head = head_of(self.heads.as_slice(), row);
        self.rows.join(key, head);
        set_head(&mut self.heads, row, head_with(head, key));
        let stamp = self.time;
        let offer = Kept {
            number: offer.number,
            case: offer.case,
            chan: offer.chan,
            item: store(self.alloc, &mut self.items, offer.item),
        };
        self.slots.insert_reserved(Node { row, stamp, offer });
        self.time = later;
        Ok(key)
    }

    /// The first offer of a row.
    pub fn first(&self, row: usize) -> Option<OfferView<'_>>
        ensures { option_map view_of result ≡ option_map (λ (w : Waiting). w.offer) (first (row_of row self.now.waiting)) }
    {
        let Some(key) = head_of(self.heads.as_slice(), row) else {
            return None;
        };
        match self.slots.get(key) {
            Some(node) => Some(lend(&self.items, &node.offer)),
            None => None,
        }
    }

    /// Whether a row has an offer.
    pub fn has_offers(&self, row: usize) -> bool
        ensures { result ≡ is_some (first (row_of row self.now.waiting)) }
    {
        self.first_key(row).is_some()
    }

    /// The first offer of two rows: the one that entered first.
    pub fn first_of_two(&self, row: usize, other: usize) -> Option<OfferView<'_>>
        ensures { option_map view_of result ≡ option_map (λ (w : Waiting). w.offer) (first (filter (is_in_either row other) self.now.waiting)) }
    {
        let heads = self.heads.as_slice();
        match sooner(
            front(&self.slots, heads, row),
            front(&self.slots, heads, other),
        ) {
            Some(node) => Some(lend(&self.items, &node.offer)),
            None => None,
        }
    }

    /// How many offers two rows have. Only these are visited.
    pub fn count_of_two(&self, row: usize, other: usize) -> usize
        requires { row ≢ other }
        ensures { result ≡ length (filter (is_in_either row other) self.now.waiting) }
    {
        let _most = self.slots.capacity();
        self.count(row) + self.count(other)
    }

    /// How many offers a row has.
    fn count(&self, row: usize) -> usize
        ensures { result ≡ length (row_of row self.now.waiting) }
    {
        match head_of(self.heads.as_slice(), row) {
            Some(head) => count_from(&self.slots, &self.rows, row, head),
            None => 0,
        }
    }

    /// The offer of this key leaves its row.
    pub fn leave(&mut self, key: usize) -> Option<Offer>
        ensures left { self.new ≡ record self.old { waiting = filter (is_other key) self.old.waiting } }
        ensures offer { result ≡ option_map (λ (w : Waiting). w.offer) (first (filter (is_at key) self.old.waiting)) }
    {
        let offer = self.offer(key);
        self.withdraw(key);
        offer
    }

    /// The offer of this key.
    fn offer(&self, key: usize) -> Option<Offer>
        ensures { result ≡ option_map (λ (w : Waiting). w.offer) (first (filter (is_at key) self.now.waiting)) }
    {
        match self.slots.get(key) {
            Some(node) => Some(lend(&self.items, &node.offer).copy()),
            None => None,
        }
    }

    /// The offer of this key leaves its row, and its item the store.
    fn withdraw(&mut self, key: usize)
        ensures { self.new ≡ record self.old { waiting = filter (is_other key) self.old.waiting } }
    {
        if !self.slots.contains(key) {
            return;
        }
        let after = self.rows.part(key);
        let next = self.own.part(key);
        let node = self.slots.remove(key);
        forget(&mut self.items, &node.offer.item);
        self.owners.part(node.offer.number, key, next);
        let head = head_of(self.heads.as_slice(), node.row);
        set_head(&mut self.heads, node.row, head_without(head, key, after));
    }

    /// The key of a row's first offer.
    fn first_key(&self, row: usize) -> Option<usize>
        ensures none { IfNone result (first (row_of row self.now.waiting) ≡ None) }
        ensures some { IfSome result (λ key. (w : Waiting) × (first (row_of row self.now.waiting) ≡ Some w) × (first (filter (is_at key) self.now.waiting) ≡ Some w) × (w.key ≡ key)) }
    {
        let _ = &self.slots;
        match head_of(self.heads.as_slice(), row) {
            Some(key) => Some(key),
            None => None,
        }
    }

    /// The first offer of a row leaves it.
    pub fn take_first(&mut self, row: usize) -> Option<Offer>
        ensures offer { result ≡ option_map (λ (w : Waiting). w.offer) (first (row_of row self.old.waiting)) }
        ensures left { self.new ≡ record self.old { waiting = without_first (first (row_of row self.old.waiting)) self.old.waiting } }
    {
        match self.first_key(row) {
            Some(key) => self.leave(key),
            None => None,
        }
    }

    /// The key of a goroutine's first offer.
    fn first_of(&self, number: u64) -> Option<usize>
        ensures none { IfNone result (filter (is_not_of number) self.now.waiting ≡ self.now.waiting) }
        ensures own { IfSome result (λ key. filter (is_not_of number) (filter (is_other key) self.now.waiting) ≡ filter (is_not_of number) self.now.waiting) }
        ensures fewer { IfSome result (λ key. length (filter (is_of number) (filter (is_other key) self.now.waiting)) < length (filter (is_of number) self.now.waiting)) }
    {
        let _ = &self.slots;
        match self.owners.get(number) {
            Some(key) => Some(key),
            None => None,
        }
    }

    /// All offers of a goroutine leave their rows. For each, at most three offers are touched: itself and its neighbours in its row. Its
    /// neighbours among the goroutine's own offers leave too.
    pub fn leave_all<L: Ledger>(&mut self, number: u64, steps: &mut Steps<L>)
        ensures left { self.new ≡ record self.old { waiting = filter (is_not_of number) self.old.waiting } }
        ensures steps { steps.new ≤ steps.old + 3 * length (filter (is_of number) self.old.waiting) }
    {
        while let Some(key) = self.first_of(number) {
            steps.add();
            steps.add();
            steps.add();
            self.withdraw(key);
        }
    }
}

/// The time after this one; none after 2^128 - 1.
fn later(time: u128) -> Option<u128>
    ensures { IfSome result (λ t. t ≡ time + 1) }
{
    time.checked_add(1)
}

/// How many offers a row has, `head` being the key of its first one.
fn count_from(slots: &Slab<Node>, rows: &Rings, row: usize, head: usize) -> usize
    requires apart { AreApart slots.now.slots }
    requires ring { IsRing (places_by by_row slots.now.slots) (link rows.now.next) }
    requires first { IsFirst (places_by by_row slots.now.slots) row head }
    requires covered { (k : ℕ) → is_some (get slots.now k) ≡ true → k < length rows.now.next }
    ensures { (t : ℕ) → AreBefore t slots.now.slots → result ≡ length (row_of row (in_order slots.now.slots t)) }
{
    let _most = slots.capacity();
    let mut count = 1;
    let mut last = head;
    let mut next = rows.next(last);
    while next != head {
        count += 1;
        last = next;
        next = rows.next(last);
    }
    count
}

/// The first offer of a row, with its stamp.
fn front<'a>(slots: &'a Slab<Node>, heads: &[Option<usize>], row: usize) -> Option<&'a Node>
    ensures { option_copied result ≡ node_at slots.now.slots (head_at heads.now row) }
{
    match head_of(heads, row) {
        Some(key) => slots.get(key),
        None => None,
    }
}

/// The one of two offers that entered first.
fn sooner<'a>(node: Option<&'a Node>, other: Option<&'a Node>) -> Option<&'a Node>
    ensures { option_copied result ≡ sooner (option_copied node.entry) (option_copied other.entry) }
{
    match (node, other) {
        (Some(first), Some(second)) => {
            if second.stamp < first.stamp {
                Some(second)
            } else {
                Some(first)
            }
        }
        (Some(first), None) => Some(first),
        (None, second) => second,
    }
}
