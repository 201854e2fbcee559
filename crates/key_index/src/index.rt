//! The keys of slots, and which of them is least.

ghost use Rattle.std.specs.Prelude.{◌≡◌, ℕ, ◌+◌, ◌*◌, ◌<◌, ◌≤◌, ◌^◌, ◌∷◌, ◌++◌, [], length, slice_index_or, slice_set, replicate, None, Some, false, IfOk, IfNone, IfSome, IsSome, OnErr, OnOk};
ghost use Rattle.logical_clock.specs.Order.{is_before};
ghost use Rattle.key_index.specs.Heap.{IsLeast};
ghost use Rattle.logical_clock.specs.declared.key.Key.{Key};

use crate::heap::{Entry, NOWHERE, refill, sift, sift_up};
use go_text::Memory;
use logical_clock::{Key, Steps};
use std::alloc::{AllocError, Global};
use std::marker::Model;
use std::sync::ledger::Ledger;

/// The keys of slots, of which each is taken or free, and which is least. Room for a key is made with its slot.
#[derive(Drop)]
pub struct KeyIndex {
    /// The slots that are taken, as a heap: none has a key before that of its parent.
    heap: Vec<Entry>,
    /// The index in the heap of each slot that is taken; `NOWHERE` for one that is free.
    places: Vec<usize>,
}

impl Model for KeyIndex {
    ghost use Rattle.std.specs.Prelude.{List, Option, vec_capacity};
    ghost use Rattle.logical_clock.specs.declared.key.Key.{Key as AnyKey};
    ghost use Rattle.key_index.specs.Heap.{IsOrdered, keys_of};

    ghost Value = { List (Option AnyKey) };

    ghost view = { λ x. keys_of x.heap.items x.places.items };

    ghost invariant = { λ x. IsOrdered (keys_of x.heap.items x.places.items) x.heap.items x.places.items (vec_capacity x.heap) };
}

impl KeyIndex {
    /// No slots.
    pub fn empty(alloc: Global) -> KeyIndex
        ensures { result ≡ [] }
    {
        KeyIndex {
            heap: Vec::new(alloc),
            places: Vec::new(alloc),
        }
    }

    /// `slots` slots, all free.
    pub fn new(alloc: Global, slots: usize) -> Result<KeyIndex, Memory>
        ensures { IfOk result (λ x. x ≡ replicate slots None) }
    {
        let heap = Vec::with_capacity(alloc, slots)?;
        let mut places = Vec::with_capacity(alloc, slots)?;
        for _slot in 0..slots {
            places.push(NOWHERE)?;
        }
        Ok(KeyIndex { heap, places })
    }

    /// One slot more, which is free.
    pub fn push(&mut self) -> Result<(), AllocError>
        ensures ok { OnOk result (self.new ≡ self.old ++ None ∷ []) }
        ensures memory { OnErr result (self.new ≡ self.old) }
    {
        self.heap.reserve(self.places.len() + 1 - self.heap.len())?;
        self.places.reserve(1)?;
        self.places.push_reserved(NOWHERE);
        Ok(())
    }

    /// Gives a slot this key, or frees it, if there is such a slot. It takes no more comparisons than `insert`.
    #[inline(always)]
    pub fn set<L: Ledger>(&mut self, slot: usize, key: Option<Key>, steps: &mut Steps<L>)
        ensures contents { self.new ≡ slice_set self.old slot key }
        ensures steps { (d : ℕ) → length self.old < 2 ^ d → steps.new ≤ steps.old + 2 * d }
    {
        match key {
            Some(key) => self.give(slot, key, steps),
            None => self.clear(slot, steps),
        }
    }

    /// Gives a slot this key, which it may have already, if there is such a slot.
    #[inline(always)]
    fn give<L: Ledger>(&mut self, slot: usize, key: Key, steps: &mut Steps<L>)
        ensures contents { self.new ≡ slice_set self.old slot (Some key) }
        ensures steps { (d : ℕ) → length self.old < 2 ^ d → steps.new ≤ steps.old + 2 * d }
    {
        if slot >= self.places.len() {
            return;
        }
        if self.places[slot] == NOWHERE {
            self.insert(slot, key, steps);
        } else {
            self.change(slot, key, steps);
        }
    }

    /// Gives a free slot a key. It takes at most twice as many comparisons of keys as the number of slots has binary digits.
    pub fn insert<L: Ledger>(&mut self, slot: usize, key: Key, steps: &mut Steps<L>)
        requires slot { slot < length self.old }
        requires free { slice_index_or self.old slot None ≡ None }
        ensures contents { self.new ≡ slice_set self.old slot (Some key) }
        ensures steps { (d : ℕ) → length self.old < 2 ^ d → steps.new ≤ steps.old + 2 * d }
    {
        let entry = Entry { key, slot };
        let last = self.heap.len();
        self.heap.push_reserved(entry);
        sift_up(&mut self.heap, &mut self.places, last, &entry, steps);
    }

    /// Gives a taken slot this key, which it may have already.
    fn change<L: Ledger>(&mut self, slot: usize, key: Key, steps: &mut Steps<L>)
        requires { IsSome (slice_index_or self.old slot None) }
        ensures contents { self.new ≡ slice_set self.old slot (Some key) }
        ensures steps { (d : ℕ) → length self.old < 2 ^ d → steps.new ≤ steps.old + 2 * d }
    {
        let entry = Entry { key, slot };
        let place = self.places[slot];
        sift(&mut self.heap, &mut self.places, place, &entry, steps);
    }

    /// Frees a slot, if it is there and taken. It takes no more comparisons than `insert`.
    #[inline(always)]
    pub fn clear<L: Ledger>(&mut self, slot: usize, steps: &mut Steps<L>)
        ensures contents { self.new ≡ slice_set self.old slot None }
        ensures steps { (d : ℕ) → length self.old < 2 ^ d → steps.new ≤ steps.old + 2 * d }
    {
        if slot >= self.places.len() {
            return;
        }
        if self.places[slot] != NOWHERE {
            self.remove(slot, steps);
        }
    }

    /// Frees a taken slot.
    fn remove<L: Ledger>(&mut self, slot: usize, steps: &mut Steps<L>)
        requires { IsSome (slice_index_or self.old slot None) }
        ensures contents { self.new ≡ slice_set self.old slot None }
        ensures steps { (d : ℕ) → length self.old < 2 ^ d → steps.new ≤ steps.old + 2 * d }
    {
        let place = self.places[slot];
        let last = self.heap.take_last();
        self.places[slot] = NOWHERE;
        refill(&mut self.heap, &mut self.places, place, &last, steps);
    }

    /// Frees a taken slot of least key, and returns it with its key.
    #[inline(always)]
    pub fn remove_least<L: Ledger>(&mut self, steps: &mut Steps<L>) -> (usize, Key)
        requires { (s : ℕ) × IsSome (slice_index_or self.old s None) }
        ensures least { IsLeast self.old result.0 result.1 }
        ensures contents { self.new ≡ slice_set self.old result.0 None }
        ensures steps { (d : ℕ) → length self.old < 2 ^ d → steps.new ≤ steps.old + 2 * d }
    {
        let first = self.heap[0];
        let last = self.heap.take_last();
        self.places[first.slot] = NOWHERE;
        refill(&mut self.heap, &mut self.places, 0, &last, steps);
        (first.slot, first.key)
    }

    /// Frees a taken slot of least key, which it returns with its key, and gives a free slot this key.
    #[inline(always)]
    pub fn replace_least<L: Ledger>(
        &mut self,
        slot: usize,
        key: Key,
        steps: &mut Steps<L>,
    ) -> (usize, Key)
        requires taken { (s : ℕ) × IsSome (slice_index_or self.old s None) }
        requires slot { slot < length self.old }
        requires free { slice_index_or self.old slot None ≡ None }
        ensures least { IsLeast self.old result.0 result.1 }
        ensures contents { self.new ≡ slice_set (slice_set self.old result.0 None) slot (Some key) }
        ensures steps { (d : ℕ) → length self.old < 2 ^ d → steps.new ≤ steps.old + 2 * d }
    {
        let entry = Entry { key, slot };
        let first = self.heap[0];
        self.places[first.slot] = NOWHERE;
        sift(&mut self.heap, &mut self.places, 0, &entry, steps);
        (first.slot, first.key)
    }

    /// A taken slot of least key, and that key; `None` if all are free. It compares nothing.
    pub fn least(&self) -> Option<(usize, Key)>
        ensures none { IfNone result ((s : ℕ) → slice_index_or self.now s None ≡ None) }
        ensures least { IfSome result (λ r. (slice_index_or self.now r.0 None ≡ Some r.1) × ((s : ℕ) (k : Key) → slice_index_or self.now s None ≡ Some k → is_before k r.1 ≡ false)) }
    {
        if self.heap.is_empty() {
            return None;
        }
        let first = &self.heap[0];
        Some((first.slot, first.key))
    }
}
