//! A heap of entries by their keys.

ghost use Rattle.std.specs.Prelude.{◌≡◌, ℕ, ◌+◌, ◌*◌, ◌<◌, ◌≤◌, ◌^◌, length, slice_set, false};
ghost use Rattle.key_index.specs.Heap.{IsAboveChildren, IsFilled, IsHole, key_at, keys_with};
ghost use Rattle.logical_clock.specs.Order.{is_before};

use logical_clock::{Key, Steps};
use std::sync::ledger::Ledger;

/// What stands for the index in the heap of a slot that is free. A heap never has so many entries.
pub(crate) const NOWHERE: usize = usize::MAX;

/// A slot that is taken, with its key.
#[derive(Clone, Copy)]
pub(crate) struct Entry {
    pub key: Key,
    pub slot: usize,
}

/// The key as one number, whose order is that of the keys.
#[inline(always)]
fn rank(key: Key) -> u128
    ensures rank { result ≡ key.clock * 2 ^ 64 + key.number }
    ensures number { key.number < 2 ^ 64 }
{
    (u128::from(key.clock.time()) << 64) + u128::from(key.number)
}

/// Whether the first key is before the second one, found without a branch: which of two keys of a heap is first can't be predicted.
#[inline(always)]
fn is_before(a: &Key, b: &Key) -> bool
    ensures { result ≡ is_before a.now b.now }
{
    rank(*a) < rank(*b)
}

/// Whether the key at index `a` is before that at index `b`.
#[inline(always)]
fn compare<L: Ledger>(heap: &[Entry], a: usize, b: usize, steps: &mut Steps<L>) -> bool
    requires a_in { a < length heap.now }
    requires b_in { b < length heap.now }
    ensures value { result ≡ is_before (key_at heap.now a) (key_at heap.now b) }
    ensures steps { steps.new ≡ steps.old + 1 }
{
    steps.add();
    is_before(&heap[a].key, &heap[b].key)
}

/// Whether the key at index `place` is after that of an entry.
#[inline(always)]
fn follows<L: Ledger>(heap: &[Entry], place: usize, entry: &Entry, steps: &mut Steps<L>) -> bool
    requires { place < length heap.now }
    ensures value { result ≡ is_before entry.now.key (key_at heap.now place) }
    ensures steps { steps.new ≡ steps.old + 1 }
{
    steps.add();
    is_before(&entry.key, &heap[place].key)
}

/// Puts an entry at index `place`.
#[inline(always)]
fn put(heap: &mut [Entry], places: &mut [usize], place: usize, entry: Entry)
    requires place { place < length heap.old }
    requires slot { entry.slot < length places.old }
    ensures heap { heap.new ≡ slice_set heap.old place entry }
    ensures places { places.new ≡ slice_set places.old entry.slot place }
{
    let slot = entry.slot;
    heap[place] = entry;
    places[slot] = place;
}

/// Puts an entry at a hole, or further up as long as the parent's key is after the entry's.
pub(crate) fn sift_up<L: Ledger>(
    heap: &mut [Entry],
    places: &mut [usize],
    hole: usize,
    entry: &Entry,
    steps: &mut Steps<L>,
)
    requires hole { IsHole heap.old places.old hole entry.now }
    requires above { IsAboveChildren (keys_with heap.old hole entry.now) (length heap.old) hole }
    ensures filled { IsFilled heap.old heap.new places.old places.new hole entry.now }
    ensures steps { (d : ℕ) → hole + 1 < 2 ^ d → steps.new + 1 ≤ steps.old + d }
{
    if hole == 0 {
        return put(heap, places, hole, *entry);
    }
    let parent = (hole - 1) / 2;
    if !follows(heap, parent, entry, steps) {
        return put(heap, places, hole, *entry);
    }
    let moved = heap[parent];
    put(heap, places, hole, moved);
    sift_up(heap, places, parent, entry, steps)
}

/// Of the two children of index `place`, the one whose key is less.
#[inline(always)]
fn lesser_child<L: Ledger>(heap: &[Entry], place: usize, steps: &mut Steps<L>) -> usize
    requires { 2 * place + 2 < length heap.now }
    ensures low { 2 * place + 1 ≤ result }
    ensures high { result ≤ 2 * place + 2 }
    ensures least { (i : ℕ) → i < length heap.now → 2 * place + 1 ≤ i → i ≤ 2 * place + 2 → is_before (key_at heap.now i) (key_at heap.now result) ≡ false }
    ensures steps { steps.new ≡ steps.old + 1 }
{
    let right = 2 * place + 2;
    right - usize::from(compare(heap, right - 1, right, steps))
}

/// Puts an entry at a hole, or further up or down, by its key: the hole goes down to a leaf, each time to the lesser child, and
/// the entry rises from there. Most entries that are sifted belong near a leaf.
pub(crate) fn sift<L: Ledger>(
    heap: &mut [Entry],
    places: &mut [usize],
    hole: usize,
    entry: &Entry,
    steps: &mut Steps<L>,
)
    requires { IsHole heap.old places.old hole entry.now }
    ensures filled { IsFilled heap.old heap.new places.old places.new hole entry.now }
    ensures steps { (d e : ℕ) → length heap.old < (hole + 1) * 2 ^ d → length heap.old < 2 ^ e → steps.new + 2 ≤ steps.old + d + e }
{
    if 2 * hole + 2 >= heap.len() {
        return sift_last(heap, places, hole, entry, steps);
    }
    let child = lesser_child(heap, hole, steps);
    let moved = heap[child];
    put(heap, places, hole, moved);
    sift(heap, places, child, entry, steps)
}

/// Like `sift`, at a hole with one child at most.
#[inline(always)]
fn sift_last<L: Ledger>(
    heap: &mut [Entry],
    places: &mut [usize],
    hole: usize,
    entry: &Entry,
    steps: &mut Steps<L>,
)
    requires hole { IsHole heap.old places.old hole entry.now }
    requires last { length heap.old ≤ 2 * hole + 2 }
    ensures filled { IsFilled heap.old heap.new places.old places.new hole entry.now }
    ensures steps { (e : ℕ) → length heap.old < 2 ^ e → steps.new + 1 ≤ steps.old + e }
{
    let left = 2 * hole + 1;
    if left >= heap.len() {
        return sift_up(heap, places, hole, entry, steps);
    }
    let moved = heap[left];
    put(heap, places, hole, moved);
    sift_up(heap, places, left, entry, steps)
}

/// Puts `last`, which was the last entry, at index `place`, unless that was its own index.
#[inline(always)]
pub(crate) fn refill<L: Ledger>(
    heap: &mut [Entry],
    places: &mut [usize],
    place: usize,
    last: &Entry,
    steps: &mut Steps<L>,
)
    requires { place < length heap.old → IsHole heap.old places.old place last.now }
    ensures filled { place < length heap.old → IsFilled heap.old heap.new places.old places.new place last.now }
    ensures heap { length heap.old ≤ place → heap.new ≡ heap.old }
    ensures places { length heap.old ≤ place → places.new ≡ places.old }
    ensures steps { (d : ℕ) → length heap.old < 2 ^ d → steps.new ≤ steps.old + 2 * d }
{
    if place < heap.len() {
        sift(heap, places, place, last, steps);
    }
}
