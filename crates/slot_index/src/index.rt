//! The slot of each number that has one.

ghost use Rattle.std.specs.Prelude.{◌≡◌, ◌<◌, ℕ, None, IfOk, OnOk, OnErr};
ghost use Rattle.slot_index.specs.Numbers.{Frees, Gives, IsInverse, living, number_at, slot_of};

use crate::numbered_keys::NumberedKeys;
use slab::Slab;
use std::alloc::{AllocError, Global};
use std::marker::Model;

/// The slot of each number that has one. A free slot is given before a new one is added, so memory and time depend on how many
/// numbers have slots at the same time, not on how many ever had one.
pub struct SlotIndex {
    /// For each slot, the number that has it.
    numbers: Slab<u64>,
    /// For each number that has a slot, that slot.
    slots: NumberedKeys,
}

impl Drop for SlotIndex {
    fn drop(self) {
        let SlotIndex { numbers, slots } = self;
        drop(numbers);
        drop(slots);
    }
}

impl Model for SlotIndex {
    ghost use Rattle.slot_index.specs.Numbers.{IsInverse, Numbered};

    ghost Value = { Numbered };

    ghost view = { λ x. record { slots = x.slots; numbers = x.numbers.slots; next = x.numbers.vacant_key; room = x.numbers.capacity } };

    ghost invariant = { λ x. IsInverse (record { slots = x.slots; numbers = x.numbers.slots; next = x.numbers.vacant_key; room = x.numbers.capacity }) };
}

impl SlotIndex {
    /// No number has a slot.
    pub fn new(alloc: Global) -> SlotIndex
        ensures slots { (n : ℕ) → slot_of result n ≡ None }
        ensures numbers { (s : ℕ) → number_at result s ≡ None }
    {
        SlotIndex {
            numbers: Slab::new(alloc),
            slots: NumberedKeys::new(alloc),
        }
    }

    /// The slot of `number`, if it has one.
    #[inline(always)]
    pub fn slot(&self, number: u64) -> Option<usize>
        ensures { result ≡ slot_of self.now number }
    {
        self.slots.get(number)
    }

    /// The number that has `slot`, if there is one.
    #[inline(always)]
    pub fn number(&self, slot: usize) -> Option<u64>
        ensures { result ≡ number_at self.now slot }
    {
        self.numbers.get(slot).copied()
    }

    /// The slot that is given next.
    pub fn next(&self) -> usize
        ensures { result ≡ self.now.next }
    {
        self.numbers.vacant_key()
    }

    /// Gives `number` a free slot. A slot is added only if none is free.
    ///
    /// Errors: out of memory.
    pub fn give(&mut self, number: u64) -> Result<usize, AllocError>
        requires { slot_of self.old number ≡ None }
        ensures next { IfOk result (λ slot. slot ≡ self.old.next) }
        ensures gives { IfOk result (λ slot. Gives self.old number slot self.new) }
        ensures within { IfOk result (λ slot. slot < self.new.room) }
        ensures room { OnOk result (living self.old < self.old.room → self.new.room ≡ self.old.room) }
        ensures memory { OnErr result (self.new ≡ record self.old { room = self.new.room }) }
    {
        self.numbers.reserve(1)?;
        self.slots.insert(number, self.numbers.vacant_key())?;
        let slot = self.numbers.insert_reserved(number);
        Ok(slot)
    }

    /// Frees the slot of `number` and returns it, if there is one.
    pub fn free(&mut self, number: u64) -> Option<usize>
        ensures slot { result ≡ slot_of self.old number }
        ensures frees { Frees self.old number self.new }
        ensures room { self.new.room ≡ self.old.room }
    {
        let slot = self.slots.remove(number);
        if let Some(slot) = slot {
            self.numbers.try_remove(slot);
        }
        slot
    }

    /// Does nothing. Its contract says that each slot belongs to the number that has it.
    #[inline(always)]
    pub fn is_inverse(&self)
        ensures { IsInverse self.now }
    {
        let _slots = &self.slots;
    }
}
