//! Whose turn it is.

ghost use Rattle.std.specs.Prelude.{◌≡◌, IfNone, IfSome, Some, not};
ghost use Rattle.turn_rule.specs.Schedule.{floor_above};
ghost use Rattle.awake_rows.specs.Living.{AllAbove, IsClear, IsNotAbove, IsNotClear, row_in};
ghost use Rattle.awake_rows.specs.Slots.{clock_among};

use crate::goroutine::Goroutine;
use crate::rows::row_in;
use crate::slot::Slot;
use logical_clock::{Clock, Key};
use slot_index::SlotIndex;

/// Whose clocks count.
#[derive(Clone, Copy)]
pub enum Among {
    /// Those that are at their requests.
    Parked,
    /// Those that may be lent.
    Free,
    /// All, by their floors.
    Awake,
}

impl Among {
    /// The goroutine's clock, if it counts.
    #[inline(always)]
    fn clock(self, slot: &Slot) -> Option<Clock>
        ensures { result ≡ clock_among self (Some slot.now) }
    {
        match self {
            Among::Parked => slot.parked_clock(),
            Among::Free => slot.free_clock(),
            Among::Awake => Some(slot.floor()),
        }
    }

    /// The clock of the goroutine in `slot`, if it is awake and counts.
    #[inline(always)]
    #[tactic(auto, using(crate::proofs::Kept::nobody_counts))]
    pub(crate) fn clock_at(self, items: &[Option<Goroutine>], slot: usize) -> Option<Clock>
        ensures { result ≡ clock_among self (row_in items.now slot) }
    {
        match row_in(items, slot) {
            Some(row) => self.clock(row),
            None => None,
        }
    }
}

/// An awake goroutine, other than the key's own, whose floor the key is not below. Looks at all slots.
pub(crate) fn blocker(slots: &SlotIndex, items: &[Option<Goroutine>], key: Key) -> Option<u64>
    ensures none { IfNone result (AllAbove slots.now items.now key) }
    ensures some { IfSome result (λ n. IsNotAbove slots.now items.now key n) }
{
    for slot in 0..items.len() {
        if let Some(number) = slots.number(slot) {
            if is_before_at(items, &key, slot, number) {
                return Some(number);
            }
        }
    }
    None
}

/// Whose this first key is, unless the key is before it, or it is an own one that is not earlier.
#[inline(always)]
pub(crate) fn not_above(first: Option<Key>, key: &Key) -> Option<u64>
    ensures none { IfNone result (IfSome first (IsClear key.now)) }
    ensures some { IfSome result (IsNotClear key.now first) }
{
    let Some(first) = first else {
        return None;
    };
    if first.number == key.number {
        if first.is_before(key) {
            return Some(first.number);
        }
        return None;
    }
    if key.is_before(&first) {
        return None;
    }
    Some(first.number)
}

/// Whether goroutine `number`, which has `slot`, is awake, is not the key's own, and has a floor that the key is not below.
fn is_before_at(items: &[Option<Goroutine>], key: &Key, slot: usize, number: u64) -> bool
    ensures { result ≡ not (floor_above key.now number (row_in items.now slot)) }
{
    let Some(row) = row_in(items, slot) else {
        return false;
    };
    let floor = Key {
        clock: row.floor(),
        number,
    };
    number != key.number && !key.is_before(&floor)
}
