//! The orders of awake goroutines: by the clocks at which they are parked, by those at which they may be lent,
//! and, of those that are lent, by their floors.

ghost use Rattle.std.specs.Prelude.{◌≡◌, ◌≢◌, [], IfSome, OnErr, OnOk, Some};
ghost use Rattle.awake_rows.specs.Living.{AreOrders, HaveGrown, IsFirst, IsKeyOf, IsOther, Items, clocks_in, clocks_of, keyed, noted, now_late, row_in, soonest, taken_out, with_place};
ghost use Rattle.awake_rows.specs.Slots.{KeepsFloor, clock_among};
ghost use Rattle.slot_index.specs.Numbers.{Numbered, number_at};

use crate::goroutine::Goroutine;
use crate::rows::row_in;
use crate::slot::Order;
use crate::turns::Among;
use key_index::KeyIndex;
use logical_clock::{Clock, Key, Steps, sooner};
use slot_index::SlotIndex;
use std::alloc::{AllocError, Global};
use std::marker::Brand;
use std::sync::ledger::{Blank, Ledger};

/// The keys of goroutines, by their slots: each that is awake has one, in one order. The late one, whose row changed last, has none: it
/// gets its key once the row in another slot changes. So a row that changes several times in a row sets its key once.
pub(crate) struct Orders {
    /// Of those that are at their requests.
    pub parked: KeyIndex,
    /// Of those that may be lent.
    pub free: KeyIndex,
    /// Of those that are lent, by their floors.
    pub lent: KeyIndex,
    /// The slot whose row changed last, which has no key.
    pub late: usize,
}

impl Drop for Orders {
    fn drop(self) {
        let Orders {
            parked,
            free,
            lent,
            late: _,
        } = self;
        drop(parked);
        drop(free);
        drop(lent);
    }
}

impl Orders {
    /// Nobody's.
    pub(crate) fn new(alloc: Global) -> Orders
        ensures { (slots : Numbered) → AreOrders result slots [] }
    {
        Orders {
            parked: KeyIndex::empty(alloc),
            free: KeyIndex::empty(alloc),
            lent: KeyIndex::empty(alloc),
            late: 0,
        }
    }

    /// The least key of those whose clocks count, but for the late goroutine. The floor of one that is not lent is its clock.
    #[inline(always)]
    pub(crate) fn others(&self, among: Among) -> Option<Key>
        ensures { (slots : Numbered) (items : Items) → AreOrders self.now slots items → IsFirst (IsOther self.now.late (clock_among among) slots items) result }
    {
        match among {
            Among::Parked => first(&self.parked),
            Among::Free => first(&self.free),
            Among::Awake => {
                let unlent = soonest(first(&self.parked), first(&self.free));
                soonest(unlent, first(&self.lent))
            }
        }
    }

    /// Adds a slot without keys.
    ///
    /// Errors: out of memory. Some of the orders may have the slot then.
    pub(crate) fn push(&mut self) -> Result<(), AllocError>
        ensures ok { OnOk result (self.new ≡ with_place self.old) }
        ensures memory { OnErr result (HaveGrown self.old self.new) }
    {
        self.parked.push()?;
        self.free.push()?;
        self.lent.push()?;
        Ok(())
    }
}

/// The row in `slot` has changed, so `slot` is late. If another slot was, that gets its key.
#[inline(always)]
pub(crate) fn note(orders: &mut Orders, slots: &SlotIndex, items: &[Option<Goroutine>], slot: usize)
    ensures same { slot ≡ orders.old.late → orders.new ≡ orders.old }
    ensures other { slot ≢ orders.old.late → orders.new ≡ now_late orders.old slots.now items.now slot }
    ensures floor { IfSome (row_in items.now slot) KeepsFloor }
{
    keeps_floor_at(items, slot);
    if slot != orders.late {
        change_late::<Brand>(orders, slots, items, slot, Blank::new(1));
    }
}

/// The late goroutine gets its key, and `slot` is late. It counts its steps, which costs nothing.
fn change_late<L: Ledger>(
    orders: &mut Orders,
    slots: &SlotIndex,
    items: &[Option<Goroutine>],
    slot: usize,
    blank: Blank,
)
    requires name { blank.name ≡ L.name }
    requires parts { blank.parts ≡ L.parts }
    requires one { blank.parts ≡ 1 }
    ensures { orders.new ≡ now_late orders.old slots.now items.now slot }
{
    let mut steps = Steps::<L>::new(blank);
    put_in(orders, slots, items, &mut steps);
    take_out(orders, slot, &mut steps);
}

/// The late goroutine, if there is one that is awake, gets its key in its order.
#[inline(always)]
fn put_in<L: Ledger>(
    orders: &mut Orders,
    slots: &SlotIndex,
    items: &[Option<Goroutine>],
    steps: &mut Steps<L>,
)
    ensures { orders.new ≡ noted orders.old orders.old.late (number_at slots.now orders.old.late) (clocks_of (row_in items.now orders.old.late)) }
{
    let late = orders.late;
    let Some(row) = row_in(items, late) else {
        return;
    };
    let Some(number) = slots.number(late) else {
        return;
    };
    let key = Key {
        clock: row.floor(),
        number,
    };
    put_key(orders, row.order(), late, key, steps);
}

/// Sets the key of `slot` in this order.
#[inline(always)]
fn put_key<L: Ledger>(
    orders: &mut Orders,
    order: Order,
    slot: usize,
    key: Key,
    steps: &mut Steps<L>,
)
    ensures { orders.new ≡ noted orders.old slot (Some key.number) (clocks_in order key.clock) }
{
    match order {
        Order::Parked => orders.parked.set(slot, Some(key), steps),
        Order::Free => orders.free.set(slot, Some(key), steps),
        Order::Lent => orders.lent.set(slot, Some(key), steps),
    }
}

/// `slot` is late, and has no key.
#[inline(always)]
fn take_out<L: Ledger>(orders: &mut Orders, slot: usize, steps: &mut Steps<L>)
    ensures { orders.new ≡ taken_out orders.old slot }
{
    orders.free.clear(slot, steps);
    orders.parked.clear(slot, steps);
    orders.lent.clear(slot, steps);
    orders.late = slot;
}

/// The least of the keys, if there are any.
#[inline(always)]
pub(crate) fn first(keys: &KeyIndex) -> Option<Key>
    ensures { IsFirst (IsKeyOf keys.now) result }
{
    match keys.least() {
        Some((_, key)) => Some(key),
        None => None,
    }
}

/// The key of goroutine `number`, if there is one, at this clock.
#[inline(always)]
pub(crate) fn keyed(number: Option<u64>, clock: Option<Clock>) -> Option<Key>
    ensures { result ≡ keyed number clock }
{
    let Some(number) = number else {
        return None;
    };
    match clock {
        Some(clock) => Some(Key { clock, number }),
        None => None,
    }
}

/// Does nothing. Its contract says that the row in `slot` keeps its floor.
#[inline(always)]
fn keeps_floor_at(items: &[Option<Goroutine>], slot: usize)
    ensures { IfSome (row_in items.now slot) KeepsFloor }
{
    if let Some(row) = row_in(items, slot) {
        row.keeps_floor();
    }
}

/// The first of two keys, if there are any.
#[inline(always)]
pub(crate) fn soonest(key: Option<Key>, other: Option<Key>) -> Option<Key>
    ensures { result ≡ soonest key other }
{
    match key {
        None => other,
        Some(key) => Some(sooner(key, other)),
    }
}
