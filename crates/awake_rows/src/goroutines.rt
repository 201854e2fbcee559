//! Goroutines that are awake or asleep. Heaps give the first of them by their clocks.

ghost use Rattle.std.specs.Prelude.{◌≡◌, ◌≢◌, ◌++◌, ◌∷◌, [], IfNone, IfOk, IfSome, IsSome, MatchOption, None, OnErr, OnOk, Some, false, length, option_map, slice_index_or, slice_set, true};
ghost use Rattle.std.specs.Option.{is_some};
ghost use Rattle.bytecode.specs.Machine.{code_kind};
ghost use Rattle.bytecode.specs.Rules.{IsFrameOf};
ghost use Rattle.goroutine_vm.specs.Advance.{IsQuiet};
ghost use Rattle.logical_clock.specs.Order.{keys, least};
ghost use Rattle.turn_rule.specs.Schedule.{has_turn};
ghost use Rattle.word.specs.Kinds.{told};
ghost use Rattle.word.specs.Views.{reply_of};
ghost use Rattle.awake_rows.specs.Slots.{FitsAll, FitsRow, IsAwake, IsBefore, IsFreeIn, IsNobodyAwake, IsUnlent, WorksIn, answered_rows, back_row, clock_among, free_clock, free_row, is_asking, lent_row, raised_row, stepped_rows, talk_of_row, word_reply};

use crate::goroutine::Goroutine;
use crate::orders::{Orders, first, keyed, note, soonest};
use crate::replies::WordReply;
use crate::rows::{
    answer_row, answer_word_row, bed_in, doze_at, lend_row, make_room, put_at, raise_row, row_in,
    stay_row, step_row, take_at, talk_row, wake_at, wake_word_at, work_row,
};
use crate::slot::Slot;
use crate::turns::{Among, blocker, not_above};
use go_text::Memory;
use goroutine_vm::{GoState, Room, Sleeping};
use goroutine_vm_request::Talk;
use logical_clock::{Clock, Key};
use slot_index::SlotIndex;
use std::alloc::{AllocError, Global};
use std::marker::Model;
use turn_rule::Step;
use verifier::Verified;
use word::request::Reply;

/// The goroutines of a world. A goroutine that is awake or asleep has a slot; after it ended, the next goroutine that starts gets that
/// slot. So memory and time depend on how many goroutines are alive at the same time, not on how many were ever started.
pub struct Goroutines {
    /// The number that the next goroutine gets.
    count: u64,
    slots: SlotIndex,
    /// For each slot, the goroutine that has it.
    items: Vec<Option<Goroutine>>,
    orders: Orders,
}

impl Drop for Goroutines {
    fn drop(self) {
        let Goroutines {
            count: _,
            slots,
            items,
            orders,
        } = self;
        drop(slots);
        drop(items);
        drop(orders);
    }
}

impl Model for Goroutines {
    ghost use Rattle.awake_rows.specs.Living.{AreLiving, Living, living_in};

    ghost Value = { Living };

    ghost view = { λ g. living_in g.count g.slots g.items.items };

    ghost invariant = { λ g. AreLiving g.count g.slots g.items.items g.orders };
}

impl Goroutines {
    /// No numbers.
    pub fn new(alloc: Global) -> Goroutines
        ensures { result ≡ record { rows = []; beds = [] } }
    {
        Goroutines {
            count: 0,
            slots: SlotIndex::new(alloc),
            items: Vec::new(alloc),
            orders: Orders::new(alloc),
        }
    }

    /// The number that the next goroutine gets. All goroutines that were started have smaller numbers.
    #[inline(always)]
    pub fn count(&self) -> u64
        ensures rows { result ≡ length self.now.rows }
        ensures beds { result ≡ length self.now.beds }
    {
        self.count
    }

    /// The row of goroutine `number`, if it is awake.
    #[inline(always)]
    pub fn row(&self, number: u64) -> Option<&Slot>
        ensures none { IfNone result (slice_index_or self.now.rows number None ≡ None) }
        ensures some { IfSome result (λ row. slice_index_or self.now.rows number None ≡ Some row.now) }
    {
        let Some(slot) = self.slots.slot(number) else {
            return None;
        };
        row_in(&self.items, slot)
    }

    /// Goroutine `number`, if it is asleep.
    pub fn bed(&self, number: u64) -> Option<&Sleeping>
        ensures none { IfNone result (slice_index_or self.now.beds number None ≡ None) }
        ensures some { IfSome result (λ sleeping. slice_index_or self.now.beds number None ≡ Some sleeping.now) }
    {
        let Some(slot) = self.slots.slot(number) else {
            return None;
        };
        bed_in(&self.items, slot)
    }

    /// Leaves out a number: no goroutine gets it.
    ///
    /// Errors: out of memory, also after 2^64 - 1 numbers, which no run reaches.
    pub fn skip(&mut self) -> Result<(), AllocError>
        ensures ok { OnOk result (self.new ≡ record { rows = self.old.rows ++ None ∷ []; beds = self.old.beds ++ None ∷ [] }) }
        ensures memory { OnErr result (self.new ≡ self.old) }
    {
        if self.count == u64::MAX {
            return Err(AllocError);
        }
        self.count += 1;
        Ok(())
    }

    /// Starts a goroutine in `state`, in a free slot. Its number is `count`, and it may be lent.
    ///
    /// Errors: out of memory, also after 2^64 - 1 numbers, which no run reaches.
    pub fn start(&mut self, state: GoState) -> Result<(), AllocError>
        ensures ok { OnOk result (self.new ≡ record { rows = self.old.rows ++ Some (free_row state) ∷ []; beds = self.old.beds ++ None ∷ [] }) }
        ensures memory { OnErr result (self.new ≡ self.old) }
    {
        let number = self.count;
        if number == u64::MAX {
            return Err(AllocError);
        }
        make_room(&mut self.items, &mut self.orders, self.slots.next())?;
        let slot = self.slots.give(number)?;
        self.slots.is_inverse();
        let item = Goroutine::Awake(Slot::free(state));
        put_at(self.items.as_mut_slice(), slot, item);
        self.count = number + 1;
        note(&mut self.orders, &self.slots, &self.items, slot);
        Ok(())
    }

    /// Ends goroutine `number`, if it is awake, and frees its slot, as each slot that is taken has a goroutine (`AreLiving`). Returns its
    /// state, for another one to start in; contracts don't see it.
    pub fn end(&mut self, number: u64) -> Option<GoState>
        ensures { self.new ≡ record self.old { rows = slice_set self.old.rows number None } }
    {
        if self.row(number).is_none() {
            return None;
        }
        let Some(slot) = self.slots.free(number) else {
            unreachable!()
        };
        self.slots.is_inverse();
        let ended = take_at(self.items.as_mut_slice(), slot);
        note(&mut self.orders, &self.slots, &self.items, slot);
        room_of(ended)
    }

    /// Puts goroutine `number`, which is awake, back in this state, parked or not.
    #[inline(always)]
    pub fn put_back(&mut self, number: u64, state: GoState, parked: bool)
        requires { IsSome (slice_index_or self.old.rows number None) }
        ensures { self.new ≡ record self.old { rows = slice_set self.old.rows number (Some (back_row state parked)) } }
    {
        let Some(slot) = self.slots.slot(number) else {
            unreachable!()
        };
        let item = Goroutine::Awake(Slot::back(state, parked));
        put_at(self.items.as_mut_slice(), slot, item);
        note(&mut self.orders, &self.slots, &self.items, slot);
    }

    /// Goroutine `number`, which is awake, falls asleep in its state. Returns its `Room`, for a goroutine that is woken.
    #[inline(always)]
    pub fn doze(&mut self, number: u64) -> Room
        requires awake { IsSome (slice_index_or self.old.rows number None) }
        requires unlent { IsUnlent (slice_index_or self.old.rows number None) }
        requires quiet { IfSome (slice_index_or self.old.rows number None) (λ row. IsQuiet row.state.state) }
        ensures { self.new ≡ record { rows = slice_set self.old.rows number None; beds = slice_set self.old.beds number (option_map (λ row. row.state) (slice_index_or self.old.rows number None)) } }
    {
        let Some(slot) = self.slots.slot(number) else {
            unreachable!()
        };
        let room = doze_at(self.items.as_mut_slice(), slot);
        note(&mut self.orders, &self.slots, &self.items, slot);
        room
    }

    /// Wakes goroutine `number`, if it is asleep, in `room`, with this reply and clock. It may be lent.
    #[inline(always)]
    pub fn wake(&mut self, number: u64, room: Room, code: &Verified, reply: &Reply, clock: Clock)
        requires { IfSome (slice_index_or self.old.beds number None) (λ s. IsFrameOf code.now s.state) }
        ensures { self.new ≡ record { rows = slice_set self.old.rows number (option_map (λ s. free_row (told (code_kind code.now) s clock (reply_of reply.now))) (slice_index_or self.old.beds number None)); beds = slice_set self.old.beds number None } }
    {
        if self.bed(number).is_none() {
            self.end(number);
            return;
        }
        let Some(slot) = self.slots.slot(number) else {
            unreachable!()
        };
        wake_at(self.items.as_mut_slice(), slot, room, code, reply, clock);
        note(&mut self.orders, &self.slots, &self.items, slot);
    }

    /// Like `wake`, with this reply.
    #[inline(always)]
    pub fn wake_word(
        &mut self,
        number: u64,
        room: Room,
        code: &Verified,
        reply: WordReply,
        clock: Clock,
    )
        requires { IfSome (slice_index_or self.old.beds number None) (λ s. IsFrameOf code.now s.state) }
        ensures { self.new ≡ record self.old { rows = slice_set self.old.rows number (option_map (λ s. free_row (told (code_kind code.now) s clock (word_reply reply))) (slice_index_or self.old.beds number None)); beds = slice_set self.old.beds number None } }
    {
        if self.bed(number).is_none() {
            self.end(number);
            return;
        }
        let Some(slot) = self.slots.slot(number) else {
            unreachable!()
        };
        wake_word_at(self.items.as_mut_slice(), slot, room, code, reply, clock);
        note(&mut self.orders, &self.slots, &self.items, slot);
    }

    /// A goroutine's request is done: it goes on with this reply, at this clock.
    #[inline(always)]
    pub fn answer(&mut self, code: &Verified, number: u64, reply: &Reply, clock: Clock)
        requires frame { IfSome (slice_index_or self.old.rows number None) (λ row. IsFrameOf code.now row.state.state) }
        requires unlent { IsUnlent (slice_index_or self.old.rows number None) }
        ensures { self.new ≡ record self.old { rows = answered_rows code.now self.old.rows number clock (reply_of reply.now) } }
    {
        let Some(slot) = self.slots.slot(number) else {
            return;
        };
        answer_row(self.items.as_mut_slice(), code, slot, reply, clock);
        note(&mut self.orders, &self.slots, &self.items, slot);
    }

    /// Like `answer`, with this reply.
    #[inline(always)]
    pub fn answer_word(&mut self, code: &Verified, number: u64, reply: WordReply, clock: Clock)
        requires frame { IfSome (slice_index_or self.old.rows number None) (λ row. IsFrameOf code.now row.state.state) }
        requires unlent { IsUnlent (slice_index_or self.old.rows number None) }
        ensures { self.new ≡ record self.old { rows = answered_rows code.now self.old.rows number clock (word_reply reply) } }
    {
        let Some(slot) = self.slots.slot(number) else {
            return;
        };
        answer_word_row(self.items.as_mut_slice(), code, slot, reply, clock);
        note(&mut self.orders, &self.slots, &self.items, slot);
    }

    /// A goroutine is as it was, though its request was performed: the run ends.
    pub fn stay(&mut self, number: u64)
        requires { IsUnlent (slice_index_or self.old.rows number None) }
        ensures { self.new ≡ record self.old { rows = slice_set self.old.rows number (option_map (λ row. free_row row.state) (slice_index_or self.old.rows number None)) } }
    {
        let Some(slot) = self.slots.slot(number) else {
            return;
        };
        stay_row(self.items.as_mut_slice(), slot);
        note(&mut self.orders, &self.slots, &self.items, slot);
    }

    /// Lends goroutine `number`, if it may be lent: its state is moved out.
    pub fn lend(&mut self, number: u64) -> Option<GoState>
        ensures none { IfNone result ((free_clock (slice_index_or self.old.rows number None) ≡ None) × (self.new ≡ self.old)) }
        ensures some { IfSome result (λ s. IsFreeIn self.old.rows number s × (self.new ≡ record self.old { rows = slice_set self.old.rows number (Some (lent_row s)) })) }
    {
        let Some(slot) = self.slots.slot(number) else {
            return None;
        };
        let state = lend_row(self.items.as_mut_slice(), slot);
        note(&mut self.orders, &self.slots, &self.items, slot);
        state
    }

    /// Goroutine `number`, which may be lent, makes at most `quantum` local steps in its slot, up to a request, and is parked if
    /// it then makes one. Returns whether it does.
    ///
    /// Errors: out of memory, when some of the steps may be made.
    pub fn work(
        &mut self,
        alloc: Global,
        code: &Verified,
        limit: u64,
        number: u64,
        quantum: u32,
    ) -> Result<bool, Memory>
        requires fits { FitsAll code.now limit self.old.rows }
        requires free { is_some (free_clock (slice_index_or self.old.rows number None)) ≡ true }
        ensures ok { IfOk result (λ asking. WorksIn code.now limit quantum self.old.rows number (Some asking) self.new.rows) }
        ensures memory { OnErr result (WorksIn code.now limit quantum self.old.rows number None self.new.rows) }
        ensures rest { self.new ≡ record self.old { rows = self.new.rows } }
    {
        let Some(slot) = self.slots.slot(number) else {
            unreachable!()
        };
        let worked = work_row(alloc, self.items.as_mut_slice(), code, limit, slot, quantum);
        note(&mut self.orders, &self.slots, &self.items, slot);
        worked
    }

    /// Like `work`, but returns the request that the goroutine is then at, as far as it is a send of one word or a receive. It is parked
    /// if it is at a request.
    #[inline(always)]
    pub fn talk(
        &mut self,
        alloc: Global,
        code: &Verified,
        limit: u64,
        number: u64,
        quantum: u32,
    ) -> Result<Talk, Memory>
        requires fits { FitsAll code.now limit self.old.rows }
        requires free { is_some (free_clock (slice_index_or self.old.rows number None)) ≡ true }
        ensures ok { IfOk result (λ talk. WorksIn code.now limit quantum self.old.rows number (Some (is_asking talk)) self.new.rows) }
        ensures talk { IfOk result (λ talk. talk ≡ talk_of_row code.now limit (slice_index_or self.new.rows number None)) }
        ensures memory { OnErr result (WorksIn code.now limit quantum self.old.rows number None self.new.rows) }
        ensures rest { self.new ≡ record self.old { rows = self.new.rows } }
    {
        let Some(slot) = self.slots.slot(number) else {
            unreachable!()
        };
        let talked = talk_row(alloc, self.items.as_mut_slice(), code, limit, slot, quantum);
        note(&mut self.orders, &self.slots, &self.items, slot);
        talked
    }

    /// One step of goroutine `number`, as a schedule names it.
    pub fn step(
        &mut self,
        alloc: Global,
        code: &Verified,
        limit: u64,
        number: u64,
        step: Step,
    ) -> Result<(), Memory>
        requires { FitsAll code.now limit self.old.rows }
        ensures ok { OnOk result (self.new ≡ record self.old { rows = stepped_rows code.now limit step number self.old.rows }) }
        ensures memory { OnErr result (self.new ≡ self.old) }
        ensures fits { OnOk result (FitsRow code.now limit (slice_index_or (stepped_rows code.now limit step number self.old.rows) number None)) }
    {
        let Some(slot) = self.slots.slot(number) else {
            return Ok(());
        };
        step_row(alloc, self.items.as_mut_slice(), code, limit, slot, step)?;
        note(&mut self.orders, &self.slots, &self.items, slot);
        Ok(())
    }

    /// The floor of a goroutine that is lent becomes the clock that a look found.
    pub fn raise(&mut self, number: u64, clock: Clock)
        requires { IfSome (slice_index_or self.old.rows number None) (λ row. is_some row.lease ≡ true) }
        ensures { self.new ≡ record self.old { rows = slice_set self.old.rows number (option_map (raised_row clock) (slice_index_or self.old.rows number None)) } }
    {
        let Some(slot) = self.slots.slot(number) else {
            return;
        };
        raise_row(self.items.as_mut_slice(), slot, clock);
        note(&mut self.orders, &self.slots, &self.items, slot);
    }
}

impl Goroutines {
    /// The goroutine of least key of those whose clocks count.
    #[inline(always)]
    pub fn least_among(&self, among: Among) -> Option<Key>
        ensures { result ≡ least (keys (clock_among among) 0 self.now.rows) }
    {
        let late = self.orders.late;
        let own = keyed(self.slots.number(late), among.clock_at(&self.items, late));
        soonest(own, self.orders.others(among))
    }

    /// A goroutine that comes before the key: an awake one whose floor the key is not below. `None` if the key has the turn.
    #[inline(always)]
    pub fn blocker(&self, key: Key) -> Option<u64>
        ensures { MatchOption result (has_turn key 0 self.now.rows ≡ true) (λ n. (has_turn key 0 self.now.rows ≡ false) × IsBefore self.now.rows key n) }
    {
        let Some(number) = self.not_above(&key) else {
            return None;
        };
        if number == key.number {
            return blocker(&self.slots, &self.items, key);
        }
        Some(number)
    }

    /// A goroutine that is not above the key: one that comes before it, or its own at an earlier floor. If there is none, the key
    /// has the turn.
    #[inline(always)]
    fn not_above(&self, key: &Key) -> Option<u64>
        ensures none { IfNone result (has_turn key.now 0 self.now.rows ≡ true) }
        ensures some { IfSome result (λ n. n ≢ key.now.number → (has_turn key.now 0 self.now.rows ≡ false) × IsBefore self.now.rows key.now n) }
    {
        let late = self.orders.late;
        if let Some(number) = not_above(self.orders.others(Among::Free), key) {
            return Some(number);
        }
        let own = keyed(
            self.slots.number(late),
            Among::Awake.clock_at(&self.items, late),
        );
        if let Some(number) = not_above(own, key) {
            return Some(number);
        }
        if let Some(number) = not_above(self.orders.others(Among::Parked), key) {
            return Some(number);
        }
        not_above(first(&self.orders.lent), key)
    }

    /// The goroutine of least floor of those that are awake.
    pub fn first_awake(&self) -> Option<u64>
        ensures { MatchOption result (IsNobodyAwake self.now.rows) (λ n. IsAwake self.now.rows n) }
    {
        match self.least_among(Among::Awake) {
            Some(floor) => Some(floor.number),
            None => None,
        }
    }
}

/// The state of a goroutine that has ended, if it was not lent.
fn room_of(ended: Option<Goroutine>) -> Option<GoState> {
    match ended {
        Some(Goroutine::Awake(slot)) => slot.into_room(),
        _ => None,
    }
}
