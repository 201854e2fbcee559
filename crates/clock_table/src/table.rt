//! The table and its seats.

ghost use Rattle.std.specs.Prelude.{◌≡◌, ◌+◌, ◌≤◌, ◌<◌, length, slice_set, IfOk, OnErr, OnOk};
ghost use Rattle.std.specs.Arc.{arc_value};
ghost use Rattle.clock_table.specs.Clocks.{rows_of, looks_of, row, loan_of, loan_for, opening_rows, looked, Reaches, RowFits, IsFree, WasLent, desk_view, lease_view, stores_of};
ghost use Rattle.clock_table.specs.declared.view.Row.TheVariants.{Home, Lent};

use crate::rule::{Clocks, Lends, Looks, Publishes, Returns, Stores, TakesBack, Terms};
use crate::view::View;
use atomic_table::{Seat, Table};
use go_text::Memory;
use goroutine_vm::GoState;
use logical_clock::limits::MAX_GOROUTINES;
use std::alloc::Global;
use std::marker::Brand;
use std::sync::Arc;
use verifier::Verified;

/// How many slots a table has: one for each goroutine that is alive.
const SLOTS: usize = MAX_GOROUTINES as usize;

type Words = Table<(), View, usize, Clocks, Global>;

/// A word for each slot.
pub struct ClockTable {
    words: Arc<Words, Global>,
    ghost some: { 0 < (arc_value words).shared.table_id.words },
}

impl Drop for ClockTable {
    fn drop(self) {
        let ClockTable { words } = self;
        drop(words);
    }
}

/// What the book knows of the words. It has no bytes.
pub struct BookSeat {
    seat: Seat<(), View>,
    pub ghost is_desk: { seat.me ≡ desk_view (rows_of seat.me.0) (looks_of seat.me.0) },
    pub ghost whole: { length (rows_of seat.me.0) ≡ seat.table_id.words },
}

impl Drop for BookSeat {
    fn drop(self) {
        let BookSeat { seat } = self;
        drop(seat);
    }
}

/// What the holder of a lease knows of its word.
#[derive(Drop)]
pub struct LeaseSeat {
    words: Arc<Words, Global>,
    seat: Seat<(), View>,
    slot: usize,
    clock: u64,
    pub ghost same: { seat.table_id ≡ (arc_value words).shared.table_id },
    pub ghost fits: { slot < seat.table_id.words },
    pub ghost is_lease: { seat.me ≡ lease_view slot (loan_of seat.me.0) clock (stores_of seat.me.0) },
}

impl ClockTable {
    /// A table of a word for each goroutine that may be alive, none of them lent, and the book's seat, which has made no look.
    pub fn new(alloc: Global) -> Result<(ClockTable, BookSeat), Memory>
        ensures table { IfOk result (λ t. t.1.seat.table_id ≡ (arc_value t.0.words).shared.table_id) }
        ensures rows { IfOk result (λ t. rows_of t.1.seat.me.0 ≡ opening_rows MAX_GOROUTINES) }
        ensures looks { IfOk result (λ t. looks_of t.1.seat.me.0 ≡ 0) }
    {
        let zeros = Vec::from_elem(alloc, 0u64, SLOTS)?;
        let (table, seat) = Words::of_words(alloc, zeros.as_slice(), &SLOTS)?;
        let words = Arc::new(alloc, table)?;
        Ok((ClockTable { words }, BookSeat { seat }))
    }

    /// Stores the state's clock in the word of a slot that is not lent, and then makes the lease's seat.
    pub fn lend(
        &self,
        seat: &mut BookSeat,
        code: &Verified,
        limit: u64,
        slot: usize,
        number: u64,
        state: &GoState,
    ) -> Result<LeaseSeat, Memory>
        requires table { seat.old.seat.table_id ≡ (arc_value self.now.words).shared.table_id }
        requires slot { slot < length (rows_of seat.old.seat.me.0) }
        requires free { IsFree (row (rows_of seat.old.seat.me.0) slot) }
        ensures table { seat.new.seat.table_id ≡ seat.old.seat.table_id }
        ensures looks { looks_of seat.new.seat.me.0 ≡ looks_of seat.old.seat.me.0 }
        ensures row { OnOk result (rows_of seat.new.seat.me.0 ≡ slice_set (rows_of seat.old.seat.me.0) slot (Lent (loan_for code.now limit number state.now) state.now.clock)) }
        ensures lease { IfOk result (λ l. (l.seat.table_id ≡ seat.old.seat.table_id) × (l.slot ≡ slot) × (loan_of l.seat.me.0 ≡ loan_for code.now limit number state.now) × (l.clock ≡ state.now.clock)) }
        ensures stores { IfOk result (λ l. stores_of l.seat.me.0 ≡ 0) }
        ensures memory { OnErr result (rows_of seat.new.seat.me.0 ≡ rows_of seat.old.seat.me.0) }
    {
        let words = Arc::try_clone(&self.words)?;
        let clock = state.clock().time();
        self.words
            .shared
            .store::<Stores>(&mut seat.seat, slot, clock);
        let lease = cut::<Brand>(&words, &mut seat.seat, code, limit, slot, number, state);
        Ok(LeaseSeat {
            words,
            seat: lease,
            slot,
            clock,
        })
    }

    /// What the word of the slot held at one moment of the call. It waits for nobody.
    pub fn look(&self, seat: &mut BookSeat, slot: usize) -> u64
        requires table { seat.old.seat.table_id ≡ (arc_value self.now.words).shared.table_id }
        requires slot { slot < length (rows_of seat.old.seat.me.0) }
        ensures table { seat.new.seat.table_id ≡ seat.old.seat.table_id }
        ensures one { looks_of seat.new.seat.me.0 ≡ looks_of seat.old.seat.me.0 + 1 }
        ensures word { RowFits result (row (rows_of seat.old.seat.me.0) slot) }
        ensures row { rows_of seat.new.seat.me.0 ≡ slice_set (rows_of seat.old.seat.me.0) slot (looked result (row (rows_of seat.old.seat.me.0) slot)) }
    {
        self.words.shared.load::<Looks>(&mut seat.seat, slot)
    }

    /// The slot is free again, at the clock that the lease published last.
    pub fn take_back(&self, seat: &mut BookSeat, lease: LeaseSeat)
        requires table { seat.old.seat.table_id ≡ (arc_value self.now.words).shared.table_id }
        requires same { lease.seat.table_id ≡ seat.old.seat.table_id }
        ensures table { seat.new.seat.table_id ≡ seat.old.seat.table_id }
        ensures looks { looks_of seat.new.seat.me.0 ≡ looks_of seat.old.seat.me.0 }
        ensures was { WasLent (loan_of lease.seat.me.0) lease.clock (row (rows_of seat.old.seat.me.0) lease.slot) }
        ensures row { rows_of seat.new.seat.me.0 ≡ slice_set (rows_of seat.old.seat.me.0) lease.slot (Home lease.clock) }
    {
        let LeaseSeat {
            words: _,
            seat: other,
            slot,
            clock,
        } = lease;
        self.words
            .shared
            .join_seat::<Returns>(&mut seat.seat, other);
        self.words
            .shared
            .store::<TakesBack>(&mut seat.seat, slot, clock);
    }
}

/// Makes a lease's seat of a slot whose word is the state's clock.
fn cut<T: Terms>(
    words: &Words,
    seat: &mut Seat<(), View>,
    code: &Verified,
    limit: u64,
    slot: usize,
    number: u64,
    state: &GoState,
) -> Seat<(), View>
    requires terms { (T.slot ≡ slot) × (T.loan ≡ loan_for code.now limit number state.now) }
    requires table { seat.old.table_id ≡ words.now.shared.table_id }
    requires desk { seat.old.me ≡ desk_view (rows_of seat.old.me.0) (looks_of seat.old.me.0) }
    requires slot { slot < length (rows_of seat.old.me.0) }
    requires whole { length (rows_of seat.old.me.0) ≡ seat.old.table_id.words }
    requires home { row (rows_of seat.old.me.0) slot ≡ Home state.now.clock }
    ensures table { (seat.new.table_id ≡ seat.old.table_id) × (result.table_id ≡ seat.old.table_id) }
    ensures desk { seat.new.me ≡ desk_view (slice_set (rows_of seat.old.me.0) slot (Lent (loan_for code.now limit number state.now) state.now.clock)) (looks_of seat.old.me.0) }
    ensures lease { result.me ≡ lease_view slot (loan_for code.now limit number state.now) state.now.clock 0 }
{
    words.shared.split_seat::<Lends<T>>(seat)
}

impl LeaseSeat {
    /// The slot that it has.
    pub fn slot(&self) -> usize
        ensures { result ≡ self.now.slot }
    {
        self.slot
    }

    /// Publishes the state's clock by one store. It waits for nobody.
    pub fn advance(&mut self, state: &GoState)
        requires rises { self.old.clock ≤ state.now.clock }
        requires bound { Reaches (loan_of self.old.seat.me.0) state.now.clock }
        ensures clock { self.new.clock ≡ state.now.clock }
        ensures one { stores_of self.new.seat.me.0 ≡ stores_of self.old.seat.me.0 + 1 }
        ensures same { (self.new.seat.table_id ≡ self.old.seat.table_id) × (self.new.slot ≡ self.old.slot) × (loan_of self.new.seat.me.0 ≡ loan_of self.old.seat.me.0) }
    {
        let clock = state.clock().time();
        self.words
            .shared
            .store::<Publishes>(&mut self.seat, self.slot, clock);
        self.clock = clock;
    }
}
