//! The slots of a book's table of clocks.

ghost use Rattle.std.specs.Prelude.{◌≡◌, ◌+◌, ◌<◌, ◌≤◌, ℕ, IfOk, None, OnErr, OnOk, Some, false, length, slice_set, true};
ghost use Rattle.std.specs.Arc.{arc_value};
ghost use Rattle.clock_table.specs.Clocks.{IsFree, IsLentOn, RowFits, WasLent, loan_for, looked, opening_rows, row as word_at};
ghost use Rattle.clock_table.specs.declared.view.Loan.{Loan};
ghost use Rattle.clock_table.specs.declared.view.Row.TheVariants.{Home, Lent};
ghost use Rattle.clock_table.specs.Seats.{lease_clock, lease_loan, lease_slot, lease_table, rows as words_of, seat_looks, seat_table, table_of};
ghost use Rattle.logical_clock.specs.declared.limits.TheConstants.{MAX_GOROUTINES};
ghost use Rattle.slot_index.specs.Numbers.{number_at, slot_of};
ghost use Rattle.book.specs.Slots.{AreFree, IsPlaced, IsTakenOut, SamePlaces, place_of};

use crate::blank::Blank;
use crate::name::BookName;
use crate::program::Program;
use clock_table::{BookSeat, ClockTable, LeaseSeat};
use go_text::Memory;
use goroutine_vm::GoState;
use logical_clock::limits::MAX_GOROUTINES;
use slot_index::SlotIndex;
use std::sync::Arc;
use verifier::Verified;

/// How many slots there are: one for each goroutine that is alive.
const SLOTS: usize = MAX_GOROUTINES as usize;

/// The table of clocks, and which goroutines have its slots.
pub(crate) struct Slots<B: BookName> {
    table: ClockTable,
    pub seat: BookSeat,
    /// The slots of those goroutines that are lent.
    pub places: SlotIndex,
    /// What leases that came back leave to the next ones.
    spare: Vec<Program<B>>,
    ghost table_is: { table_of table ≡ B.table },
    ghost seat_is: { seat_table seat ≡ B.table },
    ghost size: { length (words_of seat) ≡ MAX_GOROUTINES },
    ghost free: { AreFree places (words_of seat) },
}

impl<B: BookName> Drop for Slots<B> {
    fn drop(self) {
        let Slots {
            table,
            seat,
            places,
            spare,
        } = self;
        drop(table);
        drop(seat);
        drop(places);
        drop(spare);
    }
}

impl<B: BookName> Slots<B> {
    /// Those of a new table: all are free.
    pub fn new(blank: Blank) -> Result<Slots<B>, Memory>
        requires { table_of blank.table ≡ B.table }
        ensures words { IfOk result (λ slots. words_of slots.seat ≡ opening_rows MAX_GOROUTINES) }
        ensures looks { IfOk result (λ slots. seat_looks slots.seat ≡ 0) }
        ensures places { IfOk result (λ slots. (n : ℕ) → slot_of slots.places n ≡ None) }
    {
        let Blank { alloc, table, seat } = blank;
        let spare = Vec::with_capacity(alloc, SLOTS)?;
        Ok(Slots {
            table,
            seat,
            places: SlotIndex::new(alloc),
            spare,
        })
    }

    /// Gives goroutine `number`, which is lent in `state`, a free slot: the slot's word is the state's clock. Returns the
    /// program for the lease, and its seat.
    pub fn lend(
        &mut self,
        shared: &Arc<Verified>,
        limit: u64,
        number: u64,
        state: &GoState,
    ) -> Result<(Arc<Verified>, LeaseSeat), Memory>
        requires code { arc_value shared.now ≡ B.code }
        requires unplaced { slot_of self.old.places number ≡ None }
        ensures program { IfOk result (λ l. arc_value l.0 ≡ B.code) }
        ensures seat { IfOk result (λ l. (lease_table l.1 ≡ B.table) × (lease_loan l.1 ≡ loan_for B.code limit number state.now) × (lease_clock l.1 ≡ state.now.clock)) }
        ensures free { IfOk result (λ l. (lease_slot l.1 < length (words_of self.old.seat)) × IsFree (word_at (words_of self.old.seat) (lease_slot l.1))) }
        ensures words { IfOk result (λ l. words_of self.new.seat ≡ slice_set (words_of self.old.seat) (lease_slot l.1) (Lent (loan_for B.code limit number state.now) state.now.clock)) }
        ensures place { IfOk result (λ l. IsPlaced self.old.places self.new.places number (lease_slot l.1)) }
        ensures looks { seat_looks self.new.seat ≡ seat_looks self.old.seat }
        ensures memory { OnErr result ((words_of self.new.seat ≡ words_of self.old.seat) × SamePlaces self.old.places self.new.places) }
    {
        let slot = self.places.give(number)?;
        let lent = self.lend_slot(shared, limit, slot, number, state);
        if lent.is_err() {
            self.places.free(number);
        }
        lent
    }

    /// Like `lend`, for the slot that the goroutine was given.
    fn lend_slot(
        &mut self,
        shared: &Arc<Verified>,
        limit: u64,
        slot: usize,
        number: u64,
        state: &GoState,
    ) -> Result<(Arc<Verified>, LeaseSeat), Memory>
        requires code { arc_value shared.now ≡ B.code }
        requires taken { number_at self.old.places slot ≡ Some number }
        requires free { IsFree (word_at (words_of self.old.seat) slot) }
        ensures program { IfOk result (λ l. arc_value l.0 ≡ B.code) }
        ensures seat { IfOk result (λ l. (lease_table l.1 ≡ B.table) × (lease_loan l.1 ≡ loan_for B.code limit number state.now) × (lease_clock l.1 ≡ state.now.clock)) }
        ensures slot { IfOk result (λ l. (lease_slot l.1 ≡ slot) × (slot < length (words_of self.old.seat))) }
        ensures words { IfOk result (λ _. words_of self.new.seat ≡ slice_set (words_of self.old.seat) slot (Lent (loan_for B.code limit number state.now) state.now.clock)) }
        ensures places { self.new.places ≡ self.old.places }
        ensures looks { seat_looks self.new.seat ≡ seat_looks self.old.seat }
        ensures memory { OnErr result (words_of self.new.seat ≡ words_of self.old.seat) }
    {
        if slot >= SLOTS {
            return Err(Memory);
        }
        let program = match self.spare.pop() {
            Some(spare) => spare.into_shared(),
            None => Arc::try_clone(shared)?,
        };
        let seat = self
            .table
            .lend(&mut self.seat, &program, limit, slot, number, state)?;
        Ok((program, seat))
    }

    /// What the word of goroutine `number`, which is lent, held at one moment of the call. It does not block.
    pub fn look(&mut self, number: u64) -> u64
        requires { (terms : Loan) × IsLentOn terms (word_at (words_of self.old.seat) (place_of self.old.places number)) }
        ensures held { RowFits result (word_at (words_of self.old.seat) (place_of self.old.places number)) }
        ensures words { words_of self.new.seat ≡ slice_set (words_of self.old.seat) (place_of self.old.places number) (looked result (word_at (words_of self.old.seat) (place_of self.old.places number))) }
        ensures places { self.new.places ≡ self.old.places }
        ensures looks { seat_looks self.new.seat ≡ seat_looks self.old.seat + 1 }
    {
        let slot = self.place(number);
        self.table.look(&mut self.seat, slot)
    }

    /// The slot of goroutine `number`; 0 if it has none.
    fn place(&self, number: u64) -> usize
        ensures { result ≡ place_of self.now.places number }
    {
        match self.places.slot(number) {
            Some(slot) => slot,
            None => 0,
        }
    }

    /// Makes the slot of goroutine `number`'s lease free, whose seat and program come back.
    pub fn take_back(&mut self, shared: Arc<Verified>, number: u64, seat: LeaseSeat)
        requires program { arc_value shared ≡ B.code }
        requires table { lease_table seat ≡ B.table }
        ensures was { WasLent (lease_loan seat) (lease_clock seat) (word_at (words_of self.old.seat) (lease_slot seat)) }
        ensures words { words_of self.new.seat ≡ slice_set (words_of self.old.seat) (lease_slot seat) (Home (lease_clock seat)) }
        ensures places { slot_of self.old.places number ≡ Some (lease_slot seat) → IsTakenOut self.old.places self.new.places number }
        ensures looks { seat_looks self.new.seat ≡ seat_looks self.old.seat }
    {
        let slot = seat.slot();
        self.table.take_back(&mut self.seat, seat);
        if self.places.slot(number) == Some(slot) {
            self.places.free(number);
        }
        drop(self.spare.push(Program::new(shared)));
    }
}
