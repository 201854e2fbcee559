//! A goroutine that is lent, and runs ahead.

ghost use Rattle.std.specs.Prelude.{◌≡◌, Ok, false, IfOk, OnErr, true};
ghost use Rattle.std.specs.Option.{is_some};
ghost use Rattle.bytecode.specs.Machine.{code_kind};
ghost use Rattle.goroutine_vm.specs.Advance.{Goes, IsStateOf, steps};
ghost use Rattle.std.specs.Arc.{arc_value};
ghost use Rattle.turn_rule.specs.Turns.{Leads};
ghost use Rattle.word.specs.Kinds.{asks};
ghost use Rattle.word.specs.Worlds.{rules};
ghost use Rattle.clock_table.specs.Clocks.{loan_for};
ghost use Rattle.clock_table.specs.Seats.{lease_clock, lease_loan, lease_slot, lease_table};

use crate::name::BookName;
use clock_table::LeaseSeat;
use go_text::Memory;
use goroutine_vm::GoState;
use logical_clock::Key;
use std::alloc::Global;
use std::marker::{Model, PhantomData};
use std::snapshot::Snapshot;
use std::sync::Arc;
use verifier::Verified;

/// A goroutine that is lent: it makes its local steps outside the book, and publishes its clock. The state in which it
/// was lent is not copied: only contracts see it.
pub struct Lease<B: BookName> {
    alloc: Global,
    program: Arc<Verified>,
    limit: u64,
    number: u64,
    base: Snapshot<GoState>,
    present: GoState,
    /// Whether it is known that the goroutine is at a request.
    stands: bool,
    seat: LeaseSeat,
    of: PhantomData<B>,
}

impl<B: BookName> Drop for Lease<B> {
    fn drop(self) {
        let Lease {
            alloc: _,
            program,
            limit: _,
            number: _,
            base,
            present,
            stands: _,
            seat,
            of: _,
        } = self;
        drop(program);
        drop(base);
        drop(present);
        drop(seat);
    }
}

impl<B: BookName> Model for Lease<B> {
    ghost use Rattle.std.specs.Prelude.{◌≡◌, true};
    ghost use Rattle.std.specs.Option.{is_some};
    ghost use Rattle.std.specs.Arc.{arc_value};
    ghost use Rattle.bytecode.specs.Machine.{code_kind};
    ghost use Rattle.word.specs.Kinds.{asks};
    ghost use Rattle.book.specs.Desks.{Held};
    ghost use Rattle.book.specs.Leases.{IsHeldBy};
    ghost use Rattle.clock_table.specs.Seats.{lease_clock, lease_slot};

    ghost Value = { Held };

    ghost view = { λ l. record { code = arc_value l.program; limit = l.limit; number = l.number; base = l.base.value; present = l.present; slot = lease_slot l.seat; published = lease_clock l.seat } };

    ghost invariant = { λ l. IsHeldBy B.table B.code B.limit (record { code = arc_value l.program; limit = l.limit; number = l.number; base = l.base.value; present = l.present; slot = lease_slot l.seat; published = lease_clock l.seat }) l.seat
        × (l.stands ≡ true → is_some (asks (code_kind (arc_value l.program)) l.limit l.present) ≡ true) };
}

impl<B: BookName> Lease<B> {
    /// Makes at most `quantum` local steps, up to a request; returns whether the goroutine is then at one. Its clock is
    /// published then.
    pub fn work(&mut self, quantum: u32) -> Result<bool, Memory>
        ensures asks { IfOk result (λ asking. asking ≡ is_some (asks (code_kind self.old.code) self.old.limit self.new.present)) }
        ensures quantum { IfOk result (λ asking. asking ≡ false → steps self.old.code self.old.limit quantum self.old.present ≡ self.new.present) }
        ensures steps { Goes self.old.code self.old.limit quantum self.old.present self.new.present }
        ensures same { self.new ≡ record self.old { present = self.new.present; published = self.new.present.clock } }
    {
        let asking = self
            .present
            .step_ahead(self.alloc, &self.program, self.limit, quantum);
        self.stands = is_yes(&asking);
        self.seat.advance(&self.present);
        Ok(asking?)
    }

    /// The goroutine's number.
    pub fn number(&self) -> u64
        ensures { result ≡ self.now.number }
    {
        self.number
    }

    /// Whether the goroutine is at a request.
    pub fn is_asking(&self) -> bool
        ensures { result ≡ is_some (asks (code_kind self.now.code) self.now.limit self.now.present) }
    {
        self.stands || self.present.is_asking(&self.program, self.limit)
    }

    /// The goroutine's clock and number.
    pub fn key(&self) -> Key
        ensures { result ≡ record { clock = self.now.present.clock; number = self.now.number } }
    {
        Key {
            clock: self.present.clock(),
            number: self.number,
        }
    }

    /// The program, the state to which local steps alone led, and the seat at the table.
    pub(crate) fn into_parts(self) -> (Arc<Verified>, GoState, LeaseSeat)
        ensures program { (arc_value result.0 ≡ B.code) × (self.code ≡ B.code) × (self.limit ≡ B.limit) }
        ensures present { result.1 ≡ self.present }
        ensures state { IsStateOf self.code self.limit self.present }
        ensures leads { Leads (rules (code_kind self.code) self.limit) self.base self.present }
        ensures seat { (lease_table result.2 ≡ B.table) × (lease_loan result.2 ≡ loan_for self.code self.limit self.number self.base) × (lease_slot result.2 ≡ self.slot) × (lease_clock result.2 ≡ self.published) }
    {
        let Lease {
            alloc: _,
            program,
            limit: _,
            number: _,
            base: _,
            present,
            stands: _,
            seat,
            of: _,
        } = self;
        (program, present, seat)
    }

    /// A goroutine that is lent in this state.
    pub(crate) fn new(
        alloc: Global,
        program: Arc<Verified>,
        limit: u64,
        number: u64,
        present: GoState,
        seat: LeaseSeat,
    ) -> Lease<B>
        requires run { (arc_value program ≡ B.code) × (limit ≡ B.limit) }
        requires state { IsStateOf (arc_value program) limit present }
        requires seat { (lease_table seat ≡ B.table) × (lease_loan seat ≡ loan_for (arc_value program) limit number present) × (lease_clock seat ≡ present.clock) }
        ensures { result ≡ record { code = arc_value program; limit = limit; number = number; base = present; present = present; slot = lease_slot seat; published = present.clock } }
    {
        Lease {
            alloc,
            program,
            limit,
            number,
            base: Snapshot::of(&present),
            present,
            stands: false,
            seat,
            of: PhantomData,
        }
    }
}

/// Whether `answer` says that a goroutine is at a request.
fn is_yes(answer: &Result<bool, Memory>) -> bool
    ensures { result ≡ true → answer.now ≡ Ok true }
{
    match answer {
        Ok(asking) => *asking,
        Err(_) => false,
    }
}
