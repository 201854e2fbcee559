//! The book of a run.

ghost use Rattle.std.specs.Prelude.{◌≡◌, ◌+◌, ◌<◌, ◌≤◌, ◌^◌, ◌↔◌, ◌⊎◌, [], IfErr, IfNone, IfOk, IfSome, IsErrOf, IsTrue, MatchOption, None, OnErr, OnOk, Some, false, length, slice_index_or, true};
ghost use Rattle.std.specs.Arc.{arc_value};
ghost use Rattle.std.specs.Option.{is_some};
ghost use Rattle.output.specs.Progress.{piece_run};
ghost use Rattle.output.specs.declared.piece.Kind.TheVariants.{Output, Trace};
ghost use Rattle.logical_clock.specs.Order.{keys, least};
ghost use Rattle.turn_rule.specs.declared.Row.{Row};
ghost use Rattle.turn_rule.specs.Schedule.{has_turn};
ghost use Rattle.clock_table.specs.Clocks.{IsFree, WasLent, loan_for, row as word_at};
ghost use Rattle.clock_table.specs.Seats.{table_of};
ghost use Rattle.world_core_base.specs.Slots.{IsBefore, State, waiting_clock};
ghost use Rattle.word.specs.declared.request.Event.{Event as Recorded};
ghost use Rattle.word.specs.Views.{event_of};
ghost use Rattle.world_core_base.specs.Cores.{HasLease, HasTurn, IsFreeIn, Works, no_event, to_lend};
ghost use Rattle.world_core_base.specs.Talking.{FailsTalk, Talks};
ghost use Rattle.book.specs.Desks.{CommitsNext, IsDesk, IsLent, IsPiece, IsSeen, IsSight, IsTracePiece, KeepsLeases, OnlyLooks, Settles, Sighting, Waits, brought, lent_desk, opened_desk, seen_desk, settled_by};

use crate::blank::Blank;
use crate::kept_lines::{append_kept, reserve_kept};
use crate::lease::Lease;
use crate::name::BookName;
use crate::settled::{Reached, Settled};
use crate::slots::Slots;
use go_text::{Fault, Memory};
use goroutine_vm::{GoState, Sleeping};
use logical_clock::{Clock, Key, LAST};
use output::{Kind, Piece};
use std::alloc::Global;
use std::marker::Model;
use std::mem;
use std::sync::Arc;
use verifier::Verified;
use word::end::End;
use word::request::Event;
use world_core_base::{Core, Talked, blank_event};

/// The book of a run: what is committed, which goroutines are lent, and the bytes of the output and the trace not yet taken out.
pub struct Book<B: BookName> {
    alloc: Global,
    program: Arc<Verified>,
    limit: u64,
    core: Core,
    /// How many bytes of the output were taken out.
    taken: u128,
    /// The bytes of the output that were not taken out.
    pending: Vec<u8>,
    /// Whether the lines of the trace are kept: they are if the trace is read.
    traces: bool,
    /// How many bytes of the trace were taken out.
    traced: u128,
    /// The bytes of the trace that were not taken out.
    lines: Vec<u8>,
    /// The clocks that leases publish.
    slots: Slots<B>,
}

impl<B: BookName> Drop for Book<B> {
    fn drop(self) {
        let Book {
            alloc: _,
            program,
            limit: _,
            core,
            taken: _,
            pending,
            traces: _,
            traced: _,
            lines,
            slots,
        } = self;
        drop(program);
        drop(core);
        drop(pending);
        drop(lines);
        drop(slots);
    }
}

impl<B: BookName> Model for Book<B> {
    ghost use Rattle.std.specs.Arc.{arc_value};
    ghost use Rattle.clock_table.specs.Seats.{rows as words_of, seat_looks};
    ghost use Rattle.book.specs.Desks.{Desk};
    ghost use Rattle.book.specs.Slots.{IsBook};

    ghost Value = { Desk };

    ghost view = { λ b. record { code = arc_value b.program; limit = b.limit; core = b.core; taken = b.taken; pending = b.pending.items; traces = b.traces; traced = b.traced; lines = b.lines.items; words = words_of b.slots.seat; looks = seat_looks b.slots.seat } };

    ghost invariant = { λ b. IsBook B.code B.limit (record { code = arc_value b.program; limit = b.limit; core = b.core; taken = b.taken; pending = b.pending.items; traces = b.traces; traced = b.traced; lines = b.lines.items; words = words_of b.slots.seat; looks = seat_looks b.slots.seat }) b.slots.places };
}

impl<B: BookName> Book<B> {
    /// The book of this program under this clock limit, 1 to 2^62, which keeps the lines of the trace: no event is committed,
    /// goroutine 1 is alone, and no slot of its table is lent.
    pub fn open(blank: Blank, program: Arc<Verified>, limit: u64) -> Result<Book<B>, Fault>
        requires { (arc_value program ≡ B.code) × (limit ≡ B.limit) × (table_of blank.table ≡ B.table) }
        ensures book { IfOk result (λ book. book ≡ opened_desk (arc_value program) limit true) }
        ensures bad_limit { IsErrOf result Fault.BadLimit ↔ ((limit ≡ 0) ⊎ (2 ^ 62 < limit)) }
        ensures only { IfErr result (λ e. (e ≡ Fault.BadLimit) ⊎ (e ≡ Fault.Memory)) }
    {
        Book::open_tracing(blank, program, limit, true)
    }

    /// Like `open`, but keeps the lines of the trace only if `traces`; otherwise none are made.
    pub fn open_tracing(
        blank: Blank,
        program: Arc<Verified>,
        limit: u64,
        traces: bool,
    ) -> Result<Book<B>, Fault>
        requires { (arc_value program ≡ B.code) × (limit ≡ B.limit) × (table_of blank.table ≡ B.table) }
        ensures book { IfOk result (λ book. book ≡ opened_desk (arc_value program) limit traces) }
        ensures bad_limit { IsErrOf result Fault.BadLimit ↔ ((limit ≡ 0) ⊎ (2 ^ 62 < limit)) }
        ensures only { IfErr result (λ e. (e ≡ Fault.BadLimit) ⊎ (e ≡ Fault.Memory)) }
    {
        if limit == 0 || limit > LAST {
            return Err(Fault::BadLimit);
        }
        let alloc = blank.alloc;
        let core = Core::open(alloc, &program)?;
        let slots = Slots::new(blank)?;
        Ok(Book {
            alloc,
            program,
            limit,
            core,
            taken: 0,
            pending: Vec::new(alloc),
            traces,
            traced: 0,
            lines: Vec::new(alloc),
            slots,
        })
    }

    /// How many events are committed: the first ones of the one-thread run.
    pub fn events(&self) -> u64
        ensures events { result ≡ self.now.core.events }
        ensures stands { IsDesk self.now }
    {
        self.core.events()
    }

    /// One more than the number of goroutines that the run has started, `main`'s included: goroutines have the numbers from 1 up to it.
    pub fn next_number(&self) -> u64
        ensures { result ≡ length self.now.core.rows }
    {
        self.core.count()
    }

    /// The state of goroutine `number`, if it is awake and not lent.
    pub fn awake(&self, number: u64) -> Option<&GoState>
        ensures none { IfNone result (IfSome (slice_index_or self.now.core.rows number None) (λ row. is_some row.lease ≡ true)) }
        ensures some { IfSome result (λ state. (row : Row State) × (slice_index_or self.now.core.rows number None ≡ Some row) × (row.lease ≡ None) × (state.now ≡ row.state)) }
    {
        self.core.awake(number)
    }

    /// Goroutine `number`, if it is asleep.
    pub fn asleep(&self, number: u64) -> Option<&Sleeping>
        ensures none { IfNone result (slice_index_or self.now.core.beds number None ≡ None) }
        ensures some { IfSome result (λ sleeping. slice_index_or self.now.core.beds number None ≡ Some sleeping.now) }
    {
        self.core.asleep(number)
    }

    /// Lends the goroutine of least key of those that are awake and neither lent nor parked; none if there is none, or
    /// if the run has ended. Its clock is published before its lease exists.
    #[inline(always)]
    pub fn lend(&mut self) -> Result<Option<Lease<B>>, Memory>
        ensures none { IfOk result (λ found. IfNone found ((to_lend self.old.core ≡ None) × (self.new ≡ self.old))) }
        ensures key { IfOk result (λ found. IfSome found (λ l. to_lend self.old.core ≡ Some (record { clock = l.base.clock; number = l.number }))) }
        ensures lease { IfOk result (λ found. IfSome found (λ l. IsFreeIn self.old.core.rows l.number l.base × (l.present ≡ l.base) × (l.published ≡ l.base.clock) × IsLent self.new l)) }
        ensures free { IfOk result (λ found. IfSome found (λ l. IsFree (word_at self.old.words l.slot))) }
        ensures lent { IfOk result (λ found. IfSome found (λ l. self.new ≡ lent_desk self.old l)) }
        ensures memory { OnErr result (self.new ≡ self.old) }
    {
        let Some((number, state)) = self.core.lend_least() else {
            return Ok(None);
        };
        match self.slots.lend(&self.program, self.limit, number, &state) {
            Ok((program, seat)) => {
                let lease = Lease::new(self.alloc, program, self.limit, number, state, seat);
                Ok(Some(lease))
            }
            Err(Memory) => {
                self.core.take_back(number, state, false);
                Err(Memory)
            }
        }
    }

    /// Whether there is a goroutine to lend.
    pub fn may_lend(&self) -> bool
        ensures { result ≡ is_some (to_lend self.now.core) }
    {
        self.core.may_lend()
    }

    /// Puts the present state of a lease back; after an end that changes nothing but its slot, which is free again.
    #[inline(always)]
    pub fn bring(&mut self, lease: Lease<B>)
        ensures out { IsLent self.old lease }
        ensures looks { WasLent (loan_for self.old.code self.old.limit lease.number lease.base) lease.published (word_at self.old.words lease.slot) }
        ensures brought { self.new ≡ brought self.old lease }
    {
        let parked = lease.is_asking();
        let number = lease.number();
        let (program, present, seat) = lease.into_parts();
        self.slots.take_back(program, number, seat);
        match self.core.ending() {
            None => self.core.take_back(number, present, parked),
            Some(_) => {}
        }
    }

    /// The goroutine that would be lent makes at most `quantum` local steps without a lease, up to a request, and is parked if it then
    /// makes one. Returns whether it does; none if no goroutine can be lent. Without a lease its clock is not published: the caller
    /// sees it in the book.
    ///
    /// Errors: out of memory, when some of the steps may be made.
    pub fn work(&mut self, quantum: u32) -> Result<Option<bool>, Memory>
        ensures none { IfOk result (λ found. IfNone found ((to_lend self.old.core ≡ None) × (self.new.core ≡ self.old.core))) }
        ensures works { IfOk result (λ found. IfSome found (λ asking. Works self.old.code self.old.limit quantum self.old.core (Some asking) self.new.core)) }
        ensures memory { OnErr result (Works self.old.code self.old.limit quantum self.old.core None self.new.core) }
        ensures rest { self.new ≡ record self.old { core = self.new.core } }
        ensures leases { KeepsLeases self.old self.new }
    {
        self.core
            .work_least(self.alloc, &self.program, self.limit, quantum)
    }

    /// Goroutines that send and receive single words make moves, one after the other, at least `moves` unless something else is to be
    /// done first. A move is a goroutine's way to its request, in at most `quantum` local steps and without a lease, or the event of the one
    /// that has the turn. No lines of the trace are made, so none may be wanted.
    ///
    /// Errors: out of memory, when some of the moves and steps may be made.
    #[inline(always)]
    pub fn talk(&mut self, quantum: u32, moves: u32) -> Result<Talked, Memory>
        requires { self.old.traces ≡ false }
        ensures talks { IfOk result (λ came. Talks self.old.code self.old.limit quantum moves self.old.core came self.new.core) }
        ensures memory { OnErr result (FailsTalk self.old.code self.old.limit quantum self.old.core self.new.core) }
        ensures rest { self.new ≡ record self.old { core = self.new.core } }
        ensures leases { KeepsLeases self.old self.new }
    {
        self.core
            .talk(self.alloc, &self.program, self.limit, quantum, moves)
    }

    /// Whether the lines of the trace are kept.
    #[inline(always)]
    pub fn traces(&self) -> bool
        ensures { result ≡ self.now.traces }
    {
        self.traces
    }

    /// Commits the next event of the one-thread run, or reports which goroutine stands before it, or how the run has ended. Every
    /// lease that is out stays out. A lent goroutine is only waited for after a look at its published clock.
    pub fn settle(&mut self) -> Result<Settled, Memory>
        ensures settles { IfOk result (λ s. Settles self.old s self.new) }
        ensures leases { KeepsLeases self.old self.new }
        ensures memory { OnErr result (OnlyLooks self.old self.new) }
    {
        let mut event = self.blank_event();
        match self.settle_into(&mut event)? {
            Reached::Committed => Ok(Settled::Committed(event)),
            Reached::Waiting(number) => Ok(Settled::Waiting(number)),
            Reached::Ended(end) => Ok(Settled::Ended(end)),
        }
    }

    /// Like `settle`, but writes the event to `event`, whose old contents are ignored.
    #[inline(always)]
    pub fn settle_into(&mut self, event: &mut Event) -> Result<Reached, Memory>
        ensures settles { IfOk result (λ r. Settles self.old (settled_by r event.new) self.new) }
        ensures leases { KeepsLeases self.old self.new }
        ensures memory { OnErr result (OnlyLooks self.old self.new) }
    {
        if let Some(end) = self.core.ending() {
            return Ok(Reached::Ended(end));
        }
        let Some(key) = self.core.least_parked() else {
            return Ok(self.nobody_parked());
        };
        if let Some(number) = self.first_before(&key) {
            return Ok(Reached::Waiting(number));
        }
        self.commit(key.number, event)?;
        Ok(Reached::Committed)
    }

    /// An event to be overwritten by `settle_into`.
    pub fn blank_event(&self) -> Event
        ensures { event_of result ≡ no_event }
    {
        blank_event(self.alloc)
    }

    /// The result of a settling if no goroutine is parked.
    #[inline(never)]
    fn nobody_parked(&mut self) -> Reached
        requires ending { self.old.core.ending ≡ None }
        requires parked { least (keys waiting_clock 0 self.old.core.rows) ≡ None }
        ensures settles { (event : Recorded) → Settles self.old (settled_by result event) self.new }
        ensures leases { KeepsLeases self.old self.new }
    {
        let Some(number) = self.core.first_awake() else {
            return Reached::Ended(End::Deadlock);
        };
        if !self.is_lent(number) {
            return Reached::Waiting(number);
        }
        self.look(number);
        Reached::Waiting(number)
    }

    /// The goroutine that stands before the key of the goroutine that is parked first, even after a look at the published
    /// clocks.
    #[inline(always)]
    fn first_before(&mut self, key: &Key) -> Option<u64>
        requires ending { self.old.core.ending ≡ None }
        requires least { least (keys waiting_clock 0 self.old.core.rows) ≡ Some key.now }
        ensures none { IfNone result (OnlyLooks self.old self.new × HasTurn self.new.core key.now.number) }
        ensures some { IfSome result (λ n. Waits self.old n self.new) }
    {
        let Some(number) = self.blocker(key) else {
            return None;
        };
        if !self.is_lent(number) {
            return Some(number);
        }
        self.look_before(key)
    }

    /// Like `first_before`, if a lent goroutine stands before the key by its clock as it was last looked at. No goroutine is looked
    /// at twice.
    #[inline(never)]
    fn look_before(&mut self, key: &Key) -> Option<u64>
        requires ending { self.old.core.ending ≡ None }
        requires least { least (keys waiting_clock 0 self.old.core.rows) ≡ Some key.now }
        ensures none { IfNone result (OnlyLooks self.old self.new × HasTurn self.new.core key.now.number) }
        ensures some { IfSome result (λ n. Waits self.old n self.new) }
    {
        while let Some(number) = self.blocker(key) {
            if !self.is_lent(number) {
                return Some(number);
            }
            self.look(number);
            if self.stands_before(number, key) {
                return Some(number);
            }
        }
        None
    }

    /// The goroutine that stands before the key; none if the key has the turn.
    #[inline(always)]
    fn blocker(&self, key: &Key) -> Option<u64>
        ensures stands { IsDesk self.now }
        ensures blocker { MatchOption result (has_turn key.now 0 self.now.core.rows ≡ true) (λ n. IsBefore self.now.core.rows key.now n) }
    {
        self.core.blocker(*key)
    }

    /// Whether goroutine `number` is awake, and lent.
    #[inline(always)]
    fn is_lent(&self, number: u64) -> bool
        ensures { IsTrue result ↔ HasLease self.now.core.rows number }
    {
        self.core.is_lent(number)
    }

    /// Whether goroutine `number` is awake, another one than that of the key, and the key is not below its floor.
    fn stands_before(&self, number: u64, key: &Key) -> bool
        ensures { IsTrue result ↔ IsBefore self.now.core.rows key.now number }
    {
        self.core.stands_before(number, *key)
    }

    /// Looks at the published clock of goroutine `number`, which is lent: it is its floor then.
    fn look(&mut self, number: u64)
        requires lent { HasLease self.old.core.rows number }
        requires ending { self.old.core.ending ≡ None }
        ensures { (x : Sighting) × (x.number ≡ number) × IsSight self.old x × (self.new ≡ seen_desk x self.old) }
    {
        let found = self.slots.look(number);
        self.core.raise(number, Clock::at(found));
    }

    /// Performs the request of the goroutine that has the turn.
    #[inline(always)]
    fn commit(&mut self, number: u64, event: &mut Event) -> Result<(), Memory>
        requires { HasTurn self.old.core number }
        ensures commits { OnOk result (CommitsNext self.old event.new self.new) }
        ensures leases { OnOk result (KeepsLeases self.old self.new) }
        ensures memory { OnErr result (self.new ≡ self.old) }
    {
        reserve_kept(self.traces, &mut self.lines, self.core.most_partners())?;
        self.core.perform(
            self.alloc,
            &self.program,
            self.limit,
            number,
            event,
            &mut self.pending,
        )?;
        append_kept(self.traces, &mut self.lines, event);
        Ok(())
    }

    /// How many bytes of the output and of the trace were committed and not yet taken out.
    #[inline(always)]
    pub fn unwritten(&self) -> usize
        ensures { result ≡ length self.now.pending + length self.now.lines }
    {
        self.pending.len() + self.lines.len()
    }

    /// The bytes of the output that were committed and not yet taken out.
    pub fn take_output(&mut self) -> Result<Piece, Memory>
        ensures run { IfOk result (λ piece. piece_run piece ≡ record { program = self.old.code; limit = self.old.limit; kind = Output }) }
        ensures place { IfOk result (λ piece. (piece.from ≡ self.old.taken) × (piece.bytes.items ≡ self.old.pending)) }
        ensures stands { IfOk result (λ piece. IsPiece self.old.code self.old.limit piece.from piece.bytes.items) }
        ensures taken { OnOk result (self.new ≡ record self.old { taken = self.old.taken + length self.old.pending; pending = [] }) }
        ensures memory { OnErr result (self.new ≡ self.old) }
    {
        let program = Arc::try_clone(&self.program)?;
        let bytes = mem::replace(&mut self.pending, Vec::new(self.alloc));
        let from = self.taken;
        self.taken = from + bytes.len() as u128;
        Ok(Piece {
            program,
            limit: self.limit,
            kind: Kind::Output,
            from,
            bytes,
        })
    }

    /// The lines of the trace that were committed and not yet taken out.
    pub fn take_trace(&mut self) -> Result<Piece, Memory>
        ensures run { IfOk result (λ piece. piece_run piece ≡ record { program = self.old.code; limit = self.old.limit; kind = Trace }) }
        ensures place { IfOk result (λ piece. (piece.from ≡ self.old.traced) × (piece.bytes.items ≡ self.old.lines)) }
        ensures stands { IfOk result (λ piece. IsTracePiece self.old.code self.old.limit piece.from piece.bytes.items) }
        ensures taken { OnOk result (self.new ≡ record self.old { traced = self.old.traced + length self.old.lines; lines = [] }) }
        ensures memory { OnErr result (self.new ≡ self.old) }
    {
        let program = Arc::try_clone(&self.program)?;
        let lines = mem::replace(&mut self.lines, Vec::new(self.alloc));
        let from = self.traced;
        self.traced = from + lines.len() as u128;
        Ok(Piece {
            program,
            limit: self.limit,
            kind: Kind::Trace,
            from,
            bytes: lines,
        })
    }
}
