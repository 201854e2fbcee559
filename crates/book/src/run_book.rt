//! The book of the run of a name.

ghost use Rattle.std.specs.Prelude.{◌≡◌, ◌+◌, [], IfErr, IfNone, IfOk, IfSome, None, OnErr, OnOk, Some, false, length};
ghost use Rattle.std.specs.Arc.{arc_value};
ghost use Rattle.std.specs.Option.{is_some};
ghost use Rattle.book.specs.Desks.{IsLent, KeepsLeases, OnlyLooks, brought, opened_desk};
ghost use Rattle.clock_table.specs.Clocks.{WasLent, loan_for, row as word_at};
ghost use Rattle.clock_table.specs.Seats.{table_of};
ghost use Rattle.whole_run.specs.Runs.{IsLimit};
ghost use Rattle.book.specs.Handing.{HasEnded, KeepsTaken};
ghost use Rattle.book.specs.Runs.{IsHanded, IsOfRun, output_run, trace_run};
ghost use Rattle.book.specs.Turns.{Lends, SettlesAll, SettlesOne, SettlesSome};
ghost use Rattle.world_core_base.specs.Cores.{Works, to_lend};
ghost use Rattle.world_core_base.specs.Talking.{FailsTalk, Talks};

use crate::blank::Blank;
use crate::book_model::Book;
use crate::run_name::{OfRun, RunLease, RunName};
use crate::settled::Reached;
use go_text::{Fault, Memory};
use logical_clock::Clock;
use output::Piece;
use std::sync::Arc;
use verifier::Verified;
use word::end::End;
use word::request::Event;
use world_core_base::Talked;

/// The book of this run.
pub struct RunBook<B: RunName> {
    pub book: Book<OfRun<B>>,
    /// The event to which each commit is written.
    event: Event,
    pub ghost ours: { IsOfRun B.code B.limit B.traces book },
}

impl<B: RunName> Drop for RunBook<B> {
    fn drop(self) {
        let RunBook { book, event } = self;
        drop(book);
        drop(event);
    }
}

impl<B: RunName> RunBook<B> {
    /// The book of the run, of which no event is committed. It makes lines of the trace or not.
    pub fn open(
        blank: Blank,
        program: Arc<Verified>,
        limit: u64,
        traces: bool,
    ) -> Result<RunBook<B>, Fault>
        requires name { (arc_value program ≡ B.code) × (limit ≡ B.limit) × (traces ≡ B.traces) × (table_of blank.table ≡ B.table) }
        requires limit { IsLimit limit }
        ensures book { IfOk result (λ run. run.book ≡ opened_desk B.code B.limit B.traces) }
        ensures only { IfErr result (λ fault. fault ≡ Fault.Memory) }
    {
        let book = Book::open_tracing(blank, program, limit, traces)?;
        let event = book.blank_event();
        Ok(RunBook { book, event })
    }

    /// Lends the goroutine of least key of those that are awake and neither lent nor parked; none if there is none, or if the run
    /// has ended.
    #[inline(always)]
    pub fn lend(&mut self) -> Result<Option<RunLease<B>>, Memory>
        ensures none { IfOk result (λ found. IfNone found ((to_lend self.old.book.core ≡ None) × (self.new.book ≡ self.old.book))) }
        ensures lent { IfOk result (λ found. IfSome found (λ l. Lends self.old.book l self.new.book)) }
        ensures memory { OnErr result (self.new.book ≡ self.old.book) }
        ensures taken { KeepsTaken self.old.book self.new.book }
    {
        self.book.lend()
    }

    /// The goroutine that would be lent makes at most `quantum` local steps without a lease, up to a request. Returns whether it
    /// then makes one; none if no goroutine can be lent.
    #[inline(always)]
    pub fn work(&mut self, quantum: u32) -> Result<Option<bool>, Memory>
        ensures none { IfOk result (λ found. IfNone found ((to_lend self.old.book.core ≡ None) × (self.new.book.core ≡ self.old.book.core))) }
        ensures works { IfOk result (λ found. IfSome found (λ asking. Works self.old.book.code self.old.book.limit quantum self.old.book.core (Some asking) self.new.book.core)) }
        ensures memory { OnErr result (Works self.old.book.code self.old.book.limit quantum self.old.book.core None self.new.book.core) }
        ensures rest { self.new.book ≡ record self.old.book { core = self.new.book.core } }
        ensures leases { KeepsLeases self.old.book self.new.book }
        ensures taken { KeepsTaken self.old.book self.new.book }
    {
        self.book.work(quantum)
    }

    /// Goroutines that send and receive single words make at least `moves` moves, unless something else is to be done first: each comes to
    /// its request in at most `quantum` local steps, or has the turn and its event is committed.
    #[inline(always)]
    pub fn talk(&mut self, quantum: u32, moves: u32) -> Result<Talked, Memory>
        requires { self.old.book.traces ≡ false }
        ensures talks { IfOk result (λ came. Talks self.old.book.code self.old.book.limit quantum moves self.old.book.core came self.new.book.core) }
        ensures memory { OnErr result (FailsTalk self.old.book.code self.old.book.limit quantum self.old.book.core self.new.book.core) }
        ensures rest { self.new.book ≡ record self.old.book { core = self.new.book.core } }
        ensures leases { KeepsLeases self.old.book self.new.book }
        ensures taken { KeepsTaken self.old.book self.new.book }
    {
        self.book.talk(quantum, moves)
    }

    /// Whether the lines of the trace are kept.
    #[inline(always)]
    pub fn traces(&self) -> bool
        ensures { result ≡ self.now.book.traces }
    {
        self.book.traces()
    }

    /// Whether there is a goroutine to lend.
    pub fn may_lend(&self) -> bool
        ensures { result ≡ is_some (to_lend self.now.book.core) }
    {
        self.book.may_lend()
    }

    /// Puts the present state of a lease back; after an end that changes nothing but its slot, which is free again.
    #[inline(always)]
    pub fn bring(&mut self, lease: RunLease<B>)
        ensures out { IsLent self.old.book lease }
        ensures looks { WasLent (loan_for self.old.book.code self.old.book.limit lease.number lease.base) lease.published (word_at self.old.book.words lease.slot) }
        ensures brought { self.new.book ≡ brought self.old.book lease }
        ensures taken { KeepsTaken self.old.book self.new.book }
    {
        self.book.bring(lease);
    }

    /// Commits the next event, and returns whether there was one to commit.
    #[inline(always)]
    pub fn settle_one(&mut self) -> Result<bool, Memory>
        ensures settles { IfOk result (λ committed. SettlesOne self.old.book committed self.new.book) }
        ensures memory { OnErr result (OnlyLooks self.old.book self.new.book) }
        ensures leases { KeepsLeases self.old.book self.new.book }
        ensures taken { KeepsTaken self.old.book self.new.book }
    {
        let reached = self.book.settle_into(&mut self.event)?;
        Ok(matches!(reached, Reached::Committed))
    }

    /// Commits all that can be committed, and returns the end if the run has ended. A run has at most 2^62 events.
    pub fn settle_all(&mut self) -> Result<Option<End>, Memory>
        ensures settles { IfOk result (λ found. SettlesAll self.old.book found self.new.book) }
        ensures memory { OnErr result (SettlesSome self.old.book self.new.book) }
        ensures leases { KeepsLeases self.old.book self.new.book }
        ensures end { IfOk result (λ found. IfSome found (HasEnded self.new.book)) }
        ensures taken { KeepsTaken self.old.book self.new.book }
    {
        'events: for _ in 0..u64::MAX {
            match self.book.settle_into(&mut self.event)? {
                Reached::Committed => {}
                Reached::Waiting(_) => return Ok(None),
                Reached::Ended(end) => return Ok(Some(end)),
            }
        }
        Err(Memory)
    }

    /// The clock of the last committed event, before it; 0 if none is committed.
    pub fn clock(&self) -> Clock
        ensures { result ≡ self.now.event.clock }
    {
        self.event.clock
    }

    /// How many bytes of the output and of the trace were committed and not yet taken out.
    #[inline(always)]
    pub fn unwritten(&self) -> usize
        ensures { result ≡ length self.now.book.pending + length self.now.book.lines }
    {
        self.book.unwritten()
    }

    /// The bytes of the output that were committed and not yet taken out.
    pub fn take_output(&mut self) -> Result<Piece, Memory>
        ensures piece { IfOk result (IsHanded (output_run B.code B.limit)) }
        ensures place { IfOk result (λ piece. (piece.from ≡ self.old.book.taken) × (piece.bytes.items ≡ self.old.book.pending)) }
        ensures taken { OnOk result (self.new.book ≡ record self.old.book { taken = self.old.book.taken + length self.old.book.pending; pending = [] }) }
        ensures memory { OnErr result (self.new.book ≡ self.old.book) }
    {
        let piece = self.book.take_output()?;
        Ok(piece)
    }

    /// The bytes of the trace that were committed and not yet taken out.
    pub fn take_trace(&mut self) -> Result<Piece, Memory>
        ensures piece { IfOk result (IsHanded (trace_run B.code B.limit)) }
        ensures place { IfOk result (λ piece. (piece.from ≡ self.old.book.traced) × (piece.bytes.items ≡ self.old.book.lines)) }
        ensures taken { OnOk result (self.new.book ≡ record self.old.book { traced = self.old.book.traced + length self.old.book.lines; lines = [] }) }
        ensures memory { OnErr result (self.new.book ≡ self.old.book) }
    {
        let piece = self.book.take_trace()?;
        Ok(piece)
    }
}
