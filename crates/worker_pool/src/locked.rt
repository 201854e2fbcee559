//! What is under the lock of a run.

ghost use Rattle.std.specs.Prelude.{◌≡◌, ◌+◌, [], IfOk, IfSome, OnOk, length};
ghost use Rattle.book.specs.Handing.{HasEnded};
ghost use Rattle.book.specs.Runs.{IsHanded, output_run, trace_run};

use book::handed::Handed;
use book::run_book::RunBook;
use book::run_name::{Printed, RunLease, RunName, Traced};
use go_text::Memory;
use output::Piece;
use std::sync::Wait;
use std::sync::atomic::{AtomicU64, Ordering};
use std::sync::ledger::{Book, Share};
use workers::{Back, CAPACITY, Signals, Turn, WorkQueues};
use world_core_base::Talked;

/// How many local steps a goroutine that talks makes at most between two requests.
const FEW_STEPS: u32 = 8192;

/// How many bytes of the output and the trace together may be committed and not yet handed out before no worker goes on.
const MOST_UNWRITTEN: usize = 8 << 20;

/// How many times goroutines that talk go on at most before a lease is given out again.
const TALKS: u32 = 256;

/// How many moves they make at least each time, if nobody reads the trace and nothing else is to be done first. A move is a way to a
/// request, or an event.
const MOVES: u32 = 64;

/// The book of a run, and the signals between its threads.
#[derive(Drop)]
pub(crate) struct Locked<B: RunName> {
    run: RunBook<B>,
    /// How many bytes of the output were handed out.
    printed: Book<Printed<B>>,
    /// How many bytes of the trace.
    traced: Book<Traced<B>>,
    pub signals: Signals,
    ghost counted: { run.book.taken ≡ printed.total },
    ghost lines: { run.book.traced ≡ traced.total },
}

impl<B: RunName> Locked<B> {
    /// The book of this run, of which nothing was handed out.
    pub fn new(run: RunBook<B>, printed: Book<Printed<B>>, traced: Book<Traced<B>>) -> Locked<B>
        requires printed { run.book.taken ≡ printed.total }
        requires traced { run.book.traced ≡ traced.total }
    {
        Locked {
            run,
            printed,
            traced,
            signals: Signals::new(),
        }
    }

    /// Takes what a worker comes back with, and commits all that can be committed. Once the run is over, as after another
    /// worker's `Memory`, nothing is tried any more.
    pub fn take_back(&mut self, back: Back<RunLease<B>>) {
        if self.signals.is_over() {
            return;
        }
        match back {
            Back::Begun => {}
            Back::Talking(lease) | Back::Asking(lease) | Back::Running(lease) => self.bring(lease),
            Back::NoMemory => self.signals.stop(),
        }
    }

    /// Whether the workers are to wait until more is written. Once the run is over nobody waits.
    pub fn is_full(&self) -> bool {
        self.has_much() && !self.signals.is_over()
    }

    /// Whether more is committed and not yet handed out than is to be kept.
    #[inline(always)]
    fn has_much(&self) -> bool {
        self.run.unwritten() > MOST_UNWRITTEN
    }

    /// The clock of the last committed event.
    pub fn clock(&self) -> u64 {
        self.run.clock().time()
    }

    /// Whether a worker watches, and there is a lease for it: in the book, or in a queue that was reported as filled.
    pub fn wants_call(&self, filled: bool) -> bool {
        self.signals.may_call() && (filled || self.run.may_lend())
    }

    /// What a worker with these queues does next. Of those that yield one gets leases: two whose leases are short would only
    /// wait for one another here.
    pub fn turn<R: Wait>(
        &mut self,
        rt: &R,
        yields: bool,
        queues: &mut WorkQueues<RunLease<B>>,
    ) -> Turn<RunLease<B>> {
        if self.signals.is_over() {
            return Turn::Leave;
        }
        if yields && self.signals.is_talking() {
            return idle_turn(&mut self.signals);
        }
        let found = if yields {
            self.short_lease(rt, queues)
        } else {
            self.long_lease(rt, queues)
        };
        match found {
            Ok(Some(lease)) => Turn::Work(lease),
            Ok(None) => idle_turn(&mut self.signals),
            Err(Memory) => {
                self.signals.stop();
                Turn::Leave
            }
        }
    }

    /// A lease for a worker whose goroutines talk: of the book, one at a time, since it comes back at once; else of a queue.
    fn short_lease<R: Wait>(
        &mut self,
        rt: &R,
        queues: &mut WorkQueues<RunLease<B>>,
    ) -> Result<Option<RunLease<B>>, Memory> {
        match self.lend()? {
            Some(lease) => Ok(Some(lease)),
            None => Ok(queues.take(rt)),
        }
    }

    /// A lease for a worker whose goroutines compute: of a queue; else of the book, with all others that can be lent put into
    /// its queue, where workers without a lease find them. It is a call, so that a worker whose goroutines talk
    /// skips what it doesn't need.
    #[inline(never)]
    fn long_lease<R: Wait>(
        &mut self,
        rt: &R,
        queues: &mut WorkQueues<RunLease<B>>,
    ) -> Result<Option<RunLease<B>>, Memory> {
        match queues.take(rt) {
            Some(lease) => Ok(Some(lease)),
            None => self.lend_many(rt, queues),
        }
    }

    /// A lease of the book, with all others that can be lent put into the worker's queue.
    fn lend_many<R: Wait>(
        &mut self,
        rt: &R,
        queues: &mut WorkQueues<RunLease<B>>,
    ) -> Result<Option<RunLease<B>>, Memory> {
        let Some(lease) = self.lend()? else {
            return Ok(None);
        };
        match self.lend_more(rt, queues) {
            Ok(()) => Ok(Some(lease)),
            Err(Memory) => {
                drop(lease);
                Err(Memory)
            }
        }
    }

    /// Lends as many as a queue holds, and puts them into the worker's own. What comes back since it is full is brought back.
    fn lend_more<R: Wait>(
        &mut self,
        rt: &R,
        queues: &mut WorkQueues<RunLease<B>>,
    ) -> Result<(), Memory> {
        for _ in 0..CAPACITY {
            let Some(lease) = self.lend()? else {
                break;
            };
            if let Err(lease) = queues.put(rt, lease) {
                self.run.bring(lease);
                break;
            }
        }
        Ok(())
    }

    /// Lends a goroutine, if there is one to be lent.
    #[inline(always)]
    fn lend(&mut self) -> Result<Option<RunLease<B>>, Memory> {
        let lease = self.run.lend()?;
        if lease.is_some() {
            self.signals.count_turn();
        }
        Ok(lease)
    }

    /// What there is to write, and the end, if the run has ended.
    pub fn next(
        &mut self,
        printed: &mut Share<Printed<B>>,
        traced: &mut Share<Traced<B>>,
    ) -> Result<Handed<B>, Memory>
        requires { (printed.old.parts ≡ 1) × (traced.old.parts ≡ 1) }
        ensures parts { (printed.new.parts ≡ 1) × (traced.new.parts ≡ 1) }
        ensures output { IfOk result (λ h. (h.output.from ≡ printed.old.amount) × (printed.new.amount ≡ printed.old.amount + length h.output.bytes.items)) }
        ensures trace { IfOk result (λ h. (h.trace.from ≡ traced.old.amount) × (traced.new.amount ≡ traced.old.amount + length h.trace.bytes.items)) }
    {
        if self.signals.is_stopped() {
            return Err(Memory);
        }
        let end = self.run.settle_all()?;
        self.signals.settle(end);
        let output = self.take_output(printed)?;
        let trace = self.take_trace(traced)?;
        Ok(Handed::new(output, trace, end))
    }

    /// Goroutines that talk make their steps under the lock, one after the other and without a lease, and their requests are
    /// committed. That ends if one computes, if there is none, if another worker whose goroutines talk is out, if a thread
    /// comes to the lock, if much is to be written, or after some turns.
    pub fn talk(&mut self, coming: &AtomicU64) {
        if self.signals.is_over() || self.signals.is_talking() {
            return;
        }
        for _ in 0..TALKS {
            if coming.load(Ordering::SeqCst) > 0 || self.has_much() {
                break;
            }
            match self.talk_once() {
                Ok(true) => {}
                Ok(false) => break,
                Err(Memory) => return self.signals.stop(),
            }
        }
        self.settle();
    }

    /// One turn of that, after moves of those that send and receive words. Returns whether another turn may follow.
    #[inline(always)]
    fn talk_once(&mut self) -> Result<bool, Memory> {
        if !self.run.traces() && matches!(self.run.talk(FEW_STEPS, MOVES)?, Talked::Running) {
            return Ok(false);
        }
        let asking = self.run.work(FEW_STEPS)?;
        let committed = self.run.settle_one()?;
        self.signals.count_turn();
        Ok(asking.unwrap_or(committed))
    }

    /// Puts a lease back, and commits all that can be committed.
    fn bring(&mut self, lease: RunLease<B>) {
        self.run.bring(lease);
        self.settle();
    }

    /// Commits all that can be committed.
    fn settle(&mut self) {
        match self.run.settle_all() {
            Ok(end) => self.signals.settle(end),
            Err(Memory) => self.signals.stop(),
        }
    }

    /// The bytes of the output that were not yet handed out.
    fn take_output(&mut self, mine: &mut Share<Printed<B>>) -> Result<Piece, Memory>
        requires { mine.old.parts ≡ 1 }
        ensures parts { mine.new.parts ≡ 1 }
        ensures piece { IfOk result (IsHanded (output_run B.code B.limit)) }
        ensures place { IfOk result (λ piece. (piece.from ≡ self.old.run.book.taken) × (piece.bytes.items ≡ self.old.run.book.pending)) }
        ensures taken { OnOk result (self.new.run.book ≡ record self.old.run.book { taken = self.old.run.book.taken + length self.old.run.book.pending; pending = [] }) }
        ensures share { IfOk result (λ piece. (piece.from ≡ mine.old.amount) × (mine.new.amount ≡ mine.old.amount + length piece.bytes.items)) }
    {
        let Locked { run, printed, .. } = self;
        printed.audit(mine);
        let piece = run.take_output()?;
        printed.add(mine, piece.bytes.len() as u64);
        Ok(piece)
    }

    /// The bytes of the trace that were not yet handed out.
    fn take_trace(&mut self, mine: &mut Share<Traced<B>>) -> Result<Piece, Memory>
        requires { mine.old.parts ≡ 1 }
        ensures parts { mine.new.parts ≡ 1 }
        ensures piece { IfOk result (IsHanded (trace_run B.code B.limit)) }
        ensures place { IfOk result (λ piece. (piece.from ≡ self.old.run.book.traced) × (piece.bytes.items ≡ self.old.run.book.lines)) }
        ensures share { IfOk result (λ piece. (piece.from ≡ mine.old.amount) × (mine.new.amount ≡ mine.old.amount + length piece.bytes.items)) }
    {
        let Locked { run, traced, .. } = self;
        traced.audit(mine);
        let piece = run.take_trace()?;
        traced.add(mine, piece.bytes.len() as u64);
        Ok(piece)
    }
}

/// The next turn of a worker to which nothing can be lent.
fn idle_turn<B: RunName>(signals: &mut Signals) -> Turn<RunLease<B>> {
    if signals.begin_watch() {
        Turn::Watch
    } else {
        Turn::Wait
    }
}
