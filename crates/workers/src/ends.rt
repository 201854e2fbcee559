//! The two ends of a queue: the worker that puts into it and takes from it, and those that only take.

ghost use Rattle.std.specs.Prelude.{◌≡◌, ◌≤◌, ◌^◌, ◌⊎◌, IfErr, IfNone, IfOk, IfSome, OnErr, OnOk};
ghost use Rattle.std.specs.Arc.{arc_value};
ghost use Rattle.workers.specs.declared.work_queues.TheConstants.{CAPACITY};
ghost use Rattle.run_queue.specs.Passes.{IsPutOf, IsTakeOf, capacity_of, put_count, put_view, take_view};
ghost use Rattle.run_queue.specs.Turns.{IsAllTaken, IsFull, PutsOne, TakesOne};

use crate::work_queues::CAPACITY;
use go_text::Memory;
use run_queue::{PutPass, RunQueue, TakePass};
use std::alloc::Global;
use std::sync::{Arc, Wait};

/// The queue of a worker, into which it alone puts.
#[derive(Drop)]
pub(crate) struct Owner<T: Drop> {
    pub queue: Arc<RunQueue<T>>,
    pub puts: PutPass<T>,
    pub takes: TakePass<T>,
    pub ghost its_puts: { IsPutOf (arc_value queue) puts },
    pub ghost its_takes: { IsTakeOf (arc_value queue) takes },
    pub ghost size: { capacity_of (arc_value queue) ≡ CAPACITY },
}

/// The queue of another worker, from which any may take.
#[derive(Drop)]
pub(crate) struct Stealer<T: Drop> {
    pub queue: Arc<RunQueue<T>>,
    pub pass: TakePass<T>,
    pub ghost ours: { IsTakeOf (arc_value queue) pass },
}

impl<T: Drop> Owner<T> {
    ghost use Rattle.workers.specs.Views.{LooksInto, TakesOwn};

    /// An empty queue.
    pub fn new(alloc: Global) -> Result<Owner<T>, Memory> {
        let (queue, puts, takes) = RunQueue::new(alloc, CAPACITY)?;
        let queue = Arc::new(alloc, queue)?;
        Ok(Owner { queue, puts, takes })
    }

    /// Puts an item at the back; it comes back if the queue is full.
    pub fn put<R: Wait>(&mut self, rt: &R, item: T) -> Result<(), T>
        ensures ok { OnOk result (PutsOne (put_view self.old.puts) item (put_view self.new.puts)) }
        ensures back { IfErr result (λ back. (back ≡ item) × (put_view self.new.puts ≡ put_view self.old.puts)) }
        ensures full { OnErr result (IsFull CAPACITY (put_view self.old.puts) ⊎ (2 ^ 62 ≤ put_count self.old.puts)) }
    {
        self.queue.put(rt, &mut self.puts, item)
    }

    /// The item at the front. None only if the queue was empty at one moment of the call. What it knows to be taken then, `put`
    /// knows too.
    pub fn take<R: Wait>(&mut self, rt: &R) -> Option<T>
        ensures some { IfSome result (λ item. TakesOwn self.old item self.new) }
        ensures none { IfNone result (LooksInto self.old (take_view self.old.takes) self.new) }
        ensures empty { IfNone result (IsAllTaken (take_view self.old.takes)) }
    {
        let found = self.queue.take(rt, &mut self.takes);
        self.queue.tell(&mut self.puts, &mut self.takes);
        found
    }

    /// A stealer of this queue.
    pub fn stealer(&mut self) -> Result<Stealer<T>, Memory>
        ensures same { arc_value self.new.queue ≡ arc_value self.old.queue }
        ensures queue { IfOk result (λ stealer. arc_value stealer.queue ≡ arc_value self.old.queue) }
    {
        let queue = Arc::try_clone(&self.queue)?;
        let pass = self.queue.pass(&mut self.takes);
        Ok(Stealer { queue, pass })
    }
}

impl<T: Drop> Stealer<T> {
    /// The item at the front. None only if the queue was empty at one moment of the call.
    pub fn take<R: Wait>(&mut self, rt: &R) -> Option<T>
        ensures some { IfSome result (λ item. TakesOne (take_view self.old.pass) item (take_view self.new.pass)) }
        ensures none { IfNone result (take_view self.new.pass ≡ take_view self.old.pass) }
        ensures empty { IfNone result (IsAllTaken (take_view self.old.pass)) }
    {
        self.queue.take(rt, &mut self.pass)
    }
}
