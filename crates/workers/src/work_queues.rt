//! The queues in which items lie until a worker takes them.

ghost use Rattle.std.specs.Prelude.{◌≡◌, ◌+◌, ◌<◌, ◌≤◌, ◌^◌, ◌⊎◌, ◌++◌, drop, length, take, IfErr, IfNone, IfOk, IfSome, OnErr, OnOk, true};
ghost use Rattle.std.specs.List.{All};
ghost use Rattle.workers.specs.declared.work_queues.TheConstants.{CAPACITY};
ghost use Rattle.run_queue.specs.Passes.{put_count, put_view, take_view};
ghost use Rattle.run_queue.specs.Turns.{IsAllTaken, IsFull, PutsOne};
ghost use Rattle.workers.specs.Views.{LooksInto, TakesOfOne, views_of};
ghost use Rattle.workers.specs.Queues.{others_of, own_queues, queues_of};

use crate::ends::{Owner, Stealer};
use go_text::Memory;
use std::alloc::Global;
use std::sync::Wait;

/// How many items a queue holds.
pub const CAPACITY: usize = 16;

/// What one worker may do with the queues of all: it puts into its own, and takes from each.
#[derive(Drop)]
pub struct WorkQueues<T: Drop> {
    own: Owner<T>,
    /// Of the queues of the workers after it, and then of those of the workers before it.
    others: Vec<Stealer<T>>,
    /// Whether its own queue may hold an item: it has put one since it found none there.
    filled: bool,
}

impl<T: Drop> WorkQueues<T> {
    ghost use Rattle.workers.specs.Queues.{IsTeam, TakesFrom};

    /// Those of each of `workers` workers. Each takes from its own queue first, then from those of the workers after it, and then
    /// from those of the workers before it.
    pub fn of_all(alloc: Global, workers: u64) -> Result<Vec<WorkQueues<T>>, Memory>
        ensures each { IfOk result (λ all. length all.items ≡ workers) }
        ensures team { IfOk result (λ all. IsTeam all.items) }
    {
        let mut all = apart(alloc, workers)?;
        for worker in 0..all.len() {
            let others = stealers_of(alloc, &mut all, worker)?;
            let queues = &mut all[worker];
            queues.others = others;
        }
        Ok(all)
    }

    /// Puts an item into its own queue. It comes back only if that was full at one moment of the call, or if 2^62 had been put.
    pub fn put<R: Wait>(&mut self, rt: &R, item: T) -> Result<(), T>
        ensures ok { OnOk result (PutsOne (put_view self.old.own.puts) item (put_view self.new.own.puts)) }
        ensures filled { OnOk result (self.new.filled ≡ true) }
        ensures back { IfErr result (λ back. (back ≡ item) × (put_view self.new.own.puts ≡ put_view self.old.own.puts)) }
        ensures full { OnErr result (IsFull CAPACITY (put_view self.old.own.puts) ⊎ (2 ^ 62 ≤ put_count self.old.own.puts)) }
    {
        self.own.put(rt, item)?;
        self.filled = true;
        Ok(())
    }

    /// An item of its own queue, else of the others'. None only if each queue was empty at one moment of the call. What it knows to
    /// be taken from its own queue then, `put` knows too.
    #[inline(never)]
    pub fn take<R: Wait>(&mut self, rt: &R) -> Option<T>
        ensures some { IfSome result (λ item. TakesFrom self.old item self.new) }
        ensures none { IfNone result (LooksInto self.old.own (take_view self.old.own.takes) self.new.own × (views_of self.new.others.items ≡ views_of self.old.others.items)) }
        ensures empty { IfNone result (IsAllTaken (take_view self.old.own.takes) × All IsAllTaken (views_of self.old.others.items)) }
    {
        let found = self.own.take(rt);
        if found.is_some() {
            return found;
        }
        self.filled = false;
        take_of(rt, &mut self.others)
    }

    /// Whether others may find an item in its own queue.
    pub fn is_filled(&self) -> bool
        ensures { result ≡ self.now.filled }
    {
        self.filled
    }
}

/// An item of the first of these queues in which there is one.
fn take_of<T: Drop, R: Wait>(rt: &R, stealers: &mut Vec<Stealer<T>>) -> Option<T>
    ensures some { IfSome result (λ item. TakesOfOne (views_of stealers.old.items) item (views_of stealers.new.items)) }
    ensures none { IfNone result (views_of stealers.new.items ≡ views_of stealers.old.items) }
    ensures empty { IfNone result (All IsAllTaken (views_of stealers.old.items)) }
{
    for stealer in stealers.iter_mut() {
        let found = stealer.take(rt);
        if found.is_some() {
            return found;
        }
    }
    None
}

/// The empty queues of `count` workers, of which none takes from another's yet.
fn apart<T: Drop>(alloc: Global, count: u64) -> Result<Vec<WorkQueues<T>>, Memory>
    ensures { IfOk result (λ all. length all.items ≡ count) }
{
    let mut all = Vec::new(alloc);
    for _worker in 0..count {
        let own = Owner::new(alloc)?;
        all.push(WorkQueues {
            own,
            others: Vec::new(alloc),
            filled: false,
        })?;
    }
    Ok(all)
}

/// The stealers of a worker: of the queues of the workers after it, and of those of the workers before it.
fn stealers_of<T: Drop>(
    alloc: Global,
    all: &mut Vec<WorkQueues<T>>,
    worker: usize,
) -> Result<Vec<Stealer<T>>, Memory>
    requires { worker < length all.old.items }
    ensures own { OnOk result (own_queues all.new.items ≡ own_queues all.old.items) }
    ensures others { OnOk result (others_of all.new.items ≡ others_of all.old.items) }
    ensures stealers { IfOk result (λ stealers. queues_of stealers.items ≡ drop (worker + 1) (own_queues all.old.items) ++ take worker (own_queues all.old.items)) }
{
    let count = all.len();
    let mut stealers = Vec::new(alloc);
    add_stealers(all, worker + 1, count, &mut stealers)?;
    add_stealers(all, 0, worker, &mut stealers)?;
    Ok(stealers)
}

/// Appends a stealer of the queue of each of the workers `from .. to`.
fn add_stealers<T: Drop>(
    all: &mut Vec<WorkQueues<T>>,
    from: usize,
    to: usize,
    stealers: &mut Vec<Stealer<T>>,
) -> Result<(), Memory>
    requires { (from ≤ to) × (to ≤ length all.old.items) }
    ensures own { OnOk result (own_queues all.new.items ≡ own_queues all.old.items) }
    ensures others { OnOk result (others_of all.new.items ≡ others_of all.old.items) }
    ensures stealers { OnOk result (queues_of stealers.new.items ≡ queues_of stealers.old.items ++ drop from (take to (own_queues all.old.items))) }
{
    for worker in from..to {
        let queues = &mut all[worker];
        let stealer = queues.own.stealer()?;
        stealers.push(stealer)?;
    }
    Ok(())
}
