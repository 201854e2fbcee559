//! The queue and its passes.

ghost use Rattle.std.specs.Prelude.{◌≡◌, ◌+◌, ◌≤◌, ◌<◌, ◌^◌, ◌⊎◌, length, IfErr, IfNone, IfOk, IfSome, OnErr, OnOk};
ghost use Rattle.crossbeam_queue.specs.Passes.{view};
ghost use Rattle.run_queue.specs.Turns.{IsAllTaken, IsFull, IsPutting, IsTaking, PutsOne, TakesOne, whole, putting, taking, shared, further, told_put, told_gone};

use crate::rule::{Ends, Further, Gone, InTurn, Puts, Takes, Told};
use crate::view::View;
use crossbeam_queue::{Pass, RuledArrayQueue};
use go_text::Memory;
use std::alloc::Global;
use std::sync::Wait;

/// How many items are put at most.
const MOST: u64 = 1 << 62;

type Line<T> = RuledArrayQueue<T, View<T>, InTurn>;

/// A queue of limited capacity. One pass puts at its back, and any number of passes take from its front. An item's
/// number is how many were put before it.
#[derive(Drop)]
pub struct RunQueue<T: Drop> {
    line: Line<T>,
}

/// The right to put. There is one of a queue. What was put with it is a list that contracts see.
#[derive(Drop)]
pub struct PutPass<T: Drop> {
    pass: Pass<T, View<T>>,
    /// How many were put.
    count: u64,
    pub ghost puts: { IsPutting (view pass) },
    pub ghost counted: { length (view pass).put ≡ count },
}

/// The right to take. It has no bytes. Contracts see below which number nothing is taken any more, and which items it knows
/// to be put.
#[derive(Drop)]
pub struct TakePass<T: Drop> {
    pass: Pass<T, View<T>>,
    pub ghost takes: { IsTaking (view pass) },
}

impl<T: Drop> RunQueue<T> {
    ghost use Rattle.run_queue.specs.Passes.{capacity_of, IsPutOf, IsTakeOf, put_count, put_view, take_view};

    /// An empty queue of this capacity, the pass that puts, and one that takes alone.
    ///
    /// Errors: `Memory`, also if the capacity is 2^60 or more.
    pub fn new(
        alloc: Global,
        capacity: usize,
    ) -> Result<(RunQueue<T>, PutPass<T>, TakePass<T>), Memory>
        requires { 0 < capacity }
        ensures capacity { IfOk result (λ q. capacity_of q.0 ≡ capacity) }
        ensures queue { IfOk result (λ q. IsPutOf q.0 q.1 × IsTakeOf q.0 q.2) }
        ensures put { IfOk result (λ q. put_view q.1 ≡ putting whole) }
        ensures take { IfOk result (λ q. take_view q.2 ≡ taking whole) }
    {
        let (line, mut pass) = Line::ruled(alloc, capacity)?;
        let takes = line.another::<Ends>(&mut pass);
        Ok((
            RunQueue { line },
            PutPass { pass, count: 0 },
            TakePass { pass: takes },
        ))
    }

    /// A further pass, which has taken nothing. From here on neither takes alone. It takes no memory, since a pass has no bytes.
    pub fn pass(&self, from: &mut TakePass<T>) -> TakePass<T>
        requires { IsTakeOf self.now from.old }
        ensures queue { IsTakeOf self.now from.new × IsTakeOf self.now result }
        ensures from { take_view from.new ≡ shared (take_view from.old) }
        ensures further { take_view result ≡ further (take_view from.old) }
    {
        let pass = self.line.another::<Further>(&mut from.pass);
        TakePass { pass }
    }

    /// From here on the pass that takes knows what was put before this call, and the pass that puts how many that one knows to be
    /// taken. Nothing is done at run time.
    pub fn tell(&self, puts: &mut PutPass<T>, takes: &mut TakePass<T>)
        requires queue { IsPutOf self.now puts.old × IsTakeOf self.now takes.old }
        ensures queue { IsPutOf self.now puts.new × IsTakeOf self.now takes.new }
        ensures puts { put_view puts.new ≡ told_gone (put_view puts.old) (take_view takes.old) }
        ensures takes { take_view takes.new ≡ told_put (take_view takes.old) (put_view puts.old) }
    {
        let put = self.line.another::<Told>(&mut puts.pass);
        let gone = self.line.another::<Told>(&mut takes.pass);
        self.line.absorb::<Told>(&mut takes.pass, put);
        self.line.absorb::<Gone>(&mut puts.pass, gone);
    }

    /// Puts an item at the back. Returns it only if the queue was full at one moment of the call, so that as many as its
    /// capacity were put and not yet taken, or if 2^62 had been put.
    pub fn put<R: Wait>(&self, rt: &R, pass: &mut PutPass<T>, item: T) -> Result<(), T>
        requires { IsPutOf self.now pass.old }
        ensures queue { IsPutOf self.now pass.new }
        ensures ok { OnOk result (PutsOne (put_view pass.old) item (put_view pass.new)) }
        ensures count { OnOk result (put_count pass.new ≡ put_count pass.old + 1) }
        ensures back { IfErr result (λ x. (x ≡ item) × (put_view pass.new ≡ put_view pass.old)) }
        ensures full { OnErr result (IsFull (capacity_of self.now) (put_view pass.old) ⊎ (2 ^ 62 ≤ put_count pass.old)) }
    {
        if pass.count >= MOST {
            return Err(item);
        }
        self.line.push_as::<Puts, R>(rt, &mut pass.pass, item)?;
        pass.count += 1;
        Ok(())
    }

    /// Takes the item at the front, of which it knows then that it was put, and under which number; that is above each that this
    /// pass took before. `None` only if the queue was empty at one moment of the call: a pass that takes alone has then taken
    /// all that it knows to be put.
    pub fn take<R: Wait>(&self, rt: &R, pass: &mut TakePass<T>) -> Option<T>
        requires { IsTakeOf self.now pass.old }
        ensures queue { IsTakeOf self.now pass.new }
        ensures some { IfSome result (λ x. TakesOne (take_view pass.old) x (take_view pass.new)) }
        ensures none { IfNone result (take_view pass.new ≡ take_view pass.old) }
        ensures empty { IfNone result (IsAllTaken (take_view pass.old)) }
    {
        self.line.pop_as::<Takes, R>(rt, &mut pass.pass)
    }
}
