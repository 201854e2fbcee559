//! The signals between the threads of a run.

ghost use Rattle.std.specs.Prelude.{◌≡◌, ◌↔◌, ◌<◌, ◌+◌, ◌-◌, ◌%◌, ◌^◌, ◌||◌, IsTrue, false, is_some, min, not, true};

use word::end::End;

/// The signals between the threads of a run, under its lock.
#[derive(Clone, Copy)]
pub struct Signals {
    /// Whether memory was refused.
    stopped: bool,
    /// Whether no lease is given out any more: the run has ended, or stops.
    over: bool,
    /// How many workers wait until they are woken.
    waiting: u64,
    /// Whether a worker watches, which looks by itself whether something can be lent.
    watched: bool,
    /// How many leases were given out, and turns taken without one, modulo 2^64.
    lent: u64,
    /// How many leases are out to workers that yield.
    talkers: u64,
}

impl Signals {
    /// No signal was given.
    pub fn new() -> Signals
        ensures { result ≡ record { stopped = false; over = false; waiting = 0; watched = false; lent = 0; talkers = 0 } }
    {
        Signals {
            stopped: false,
            over: false,
            waiting: 0,
            watched: false,
            lent: 0,
            talkers: 0,
        }
    }

    /// No lease is given out any more.
    pub fn close(&mut self)
        ensures { self.new ≡ record self.old { over = true } }
    {
        self.over = true;
    }

    /// The run stops because it is out of memory, unless it has ended.
    pub fn stop(&mut self)
        ensures { self.new ≡ record self.old { stopped = self.old.stopped || not self.old.over; over = true } }
    {
        self.stopped = self.stopped || !self.over;
        self.close();
    }

    /// All that can be committed is committed, up to this end of the run, if there is one.
    pub fn settle(&mut self, end: Option<End>)
        ensures { self.new ≡ record self.old { over = self.old.over || is_some end } }
    {
        self.over = self.over || end.is_some();
    }

    /// Whether no lease is given out any more.
    pub fn is_over(&self) -> bool
        ensures { result ≡ self.now.over }
    {
        self.over
    }

    /// Whether memory was refused.
    pub fn is_stopped(&self) -> bool
        ensures { result ≡ self.now.stopped }
    {
        self.stopped
    }

    /// A worker finds nothing to do. Returns whether it is to watch, since no other worker does.
    pub fn begin_watch(&mut self) -> bool
        ensures { (result ≡ not self.old.watched) × (self.new ≡ record self.old { watched = true }) }
    {
        let begins = !self.watched;
        self.watched = true;
        begins
    }

    /// A worker has watched, and looks again.
    pub fn end_watch(&mut self)
        ensures { self.new ≡ record self.old { watched = false } }
    {
        self.watched = false;
    }

    /// Whether workers wait, and none watches for them.
    pub fn wants_watch(&self) -> bool
        ensures { IsTrue result ↔ ((0 < self.now.waiting) × (self.now.watched ≡ false)) }
    {
        self.waiting > 0 && !self.watched
    }

    /// Whether a worker watches that may still get a lease.
    pub fn may_call(&self) -> bool
        ensures { IsTrue result ↔ ((self.now.watched ≡ true) × (self.now.over ≡ false)) }
    {
        self.watched && !self.over
    }

    /// A worker begins to wait.
    pub fn begin_wait(&mut self)
        ensures { self.new ≡ record self.old { waiting = min (self.old.waiting + 1) (2 ^ 64 - 1) } }
    {
        self.waiting = self.waiting.saturating_add(1);
    }

    /// A worker was woken.
    pub fn end_wait(&mut self)
        ensures { self.new ≡ record self.old { waiting = self.old.waiting - 1 } }
    {
        self.waiting = self.waiting.saturating_sub(1);
    }

    /// A lease was given out, or a turn taken without one.
    pub fn count_turn(&mut self)
        ensures { self.new ≡ record self.old { lent = (self.old.lent + 1) % 2 ^ 64 } }
    {
        self.lent = self.lent.wrapping_add(1);
    }

    /// How many leases were given out, and turns taken without one, modulo 2^64.
    pub fn lent(&self) -> u64
        ensures { result ≡ self.now.lent }
    {
        self.lent
    }

    /// A lease goes out to a worker that yields.
    pub fn begin_talk(&mut self)
        ensures { self.new ≡ record self.old { talkers = min (self.old.talkers + 1) (2 ^ 64 - 1) } }
    {
        self.talkers = self.talkers.saturating_add(1);
    }

    /// That worker comes back.
    pub fn end_talk(&mut self)
        ensures { self.new ≡ record self.old { talkers = self.old.talkers - 1 } }
    {
        self.talkers = self.talkers.saturating_sub(1);
    }

    /// Whether a worker that yields is out with a lease.
    pub fn is_talking(&self) -> bool
        ensures { IsTrue result ↔ (0 < self.now.talkers) }
    {
        self.talkers > 0
    }
}
