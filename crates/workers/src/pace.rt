//! How a worker paces itself.

ghost use Rattle.std.specs.Prelude.{◌≡◌, ◌↔◌, ◌≤◌, ◌+◌, ◌-◌, ◌*◌, ◌^◌, IsTrue, cond, false, min, true};
ghost use Rattle.workers.specs.Paces.{short_after, yields_after};

use crate::signals::Signals;
use crate::turn::Back;
use std::time::Duration;

/// The first nap of a worker that watches, in nanoseconds.
const SHORT_NAP: u64 = 50_000;

/// Its longest one.
const LONG_NAP: u64 = 16_000_000;

/// After this many short leases in a row a worker's goroutines do nothing but talk.
const MANY_SHORT: u32 = 64;

/// Whether a worker leaves leases to another one, whether its goroutines only talk, and how long it naps when it watches.
#[derive(Drop)]
pub struct Pace {
    /// Whether it takes a lease only while no other such worker is out with one: its last lease was short, or it had none.
    yields: bool,
    /// Whether it is counted in `talkers`.
    counted: bool,
    /// How many of its last leases were short, up to `MANY_SHORT`.
    short: u32,
    /// Its next nap, in nanoseconds.
    nanos: u64,
}

impl Pace {
    /// That of a worker that begins.
    pub fn new() -> Pace
        ensures { result ≡ record { yields = true; counted = false; short = 0; nanos = SHORT_NAP } }
    {
        Pace {
            yields: true,
            counted: false,
            short: 0,
            nanos: SHORT_NAP,
        }
    }

    /// Whether it takes a lease only while no other such worker is out with one.
    pub fn yields(&self) -> bool
        ensures { result ≡ self.now.yields }
    {
        self.yields
    }

    /// Whether its goroutines do nothing but talk.
    pub fn talks(&self) -> bool
        ensures { IsTrue result ↔ (MANY_SHORT ≤ self.now.short) }
    {
        self.short >= MANY_SHORT
    }

    /// The worker comes to the lock with this.
    pub fn come<T: Drop>(&mut self, signals: &mut Signals, back: &Back<T>)
        ensures yields { (self.new.yields ≡ yields_after back.now) × (self.new.counted ≡ false) }
        ensures short { self.new.short ≡ short_after MANY_SHORT self.old.short back.now }
        ensures nap { self.new.nanos ≡ cond self.new.yields self.old.nanos SHORT_NAP }
        ensures signals { signals.new ≡ cond self.old.counted (record signals.old { talkers = signals.old.talkers - 1 }) signals.old }
    {
        if self.counted {
            signals.end_talk();
        }
        self.counted = false;
        self.yields = matches!(back, Back::Begun | Back::Talking(_));
        self.short = if matches!(back, Back::Talking(_)) {
            self.short.saturating_add(1).min(MANY_SHORT)
        } else {
            0
        };
        if !self.yields {
            self.nanos = SHORT_NAP;
        }
    }

    /// It goes off with a lease.
    pub fn go(&mut self, signals: &mut Signals)
        ensures counted { self.new ≡ record self.old { counted = self.old.yields } }
        ensures signals { signals.new ≡ cond self.old.yields (record signals.old { talkers = min (signals.old.talkers + 1) (2 ^ 64 - 1) }) signals.old }
    {
        if self.yields {
            signals.begin_talk();
        }
        self.counted = self.yields;
    }

    /// It has rested, while other workers took leases or not.
    pub fn rest(&mut self, others_work: bool)
        ensures { self.new ≡ record self.old { yields = others_work } }
    {
        self.yields = others_work;
    }

    /// It was called to work: a lease was long.
    pub fn call(&mut self)
        ensures { self.new ≡ record self.old { yields = false } }
    {
        self.yields = false;
    }

    /// How long it naps now; its next nap is twice as long.
    pub fn nap(&mut self) -> Duration
        ensures next { self.new ≡ record self.old { nanos = min (self.old.nanos * 2) LONG_NAP } }
    {
        let nanos = self.nanos;
        self.nanos = nanos.saturating_mul(2).min(LONG_NAP);
        Duration::from_nanos(nanos)
    }
}
