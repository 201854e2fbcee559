//! Gates that hold workers until others are there.

use crate::clocks::comes_to;
use std::sync::atomic::{AtomicU64, Ordering};
use worker_pool::Gate;

/// The first leases of goroutines 2 and 3 are each held until the other is.
#[derive(Drop)]
pub struct Meet {
    second: AtomicU64,
    third: AtomicU64,
    met: AtomicU64,
}

impl Meet {
    /// Neither was lent yet.
    pub fn new() -> Meet {
        Meet {
            second: AtomicU64::new(0),
            third: AtomicU64::new(0),
            met: AtomicU64::new(0),
        }
    }

    /// Whether both were held at once.
    pub fn have_met(&self) -> bool {
        self.met.load(Ordering::SeqCst) == 2
    }

    fn meet(&self, mine: &AtomicU64, other: &AtomicU64) {
        if mine.fetch_add(1, Ordering::SeqCst) == 0 && comes_to(other, 1) {
            self.met.fetch_add(1, Ordering::SeqCst);
        }
    }
}

impl Gate for Meet {
    fn at_start(&self, _worker: u64) {}

    fn at_lent(&self, _worker: u64, number: u64) {
        if number == 2 {
            self.meet(&self.second, &self.third);
        } else if number == 3 {
            self.meet(&self.third, &self.second);
        }
    }

    fn at_end(&self, _worker: u64) {}

    fn at_progress(&self, _clock: u64) {}
}

/// 64 workers wait at their start for all.
#[derive(Drop)]
pub struct All {
    begun: AtomicU64,
    saw_all: AtomicU64,
    ended: AtomicU64,
}

impl All {
    /// None has begun.
    pub fn new() -> All {
        All {
            begun: AtomicU64::new(0),
            saw_all: AtomicU64::new(0),
            ended: AtomicU64::new(0),
        }
    }

    /// Whether all were there at once, and all have ended.
    pub fn have_met(&self) -> bool {
        self.saw_all.load(Ordering::SeqCst) == 64 && self.ended.load(Ordering::SeqCst) == 64
    }
}

impl Gate for All {
    fn at_start(&self, _worker: u64) {
        self.begun.fetch_add(1, Ordering::SeqCst);
        if comes_to(&self.begun, 64) {
            self.saw_all.fetch_add(1, Ordering::SeqCst);
        }
    }

    fn at_lent(&self, _worker: u64, _number: u64) {}

    fn at_end(&self, _worker: u64) {
        self.ended.fetch_add(1, Ordering::SeqCst);
    }

    fn at_progress(&self, _clock: u64) {}
}
