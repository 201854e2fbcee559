//! What a plan says of a request.

ghost use Rattle.std.specs.Prelude.{◌≡◌};
ghost use Rattle.pauses.specs.Paused.{clause_at, clause_of, is_at, is_known, wait_at, wait_of};
ghost use Rattle.pauses.specs.Plans.{pause_of, pauses_of};
ghost use Rattle.pauses.specs.Views.{way_kept};

use crate::plan::{Change, Pause, Plan};

impl Pause {
    /// Whether it changes this request of the goroutine of this way.
    pub fn is_at(&self, way: &[u64], request: u64) -> bool
        ensures { result ≡ is_at (pause_of self.now) way.now request }
    {
        self.way.as_slice() == way && self.request == request
    }
}

impl Plan {
    /// Whether one of its ways begins with this one.
    pub(crate) fn knows(&self, way: &[u64]) -> bool
        ensures { result ≡ is_known (pauses_of self.now.pauses.items) way.now }
    {
        for pause in &self.pauses {
            if pause.way.as_slice().starts_with(way) {
                return true;
            }
        }
        false
    }

    /// For how many ticks the goroutine of this way waits before this request.
    fn wait_at(&self, way: &[u64], request: u64) -> u64
        ensures { result ≡ wait_at (pauses_of self.now.pauses.items) way.now request }
    {
        for pause in &self.pauses {
            if pause.is_at(way, request) {
                if let Change::Wait(ticks) = pause.change {
                    return ticks;
                }
            }
        }
        0
    }

    /// Which clause the goroutine of this way tries first at this request.
    fn clause_at(&self, way: &[u64], request: u64) -> Option<u64>
        ensures { result ≡ clause_at (pauses_of self.now.pauses.items) way.now request }
    {
        for pause in &self.pauses {
            if pause.is_at(way, request) {
                if let Change::Clause(clause) = pause.change {
                    return Some(clause);
                }
            }
        }
        None
    }

    /// Like `wait_at`, but 0 if no way of the plan begins with the goroutine's.
    pub fn wait_of(&self, way: &Option<Vec<u64>>, request: u64) -> u64
        ensures { result ≡ wait_of (pauses_of self.now.pauses.items) (way_kept way.now) request }
    {
        match way {
            Some(way) => self.wait_at(way.as_slice(), request),
            None => 0,
        }
    }

    /// Like `clause_at`, but none if no way of the plan begins with the goroutine's.
    pub fn clause_of(&self, way: &Option<Vec<u64>>, request: u64) -> Option<u64>
        ensures { result ≡ clause_of (pauses_of self.now.pauses.items) (way_kept way.now) request }
    {
        match way {
            Some(way) => self.clause_at(way.as_slice(), request),
            None => None,
        }
    }
}
