//! What a terminal is told of a run that goes on.

use crate::streams::tell;
use std::alloc::Global;
use std::fmt;
use std::io::IsTerminal;
use std::sync::atomic::{AtomicBool, Ordering};
use std::time::Instant;
use workers::Gate;

/// How many seconds a run takes before a terminal is told that it goes on.
const LONG: u64 = 10;

/// A gate that tells once on standard error, if that is a terminal, how far a run is that goes on for ten seconds.
#[derive(Drop)]
pub struct Notice<'r> {
    rt: &'r HostRuntime,
    alloc: Global,
    limit: u64,
    /// When the run began; `None` if nothing is told.
    begun: Option<Instant>,
    is_told: AtomicBool,
}

impl<'r> Notice<'r> {
    /// The notice of a run up to this limit, which begins now.
    pub fn new(rt: &'r HostRuntime, alloc: Global, limit: u64) -> Notice<'r> {
        let begun = if rt.stderr().is_terminal() {
            Instant::now(rt).ok()
        } else {
            None
        };
        Notice {
            rt,
            alloc,
            limit,
            begun,
            is_told: AtomicBool::new(false),
        }
    }

    /// Whether the run goes on for ten seconds.
    fn is_long(&self) -> bool {
        match &self.begun {
            Some(begun) => match begun.elapsed(self.rt) {
                Ok(elapsed) => elapsed.as_secs() >= LONG,
                Err(_) => false,
            },
            None => false,
        }
    }
}

impl Gate for Notice<'_> {
    fn at_start(&self, _worker: u64) {}

    fn at_lent(&self, _worker: u64, _number: u64) {}

    fn at_end(&self, _worker: u64) {}

    fn at_progress(&self, clock: u64) {
        if self.is_told.load(Ordering::SeqCst) || !self.is_long() {
            return;
        }
        self.is_told.store(true, Ordering::SeqCst);
        let (clock, limit) = (Grouped(clock), Grouped(self.limit));
        let line = format!(in self.alloc;
            "kendo: still running: clock {clock} of at most {limit} (--limit)\n"
        );
        if let Ok(line) = line {
            tell(self.rt, line.as_bytes());
        }
    }
}

/// The thousands that a number of 64 bits can have.
const UNITS: [u64; 7] = [
    1_000_000_000_000_000_000,
    1_000_000_000_000_000,
    1_000_000_000_000,
    1_000_000_000,
    1_000_000,
    1_000,
    1,
];

/// A number, with commas between thousands.
#[derive(Clone, Copy)]
struct Grouped(u64);

impl fmt::Display for Grouped {
    fn fmt<W: fmt::Write>(&self, f: &mut fmt::Formatter<W>) -> fmt::Result {
        let mut has_begun = false;
        for unit in UNITS.iter() {
            let group = self.0.checked_div(*unit).unwrap_or(0) % 1_000;
            if has_begun {
                write!(f, ",{group:03}")?;
            } else if group > 0 || *unit == 1 {
                write!(f, "{group}")?;
                has_begun = true;
            }
        }
        Ok(())
    }
}
