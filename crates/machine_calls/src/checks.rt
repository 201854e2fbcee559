//! What fails.

use crate::{channels, listings, pieces, requests, rules, schedules};
use go_text::{Fault, Memory};
use std::alloc::Global;

/// The names of the checks that fail.
#[derive(Drop)]
pub struct Checks {
    failed: Vec<&'static str>,
}

impl Checks {
    /// Nothing has failed yet.
    pub fn new(alloc: Global) -> Checks {
        Checks {
            failed: Vec::new(alloc),
        }
    }

    /// Takes down the name of a check that doesn't hold.
    pub fn see(&mut self, name: &'static str, found: Result<bool, Fault>) -> Result<(), Memory> {
        if !matches!(&found, Ok(true)) {
            self.failed.push(name)?;
        }
        Ok(())
    }

    /// The names of the checks that fail.
    pub fn into_failed(self) -> Vec<&'static str> {
        let Checks { failed } = self;
        failed
    }
}

/// Whether a check was refused memory, and has to be made again.
pub fn is_refused(found: &Result<bool, Fault>) -> bool {
    matches!(found, Err(Fault::Memory))
}

/// Makes those calls of channels and goroutines that can be refused memory. A call that is refused is made again.
pub fn make_refused_calls(alloc: Global, checks: &mut Checks) -> Result<(), Memory> {
    requests::check_refused(alloc, checks)?;
    channels::check(alloc, checks)
}

/// Makes all calls of this crate, and takes down the names of the checks that fail.
pub fn make_calls(alloc: Global, checks: &mut Checks) -> Result<(), Memory> {
    rules::check(alloc, checks)?;
    listings::check(alloc, checks)?;
    requests::check(alloc, checks)?;
    channels::check(alloc, checks)?;
    schedules::check(alloc, checks)?;
    pieces::check(alloc, checks)
}
