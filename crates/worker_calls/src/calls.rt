//! What fails.

use crate::{books, clocks, keys, queues, runs, strangers};
use go_text::Memory;
use machine_calls::{Checks, make_calls, make_refused_calls};
use std::alloc::Global;
use std::sync::Wait;
use std::thread::Threads;

/// Makes all calls, those of `machine_calls` too, and returns the names of the checks that fail.
pub fn failed_calls<R: Threads + Wait + Sync>(
    rt: &R,
    alloc: Global,
) -> Result<Vec<&'static str>, Memory> {
    let mut checks = Checks::new(alloc);
    make_calls(alloc, &mut checks)?;
    books::check(alloc, &mut checks)?;
    strangers::check(alloc, &mut checks)?;
    clocks::check(rt, alloc, &mut checks)?;
    keys::check(alloc, &mut checks)?;
    queues::check(rt, alloc, &mut checks)?;
    runs::check(rt, alloc, &mut checks)?;
    Ok(checks.into_failed())
}

/// Makes the calls that can be refused memory, each again if it is, and returns the names of the checks that fail.
pub fn failed_refused_calls(alloc: Global) -> Result<Vec<&'static str>, Memory> {
    let mut checks = Checks::new(alloc);
    make_refused_calls(alloc, &mut checks)?;
    books::check_refused(alloc, &mut checks)?;
    Ok(checks.into_failed())
}
