//! A worker.

use crate::shared::Shared;
use book::run_name::{RunLease, RunName};
use logical_clock::Clock;
use std::sync::Wait;
use workers::{Back, Gate, Pace, WorkQueues};

/// How many local steps a lease makes before its clock is published again.
const QUANTUM: u32 = 4096;

/// How many times as many it makes before it is brought back, though its goroutine can go on.
const QUANTA: u32 = 8;

/// A lease with fewer ticks of its goroutine was short: the worker was at the lock for longer than it worked.
const FEW_TICKS: u64 = 4000;

/// Works until the run is over. The leases that lie in its queue then are dropped.
pub(crate) fn work<B: RunName, R: Wait, G: Gate>(
    rt: &R,
    shared: &Shared<B>,
    gate: &G,
    worker: u64,
    mut queues: WorkQueues<RunLease<B>>,
) {
    gate.at_start(worker);
    work_leases(rt, shared, gate, worker, &mut queues);
    shared.wake_all();
    gate.at_end(worker);
}

/// Works leases until no more are given out.
fn work_leases<B: RunName, R: Wait, G: Gate>(
    rt: &R,
    shared: &Shared<B>,
    gate: &G,
    worker: u64,
    queues: &mut WorkQueues<RunLease<B>>,
) {
    let mut pace = Pace::new();
    let mut back = Back::Begun;
    for _ in rt.forever() {
        match shared.next_lease(rt, back, &mut pace, queues) {
            Some(lease) => {
                gate.at_lent(worker, lease.number());
                back = worked(lease);
            }
            None => return,
        }
    }
}

/// Works a lease, outside every lock.
fn worked<B: RunName>(mut lease: RunLease<B>) -> Back<RunLease<B>> {
    let begun = lease.key().clock;
    for _ in 0..QUANTA {
        match lease.work(QUANTUM) {
            Ok(true) => return asking(begun, lease),
            Ok(false) => {}
            Err(_) => return Back::NoMemory,
        }
    }
    Back::Running(lease)
}

/// A lease whose goroutine makes a request, which began at this clock.
fn asking<B: RunName>(begun: Clock, lease: RunLease<B>) -> Back<RunLease<B>> {
    if ticks(begun, lease.key().clock) < FEW_TICKS {
        Back::Talking(lease)
    } else {
        Back::Asking(lease)
    }
}

/// How many ticks lie between two clocks of a goroutine.
fn ticks(from: Clock, to: Clock) -> u64 {
    to.time().saturating_sub(from.time())
}
