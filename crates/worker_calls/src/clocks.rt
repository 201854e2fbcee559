//! A clock that rises while another thread looks at it.

ghost use Rattle.std.specs.Prelude.{◌≡◌, ◌<◌, length};
ghost use Rattle.clock_table.specs.Clocks.{loan_for};
ghost use Rattle.clock_table.specs.Seats.{lease_clock, lease_loan, rows, seat_table, table_of};
ghost use Rattle.goroutine_vm.specs.Advance.{IsStateOf};

use bytecode::Instr::Loop;
use clock_table::{BookSeat, ClockTable, LeaseSeat};
use go_text::{Fault, Memory};
use goroutine_vm::GoState;
use logical_clock::LAST;
use machine_calls::Checks;
use machine_calls::made::main_program;
use machine_calls::requests::main_state;
use std::alloc::Global;
use std::sync::atomic::{AtomicU64, Ordering};
use std::thread;
use std::thread::{Threads, yield_now};
use verifier::Verified;

/// How often the clock is published, and its last value: each step is a tick.
const STEPS: u64 = 1000;

/// The slot that is lent.
const SLOT: usize = 7;

/// What the two threads share besides the clock.
#[derive(Drop)]
struct Marks {
    /// How often the one has looked.
    looks: AtomicU64,
    /// The clock that the other publishes next, or has just published.
    announced: AtomicU64,
    /// The clock that it has published.
    published: AtomicU64,
}

/// Whether a clock is seen to rise.
pub(crate) fn check<R: Threads + Sync>(
    rt: &R,
    alloc: Global,
    checks: &mut Checks,
) -> Result<(), Memory> {
    checks.see("a clock is seen to rise", is_seen_to_rise(rt, alloc))
}

fn is_seen_to_rise<R: Threads + Sync>(rt: &R, alloc: Global) -> Result<bool, Fault> {
    let program = main_program(alloc, &[Loop(0)])?;
    let state = main_state(alloc, &program, LAST)?;
    Ok(rises(rt, alloc, &program, state)?)
}

/// Lends this goroutine, and lets it run in one thread while another looks at its clock.
fn rises<R: Threads + Sync>(
    rt: &R,
    alloc: Global,
    program: &Verified,
    state: GoState,
) -> Result<bool, Memory>
    requires { IsStateOf program.now LAST state }
{
    let (table, mut seat) = ClockTable::new(alloc)?;
    let lease = table.lend(&mut seat, program, LAST, SLOT, 1, &state)?;
    let marks = Marks {
        looks: AtomicU64::new(0),
        announced: AtomicU64::new(0),
        published: AtomicU64::new(0),
    };
    let (climbed, seen) = thread::join(
        rt,
        || -> bool
            requires state { IsStateOf program.now LAST state }
            requires lease { (lease_loan lease ≡ loan_for program.now LAST 1 state) × (lease_clock lease ≡ state.clock) }
        { climb(alloc, program, state, lease, &marks) },
        || -> bool
            requires table { seat_table seat ≡ table_of table }
            requires slot { SLOT < length (rows seat) }
        { watch(&table, seat, &marks) },
    );
    Ok(climbed && seen)
}

/// Makes local steps, and publishes the clock after each.
fn climb(alloc: Global, program: &Verified, state: GoState, lease: LeaseSeat, marks: &Marks) -> bool
    requires state { IsStateOf program.now LAST state }
    requires lease { (lease_loan lease ≡ loan_for program.now LAST 1 state) × (lease_clock lease ≡ state.clock) }
{
    let mut state = state;
    let mut lease = lease;
    if !comes_to(&marks.looks, 1) {
        return false;
    }
    for _ in 0..STEPS {
        if state.advance(alloc, program, LAST, 1).is_err() {
            return false;
        }
        let clock = state.clock().time();
        marks.announced.store(clock, Ordering::SeqCst);
        lease.advance(&state);
        marks.published.store(clock, Ordering::SeqCst);
    }
    true
}

/// Whether a look at the clock never finds less than a look before, less than what was published before, or more than what is
/// announced after it, until it finds the last clock.
fn watch(table: &ClockTable, seat: BookSeat, marks: &Marks) -> bool
    requires table { seat_table seat ≡ table_of table.now }
    requires slot { SLOT < length (rows seat) }
{
    let mut seat = seat;
    let mut seen = 0;
    for _ in 0..1_000_000 {
        let least = marks.published.load(Ordering::SeqCst).max(seen);
        seen = table.look(&mut seat, SLOT);
        let most = marks.announced.load(Ordering::SeqCst);
        if seen < least || most < seen {
            return false;
        }
        if least == STEPS {
            return true;
        }
        marks.looks.fetch_add(1, Ordering::SeqCst);
        yield_now();
    }
    false
}

/// Waits for a while until the count is as high as that.
pub(crate) fn comes_to(count: &AtomicU64, least: u64) -> bool {
    for _ in 0..1_000_000 {
        if count.load(Ordering::SeqCst) >= least {
            return true;
        }
        yield_now();
    }
    false
}
