//! The run of a program that is tested.

ghost use Rattle.std.specs.Prelude.{◌≡◌, ◌⊎◌, IfErr, IfOk, IsErrOf, IsTrue, List, false, ℕ};
ghost use Rattle.kendo_reading.specs.Reading.{HasNoReading, IsRefusal};
ghost use Rattle.kendo_test.specs.Passing.{FailsAlone, Passes, Prints, PrintsTooMuch};
ghost use Rattle.whole_run.specs.Runs.{IsLimit};

use expected_output::{Expectation, Printed};
use go_text::Fault;
use kendo_base::{Open, run_bytes};
use kendo_shell::tracing::Trace;
use std::alloc::Global;
use std::sync::Wait;
use std::thread::Threads;
use word::end::End;

/// How many workers run a program.
const WORKERS: u64 = 4;

/// The outcome of a run.
#[derive(Drop)]
pub(crate) struct Ran {
    pub end: End,
    /// What it printed; empty if that doesn't count.
    pub output: Vec<u8>,
    /// Whether output and end are the expected ones.
    pub is_met: bool,
}

/// Runs the program that a text is, up to the clock limit, and compares its run with what is expected.
///
/// Errors: by the numbers 1 to 10 why it is no program; `Write` if it prints too much to be compared; `Memory`.
pub(crate) fn run_expected<R: Threads + Wait + Sync>(
    rt: &R,
    alloc: Global,
    bytes: Vec<u8>,
    limit: u64,
    expectation: &Expectation,
) -> Result<Ran, Fault>
    requires { IsLimit limit }
    ensures met { IfOk result (λ ran. IsTrue ran.is_met → Passes expectation.now bytes.items limit) }
    ensures differs { IfOk result (λ ran. ran.is_met ≡ false → FailsAlone expectation.now bytes.items limit) }
    ensures refused { IfErr result (λ fault. IsRefusal fault → HasNoReading bytes.items) }
    ensures much { IsErrOf result Fault.Write → PrintsTooMuch bytes.items limit }
    ensures only { IfErr result (λ fault. IsRefusal fault ⊎ ((fault ≡ Fault.Memory) ⊎ (fault ≡ Fault.Write))) }
{
    match &expectation.output {
        None => {
            let end = run_silently(rt, alloc, bytes, limit)?;
            Ok(Ran {
                end,
                output: Vec::new(alloc),
                is_met: end == expectation.end,
            })
        }
        Some(_) => {
            let (end, output) = run_printing(rt, alloc, bytes, limit)?;
            let is_met = expectation.is_met(alloc, end, output.as_slice())?;
            Ok(Ran {
                end,
                output,
                is_met,
            })
        }
    }
}

/// Runs a program without its output.
fn run_silently<R: Threads + Wait + Sync>(
    rt: &R,
    alloc: Global,
    bytes: Vec<u8>,
    limit: u64,
) -> Result<End, Fault>
    requires { IsLimit limit }
    ensures ran { IfOk result (λ end. (output : List ℕ) × Prints bytes.items limit output end) }
    ensures refused { IfErr result (λ fault. IsRefusal fault → HasNoReading bytes.items) }
    ensures only { IfErr result (λ fault. IsRefusal fault ⊎ (fault ≡ Fault.Memory)) }
{
    let mut output = Trace::Dropped;
    let mut trace = Trace::Dropped;
    match run_bytes(
        rt,
        alloc,
        bytes,
        limit,
        WORKERS,
        &Open,
        &mut output,
        &mut trace,
    ) {
        Ok(end) => Ok(end),
        // A writer that drops what it takes never fails.
        Err(Fault::Write) => Err(Fault::Memory),
        Err(fault) => Err(fault),
    }
}

/// Runs a program, and returns how it ended and what it printed.
pub(crate) fn run_printing<R: Threads + Wait + Sync>(
    rt: &R,
    alloc: Global,
    bytes: Vec<u8>,
    limit: u64,
) -> Result<(End, Vec<u8>), Fault>
    requires { IsLimit limit }
    ensures ran { IfOk result (λ ran. Prints bytes.items limit ran.1.items ran.0) }
    ensures refused { IfErr result (λ fault. IsRefusal fault → HasNoReading bytes.items) }
    ensures much { IsErrOf result Fault.Write → PrintsTooMuch bytes.items limit }
    ensures only { IfErr result (λ fault. IsRefusal fault ⊎ ((fault ≡ Fault.Memory) ⊎ (fault ≡ Fault.Write))) }
{
    let mut output = Printed::new(alloc);
    let mut trace = Trace::Dropped;
    match run_bytes(
        rt,
        alloc,
        bytes,
        limit,
        WORKERS,
        &Open,
        &mut output,
        &mut trace,
    ) {
        Ok(end) => Ok((end, output.into_bytes())),
        Err(Fault::Write) if !output.is_full() => Err(Fault::Memory),
        Err(fault) => Err(fault),
    }
}
