//! The lines that report how a run compares with a recorded trace.

ghost use Rattle.std.specs.Prelude.{IfOk, List, MatchResult};
ghost use Rattle.kendo_compare.specs.Comparing.{IsCompared};
ghost use Rattle.trace_comparison.specs.Requests.{Event, events_of};
ghost use Rattle.trace_comparison.specs.Texts.{IsTrace, IsWhy};

use crate::report::Report;
use go_text::Memory;
use pauses::Plan;
use std::alloc::Global;
use trace_comparison::{Comparison, Trace, TraceError, compare};

/// A recorded trace.
#[derive(Clone, Copy)]
pub struct Recorded<'r> {
    /// The path of its file, as it was typed.
    pub path: &'r str,
    pub bytes: &'r [u8],
    /// Whether it is compared byte by byte.
    pub is_strict: bool,
}

/// The program whose run is compared.
#[derive(Clone, Copy)]
pub struct Program<'p> {
    /// The path of its file, as it was typed.
    pub path: &'p str,
    pub bytes: &'p [u8],
    /// The plan by which it is run, if its run has one.
    pub plan: Option<&'p Plan>,
    /// The clock limit of the run.
    pub limit: u64,
}

/// How a run compares with a recorded trace.
#[derive(Drop)]
pub struct Compared {
    pub is_same: bool,
    /// The lines that report it.
    pub lines: Vec<u8>,
}

/// Checks that bytes are a trace.
///
/// Errors: the first malformed line, or out of memory.
pub fn check_trace(alloc: Global, bytes: &[u8]) -> Result<(), TraceError>
    ensures { MatchResult result (λ _. (events : List Event) × IsTrace bytes.now events) (IsWhy bytes.now) }
{
    let _trace = Trace::read(alloc, bytes)?;
    Ok(())
}

/// Compares `trace`, that of a program's run, with a recorded one: byte by byte, or goroutine by goroutine without clocks.
///
/// Errors: out of memory.
pub fn compare_traces(
    alloc: Global,
    program: &Program<'_>,
    recorded: &Recorded<'_>,
    trace: &[u8],
) -> Result<Compared, Memory>
    ensures { IfOk result (λ compared. IsCompared recorded.now.is_strict recorded.now.bytes.now trace.now compared.is_same) }
{
    let was = read(alloc, recorded.bytes)?;
    let run = read(alloc, trace)?;
    let (comparison, goroutines) = compare(alloc, &was, &run)?;
    let is_same = if recorded.is_strict {
        trace == recorded.bytes
    } else {
        comparison.is_same_by_goroutine()
    };
    let found = Found {
        comparison,
        goroutines,
        is_same,
    };
    let lines = report(alloc, program, recorded, &was, &run, found)?;
    Ok(Compared { is_same, lines })
}

/// How a run was found to compare.
#[derive(Clone, Copy)]
struct Found {
    comparison: Comparison,
    /// How many goroutines the run has.
    goroutines: usize,
    is_same: bool,
}

/// The lines that report how a run compares.
///
/// Errors: out of memory.
fn report(
    alloc: Global,
    program: &Program<'_>,
    recorded: &Recorded<'_>,
    was: &Trace<'_>,
    run: &Trace<'_>,
    found: Found,
) -> Result<Vec<u8>, Memory> {
    let report = Report {
        alloc,
        program,
        recorded,
        was: was.lines.as_slice(),
        run: run.lines.as_slice(),
        goroutines: found.goroutines,
    };
    report.lines(found.comparison, found.is_same)
}

/// The trace that bytes are.
fn read<'t>(alloc: Global, bytes: &'t [u8]) -> Result<Trace<'t>, Memory>
    ensures { IfOk result (λ trace. IsTrace bytes.entry.now (events_of trace.lines.items)) }
{
    match Trace::read(alloc, bytes) {
        Ok(trace) => Ok(trace),
        Err(TraceError::Memory | TraceError::Broken(_)) => Err(Memory),
    }
}
