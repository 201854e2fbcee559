//! Checks that no program reaches: a writer that fails, and the lines of ends that no run comes to.

ghost use Rattle.std.specs.Prelude.{Some};

use crate::run::{Open, differs};
use go_text::{Fault, Place, Span};
use kendo_base::{Gate, TraceWriter, run_bytes};
use kendo_report::report;
use row_format::row::LIMIT;
use row_format::row_error::{RowError, same};
use std::alloc::Global;
use std::sync::Wait;
use std::thread::Threads;
use word::end::End;
use word::panic::Panic;
use word::{Flagged, Write, WriteFault};
use worker_calls::gates::{All, Meet};

/// A program that prints, and then computes for hours.
const ENDLESS: &str = "package main; func main() { println(12); for {} }";

/// A program that prints twice.
const TWO_PRINTS: &str = "package main; func main() { println(12); println(3) }";

/// A program that prints what a buffer holds after a close, and then zero and false.
const BUFFER: &str =
    "package main; func main() { c := make(chan int, 2); c <- 1; c <- 2; close(c); \
    for v := range c { println(v) }; v, ok := <-c; println(v, ok) }";

/// A program that prints a sum.
const SUM: &str = "package main; func main() { println(1 + 2) }";

/// Two goroutines that print, and send to the first one.
const TWO_GOROUTINES: &str =
    "package main; func main() { d := make(chan bool); go a(d); go b(d); <-d; <-d }; \
    func a(d chan bool) { x := 1; println(1); d <- true }; func b(d chan bool) { println(2); d <- true }";

/// Its trace.
const TWO_TRACE: &str =
    "0 1 make 1\n2 1 go 2\n3 1 go 3\n4 1 receive 1 sleeps\n4 2 print 2\n4 3 print 2\n\
    5 2 send 1 to 1\n5 3 send 1 sleeps\n6 1 receive 1 from 3\n6 2 end\n7 1 exit\n";

/// Takes one byte a call, and fails from the n-th call on.
#[derive(Drop)]
struct Slow {
    taken: Vec<u8>,
    calls: u64,
    fails_at: u64,
    failed: bool,
}

impl Slow {
    /// No byte was taken yet.
    fn new(alloc: Global, fails_at: u64) -> Slow {
        Slow {
            taken: Vec::new(alloc),
            calls: 0,
            fails_at,
            failed: false,
        }
    }
}

impl Write for Slow {
    ghost contents = { λ w. Some w.taken.items };

    ghost has_failed = { λ w. w.failed };

    fn write(&mut self, piece: &[u8]) -> Result<usize, WriteFault> {
        let Some(byte) = piece.first() else {
            return Ok(0);
        };
        self.calls = self.calls.saturating_add(1);
        if self.calls >= self.fails_at || self.taken.push(*byte).is_err() {
            self.failed = true;
            return Err(WriteFault);
        }
        Ok(1)
    }
}

impl TraceWriter for Slow {
    fn is_read(&self) -> bool {
        true
    }
}

/// A program, the call at which a writer of its output or its trace fails, what that writer takes, and the line that the run
/// prints.
type Failing = (&'static str, u64, &'static str, &'static str);

const STOPPED: &str = "kendo: 14 Write\n";

/// Checks that a run whose output can't be written stops there, and reports it.
pub(crate) fn check_failing_writers<R: Threads + Wait + Sync>(
    rt: &R,
    alloc: Global,
) -> Result<(), RowError> {
    for case in [
        (TWO_PRINTS, 1, "", STOPPED),
        (TWO_PRINTS, 2, "1", STOPPED),
        (TWO_PRINTS, 5, "12\n3", STOPPED),
        (TWO_PRINTS, 6, "12\n3\n", ""),
        (BUFFER, 2, "1", STOPPED),
        (BUFFER, 4, "1\n2", STOPPED),
        (BUFFER, 13, "1\n2\n0 false\n", ""),
    ] {
        check_failing_writer(rt, alloc, case)?;
    }
    Ok(())
}

/// Checks what a run whose output fails at a call writes, and the line that it prints.
fn check_failing_writer<R: Threads + Wait + Sync>(
    rt: &R,
    alloc: Global,
    (source, fails_at, written, line): Failing,
) -> Result<(), RowError> {
    let bytes = Vec::from_slice(alloc, source.as_bytes())?;
    let mut out = Slow::new(alloc, fails_at);
    let mut trace = Flagged::new(Vec::new(alloc));
    let outcome = run_bytes(rt, alloc, bytes, LIMIT, 4, &Open, &mut out, &mut trace);
    drop(trace);
    check_report(alloc, &outcome, line, if line.is_empty() { 0 } else { 6 })?;
    same(alloc, "the output", written.as_bytes(), &out.taken)
}

/// Checks that a run whose trace can't be written stops there, and reports it.
pub(crate) fn check_failing_traces<R: Threads + Wait + Sync>(
    rt: &R,
    alloc: Global,
) -> Result<(), RowError> {
    for case in [
        (TWO_PRINTS, 1, "", STOPPED),
        (TWO_PRINTS, 14, "0 1 print 3\n1", STOPPED),
        (
            TWO_PRINTS,
            33,
            "0 1 print 3\n1 1 print 2\n2 1 exit",
            STOPPED,
        ),
        (TWO_PRINTS, 34, "0 1 print 3\n1 1 print 2\n2 1 exit\n", ""),
        (SUM, 1, "", STOPPED),
        (SUM, 22, "0 1 print 2\n1 1 exit\n", ""),
    ] {
        check_failing_trace(rt, alloc, case)?;
    }
    Ok(())
}

/// Checks what a run whose trace fails at a call writes of it, that its output is a beginning of its lines, and the line that
/// the run prints.
fn check_failing_trace<R: Threads + Wait + Sync>(
    rt: &R,
    alloc: Global,
    (source, fails_at, written, line): Failing,
) -> Result<(), RowError> {
    let bytes = Vec::from_slice(alloc, source.as_bytes())?;
    let mut out = Flagged::new(Vec::new(alloc));
    let mut trace = Slow::new(alloc, fails_at);
    let outcome = run_bytes(rt, alloc, bytes, LIMIT, 4, &Open, &mut out, &mut trace);
    let begins = if source == SUM {
        b"3\n".as_slice()
    } else {
        b"12\n3\n"
    };
    let printed = out.into_inner();
    if !begins.starts_with(&printed) {
        same(alloc, "the output", begins, &printed)?;
    }
    check_report(alloc, &outcome, line, if line.is_empty() { 0 } else { 6 })?;
    same(alloc, "the trace", written.as_bytes(), &trace.taken)
}

/// Checks that output and trace reach their writers while the program goes on computing: then a writer that fails ends the run.
pub(crate) fn check_early_writes<R: Threads + Wait + Sync>(
    rt: &R,
    alloc: Global,
) -> Result<(), RowError> {
    for workers in [1, 4] {
        let mut out = Slow::new(alloc, 3);
        let mut trace = Flagged::new(Vec::new(alloc));
        let bytes = Vec::from_slice(alloc, ENDLESS.as_bytes())?;
        let outcome = run_bytes(
            rt, alloc, bytes, LIMIT, workers, &Open, &mut out, &mut trace,
        );
        drop(trace);
        check_report(alloc, &outcome, "kendo: 14 Write\n", 6)?;
        same(alloc, "the early output", b"12".as_slice(), &out.taken)?;
        let mut out = Flagged::new(Vec::new(alloc));
        let mut trace = Slow::new(alloc, 5);
        let bytes = Vec::from_slice(alloc, ENDLESS.as_bytes())?;
        let outcome = run_bytes(
            rt, alloc, bytes, LIMIT, workers, &Open, &mut out, &mut trace,
        );
        drop(out);
        check_report(alloc, &outcome, "kendo: 14 Write\n", 6)?;
        same(alloc, "the early trace", b"0 1 ".as_slice(), &trace.taken)?;
    }
    Ok(())
}

/// Compares two runs: in one, two workers hold leases at once; in the other, 64 workers exist at once.
pub(crate) fn check_gates<R: Threads + Wait + Sync>(rt: &R, alloc: Global) -> Result<(), RowError> {
    let meet = Meet::new();
    check_gate(rt, alloc, 2, &meet)?;
    let all = All::new();
    check_gate(rt, alloc, 64, &all)?;
    if meet.have_met() && all.have_met() {
        Ok(())
    } else {
        Err(RowError::Call)
    }
}

/// Compares the run of `TWO_GOROUTINES` by `workers` workers, which pass this gate.
fn check_gate<R: Threads + Wait + Sync, G: Gate + Sync>(
    rt: &R,
    alloc: Global,
    workers: u64,
    gate: &G,
) -> Result<(), RowError> {
    let bytes = Vec::from_slice(alloc, TWO_GOROUTINES.as_bytes())?;
    let mut out = Flagged::new(Vec::new(alloc));
    let mut trace = Flagged::new(Vec::new(alloc));
    let outcome = run_bytes(rt, alloc, bytes, LIMIT, workers, gate, &mut out, &mut trace);
    check_report(alloc, &outcome, "", 0)?;
    same(alloc, "the output", b"1\n2\n".as_slice(), &out.into_inner())?;
    same(
        alloc,
        "the trace",
        TWO_TRACE.as_bytes(),
        &trace.into_inner(),
    )
}

/// Checks the line and the status of each panic.
pub(crate) fn check_panics(alloc: Global) -> Result<(), RowError> {
    for (panic, told) in [
        (Panic::DivideByZero, "P1 divide by zero"),
        (Panic::SendOnClosed, "P2 send on closed channel"),
        (Panic::CloseOfClosed, "P3 close of closed channel"),
        (Panic::CloseOfNil, "P4 close of nil channel"),
        (Panic::NegativeShift, "P5 negative shift"),
        (Panic::ChannelSize, "P6 channel size"),
        (Panic::CallDepth, "P7 call depth"),
        (Panic::TooManyGoroutines, "P8 too many goroutines"),
        (Panic::TooManyChannels, "P9 too many channels"),
    ] {
        let line = format!(in alloc; "kendo: panic {told}\n")?;
        check_report(alloc, &Ok(End::Panicked(panic)), line.as_str(), 2)?;
    }
    Ok(())
}

/// Checks the lines and statuses of the errors that no program causes, and of one without a known location.
pub(crate) fn check_refusals(alloc: Global) -> Result<(), RowError> {
    let unplaced = Fault::Syntax(Place::from(Span { from: 36, to: 37 }));
    for (fault, line, status) in [
        (unplaced, "kendo: 7 Syntax\n", 1),
        (Fault::NotYours, "kendo: 12 NotYours\n", 7),
        (Fault::Memory, "kendo: 13 Memory\n", 5),
    ] {
        check_report(alloc, &Err(fault), line, status)?;
    }
    Ok(())
}

/// Compares the line and the status of an outcome.
fn check_report(
    alloc: Global,
    outcome: &Result<End, Fault>,
    line: &str,
    status: u8,
) -> Result<(), RowError> {
    let (told, code) = report(alloc, outcome).map_err(Fault::from)?;
    same(alloc, "the line on standard error", line.as_bytes(), &told)?;
    if code == status {
        return Ok(());
    }
    differs(alloc, "the exit status", status, code)
}
