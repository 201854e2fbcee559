//! Runs of a small program by several workers.

use crate::gates::{All, Meet};
use go_text::{Fault, Memory};
use machine_calls::Checks;
use machine_calls::made::program;
use machine_calls::programs::MEETS_TWICE;
use std::alloc::Global;
use std::sync::{Arc, Wait};
use std::thread::Threads;
use word::end::End;
use word::{Flagged, Write, WriteFault};
use worker_pool::{Gate, TraceWriter, run};

/// A clock limit that is not reached.
const LIMIT: u64 = 1 << 40;

/// The trace of the program.
const TRACE: &[u8] =
    b"0 1 make 1\n2 1 go 2\n3 1 go 3\n4 1 receive 1 sleeps\n4 2 print 2\n4 3 print 2\n\
    5 2 send 1 to 1\n5 3 send 1 sleeps\n6 1 receive 1 from 3\n6 2 end\n7 1 exit\n";

/// A gate that holds no worker.
struct Open;

impl Gate for Open {
    fn at_start(&self, _worker: u64) {}

    fn at_lent(&self, _worker: u64, _number: u64) {}

    fn at_end(&self, _worker: u64) {}

    fn at_progress(&self, _clock: u64) {}
}

/// Whether workers work at the same time, and write what they must.
pub(crate) fn check<R: Threads + Wait + Sync>(
    rt: &R,
    alloc: Global,
    checks: &mut Checks,
) -> Result<(), Memory> {
    checks.see("many workers write the same", always_writes(rt, alloc))?;
    for (name, workers, limit, fault) in [
        ("no worker", 0, 0, Fault::BadWorkers),
        ("65 workers", 65, LIMIT, Fault::BadWorkers),
        ("limit 0", 64, 0, Fault::BadLimit),
        (
            "a limit that is too large",
            1,
            (1 << 62) + 1,
            Fault::BadLimit,
        ),
    ] {
        checks.see(name, is_refused(rt, alloc, workers, limit, fault))?;
    }
    checks.see("an output that fails", output_fails(rt, alloc))?;
    checks.see("a trace that fails", trace_fails(rt, alloc))?;
    checks.see("two leases are held at once", two_meet(rt, alloc))?;
    checks.see("64 workers are there at once", all_are_there(rt, alloc))
}

/// Runs the program.
fn attempt<R: Threads + Wait + Sync, G: Gate + Sync, O: Write, T: TraceWriter>(
    rt: &R,
    alloc: Global,
    limit: u64,
    workers: u64,
    gate: &G,
    out: &mut O,
    trace: &mut T,
) -> Result<End, Fault> {
    let program = Arc::new(alloc, program(alloc, &MEETS_TWICE)?)?;
    run(rt, alloc, program, limit, workers, gate, out, trace)
}

/// Runs the program, and compares its output, its trace and its end.
fn writes_whole<R: Threads + Wait + Sync, G: Gate + Sync>(
    rt: &R,
    alloc: Global,
    workers: u64,
    gate: &G,
) -> bool {
    let mut out = Flagged::new(Vec::new(alloc));
    let mut trace = Flagged::new(Vec::new(alloc));
    let outcome = attempt(rt, alloc, LIMIT, workers, gate, &mut out, &mut trace);
    outcome == Ok(End::Finished) && wrote(out, b"1\n2\n") && wrote(trace, TRACE)
}

/// Whether these bytes were written.
fn wrote(writer: Flagged<Vec<u8>>, bytes: &[u8]) -> bool {
    writer.into_inner().as_slice() == bytes
}

/// Whether the program writes the same output 20 times, with each of several numbers of workers.
fn always_writes<R: Threads + Wait + Sync>(rt: &R, alloc: Global) -> Result<bool, Fault> {
    for turn in 0..80 {
        let workers = match turn % 4 {
            0 => 1,
            1 => 2,
            2 => 3,
            _ => 64,
        };
        if !writes_whole(rt, alloc, workers, &Open) {
            return Ok(false);
        }
    }
    Ok(true)
}

/// Whether these numbers are refused so, and nothing is written.
fn is_refused<R: Threads + Wait + Sync>(
    rt: &R,
    alloc: Global,
    workers: u64,
    limit: u64,
    fault: Fault,
) -> Result<bool, Fault> {
    let mut out = Flagged::new(Vec::new(alloc));
    let mut trace = Flagged::new(Vec::new(alloc));
    let outcome = attempt(rt, alloc, limit, workers, &Open, &mut out, &mut trace);
    Ok(outcome == Err(fault) && wrote(out, b"") && wrote(trace, b""))
}

/// A writer that refuses every byte after the first.
#[derive(Drop)]
struct Narrow {
    taken: bool,
    failed: bool,
}

impl Narrow {
    /// Has taken nothing yet.
    fn new() -> Narrow {
        Narrow {
            taken: false,
            failed: false,
        }
    }
}

impl Write for Narrow {
    ghost has_failed = { λ w. w.failed };

    fn write(&mut self, piece: &[u8]) -> Result<usize, WriteFault> {
        if piece.is_empty() {
            return Ok(0);
        }
        if self.taken {
            self.failed = true;
            return Err(WriteFault);
        }
        self.taken = true;
        Ok(1)
    }
}

impl TraceWriter for Narrow {
    fn is_read(&self) -> bool {
        true
    }
}

/// Whether an output that fails ends the run.
fn output_fails<R: Threads + Wait + Sync>(rt: &R, alloc: Global) -> Result<bool, Fault> {
    let mut out = Narrow::new();
    let mut trace = Flagged::new(Vec::new(alloc));
    let outcome = attempt(rt, alloc, LIMIT, 64, &Open, &mut out, &mut trace);
    Ok(outcome == Err(Fault::Write) && out.taken)
}

/// Whether a trace that fails ends the run.
fn trace_fails<R: Threads + Wait + Sync>(rt: &R, alloc: Global) -> Result<bool, Fault> {
    let mut out = Flagged::new(Vec::new(alloc));
    let mut trace = Narrow::new();
    let outcome = attempt(rt, alloc, LIMIT, 64, &Open, &mut out, &mut trace);
    Ok(outcome == Err(Fault::Write) && trace.taken)
}

/// Whether two workers hold leases at once.
fn two_meet<R: Threads + Wait + Sync>(rt: &R, alloc: Global) -> Result<bool, Fault> {
    let gate = Meet::new();
    Ok(writes_whole(rt, alloc, 2, &gate) && gate.have_met())
}

/// Whether 64 workers are there at once, and all end.
fn all_are_there<R: Threads + Wait + Sync>(rt: &R, alloc: Global) -> Result<bool, Fault> {
    let gate = All::new();
    Ok(writes_whole(rt, alloc, 64, &gate) && gate.have_met())
}
