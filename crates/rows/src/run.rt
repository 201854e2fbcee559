//! Runs of a program, and whether they are as its row says.

use go_text::Fault;
use kendo_base::{Gate, run_bytes};
use kendo_front::{paused_bytes, paused_bytes_noting, reference_bytes, traced_bytes};
use kendo_reading::check_bytes;
use kendo_report::report;
use paused_goroutine::PauseUses;
use pauses::Plan;
use row_format::row::Row;
use row_format::row_error::{RowError, same};
use std::alloc::Global;
use std::sync::Wait;
use std::thread::Threads;
use word::Flagged;
use word::end::End;

/// A gate that delays no worker.
pub(crate) struct Open;

impl Gate for Open {
    fn at_start(&self, _worker: u64) {}

    fn at_lent(&self, _worker: u64, _number: u64) {}

    fn at_end(&self, _worker: u64) {}

    fn at_progress(&self, _clock: u64) {}
}

/// The result of a run.
#[derive(Drop)]
pub(crate) struct Ran {
    pub outcome: Result<End, Fault>,
    /// The line on standard error, with its newline, or nothing.
    pub line: Vec<u8>,
    /// The exit status.
    status: u8,
    /// What was written of the output, and of the trace.
    output: Vec<u8>,
    pub trace: Vec<u8>,
}

impl Ran {
    /// The run of a program.
    pub(crate) fn of<R: Threads + Wait + Sync>(
        rt: &R,
        alloc: Global,
        text: &[u8],
        limit: u64,
        workers: u64,
    ) -> Result<Ran, RowError> {
        let bytes = Vec::from_slice(alloc, text)?;
        let mut out = Flagged::new(Vec::new(alloc));
        let mut trace = Flagged::new(Vec::new(alloc));
        let outcome = run_bytes(
            rt, alloc, bytes, limit, workers, &Open, &mut out, &mut trace,
        );
        Ran::told(alloc, outcome, out.into_inner(), trace.into_inner())
    }

    /// The run of a program by the interpreter, which writes no trace.
    fn interpreted(alloc: Global, text: &[u8], limit: u64) -> Result<Ran, RowError> {
        let bytes = Vec::from_slice(alloc, text)?;
        let mut out = Flagged::new(Vec::new(alloc));
        let outcome = reference_bytes(alloc, bytes, limit, &mut out);
        Ran::told(alloc, outcome, out.into_inner(), Vec::new(alloc))
    }

    /// The run of a program by the interpreter, with the pauses of a plan.
    fn paused(alloc: Global, text: &[u8], plan: &Plan, limit: u64) -> Result<Ran, RowError> {
        let bytes = Vec::from_slice(alloc, text)?;
        let mut out = Flagged::new(Vec::new(alloc));
        let outcome = paused_bytes(alloc, bytes, plan, limit, &mut out);
        Ran::told(alloc, outcome, out.into_inner(), Vec::new(alloc))
    }

    /// Like `paused`, with its trace.
    pub(crate) fn traced(
        alloc: Global,
        text: &[u8],
        plan: &Plan,
        limit: u64,
    ) -> Result<Ran, RowError> {
        let bytes = Vec::from_slice(alloc, text)?;
        let mut out = Flagged::new(Vec::new(alloc));
        let mut trace = Flagged::new(Vec::new(alloc));
        let outcome = traced_bytes(alloc, bytes, plan, limit, &mut out, &mut trace);
        Ran::told(alloc, outcome, out.into_inner(), trace.into_inner())
    }

    /// The result of a run, with the line and the status that report it.
    fn told(
        alloc: Global,
        outcome: Result<End, Fault>,
        output: Vec<u8>,
        trace: Vec<u8>,
    ) -> Result<Ran, RowError> {
        let (line, status) = report(alloc, &outcome).map_err(Fault::from)?;
        Ok(Ran {
            outcome,
            line,
            status,
            output,
            trace,
        })
    }

    /// Compares the run with its row, and its output with `output`.
    fn check(&self, alloc: Global, row: &Row, output: &[u8], how: &str) -> Result<(), RowError> {
        self.check_error(alloc, row.error.as_str(), how)?;
        self.check_output(alloc, output, how)?;
        self.check_status(alloc, row.status, how)
    }

    /// Compares the output of the run with this one.
    fn check_output(&self, alloc: Global, wanted: &[u8], how: &str) -> Result<(), RowError> {
        let what = format!(in alloc; "the output ({how})")?;
        same(alloc, &what, wanted, &self.output)
    }

    /// Compares the exit status of the run with this one.
    fn check_status(&self, alloc: Global, wanted: u8, how: &str) -> Result<(), RowError> {
        if self.status == wanted {
            return Ok(());
        }
        let what = format!(in alloc; "the exit status ({how})")?;
        differs(alloc, &what, wanted, self.status)
    }

    /// Checks the source of the run, and compares what the check finds with what the run found: the same error, or a program.
    fn check_found(&self, alloc: Global, text: &[u8]) -> Result<(), RowError> {
        let wanted = match &self.outcome {
            Err(Fault::BadWorkers | Fault::BadLimit) => return Ok(()),
            Ok(_) => b"".as_slice(),
            Err(_) => self.line.as_slice(),
        };
        let line = checked_line(alloc, text)?;
        same(alloc, "the line on standard error (check)", wanted, &line)
    }

    /// Compares the line on standard error with this one.
    fn check_error(&self, alloc: Global, wanted: &str, how: &str) -> Result<(), RowError> {
        let what = format!(in alloc; "the line on standard error ({how})")?;
        self.check_line(alloc, &what, wanted)
    }

    /// Compares the line on standard error; if the wanted one ends in `..`, only its beginning.
    fn check_line(&self, alloc: Global, what: &str, wanted: &str) -> Result<(), RowError> {
        let line = self.line.as_slice();
        let line = line.strip_suffix(b"\n".as_slice()).unwrap_or(line);
        match wanted.strip_suffix("..") {
            Some(beginning) => {
                let line = &line[..line.len().min(beginning.len())];
                same(alloc, what, beginning.as_bytes(), line)
            }
            None => same(alloc, what, wanted.as_bytes(), line),
        }
    }
}

/// Reports two numbers that differ.
pub(crate) fn differs(alloc: Global, what: &str, wanted: u8, came: u8) -> Result<(), RowError> {
    let wanted = wanted.to_string(alloc)?;
    let came = came.to_string(alloc)?;
    same(alloc, what, wanted.as_bytes(), came.as_bytes())
}

/// Runs a program with each number of workers of its row, and compares the results.
pub(crate) fn check_runs<R: Threads + Wait + Sync>(
    rt: &R,
    alloc: Global,
    text: &[u8],
    row: &Row,
    output: &[u8],
) -> Result<(), RowError> {
    check_interpreted(alloc, text, row, output)?;
    for workers in row.workers.iter() {
        check_ran(rt, alloc, text, row, *workers, output)?;
    }
    Ok(())
}

/// Runs a program by a plan, without and with its trace, and compares the results.
pub(crate) fn check_paused(
    alloc: Global,
    text: &[u8],
    plan: &Plan,
    row: &Row,
    output: &[u8],
) -> Result<(), RowError> {
    let ran = Ran::paused(alloc, text, plan, row.limit)?;
    ran.check(alloc, row, output, "--pauses")?;
    let traced = Ran::traced(alloc, text, plan, row.limit)?;
    traced.check(alloc, row, output, "--pauses --trace")
}

/// Which pauses don't happen in the run of a program by a plan: comments for the plan's file.
pub(crate) fn unused_pauses(
    alloc: Global,
    text: &[u8],
    plan: &Plan,
    limit: u64,
) -> Result<Vec<u8>, RowError> {
    let bytes = Vec::from_slice(alloc, text)?;
    let uses = PauseUses::new(alloc, plan).map_err(Fault::from)?;
    let mut out = Flagged::new(Vec::new(alloc));
    paused_bytes_noting(alloc, bytes, plan, &uses, limit, &mut out)?;
    let mut comments = Vec::new(alloc);
    let mut index = 0usize;
    for pause in &plan.pauses {
        let why = uses.why_unused(alloc, index, pause).map_err(Fault::from)?;
        index = index.wrapping_add(1);
        if let Some(why) = why {
            let comment = format!(in alloc; "# unused {index}: {why}\n")?;
            comments.extend_from_slice(comment.as_bytes())?;
        }
    }
    Ok(comments)
}

/// Runs a program with `workers` workers, and compares the results.
fn check_ran<R: Threads + Wait + Sync>(
    rt: &R,
    alloc: Global,
    text: &[u8],
    row: &Row,
    workers: u64,
    output: &[u8],
) -> Result<(), RowError> {
    let how = format!(in alloc; "--workers {workers}")?;
    let ran = Ran::of(rt, alloc, text, row.limit, workers)?;
    ran.check(alloc, row, output, &how)?;
    ran.check_found(alloc, text)
}

/// Runs a program by the interpreter too, and compares the results. The interpreter has no workers.
fn check_interpreted(alloc: Global, text: &[u8], row: &Row, output: &[u8]) -> Result<(), RowError> {
    if row.error.as_str().starts_with("kendo: 15 ") {
        return Ok(());
    }
    let ran = Ran::interpreted(alloc, text, row.limit)?;
    ran.check(alloc, row, output, "reference")?;
    ran.check_found(alloc, text)
}

/// The line on standard error, with its newline, if a source is checked; nothing if it is a program.
pub(crate) fn checked_line(alloc: Global, text: &[u8]) -> Result<Vec<u8>, RowError> {
    let checked = check_bytes(alloc, Vec::from_slice(alloc, text)?);
    let outcome = checked.map(|()| End::Finished);
    let (line, _) = report(alloc, &outcome).map_err(Fault::from)?;
    Ok(line)
}
