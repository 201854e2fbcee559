//! What a file says of its program, and whether that is true.

use crate::reading::{
    explained, explained_by_plan, listing, paused_picture, picture, recorded_lines,
};
use crate::run::{Ran, check_paused, check_runs, unused_pauses};
use go_text::Fault;
use pauses::{Plan, PlanError};
use row_format::folder::{FileKind, Made, RowFile};
use row_format::row_error::{RowError, same};
use row_lines::{spans, tokens};
use std::alloc::Global;
use std::rt::Files;
use std::sync::Wait;
use std::thread::Threads;
use timeline::Format;

/// Checks what a file says of its program; of a program, checks that one of the files `names` of its folder says something of it.
pub(crate) fn check<R: Files + AllocGlobal + Threads + Wait + Sync>(
    rt: &R,
    file: &RowFile<'_>,
    names: &[String],
) -> Result<(), RowError> {
    match file.kind {
        FileKind::Text => check_told(file, names),
        // Each of its lines is checked for itself.
        FileKind::Table | FileKind::Words => Ok(()),
        FileKind::Generated => match file.beside(rt, "go")? {
            Some(_) => Err(RowError::Stranger),
            None => check_told(file, names),
        },
        FileKind::Row => check_run(rt, file),
        // If there is a `.row`, the output is checked with that.
        FileKind::Output => match file.beside(rt, "row")? {
            Some(_) => Ok(()),
            None => check_run(rt, file),
        },
        FileKind::Trace => check_trace(rt, file),
        FileKind::Pauses => check_plan(rt, file),
        FileKind::Made(made) => check_made(rt, file, made),
    }
}

/// Checks that some file says something of a program.
fn check_told(file: &RowFile<'_>, names: &[String]) -> Result<(), RowError> {
    if file.is_told(names) {
        Ok(())
    } else {
        Err(RowError::NothingTold)
    }
}

/// Checks the runs of a program against its `.row` and its `.out`.
fn check_run<R: Files + AllocGlobal + Threads + Wait + Sync>(
    rt: &R,
    file: &RowFile<'_>,
) -> Result<(), RowError> {
    let text = file.text(rt)?;
    let output = output(rt, file)?;
    match plan(rt, file)? {
        Some(plan) => check_paused(rt.alloc(), &text, &plan, &file.row(rt)?, &output),
        None => check_row(rt, file, &text, &output),
    }
}

/// Checks that the file of a plan is one, and that in the run of its program those of its pauses don't happen of which comments say so,
/// as `# unused 2: goroutine 1.2 made no request 1`.
fn check_plan<R: Files + AllocGlobal>(rt: &R, file: &RowFile<'_>) -> Result<(), RowError> {
    let text = file.text(rt)?;
    if let Some(plan) = plan(rt, file)? {
        let unused = unused_pauses(rt.alloc(), &text, &plan, file.row(rt)?.limit)?;
        let wanted = unused_comments(rt.alloc(), file.bytes(rt)?.as_slice())?;
        same_lines(rt.alloc(), "the unused pauses", &wanted, &unused)?;
    }
    Ok(())
}

/// The comments of a plan's file that say that a pause doesn't happen.
fn unused_comments(alloc: Global, plan: &[u8]) -> Result<Vec<u8>, RowError> {
    let mut comments = Vec::new(alloc);
    for line in plan.split(|byte| *byte == b'\n') {
        if line.starts_with(b"# unused ") {
            comments.extend_from_slice(line)?;
            comments.push(b'\n')?;
        }
    }
    Ok(comments)
}

/// The plan that belongs to a file, if there is one.
fn plan<R: Files + AllocGlobal>(rt: &R, file: &RowFile<'_>) -> Result<Option<Plan>, RowError> {
    let Some(bytes) = file.beside(rt, "pauses")? else {
        return Ok(None);
    };
    match Plan::read(rt.alloc(), &bytes) {
        Ok(plan) => Ok(Some(plan)),
        Err(PlanError::Broken(line)) => Err(RowError::Unread(line as usize)),
        Err(PlanError::Memory) => Err(RowError::Refused(Fault::Memory)),
    }
}

/// What the `.out` that belongs to a file says: nothing if there is none.
fn output<R: Files + AllocGlobal>(rt: &R, file: &RowFile<'_>) -> Result<Vec<u8>, RowError> {
    match file.beside(rt, "out")? {
        Some(output) => Ok(output),
        None => Ok(Vec::new(rt.alloc())),
    }
}

/// Checks the runs of a program against its `.row`, and that they write this.
fn check_row<R: Files + AllocGlobal + Threads + Wait + Sync>(
    rt: &R,
    file: &RowFile<'_>,
    text: &[u8],
    output: &[u8],
) -> Result<(), RowError> {
    let row = file.row(rt)?;
    check_runs(rt, rt.alloc(), text, &row, output)
}

/// Checks the events of a program against its `.trace`: those that are settled on one thread, and those that a run writes, with each
/// number of workers of its row. If there is a plan it is the trace of the run by that plan.
fn check_trace<R: Files + AllocGlobal + Threads + Wait + Sync>(
    rt: &R,
    file: &RowFile<'_>,
) -> Result<(), RowError> {
    let text = file.text(rt)?;
    let wanted = file.bytes(rt)?;
    match plan(rt, file)? {
        Some(plan) => check_paused_trace(rt.alloc(), &text, &plan, file.row(rt)?.limit, &wanted),
        None => check_events(rt, file, &text, &wanted),
    }
}

/// Checks that the run of a program by a plan writes these events.
fn check_paused_trace(
    alloc: Global,
    text: &[u8],
    plan: &Plan,
    limit: u64,
    wanted: &[u8],
) -> Result<(), RowError> {
    let ran = Ran::traced(alloc, text, plan, limit)?;
    same_lines(alloc, "the trace (--pauses)", wanted, &ran.trace)
}

/// Checks that a program has these events, up to the limit of its row.
fn check_events<R: Files + AllocGlobal + Threads + Wait + Sync>(
    rt: &R,
    file: &RowFile<'_>,
    text: &[u8],
    wanted: &[u8],
) -> Result<(), RowError> {
    let row = file.row(rt)?;
    check_recorded(rt.alloc(), text, row.limit, wanted)?;
    for workers in row.workers.iter() {
        check_traced(rt, rt.alloc(), text, row.limit, *workers, wanted)?;
    }
    Ok(())
}

/// Checks that these events of a program are settled on one thread.
fn check_recorded(alloc: Global, text: &[u8], limit: u64, wanted: &[u8]) -> Result<(), RowError> {
    let recorded = recorded_lines(alloc, text, limit)?;
    same_lines(alloc, "the events that are settled", wanted, &recorded)
}

/// Checks that a run of a program with `workers` workers writes these events.
fn check_traced<R: Threads + Wait + Sync>(
    rt: &R,
    alloc: Global,
    text: &[u8],
    limit: u64,
    workers: u64,
    wanted: &[u8],
) -> Result<(), RowError> {
    let what = format!(in alloc; "the trace (--workers {workers})")?;
    let ran = Ran::of(rt, alloc, text, limit, workers)?;
    same_lines(alloc, &what, wanted, &ran.trace)
}

/// Checks that a file has what is made of its program.
fn check_made<R: Files + AllocGlobal>(
    rt: &R,
    file: &RowFile<'_>,
    made: Made,
) -> Result<(), RowError> {
    let wanted = file.bytes(rt)?;
    let came = made_of(rt, file, made)?;
    same_lines(rt.alloc(), name_of(made), &wanted, &came)
}

/// What is made of a file's program: of its run, up to the limit of its row. If there is a plan, a picture or an explanation is that of
/// the run by the plan.
fn made_of<R: Files + AllocGlobal>(
    rt: &R,
    file: &RowFile<'_>,
    made: Made,
) -> Result<Vec<u8>, RowError> {
    let row = file.row(rt)?;
    let text = file.text(rt)?;
    match (made, plan(rt, file)?) {
        (Made::Drawing, Some(plan)) => {
            paused_picture(rt.alloc(), &text, &plan, row.limit, Format::Drawing)
        }
        (Made::TraceEvents, Some(plan)) => {
            paused_picture(rt.alloc(), &text, &plan, row.limit, Format::TraceEvents)
        }
        (Made::Explanation, Some(plan)) => {
            explained_by_plan(rt.alloc(), file.text_name(), &text, &plan, row.limit)
        }
        _ => made_up_to(rt.alloc(), made, file.text_name(), &text, row.limit),
    }
}

/// What is made of a program of this name: of its run, up to this limit.
fn made_up_to(
    alloc: Global,
    made: Made,
    name: &str,
    text: &[u8],
    limit: u64,
) -> Result<Vec<u8>, RowError> {
    match made {
        Made::Drawing => picture(alloc, text, limit, Format::Drawing),
        Made::Explanation => explained(alloc, name, text, limit),
        Made::Listing => listing(alloc, text),
        Made::Spans => spans(alloc, text),
        Made::Tokens => tokens(alloc, text),
        Made::TraceEvents => picture(alloc, text, limit, Format::TraceEvents),
    }
}

/// The name of what is made, in a line about it.
fn name_of(made: Made) -> &'static str {
    match made {
        Made::Drawing => "the drawing",
        Made::Explanation => "the explanation",
        Made::Listing => "the listing",
        Made::Spans => "the spans",
        Made::Tokens => "the tokens",
        Made::TraceEvents => "the trace events",
    }
}

/// Compares what came with the lines of a file. If its first line is `..`, the others are only the last ones.
fn same_lines(alloc: Global, what: &str, wanted: &[u8], came: &[u8]) -> Result<(), RowError> {
    match wanted.strip_prefix(b"..\n".as_slice()) {
        Some(end) => same(alloc, what, end, last_lines(came, end)),
        None => same(alloc, what, wanted, came),
    }
}

/// As many of the last bytes as these have, and those before them on the same line.
fn last_lines<'a>(came: &'a [u8], end: &[u8]) -> &'a [u8] {
    let from = came.len().saturating_sub(end.len());
    let start = came[..from].iter().rposition(|byte| *byte == b'\n');
    match start {
        Some(newline) => &came[newline.saturating_add(1)..],
        None => came,
    }
}
