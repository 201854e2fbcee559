//! What is made of a program besides its run: its events, pictures of it, its listing, and what `--explain` says of it.

use diagnostic::explanations;
use go_text::Fault;
use kendo_code::{list_bytes, timeline_bytes};
use kendo_front::{explain_end, explain_end_by_plan, paused_bytes, reference_bytes};
use paused_timeline::timeline_paused;
use pauses::Plan;
use row_format::row_error::RowError;
use std::alloc::Global;
use timeline::{Format, Window};
use tracer::line;
use word::Flagged;
use word::end::End;

/// How many events of a run are compared at most.
const MOST_EVENTS: usize = 1_000_000;

/// The lines of the first events of the run of a program up to this limit, as they are settled on one thread.
pub(crate) fn recorded_lines(alloc: Global, text: &[u8], limit: u64) -> Result<Vec<u8>, RowError> {
    let bytes = Vec::from_slice(alloc, text)?;
    let recording = timeline_bytes(alloc, bytes, limit, MOST_EVENTS)?;
    let mut lines = Vec::new(alloc);
    for event in recording.events.iter() {
        let line = line(alloc, event).map_err(Fault::from)?;
        lines.extend_from_slice(line.as_slice())?;
    }
    Ok(lines)
}

/// The picture of the run of a program up to this limit.
pub(crate) fn picture(
    alloc: Global,
    text: &[u8],
    limit: u64,
    format: Format,
) -> Result<Vec<u8>, RowError> {
    let bytes = Vec::from_slice(alloc, text)?;
    let recording = timeline_bytes(alloc, bytes, limit, format.most_events())?;
    let picture = format.picture(alloc, &recording).map_err(Fault::from)?;
    Ok(picture.into_bytes())
}

/// The picture of the run of a program by a plan, up to this limit.
pub(crate) fn paused_picture(
    alloc: Global,
    text: &[u8],
    plan: &Plan,
    limit: u64,
    format: Format,
) -> Result<Vec<u8>, RowError> {
    let bytes = Vec::from_slice(alloc, text)?;
    let most = format.most_events();
    let recording = timeline_paused(alloc, bytes, plan, limit, Window::First, most)?;
    let picture = format.picture(alloc, &recording).map_err(Fault::from)?;
    Ok(picture.into_bytes())
}

/// What `--explain` prints of a source in the file of this name, without `.go`, or of the end of its run up to this limit: nothing if it
/// is a program that finishes and leaves no goroutine that waits forever.
pub(crate) fn explained(
    alloc: Global,
    name: &str,
    text: &[u8],
    limit: u64,
) -> Result<Vec<u8>, RowError> {
    let path = format!(in alloc; "{name}.go")?;
    match end_of(alloc, text, limit) {
        Ok(end) => {
            let bytes = Vec::from_slice(alloc, text)?;
            Ok(explain_end(alloc, path.as_str(), bytes, limit, end)?)
        }
        Err(fault) => refusal_explained(alloc, path.as_str(), text, &fault),
    }
}

/// What `--explain` prints of the end of the run, by a plan and up to this limit, of a program in the file of this name, without `.go`.
pub(crate) fn explained_by_plan(
    alloc: Global,
    name: &str,
    text: &[u8],
    plan: &Plan,
    limit: u64,
) -> Result<Vec<u8>, RowError> {
    let path = format!(in alloc; "{name}.go")?;
    let mut out = Flagged::new(Vec::new(alloc));
    let end = paused_bytes(alloc, Vec::from_slice(alloc, text)?, plan, limit, &mut out)?;
    let bytes = Vec::from_slice(alloc, text)?;
    Ok(explain_end_by_plan(alloc, path.as_str(), bytes, plan, limit, end)?)
}

/// How the run of a program up to this limit ends.
fn end_of(alloc: Global, text: &[u8], limit: u64) -> Result<End, Fault> {
    let mut out = Flagged::new(Vec::new(alloc));
    reference_bytes(alloc, Vec::from_slice(alloc, text)?, limit, &mut out)
}

/// What `--explain` says of a source that is refused.
fn refusal_explained(
    alloc: Global,
    path: &str,
    text: &[u8],
    fault: &Fault,
) -> Result<Vec<u8>, RowError> {
    let shown = match String::from_utf8(Vec::from_slice(alloc, text)?) {
        Ok(shown) => shown,
        Err(_) => String::new(alloc),
    };
    Ok(explanations(alloc, path, shown.as_str(), fault).map_err(Fault::from)?)
}

/// The listing of a program's code.
pub(crate) fn listing(alloc: Global, text: &[u8]) -> Result<Vec<u8>, RowError> {
    let mut out = Flagged::new(Vec::new(alloc));
    list_bytes(alloc, Vec::from_slice(alloc, text)?, &mut out)?;
    Ok(out.into_inner())
}
