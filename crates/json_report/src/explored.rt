//! What an exploration found.

use crate::record::{PauseRecord, Record, SearchRecord};
use base64::engine::general_purpose::STANDARD;
use go_text::Memory;
use kendo_explore::{Cause, Explored, Outcome, OutcomeEnd, PlannedPause, Verdict};
use kendo_report::text_of_panic;
use pauses::Change;
use program_states::Ending;
use std::alloc::{AllocError, Global};
use word::panic::Panic;

/// The lines of an exploration of the program in `file`: an object for each outcome, in the order of the report, and a last one for
/// the exploration.
///
/// Errors: out of memory.
pub fn exploration_lines(
    alloc: Global,
    file: &str,
    explored: &Explored,
) -> Result<Vec<u8>, Memory> {
    let mut lines = Vec::new(alloc);
    for (index, outcome) in explored.outcomes.iter().enumerate() {
        let record = outcome_record(alloc, file, index.saturating_add(1), outcome)?;
        lines.append(&mut record.line(alloc)?)?;
    }
    let record = Record::Exploration {
        file,
        verdict: verdict_name(explored.verdict),
        outcomes: explored.outcomes.len().saturating_add(explored.unlisted),
        searched: SearchRecord {
            states: explored.states,
            walks: explored.walks,
            all_orders: explored.is_whole,
        },
    };
    lines.append(&mut record.line(alloc)?)?;
    Ok(lines)
}

/// The name of a verdict.
fn verdict_name(verdict: Verdict) -> &'static str {
    match verdict {
        Verdict::Same => "same",
        Verdict::Unended => "unended",
        Verdict::SameSoFar => "same_so_far",
        Verdict::Other => "other",
        Verdict::Unshown => "unshown",
    }
}

/// The object of an outcome.
fn outcome_record<'r>(
    alloc: Global,
    file: &'r str,
    number: usize,
    outcome: &'r Outcome,
) -> Result<Record<'r>, AllocError> {
    let End {
        name,
        panic,
        message,
    } = End::of(outcome.end);
    let bytes = outcome.output.as_slice();
    let output = String::from_utf8_lossy(alloc, bytes)?;
    let output_base64 = match str::from_utf8(bytes) {
        Ok(_) => None,
        Err(_) => Some(STANDARD.encode(alloc, bytes)?),
    };
    let (plan, pauses) = match &outcome.cause {
        Cause::Plan { file, pauses } => (
            Some(file.as_str()),
            pause_records(alloc, pauses.as_slice())?,
        ),
        Cause::Ordinary | Cause::Unshown => (None, Vec::new(alloc)),
    };
    Ok(Record::Outcome {
        file,
        number,
        end: name,
        panic,
        message,
        output,
        output_base64,
        ordinary: matches!(outcome.cause, Cause::Ordinary),
        plan,
        pauses,
    })
}

/// How a program ends, as members of an object.
#[derive(Clone, Copy)]
struct End {
    name: &'static str,
    panic: Option<u8>,
    message: Option<&'static str>,
}

impl End {
    /// The members for an end.
    fn of(end: OutcomeEnd) -> End {
        match end {
            OutcomeEnd::Ends(Ending::Finished) => End::plain("finished"),
            OutcomeEnd::Ends(Ending::Deadlock) => End::plain("deadlock"),
            OutcomeEnd::Ends(Ending::Leak) => End::plain("leak"),
            OutcomeEnd::Ends(Ending::Panicked(panic)) => End::panicked("panic", panic),
            OutcomeEnd::Ends(Ending::Limit(panic)) => End::panicked("limit", panic),
            OutcomeEnd::Exhausted => End {
                message: Some("logical time exhausted"),
                ..End::plain("limit")
            },
            OutcomeEnd::Unended => End::plain("unended"),
        }
    }

    /// One without a panic.
    fn plain(name: &'static str) -> End {
        End {
            name,
            panic: None,
            message: None,
        }
    }

    /// One that is reported as a panic.
    fn panicked(name: &'static str, panic: Panic) -> End {
        End {
            name,
            panic: Some((panic as u8).saturating_add(1)),
            message: Some(text_of_panic(panic)),
        }
    }
}

/// The objects of pauses.
fn pause_records(
    alloc: Global,
    pauses: &[PlannedPause],
) -> Result<Vec<PauseRecord<'_>>, AllocError> {
    let mut records = Vec::new(alloc);
    for pause in pauses {
        let (ticks, clause) = match pause.change {
            Change::Wait(ticks) => (Some(ticks), None),
            Change::Clause(clause) => (None, Some(clause)),
        };
        records.push(PauseRecord {
            goroutine: str::from_utf8(pause.goroutine.as_slice()).unwrap_or(""),
            function: str::from_utf8(pause.function.as_slice()).unwrap_or(""),
            request: pause.request,
            ticks,
            clause,
            line: pause.line,
        })?;
    }
    Ok(records)
}
