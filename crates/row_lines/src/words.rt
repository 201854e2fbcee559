//! Command lines, and the result of each.

use command_line::arguments::{Invocation, Subcommand, command, invocation_of};
use command_line::numbers::plain_words;
use row_format::row_error::{RowError, same};
use row_format::written::bytes_of;
use std::alloc::{AllocError, Global};

/// Checks a line of a table: an empty one, a comment, or a command line and its result.
pub fn check_words(alloc: Global, line: &str) -> Result<(), RowError> {
    if line.is_empty() || line.starts_with('#') {
        return Ok(());
    }
    let Some((words, told)) = line.split_once('\t') else {
        return Err(RowError::Form);
    };
    check_answer(alloc, words, &bytes_of(alloc, told)?)
}

/// Checks that the result of a command line begins with these bytes.
fn check_answer(alloc: Global, words: &str, wanted: &[u8]) -> Result<(), RowError> {
    let words = words_of(alloc, words)?;
    let came = answer(alloc, words.as_slice())?;
    let came = came.as_bytes();
    let beginning = &came[..came.len().min(wanted.len())];
    same(alloc, "what comes of the words", wanted, beginning)
}

/// The words of a line.
fn words_of(alloc: Global, line: &str) -> Result<Vec<String>, AllocError> {
    let mut words = Vec::new(alloc);
    for word in line.split(' ') {
        words.push(word.to_string(alloc)?)?;
    }
    Ok(words)
}

/// The request that the command line makes; or the stream on which its message appears, and the message.
fn answer(alloc: Global, words: &[String]) -> Result<String, AllocError> {
    let words = plain_words(alloc, words)?;
    match command(alloc)?.try_get_matches_from(words.as_slice()) {
        Ok(matches) => {
            let Some(asked) = invocation_of(&matches) else {
                return "nothing".to_string(alloc);
            };
            told(alloc, &asked)
        }
        Err(error) => shown(alloc, &error),
    }
}

/// The request: its files, the other files, whether it explains, and what is done.
fn told(alloc: Global, asked: &Invocation<'_, '_>) -> Result<String, AllocError> {
    let Invocation {
        file,
        files,
        trace,
        values,
        pauses,
        against,
        strict,
        out,
        from,
        last,
        event,
        at,
        seconds,
        ends,
        unordered,
        ordered,
        leaks,
        whole,
        orders,
        update,
        json,
        explains,
        asks_to_explain: _,
        subcommand,
    } = *asked;
    let done = done(alloc, subcommand)?;
    let mut more = String::new(alloc);
    for other in files.iter().skip(1) {
        let other = format!(in alloc; "{other:?} ")?;
        more.push_str(other.as_str())?;
    }
    let events = events(alloc, from, last)?;
    let moment = moment(alloc, event, at)?;
    let values = valued(alloc, values)?;
    let plan = plan(alloc, pauses)?;
    let compared = compared(alloc, against, strict)?;
    let time = time(alloc, seconds)?;
    let scope = scope(
        alloc,
        [ends, unordered, ordered, leaks, whole, orders, update, json],
    )?;
    format!(in alloc;
        "file {file:?} {more}trace {trace:?} {values}{plan}{compared}out {out:?} {events}{moment}{time}{scope}explains {explains}: {done}"
    )
}

/// What counts in an exploration, what a test does, and how they report it, if anything is chosen.
fn scope(alloc: Global, chosen: [bool; 8]) -> Result<String, AllocError> {
    let mut text = String::new(alloc);
    let names = [
        "ends ",
        "unordered ",
        "ordered ",
        "leaks ",
        "whole ",
        "orders ",
        "update ",
        "json ",
    ];
    for (name, is_chosen) in names.iter().zip(chosen.iter()) {
        if *is_chosen {
            text.push_str(name)?;
        }
    }
    Ok(text)
}

/// The file of the trace's values, if one is named.
fn valued(alloc: Global, values: Option<&str>) -> Result<String, AllocError> {
    match values {
        None => Ok(String::new(alloc)),
        Some(path) => format!(in alloc; "values {path:?} "),
    }
}

/// The file of the plan, if one is named.
fn plan(alloc: Global, pauses: Option<&str>) -> Result<String, AllocError> {
    match pauses {
        None => Ok(String::new(alloc)),
        Some(path) => format!(in alloc; "pauses {path:?} "),
    }
}

/// The file of the trace that a run is compared with, if one is named, and whether byte by byte.
fn compared(alloc: Global, against: Option<&str>, strict: bool) -> Result<String, AllocError> {
    let how = if strict { "strict " } else { "" };
    match against {
        None => how.to_string(alloc),
        Some(path) => format!(in alloc; "against {path:?} {how}"),
    }
}

/// The events that a picture shows, if they are chosen.
fn events(alloc: Global, from: Option<u64>, last: Option<u64>) -> Result<String, AllocError> {
    match (from, last) {
        (None, None) => Ok(String::new(alloc)),
        (from, last) => format!(in alloc; "from {from:?} last {last:?} "),
    }
}

/// The moment that is shown, if one is chosen.
fn moment(alloc: Global, event: Option<u64>, at: Option<u64>) -> Result<String, AllocError> {
    match (event, at) {
        (None, None) => Ok(String::new(alloc)),
        (event, at) => format!(in alloc; "event {event:?} at {at:?} "),
    }
}

/// How many seconds a search takes at most, if that is chosen.
fn time(alloc: Global, seconds: Option<u64>) -> Result<String, AllocError> {
    match seconds {
        None => Ok(String::new(alloc)),
        Some(seconds) => format!(in alloc; "seconds {seconds} "),
    }
}

/// What is done with a program.
fn done(alloc: Global, subcommand: Subcommand) -> Result<String, AllocError> {
    match subcommand {
        Subcommand::Check => "check".to_string(alloc),
        Subcommand::List => "list".to_string(alloc),
        Subcommand::Reference { limit } => format!(in alloc; "reference to {limit}"),
        Subcommand::Paused { workers, limit } => {
            format!(in alloc; "paused by {workers} to {limit}")
        }
        Subcommand::Timeline { limit } => format!(in alloc; "timeline to {limit}"),
        Subcommand::Explore {
            limit,
            tries,
            states,
        } => format!(in alloc; "explore to {limit} by {tries} walks and {states} states"),
        Subcommand::Test {
            limit,
            tries,
            states,
        } => format!(in alloc; "test to {limit} by {tries} walks and {states} states"),
        Subcommand::Inspect { limit } => format!(in alloc; "inspect to {limit}"),
        Subcommand::Run { workers, limit } => format!(in alloc; "run by {workers} to {limit}"),
    }
}

/// The message for a command line that makes no request.
fn shown(alloc: Global, error: &clap::Error) -> Result<String, AllocError> {
    let stream = if error.use_stderr() {
        "stderr"
    } else {
        "stdout"
    };
    format!(in alloc; "{stream} {error}")
}
