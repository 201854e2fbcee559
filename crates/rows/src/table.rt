//! Tables of sources, each on a line after what is expected of it.

use crate::run::{Ran, check_runs, checked_line};
use go_text::{Fault, LimitKind};
use row_format::row::{LIMIT, Row};
use row_format::row_error::{RowError, same, shown};
use row_format::written::bytes_of;
use std::alloc::{AllocError, Global};
use std::sync::Wait;
use std::thread::Threads;
use word::end::End;

/// What is expected of a source.
enum Told<'a> {
    /// The scanner and the parser take it, whatever the checker says of it.
    Read,
    /// Each of its beginnings is refused: as 7 or 9.
    Cuts,
    /// The checker takes it.
    Typed,
    /// It finishes, and writes this.
    Prints(&'a str),
    /// It is refused with this line, after `kendo: `.
    Refused(&'a str),
}

/// What is put before and after each source of the next lines.
#[derive(Drop)]
pub(crate) struct Table {
    before: Vec<u8>,
    after: Vec<u8>,
}

impl Table {
    /// The table of whole sources.
    pub(crate) fn new(alloc: Global) -> Table {
        Table {
            before: Vec::new(alloc),
            after: Vec::new(alloc),
        }
    }

    /// Takes a line: an empty one, a comment, or what is put around the next sources; or checks what a line expects of its source.
    pub(crate) fn check_line<R: Threads + Wait + Sync>(
        &mut self,
        rt: &R,
        alloc: Global,
        line: &str,
    ) -> Result<(), RowError> {
        if line.is_empty() || line.starts_with('#') {
            return Ok(());
        }
        let (word, value) = line.split_once(' ').unwrap_or((line, ""));
        match word {
            "before" => self.before = bytes_of(alloc, value)?,
            "after" => self.after = bytes_of(alloc, value)?,
            _ => return self.check_text(rt, alloc, line),
        }
        Ok(())
    }

    /// Checks what a line expects of its source.
    fn check_text<R: Threads + Wait + Sync>(
        &self,
        rt: &R,
        alloc: Global,
        line: &str,
    ) -> Result<(), RowError> {
        let Some((told, written)) = line.split_once('\t') else {
            return Err(RowError::Form);
        };
        let mut text = Vec::from_slice(alloc, self.before.as_slice())?;
        text.extend_from_slice(bytes_of(alloc, written)?.as_slice())?;
        text.extend_from_slice(self.after.as_slice())?;
        match told_of(told) {
            Told::Read => check_read(rt, alloc, text.as_slice()),
            Told::Cuts => check_cuts(rt, alloc, text.as_slice()),
            Told::Typed => {
                let line = checked_line(alloc, text.as_slice())?;
                same(
                    alloc,
                    "the line on standard error (check)",
                    b"".as_slice(),
                    &line,
                )
            }
            Told::Prints(output) => check_output(rt, alloc, text.as_slice(), output),
            Told::Refused(told) => {
                let row = refused(alloc, told)?;
                check_runs(rt, alloc, text.as_slice(), &row, b"".as_slice())
            }
        }
    }
}

/// Checks that a program finishes, and writes this.
fn check_output<R: Threads + Wait + Sync>(
    rt: &R,
    alloc: Global,
    text: &[u8],
    output: &str,
) -> Result<(), RowError> {
    let output = bytes_of(alloc, output)?;
    let row = Row::new(alloc)?;
    check_runs(rt, alloc, text, &row, output.as_slice())
}

/// The expectation that the words before a source state.
fn told_of(words: &str) -> Told<'_> {
    match words.split_once(' ').unwrap_or((words, "")) {
        ("read", _) => Told::Read,
        ("cuts", _) => Told::Cuts,
        ("typed", _) => Told::Typed,
        ("prints", output) => Told::Prints(output),
        _ => Told::Refused(words),
    }
}

/// The row of a source that is refused so.
fn refused(alloc: Global, told: &str) -> Result<Row, AllocError> {
    let mut row = Row::new(alloc)?;
    row.status = 1;
    row.error = format!(in alloc; "kendo: {told}")?;
    Ok(row)
}

/// Whether the scanner and the parser took the source of a run.
fn was_read(outcome: &Result<End, Fault>) -> bool {
    match outcome {
        Ok(_) | Err(Fault::Typing { .. }) => true,
        Err(Fault::Limit { kind, .. }) => !matches!(
            kind,
            LimitKind::ListEntries | LimitKind::SelectClauses
        ),
        Err(_) => false,
    }
}

/// Checks that a source is read.
fn check_read<R: Threads + Wait + Sync>(
    rt: &R,
    alloc: Global,
    text: &[u8],
) -> Result<(), RowError> {
    let ran = Ran::of(rt, alloc, text, LIMIT, 1)?;
    if was_read(&ran.outcome) {
        return Ok(());
    }
    Err(RowError::Outcome {
        wanted: "a text that is read",
        came: shown(alloc, &ran.line, 0)?,
    })
}

/// Checks that each beginning of a source is refused.
fn check_cuts<R: Threads + Wait + Sync>(
    rt: &R,
    alloc: Global,
    text: &[u8],
) -> Result<(), RowError> {
    for length in 0..text.len() {
        let ran = Ran::of(rt, alloc, &text[..length], LIMIT, 1)?;
        let is_refused = matches!(&ran.outcome, Err(Fault::Syntax(_) | Fault::Typing { .. }));
        if !is_refused {
            let line = shown(alloc, &ran.line, 0)?;
            return Err(RowError::Outcome {
                wanted: "a refusal 7 or 9 of each beginning",
                came: format!(in alloc; "{line} of {length} bytes")?,
            });
        }
    }
    Ok(())
}
