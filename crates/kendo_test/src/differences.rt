//! The differences between an output and the expected one.

use crate::lines::{Failure, push_line};
use expected_output::{Expectation, ExpectedOutput, sorted_lines};
use go_text::Memory;
use std::alloc::{AllocError, Global};
use word::end::End;

/// Appends how a run differs from what is expected.
///
/// Errors: out of memory.
pub(crate) fn push_differences(
    failure: &mut Failure,
    alloc: Global,
    expectation: &Expectation,
    end: End,
    output: &[u8],
) -> Result<(), Memory> {
    if end != expectation.end {
        failure.push_end(end, expectation.end);
    }
    if let Some(wanted) = &expectation.output {
        push_output(failure, alloc, wanted, output)?;
    }
    Ok(())
}

/// Appends how a run in another order differs from what is expected: by its end, or else by its output.
///
/// Errors: out of memory.
pub(crate) fn push_other(
    failure: &mut Failure,
    alloc: Global,
    expectation: &Expectation,
    end: End,
    output: &[u8],
) -> Result<(), Memory> {
    if end != expectation.end {
        failure.push_outcome(Ok(end));
        return Ok(());
    }
    if let Some(wanted) = &expectation.output {
        push_output(failure, alloc, wanted, output)?;
    }
    Ok(())
}

/// Appends the first line of an output that differs.
fn push_output(
    failure: &mut Failure,
    alloc: Global,
    wanted: &ExpectedOutput,
    output: &[u8],
) -> Result<(), AllocError> {
    let Ok(printed) = str::from_utf8(output) else {
        return Ok(());
    };
    let (printed, wanted_text) = (printed.trim(), wanted.text.as_str().trim());
    if wanted.is_unordered {
        push_unordered(failure, alloc, printed, wanted_text)
    } else {
        push_first(failure, printed, wanted_text);
        Ok(())
    }
}

/// Appends the first line that differs, if one does.
fn push_first(failure: &mut Failure, printed: &str, wanted: &str) {
    let mut printed = lines_of(printed);
    let mut wanted = lines_of(wanted);
    for number in 1..usize::MAX {
        let (got, printed_rest) = cut(printed);
        let (want, wanted_rest) = cut(wanted);
        if got.is_none() && want.is_none() {
            return;
        }
        if got != want {
            push_lines(failure, number, got, want);
            return;
        }
        printed = printed_rest;
        wanted = wanted_rest;
    }
}

/// The lines of a text; `None` if it is empty, and has no line.
fn lines_of(text: &str) -> Option<&str> {
    if text.is_empty() { None } else { Some(text) }
}

/// The first of these lines, if there is one, and those after it.
fn cut(lines: Option<&str>) -> (Option<&str>, Option<&str>) {
    let Some(lines) = lines else {
        return (None, None);
    };
    match lines.split_once('\n') {
        Some((line, rest)) => (Some(line), Some(rest)),
        None => (Some(lines), None),
    }
}

/// Appends the line of a number that was printed, and the one that is wanted.
fn push_lines(failure: &mut Failure, number: usize, got: Option<&str>, want: Option<&str>) {
    failure.reason();
    failure.said.text("line ");
    failure.said.number(number as i128);
    failure.said.text(" of the output: got ");
    push_line(&mut failure.said, got);
    failure.said.text(", want ");
    push_line(&mut failure.said, want);
}

/// Appends the first line, in the order of bytes, that is printed too often or not often enough, if there is one.
fn push_unordered(
    failure: &mut Failure,
    alloc: Global,
    printed: &str,
    wanted: &str,
) -> Result<(), AllocError> {
    let printed = sorted_lines(alloc, printed)?;
    let wanted = sorted_lines(alloc, wanted)?;
    let count = printed.len().max(wanted.len());
    for index in 0..count {
        let (got, want) = (printed.get(index).copied(), wanted.get(index).copied());
        if got != want {
            push_one(failure, got, want);
            break;
        }
    }
    Ok(())
}

/// Appends which of two lines, at the same index of sorted lines, is too many or missing.
fn push_one(failure: &mut Failure, got: Option<&str>, want: Option<&str>) {
    failure.reason();
    let is_missing = match (got, want) {
        (Some(got), Some(want)) => want < got,
        (None, Some(_)) => true,
        (_, None) => false,
    };
    if is_missing {
        failure.said.text("a line of the output is missing: ");
        push_line(&mut failure.said, want);
    } else {
        failure.said.text("a line of the output is too many: ");
        push_line(&mut failure.said, got);
    }
}
