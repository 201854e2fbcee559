//! The report of errors in a program as JSON.

ghost use Rattle.std.specs.Prelude.{◌≡◌, IfOk};
ghost use Rattle.kendo_report.specs.Outcome.{report_status};

use command_line::arguments::Invocation;
use go_text::{Fault, Memory};
use json_report::error_lines;
use kendo_report::report;
use kendo_shell::streams::told_of_refusal;
use kendo_shell::tracing::{Outputs, Refused, Trace};
use std::alloc::Global;
use word::end::End;
use word::write_all;

/// The program of a file, if the command reports its errors as JSON.
#[derive(Drop)]
pub(crate) struct Reported<'a> {
    /// The path as it was typed.
    file: &'a str,
    text: Vec<u8>,
}

impl<'a> Reported<'a> {
    /// A copy of the program; none if the command reports in words.
    ///
    /// Errors: out of memory.
    pub(crate) fn of(
        alloc: Global,
        invocation: &Invocation<'_, '_>,
        file: &'a str,
        bytes: &[u8],
    ) -> Result<Option<Reported<'a>>, Memory> {
        if !invocation.json {
            return Ok(None);
        }
        let text = bytes.to_vec(alloc)?;
        Ok(Some(Reported { file, text }))
    }
}

/// Reports an outcome, and returns its exit status: the errors of a program that is reported as JSON on standard output, an object a
/// line; else, as `told_of_refusal` does, on standard error.
///
/// Errors: `Memory`.
pub(crate) fn told_of(
    rt: &HostRuntime,
    alloc: Global,
    name: Option<&str>,
    reported: Option<&Reported<'_>>,
    outcome: &Result<End, Fault>,
    refused: Option<Refused>,
) -> Result<u8, Memory>
    ensures { IfOk result (λ status. status ≡ report_status outcome.now) }
{
    let (Some(reported), Err(fault)) = (reported, outcome) else {
        return told_of_refusal(rt, alloc, name, outcome, refused);
    };
    if !is_error(fault) {
        return told_of_refusal(rt, alloc, name, outcome, refused);
    }
    let (_line, status) = report(alloc, outcome)?;
    let lines = error_lines(alloc, reported.file, reported.text.as_slice(), fault)?;
    let mut outputs = Outputs::new(rt, Trace::Dropped);
    // The status says that there are errors even if the lines are lost.
    let _written = write_all(&mut outputs.standard, lines.as_slice());
    Ok(status)
}

/// Whether a fault is an error of a program.
fn is_error(fault: &Fault) -> bool {
    !matches!(
        fault,
        Fault::Unverified { .. }
            | Fault::NotYours
            | Fault::Memory
            | Fault::Write
            | Fault::BadWorkers
            | Fault::BadLimit
    )
}
