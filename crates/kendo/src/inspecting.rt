//! Moments of runs.

ghost use Rattle.std.specs.Prelude.{◌≡◌, ◌⊎◌, ◌↔◌, IfErr, IfOk, IsErr, IsErrOf, true};
ghost use Rattle.command_line.specs.declared.arguments.Subcommand.TheVariants as subcommands;
ghost use Rattle.kendo_reading.specs.Reading.{HasNoReading, IsRefusal, IsWhy, Reads};
ghost use Rattle.kendo_shell.specs.Answers.{Finds};
ghost use Rattle.kendo_shell.specs.Streams.{has_refused};
ghost use Rattle.syntax.specs.Tree.{File};
ghost use Rattle.whole_run.specs.Runs.{IsLimit};

use command_line::arguments::Invocation;
use go_text::Fault;
use kendo_inspect::{Inspected, Until, inspect_bytes, inspect_paused_bytes};
use kendo_shell::tracing::Outputs;
use pauses::Plan;
use std::alloc::Global;
use word::end::End;
use word::write_all;

/// The last clock that is shown if the command names no moment: a run that goes on then is shown as it is at this clock.
const LAST_CLOCK: u64 = 1_000_000;

/// The line below what is shown of such a run.
const GOES_ON: &[u8] =
    b"the run goes on: this is its moment at logical time 1000000; --at and --event show a later one\n";

/// The line on standard error if the command to inspect names two moments, or one that there is not.
pub(crate) fn moment_conflict(invocation: &Invocation<'_, '_>) -> Option<&'static [u8]> {
    match (invocation.event, invocation.at) {
        (Some(0), None) => Some(b"kendo: events are counted from 1\n"),
        (Some(_), Some(_)) => Some(b"kendo: --event and --at can't be used together\n"),
        (Some(_) | None, None) | (None, Some(_)) => None,
    }
}

/// Shows the moment of the program's run that the command names on standard output.
pub(crate) fn inspect(
    alloc: Global,
    bytes: Vec<u8>,
    plan: &Plan,
    limit: u64,
    invocation: &Invocation<'_, '_>,
    outputs: &mut Outputs,
) -> Result<End, Fault>
    ensures found { Finds (subcommands.Inspect limit) bytes.items result }
    ensures write { IsErrOf result Fault.Write → has_refused outputs.new.standard ≡ true }
{
    let seen = inspected(alloc, bytes, plan, limit, invocation)?;
    show(&seen, rest_of(&seen, invocation), outputs)?;
    Ok(End::Finished)
}

/// The moment of the program's run that the command names. If it names a plan, goroutines keep to `plan`.
fn inspected(
    alloc: Global,
    bytes: Vec<u8>,
    plan: &Plan,
    limit: u64,
    invocation: &Invocation<'_, '_>,
) -> Result<Inspected, Fault>
    ensures limit { IsErrOf result Fault.BadLimit ↔ (IsLimit limit → ⊥) }
    ensures refused { IfErr result (λ fault. IsRefusal fault → HasNoReading bytes.items) }
    ensures why { IfErr result (λ fault. IsRefusal fault → IsWhy bytes.items fault) }
    ensures only { IfErr result (λ fault. IsRefusal fault ⊎ ((fault ≡ Fault.Memory) ⊎ (fault ≡ Fault.BadLimit))) }
    ensures reads { IfOk result (λ _. (file : File) × Reads bytes.items file) }
{
    let until = until_of(invocation);
    match invocation.pauses {
        Some(_) => inspect_paused_bytes(alloc, invocation.file, bytes, plan, limit, until),
        None => inspect_bytes(alloc, invocation.file, bytes, limit, until),
    }
}

/// The moment that the command names, else the last one up to `LAST_CLOCK`.
fn until_of(invocation: &Invocation<'_, '_>) -> Until {
    match (invocation.event, invocation.at) {
        (Some(number), _) => Until::Event(number),
        (None, Some(time)) => Until::Clock(time),
        (None, None) => Until::Clock(LAST_CLOCK),
    }
}

/// The line below what is shown: that the run goes on, if the command names no moment and the run has not ended.
fn rest_of(seen: &Inspected, invocation: &Invocation<'_, '_>) -> &'static [u8] {
    match (invocation.event, invocation.at, seen.end) {
        (None, None, None) => GOES_ON,
        _ => b"",
    }
}

/// Writes what is shown of a moment, and the line below it, to standard output.
fn show(seen: &Inspected, rest: &[u8], outputs: &mut Outputs) -> Result<(), Fault>
    ensures only { IfErr result (λ fault. fault ≡ Fault.Write) }
    ensures write { IsErr result → has_refused outputs.new.standard ≡ true }
{
    write(seen.text.as_slice(), outputs)?;
    write(rest, outputs)
}

/// Writes these bytes to standard output.
fn write(bytes: &[u8], outputs: &mut Outputs) -> Result<(), Fault>
    ensures only { IfErr result (λ fault. fault ≡ Fault.Write) }
    ensures write { IsErr result → has_refused outputs.new.standard ≡ true }
{
    match write_all(&mut outputs.standard, bytes) {
        Ok(()) => Ok(()),
        Err(_) => Err(Fault::Write),
    }
}
