//! Pictures of runs.

ghost use Rattle.std.specs.Prelude.{◌≡◌, ◌⊎◌, ◌↔◌, IfErr, IfOk, IfSome, IsErr, IsErrOf, None, true};
ghost use Rattle.command_line.specs.declared.arguments.Subcommand.TheVariants as subcommands;
ghost use Rattle.kendo.specs.Verdicts.{Judges};
ghost use Rattle.kendo_reading.specs.Reading.{HasNoReading, IsRefusal, IsWhy, Reads};
ghost use Rattle.kendo_shell.specs.Answers.{Finds, IsOfOne};
ghost use Rattle.kendo_shell.specs.Streams.{has_refused};
ghost use Rattle.kendo_shell.specs.Traces.{has_lost};
ghost use Rattle.syntax.specs.Tree.{File};
ghost use Rattle.whole_run.specs.Runs.{IsLimit};

use crate::explaining::{explain, kept_program};
use crate::exploring::Task;
use crate::plans::plan_of;
use command_line::arguments::Invocation;
use go_text::{Fault, Memory};
use kendo_code::timeline_window;
use kendo_shell::USAGE;
use kendo_shell::files::{SourceFile, output_file, source_file};
use kendo_shell::streams::{tell, told_of_refusal};
use kendo_shell::tracing::{Outputs, Trace};
use paused_timeline::timeline_paused;
use pauses::Plan;
use std::alloc::Global;
use timeline::{Format, Recording, Window};
use word::end::End;
use word::{Write, write_all};

/// Writes a picture of the run of the program of a file, by the plan if one is named, to the file that the command names, or to standard
/// output if it names none, or `-`. A picture of no events, since the run has fewer, is refused. The source file is read before the plan.
pub(crate) fn draw_file(
    rt: &HostRuntime,
    alloc: Global,
    invocation: &Invocation<'_, '_>,
    limit: u64,
    file: &str,
) -> Result<u8, Memory>
    requires against { invocation.now.against ≡ None }
    requires draws { invocation.now.subcommand ≡ subcommands.Timeline limit }
    ensures { IfOk result (IsOfOne (Judges invocation.now)) }
{
    let Some(source) = source_file(rt, alloc, invocation, file, None)? else {
        return Ok(USAGE);
    };
    let Some(plan) = plan_of(rt, alloc, invocation)? else {
        return Ok(USAGE);
    };
    plan.compare_source(rt, alloc, file, source.bytes.as_slice())?;
    let kept = kept_program(
        rt,
        alloc,
        invocation,
        file,
        Some(&plan.plan),
        source.bytes.as_slice(),
    );
    let mut outputs = Outputs::new(rt, Trace::Dropped);
    let task = Task {
        rt,
        alloc,
        invocation,
        file,
    };
    let Some(outcome) = draw(task, &source, &plan.plan, limit, &mut outputs)? else {
        return Ok(USAGE);
    };
    let refused = outputs.refused();
    let status = told_of_refusal(rt, alloc, None, &outcome, refused)?;
    plan.report_unused(rt, alloc, invocation, &outcome)?;
    explain(rt, alloc, invocation, kept, outcome, refused);
    Ok(status)
}

/// What the command finds in the program, of whose run it writes a picture. `None` if no picture can be written: standard error
/// says why.
fn draw(
    task: Task<'_, '_, '_>,
    source: &SourceFile,
    plan: &Plan,
    limit: u64,
    outputs: &mut Outputs,
) -> Result<Option<Result<End, Fault>>, Memory>
    ensures found { IfOk result (λ drawn. IfSome drawn (Finds (subcommands.Timeline limit) source.now.bytes.items)) }
    ensures write { IfOk result (λ drawn. IfSome drawn (λ outcome. IsErrOf outcome Fault.Write → (has_refused outputs.new.standard ≡ true) ⊎ (has_lost outputs.new.file ≡ true))) }
{
    let Task {
        rt,
        alloc,
        invocation,
        file: _,
    } = task;
    let bytes = Vec::from_slice(alloc, source.bytes.as_slice())?;
    let format = Format::of(invocation.out);
    let recording = match recorded(alloc, bytes, plan, limit, invocation, format.most_events()) {
        Ok(recording) => recording,
        Err(fault) => return Ok(Some(Err(fault))),
    };
    if let Some(line) = refusal(alloc, invocation, &recording)? {
        tell(rt, line.as_bytes());
        return Ok(None);
    }
    let Some(file) = picture_file(rt, alloc, invocation, source)? else {
        return Ok(None);
    };
    outputs.file = file;
    match show(alloc, &recording, format, outputs) {
        Ok(()) => Ok(Some(Ok(End::Finished))),
        Err(fault) => Ok(Some(Err(fault))),
    }
}

/// The file that the picture goes to, if that is not standard output. `None` if it can't be used: standard error says why.
fn picture_file(
    rt: &HostRuntime,
    alloc: Global,
    invocation: &Invocation<'_, '_>,
    source: &SourceFile,
) -> Result<Option<Trace>, Memory> {
    if invocation.out == Some("-") {
        return Ok(Some(Trace::Dropped));
    }
    output_file(rt, alloc, invocation, source, None)
}

/// The line on standard error if the picture would show no events, since the run has fewer than the command names.
fn refusal(
    alloc: Global,
    invocation: &Invocation<'_, '_>,
    recording: &Recording,
) -> Result<Option<String>, Memory> {
    let Some(from) = invocation.from else {
        return Ok(None);
    };
    if !recording.events.is_empty() || from <= 1 {
        return Ok(None);
    }
    let count = recording.before;
    let unit = if count == 1 { "event" } else { "events" };
    let line = format!(in alloc; "kendo: --from {from}: the run has {count} {unit}\n")?;
    Ok(Some(line))
}

/// The events that the picture shows, at most `most`: of a run by a plan, if one is named.
fn recorded(
    alloc: Global,
    bytes: Vec<u8>,
    plan: &Plan,
    limit: u64,
    invocation: &Invocation<'_, '_>,
    most: usize,
) -> Result<Recording, Fault>
    ensures limit { IsErrOf result Fault.BadLimit ↔ (IsLimit limit → ⊥) }
    ensures refused { IfErr result (λ fault. IsRefusal fault → HasNoReading bytes.items) }
    ensures why { IfErr result (λ fault. IsRefusal fault → IsWhy bytes.items fault) }
    ensures only { IfErr result (λ fault. IsRefusal fault ⊎ ((fault ≡ Fault.Memory) ⊎ (fault ≡ Fault.BadLimit))) }
    ensures reads { IfOk result (λ _. (file : File) × Reads bytes.items file) }
{
    let window = window_of(invocation);
    match invocation.pauses {
        Some(_) => timeline_paused(alloc, bytes, plan, limit, window, most),
        None => timeline_window(alloc, bytes, limit, window, most),
    }
}

/// The events that the picture shows.
fn window_of(invocation: &Invocation<'_, '_>) -> Window {
    match (invocation.from, invocation.last) {
        (Some(event), _) => Window::From(event),
        (None, Some(count)) => Window::Last(count),
        (None, None) => Window::First,
    }
}

/// Writes the picture of a recording.
fn show(
    alloc: Global,
    recording: &Recording,
    format: Format,
    outputs: &mut Outputs,
) -> Result<(), Fault>
    ensures only { IfErr result (λ fault. (fault ≡ Fault.Memory) ⊎ (fault ≡ Fault.Write)) }
    ensures write { IsErrOf result Fault.Write → (has_refused outputs.new.standard ≡ true) ⊎ (has_lost outputs.new.file ≡ true) }
{
    let text = format.picture(alloc, recording)?;
    match &mut outputs.file {
        Trace::Dropped => put(&mut outputs.standard, text.as_str()),
        Trace::Kept(file) => put(file, text.as_str()),
    }
}

/// Writes a text.
fn put<W: Write>(out: &mut W, text: &str) -> Result<(), Fault>
    ensures only { IfErr result (λ fault. fault ≡ Fault.Write) }
    ensures write { IsErr result → W.has_failed out.new ≡ true }
{
    match write_all(out, text.as_bytes()) {
        Ok(()) => Ok(()),
        Err(_) => Err(Fault::Write),
    }
}
