//! Runs that are compared with recorded traces.

ghost use Rattle.std.specs.Prelude.{◌≡◌, ◌⊎◌, IfOk};
ghost use Rattle.kendo.specs.Verdicts.{Compares, FindsBy, IsTracedAs, Judges, compared_status};
ghost use Rattle.kendo_compare.specs.Comparing.{IsCompared};
ghost use Rattle.kendo_compare.specs.Traces.{IsTracedBy};
ghost use Rattle.pauses.specs.Plans.{pauses_of};

use crate::bounds::{has_workers, is_in_bounds};
use crate::explaining::{explain, kept_program};
use crate::exploring::Task;
use crate::plans::plan_of;
use command_line::arguments::{Invocation, Subcommand};
use go_text::{Fault, Memory};
use kendo_compare::{
    Program, Recorded, TraceError, check_trace, compare_traces, run_paused_with_trace,
    run_with_trace,
};
use kendo_shell::USAGE;
use kendo_shell::files::{SourceFile, all_bytes, source_file};
use kendo_shell::names::{Shown, shown_name};
use kendo_shell::streams::{tell, told_of_refusal};
use kendo_shell::tracing::{Outputs, Trace};
use pauses::Plan;
use std::alloc::Global;
use std::sync::Wait;
use std::thread::Threads;
use word::end::End;

/// The exit status if a run is not the recorded one.
const OTHER: u8 = 8;

/// Runs the program of a file, by the plan if one is named, and reports on standard error how its run compares with the trace that the
/// command names. The file is read before the plan and the trace.
pub(crate) fn compare_file(
    rt: &HostRuntime,
    threads: &(impl Threads + Wait + Sync),
    alloc: Global,
    invocation: &Invocation<'_, '_>,
    file: &str,
) -> Result<u8, Memory>
    ensures { IfOk result (λ status. (status ≡ USAGE) ⊎ Judges invocation.now status) }
{
    let Some(path) = invocation.against else {
        return Ok(USAGE);
    };
    let Some(source) = source_file(rt, alloc, invocation, file, None)? else {
        return Ok(USAGE);
    };
    let Some(plan) = plan_of(rt, alloc, invocation)? else {
        return Ok(USAGE);
    };
    let Some(recorded) = recorded_trace(rt, alloc, path, invocation)? else {
        return Ok(USAGE);
    };
    let SourceFile { bytes, .. } = source;
    plan.compare_source(rt, alloc, file, bytes.as_slice())?;
    let recorded = Recorded {
        path,
        bytes: recorded.as_slice(),
        is_strict: invocation.strict,
    };
    let task = Task {
        rt,
        alloc,
        invocation,
        file,
    };
    compare_run(task, threads, invocation, &plan.plan, bytes, &recorded)
}

/// Like `compare_file`, for the bytes of the file and of the recorded trace.
fn compare_run(
    task: Task<'_, '_, '_>,
    threads: &(impl Threads + Wait + Sync),
    invocation: &Invocation<'_, '_>,
    plan: &Plan,
    bytes: Vec<u8>,
    recorded: &Recorded<'_>,
) -> Result<u8, Memory>
    requires { recorded.now.is_strict ≡ invocation.now.strict }
    ensures { IfOk result (Compares invocation.now (pauses_of plan.now.pauses.items) recorded.now.bytes.now bytes.items) }
{
    let Task {
        rt,
        alloc,
        invocation: _,
        file,
    } = task;
    let text = bytes.clone()?;
    let mut outputs = Outputs::new(rt, Trace::Dropped);
    let mut trace = Vec::new(alloc);
    let outcome = find(
        threads,
        alloc,
        invocation,
        plan,
        bytes,
        &mut outputs,
        &mut trace,
    );
    let refused = outputs.refused();
    let status = told_of_refusal(rt, alloc, None, &outcome, refused)?;
    let kept = kept_program(rt, alloc, invocation, file, Some(plan), text.as_slice());
    explain(rt, alloc, invocation, kept, outcome, refused);
    let name = shown_name(alloc, file)?;
    let program = program_of(invocation, plan, name.as_str(), text.as_slice());
    match outcome {
        Ok(_) => {
            let is_same = compare(rt, alloc, &program, recorded, trace.as_slice())?;
            Ok(status_of(is_same, status))
        }
        Err(_) => Ok(status),
    }
}

/// The trace in a file; an empty one if the command is out of its bounds, since nothing runs then. `None` if the file can't be read or is no
/// trace: standard error says so, and, if the command explains, why.
///
/// Errors: `Memory`.
fn recorded_trace(
    rt: &HostRuntime,
    alloc: Global,
    path: &str,
    invocation: &Invocation<'_, '_>,
) -> Result<Option<Vec<u8>>, Memory> {
    if !is_in_bounds(invocation.subcommand) {
        return Ok(Some(Vec::new(alloc)));
    }
    let explains = invocation.explains;
    let Some(bytes) = all_bytes(rt, alloc, path, explains)? else {
        return Ok(None);
    };
    match check_trace(alloc, bytes.as_slice()) {
        Ok(()) => Ok(Some(bytes)),
        Err(TraceError::Memory) => Err(Memory),
        Err(TraceError::Broken(line)) => {
            refuse(rt, alloc, path, line, explains)?;
            Ok(None)
        }
    }
}

/// Reports that a trace is broken at a line, and, if that is to be explained, what a line of a trace is.
fn refuse(
    rt: &HostRuntime,
    alloc: Global,
    path: &str,
    line: u64,
    explains: bool,
) -> Result<(), Memory> {
    let path = Shown(path);
    let told = format!(in alloc; "kendo: broken trace at {path}:{line}\n")?;
    tell(rt, told.as_bytes());
    if explains {
        let why = format!(in alloc;
            "{path}:{line}: a line is `CLOCK GOROUTINE REQUEST`, as `3 2 send 1 to 1`\n"
        )?;
        tell(rt, why.as_bytes());
    }
    Ok(())
}

/// The program whose run is compared, which is the text of a file.
fn program_of<'p>(
    invocation: &Invocation<'_, '_>,
    plan: &'p Plan,
    path: &'p str,
    bytes: &'p [u8],
) -> Program<'p> {
    let (plan, limit) = match invocation.subcommand {
        Subcommand::Run { limit, .. } => (None, limit),
        Subcommand::Paused { limit, .. } => (Some(plan), limit),
        _ => (None, 0),
    };
    Program {
        path,
        bytes,
        plan,
        limit,
    }
}

/// What the command finds in the program if it runs it. Its trace goes to `trace`.
fn find(
    threads: &(impl Threads + Wait + Sync),
    alloc: Global,
    invocation: &Invocation<'_, '_>,
    plan: &Plan,
    bytes: Vec<u8>,
    outputs: &mut Outputs,
    trace: &mut Vec<u8>,
) -> Result<End, Fault>
    ensures found { FindsBy invocation.now.subcommand (pauses_of plan.now.pauses.items) bytes.items result }
    ensures traced { IfOk result (IsTracedAs invocation.now.subcommand (pauses_of plan.now.pauses.items) bytes.items trace.new.items) }
{
    match invocation.subcommand {
        Subcommand::Run { workers, limit } => run_with_trace(
            threads,
            alloc,
            bytes,
            workers,
            limit,
            &mut outputs.standard,
            trace,
        ),
        Subcommand::Paused { workers, limit } => {
            pause(alloc, bytes, plan, workers, limit, outputs, trace)
        }
        _ => Err(Fault::Memory),
    }
}

/// Interprets the program by the plan, whatever the number of workers is, but a wrong one. Its trace goes to `trace`.
fn pause(
    alloc: Global,
    bytes: Vec<u8>,
    plan: &Plan,
    workers: u64,
    limit: u64,
    outputs: &mut Outputs,
    trace: &mut Vec<u8>,
) -> Result<End, Fault>
    ensures found { FindsBy (Subcommand.Paused workers limit) (pauses_of plan.now.pauses.items) bytes.items result }
    ensures traced { IfOk result (IsTracedBy (pauses_of plan.now.pauses.items) bytes.items limit trace.new.items) }
{
    if !has_workers(workers) {
        return Err(Fault::BadWorkers);
    }
    run_paused_with_trace(alloc, bytes, plan, limit, &mut outputs.standard, trace)
}

/// Reports how a run's trace compares with a recorded one. Returns whether they are said to be the same.
fn compare(
    rt: &HostRuntime,
    alloc: Global,
    program: &Program<'_>,
    recorded: &Recorded<'_>,
    trace: &[u8],
) -> Result<bool, Memory>
    ensures { IfOk result (IsCompared recorded.now.is_strict recorded.now.bytes.now trace.now) }
{
    let compared = compare_traces(alloc, program, recorded, trace)?;
    tell(rt, compared.lines.as_slice());
    Ok(compared.is_same)
}

/// The exit status of a run that is compared, which is `status` if it is the recorded one.
fn status_of(is_same: bool, status: u8) -> u8
    ensures { result ≡ compared_status is_same status }
{
    if is_same { status } else { OTHER }
}
