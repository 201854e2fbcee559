//! The program: its command line, its files, and the standard streams.
#![tactic(auto)]

ghost use Rattle.std.specs.Prelude.{◌≡◌, ◌⊎◌, IfOk, IsErrOf, length, map, None, string_bytes, true};
ghost use Rattle.kendo.specs.Verdicts.{FindsBy, FindsPlainly, IsJudged, Judges, JudgesAll, is_test};
ghost use Rattle.kendo_shell.specs.Answers.{Finds, IsOfAll, IsOfOne, IsStatus, Obeys};
ghost use Rattle.kendo_shell.specs.Streams.{has_refused};
ghost use Rattle.kendo_shell.specs.Traces.{IsLost, has_lost};
ghost use Rattle.pauses.specs.Plans.{pauses_of};

mod bounds;
mod comparing;
mod errors;
mod explaining;
mod exploring;
mod inspecting;
mod pictures;
mod plan_files;
mod plans;
mod progress;
mod running;
mod testing;
mod updating;

use bounds::has_workers;
use command_line::arguments::{Invocation, Subcommand, command, invocation_of};
use comparing::compare_file;
use errors::{Reported, told_of};
use explaining::{explain, kept_program};
use exploring::explore_file;
use go_text::{Fault, Memory};
use inspecting::{inspect, moment_conflict};
use kendo_code::list_bytes;
use kendo_front::{paused_bytes_noting, reference_bytes, traced_bytes_noting};
use kendo_shell::USAGE;
use kendo_shell::checking::check;
use kendo_shell::files::{SourceFile, output_conflict, output_files, source_file};
use kendo_shell::streams::{Stream, exit, tell};
use kendo_shell::tracing::{Outputs, Trace};
use kendo_shell::words::{first_failure, name_of, show, with_environment, words_in};
use pictures::draw_file;
use plans::{GivenPlan, plan_of};
use running::{run_valued, write};
use std::alloc::Global;
use std::fs::File;
use std::io::Stdout;
use std::process::ExitCode;
use std::sync::Wait;
use std::thread::Threads;
use testing::test_files;
use word::end::End;

fn main(rt: HostRuntime) -> ExitCode {
    exit(&rt, start(&rt, &rt))
}

/// Reads the command line and does what it asks, down to the exit status. `threads` permits a run to start workers and wait for them.
fn start(rt: &HostRuntime, threads: &(impl Threads + Wait + Sync)) -> Result<u8, Memory>
    ensures { IfOk result IsStatus }
{
    let alloc = rt.alloc();
    match words_in(rt, alloc)? {
        Some(words) => obey(rt, threads, alloc, words.as_slice()),
        None => Ok(USAGE),
    }
}

/// Does what these words ask, the first of which is the program's name, down to the exit status.
fn obey(
    rt: &HostRuntime,
    threads: &(impl Threads + Wait + Sync),
    alloc: Global,
    words: &[String],
) -> Result<u8, Memory>
    ensures { IfOk result (λ status. Obeys JudgesAll (map string_bytes words.now) status) }
{
    match command(alloc)?.try_get_matches_from(words) {
        Ok(matches) => match invocation_of(&matches) {
            Some(invocation) => perform(rt, threads, alloc, &invocation),
            None => Ok(USAGE),
        },
        Err(error) => show(rt, alloc, words, &error),
    }
}

/// Checks, lists, interprets, draws, explores, tests or runs the files, and reports each outcome. The status is that of the first file whose status
/// is not 0.
fn perform(
    rt: &HostRuntime,
    threads: &(impl Threads + Wait + Sync),
    alloc: Global,
    invocation: &Invocation<'_, '_>,
) -> Result<u8, Memory>
    ensures { IfOk result (λ status. (status ≡ USAGE) ⊎ JudgesAll invocation.now status) }
{
    if let Some(line) = conflict(invocation) {
        tell(rt, line);
        return Ok(USAGE);
    }
    let invocation = &with_environment(rt, invocation);
    if is_test(invocation.subcommand) {
        return test_files(rt, threads, alloc, invocation);
    }
    let status = perform_each(rt, threads, alloc, invocation)?;
    Ok(status)
}

/// Whether the command tests programs.
fn is_test(subcommand: Subcommand) -> bool
    ensures { result ≡ is_test subcommand }
{
    matches!(subcommand, Subcommand::Test { .. })
}

/// The line on standard error if two options can't be used together.
fn conflict(invocation: &Invocation<'_, '_>) -> Option<&'static [u8]> {
    if invocation.from.is_some() && invocation.last.is_some() {
        return Some(b"kendo: --from and --last can't be used together\n");
    }
    if invocation.against.is_some() && invocation.trace.is_some() {
        return Some(b"kendo: --against and --trace can't be used together\n");
    }
    if invocation.values.is_some() && invocation.trace.is_none() {
        return Some(b"kendo: --values needs --trace\n");
    }
    if invocation.strict && invocation.against.is_none() {
        return Some(b"kendo: --strict needs --against\n");
    }
    if invocation.ordered && invocation.unordered {
        return Some(b"kendo: --ordered and --unordered can't be used together\n");
    }
    match invocation.subcommand {
        Subcommand::Test { .. } => test_conflict(invocation),
        Subcommand::Inspect { .. } => moment_conflict(invocation),
        _ => output_conflict(invocation),
    }
}

/// Like `conflict`, for a test: goroutines that wait for good are found by the search of other orders alone.
fn test_conflict(invocation: &Invocation<'_, '_>) -> Option<&'static [u8]> {
    if invocation.leaks && !invocation.orders {
        return Some(b"kendo: --leaks needs --orders\n");
    }
    if invocation.update && invocation.orders {
        return Some(b"kendo: --update and --orders can't be used together\n");
    }
    if invocation.update && invocation.files.iter().any(|file| *file == "-") {
        return Some(b"kendo: --update can't rewrite standard input\n");
    }
    None
}

/// Like `perform`, for a command that is no test.
fn perform_each(
    rt: &HostRuntime,
    threads: &(impl Threads + Wait + Sync),
    alloc: Global,
    invocation: &Invocation<'_, '_>,
) -> Result<u8, Memory>
    ensures { IfOk result (IsOfAll (Judges invocation.now) (length invocation.now.files.now)) }
{
    let mut status = 0;
    for file in invocation.files {
        let next = perform_on(rt, threads, alloc, invocation, file)?;
        status = first_failure(status, next);
    }
    Ok(status)
}

/// Like `perform`, for one of the files.
fn perform_on(
    rt: &HostRuntime,
    threads: &(impl Threads + Wait + Sync),
    alloc: Global,
    invocation: &Invocation<'_, '_>,
    file: &str,
) -> Result<u8, Memory>
    ensures { IfOk result (IsOfOne (Judges invocation.now)) }
{
    if let Subcommand::Explore { .. } = invocation.subcommand {
        return explore_file(rt, alloc, invocation, file);
    }
    match invocation.against {
        Some(_) => compare_file(rt, threads, alloc, invocation, file),
        None => answer_file(rt, threads, alloc, invocation, file),
    }
}

/// Like `perform`, for a file that is neither explored nor compared with a trace. A picture is drawn apart. The file is read before any
/// other.
fn answer_file(
    rt: &HostRuntime,
    threads: &(impl Threads + Wait + Sync),
    alloc: Global,
    invocation: &Invocation<'_, '_>,
    file: &str,
) -> Result<u8, Memory>
    requires { invocation.now.against ≡ None }
    ensures { IfOk result (IsOfOne (Judges invocation.now)) }
{
    if let Subcommand::Timeline { limit } = invocation.subcommand {
        return draw_file(rt, alloc, invocation, limit, file);
    }
    let Some(source) = source_file(rt, alloc, invocation, file, name_of(invocation, file))? else {
        return Ok(USAGE);
    };
    let Some(plan) = plan_of(rt, alloc, invocation)? else {
        return Ok(USAGE);
    };
    let Some((trace, values)) = output_files(rt, alloc, invocation, &source)? else {
        return Ok(USAGE);
    };
    let outputs = Outputs::new(rt, trace).with_values(values);
    let SourceFile { bytes, .. } = source;
    answer(rt, threads, alloc, invocation, &plan, file, bytes, outputs)
}

/// Does with a program what the command says, and reports the outcome. If the command explains, an explanation follows: line and
/// status are the same.
#[tactic(auto, using(crate::proofs::Judging::answered))]
fn answer(
    rt: &HostRuntime,
    threads: &(impl Threads + Wait + Sync),
    alloc: Global,
    invocation: &Invocation<'_, '_>,
    plan: &GivenPlan<'_>,
    file: &str,
    bytes: Vec<u8>,
    mut outputs: Outputs,
) -> Result<u8, Memory>
    requires { invocation.now.against ≡ None }
    ensures { IfOk result (IsJudged invocation.now (pauses_of plan.now.plan.pauses.items) bytes.items) }
{
    plan.compare_source(rt, alloc, file, bytes.as_slice())?;
    let reported = Reported::of(alloc, invocation, file, bytes.as_slice())?;
    let kept = kept_program(
        rt,
        alloc,
        invocation,
        file,
        Some(&plan.plan),
        bytes.as_slice(),
    );
    let outcome = find(rt, threads, alloc, invocation, plan, bytes, &mut outputs);
    let name = name_of(invocation, file);
    let refused = outputs.refused();
    let status = told_of(rt, alloc, name, reported.as_ref(), &outcome, refused)?;
    plan.report_unused(rt, alloc, invocation, &outcome)?;
    explain(rt, alloc, invocation, kept, outcome, refused);
    Ok(status)
}

/// What the command finds in the program, which it checks, lists, interprets, inspects or runs.
fn find(
    rt: &HostRuntime,
    threads: &(impl Threads + Wait + Sync),
    alloc: Global,
    invocation: &Invocation<'_, '_>,
    given: &GivenPlan<'_>,
    bytes: Vec<u8>,
    outputs: &mut Outputs,
) -> Result<End, Fault>
    ensures { FindsPlainly invocation.now.subcommand (pauses_of given.now.plan.pauses.items) bytes.items result }
{
    let plan = &given.plan;
    match invocation.subcommand {
        Subcommand::Check => check(alloc, bytes),
        Subcommand::List => list(alloc, bytes, outputs),
        Subcommand::Reference { limit } => interpret(alloc, bytes, limit, outputs),
        Subcommand::Paused { workers, limit } => {
            pause(alloc, bytes, given, workers, limit, invocation, outputs)
        }
        Subcommand::Timeline { .. } | Subcommand::Explore { .. } | Subcommand::Test { .. } => {
            Err(Fault::Memory)
        }
        Subcommand::Inspect { limit } => inspect(alloc, bytes, plan, limit, invocation, outputs),
        Subcommand::Run { workers, limit } => {
            run_valued(
                rt, threads, alloc, bytes, workers, limit, invocation, outputs,
            )
        }
    }
}

/// Lists the code of the program on standard output.
fn list(alloc: Global, bytes: Vec<u8>, outputs: &mut Outputs) -> Result<End, Fault>
    ensures found { Finds Subcommand.List bytes.items result }
    ensures write { IsErrOf result Fault.Write → has_refused outputs.new.standard ≡ true }
{
    list_bytes(alloc, bytes, &mut outputs.standard)?;
    Ok(End::Finished)
}

/// Interprets the source of the program, which prints to standard output.
fn interpret(alloc: Global, bytes: Vec<u8>, limit: u64, outputs: &mut Outputs) -> Result<End, Fault>
    ensures found { Finds (Subcommand.Reference limit) bytes.items result }
    ensures write { IsErrOf result Fault.Write → has_refused outputs.new.standard ≡ true }
{
    let end = reference_bytes(alloc, bytes, limit, &mut outputs.standard)?;
    Ok(end)
}

/// Interprets the source of the program by the plan, whatever the number of workers is, but a wrong one. It prints to standard output, and
/// its trace goes to its file, if it has one.
fn pause(
    alloc: Global,
    bytes: Vec<u8>,
    plan: &GivenPlan<'_>,
    workers: u64,
    limit: u64,
    invocation: &Invocation<'_, '_>,
    outputs: &mut Outputs,
) -> Result<End, Fault>
    ensures found { FindsBy (Subcommand.Paused workers limit) (pauses_of plan.now.plan.pauses.items) bytes.items result }
    ensures write { IsErrOf result Fault.Write → IsLost outputs.new }
{
    if !has_workers(workers) {
        return Err(Fault::BadWorkers);
    }
    pause_valued(alloc, bytes, plan, limit, invocation, outputs)
}

/// Like `pause`, on one thread. If the command names a file for the values, they are written after the run.
fn pause_valued(
    alloc: Global,
    bytes: Vec<u8>,
    plan: &GivenPlan<'_>,
    limit: u64,
    invocation: &Invocation<'_, '_>,
    outputs: &mut Outputs,
) -> Result<End, Fault>
    ensures found { FindsBy (Subcommand.Paused 1 limit) (pauses_of plan.now.plan.pauses.items) bytes.items result }
    ensures write { IsErrOf result Fault.Write → IsLost outputs.new }
{
    if invocation.values.is_none() {
        return pause_plainly(alloc, bytes, plan, limit, outputs);
    }
    let text = bytes.clone()?;
    let end = pause_plainly(alloc, bytes, plan, limit, outputs)?;
    write(alloc, text, &plan.plan, limit, &mut outputs.values)?;
    Ok(end)
}

/// Like `pause_valued`, without values.
fn pause_plainly(
    alloc: Global,
    bytes: Vec<u8>,
    plan: &GivenPlan<'_>,
    limit: u64,
    outputs: &mut Outputs,
) -> Result<End, Fault>
    ensures found { FindsBy (Subcommand.Paused 1 limit) (pauses_of plan.now.plan.pauses.items) bytes.items result }
    ensures write { IsErrOf result Fault.Write → (has_refused outputs.new.standard ≡ true) ⊎ (has_lost outputs.new.file ≡ true) }
{
    if let Trace::Kept(trace) = &mut outputs.file {
        return pause_traced(alloc, bytes, plan, limit, &mut outputs.standard, trace);
    }
    let out = &mut outputs.standard;
    let end = paused_bytes_noting(alloc, bytes, &plan.plan, &plan.uses, limit, out)?;
    Ok(end)
}

/// Like `pause_plainly`, with this file for the trace.
fn pause_traced(
    alloc: Global,
    bytes: Vec<u8>,
    plan: &GivenPlan<'_>,
    limit: u64,
    standard: &mut Stream<Stdout>,
    trace: &mut Stream<File>,
) -> Result<End, Fault>
    ensures found { FindsBy (Subcommand.Paused 1 limit) (pauses_of plan.now.plan.pauses.items) bytes.items result }
    ensures write { IsErrOf result Fault.Write → (has_refused standard.new ≡ true) ⊎ (has_refused trace.new ≡ true) }
{
    let end = traced_bytes_noting(alloc, bytes, &plan.plan, &plan.uses, limit, standard, trace)?;
    Ok(end)
}
