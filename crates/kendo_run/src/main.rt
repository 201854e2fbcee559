//! The program that checks and runs programs, by the same functions as `kendo`, and does nothing else: it needs fewer proofs before a
//! first program runs.
#![tactic(auto)]

ghost use Rattle.std.specs.Prelude.{◌≡◌, ◌⊎◌, IfOk, length, map, string_bytes};
ghost use Rattle.kendo_run.specs.Tasks.{IsReported, Reports, ReportsAll, subcommand_of};
ghost use Rattle.kendo_shell.specs.Answers.{Finds, IsOfAll, IsOfOne, IsStatus, Obeys};

mod task;

use command_line::arguments::{Invocation, command, invocation_of};
use go_text::{Fault, Memory};
use kendo_base::run_text;
use kendo_shell::USAGE;
use kendo_shell::checking::check;
use kendo_shell::files::{opened, output_conflict};
use kendo_shell::notice::Notice;
use kendo_shell::streams::{exit, tell, told_of_refusal};
use kendo_shell::tracing::{Outputs, Trace};
use kendo_shell::words::{first_failure, name_of, show, with_variable, words_in};
use std::alloc::Global;
use std::process::ExitCode;
use std::sync::Wait;
use std::thread::Threads;
use task::{Task, task_of};
use word::end::End;

fn main(rt: HostRuntime) -> ExitCode {
    exit(&rt, start(&rt, &rt))
}

/// Reads the command line and runs its command, down to the exit status. `threads` permits a run to start workers and wait for them.
#[tactic(auto, using(crate::proofs::Reporting::reported_status))]
fn start(rt: &HostRuntime, threads: &(impl Threads + Wait + Sync)) -> Result<u8, Memory>
    ensures { IfOk result IsStatus }
{
    let alloc = rt.alloc();
    match words_in(rt, alloc)? {
        Some(words) => obey(rt, threads, alloc, words.as_slice()),
        None => Ok(USAGE),
    }
}

/// Runs the command of these words, the first of which is the program's name, down to the exit status.
fn obey(
    rt: &HostRuntime,
    threads: &(impl Threads + Wait + Sync),
    alloc: Global,
    words: &[String],
) -> Result<u8, Memory>
    ensures { IfOk result (λ status. Obeys ReportsAll (map string_bytes words.now) status) }
{
    match command(alloc)?.try_get_matches_from(words) {
        Ok(matches) => match invocation_of(&matches) {
            Some(invocation) => perform(rt, threads, alloc, &invocation),
            None => Ok(USAGE),
        },
        Err(error) => show(rt, alloc, words, &error),
    }
}

/// Checks or runs the files, and reports each outcome. The status is that of the first file whose status is not 0. No file is read
/// of what this program doesn't do.
fn perform(
    rt: &HostRuntime,
    threads: &(impl Threads + Wait + Sync),
    alloc: Global,
    invocation: &Invocation<'_, '_>,
) -> Result<u8, Memory>
    ensures { IfOk result (λ status. (status ≡ USAGE) ⊎ ReportsAll invocation.now status) }
{
    if let Some(line) = output_conflict(invocation) {
        tell(rt, line);
        return Ok(USAGE);
    }
    perform_task(rt, threads, alloc, invocation)
}

/// Like `perform`, for options that go together.
fn perform_task(
    rt: &HostRuntime,
    threads: &(impl Threads + Wait + Sync),
    alloc: Global,
    invocation: &Invocation<'_, '_>,
) -> Result<u8, Memory>
    ensures { IfOk result (λ status. (status ≡ USAGE) ⊎ ReportsAll invocation.now status) }
{
    let invocation = &with_variable(rt, invocation);
    let Some(task) = task_of(invocation) else {
        tell(
            rt,
            b"kendo: this build supports only `check` and `run` without `--explain`, `--json`, `--pauses`, `--against` and `--values`; use ./kendo\n".as_slice(),
        );
        return Ok(USAGE);
    };
    perform_each(rt, threads, alloc, invocation, task)
}

/// Like `perform`, by the task that this program has for the command.
fn perform_each(
    rt: &HostRuntime,
    threads: &(impl Threads + Wait + Sync),
    alloc: Global,
    invocation: &Invocation<'_, '_>,
    task: Task,
) -> Result<u8, Memory>
    ensures { IfOk result (IsOfAll (Reports (subcommand_of task)) (length invocation.now.files.now)) }
{
    let mut status = 0;
    for file in invocation.files {
        let next = perform_on(rt, threads, alloc, invocation, task, file)?;
        status = first_failure(status, next);
    }
    Ok(status)
}

/// Like `perform`, for one of the files.
fn perform_on(
    rt: &HostRuntime,
    threads: &(impl Threads + Wait + Sync),
    alloc: Global,
    invocation: &Invocation<'_, '_>,
    task: Task,
    file: &str,
) -> Result<u8, Memory>
    ensures { IfOk result (IsOfOne (Reports (subcommand_of task))) }
{
    let name = name_of(invocation, file);
    match opened(rt, alloc, invocation, file, name)? {
        Some((bytes, trace)) => answer(rt, threads, alloc, task, name, bytes, trace),
        None => Ok(USAGE),
    }
}

/// Checks or runs a program, and reports the outcome.
#[tactic(auto, using(crate::proofs::Reporting::reported))]
fn answer(
    rt: &HostRuntime,
    threads: &(impl Threads + Wait + Sync),
    alloc: Global,
    task: Task,
    name: Option<&str>,
    bytes: Vec<u8>,
    trace: Trace,
) -> Result<u8, Memory>
    ensures { IfOk result (IsReported (subcommand_of task) bytes.items) }
{
    let mut outputs = Outputs::new(rt, trace);
    let outcome = find(rt, threads, alloc, task, bytes, &mut outputs);
    told_of_refusal(rt, alloc, name, &outcome, outputs.refused())
}

/// What is found in the program, which is checked or run.
fn find(
    rt: &HostRuntime,
    threads: &(impl Threads + Wait + Sync),
    alloc: Global,
    task: Task,
    bytes: Vec<u8>,
    outputs: &mut Outputs,
) -> Result<End, Fault>
    ensures { Finds (subcommand_of task) bytes.items result }
{
    match task {
        Task::Check => check(alloc, bytes),
        Task::Run { workers, limit } => {
            let notice = Notice::new(rt, alloc, limit);
            run_text(threads, alloc, bytes, workers, limit, &notice, outputs)
        }
    }
}
