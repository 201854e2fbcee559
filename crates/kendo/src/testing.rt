//! The tests of programs whose comments say what they print, or how they end.

ghost use Rattle.std.specs.Prelude.{◌≡◌, ◌⊎◌, [], IfErr, IfOk};
ghost use Rattle.command_line.specs.declared.arguments.Subcommand.TheVariants as subcommands;
ghost use Rattle.kendo.specs.Verdicts.{IsJudged, Judges, JudgesAll, Tests, passes, test_status, tested_status};
ghost use Rattle.kendo_shell.specs.Answers.{IsOfOne};

use crate::bounds::has_limit;
use crate::explaining::{explain, kept_program};
use crate::exploring::{Task, has_folder, write};
use crate::progress::Follower;
use crate::updating::update_program;
use command_line::arguments::{Invocation, Subcommand};
use go_text::{Fault, Memory};
use json_report::{Record, SearchRecord};
use kendo_shell::files::opened;
use kendo_shell::names::{Shown, shown_name};
use kendo_shell::streams::{tell, told, told_of_refusal};
use kendo_shell::tracing::{Outputs, Refused, Trace};
use kendo_shell::words::first_failure;
use kendo_shell::{USAGE, WRITE};
use kendo_test::{OrderSearch, TestOptions, Tested, Verdict, test_bytes};
use std::alloc::{AllocError, Global};
use std::io::IsTerminal;
use std::sync::Wait;
use std::thread::Threads;
use std::time::Duration;
use test_folders::tests_of;
use word::write_all;

/// The exit status if a test failed.
const FAILED: u8 = 1;

/// How many files passed their tests, and how many did not.
#[derive(Clone, Copy)]
struct Counts {
    passed: u64,
    failed: u64,
}

impl Counts {
    /// No file yet.
    fn new() -> Counts {
        Counts {
            passed: 0,
            failed: 0,
        }
    }

    /// With one more file, whose test has this exit status.
    fn with(self, status: u8) -> Counts {
        if status == 0 {
            Counts {
                passed: self.passed.saturating_add(1),
                ..self
            }
        } else {
            Counts {
                failed: self.failed.saturating_add(1),
                ..self
            }
        }
    }

    /// The line that says how many files passed, as JSON if `is_json`.
    fn line(self, alloc: Global, is_json: bool) -> Result<Vec<u8>, Memory> {
        let Counts { passed, failed } = self;
        if is_json {
            return Record::Tests { passed, failed }.line(alloc);
        }
        let line = format!(in alloc; "{passed} passed, {failed} failed\n")?;
        Ok(line.into_bytes())
    }
}

/// Tests the programs of the files, reports each on standard output, and then how many passed. The status is that of the first file
/// whose status is not 0.
pub(crate) fn test_files(
    rt: &HostRuntime,
    threads: &(impl Threads + Wait + Sync),
    alloc: Global,
    invocation: &Invocation<'_, '_>,
) -> Result<u8, Memory>
    ensures { IfOk result (λ status. (status ≡ USAGE) ⊎ JudgesAll invocation.now status) }
{
    let Subcommand::Test { limit, .. } = invocation.subcommand else {
        return Ok(USAGE);
    };
    if !has_limit(limit) {
        return bad_limit(rt, alloc);
    }
    if !has_folder(rt, alloc, invocation)? {
        return Ok(USAGE);
    }
    let tests = tests_of(rt, alloc, invocation.files)?;
    report_without(rt, alloc, tests.without.as_slice())?;
    if tests.paths.is_empty() {
        return Ok(USAGE);
    }
    let mut counts = Counts::new();
    let mut status = 0;
    for path in tests.paths.iter() {
        let next = test_file(rt, threads, alloc, invocation, path.as_str())?;
        counts = counts.with(next);
        status = first_failure(status, next);
    }
    let all = write_counts(rt, alloc, invocation.json, counts, status)?;
    Ok(all)
}

/// Reports the folders that have no tests.
fn report_without(rt: &HostRuntime, alloc: Global, folders: &[&str]) -> Result<(), Memory> {
    for folder in folders {
        let folder = Shown(folder);
        let line = format!(in alloc; "kendo: no tests in {folder}\n")?;
        tell(rt, line.as_bytes());
    }
    Ok(())
}

/// Reports that the limit is out of its bounds.
fn bad_limit(rt: &HostRuntime, alloc: Global) -> Result<u8, Memory>
    ensures { IfOk result (λ status. status ≡ USAGE) }
{
    told(rt, alloc, None, &Err(Fault::BadLimit))
}

/// Writes how many files passed, and returns `status`, or, if standard output refuses that line, the exit status that says so.
fn write_counts(
    rt: &HostRuntime,
    alloc: Global,
    is_json: bool,
    counts: Counts,
    status: u8,
) -> Result<u8, Memory>
    ensures { IfOk result (λ all. (all ≡ status) ⊎ (all ≡ WRITE)) }
{
    let line = counts.line(alloc, is_json)?;
    let mut outputs = Outputs::new(rt, Trace::Dropped);
    match write_all(&mut outputs.standard, line.as_slice()) {
        Ok(()) => Ok(status),
        Err(_) => told_of_refusal(rt, alloc, None, &Err(Fault::Write), outputs.refused()),
    }
}

/// Tests the program of a file, and reports it on standard output. The plans that show its ends in other orders go to files.
fn test_file(
    rt: &HostRuntime,
    threads: &(impl Threads + Wait + Sync),
    alloc: Global,
    invocation: &Invocation<'_, '_>,
    file: &str,
) -> Result<u8, Memory>
    ensures { IfOk result (IsOfOne (Judges invocation.now)) }
{
    let source = Invocation {
        out: None,
        trace: None,
        ..*invocation
    };
    let task = Task {
        rt,
        alloc,
        invocation,
        file,
    };
    match opened(rt, alloc, &source, file, None)? {
        Some((bytes, _no_trace)) => test_or_update(task, threads, invocation, bytes),
        None => Ok(USAGE),
    }
}

/// Like `test_file`, for the bytes of the file.
fn test_or_update(
    task: Task<'_, '_, '_>,
    threads: &(impl Threads + Wait + Sync),
    invocation: &Invocation<'_, '_>,
    bytes: Vec<u8>,
) -> Result<u8, Memory>
    ensures { IfOk result (IsOfOne (Judges invocation.now)) }
{
    if invocation.update {
        return update_program(task, threads, invocation, bytes);
    }
    test_program(task, threads, invocation, bytes)
}

/// Like `test_file`, for the bytes of the file, whose comments stay as they are.
fn test_program(
    task: Task<'_, '_, '_>,
    threads: &(impl Threads + Wait + Sync),
    invocation: &Invocation<'_, '_>,
    bytes: Vec<u8>,
) -> Result<u8, Memory>
    ensures { IfOk result (IsJudged invocation.now [] bytes.items) }
{
    let mut outputs = Outputs::new(task.rt, Trace::Dropped);
    let found = find(task, threads, invocation, bytes, &mut outputs);
    report(task.rt, task.alloc, found, outputs.refused())
}

/// Reports on standard error why a program was not tested. Returns the exit status of the test.
pub(crate) fn report(
    rt: &HostRuntime,
    alloc: Global,
    found: Result<bool, Fault>,
    refused: Option<Refused>,
) -> Result<u8, Memory>
    ensures { IfOk result (λ status. status ≡ test_status found) }
{
    match found {
        Ok(passes) => Ok(status_of(passes)),
        Err(fault) => told_of_refusal(rt, alloc, None, &Err(fault), refused),
    }
}

/// The exit status of a test that was made.
fn status_of(passes: bool) -> u8
    ensures { result ≡ tested_status passes }
{
    if passes { 0 } else { FAILED }
}

/// Whether the program passes, if the command tests it.
fn find(
    task: Task<'_, '_, '_>,
    threads: &(impl Threads + Wait + Sync),
    invocation: &Invocation<'_, '_>,
    bytes: Vec<u8>,
    outputs: &mut Outputs,
) -> Result<bool, Fault>
    ensures { Tests invocation.now.subcommand invocation.now.leaks bytes.items result }
{
    match invocation.subcommand {
        Subcommand::Test {
            limit,
            tries,
            states,
        } => {
            let search = OrderSearch { tries, states };
            test(
                task,
                threads,
                bytes,
                limit,
                search,
                invocation.leaks,
                outputs,
            )
        }
        _ => Err(Fault::Memory),
    }
}

/// Tests the program, and writes the report. Returns whether it passes.
fn test(
    task: Task<'_, '_, '_>,
    threads: &(impl Threads + Wait + Sync),
    bytes: Vec<u8>,
    limit: u64,
    search: OrderSearch,
    leaks: bool,
    outputs: &mut Outputs,
) -> Result<bool, Fault>
    ensures { Tests (subcommands.Test limit search.tries search.states) leaks bytes.items result }
{
    let Task {
        rt,
        alloc,
        invocation,
        file,
    } = task;
    let options = TestOptions {
        limit,
        orders: if invocation.orders {
            Some(search)
        } else {
            None
        },
        leaks,
    };
    let mut follower = Follower::new(rt, alloc, invocation, file);
    let tested = test_bytes(
        threads,
        alloc,
        file,
        bytes.as_slice(),
        options,
        &mut follower,
    )?;
    let took = follower.took();
    follower.clear();
    let lines = report_of(task, &tested, took)?;
    write(lines.as_slice(), outputs)?;
    follower.all_written()?;
    explain_test(task, bytes.as_slice(), limit, &tested);
    Ok(is_passed(&tested.verdict))
}

/// Whether a program passes its test.
pub(crate) fn is_passed(verdict: &Verdict) -> bool
    ensures { result ≡ passes verdict.now }
{
    matches!(verdict, Verdict::Passed(_))
}

/// The lines that report a test that took this long, as JSON if the command says so. Otherwise they tell the time only if standard output
/// is a terminal.
pub(crate) fn report_of(
    task: Task<'_, '_, '_>,
    tested: &Tested,
    took: Option<Duration>,
) -> Result<Vec<u8>, Memory> {
    let Task {
        rt,
        alloc,
        invocation,
        file,
    } = task;
    if invocation.json {
        return record_of(alloc, file, tested, took)?.line(alloc);
    }
    let took = took.filter(|_| rt.stdout().is_terminal());
    tested.report(alloc, shown_name(alloc, file)?.as_str(), took)
}

/// The object of a test that took this long.
fn record_of<'r>(
    alloc: Global,
    file: &'r str,
    tested: &'r Tested,
    took: Option<Duration>,
) -> Result<Record<'r>, AllocError> {
    let mut plans = Vec::new(alloc);
    for plan in tested.plans.iter() {
        plans.push(plan.name.as_str())?;
    }
    Ok(Record::Test {
        file,
        passed: is_passed(&tested.verdict),
        updated: tested.is_updated,
        reasons: tested.reasons.as_slice(),
        seconds: took.map(|took| took.as_secs_f64()),
        searched: tested.searched.map(|searched| SearchRecord {
            states: searched.states,
            walks: searched.walks,
            all_orders: searched.is_whole,
        }),
        plans,
    })
}

/// Explains on standard error, if the command explains, why the program is refused, how its run ended that is not as expected, or how
/// it ends by plans.
fn explain_test(task: Task<'_, '_, '_>, bytes: &[u8], limit: u64, tested: &Tested) {
    if is_passed(&tested.verdict) || matches!(tested.outcome, Err(Fault::Write)) {
        return;
    }
    let Task {
        rt,
        alloc,
        invocation,
        file,
    } = task;
    let kept = kept_program(rt, alloc, invocation, file, None, bytes);
    if let Some(kept) = &kept {
        kept.explain_plans(rt, alloc, limit, tested.plans.as_slice());
    }
    explain(rt, alloc, invocation, kept, tested.outcome, None);
}
