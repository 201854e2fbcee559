//! Compares runs of the programs of `data` with the traces of `data`, `NAME.CASE.trace` with the run of `NAME.go`, by the plan
//! `NAME.CASE.pauses` if there is one, goroutine by goroutine and byte by byte, and prints the reports.
#![tactic(auto)]

use go_text::Fault;
use kendo_compare::{
    Program, Recorded, TraceError, check_trace, compare_traces, run_paused_with_trace,
    run_with_trace,
};
use pauses::Plan;
use row_format::folder::names;
use std::alloc::Global;
use std::io::Write;
use std::sync::Wait;
use std::thread::Threads;
use std::{fs, io};
use word::Flagged;
use word::end::End;

/// The clock limit.
const LIMIT: u64 = 100_000;

fn main(rt: HostRuntime) -> io::Result<()> {
    let names = names(&rt, ".")?;
    for name in names.iter() {
        if let Some((case, "trace")) = name.as_str().rsplit_once('.') {
            let plan = plan_of(&rt, names.as_slice(), case)?;
            compare(&rt, &rt, name.as_str(), plan.as_ref())?;
        }
    }
    Ok(())
}

/// The plan of a case, if it has one.
fn plan_of(rt: &HostRuntime, names: &[String], case: &str) -> io::Result<Option<Plan>> {
    let path = format!(in rt.alloc(); "{case}.pauses")?;
    if !names.iter().any(|name| name.as_str() == path.as_str()) {
        return Ok(None);
    }
    let bytes = fs::read(rt, path.as_str())?;
    match Plan::read(rt.alloc(), bytes.as_slice()) {
        Ok(plan) => Ok(Some(plan)),
        Err(_) => {
            println!(rt; "broken plan {path}")?;
            Ok(None)
        }
    }
}

/// Compares a run with a trace in both ways.
fn compare(
    rt: &HostRuntime,
    threads: &(impl Threads + Wait + Sync),
    name: &str,
    plan: Option<&Plan>,
) -> io::Result<()> {
    let bytes = fs::read(rt, name)?;
    println!(rt; "{name}")?;
    match check_trace(rt.alloc(), bytes.as_slice()) {
        Ok(()) => compare_trace(rt, threads, name, bytes.as_slice(), plan),
        Err(TraceError::Broken(line)) => println!(rt; "broken at line {line}"),
        Err(TraceError::Memory) => println!(rt; "13 Memory"),
    }
}

/// Compares the run of the program of a trace with it in both ways.
fn compare_trace(
    rt: &HostRuntime,
    threads: &(impl Threads + Wait + Sync),
    name: &str,
    bytes: &[u8],
    plan: Option<&Plan>,
) -> io::Result<()> {
    let stem = match name.split_once('.') {
        Some((stem, _)) => stem,
        None => name,
    };
    let path = format!(in rt.alloc(); "{stem}.go")?;
    let text = fs::read(rt, path.as_str())?;
    let program = Program {
        path: path.as_str(),
        bytes: text.as_slice(),
        plan,
        limit: LIMIT,
    };
    for is_strict in [false, true] {
        let recorded = Recorded {
            path: name,
            bytes,
            is_strict,
        };
        compare_in_one_way(rt, threads, &program, &recorded)?;
    }
    Ok(())
}

/// Compares the run of a program with a trace.
fn compare_in_one_way(
    rt: &HostRuntime,
    threads: &(impl Threads + Wait + Sync),
    program: &Program<'_>,
    recorded: &Recorded<'_>,
) -> io::Result<()> {
    let alloc = rt.alloc();
    let mut trace = Vec::new(alloc);
    if let Err(fault) = run(threads, alloc, program, &mut trace) {
        return println!(rt; "{fault}");
    }
    print(rt, alloc, program, recorded, trace.as_slice())
}

/// Runs a program, by its plan if it has one. Its trace goes to `trace`.
fn run(
    threads: &(impl Threads + Wait + Sync),
    alloc: Global,
    program: &Program<'_>,
    trace: &mut Vec<u8>,
) -> Result<End, Fault> {
    let text = Vec::from_slice(alloc, program.bytes)?;
    let mut output = Flagged::new(Vec::new(alloc));
    let limit = program.limit;
    match program.plan {
        Some(plan) => run_paused_with_trace(alloc, text, plan, limit, &mut output, trace),
        None => run_with_trace(threads, alloc, text, 2, limit, &mut output, trace),
    }
}

/// Prints the report of a comparison.
fn print(
    rt: &HostRuntime,
    alloc: Global,
    program: &Program<'_>,
    recorded: &Recorded<'_>,
    trace: &[u8],
) -> io::Result<()> {
    match compare_traces(alloc, program, recorded, trace) {
        Ok(compared) => {
            rt.stdout().write_all(compared.lines.as_slice())?;
            if compared.is_same {
                println!(rt; "same")
            } else {
                println!(rt; "differs")
            }
        }
        Err(memory) => println!(rt; "{memory}"),
    }
}
