//! Tests each program of `data`, first by its run alone and then in other orders, and prints the lines that report it, and the plans
//! that show other ends again.
//!
//! Line 2 of a program, if it is not empty, says what is expected: that it passes, or why it fails.
#![tactic(auto)]

use go_text::Memory;
use kendo_test::{
    Extent, OrderSearch, PlanFile, Progress, TestOptions, Tested, Verdict, test_bytes,
};
use row_format::folder::names;
use std::alloc::Global;
use std::io::Write;
use std::sync::Wait;
use std::thread::Threads;
use std::{fs, io};

fn main(rt: HostRuntime) -> io::Result<()> {
    for name in names(&rt, ".")?.iter() {
        if name.as_str().ends_with(".go") {
            test(&rt, &rt, name.as_str())?;
        }
    }
    Ok(())
}

/// Prints nothing during a test.
#[derive(Drop)]
struct Silent;

impl Progress for Silent {
    fn goes_on(&mut self, _extent: Extent) -> bool {
        true
    }

    fn shows(&mut self, alloc: Global, number: usize, _plan: &PlanFile) -> Result<String, Memory> {
        Ok(format!(in alloc; "{number}.pauses")?)
    }
}

/// Tests the program of a file, without other orders and, if it ends, with them.
fn test(rt: &HostRuntime, threads: &(impl Threads + Wait + Sync), name: &str) -> io::Result<()> {
    let bytes = fs::read(rt, name)?;
    test_by(rt, threads, name, bytes.as_slice(), None)?;
    if name.contains("exhausted") {
        return Ok(());
    }
    let orders = OrderSearch {
        tries: 200,
        states: 100_000,
    };
    test_by(rt, threads, name, bytes.as_slice(), Some(orders))
}

/// Tests a program, with other orders too if `orders` is given, and prints the report.
fn test_by(
    rt: &HostRuntime,
    threads: &(impl Threads + Wait + Sync),
    name: &str,
    bytes: &[u8],
    orders: Option<OrderSearch>,
) -> io::Result<()> {
    let options = TestOptions {
        limit: 100_000,
        orders,
        leaks: name.contains("leak"),
    };
    match test_bytes(threads, rt.alloc(), name, bytes, options, &mut Silent) {
        Ok(tested) => print(rt, name, &tested),
        Err(fault) => println!(rt; "{name}: {fault}"),
    }
}

/// Prints the report of a test, and whether it passed.
fn print(rt: &HostRuntime, name: &str, tested: &Tested) -> io::Result<()> {
    let mut out = rt.stdout();
    match tested.report(rt.alloc(), name, None) {
        Ok(lines) => out.write_all(lines.as_slice())?,
        Err(Memory) => println!(rt; "{name}: out of memory")?,
    }
    for plan in tested.plans.iter() {
        let name = plan.name.as_str();
        println!(rt; "{name}:")?;
        out.write_all(plan.bytes.as_slice())?;
    }
    match &tested.verdict {
        Verdict::Passed(_) => println!(rt; "passed"),
        Verdict::Failed(_) => println!(rt; "failed"),
        Verdict::Doubted(_) => println!(rt; "doubted"),
        Verdict::Untested => println!(rt; "not tested"),
    }
}
