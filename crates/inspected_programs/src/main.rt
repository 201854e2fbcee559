//! Shows each moment that the file `moments` of `data` names, a line each: `FILE event N` or `FILE at CLOCK`, with `by PLAN` at the end of
//! a run by a plan of pauses.
#![tactic(auto)]

use kendo_inspect::{Inspected, Until, inspect_bytes, inspect_paused_bytes};
use pauses::Plan;
use std::io::Write;
use std::{fs, io};

/// The clock limit of the runs.
const LIMIT: u64 = 1 << 40;

fn main(rt: HostRuntime) -> io::Result<()> {
    let moments = fs::read_to_string(&rt, "moments")?;
    for line in moments.lines() {
        println!(rt; "--- {line}")?;
        show(&rt, line)?;
    }
    Ok(())
}

/// A moment of a run.
#[derive(Clone, Copy)]
struct Moment<'l> {
    file: &'l str,
    until: Until,
    /// The file of the plan.
    plan: Option<&'l str>,
}

impl<'l> Moment<'l> {
    /// The moment that a line names.
    fn read(line: &'l str) -> Option<Moment<'l>> {
        let (line, plan) = match line.split_once(" by ") {
            Some((line, plan)) => (line, Some(plan)),
            None => (line, None),
        };
        let (file, rest) = line.split_once(' ')?;
        let (word, number) = rest.split_once(' ')?;
        let number = number.parse::<u64>().ok()?;
        let until = match word {
            "event" => Until::Event(number),
            "at" => Until::Clock(number),
            _ => return None,
        };
        Some(Moment { file, until, plan })
    }
}

/// Shows the moment that a line names.
fn show(rt: &HostRuntime, line: &str) -> io::Result<()> {
    let Some(moment) = Moment::read(line) else {
        return println!(rt; "no moment");
    };
    let alloc = rt.alloc();
    let bytes = fs::read(rt, moment.file)?;
    let seen = match moment.plan {
        None => inspect_bytes(alloc, moment.file, bytes, LIMIT, moment.until),
        Some(path) => {
            let Ok(plan) = Plan::read(alloc, fs::read(rt, path)?.as_slice()) else {
                return println!(rt; "no plan");
            };
            inspect_paused_bytes(alloc, moment.file, bytes, &plan, LIMIT, moment.until)
        }
    };
    match seen {
        Ok(seen) => print(rt, &seen),
        Err(fault) => println!(rt; "{fault}"),
    }
}

/// Prints what is shown of a moment.
fn print(rt: &HostRuntime, seen: &Inspected) -> io::Result<()> {
    rt.stdout().write_all(seen.text.as_slice())
}
