//! Explores each program of `data`, and prints its report, and the plans that show its ends again; then how many ends
//! are found if each move is made among all others.
//!
//! Line 2 of each program names what is to be found: `deadlock`, a panic, `output`, `leak` or `none`. A program whose name has
//! `leak`, `ordered` or `ends_only` in it is explored with that option.
//!
//! With arguments it prints the ends of programs for a comparison with another search (see `ends`).
#![tactic(auto)]

mod ends;
mod unreduced;

use ends::print_ends;
use go_text::Memory;
use kendo_explore::{Explored, Extent, Options, PlanFile, Progress, Scope, Verdict, explore_bytes};
use row_format::folder::names;
use std::alloc::Global;
use std::io::Write;
use std::{env, fs, io};
use unreduced::{Count, unreduced};

fn main(rt: HostRuntime) -> io::Result<()> {
    let words: Vec<String> = env::args(&rt)?.collect(rt.alloc())?;
    if words.len() > 1 {
        return print_ends(&rt, words.as_slice());
    }
    for name in names(&rt, ".")?.iter() {
        if name.as_str().ends_with(".go") {
            explore(&rt, name.as_str())?;
        }
    }
    Ok(())
}

/// Names plans by their numbers.
#[derive(Drop)]
struct Silent;

impl Progress for Silent {
    fn goes_on(&mut self, _extent: Extent) -> bool {
        true
    }

    fn shows(&mut self, alloc: Global, number: usize, _plan: &PlanFile) -> Result<String, Memory> {
        Ok(format!(in alloc; "{number}.pauses")?)
    }
}

/// Explores the program of a file, and prints its report.
fn explore(rt: &HostRuntime, name: &str) -> io::Result<()> {
    let alloc = rt.alloc();
    let bytes = fs::read(rt, name)?;
    let again = bytes.clone()?;
    let options = Options {
        tries: 200,
        states: 100_000,
        limit: 1 << 40,
        scope: Scope {
            outputs: !name.contains("ends_only"),
            lines_in_order: name.contains("ordered"),
            leaks: name.contains("leak"),
        },
    };
    match explore_bytes(alloc, name, bytes, options, &mut Silent) {
        Ok(explored) => {
            print(rt, &explored)?;
            print_unreduced(rt, again, options.scope)
        }
        Err(fault) => println!(rt; "{name}: {fault}"),
    }
}

/// Prints how many ends and states there are if each move is made among all others.
fn print_unreduced(rt: &HostRuntime, bytes: Vec<u8>, scope: Scope) -> io::Result<()> {
    match unreduced(rt.alloc(), bytes, scope) {
        Ok(Some(count)) => {
            let Count { ends, states } = count;
            println!(rt; "unreduced: {states} states, {ends} ends")
        }
        Ok(None) => println!(rt; "unreduced: not all orders"),
        Err(fault) => println!(rt; "unreduced: {fault}"),
    }
}

/// Prints the report on a program.
fn print(rt: &HostRuntime, explored: &Explored) -> io::Result<()> {
    let mut out = rt.stdout();
    out.write_all(explored.report.as_slice())?;
    for plan in explored.plans.iter() {
        let name = plan.name.as_str();
        println!(rt; "{name}:")?;
        out.write_all(plan.bytes.as_slice())?;
    }
    println!(rt; "{}", verdict_word(explored.verdict))
}

/// The word for a verdict.
fn verdict_word(verdict: Verdict) -> &'static str {
    match verdict {
        Verdict::Same => "same",
        Verdict::Unended => "unended",
        Verdict::SameSoFar => "same so far",
        Verdict::Other => "other",
        Verdict::Unshown => "unshown",
    }
}
