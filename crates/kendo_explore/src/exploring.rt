//! From the bytes of a source file to what is found in other orders of its events.

ghost use Rattle.std.specs.Prelude.{◌≡◌, ◌⊎◌, ◌↔◌, ◌^◌, ◌≤◌, ℕ, map, IfErr, IfOk, IsErrOf};
ghost use Rattle.checker.specs.Trees.{tree_in};
ghost use Rattle.exploration.specs.Shown.{AreFound, seen};
ghost use Rattle.kendo_explore.specs.Explored.{AreShown, end_by, ends_by};
ghost use Rattle.kendo_reading.specs.Reading.{HasNoReading, IsRefusal, IsWhy, Reads};
ghost use Rattle.syntax.specs.Spans.{tree_of};
ghost use Rattle.syntax.specs.Tree.{File};
ghost use Rattle.whole_run.specs.Runs.{IsLimit};
ghost use Rattle.program_states.specs.declared.space.Scope.{Scope};

use checker::Typed;
use codegen::compile_marked;
use exploration::{
    Exploration, Extent, Findings, Options, Outcome, Ran, Runner, Scene, Shown, Stop, Verdict,
};
use go_text::{Fault, Memory, Source};
use kendo_reading::read;
use statement_map::StatementMap;
use std::alloc::Global;
use verifier::{Verified, verify};
use word::end::End;

/// Follows an exploration while it goes on.
pub trait Progress {
    /// The search is so far. Returns whether it goes on.
    fn goes_on(&mut self, extent: Extent) -> bool;

    /// The end of this number in the report was found, and is shown by a plan. Returns the name of the plan's file for the report.
    ///
    /// Errors: out of memory.
    fn shows(&mut self, alloc: Global, number: usize, plan: &PlanFile) -> Result<String, Memory>;
}

/// The file of a plan, and what it shows.
#[derive(Drop)]
pub struct PlanFile {
    /// Its name; empty until it has one.
    pub name: String,
    pub bytes: Vec<u8>,
    /// How the run with its pauses ends.
    pub end: End,
    /// What that run prints.
    pub output: Vec<u8>,
    /// Whether it ends at a limit of kendo's own.
    pub own_limit: bool,
    /// Whether goroutines that are left at its end are what differs.
    pub leaks: bool,
}

/// What is found in other orders of a program's events.
#[derive(Drop)]
pub struct Explored {
    /// The report of it.
    pub report: Vec<u8>,
    /// The outcomes, in the order of the report.
    pub outcomes: Vec<Outcome>,
    /// How many outcomes more were found that are neither shown nor listed.
    pub unlisted: usize,
    /// The plans that show the ends again.
    pub plans: Vec<PlanFile>,
    /// How the ordinary run ends; none if it does not end in time.
    pub ordinary: Option<Ran>,
    pub verdict: Verdict,
    /// How many states were visited.
    pub states: usize,
    /// How many walks were made.
    pub walks: u64,
    /// Whether all orders were searched.
    pub is_whole: bool,
    /// Whether an end was found that Go has too, that the ordinary run doesn't have, and that no plan shows.
    pub has_unshown: bool,
}

/// Explores the program that a source file is. FILE in the report is the path as it was typed.
///
/// Errors: by the numbers 1 to 10 why it is no program, with line and column; `Memory`; `BadLimit`.
pub fn explore_bytes<P: Progress>(
    alloc: Global,
    path: &str,
    bytes: Vec<u8>,
    options: Options,
    progress: &mut P,
) -> Result<Explored, Fault>
    ensures limit { IsErrOf result Fault.BadLimit ↔ (IsLimit options.limit → ⊥) }
    ensures refused { IfErr result (λ fault. IsRefusal fault → HasNoReading bytes.items) }
    ensures why { IfErr result (λ fault. IsRefusal fault → IsWhy bytes.items fault) }
    ensures only { IfErr result (λ fault. IsRefusal fault ⊎ ((fault ≡ Fault.Memory) ⊎ (fault ≡ Fault.BadLimit))) }
    ensures shown { IfOk result (λ explored. (file : File) × Reads bytes.items file × AreShown file options.limit options.scope explored) }
{
    if options.limit < 1 || options.limit > 1 << 62 {
        return Err(Fault::BadLimit);
    }
    let (source, typed) = read(alloc, bytes)?;
    let explored = explore(alloc, path, &source, &typed, options, progress)?;
    Ok(explored)
}

/// Explores a checked program.
fn explore<P: Progress>(
    alloc: Global,
    path: &str,
    source: &Source,
    typed: &Typed,
    options: Options,
    progress: &mut P,
) -> Result<Explored, Memory>
    requires { options.limit ≤ 2 ^ 62 }
    ensures { IfOk result (AreShown (tree_of (tree_in typed.now)) options.limit options.scope) }
{
    let Ok((program, map)) = compiled(alloc, typed) else {
        return Err(Memory);
    };
    let mut exploration = Exploration::new(alloc, &program, options)?;
    let runner = Runner {
        alloc,
        path,
        source: source.as_str(),
        typed,
        limit: options.limit,
        scope: options.scope,
    };
    let scene = Scene {
        alloc,
        path,
        source,
        tree: typed.tree(),
        map: &map,
        code: program.code(),
    };
    let mut names = Vec::new(alloc);
    let Searched { findings, stop } = search(
        &mut exploration,
        &runner,
        scene,
        &mut names,
        progress,
    )?;
    let findings = exploration.finish(&runner, scene, findings)?;
    name_plans(alloc, &findings, &mut names, progress)?;
    told(scene, &exploration, findings, names.as_slice(), stop)
}

/// What a search found, and why it ended.
#[derive(Drop)]
struct Searched {
    findings: Findings,
    stop: Stop,
}

/// Searches other orders of the events of a program. The plans that show errors are named as soon as they are found.
fn search<P: Progress>(
    exploration: &mut Exploration<'_>,
    runner: &Runner<'_>,
    scene: Scene<'_>,
    names: &mut Vec<String>,
    progress: &mut P,
) -> Result<Searched, Memory>
    requires { runner.now.limit ≤ 2 ^ 62 }
    ensures { IfOk result (λ searched. AreFound (tree_of (tree_in runner.now.typed.now)) runner.now.limit runner.now.scope searched.findings) }
{
    let mut findings = exploration.begin(runner)?;
    for _ in 0..u64::MAX {
        let has_more = exploration.go_on()?;
        exploration.show_errors(runner, scene, &mut findings)?;
        name_plans(runner.alloc, &findings, names, progress)?;
        if !has_more {
            return Ok(Searched {
                findings,
                stop: Stop::States,
            });
        }
        if !progress.goes_on(exploration.extent()) {
            return Ok(Searched {
                findings,
                stop: Stop::Time,
            });
        }
    }
    Ok(Searched {
        findings,
        stop: Stop::States,
    })
}

/// Names the plans of the ends that are shown and have no name yet.
fn name_plans<P: Progress>(
    alloc: Global,
    findings: &Findings,
    names: &mut Vec<String>,
    progress: &mut P,
) -> Result<(), Memory> {
    for (index, one) in findings.shown.iter().enumerate().skip(names.len()) {
        let plan = plan_file(alloc, String::new(alloc), one)?;
        names.push(progress.shows(alloc, findings.number(index), &plan)?)?;
    }
    Ok(())
}

/// The verified code of a checked program, and what its instructions come from.
fn compiled(alloc: Global, typed: &Typed) -> Result<(Verified, StatementMap), Fault> {
    let (code, marks) = compile_marked(alloc, typed)?;
    let map = StatementMap::new(alloc, typed.tree(), &code, &marks)?;
    let program = verify(alloc, code)?;
    Ok((program, map))
}

/// The report of an exploration, with the files of its plans, which have these names.
fn told(
    scene: Scene<'_>,
    exploration: &Exploration<'_>,
    findings: Findings,
    names: &[String],
    stop: Stop,
) -> Result<Explored, Memory>
    ensures { (file : File) (limit : ℕ) (scope : Scope) → AreFound file limit scope findings → IfOk result (AreShown file limit scope) }
{
    let report = exploration.report(scene, &findings, names, stop)?;
    let outcomes = exploration.outcomes(scene, &findings, names)?;
    let verdict = exploration.verdict(&findings);
    let extent = exploration.extent();
    let is_whole = exploration.is_whole(&findings);
    let has_unshown = exploration.has_unshown(&findings);
    let plans = plan_files(scene.alloc, findings.shown.as_slice(), names)?;
    Ok(Explored {
        report,
        outcomes,
        unlisted: findings.counted(),
        plans,
        ordinary: findings.ordinary,
        verdict,
        states: extent.states,
        walks: extent.walks,
        is_whole,
        has_unshown,
    })
}

/// The files of the plans that show these ends, with these names.
fn plan_files(alloc: Global, shown: &[Shown], names: &[String]) -> Result<Vec<PlanFile>, Memory>
    ensures { IfOk result (λ plans. ends_by plans.items ≡ map seen shown.now) }
{
    let mut plans = Vec::new(alloc);
    for (index, one) in shown.iter().enumerate() {
        let name = name_at(alloc, names, index)?;
        plans.push(plan_file(alloc, name, one)?)?;
    }
    Ok(plans)
}

/// A copy of the name at an index; empty if there is none.
fn name_at(alloc: Global, names: &[String], index: usize) -> Result<String, Memory> {
    match names.get(index) {
        Some(name) => Ok(name.clone()?),
        None => Ok(String::new(alloc)),
    }
}

/// The file of this name of the plan that shows an end.
fn plan_file(alloc: Global, name: String, one: &Shown) -> Result<PlanFile, Memory>
    ensures { IfOk result (λ plan. end_by plan ≡ seen one.now) }
{
    Ok(PlanFile {
        name,
        bytes: one.plan.clone()?,
        end: one.end,
        output: one.output.clone()?,
        own_limit: one.own_limit,
        leaks: one.leaks,
    })
}
