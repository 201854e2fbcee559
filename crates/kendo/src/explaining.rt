//! The explanation that follows the line of an outcome.

use crate::bounds::{MOST_WORKERS, has_workers};
use command_line::arguments::{Invocation, Subcommand};
use diagnostic::explanations;
use go_text::Fault;
use kendo_explore::{Explored, PlanFile};
use kendo_front::{explain_end, explain_end_by_plan};
use kendo_shell::names::{Shown, shown_name};
use kendo_shell::streams::{is_unread, tell};
use kendo_shell::tracing::Refused;
use kendo_shell::words::has_colors;
use pauses::Plan;
use std::alloc::Global;
use std::io::IsTerminal;
use std::time::Instant;
use terminal_style::styled;
use word::end::End;

/// How many milliseconds a run takes before a terminal is told that it is run again, and before one that finished is not.
const LONG: u128 = 1_000;

/// The line that tells that.
const AGAIN: &[u8] = b"kendo: running again to explain; KENDO_EXPLAIN=0 turns this off\n";

/// A program that is explained.
#[derive(Drop)]
pub(crate) struct Kept<'a> {
    /// The path as it is shown.
    file: String,
    /// The plan by which it is run, if its run has one.
    plan: Option<&'a Plan>,
    text: Vec<u8>,
    /// When it was kept, if the clock says so.
    begun: Option<Instant>,
}

/// A copy of the program, if the command explains in words.
pub(crate) fn kept_program<'a>(
    rt: &HostRuntime,
    alloc: Global,
    invocation: &Invocation<'_, '_>,
    file: &str,
    plan: Option<&'a Plan>,
    bytes: &[u8],
) -> Option<Kept<'a>> {
    if !invocation.explains || invocation.json {
        return None;
    }
    let file = shown_name(alloc, file).ok()?;
    let text = bytes.to_vec(alloc).ok()?;
    Some(Kept {
        file,
        plan,
        text,
        begun: Instant::now(rt).ok(),
    })
}

/// Explains on standard error the errors in the program that was kept, how its run ended, or why an output refused bytes. If memory
/// or the stream is refused, nothing else changes.
pub(crate) fn explain(
    rt: &HostRuntime,
    alloc: Global,
    invocation: &Invocation<'_, '_>,
    kept: Option<Kept<'_>>,
    outcome: Result<End, Fault>,
    refused: Option<Refused>,
) {
    let Some(kept) = kept else {
        return;
    };
    if !kept.is_told(rt, invocation, outcome, refused) {
        return;
    }
    kept.tell_second_run(rt, invocation, outcome);
    let explained = match (outcome, refused) {
        (Ok(end), _) => end_explained(alloc, invocation, &kept, end),
        (Err(Fault::Write), Some(refused)) => refusal_explained(alloc, invocation, refused),
        (Err(Fault::BadWorkers | Fault::BadLimit), _) => bounds_explained(alloc, invocation),
        (Err(fault), _) => fault_explained(alloc, &kept, &fault),
    };
    if let Ok(explained) = explained {
        tell_styled(rt, alloc, kept.file.as_str(), explained.as_slice());
    }
}

/// Writes an explanation of the program at `path` to standard error, with colours if it shows them.
fn tell_styled(rt: &HostRuntime, alloc: Global, path: &str, explained: &[u8]) {
    if has_colors(rt) {
        if let Ok(styled) = styled(alloc, path, explained) {
            return tell(rt, styled.as_slice());
        }
    }
    tell(rt, explained);
}

impl Kept<'_> {
    /// Explains on standard error how the orders end that an exploration up to a clock limit shows: the ordinary one if it ends in an
    /// error or leaves goroutines that count, and those by plans.
    pub(crate) fn explain_explored(
        &self,
        rt: &HostRuntime,
        alloc: Global,
        limit: u64,
        explored: &Explored,
    ) {
        if let Some(ran) = &explored.ordinary {
            if ran.leaks || matches!(ran.end, End::Deadlock | End::Panicked(_)) {
                let explained = self.explained(alloc, limit, ran.end);
                self.tell_below(rt, alloc, "as kendo run", explained);
            }
        }
        self.explain_plans(rt, alloc, limit, explored.plans.as_slice());
    }

    /// Explains on standard error how the runs by these plans up to a clock limit end, each below the plan's name.
    pub(crate) fn explain_plans(
        &self,
        rt: &HostRuntime,
        alloc: Global,
        limit: u64,
        plans: &[PlanFile],
    ) {
        for one in plans {
            let explained = self.explained_by(alloc, limit, one);
            self.tell_below(rt, alloc, one.name.as_str(), explained);
        }
    }

    /// Writes an explanation to standard error below a title, unless it is empty.
    fn tell_below(
        &self,
        rt: &HostRuntime,
        alloc: Global,
        title: &str,
        explained: Result<Vec<u8>, Fault>,
    ) {
        let Ok(explained) = explained else {
            return;
        };
        if explained.is_empty() {
            return;
        }
        if let Ok(line) = format!(in alloc; "{title}:\n") {
            tell(rt, line.as_bytes());
            tell_styled(rt, alloc, self.file.as_str(), explained.as_slice());
        }
    }

    /// Whether the outcome is explained. If `--explain` was not typed, the reader of standard output may go away without a word, and on a
    /// terminal a run that finished after some time is not run again to look for goroutines that wait forever.
    fn is_told(
        &self,
        rt: &HostRuntime,
        invocation: &Invocation<'_, '_>,
        outcome: Result<End, Fault>,
        refused: Option<Refused>,
    ) -> bool {
        let is_terminal = rt.stderr().is_terminal();
        if is_unread(&outcome, refused) {
            return invocation.asks_to_explain && !is_terminal;
        }
        let is_finished = matches!(outcome, Ok(End::Finished)) && runs(invocation);
        invocation.asks_to_explain || !is_terminal || !is_finished || self.elapsed(rt) < LONG
    }

    /// Tells on a terminal that the program runs again, if its first run took long and a second one explains how it ended.
    fn tell_second_run(
        &self,
        rt: &HostRuntime,
        invocation: &Invocation<'_, '_>,
        outcome: Result<End, Fault>,
    ) {
        if outcome.is_ok()
            && runs(invocation)
            && self.elapsed(rt) >= LONG
            && rt.stderr().is_terminal()
        {
            tell(rt, AGAIN);
        }
    }

    /// How many milliseconds ago the program was kept.
    fn elapsed(&self, rt: &HostRuntime) -> u128 {
        let elapsed = self.begun.as_ref().and_then(|begun| begun.elapsed(rt).ok());
        elapsed.map(|elapsed| elapsed.as_millis()).unwrap_or(0)
    }

    /// Explains an end of the run without pauses.
    fn explained(&self, alloc: Global, limit: u64, end: End) -> Result<Vec<u8>, Fault> {
        let text = Vec::from_slice(alloc, self.text.as_slice())?;
        explain_end(alloc, self.file.as_str(), text, limit, end)
    }

    /// Explains the end of the run by a plan.
    fn explained_by(&self, alloc: Global, limit: u64, one: &PlanFile) -> Result<Vec<u8>, Fault> {
        let Ok(plan) = Plan::read(alloc, one.bytes.as_slice()) else {
            return Err(Fault::Memory);
        };
        let text = Vec::from_slice(alloc, self.text.as_slice())?;
        explain_end_by_plan(alloc, self.file.as_str(), text, &plan, limit, one.end)
    }
}

/// Explains the end of a run.
fn end_explained(
    alloc: Global,
    invocation: &Invocation<'_, '_>,
    kept: &Kept<'_>,
    end: End,
) -> Result<Vec<u8>, Fault> {
    let file = kept.file.as_str();
    let text = Vec::from_slice(alloc, kept.text.as_slice())?;
    match (invocation.subcommand, kept.plan) {
        (Subcommand::Test { .. }, _) if end == End::Finished => Ok(Vec::new(alloc)),
        (Subcommand::Paused { limit, .. }, Some(plan)) => {
            explain_end_by_plan(alloc, file, text, plan, limit, end)
        }
        (
            Subcommand::Reference { limit }
            | Subcommand::Test { limit, .. }
            | Subcommand::Run { limit, .. },
            _,
        ) => explain_end(alloc, file, text, limit, end),
        _ => Ok(Vec::new(alloc)),
    }
}

/// Explains which output refused bytes, and why.
fn refusal_explained(
    alloc: Global,
    invocation: &Invocation<'_, '_>,
    refused: Refused,
) -> Result<Vec<u8>, Fault> {
    let line = match refused {
        Refused::Standard(reason) => format!(in alloc; "standard output: {reason}\n"),
        Refused::File(reason) => {
            let path = Shown(invocation.trace.or(invocation.out).unwrap_or(""));
            format!(in alloc; "{path}: {reason}\n")
        }
        Refused::Values(reason) => {
            let path = Shown(invocation.values.unwrap_or(""));
            format!(in alloc; "{path}: {reason}\n")
        }
    };
    match line {
        Ok(line) => Ok(line.into_bytes()),
        Err(_) => Err(Fault::Memory),
    }
}

/// Explains which option is out of its bounds: `--workers`, which comes first, or `--limit`.
fn bounds_explained(alloc: Global, invocation: &Invocation<'_, '_>) -> Result<Vec<u8>, Fault> {
    let line = match invocation.subcommand {
        Subcommand::Run { workers, .. } | Subcommand::Paused { workers, .. }
            if !has_workers(workers) => {
            format!(in alloc; "--workers: {workers} is not 1 to {MOST_WORKERS}\n")
        }
        Subcommand::Run { limit, .. }
        | Subcommand::Reference { limit }
        | Subcommand::Paused { limit, .. }
        | Subcommand::Timeline { limit }
        | Subcommand::Inspect { limit }
        | Subcommand::Explore { limit, .. }
        | Subcommand::Test { limit, .. } => {
            format!(in alloc; "--limit: {limit} is not 1 to 2^62\n")
        }
        Subcommand::Check | Subcommand::List => return Ok(Vec::new(alloc)),
    };
    match line {
        Ok(line) => Ok(line.into_bytes()),
        Err(_) => Err(Fault::Memory),
    }
}

/// Explains the errors in a program, the given one first.
fn fault_explained(alloc: Global, kept: &Kept<'_>, fault: &Fault) -> Result<Vec<u8>, Fault> {
    let text = str::from_utf8(kept.text.as_slice()).unwrap_or("");
    let explained = explanations(alloc, kept.file.as_str(), text, fault)?;
    Ok(explained)
}

/// Whether the command runs a program, so that a second run explains how it ended.
fn runs(invocation: &Invocation<'_, '_>) -> bool {
    matches!(
        invocation.subcommand,
        Subcommand::Paused { .. } | Subcommand::Reference { .. } | Subcommand::Run { .. }
    )
}
