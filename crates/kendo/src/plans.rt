//! The plan of pauses by which a program is run.

use crate::bounds::is_in_bounds;
use command_line::arguments::{Invocation, Subcommand};
use go_text::{Fault, Memory};
use kendo_shell::files::other_bytes;
use kendo_shell::names::Shown;
use kendo_shell::streams::tell;
use paused_goroutine::PauseUses;
use pauses::{Plan, PlanError, PlanHeader};
use std::alloc::Global;
use word::end::End;

/// The plan by which a program is run.
#[derive(Drop)]
pub(crate) struct GivenPlan<'a> {
    pub plan: Plan,
    /// Which of its pauses have happened.
    pub uses: PauseUses,
    /// Its file; `None` if the command names none. The plan has no pauses then.
    file: Option<GivenFile<'a>>,
}

/// What is known of a plan's file.
#[derive(Drop)]
struct GivenFile<'a> {
    /// The path, as it was typed.
    path: &'a str,
    header: Option<PlanHeader>,
    /// The numbers of the lines of the plan's pauses, in their order, counted from 1.
    lines: Vec<u64>,
}

/// The plan in the file that the command names; one without pauses if it names none, or is out of its bounds, since nothing runs then. `None`
/// if the file can't be used: standard error says so, and, if the command explains, why.
///
/// Errors: `Memory`.
pub(crate) fn plan_of<'a>(
    rt: &HostRuntime,
    alloc: Global,
    invocation: &Invocation<'_, 'a>,
) -> Result<Option<GivenPlan<'a>>, Memory> {
    let path = invocation
        .pauses
        .filter(|_| is_in_bounds(invocation.subcommand));
    let Some(path) = path else {
        let pauses = Vec::new(alloc);
        return Ok(Some(GivenPlan::new(alloc, Plan { pauses }, None)?));
    };
    let Some(bytes) = other_bytes(rt, alloc, path, invocation.explains)? else {
        return Ok(None);
    };
    match Plan::read(alloc, bytes.as_slice()) {
        Ok(plan) => {
            let file = Some(given_file(alloc, path, bytes.as_slice())?);
            Ok(Some(GivenPlan::new(alloc, plan, file)?))
        }
        Err(PlanError::Memory) => Err(Memory),
        Err(PlanError::Broken(line)) => {
            refuse(rt, alloc, path, line, invocation.explains)?;
            Ok(None)
        }
    }
}

/// What is known of a plan's file with these bytes.
fn given_file<'a>(alloc: Global, path: &'a str, bytes: &[u8]) -> Result<GivenFile<'a>, Memory> {
    let header = PlanHeader::of(alloc, bytes)?;
    let lines = pause_lines(alloc, bytes)?;
    Ok(GivenFile {
        path,
        header,
        lines,
    })
}

/// The numbers of the lines of a plan's file that are pauses, counted from 1.
fn pause_lines(alloc: Global, bytes: &[u8]) -> Result<Vec<u64>, Memory> {
    let mut lines = Vec::new(alloc);
    let mut number = 0u64;
    for line in bytes.split(|byte| *byte == b'\n') {
        number = number.wrapping_add(1);
        let says = match line.first() {
            Some(first) => *first != b'#',
            None => false,
        };
        if says && number > 1 {
            lines.push(number)?;
        }
    }
    Ok(lines)
}

impl<'a> GivenPlan<'a> {
    /// A plan, of which no pause has happened yet.
    ///
    /// Errors: `Memory`.
    fn new(
        alloc: Global,
        plan: Plan,
        file: Option<GivenFile<'a>>,
    ) -> Result<GivenPlan<'a>, Memory> {
        let uses = PauseUses::new(alloc, &plan)?;
        Ok(GivenPlan { plan, uses, file })
    }

    /// Reports on standard error if the plan was made for another program, or another version of the program, than that with this
    /// path and this source.
    ///
    /// Errors: `Memory`.
    pub(crate) fn compare_source(
        &self,
        rt: &HostRuntime,
        alloc: Global,
        file: &str,
        source: &[u8],
    ) -> Result<(), Memory> {
        let Some(given) = &self.file else {
            return Ok(());
        };
        let Some(header) = &given.header else {
            return Ok(());
        };
        if header.checksum.is_of(source) {
            return Ok(());
        }
        let path = Shown(given.path);
        let line = if header.path.as_slice() == file.as_bytes() {
            let file = Shown(file);
            format!(in alloc; "kendo: {path} was made for another version of {file}\n")?
        } else {
            let file = Shown(file);
            let other = shown_path(alloc, header.path.as_slice())?;
            format!(in alloc; "kendo: {path} was made for {other}, not {file}\n")?
        };
        tell(rt, line.as_bytes());
        Ok(())
    }

    /// Reports on standard error which pauses have not happened in a run that has ended, a line for each.
    ///
    /// Errors: `Memory`.
    pub(crate) fn report_unused(
        &self,
        rt: &HostRuntime,
        alloc: Global,
        invocation: &Invocation<'_, '_>,
        outcome: &Result<End, Fault>,
    ) -> Result<(), Memory> {
        let Some(given) = &self.file else {
            return Ok(());
        };
        let Subcommand::Paused { .. } = invocation.subcommand else {
            return Ok(());
        };
        if outcome.is_err() {
            return Ok(());
        }
        let path = Shown(given.path);
        let mut index = 0usize;
        for pause in &self.plan.pauses {
            if let Some(why) = self.uses.why_unused(alloc, index, pause)? {
                let number = given.lines.get(index).copied().unwrap_or(0);
                let line = format!(in alloc; "kendo: {path}:{number}: {why}\n")?;
                tell(rt, line.as_bytes());
            }
            index = index.wrapping_add(1);
        }
        Ok(())
    }
}

/// A path from a plan's header, on one line.
fn shown_path(alloc: Global, path: &[u8]) -> Result<String, Memory> {
    let mut shown = Vec::new(alloc);
    for byte in path {
        shown.push(if byte.is_ascii_control() { b'?' } else { *byte })?;
    }
    match String::from_utf8(shown) {
        Ok(shown) => Ok(shown),
        Err(_) => Ok(String::from_str(alloc, "another program")?),
    }
}

/// Reports that a plan is broken at a line, and, if that is to be explained, what a plan is.
fn refuse(
    rt: &HostRuntime,
    alloc: Global,
    path: &str,
    line: u64,
    explains: bool,
) -> Result<(), Memory> {
    let path = Shown(path);
    let told = format!(in alloc; "kendo: broken plan at {path}:{line}\n")?;
    tell(rt, told.as_bytes());
    if explains {
        let form = if line == 1 { FIRST } else { PAUSE };
        let why = format!(in alloc; "{path}:{line}: {form}\n")?;
        tell(rt, why.as_bytes());
    }
    Ok(())
}

/// What the first line of a plan is.
const FIRST: &str = "the first line of a plan is `kendo pauses 1`";

/// What the other lines of a plan are.
const PAUSE: &str =
    "a line is `WAY REQUEST wait TICKS` or `WAY REQUEST clause NUMBER`, as `1.2 4 wait 30`, and each request has one of each at most";
