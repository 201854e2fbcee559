//! The exploration of a program in other orders of its events.

ghost use Rattle.std.specs.Prelude.{◌≡◌, ◌⊎◌, [], IfErr, IfOk};
ghost use Rattle.command_line.specs.declared.arguments.Subcommand.TheVariants as subcommands;
ghost use Rattle.kendo.specs.Verdicts.{Explores, IsJudged, Judges, exploration_status, explored_status, scope_of};

use crate::errors::{Reported, told_of};
use crate::explaining::{Kept, explain, kept_program};
use crate::plan_files::check_folder;
use crate::progress::Follower;
use command_line::arguments::{Invocation, Subcommand};
use go_text::{Fault, Memory};
use json_report::exploration_lines;
use kendo_explore::{Explored, Options, Scope, Verdict, explore_bytes};
use kendo_shell::USAGE;
use kendo_shell::files::opened;
use kendo_shell::tracing::{Outputs, Refused, Trace};
use std::alloc::Global;
use word::write_all;

/// The exit status if an order ends in an error, or in another way than the ordinary run.
const OTHER: u8 = 8;

/// The exit status if not all orders could be searched, and that counts.
const NOT_ALL: u8 = 9;

/// An exploration, or a test, of the program of a file.
#[derive(Clone, Copy)]
pub(crate) struct Task<'r, 'm, 'a> {
    pub rt: &'r HostRuntime,
    pub alloc: Global,
    pub invocation: &'r Invocation<'m, 'a>,
    pub file: &'r str,
}

/// Explores the program of a file, and reports what is found. The plans that show its ends again go to files.
pub(crate) fn explore_file(
    rt: &HostRuntime,
    alloc: Global,
    invocation: &Invocation<'_, '_>,
    file: &str,
) -> Result<u8, Memory>
    ensures { IfOk result (λ status. (status ≡ USAGE) ⊎ Judges invocation.now status) }
{
    let source = Invocation {
        out: None,
        trace: None,
        ..*invocation
    };
    let Some((bytes, _no_trace)) = opened(rt, alloc, &source, file, None)? else {
        return Ok(USAGE);
    };
    if !has_folder(rt, alloc, invocation)? {
        return Ok(USAGE);
    }
    explore(rt, alloc, invocation, file, bytes)
}

/// Whether plans can be written to the folder that the command names, if it names one; else standard error says why not.
pub(crate) fn has_folder(
    rt: &HostRuntime,
    alloc: Global,
    invocation: &Invocation<'_, '_>,
) -> Result<bool, Memory> {
    match invocation.out {
        Some(folder) => check_folder(rt, alloc, folder, invocation.explains),
        None => Ok(true),
    }
}

/// Like `explore_file`, for the bytes of the file.
fn explore(
    rt: &HostRuntime,
    alloc: Global,
    invocation: &Invocation<'_, '_>,
    file: &str,
    bytes: Vec<u8>,
) -> Result<u8, Memory>
    ensures { IfOk result (IsJudged invocation.now [] bytes.items) }
{
    let reported = Reported::of(alloc, invocation, file, bytes.as_slice())?;
    let kept = kept_program(rt, alloc, invocation, file, None, bytes.as_slice());
    let mut outputs = Outputs::new(rt, Trace::Dropped);
    let task = Task {
        rt,
        alloc,
        invocation,
        file,
    };
    let found = find(task, invocation, bytes, kept.as_ref(), &mut outputs);
    let refused = outputs.refused();
    let status = report(
        rt,
        alloc,
        reported.as_ref(),
        found,
        refused,
        invocation.whole,
    )?;
    if let Err(fault) = found {
        explain(rt, alloc, invocation, kept, Err(fault), refused);
    }
    Ok(status)
}

/// Reports why a program was not explored. Returns the exit status of the exploration.
fn report(
    rt: &HostRuntime,
    alloc: Global,
    reported: Option<&Reported<'_>>,
    found: Result<Verdict, Fault>,
    refused: Option<Refused>,
    whole: bool,
) -> Result<u8, Memory>
    ensures { IfOk result (λ status. status ≡ exploration_status found whole) }
{
    match found {
        Ok(verdict) => Ok(status_of(verdict, whole)),
        Err(fault) => told_of(rt, alloc, None, reported, &Err(fault), refused),
    }
}

/// The exit status of an exploration. `whole` says whether it counts that not all orders were searched.
fn status_of(verdict: Verdict, whole: bool) -> u8
    ensures { result ≡ explored_status verdict whole }
{
    match verdict {
        Verdict::Other | Verdict::Unshown => OTHER,
        Verdict::SameSoFar if whole => NOT_ALL,
        Verdict::Same | Verdict::Unended | Verdict::SameSoFar => 0,
    }
}

/// What the command finds in the program if it explores it. `kept` is a copy of the program if the command explains.
fn find(
    task: Task<'_, '_, '_>,
    invocation: &Invocation<'_, '_>,
    bytes: Vec<u8>,
    kept: Option<&Kept<'_>>,
    outputs: &mut Outputs,
) -> Result<Verdict, Fault>
    ensures { Explores invocation.now.subcommand (scope_of invocation.now) bytes.items result }
{
    match invocation.subcommand {
        Subcommand::Explore {
            limit,
            tries,
            states,
        } => {
            let options = Options {
                tries,
                states,
                limit,
                scope: scope_of(invocation),
            };
            task.explore(bytes, options, kept, outputs)
        }
        _ => Err(Fault::Memory),
    }
}

/// Which ends differ for the command.
fn scope_of(invocation: &Invocation<'_, '_>) -> Scope
    ensures { result ≡ scope_of invocation.now }
{
    Scope {
        outputs: !invocation.ends,
        lines_in_order: invocation.ordered,
        leaks: invocation.leaks,
    }
}

impl Task<'_, '_, '_> {
    /// Explores the program, and writes what is found.
    fn explore(
        self,
        bytes: Vec<u8>,
        options: Options,
        kept: Option<&Kept<'_>>,
        outputs: &mut Outputs,
    ) -> Result<Verdict, Fault>
        ensures { Explores (subcommands.Explore options.limit options.tries options.states) options.scope bytes.items result }
    {
        let mut follower = Follower::new(self.rt, self.alloc, self.invocation, self.file);
        let explored = explore_bytes(self.alloc, self.file, bytes, options, &mut follower)?;
        follower.clear();
        self.write(&explored, outputs)?;
        follower.all_written()?;
        if let Some(kept) = kept {
            kept.explain_explored(self.rt, self.alloc, options.limit, &explored);
        }
        Ok(explored.verdict)
    }

    /// Writes what was found to standard output, as JSON if the command says so.
    fn write(self, explored: &Explored, outputs: &mut Outputs) -> Result<(), Fault>
        ensures { IfErr result (λ fault. (fault ≡ Fault.Memory) ⊎ (fault ≡ Fault.Write)) }
    {
        if !self.invocation.json {
            return write(explored.report.as_slice(), outputs);
        }
        let lines = exploration_lines(self.alloc, self.file, explored)?;
        write(lines.as_slice(), outputs)
    }
}

/// Writes the lines to standard output.
pub(crate) fn write(lines: &[u8], outputs: &mut Outputs) -> Result<(), Fault>
    ensures { IfErr result (λ fault. (fault ≡ Fault.Memory) ⊎ (fault ≡ Fault.Write)) }
{
    match write_all(&mut outputs.standard, lines) {
        Ok(()) => Ok(()),
        Err(_) => Err(Fault::Write),
    }
}
