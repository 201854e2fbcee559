//! Runs, and the values of their events.

ghost use Rattle.std.specs.Prelude.{◌≡◌, ◌⊎◌, IfErr, IsErrOf, true};
ghost use Rattle.command_line.specs.declared.arguments.Subcommand.TheVariants as subcommands;
ghost use Rattle.kendo_shell.specs.Answers.{Finds};
ghost use Rattle.kendo_shell.specs.Traces.{IsLost, has_lost};

use command_line::arguments::Invocation;
use go_text::Fault;
use kendo_base::run_text;
use kendo_shell::notice::Notice;
use kendo_shell::tracing::{Outputs, Trace};
use pauses::Plan;
use run_values::write_values;
use std::alloc::Global;
use std::sync::Wait;
use std::thread::Threads;
use word::end::End;

/// Runs the program, like `run_text`. A terminal is told if that takes long. If the command names a file for the values, they are written
/// after the run.
pub(crate) fn run_valued(
    rt: &HostRuntime,
    threads: &(impl Threads + Wait + Sync),
    alloc: Global,
    bytes: Vec<u8>,
    workers: u64,
    limit: u64,
    invocation: &Invocation<'_, '_>,
    outputs: &mut Outputs,
) -> Result<End, Fault>
    ensures found { Finds (subcommands.Run workers limit) bytes.items result }
    ensures write { IsErrOf result Fault.Write → IsLost outputs.new }
{
    let notice = Notice::new(rt, alloc, limit);
    if invocation.values.is_none() {
        return run_text(threads, alloc, bytes, workers, limit, &notice, outputs);
    }
    let text = bytes.clone()?;
    let end = run_text(threads, alloc, bytes, workers, limit, &notice, outputs)?;
    let plan = Plan {
        pauses: Vec::new(alloc),
    };
    write(alloc, text, &plan, limit, &mut outputs.values)?;
    Ok(end)
}

/// Writes what the events of a program's run by a plan send, receive and print, if there is a file for it. The program was run before,
/// so it has a reading, and its limit is within its bounds.
///
/// Errors: `Memory`; `Write`.
pub(crate) fn write(
    alloc: Global,
    bytes: Vec<u8>,
    plan: &Plan,
    limit: u64,
    values: &mut Trace,
) -> Result<(), Fault>
    ensures only { IfErr result (λ fault. (fault ≡ Fault.Memory) ⊎ (fault ≡ Fault.Write)) }
    ensures write { IsErrOf result Fault.Write → has_lost values.new ≡ true }
{
    match write_values(alloc, bytes, plan, limit, values) {
        Ok(()) => Ok(()),
        Err(Fault::Write) => Err(Fault::Write),
        Err(_) => Err(Fault::Memory),
    }
}
