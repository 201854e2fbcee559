//! The run of a program for a command line.

ghost use Rattle.std.specs.Prelude.{◌≡◌, ◌⊎◌, ◌↔◌, ◌≤◌, IsErrOf, true};
ghost use Rattle.command_line.specs.declared.arguments.Subcommand.TheVariants as subcommands;
ghost use Rattle.kendo_shell.specs.Answers.{Finds};
ghost use Rattle.kendo_shell.specs.Streams.{has_refused};
ghost use Rattle.kendo_shell.specs.Traces.{has_lost};
ghost use Rattle.whole_run.specs.Runs.{IsWorkers};

use crate::run::run_bytes;
use go_text::Fault;
use kendo_shell::tracing::Outputs;
use std::alloc::Global;
use std::sync::Wait;
use std::thread::{Threads, available_parallelism};
use word::end::End;
use worker_pool::Gate;

/// A gate that does nothing.
pub struct Open;

impl Gate for Open {
    fn at_start(&self, _worker: u64) {}

    fn at_lent(&self, _worker: u64, _number: u64) {}

    fn at_end(&self, _worker: u64) {}

    fn at_progress(&self, _clock: u64) {}
}

/// Runs the program: its output goes to standard output, the lines of its events to the file of the trace, if there is one. No more
/// workers are started than there are processors.
///
/// Errors: those of `run_bytes`. `Write` only after one of the outputs refused bytes.
pub fn run_text(
    leave: &(impl Threads + Wait + Sync),
    alloc: Global,
    bytes: Vec<u8>,
    workers: u64,
    limit: u64,
    gate: &(impl Gate + Sync),
    outputs: &mut Outputs,
) -> Result<End, Fault>
    ensures found { Finds (subcommands.Run workers limit) bytes.items result }
    ensures write { IsErrOf result Fault.Write → (has_refused outputs.new.standard ≡ true) ⊎ (has_lost outputs.new.file ≡ true) }
{
    let started = started_of(leave, workers);
    let Outputs {
        standard,
        file,
        values: _,
    } = outputs;
    let end = run_bytes(leave, alloc, bytes, limit, started, gate, standard, file)?;
    Ok(end)
}

/// How many of these workers are started: all, or as many as there are processors for this process, if that is known. One more would
/// only take turns with the others.
fn started_of(leave: &impl Threads, workers: u64) -> u64
    ensures workers { IsWorkers result ↔ IsWorkers workers }
    ensures most { result ≤ workers }
{
    if workers < 1 || workers > 64 {
        return workers;
    }
    match available_parallelism(leave) {
        Ok(processors) => workers.min(processors.get() as u64),
        Err(_) => workers,
    }
}
