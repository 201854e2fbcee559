//! Runs whose traces are kept.

ghost use Rattle.std.specs.Prelude.{◌≡◌, ◌⊎◌, IfErr, IfOk};
ghost use Rattle.command_line.specs.declared.arguments.Subcommand.TheVariants as subcommands;
ghost use Rattle.kendo_compare.specs.Traces.{IsTraced, IsTracedBy};
ghost use Rattle.kendo_reading.specs.Reading.{Reads};
ghost use Rattle.kendo_shell.specs.Answers.{Finds};
ghost use Rattle.meaning.specs.Source.{source_kind};
ghost use Rattle.pauses.specs.Paused.{paused};
ghost use Rattle.pauses.specs.Plans.{pauses_of};
ghost use Rattle.syntax.specs.Tree.{File};
ghost use Rattle.whole_run.specs.Runs.{BeginsOutput, IsWhole};

use go_text::Fault;
use kendo_base::{Open, run_bytes};
use kendo_front::traced_bytes;
use pauses::Plan;
use std::alloc::Global;
use std::sync::Wait;
use std::thread::Threads;
use word::end::End;
use word::{Flagged, Write};

/// Runs the program that a text is, like `run_bytes`. Its whole trace goes to `trace`.
///
/// Errors: those of `run_bytes`. `trace` stays what it was then.
pub fn run_with_trace<R: Threads + Wait + Sync, O: Write>(
    rt: &R,
    alloc: Global,
    bytes: Vec<u8>,
    workers: u64,
    limit: u64,
    out: &mut O,
    trace: &mut Vec<u8>,
) -> Result<End, Fault>
    ensures found { Finds (subcommands.Run workers limit) bytes.items result }
    ensures begins { (O.contents out.new ≡ O.contents out.old) ⊎ ((file : File) × Reads bytes.items file × BeginsOutput (source_kind file) limit (O.contents out.old) (O.contents out.new)) }
    ensures nothing { IfErr result (λ fault. (fault ≡ Fault.Memory → ⊥) → (fault ≡ Fault.Write → ⊥) → O.contents out.new ≡ O.contents out.old) }
    ensures whole { IfOk result (λ end. (file : File) × Reads bytes.items file × IsWhole (source_kind file) limit (O.contents out.old) (O.contents out.new) end) }
    ensures traced { IfOk result (IsTraced bytes.items limit trace.new.items) }
    ensures kept { IfErr result (λ _. trace.new ≡ trace.old) }
{
    let mut kept = Flagged::new(Vec::new(alloc));
    let end = run_bytes(rt, alloc, bytes, limit, workers, &Open, out, &mut kept)?;
    *trace = kept.into_inner();
    Ok(end)
}

/// Interprets the program that a text is by a plan of pauses, like `traced_bytes`. Its whole trace goes to `trace`.
///
/// Errors: those of `traced_bytes`. `trace` stays what it was then.
pub fn run_paused_with_trace<O: Write>(
    alloc: Global,
    bytes: Vec<u8>,
    plan: &Plan,
    limit: u64,
    out: &mut O,
    trace: &mut Vec<u8>,
) -> Result<End, Fault>
    ensures found { Finds (subcommands.Paused 1 limit) bytes.items result }
    ensures begins { (O.contents out.new ≡ O.contents out.old) ⊎ ((file : File) × Reads bytes.items file × BeginsOutput (paused (source_kind file) (pauses_of plan.now.pauses.items)) limit (O.contents out.old) (O.contents out.new)) }
    ensures nothing { IfErr result (λ fault. (fault ≡ Fault.Memory → ⊥) → (fault ≡ Fault.Write → ⊥) → O.contents out.new ≡ O.contents out.old) }
    ensures whole { IfOk result (λ end. (file : File) × Reads bytes.items file × IsWhole (paused (source_kind file) (pauses_of plan.now.pauses.items)) limit (O.contents out.old) (O.contents out.new) end) }
    ensures traced { IfOk result (IsTracedBy (pauses_of plan.now.pauses.items) bytes.items limit trace.new.items) }
    ensures kept { IfErr result (λ _. trace.new ≡ trace.old) }
{
    let mut kept = Flagged::new(Vec::new(alloc));
    let end = traced_bytes(alloc, bytes, plan, limit, out, &mut kept)?;
    *trace = kept.into_inner();
    Ok(end)
}
