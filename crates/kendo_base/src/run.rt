//! From bytes to bytes.

ghost use Rattle.std.specs.Prelude.{◌≡◌, ◌≤◌, ◌⊎◌, ◌↔◌, IfErr, IfOk, IsErrOf, true};
ghost use Rattle.meaning.specs.Source.{source_kind};
ghost use Rattle.kendo_reading.specs.Reading.{HasNoReading, IsRefusal, IsWhy, Reads};
ghost use Rattle.whole_run.specs.Runs.{BeginsOutput, IsLimit, IsWhole, IsWorkers};
ghost use Rattle.syntax.specs.Tree.{File};
ghost use Rattle.tracer.specs.Trace.{BeginsTrace, IsWholeTrace};

use crate::running::run_typed;
use go_text::Fault;
use kendo_reading::read;
use std::alloc::Global;
use std::sync::Wait;
use std::thread::Threads;
use word::Write;
use word::end::End;
use worker_pool::{Gate, TraceWriter};

/// Runs the program in a source file, up to the clock limit (1 to 2^62 steps), on 1 to 64 workers,
/// and returns how it ended. What is written to `out` is a prefix of the output of the one-thread run,
/// and what is written to `trace` is a prefix of the lines of its events; both are complete if the run ends.
/// A source file that is no program is refused before anything is written.
///
/// Errors: the numbers 1 to 10 if it is no program, with line and column; `Memory`; `Write`; `BadWorkers`; `BadLimit`.
pub fn run_bytes<R: Threads + Wait + Sync, G: Gate + Sync, O: Write, T: TraceWriter>(
    rt: &R,
    alloc: Global,
    bytes: Vec<u8>,
    limit: u64,
    workers: u64,
    gate: &G,
    out: &mut O,
    trace: &mut T,
) -> Result<End, Fault>
    ensures workers { IsErrOf result Fault.BadWorkers ↔ (IsWorkers workers → ⊥) }
    ensures limit { IsErrOf result Fault.BadLimit ↔ (IsWorkers workers × (IsLimit limit → ⊥)) }
    ensures refused { IfErr result (λ fault. IsRefusal fault → HasNoReading bytes.items) }
    ensures why { IfErr result (λ fault. IsRefusal fault → IsWhy bytes.items fault) }
    ensures only { IfErr result (λ fault. IsRefusal fault ⊎ ((fault ≡ Fault.Memory) ⊎ ((fault ≡ Fault.Write) ⊎ ((fault ≡ Fault.BadWorkers) ⊎ (fault ≡ Fault.BadLimit))))) }
    ensures begins { (O.contents out.new ≡ O.contents out.old) ⊎ ((file : File) × Reads bytes.items file × BeginsOutput (source_kind file) limit (O.contents out.old) (O.contents out.new)) }
    ensures nothing { IfErr result (λ fault. (fault ≡ Fault.Memory → ⊥) → (fault ≡ Fault.Write → ⊥) → O.contents out.new ≡ O.contents out.old) }
    ensures whole { IfOk result (λ end. (file : File) × Reads bytes.items file × IsWhole (source_kind file) limit (O.contents out.old) (O.contents out.new) end) }
    ensures traces { (T.contents trace.new ≡ T.contents trace.old) ⊎ ((file : File) × Reads bytes.items file × BeginsTrace (source_kind file) limit (T.contents trace.old) (T.contents trace.new)) }
    ensures untraced { IfErr result (λ fault. (fault ≡ Fault.Memory → ⊥) → (fault ≡ Fault.Write → ⊥) → T.contents trace.new ≡ T.contents trace.old) }
    ensures traced { IfOk result (λ end. (file : File) × Reads bytes.items file × IsWholeTrace (source_kind file) limit (T.contents trace.old) (T.contents trace.new) end) }
    ensures write { IsErrOf result Fault.Write → (O.has_failed out.new ≡ true) ⊎ (T.has_failed trace.new ≡ true) }
    ensures reading { IsErrOf result Fault.Write → (file : File) × Reads bytes.items file }
{
    if workers < 1 || workers > 64 {
        return Err(Fault::BadWorkers);
    }
    if limit < 1 || limit > 1 << 62 {
        return Err(Fault::BadLimit);
    }
    let (_source, typed) = read(alloc, bytes)?;
    run_typed(rt, alloc, &typed, limit, workers, gate, out, trace)
}
