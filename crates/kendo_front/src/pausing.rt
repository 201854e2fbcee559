//! From bytes to bytes, by the interpreter of sources, with pauses.

ghost use Rattle.std.specs.Prelude.{◌≡◌, ◌⊎◌, ◌↔◌, IfErr, IfOk, IsErrOf, true};
ghost use Rattle.meaning.specs.Source.{source_kind};
ghost use Rattle.kendo_reading.specs.Reading.{HasNoReading, IsRefusal, IsWhy, Reads};
ghost use Rattle.pauses.specs.Paused.{paused};
ghost use Rattle.pauses.specs.Plans.{pauses_of};
ghost use Rattle.tracer.specs.Trace.{BeginsTrace, IsWholeTrace};
ghost use Rattle.whole_run.specs.Runs.{BeginsOutput, IsLimit, IsWhole};
ghost use Rattle.syntax.specs.Tree.{File};

use crate::noting::{paused_bytes_noting, traced_bytes_noting};
use go_text::Fault;
use paused_goroutine::PauseUses;
use pauses::Plan;
use std::alloc::Global;
use word::Write;
use word::end::End;

/// Like `reference_bytes`, but each goroutine keeps to the plan.
pub fn paused_bytes<O: Write>(
    alloc: Global,
    bytes: Vec<u8>,
    plan: &Plan,
    limit: u64,
    out: &mut O,
) -> Result<End, Fault>
    ensures limit { IsErrOf result Fault.BadLimit ↔ (IsLimit limit → ⊥) }
    ensures refused { IfErr result (λ fault. IsRefusal fault → HasNoReading bytes.items) }
    ensures why { IfErr result (λ fault. IsRefusal fault → IsWhy bytes.items fault) }
    ensures only { IfErr result (λ fault. IsRefusal fault ⊎ ((fault ≡ Fault.Memory) ⊎ ((fault ≡ Fault.Write) ⊎ (fault ≡ Fault.BadLimit)))) }
    ensures begins { (O.contents out.new ≡ O.contents out.old) ⊎ ((file : File) × Reads bytes.items file × BeginsOutput (paused (source_kind file) (pauses_of plan.now.pauses.items)) limit (O.contents out.old) (O.contents out.new)) }
    ensures nothing { IfErr result (λ fault. (fault ≡ Fault.Memory → ⊥) → (fault ≡ Fault.Write → ⊥) → O.contents out.new ≡ O.contents out.old) }
    ensures whole { IfOk result (λ end. (file : File) × Reads bytes.items file × IsWhole (paused (source_kind file) (pauses_of plan.now.pauses.items)) limit (O.contents out.old) (O.contents out.new) end) }
    ensures write { IsErrOf result Fault.Write → O.has_failed out.new ≡ true }
    ensures reading { IsErrOf result Fault.Write → (file : File) × Reads bytes.items file }
{
    if limit < 1 || limit > 1 << 62 {
        return Err(Fault::BadLimit);
    }
    let uses = PauseUses::new(alloc, plan)?;
    paused_bytes_noting(alloc, bytes, plan, &uses, limit, out)
}

/// Like `paused_bytes`, but also writes the trace of the run: a line for each event. What is written to `trace` begins the trace of
/// the one-thread run of these goroutines; at an end it is all of it.
///
/// Errors: also `Write` if `trace` failed.
pub fn traced_bytes<O: Write, T: Write>(
    alloc: Global,
    bytes: Vec<u8>,
    plan: &Plan,
    limit: u64,
    out: &mut O,
    trace: &mut T,
) -> Result<End, Fault>
    ensures limit { IsErrOf result Fault.BadLimit ↔ (IsLimit limit → ⊥) }
    ensures refused { IfErr result (λ fault. IsRefusal fault → HasNoReading bytes.items) }
    ensures why { IfErr result (λ fault. IsRefusal fault → IsWhy bytes.items fault) }
    ensures only { IfErr result (λ fault. IsRefusal fault ⊎ ((fault ≡ Fault.Memory) ⊎ ((fault ≡ Fault.Write) ⊎ (fault ≡ Fault.BadLimit)))) }
    ensures begins { (O.contents out.new ≡ O.contents out.old) ⊎ ((file : File) × Reads bytes.items file × BeginsOutput (paused (source_kind file) (pauses_of plan.now.pauses.items)) limit (O.contents out.old) (O.contents out.new)) }
    ensures traces { (T.contents trace.new ≡ T.contents trace.old) ⊎ ((file : File) × Reads bytes.items file × BeginsTrace (paused (source_kind file) (pauses_of plan.now.pauses.items)) limit (T.contents trace.old) (T.contents trace.new)) }
    ensures nothing { IfErr result (λ fault. (fault ≡ Fault.Memory → ⊥) → (fault ≡ Fault.Write → ⊥) → (O.contents out.new ≡ O.contents out.old) × (T.contents trace.new ≡ T.contents trace.old)) }
    ensures whole { IfOk result (λ end. (file : File) × Reads bytes.items file × IsWhole (paused (source_kind file) (pauses_of plan.now.pauses.items)) limit (O.contents out.old) (O.contents out.new) end) }
    ensures traced { IfOk result (λ end. (file : File) × Reads bytes.items file × IsWholeTrace (paused (source_kind file) (pauses_of plan.now.pauses.items)) limit (T.contents trace.old) (T.contents trace.new) end) }
    ensures write { IsErrOf result Fault.Write → (O.has_failed out.new ≡ true) ⊎ (T.has_failed trace.new ≡ true) }
    ensures reading { IsErrOf result Fault.Write → (file : File) × Reads bytes.items file }
{
    if limit < 1 || limit > 1 << 62 {
        return Err(Fault::BadLimit);
    }
    let uses = PauseUses::new(alloc, plan)?;
    traced_bytes_noting(alloc, bytes, plan, &uses, limit, out, trace)
}
