//! Like `pausing`, but notes which pauses happen.

ghost use Rattle.std.specs.Prelude.{◌≡◌, ◌⊎◌, ◌↔◌, IfErr, IfOk, IsErrOf, true};
ghost use Rattle.meaning.specs.Source.{source_kind};
ghost use Rattle.checker.specs.Trees.{tree_in};
ghost use Rattle.kendo_reading.specs.Reading.{HasNoReading, IsRefusal, IsWhy, Reads};
ghost use Rattle.pauses.specs.Paused.{paused};
ghost use Rattle.pauses.specs.Plans.{pauses_of};
ghost use Rattle.tracer.specs.Trace.{BeginsTrace, IsWholeTrace};
ghost use Rattle.whole_run.specs.Runs.{BeginsOutput, IsLimit, IsWhole};
ghost use Rattle.syntax.specs.Spans.{tree_of};
ghost use Rattle.syntax.specs.Tree.{File};

use checker::Typed;
use go_text::Fault;
use kendo_reading::read;
use one_thread::run;
use paused_goroutine::{Noted, PauseUses, Paused};
use pauses::Plan;
use reference::{Source, program_of};
use std::alloc::Global;
use traced_run::run_traced;
use word::Write;
use word::end::End;

/// Like `paused_bytes`, but notes in `uses`, which are those of the plan, which pauses happen.
pub fn paused_bytes_noting<O: Write>(
    alloc: Global,
    bytes: Vec<u8>,
    plan: &Plan,
    uses: &PauseUses,
    limit: u64,
    out: &mut O,
) -> Result<End, Fault>
    ensures limit { IsErrOf result Fault.BadLimit ↔ (IsLimit limit → ⊥) }
    ensures refused { IfErr result (λ fault. IsRefusal fault → HasNoReading bytes.items) }
    ensures why { IfErr result (λ fault. IsRefusal fault → IsWhy bytes.items fault) }
    ensures only { IfErr result (λ fault. IsRefusal fault ⊎ ((fault ≡ Fault.Memory) ⊎ ((fault ≡ Fault.Write) ⊎ (fault ≡ Fault.BadLimit)))) }
    ensures begins { (O.contents out.new ≡ O.contents out.old) ⊎ ((file : File) × Reads bytes.items file × BeginsOutput (paused (source_kind file) (pauses_of plan.now.pauses.items)) limit (O.contents out.old) (O.contents out.new)) }
    ensures nothing { IfErr result (λ fault. (fault ≡ Fault.Memory → ⊥) → (fault ≡ Fault.Write → ⊥) → O.contents out.new ≡ O.contents out.old) }
    ensures whole { IfOk result (λ end. (file : File) × Reads bytes.items file × IsWhole (paused (source_kind file) (pauses_of plan.now.pauses.items)) limit (O.contents out.old) (O.contents out.new) end) }
    ensures write { IsErrOf result Fault.Write → O.has_failed out.new ≡ true }
    ensures reading { IsErrOf result Fault.Write → (file : File) × Reads bytes.items file }
{
    if limit < 1 || limit > 1 << 62 {
        return Err(Fault::BadLimit);
    }
    let (_source, typed) = read(alloc, bytes)?;
    let end = run_noted(alloc, &typed, plan, uses, limit, out)?;
    Ok(end)
}

/// Runs a program as its source says, but for its pauses, and notes which happen.
fn run_noted<O: Write>(
    alloc: Global,
    typed: &Typed,
    plan: &Plan,
    uses: &PauseUses,
    limit: u64,
    out: &mut O,
) -> Result<End, Fault>
    ensures limit { IsErrOf result Fault.BadLimit ↔ (IsLimit limit → ⊥) }
    ensures nothing { IsErrOf result Fault.BadLimit → O.contents out.new ≡ O.contents out.old }
    ensures begins { BeginsOutput (paused (source_kind (tree_of (tree_in typed.now))) (pauses_of plan.now.pauses.items)) limit (O.contents out.old) (O.contents out.new) }
    ensures whole { IfOk result (λ end. IsWhole (paused (source_kind (tree_of (tree_in typed.now))) (pauses_of plan.now.pauses.items)) limit (O.contents out.old) (O.contents out.new) end) }
    ensures write { IsErrOf result Fault.Write → O.has_failed out.new ≡ true }
    ensures only { IfErr result (λ fault. (fault ≡ Fault.Memory) ⊎ ((fault ≡ Fault.Write) ⊎ (fault ≡ Fault.BadLimit))) }
{
    if limit < 1 || limit > 1 << 62 {
        return Err(Fault::BadLimit);
    }
    let program = program_of(alloc, typed)?;
    let program = Source { program };
    let paused = Paused { program, plan };
    run(alloc, &Noted { paused, uses }, limit, out)
}

/// Like `traced_bytes`, but notes in `uses`, which are those of the plan, which pauses happen.
///
/// Errors: those of `traced_bytes`.
pub fn traced_bytes_noting<O: Write, T: Write>(
    alloc: Global,
    bytes: Vec<u8>,
    plan: &Plan,
    uses: &PauseUses,
    limit: u64,
    out: &mut O,
    trace: &mut T,
) -> Result<End, Fault>
    ensures limit { IsErrOf result Fault.BadLimit ↔ (IsLimit limit → ⊥) }
    ensures refused { IfErr result (λ fault. IsRefusal fault → HasNoReading bytes.items) }
    ensures why { IfErr result (λ fault. IsRefusal fault → IsWhy bytes.items fault) }
    ensures only { IfErr result (λ fault. IsRefusal fault ⊎ ((fault ≡ Fault.Memory) ⊎ ((fault ≡ Fault.Write) ⊎ (fault ≡ Fault.BadLimit)))) }
    ensures begins { (O.contents out.new ≡ O.contents out.old) ⊎ ((file : File) × Reads bytes.items file × BeginsOutput (paused (source_kind file) (pauses_of plan.now.pauses.items)) limit (O.contents out.old) (O.contents out.new)) }
    ensures traces { (T.contents trace.new ≡ T.contents trace.old) ⊎ ((file : File) × Reads bytes.items file × BeginsTrace (paused (source_kind file) (pauses_of plan.now.pauses.items)) limit (T.contents trace.old) (T.contents trace.new)) }
    ensures nothing { IfErr result (λ fault. (fault ≡ Fault.Memory → ⊥) → (fault ≡ Fault.Write → ⊥) → (O.contents out.new ≡ O.contents out.old) × (T.contents trace.new ≡ T.contents trace.old)) }
    ensures whole { IfOk result (λ end. (file : File) × Reads bytes.items file × IsWhole (paused (source_kind file) (pauses_of plan.now.pauses.items)) limit (O.contents out.old) (O.contents out.new) end) }
    ensures traced { IfOk result (λ end. (file : File) × Reads bytes.items file × IsWholeTrace (paused (source_kind file) (pauses_of plan.now.pauses.items)) limit (T.contents trace.old) (T.contents trace.new) end) }
    ensures write { IsErrOf result Fault.Write → (O.has_failed out.new ≡ true) ⊎ (T.has_failed trace.new ≡ true) }
    ensures reading { IsErrOf result Fault.Write → (file : File) × Reads bytes.items file }
{
    if limit < 1 || limit > 1 << 62 {
        return Err(Fault::BadLimit);
    }
    let (_source, typed) = read(alloc, bytes)?;
    let end = trace_noted(alloc, &typed, plan, uses, limit, out, trace)?;
    Ok(end)
}

/// Runs a program as its source says, but for its pauses, with its trace, and notes which pauses happen.
fn trace_noted<O: Write, T: Write>(
    alloc: Global,
    typed: &Typed,
    plan: &Plan,
    uses: &PauseUses,
    limit: u64,
    out: &mut O,
    trace: &mut T,
) -> Result<End, Fault>
    ensures limit { IsErrOf result Fault.BadLimit ↔ (IsLimit limit → ⊥) }
    ensures nothing { IsErrOf result Fault.BadLimit → (O.contents out.new ≡ O.contents out.old) × (T.contents trace.new ≡ T.contents trace.old) }
    ensures begins { BeginsOutput (paused (source_kind (tree_of (tree_in typed.now))) (pauses_of plan.now.pauses.items)) limit (O.contents out.old) (O.contents out.new) }
    ensures traces { BeginsTrace (paused (source_kind (tree_of (tree_in typed.now))) (pauses_of plan.now.pauses.items)) limit (T.contents trace.old) (T.contents trace.new) }
    ensures whole { IfOk result (λ end. IsWhole (paused (source_kind (tree_of (tree_in typed.now))) (pauses_of plan.now.pauses.items)) limit (O.contents out.old) (O.contents out.new) end) }
    ensures traced { IfOk result (λ end. IsWholeTrace (paused (source_kind (tree_of (tree_in typed.now))) (pauses_of plan.now.pauses.items)) limit (T.contents trace.old) (T.contents trace.new) end) }
    ensures write { IsErrOf result Fault.Write → (O.has_failed out.new ≡ true) ⊎ (T.has_failed trace.new ≡ true) }
    ensures only { IfErr result (λ fault. (fault ≡ Fault.Memory) ⊎ ((fault ≡ Fault.Write) ⊎ (fault ≡ Fault.BadLimit))) }
{
    if limit < 1 || limit > 1 << 62 {
        return Err(Fault::BadLimit);
    }
    let program = program_of(alloc, typed)?;
    let program = Source { program };
    let paused = Paused { program, plan };
    run_traced(alloc, &Noted { paused, uses }, limit, out, trace)
}
