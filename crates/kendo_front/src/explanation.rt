//! The report on the end of a run.

ghost use Rattle.std.specs.Prelude.{◌≡◌, ◌≤◌, ◌^◌, ◌⊎◌, ◌↔◌, IfErr, IsErrOf};
ghost use Rattle.whole_run.specs.Runs.{IsLimit};
ghost use Rattle.kendo_reading.specs.Reading.{HasNoReading, IsRefusal, IsWhy};

use compiled_end::compiled_end;
use go_text::Fault;
use kendo_reading::read;
use kendo_report::text_of_panic;
use paused_end::paused_end;
use pauses::Plan;
use std::alloc::Global;
use word::end::End;

/// Where the goroutines of a program are at this end of its run up to the clock limit, in lines; if the run finished, those that
/// wait forever. FILE in them is the path as it was typed.
///
/// Errors: `BadLimit`; by the numbers 1 to 10 why the source file is no program; `Memory`.
pub fn explain_end(
    alloc: Global,
    path: &str,
    bytes: Vec<u8>,
    limit: u64,
    end: End,
) -> Result<Vec<u8>, Fault>
    ensures limit { IsErrOf result Fault.BadLimit ↔ (IsLimit limit → ⊥) }
    ensures refused { IfErr result (λ fault. IsRefusal fault → HasNoReading bytes.items) }
    ensures why { IfErr result (λ fault. IsRefusal fault → IsWhy bytes.items fault) }
    ensures only { IfErr result (λ fault. IsRefusal fault ⊎ ((fault ≡ Fault.Memory) ⊎ (fault ≡ Fault.BadLimit))) }
{
    if limit < 1 || limit > 1 << 62 {
        return Err(Fault::BadLimit);
    }
    explain(alloc, path, bytes, limit, cause_of(end))
}

/// Like `explain_end`, of the run in which each goroutine keeps to the plan.
///
/// Errors: `BadLimit`; by the numbers 1 to 10 why the source file is no program; `Memory`.
pub fn explain_end_by_plan(
    alloc: Global,
    path: &str,
    bytes: Vec<u8>,
    plan: &Plan,
    limit: u64,
    end: End,
) -> Result<Vec<u8>, Fault>
    ensures limit { IsErrOf result Fault.BadLimit ↔ (IsLimit limit → ⊥) }
    ensures refused { IfErr result (λ fault. IsRefusal fault → HasNoReading bytes.items) }
    ensures why { IfErr result (λ fault. IsRefusal fault → IsWhy bytes.items fault) }
    ensures only { IfErr result (λ fault. IsRefusal fault ⊎ ((fault ≡ Fault.Memory) ⊎ (fault ≡ Fault.BadLimit))) }
{
    if limit < 1 || limit > 1 << 62 {
        return Err(Fault::BadLimit);
    }
    explain_by_plan(alloc, path, bytes, plan, limit, cause_of(end))
}

/// Why a run panicked; nothing if it did not.
fn cause_of(end: End) -> &'static str {
    match end {
        End::Panicked(cause) => text_of_panic(cause),
        End::Finished | End::Deadlock | End::Exhausted => "",
    }
}

/// Like `explain_end`, of a run with a panic for this cause, or with no panic.
fn explain(
    alloc: Global,
    path: &str,
    bytes: Vec<u8>,
    limit: u64,
    cause: &str,
) -> Result<Vec<u8>, Fault>
    requires { (1 ≤ limit) × (limit ≤ 2 ^ 62) }
    ensures refused { IfErr result (λ fault. IsRefusal fault → HasNoReading bytes.items) }
    ensures why { IfErr result (λ fault. IsRefusal fault → IsWhy bytes.items fault) }
    ensures only { IfErr result (λ fault. IsRefusal fault ⊎ (fault ≡ Fault.Memory)) }
{
    let (source, typed) = read(alloc, bytes)?;
    let told = compiled_end(alloc, path, &source, &typed, limit, cause)?;
    Ok(told)
}

/// Like `explain_end_by_plan`, of a run with a panic for this cause, or with no panic.
fn explain_by_plan(
    alloc: Global,
    path: &str,
    bytes: Vec<u8>,
    plan: &Plan,
    limit: u64,
    cause: &str,
) -> Result<Vec<u8>, Fault>
    requires { limit ≤ 2 ^ 62 }
    ensures refused { IfErr result (λ fault. IsRefusal fault → HasNoReading bytes.items) }
    ensures why { IfErr result (λ fault. IsRefusal fault → IsWhy bytes.items fault) }
    ensures only { IfErr result (λ fault. IsRefusal fault ⊎ (fault ≡ Fault.Memory)) }
{
    let (source, typed) = read(alloc, bytes)?;
    let told = paused_end(alloc, path, &source, &typed, plan, limit, cause)?;
    Ok(told)
}
