//! From the bytes of a source file to a moment of its run.

ghost use Rattle.std.specs.Prelude.{◌≡◌, ◌≤◌, ◌^◌, ◌⊎◌, ◌↔◌, IfErr, IfOk, IsErrOf};
ghost use Rattle.checker.specs.Trees.{tree_in};
ghost use Rattle.kendo_inspect.specs.Stops.{IsAfter, IsWanted};
ghost use Rattle.kendo_reading.specs.Reading.{HasNoReading, IsRefusal, IsWhy, Reads};
ghost use Rattle.meaning.specs.Source.{source_kind};
ghost use Rattle.pauses.specs.Paused.{paused};
ghost use Rattle.pauses.specs.Plans.{pauses_of};
ghost use Rattle.syntax.specs.Spans.{tree_of};
ghost use Rattle.syntax.specs.Tree.{File};
ghost use Rattle.whole_run.specs.Runs.{IsLimit};

use checker::Typed;
use go_text::{Fault, Memory, Source};
use inspection::{Row, Scene, paused_rows, plain_rows, shown_moment};
use kendo_reading::read;
use one_thread::{Until, run_until};
use paused_goroutine::Paused;
use pauses::Plan;
use reference_world::Shared;
use std::alloc::Global;
use watched_goroutine::Watched;
use word::end::End;
use word::request::Event;

/// A moment of a run.
#[derive(Drop)]
pub struct Inspected {
    /// What is shown of it.
    pub text: Vec<u8>,
    /// How many events there were.
    pub events: u64,
    /// How the run has ended, if it has.
    pub end: Option<End>,
}

/// Runs the program of a source file by the interpreter, with this clock limit (1 to 2^62), up to a moment, and shows where all
/// goroutines are then. FILE in the output is the path as it was typed.
///
/// Errors: by the numbers 1 to 10 why it is no program, with line and column; `BadLimit`; `Memory`.
pub fn inspect_bytes(
    alloc: Global,
    path: &str,
    bytes: Vec<u8>,
    limit: u64,
    until: Until,
) -> Result<Inspected, Fault>
    ensures limit { IsErrOf result Fault.BadLimit ↔ (IsLimit limit → ⊥) }
    ensures refused { IfErr result (λ fault. IsRefusal fault → HasNoReading bytes.items) }
    ensures why { IfErr result (λ fault. IsRefusal fault → IsWhy bytes.items fault) }
    ensures only { IfErr result (λ fault. IsRefusal fault ⊎ ((fault ≡ Fault.Memory) ⊎ (fault ≡ Fault.BadLimit))) }
    ensures reads { IfOk result (λ _. (file : File) × Reads bytes.items file) }
    ensures world { IfOk result (λ seen. (file : File) × Reads bytes.items file × IsAfter (source_kind file) limit until seen.events seen.end) }
    ensures wanted { IfOk result (λ seen. IsWanted until seen.events seen.end) }
{
    if limit < 1 || limit > 1 << 62 {
        return Err(Fault::BadLimit);
    }
    let (source, typed) = read(alloc, bytes)?;
    let seen = inspect(alloc, path, &source, &typed, limit, until)?;
    Ok(seen)
}

/// Like `inspect_bytes`, but each goroutine keeps to the plan.
pub fn inspect_paused_bytes(
    alloc: Global,
    path: &str,
    bytes: Vec<u8>,
    plan: &Plan,
    limit: u64,
    until: Until,
) -> Result<Inspected, Fault>
    ensures limit { IsErrOf result Fault.BadLimit ↔ (IsLimit limit → ⊥) }
    ensures refused { IfErr result (λ fault. IsRefusal fault → HasNoReading bytes.items) }
    ensures why { IfErr result (λ fault. IsRefusal fault → IsWhy bytes.items fault) }
    ensures only { IfErr result (λ fault. IsRefusal fault ⊎ ((fault ≡ Fault.Memory) ⊎ (fault ≡ Fault.BadLimit))) }
    ensures reads { IfOk result (λ _. (file : File) × Reads bytes.items file) }
    ensures world { IfOk result (λ seen. (file : File) × Reads bytes.items file × IsAfter (paused (source_kind file) (pauses_of plan.now.pauses.items)) limit until seen.events seen.end) }
    ensures wanted { IfOk result (λ seen. IsWanted until seen.events seen.end) }
{
    if limit < 1 || limit > 1 << 62 {
        return Err(Fault::BadLimit);
    }
    let (source, typed) = read(alloc, bytes)?;
    let seen = inspect_paused(alloc, path, &source, &typed, plan, limit, until)?;
    Ok(seen)
}

/// Runs a checked program up to a moment, and shows where all goroutines are then.
fn inspect(
    alloc: Global,
    path: &str,
    source: &Source,
    typed: &Typed,
    limit: u64,
    until: Until,
) -> Result<Inspected, Memory>
    requires { limit ≤ 2 ^ 62 }
    ensures world { IfOk result (λ seen. IsAfter (source_kind (tree_of (tree_in typed.now))) limit until seen.events seen.end) }
    ensures wanted { IfOk result (λ seen. IsWanted until seen.events seen.end) }
{
    let watched = Watched::new(alloc, typed)?;
    let seen = run_until(alloc, &watched, limit, until)?;
    let rows = plain_rows(alloc, seen.goroutines.as_slice())?;
    let scene = Scene {
        alloc,
        path,
        source,
        tree: typed.tree(),
        table: &watched.source.program.table,
    };
    let event = seen.event.as_ref();
    inspected_moment(scene, rows.as_slice(), &seen.shared, event, seen.end)
}

/// Like `inspect`, but each goroutine keeps to the plan.
fn inspect_paused(
    alloc: Global,
    path: &str,
    source: &Source,
    typed: &Typed,
    plan: &Plan,
    limit: u64,
    until: Until,
) -> Result<Inspected, Memory>
    requires { limit ≤ 2 ^ 62 }
    ensures world { IfOk result (λ seen. IsAfter (paused (source_kind (tree_of (tree_in typed.now))) (pauses_of plan.now.pauses.items)) limit until seen.events seen.end) }
    ensures wanted { IfOk result (λ seen. IsWanted until seen.events seen.end) }
{
    let program = Watched::new(alloc, typed)?;
    let paused = Paused { program, plan };
    let seen = run_until(alloc, &paused, limit, until)?;
    let rows = paused_rows(alloc, seen.goroutines.as_slice())?;
    let scene = Scene {
        alloc,
        path,
        source,
        tree: typed.tree(),
        table: &paused.program.source.program.table,
    };
    let event = seen.event.as_ref();
    inspected_moment(scene, rows.as_slice(), &seen.shared, event, seen.end)
}

/// A moment of a run, with what is shown of it.
fn inspected_moment(
    scene: Scene<'_, '_>,
    rows: &[Row<'_, '_>],
    shared: &Shared,
    event: Option<&Event>,
    end: Option<End>,
) -> Result<Inspected, Memory>
    ensures events { IfOk result (λ seen. seen.events ≡ shared.now.events) }
    ensures end { IfOk result (λ seen. seen.end ≡ end) }
{
    let text = shown_moment(scene, rows, shared, event, end)?;
    Ok(Inspected {
        text,
        events: shared.events(),
        end,
    })
}
