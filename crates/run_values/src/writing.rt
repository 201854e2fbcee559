//! From bytes and a plan to the values of the run.

ghost use Rattle.std.specs.Prelude.{◌≡◌, ◌⊎◌, ◌↔◌, ◌≤◌, ◌^◌, IfErr, IfOk, IsErrOf, OnOk, true};
ghost use Rattle.std.specs.Io.KnownBytes.{Appends};
ghost use Rattle.checker.specs.Trees.{tree_in};
ghost use Rattle.kendo_reading.specs.Reading.{HasNoReading, IsRefusal, IsWhy, Reads};
ghost use Rattle.meaning.specs.Source.{source_kind};
ghost use Rattle.pauses.specs.Paused.{paused};
ghost use Rattle.pauses.specs.Plans.{pauses_of};
ghost use Rattle.run_values.specs.Values.{HasLines};
ghost use Rattle.syntax.specs.Spans.{tree_of};
ghost use Rattle.syntax.specs.Tree.{File};
ghost use Rattle.whole_run.specs.Runs.{IsLimit};
ghost use Rattle.word.specs.Related.{kind_of};

use crate::forms::Forms;
use crate::line::line_of;
use checker::Typed;
use go_text::{Fault, Memory};
use kendo_reading::read;
use one_thread::{Interpreter, OpenRun, next_event, open_run};
use paused_goroutine::{Paused, PausedState};
use pauses::Plan;
use std::alloc::Global;
use syntax::NodeId;
use watched_goroutine::{Placed, Watched};
use word::{Write, write_all};

/// Interprets the program that a source file is, up to the clock limit (1 to 2^62 steps); each goroutine keeps to the plan. It writes
/// a line for each event, in their order: the item that the event sends or receives, as Go writes it, what it prints, as a string
/// literal of Go, or `-`. What the program prints is not written otherwise.
///
/// Errors: by the numbers 1 to 10 why the source file is no program, with line and column; `Memory`; `Write`; `BadLimit`.
pub fn write_values<W: Write>(
    alloc: Global,
    bytes: Vec<u8>,
    plan: &Plan,
    limit: u64,
    values: &mut W,
) -> Result<(), Fault>
    ensures limit { IsErrOf result Fault.BadLimit ↔ (IsLimit limit → ⊥) }
    ensures refused { IfErr result (λ fault. IsRefusal fault → HasNoReading bytes.items) }
    ensures why { IfErr result (λ fault. IsRefusal fault → IsWhy bytes.items fault) }
    ensures only { IfErr result (λ fault. IsRefusal fault ⊎ ((fault ≡ Fault.Memory) ⊎ ((fault ≡ Fault.Write) ⊎ (fault ≡ Fault.BadLimit)))) }
    ensures nothing { IfErr result (λ fault. (fault ≡ Fault.Memory → ⊥) → (fault ≡ Fault.Write → ⊥) → W.contents values.new ≡ W.contents values.old) }
    ensures reading { IsErrOf result Fault.Write → (file : File) × Reads bytes.items file }
    ensures write { IsErrOf result Fault.Write → W.has_failed values.new ≡ true }
    ensures lines { IfOk result (λ _. (file : File) × Reads bytes.items file × HasLines (paused (source_kind file) (pauses_of plan.now.pauses.items)) limit (W.contents values.old) (W.contents values.new)) }
{
    if limit < 1 || limit > 1 << 62 {
        return Err(Fault::BadLimit);
    }
    let (_source, typed) = read(alloc, bytes)?;
    write_all_values(alloc, &typed, plan, limit, values)?;
    Ok(())
}

/// Writes the values of the run of a checked program.
fn write_all_values<W: Write>(
    alloc: Global,
    typed: &Typed,
    plan: &Plan,
    limit: u64,
    values: &mut W,
) -> Result<(), Fault>
    requires { limit ≤ 2 ^ 62 }
    ensures only { IfErr result (λ fault. (fault ≡ Fault.Memory) ⊎ (fault ≡ Fault.Write)) }
    ensures write { IsErrOf result Fault.Write → W.has_failed values.new ≡ true }
    ensures lines { IfOk result (λ _. HasLines (paused (source_kind (tree_of (tree_in typed.now))) (pauses_of plan.now.pauses.items)) limit (W.contents values.old) (W.contents values.new)) }
{
    let program = Watched::new(alloc, typed)?;
    let paused = Paused { program, plan };
    let forms = Forms::new(alloc, typed.tree().file());
    write_run(alloc, &paused, &paused.program, limit, forms, values)
}

/// Writes the values of the run of a program, in which no channel was made yet.
fn write_run<'t, P: Interpreter, W: Write>(
    alloc: Global,
    program: &P,
    watched: &Watched<'t>,
    limit: u64,
    mut forms: Forms<'_>,
    values: &mut W,
) -> Result<(), Fault>
where
    P::State: Seen<'t>,
    requires { limit ≤ 2 ^ 62 }
    ensures only { IfErr result (λ fault. (fault ≡ Fault.Memory) ⊎ (fault ≡ Fault.Write)) }
    ensures write { IsErrOf result Fault.Write → W.has_failed values.new ≡ true }
    ensures lines { IfOk result (λ _. HasLines (kind_of (P.parts program.now)) limit (W.contents values.old) (W.contents values.new)) }
{
    let mut run = open_run(alloc, program, limit)?;
    // Each event leaves fewer of the 2^62 that a run can have.
    'events: loop {
        let Some(event) = next_event(alloc, program, &mut run)? else {
            return Ok(());
        };
        let node = node_of(alloc, watched, &run, event.number)?;
        forms.take(&event, node)?;
        let line = line_of(alloc, &forms, &event)?;
        put(values, line.as_slice())?;
    }
}

/// A goroutine that is known to be at a statement.
pub(crate) trait Seen<'t> {
    /// The goroutine with its statements.
    fn placed(&self) -> &Placed<'t>;
}

impl<'t> Seen<'t> for PausedState<Placed<'t>> {
    fn placed(&self) -> &Placed<'t> {
        &self.state
    }
}

/// The node of the operation that made a goroutine's last request, which has just been done; 0 if the goroutine has ended.
///
/// Errors: out of memory.
fn node_of<'t, S: Seen<'t> + Drop>(
    alloc: Global,
    watched: &Watched<'t>,
    run: &OpenRun<S>,
    number: u64,
) -> Result<NodeId, Memory> {
    match run.goroutine(number) {
        Some(goroutine) => watched.asking_node(alloc, goroutine.state.placed()),
        None => Ok(0),
    }
}

/// Writes these bytes.
fn put<W: Write>(writer: &mut W, bytes: &[u8]) -> Result<(), Fault>
    ensures ok { OnOk result (Appends (W.contents writer.old) (W.contents writer.new) bytes.now) }
    ensures only { IfErr result (λ fault. fault ≡ Fault.Write) }
    ensures write { IsErrOf result Fault.Write → W.has_failed writer.new ≡ true }
{
    match write_all(writer, bytes) {
        Ok(()) => Ok(()),
        Err(_) => Err(Fault::Write),
    }
}
