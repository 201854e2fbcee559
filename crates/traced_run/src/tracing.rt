//! The run, and its trace.

ghost use Rattle.std.specs.Prelude.{◌≡◌, ◌⊎◌, ◌↔◌, ℕ, ◌^◌, ◌≤◌, IfErr, IfOk, IsErr, IsErrOf, OnOk, take, true};
ghost use Rattle.std.specs.Io.KnownBytes.{Appends};
ghost use Rattle.one_thread.specs.Histories.{HasHad, IsReady, printed_by};
ghost use Rattle.tracer.specs.Trace.{BeginsTrace, IsWholeTrace, traceline};
ghost use Rattle.whole_run.specs.Runs.{BeginsOutput, IsLimit, IsWhole};
ghost use Rattle.word.specs.Related.{kind_of};
ghost use Rattle.word.specs.Views.{event_of};

use go_text::Fault;
use one_thread::{Interpreter, next_event, open_run};
use std::alloc::Global;
use tracer::line;
use word::end::End;
use word::request::{Event, Request};
use word::{Write, write_all};

/// Like `one_thread::run`, but also writes the trace: a line for each event, after what the event prints. What is written to `trace`
/// begins the trace of the one-thread run; at an end it is all of it.
///
/// Errors: `BadLimit`; `Write`, if one of the two writers failed; `Memory`.
pub fn run_traced<P: Interpreter, O: Write, T: Write>(
    alloc: Global,
    program: &P,
    limit: u64,
    output: &mut O,
    trace: &mut T,
) -> Result<End, Fault>
    ensures limit { IsErrOf result Fault.BadLimit ↔ (IsLimit limit → ⊥) }
    ensures nothing { IsErrOf result Fault.BadLimit → (O.contents output.new ≡ O.contents output.old) × (T.contents trace.new ≡ T.contents trace.old) }
    ensures begins { BeginsOutput (kind_of (P.parts program.now)) limit (O.contents output.old) (O.contents output.new) }
    ensures traces { BeginsTrace (kind_of (P.parts program.now)) limit (T.contents trace.old) (T.contents trace.new) }
    ensures whole { IfOk result (λ end. IsWhole (kind_of (P.parts program.now)) limit (O.contents output.old) (O.contents output.new) end) }
    ensures traced { IfOk result (λ end. IsWholeTrace (kind_of (P.parts program.now)) limit (T.contents trace.old) (T.contents trace.new) end) }
    ensures write { IsErrOf result Fault.Write → (O.has_failed output.new ≡ true) ⊎ (T.has_failed trace.new ≡ true) }
    ensures only { IfErr result (λ fault. (fault ≡ Fault.Memory) ⊎ ((fault ≡ Fault.Write) ⊎ (fault ≡ Fault.BadLimit))) }
{
    if limit < 1 || limit > 1 << 62 {
        return Err(Fault::BadLimit);
    }
    let end = run_below(alloc, program, limit, output, trace)?;
    Ok(end)
}

/// The run at a limit that is none too high. It has at most 2^62 events.
fn run_below<P: Interpreter, O: Write, T: Write>(
    alloc: Global,
    program: &P,
    limit: u64,
    output: &mut O,
    trace: &mut T,
) -> Result<End, Fault>
    requires { limit ≤ 2 ^ 62 }
    ensures begins { BeginsOutput (kind_of (P.parts program.now)) limit (O.contents output.old) (O.contents output.new) }
    ensures traces { BeginsTrace (kind_of (P.parts program.now)) limit (T.contents trace.old) (T.contents trace.new) }
    ensures whole { IfOk result (λ end. IsWhole (kind_of (P.parts program.now)) limit (O.contents output.old) (O.contents output.new) end) }
    ensures traced { IfOk result (λ end. IsWholeTrace (kind_of (P.parts program.now)) limit (T.contents trace.old) (T.contents trace.new) end) }
    ensures write { IsErrOf result Fault.Write → (O.has_failed output.new ≡ true) ⊎ (T.has_failed trace.new ≡ true) }
    ensures only { IfErr result (λ fault. (fault ≡ Fault.Memory) ⊎ (fault ≡ Fault.Write)) }
{
    let mut run = open_run(alloc, program, limit)?;
    // Each event leaves fewer of the 2^62 that a run can have.
    'events: loop {
        let Some(event) = next_event(alloc, program, &mut run)? else {
            return Ok(run.ending());
        };
        write_event(alloc, &event, output, trace)?;
    }
}

/// Writes what an event prints, and its line.
fn write_event<O: Write, T: Write>(
    alloc: Global,
    event: &Event,
    output: &mut O,
    trace: &mut T,
) -> Result<(), Fault>
    ensures printed { OnOk result (Appends (O.contents output.old) (O.contents output.new) (printed_by (event_of event.now).request)) }
    ensures traced { OnOk result (Appends (T.contents trace.old) (T.contents trace.new) (traceline (event_of event.now))) }
    ensures prints { IsErr result → (k : ℕ) × Appends (O.contents output.old) (O.contents output.new) (take k (printed_by (event_of event.now).request)) }
    ensures traces { IsErr result → (k : ℕ) × Appends (T.contents trace.old) (T.contents trace.new) (take k (traceline (event_of event.now))) }
    ensures write { IsErrOf result Fault.Write → (O.has_failed output.new ≡ true) ⊎ (T.has_failed trace.new ≡ true) }
    ensures only { IfErr result (λ fault. (fault ≡ Fault.Memory) ⊎ (fault ≡ Fault.Write)) }
{
    let line = line(alloc, event)?;
    print(event, output)?;
    put(trace, line.as_slice())
}

/// Writes what an event prints.
fn print<W: Write>(event: &Event, output: &mut W) -> Result<(), Fault>
    ensures ok { OnOk result (Appends (W.contents output.old) (W.contents output.new) (printed_by (event_of event.now).request)) }
    ensures err { IsErr result → (k : ℕ) × Appends (W.contents output.old) (W.contents output.new) (take k (printed_by (event_of event.now).request)) }
    ensures write { IsErr result → W.has_failed output.new ≡ true }
    ensures only { IfErr result (λ fault. fault ≡ Fault.Write) }
{
    let Request::Print(bytes) = &event.request else {
        return Ok(());
    };
    put(output, bytes.as_slice())
}

/// Writes these bytes.
fn put<W: Write>(writer: &mut W, bytes: &[u8]) -> Result<(), Fault>
    ensures ok { OnOk result (Appends (W.contents writer.old) (W.contents writer.new) bytes.now) }
    ensures err { IsErr result → (k : ℕ) × Appends (W.contents writer.old) (W.contents writer.new) (take k bytes.now) }
    ensures write { IsErr result → W.has_failed writer.new ≡ true }
    ensures only { IfErr result (λ fault. fault ≡ Fault.Write) }
{
    match write_all(writer, bytes) {
        Ok(()) => Ok(()),
        Err(_) => Err(Fault::Write),
    }
}
