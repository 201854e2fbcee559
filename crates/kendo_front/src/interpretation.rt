//! From bytes to bytes, by the interpreter of sources.

ghost use Rattle.std.specs.Prelude.{◌≡◌, ◌⊎◌, ◌↔◌, IfErr, IfOk, IsErrOf, true};
ghost use Rattle.meaning.specs.Source.{source_kind};
ghost use Rattle.kendo_reading.specs.Reading.{HasNoReading, IsRefusal, IsWhy, Reads};
ghost use Rattle.whole_run.specs.Runs.{BeginsOutput, IsLimit, IsWhole};
ghost use Rattle.syntax.specs.Tree.{File};

use go_text::Fault;
use kendo_reading::read;
use reference::run_source;
use std::alloc::Global;
use word::Write;
use word::end::End;

/// Runs a source file as it is, up to the clock limit (1 to 2^62 steps), and returns how it ended. Nothing
/// is compiled: a plain interpreter walks the tree. What is written begins the output of the one-thread run of the source; at
/// an end it is all of it. A text without a reading is refused before anything is written.
pub fn reference_bytes<O: Write>(
    alloc: Global,
    bytes: Vec<u8>,
    limit: u64,
    out: &mut O,
) -> Result<End, Fault>
    ensures limit { IsErrOf result Fault.BadLimit ↔ (IsLimit limit → ⊥) }
    ensures refused { IfErr result (λ fault. IsRefusal fault → HasNoReading bytes.items) }
    ensures why { IfErr result (λ fault. IsRefusal fault → IsWhy bytes.items fault) }
    ensures only { IfErr result (λ fault. IsRefusal fault ⊎ ((fault ≡ Fault.Memory) ⊎ ((fault ≡ Fault.Write) ⊎ (fault ≡ Fault.BadLimit)))) }
    ensures begins { (O.contents out.new ≡ O.contents out.old) ⊎ ((file : File) × Reads bytes.items file × BeginsOutput (source_kind file) limit (O.contents out.old) (O.contents out.new)) }
    ensures nothing { IfErr result (λ fault. (fault ≡ Fault.Memory → ⊥) → (fault ≡ Fault.Write → ⊥) → O.contents out.new ≡ O.contents out.old) }
    ensures whole { IfOk result (λ end. (file : File) × Reads bytes.items file × IsWhole (source_kind file) limit (O.contents out.old) (O.contents out.new) end) }
    ensures write { IsErrOf result Fault.Write → O.has_failed out.new ≡ true }
    ensures reading { IsErrOf result Fault.Write → (file : File) × Reads bytes.items file }
{
    if limit < 1 || limit > 1 << 62 {
        return Err(Fault::BadLimit);
    }
    let (_source, typed) = read(alloc, bytes)?;
    let end = run_source(alloc, &typed, limit, out)?;
    Ok(end)
}
