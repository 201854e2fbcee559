//! The check of a source file.

ghost use Rattle.std.specs.Prelude.{IfErr, IfOk};
ghost use Rattle.kendo_reading.specs.Reading.{HasNoReading, IsOfText, IsRefusal, IsWhy, Reads};
ghost use Rattle.syntax.specs.Tree.{File};

use crate::reading::read;
use go_text::Fault;
use std::alloc::Global;

/// Checks whether a source is a program of the whole language. Nothing runs.
///
/// Errors: by the numbers 1 to 10 why it is none, with line and column; `Memory`.
pub fn check_bytes(alloc: Global, bytes: Vec<u8>) -> Result<(), Fault>
    ensures reads { IfOk result (λ _. (file : File) × Reads bytes.items file) }
    ensures refused { IfErr result (λ fault. IsRefusal fault → HasNoReading bytes.items) }
    ensures why { IfErr result (λ fault. IsRefusal fault → IsWhy bytes.items fault) }
    ensures only { IfErr result IsOfText }
{
    let _read = read(alloc, bytes)?;
    Ok(())
}
