//! The listing of a source file's code.

ghost use Rattle.std.specs.Prelude.{◌≡◌, ◌⊎◌, IfErr, IfOk, IsErrOf, true};
ghost use Rattle.kendo_code.specs.Listed.{BeginsListing, IsListing};
ghost use Rattle.kendo_reading.specs.Reading.{HasNoReading, IsRefusal, IsWhy, Reads};
ghost use Rattle.syntax.specs.Tree.{File};

use bytecode::listing;
use codegen::compile;
use go_text::Fault;
use kendo_reading::read;
use std::alloc::Global;
use word::{Write, write_all};

/// Writes the listing of the code that a source file is compiled to. A file that is no valid program is refused before
/// anything is written.
///
/// Errors: by the numbers 1 to 10 why it is no program, with line and column; `Memory`; `Write`.
pub fn list_bytes<O: Write>(alloc: Global, bytes: Vec<u8>, out: &mut O) -> Result<(), Fault>
    ensures refused { IfErr result (λ fault. IsRefusal fault → HasNoReading bytes.items) }
    ensures why { IfErr result (λ fault. IsRefusal fault → IsWhy bytes.items fault) }
    ensures only { IfErr result (λ fault. IsRefusal fault ⊎ ((fault ≡ Fault.Memory) ⊎ (fault ≡ Fault.Write))) }
    ensures nothing { IfErr result (λ fault. (fault ≡ Fault.Write → ⊥) → O.contents out.new ≡ O.contents out.old) }
    ensures whole { IfOk result (λ _. (file : File) × Reads bytes.items file × IsListing file (O.contents out.old) (O.contents out.new)) }
    ensures begins { IsErrOf result Fault.Write → (file : File) × Reads bytes.items file × BeginsListing file (O.contents out.old) (O.contents out.new) }
    ensures write { IsErrOf result Fault.Write → O.has_failed out.new ≡ true }
{
    let (_source, typed) = read(alloc, bytes)?;
    let code = compile(alloc, &typed)?;
    let text = listing(alloc, &code)?;
    match write_all(out, text.as_slice()) {
        Ok(()) => Ok(()),
        Err(_) => Err(Fault::Write),
    }
}
