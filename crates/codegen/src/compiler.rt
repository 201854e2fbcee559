//! The compiler's contract.

ghost use Rattle.std.specs.Prelude.{◌≡◌, IfErr, IfOk};
ghost use Rattle.bytecode.specs.Machine.{code_kind};
ghost use Rattle.bytecode.specs.Rules.{IsVerified};
ghost use Rattle.checker.specs.Trees.{tree_in};
ghost use Rattle.codegen.specs.Codes.{AreNamed};
ghost use Rattle.meaning.specs.Source.{source_kind};
ghost use Rattle.syntax.specs.Spans.{tree_of};
ghost use Rattle.word.specs.Worlds.{Equal};

use crate::program::code_of;
use bytecode::Code;
use checker::Typed;
use codegen_emission::marks::Marks;
use go_text::Fault;
use std::alloc::Global;

/// The code of a checked program, which does what the source does and keeps all rules of the verifier. Its functions are the source's, in
/// order.
///
/// Errors: only `Memory`.
pub fn compile(alloc: Global, typed: &Typed) -> Result<Code, Fault>
    ensures equal { IfOk result (λ code. Equal (source_kind (tree_of (tree_in typed.now))) (code_kind code)) }
    ensures verified { IfOk result IsVerified }
    ensures named { IfOk result (λ code. AreNamed (tree_of (tree_in typed.now)) code) }
    ensures memory { IfErr result (λ fault. fault ≡ Fault.Memory) }
{
    let (code, _) = compile_marked(alloc, typed)?;
    Ok(code)
}

/// The code of a checked program, as `compile` makes it, and the marks of its statements.
///
/// Errors: only `Memory`.
pub fn compile_marked(alloc: Global, typed: &Typed) -> Result<(Code, Marks), Fault>
    ensures equal { IfOk result (λ made. Equal (source_kind (tree_of (tree_in typed.now))) (code_kind made.0)) }
    ensures verified { IfOk result (λ made. IsVerified made.0) }
    ensures named { IfOk result (λ made. AreNamed (tree_of (tree_in typed.now)) made.0) }
    ensures memory { IfErr result (λ fault. fault ≡ Fault.Memory) }
{
    match code_of(alloc, typed) {
        Ok(made) => Ok(made),
        Err(_) => Err(Fault::Memory),
    }
}
