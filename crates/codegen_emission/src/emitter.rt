//! What is emitted into.

ghost use Rattle.std.specs.Prelude.{◌≡◌, ◌≤◌, ◌^◌, ◌++◌, ◌∷◌, [], IfErr, IfOk, OnOk, length};
ghost use Rattle.bytecode.specs.declared.instr.Instr.TheVariants as instrs;

use crate::marks::Marks;
use bytecode::{Instr, PrintTable, SelectTable};
use codegen_expression::operand::{number, put};
use codegen_header::layout::Layout;
use std::alloc::AllocError;

/// What is emitted of a function, the tables and marks of those before it, and where its variables lie.
#[derive(Drop)]
pub struct Emitter<'a> {
    pub code: Vec<Instr>,
    pub prints: Vec<PrintTable>,
    pub selects: Vec<SelectTable>,
    pub layout: Layout<'a>,
    pub marks: Marks,
}

impl Emitter<'_> {
    /// The pc of the next instruction.
    ///
    /// Errors: it would pass 2^32.
    pub(crate) fn next_place(&self) -> Result<u32, AllocError>
        ensures place { IfOk result (λ place. place ≡ length self.now.code.items) }
        ensures far { IfErr result (λ _. 2 ^ 32 ≤ length self.now.code.items) }
    {
        number(self.code.len())
    }
}

/// Emits a test whose target is known later, and returns its index.
///
/// Errors: out of memory.
pub(crate) fn hold_test(code: &mut Vec<Instr>) -> Result<usize, AllocError>
    ensures place { IfOk result (λ test. test ≡ length code.old.items) }
    ensures held { OnOk result (code.new.items ≡ code.old.items ++ instrs.Unless 0 ∷ []) }
{
    let test = code.len();
    put(code, Instr::Unless(0))?;
    Ok(test)
}
