//! Values that are pushed as values of a type ("Assignability" of the Go specification).

ghost use Rattle.std.specs.Prelude.{◌≡◌, IfOk, OnOk};
ghost use Rattle.syntax.specs.View.{expression_of};
ghost use Rattle.type_table.specs.Views.{kind_of};
ghost use Rattle.codegen_base.specs.Layouts.{type_of};
ghost use Rattle.codegen_base.specs.Pushes.{pushes_own};
ghost use Rattle.codegen_expression.specs.Emission.{Puts};
ghost use Rattle.codegen_expression.specs.Contexts.{elements_of, globals_of, scope_in, types_in};

use crate::context::Context;
use crate::emission::emit;
use crate::operand::{kind_in, settle};
use bytecode::Instr;
use std::alloc::AllocError;
use syntax::ExpressionNode;
use type_table::scope::Visible;
use type_table::value_type::ValueType;

/// Pushes a value that has a type of its own, and returns the type.
///
/// Errors: out of memory.
pub fn push_own<'t>(
    context: &Context<'_, 't>,
    visible: &Visible<'t>,
    expression: &'t ExpressionNode,
    code: &mut Vec<Instr>,
) -> Result<ValueType<'t>, AllocError>
    ensures kind { IfOk result (λ kind. type_of (globals_of context.now) (elements_of context.now) (scope_in context.now visible.now) (expression_of expression.now) ≡ kind_of (types_in context.now) kind) }
    ensures pushed { OnOk result (Puts code.old.items code.new.items (pushes_own (globals_of context.now) (elements_of context.now) (scope_in context.now visible.now) (expression_of expression.now))) }
{
    let first = code.len();
    let operand = emit(context, visible, expression, code)?;
    let kind = kind_in(operand);
    settle(context, operand, kind, first, code)?;
    Ok(kind)
}
