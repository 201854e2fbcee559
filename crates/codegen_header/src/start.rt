//! Starts of goroutines ("Go statements" of the Go specification).

ghost use Rattle.std.specs.Prelude.{OnOk, map};
ghost use Rattle.bytecode.specs.declared.instr.Instr.TheVariants as instrs;
ghost use Rattle.syntax.specs.View.{expression_of, name_of};
ghost use Rattle.meaning.specs.Expressions.{number_of};
ghost use Rattle.codegen_base.specs.Statements.{pushes_arguments};
ghost use Rattle.plan.specs.Plan.{Do, Skip};
ghost use Rattle.codegen_simple.specs.Simples.{Appends};
ghost use Rattle.codegen_expression.specs.Contexts.{elements_of, globals_of, scope_in};

use bytecode::Instr;
use codegen_expression::channel::push_arguments;
use codegen_expression::context::Context;
use codegen_expression::operand::put;
use std::alloc::AllocError;
use syntax::{ArgumentsNode, Name};
use type_table::scope::Visible;

/// Another goroutine starts with a call of the function of this name.
///
/// Errors: out of memory.
#[tactic(auto, using(crate::proofs::Starting::appends_go))]
pub fn emit_go<'k>(
    context: &Context<'_, 'k>,
    visible: &Visible<'k>,
    name: &Name,
    arguments: &'k ArgumentsNode,
    code: &mut Vec<Instr>,
) -> Result<(), AllocError>
    ensures { OnOk result (Appends code.old.items code.new.items (pushes_arguments (globals_of context.now) (elements_of context.now) (scope_in context.now visible.now) (number_of (globals_of context.now) (name_of name.now)) (map expression_of arguments.now.values.items) (Do (instrs.Go (number_of (globals_of context.now) (name_of name.now))) Skip))) }
{
    let function = push_arguments(context, visible, name, arguments, code)?;
    put(code, Instr::Go(function))
}
