//! Bodies of functions.

ghost use Rattle.std.specs.Prelude.{[], IfOk, OnOk};
ghost use Rattle.syntax.specs.View.{body_of};
ghost use Rattle.codegen_base.specs.Generated.{made_body, made_of, result_kinds};
ghost use Rattle.codegen_base.specs.Pushes.{pushes_zeros};
ghost use Rattle.plan.specs.Plan.{Stop};
ghost use Rattle.codegen_expression.specs.Emission.{Puts};
ghost use Rattle.codegen_flow.specs.Controls.{control};
ghost use Rattle.codegen_emission.specs.Emitted.{Emits, Finishes, site_of};
ghost use Rattle.codegen_header.specs.Layouts.{layout_of};
ghost use Rattle.codegen_emission.specs.Contexts.{of_function, of_program, result_of, table_of};

use crate::context::FunctionContext;
use crate::emitter::Emitter;
use crate::statement::emit_statements;
use bytecode::Instr;
use codegen_expression::operand::push_zeros;
use codegen_flow::flow::{Flow, join};
use codegen_flow::waits::fill;
use std::alloc::AllocError;
use syntax::StatementNode;

/// Pushes the zero value of a function's result, if it has one.
#[tactic(auto, using(codegen_expression::proofs::Operating::puts_zeros))]
fn push_zero_result(
    context: &FunctionContext<'_, '_>,
    code: &mut Vec<Instr>,
) -> Result<(), AllocError>
    ensures { OnOk result (Puts code.old.items code.new.items (pushes_zeros (of_program context.now result_kinds (result_of context.now)))) }
{
    if let Some(kind) = context.result_type {
        push_zeros(context.program, kind, code)?;
    }
    Ok(())
}

/// The end of a body: it returns zeros.
fn emit_end<'a>(
    context: &FunctionContext<'_, 'a>,
    emitter: &mut Emitter<'a>,
) -> Result<Flow, AllocError>
    ensures { IfOk result (λ flow. Emits (table_of context.now) emitter.old emitter.new (control flow) (made_of (pushes_zeros (of_program context.now result_kinds (result_of context.now)) Stop) [] (layout_of (table_of context.now) emitter.old.layout))) }
{
    push_zero_result(context, &mut emitter.code)?;
    emitter.code.push(Instr::Return)?;
    Ok(Flow::never(context.program.alloc))
}

/// The statements of a body, and its end if that is reached.
#[tactic(auto, using(crate::proofs::Ending::emits_unfinished))]
fn emit_all<'a>(
    context: &FunctionContext<'_, 'a>,
    emitter: &mut Emitter<'a>,
    body: &'a [StatementNode],
) -> Result<Flow, AllocError>
    ensures { IfOk result (λ flow. Emits (table_of context.now) emitter.old emitter.new (control flow) (of_function context.now made_body (site_of (table_of context.now) emitter.old) (body_of body.now))) }
{
    let mut flow = emit_statements(context, emitter, body)?;
    if !flow.reaches_end {
        return Ok(flow);
    }
    let end = emit_end(context, emitter)?;
    join(&mut flow, end)?;
    Ok(flow)
}

/// Emits the body of a function. At its end it returns zeros.
///
/// Errors: out of memory.
pub fn emit_body<'a>(
    context: &FunctionContext<'_, 'a>,
    emitter: &mut Emitter<'a>,
    body: &'a [StatementNode],
) -> Result<(), AllocError>
    ensures { OnOk result (Finishes (table_of context.now) emitter.old emitter.new (of_function context.now made_body (site_of (table_of context.now) emitter.old) (body_of body.now))) }
{
    let flow = emit_all(context, emitter, body)?;
    fill(flow.waits.as_slice(), 0, 0, &mut emitter.code);
    Ok(())
}
