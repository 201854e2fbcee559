//! Statements that hold no other one.

ghost use Rattle.std.specs.Prelude.{IfOk, OnOk, map, option_map};
ghost use Rattle.syntax.specs.Tree.{Go, Return, VarTyped, VarUntyped};
ghost use Rattle.syntax.specs.View.{arguments_of, expression_of, name_of, returned_of, right_of, statement_of, type_of};
ghost use Rattle.type_table.specs.Scopes.{Yield};
ghost use Rattle.codegen_base.specs.Generated.{made};
ghost use Rattle.codegen_flow.specs.Controls.{control, through};
ghost use Rattle.codegen_emission.specs.Emitted.{Emits, IsSingle, Jumps, site_of};
ghost use Rattle.codegen_emission.specs.Contexts.{of_function, of_program, table_of};

use crate::alone::emit_alone;
use crate::context::FunctionContext;
use crate::emitter::Emitter;
use bytecode::Instr;
use codegen_flow::flow::Flow;
use codegen_header::returned::emit_return;
use codegen_header::start::emit_go;
use codegen_header::variables::{emit_typed, emit_untyped};
use std::alloc::{AllocError, Global};
use syntax::{ArgumentsNode, ExpressionNode, Name, ReturnNode, StatementNode, TypeNode};

/// Variables of a type are declared.
///
/// Errors: out of memory.
fn declare_typed<'a>(
    context: &FunctionContext<'_, 'a>,
    emitter: &mut Emitter<'a>,
    names: &'a [Name],
    kind: &'a TypeNode,
    right: &'a Option<Vec<ExpressionNode>>,
) -> Result<(), AllocError>
    ensures { (yields : Yield) → OnOk result (Emits (table_of context.now) emitter.old emitter.new through (of_program context.now made yields (site_of (table_of context.now) emitter.old) (VarTyped (map name_of names.now) (type_of kind.now) (option_map right_of right.now)))) }
{
    let layout = &mut emitter.layout;
    let code = &mut emitter.code;
    emit_typed(context.program, layout, names, kind, right, code)?;
    Ok(())
}

/// Variables are declared, with the types of what they are given.
///
/// Errors: out of memory.
fn declare_untyped<'a>(
    context: &FunctionContext<'_, 'a>,
    emitter: &mut Emitter<'a>,
    names: &'a [Name],
    right: &'a [ExpressionNode],
) -> Result<(), AllocError>
    ensures { (yields : Yield) → OnOk result (Emits (table_of context.now) emitter.old emitter.new through (of_program context.now made yields (site_of (table_of context.now) emitter.old) (VarUntyped (map name_of names.now) (map expression_of right.now)))) }
{
    let layout = &mut emitter.layout;
    let code = &mut emitter.code;
    emit_untyped(context.program, layout, names, right, code)?;
    Ok(())
}

/// Another goroutine starts.
///
/// Errors: out of memory.
fn start<'a>(
    context: &FunctionContext<'_, 'a>,
    emitter: &mut Emitter<'a>,
    name: &'a Name,
    arguments: &'a ArgumentsNode,
) -> Result<(), AllocError>
    ensures { (yields : Yield) → OnOk result (Emits (table_of context.now) emitter.old emitter.new through (of_program context.now made yields (site_of (table_of context.now) emitter.old) (Go (name_of name.now) (arguments_of arguments.now)))) }
{
    let visible = &emitter.layout.visible;
    let code = &mut emitter.code;
    emit_go(context.program, visible, name, arguments, code)
}

/// The function returns.
///
/// Errors: out of memory.
fn give_back<'a>(
    context: &FunctionContext<'_, 'a>,
    emitter: &mut Emitter<'a>,
    returned: &'a ReturnNode,
) -> Result<Flow, AllocError>
    ensures { IfOk result (λ flow. Emits (table_of context.now) emitter.old emitter.new (control flow) (of_function context.now made (site_of (table_of context.now) emitter.old) (Return (returned_of returned.now)))) }
{
    let layout = &emitter.layout;
    let code = &mut emitter.code;
    emit_return(context.program, layout, context.result_type, returned, code)?;
    Ok(Flow::never(context.program.alloc))
}

/// A break, or a continue.
///
/// Errors: out of memory.
fn emit_jump(alloc: Global, leaves: bool, emitter: &mut Emitter<'_>) -> Result<Flow, AllocError>
    ensures { IfOk result (λ flow. Jumps leaves emitter.old emitter.new (control flow)) }
{
    let flow = Flow::from_jump(alloc, leaves, emitter.code.len())?;
    emitter.code.push(Instr::Jump(0))?;
    Ok(flow)
}

/// A statement that holds no other one.
///
/// Errors: out of memory.
#[tactic(auto, using(crate::proofs::Emitting::emits_nothing))]
pub fn emit_single<'a>(
    context: &FunctionContext<'_, 'a>,
    emitter: &mut Emitter<'a>,
    statement: &'a StatementNode,
) -> Result<Flow, AllocError>
    requires { IsSingle (statement_of statement.now) }
    ensures { IfOk result (λ flow. Emits (table_of context.now) emitter.old emitter.new (control flow) (of_function context.now made (site_of (table_of context.now) emitter.old) (statement_of statement.now))) }
{
    match statement {
        StatementNode::Empty => Ok(Flow::through(context.program.alloc)),
        StatementNode::Simple(simple) => {
            emit_alone(context, emitter, simple)?;
            Ok(Flow::through(context.program.alloc))
        }
        StatementNode::Break => emit_jump(context.program.alloc, true, emitter),
        StatementNode::Continue => emit_jump(context.program.alloc, false, emitter),
        StatementNode::Typed(names, kind, right) => {
            let names = names.as_slice();
            declare_typed(context, emitter, names, kind, right)?;
            Ok(Flow::through(context.program.alloc))
        }
        StatementNode::Untyped(names, right) => {
            let names = names.as_slice();
            declare_untyped(context, emitter, names, right.as_slice())?;
            Ok(Flow::through(context.program.alloc))
        }
        StatementNode::Go(name, arguments) => {
            start(context, emitter, name, arguments)?;
            Ok(Flow::through(context.program.alloc))
        }
        StatementNode::Return(returned) => give_back(context, emitter, returned),
        _ => unreachable!(),
    }
}
