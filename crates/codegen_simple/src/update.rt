//! Assignments with an operator ("Assignment statements", "IncDec statements" of the Go specification).

ghost use Rattle.std.specs.Prelude.{List, OnOk};
ghost use Rattle.syntax.specs.View.{expression_of, place_of};
ghost use Rattle.typing_rules.specs.Worths.{worth};
ghost use Rattle.type_table.specs.Scopes.{Globals, Scope};
ghost use Rattle.codegen_base.specs.declared.element.Element.{Element};
ghost use Rattle.codegen_base.specs.Layouts.{type_of};
ghost use Rattle.codegen_base.specs.Pushes.{emits};
ghost use Rattle.codegen_base.specs.Statements.{loads_spot, steps, updates};
ghost use Rattle.codegen_expression.specs.Emission.{Puts};
ghost use Rattle.codegen_expression.specs.Contexts.{elements_of, globals_of, scope_in};
ghost use Rattle.codegen_simple.specs.Simples.{Appends};
ghost use Rattle.codegen_simple.specs.Spots.{spot_in};

use crate::place::{place_kind, spot_at};
use crate::spot::{Spot, store};
use bytecode::Instr;
use checker_base::worth::Worth;
use codegen_expression::context::Context;
use codegen_expression::emission::emit_right;
use codegen_expression::operand::put;
use codegen_expression::operator::operator_of;
use std::alloc::AllocError;
use syntax::{BinaryOperator, ExpressionNode, PlaceNode};
use type_table::scope::Visible;
use type_table::value_type::ValueType;

/// Pushes the value that lies at a spot.
fn load(spot: Spot, code: &mut Vec<Instr>) -> Result<(), AllocError>
    ensures { (globals : Globals) (elements : List Element) (scope : Scope) → OnOk result (Puts code.old.items code.new.items (loads_spot globals elements scope (spot_in spot))) }
{
    if let Spot::Local(place, words) = spot {
        code.push(Instr::Load(place, words))?;
    }
    Ok(())
}

/// Increments or decrements an lvalue by 1.
///
/// Errors: out of memory.
pub fn step<'k>(
    context: &Context<'_, 'k>,
    visible: &Visible<'k>,
    operator: BinaryOperator,
    place: &PlaceNode,
    code: &mut Vec<Instr>,
) -> Result<(), AllocError>
    ensures { OnOk result (Appends code.old.items code.new.items (steps (globals_of context.now) (elements_of context.now) (scope_in context.now visible.now) operator (place_of place.now))) }
{
    let spot = spot_at(context, visible, place)?;
    load(spot, code)?;
    code.push(Instr::Int(1))?;
    code.push(Instr::Apply(operator_of(operator, ValueType::Int)))?;
    store(spot, code)?;
    put(code, Instr::Tick)
}

/// Assigns to an lvalue the result of an operator on it and a value.
///
/// Errors: out of memory.
pub fn update<'k>(
    context: &Context<'_, 'k>,
    visible: &Visible<'k>,
    place: &PlaceNode,
    operator: BinaryOperator,
    value: &'k ExpressionNode,
    code: &mut Vec<Instr>,
) -> Result<(), AllocError>
    ensures { OnOk result (Appends code.old.items code.new.items (updates (globals_of context.now) (elements_of context.now) (scope_in context.now visible.now) (place_of place.now) operator (worth (globals_of context.now) (scope_in context.now visible.now) (expression_of value.now)) (type_of (globals_of context.now) (elements_of context.now) (scope_in context.now visible.now) (expression_of value.now)) (emits (globals_of context.now) (elements_of context.now) (scope_in context.now visible.now) (expression_of value.now)))) }
{
    let spot = spot_at(context, visible, place)?;
    let first = code.len();
    load(spot, code)?;
    let own = Some(Worth::Typed(place_kind(context.table, visible, place)));
    emit_right(context, visible, operator, own, first, value, code)?;
    store(spot, code)?;
    put(code, Instr::Tick)
}
