//! Simple statements ("Statements" of the Go specification).

ghost use Rattle.std.specs.Prelude.{◌≡◌, ◌+◌, OnOk, length, map};
ghost use Rattle.bytecode.specs.declared.instr.Instr.TheVariants as instrs;
ghost use Rattle.syntax.specs.View.{expression_of, name_of, part_of, place_of, simple_of};
ghost use Rattle.type_table.specs.Scopes.{Scope};
ghost use Rattle.type_table.specs.Views.{kind_of};
ghost use Rattle.type_table.specs.Visible.{Keeps};
ghost use Rattle.meaning.specs.Expressions.{number_of};
ghost use Rattle.typing_rules.specs.Calls.{result_of};
ghost use Rattle.codegen_base.specs.Elements.{shape_of};
ghost use Rattle.codegen_base.specs.Layouts.{following_simple, carried, declaring_all};
ghost use Rattle.codegen_base.specs.Pushes.{drops, pushes, pushes_own};
ghost use Rattle.codegen_base.specs.Statements.{defines, pushes_arguments, pushes_parts, pushes_received, result_words, right_types, sets, simple_plan, width};
ghost use Rattle.plan.specs.Plan.{Do, Skip};
ghost use Rattle.codegen_expression.specs.Emission.{Puts};
ghost use Rattle.codegen_expression.specs.Contexts.{elements_of, globals_of, scope_in, types_in};
ghost use Rattle.codegen_simple.specs.Layouts.{layout_in};
ghost use Rattle.codegen_simple.specs.Simples.{Appends};

use crate::assignment::assign;
use crate::define::{define_names, name_types};
use crate::layout::Layout;
use crate::place::{place_spots, taken_types};
use crate::print::push_parts;
use crate::right::{push_right, right_kinds};
use crate::spot::drop_words;
use crate::update::{step, update};
use bytecode::Instr;
use checker_base::callee::result_of;
use codegen_expression::channel::{push_arguments, push_channel, push_received};
use codegen_expression::context::Context;
use codegen_expression::emission::push;
use codegen_expression::operand::{put, words_of};
use codegen_expression::shape::shape_of;
use codegen_expression::value::push_own;
use std::alloc::AllocError;
use syntax::{
    ArgumentsNode, BinaryOperator, ExpressionNode, Name, PartNode, PlaceNode, SimpleNode,
};
use type_table::scope::Visible;
use type_table::value_type::ValueType;

/// Drops the result of the function with this number, if it has one.
fn drop_result(
    context: &Context<'_, '_>,
    number: u32,
    code: &mut Vec<Instr>,
) -> Result<(), AllocError>
    ensures { (scope : Scope) → OnOk result (Puts code.old.items code.new.items (drops (result_words (globals_of context.now) (elements_of context.now) scope (result_of (globals_of context.now) number)))) }
{
    if let Some(kind) = result_of(context.table, number as usize) {
        drop_words(words_of(context, kind), code)?;
    }
    Ok(())
}

/// A call of a function whose result is not used.
fn call<'k>(
    context: &Context<'_, 'k>,
    visible: &Visible<'k>,
    name: &Name,
    arguments: &'k ArgumentsNode,
    code: &mut Vec<Instr>,
) -> Result<(), AllocError>
    ensures { OnOk result (Appends code.old.items code.new.items (pushes_arguments (globals_of context.now) (elements_of context.now) (scope_in context.now visible.now) (number_of (globals_of context.now) (name_of name.now)) (map expression_of arguments.now.values.items) (Do (instrs.Call (number_of (globals_of context.now) (name_of name.now))) (drops (result_words (globals_of context.now) (elements_of context.now) (scope_in context.now visible.now) (result_of (globals_of context.now) (number_of (globals_of context.now) (name_of name.now)))) Skip)))) }
{
    let function = push_arguments(context, visible, name, arguments, code)?;
    code.push(Instr::Call(function))?;
    drop_result(context, function, code)
}

/// A close of a channel.
fn close<'k>(
    context: &Context<'_, 'k>,
    visible: &Visible<'k>,
    channel: &'k ExpressionNode,
    code: &mut Vec<Instr>,
) -> Result<(), AllocError>
    ensures { OnOk result (Appends code.old.items code.new.items (pushes_own (globals_of context.now) (elements_of context.now) (scope_in context.now visible.now) (expression_of channel.now) (Do instrs.Close Skip))) }
{
    push_own(context, visible, channel, code)?;
    put(code, Instr::Close)
}

/// A print whose table has this number.
fn print<'k>(
    context: &Context<'_, 'k>,
    visible: &Visible<'k>,
    number: u32,
    parts: &'k [PartNode],
    code: &mut Vec<Instr>,
) -> Result<(), AllocError>
    ensures { OnOk result (Appends code.old.items code.new.items (pushes_parts (globals_of context.now) (elements_of context.now) (scope_in context.now visible.now) (map part_of parts.now) (Do (instrs.Print number) Skip))) }
{
    push_parts(context, visible, parts, code)?;
    put(code, Instr::Print(number))
}

/// A receive from a channel whose item is not used.
fn receive<'k>(
    context: &Context<'_, 'k>,
    visible: &Visible<'k>,
    channel: &'k ExpressionNode,
    code: &mut Vec<Instr>,
) -> Result<(), AllocError>
    ensures { OnOk result (Appends code.old.items code.new.items (pushes_received (globals_of context.now) (elements_of context.now) (scope_in context.now visible.now) (expression_of channel.now) (Do (instrs.Discard (width (globals_of context.now) (elements_of context.now) (scope_in context.now visible.now) (carried (globals_of context.now) (elements_of context.now) (scope_in context.now visible.now) (expression_of channel.now)) + 1)) Skip))) }
{
    let kind = push_received(context, visible, channel, code)?;
    let Some(count) = words_of(context, kind).checked_add(1) else {
        return Err(AllocError);
    };
    put(code, Instr::Discard(count))
}

/// A send of a value on a channel.
fn send<'k>(
    context: &Context<'_, 'k>,
    visible: &Visible<'k>,
    channel: &'k ExpressionNode,
    value: &'k ExpressionNode,
    code: &mut Vec<Instr>,
) -> Result<(), AllocError>
    ensures { OnOk result (Appends code.old.items code.new.items (pushes_own (globals_of context.now) (elements_of context.now) (scope_in context.now visible.now) (expression_of channel.now) (pushes (globals_of context.now) (elements_of context.now) (scope_in context.now visible.now) (carried (globals_of context.now) (elements_of context.now) (scope_in context.now visible.now) (expression_of channel.now)) (expression_of value.now) (Do (instrs.Send (shape_of (elements_of context.now) (carried (globals_of context.now) (elements_of context.now) (scope_in context.now visible.now) (expression_of channel.now)))) Skip)))) }
{
    let kind = push_channel(context, visible, channel, code)?;
    push(context, visible, kind, value, code)?;
    put(code, Instr::Send(shape_of(context, kind)))
}

/// Assigns the values of a right side to lvalues.
fn set<'a>(
    context: &Context<'_, 'a>,
    visible: &Visible<'a>,
    places: &[PlaceNode],
    right: &'a [ExpressionNode],
    code: &mut Vec<Instr>,
) -> Result<(), AllocError>
    ensures { OnOk result (Appends code.old.items code.new.items (sets (globals_of context.now) (elements_of context.now) (scope_in context.now visible.now) (map place_of places.now) (right_types (globals_of context.now) (elements_of context.now) (scope_in context.now visible.now) (length (map place_of places.now)) (map expression_of right.now)) (map expression_of right.now))) }
{
    let count = places.len();
    let given = right_kinds(context, visible, count, right)?;
    let given = given.as_slice();
    let taken = taken_types(context, visible, places, given)?;
    let kinds = taken.as_slice();
    push_right(context, visible, kinds, count, right, code)?;
    let spots = place_spots(context, visible, places, given)?;
    assign(context.alloc, spots.as_slice(), code)
}

/// Assigns the values of a right side to names; those that are new in their block are declared with these types.
///
/// Errors: out of memory.
pub fn define_as<'a>(
    context: &Context<'_, 'a>,
    layout: &mut Layout<'a>,
    names: &'a [Name],
    kinds: &[ValueType<'a>],
    right: &'a [ExpressionNode],
    code: &mut Vec<Instr>,
) -> Result<(), AllocError>
    ensures emitted { OnOk result (Appends code.old.items code.new.items (defines (globals_of context.now) (elements_of context.now) (layout_in context.now layout.old) (map name_of names.now) (map (kind_of (types_in context.now)) kinds.now) (map expression_of right.now))) }
    ensures after { OnOk result (layout_in context.now layout.new ≡ declaring_all (globals_of context.now) (elements_of context.now) (map name_of names.now) (map (kind_of (types_in context.now)) kinds.now) (layout_in context.now layout.old)) }
    ensures kept { OnOk result (Keeps layout.old.visible layout.new.visible) }
{
    let count = names.len();
    let taken = name_types(context, layout, names, kinds)?;
    let taken = taken.as_slice();
    let visible = &layout.visible;
    push_right(context, visible, taken, count, right, code)?;
    let spots = define_names(context, layout, names, kinds)?;
    assign(context.alloc, spots.as_slice(), code)
}

/// Assigns the values of a right side to names; those that are new in their block are declared.
fn define<'a>(
    context: &Context<'_, 'a>,
    layout: &mut Layout<'a>,
    names: &'a [Name],
    right: &'a [ExpressionNode],
    code: &mut Vec<Instr>,
) -> Result<(), AllocError>
    ensures emitted { OnOk result (Appends code.old.items code.new.items (defines (globals_of context.now) (elements_of context.now) (layout_in context.now layout.old) (map name_of names.now) (right_types (globals_of context.now) (elements_of context.now) (scope_in context.now layout.old.visible) (length (map name_of names.now)) (map expression_of right.now)) (map expression_of right.now))) }
    ensures after { OnOk result (layout_in context.now layout.new ≡ declaring_all (globals_of context.now) (elements_of context.now) (map name_of names.now) (right_types (globals_of context.now) (elements_of context.now) (scope_in context.now layout.old.visible) (length (map name_of names.now)) (map expression_of right.now)) (layout_in context.now layout.old)) }
    ensures kept { OnOk result (Keeps layout.old.visible layout.new.visible) }
{
    let given = right_kinds(context, &layout.visible, names.len(), right)?;
    let kinds = given.as_slice();
    define_as(context, layout, names, kinds, right, code)
}

/// Emits a simple statement, and declares what it declares. The print table of a print has this number.
///
/// Errors: out of memory.
pub fn emit_simple<'a>(
    context: &Context<'_, 'a>,
    layout: &mut Layout<'a>,
    number: u32,
    simple: &'a SimpleNode,
    code: &mut Vec<Instr>,
) -> Result<(), AllocError>
    ensures emitted { OnOk result (Appends code.old.items code.new.items (simple_plan (globals_of context.now) (elements_of context.now) (layout_in context.now layout.old) number (simple_of simple.now))) }
    ensures after { OnOk result (layout_in context.now layout.new ≡ following_simple (globals_of context.now) (elements_of context.now) (simple_of simple.now) (layout_in context.now layout.old)) }
    ensures kept { OnOk result (Keeps layout.old.visible layout.new.visible) }
{
    let visible = &layout.visible;
    match simple {
        SimpleNode::Call(name, arguments) => call(context, visible, name, arguments, code),
        SimpleNode::Close(channel) => close(context, visible, channel, code),
        SimpleNode::Print(_, parts, _) => {
            let parts = parts.as_slice();
            print(context, visible, number, parts, code)
        }
        SimpleNode::Receive(channel) => receive(context, visible, channel, code),
        SimpleNode::Send(channel, value) => send(context, visible, channel, value, code),
        SimpleNode::Increment(place) => step(context, visible, BinaryOperator::Add, place, code),
        SimpleNode::Decrement(place) => {
            step(context, visible, BinaryOperator::Subtract, place, code)
        }
        SimpleNode::Assign(places, right) => {
            let places = places.as_slice();
            set(context, visible, places, right.as_slice(), code)
        }
        SimpleNode::Update(place, operator, value) => {
            update(context, visible, place, *operator, value, code)
        }
        SimpleNode::Define(names, right) => {
            let names = names.as_slice();
            define(context, layout, names, right.as_slice(), code)
        }
    }
}
