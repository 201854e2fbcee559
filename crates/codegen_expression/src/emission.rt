//! Expressions: the instructions that push their values ("Expressions" of the Go specification).

ghost use Rattle.std.specs.Prelude.{◌≡◌, ◌++◌, ◌∷◌, [], Bool, IfOk, IfSome, List, OnOk, Some, length, map, option_and_then, option_map};
ghost use Rattle.std.specs.Result.{result_ok};
ghost use Rattle.bytecode.specs.declared.instr.Instr.{Instr as OneInstr};
ghost use Rattle.syntax.specs.Tree.{Binary, Call, Composite, Named, Receive, expressions};
ghost use Rattle.syntax.specs.View.{expression_of, name_of};
ghost use Rattle.type_table.specs.Types.{IntType};
ghost use Rattle.type_table.specs.Views.{field_in, kind_of};
ghost use Rattle.checker_base.specs.Views.{IsSmall, worth_of};
ghost use Rattle.typing_rules.specs.Worths.{Typed, element_of, selected_worth, unary_worth, worth};
ghost use Rattle.meaning.specs.Expressions.{number_of};
ghost use Rattle.codegen_base.specs.Layouts.{type_of};
ghost use Rattle.codegen_base.specs.Pushes.{emits, emits_all, kinds_in, operates, pushes};
ghost use Rattle.codegen_base.specs.Statements.{pushes_arguments};
ghost use Rattle.plan.specs.Plan.{Plan};
ghost use Rattle.codegen_expression.specs.Emission.{IsPlaced, Puts, kind_in, listed, literal_part, picking, receiving, signing};
ghost use Rattle.codegen_expression.specs.Contexts.{elements_of, globals_of, scope_in, types_in, worth_in};

use crate::channel::{Placed, callee, parameters_at, put_make, put_receive};
use crate::context::Context;
use crate::operand::{fields_of, kind_in, named, number, push_zeros, put, settle, words_of};
use crate::operation::{lead, operate};
use crate::operator::sign_of;
use bytecode::Instr;
use checker_base::operand::{
    worth_before, worth_between, worth_called, worth_composite, worth_literal, worth_selected,
};
use checker_base::worth::{Worth, named_worth};
use std::alloc::AllocError;
use syntax::{BinaryOperator, ExpressionNode, Name, UnaryOperator};
use type_table::entry::FieldEntry;
use type_table::layout::field_of;
use type_table::scope::Visible;
use type_table::value_type::ValueType;

/// Emits an expression, and returns its type or constant value. A constant or `nil` is pushed only when its use gives
/// it a type: the instructions that it emitted itself are then taken back.
///
/// Errors: out of memory.
#[cycle(emit)]
pub fn emit<'t, 'v, 'm, 'k>(
    context: &'t Context<'t, 'k>,
    visible: &'v Visible<'k>,
    expression: &'k ExpressionNode,
    code: &'m mut Vec<Instr>,
) -> Result<Option<Worth<'k>>, AllocError>
    ensures worth { IfOk result (λ w. worth_in context.now w ≡ worth (globals_of context.now) (scope_in context.now visible.now) (expression_of expression.now)) }
    ensures small { IfOk result (λ w. IfSome w IsSmall) }
    ensures emitted { OnOk result (Puts code.old.items code.new.items (emits (globals_of context.now) (elements_of context.now) (scope_in context.now visible.now) (expression_of expression.now))) }
{
    match expression {
        ExpressionNode::Integer(value) => Ok(worth_literal(*value)),
        ExpressionNode::Named(name) => emit_name(context, visible, name, code),
        ExpressionNode::Parenthesized(inner) => emit(context, visible, inner, code),
        ExpressionNode::Selection(whole, field) => {
            let whole = emit(context, visible, whole, code)?;
            emit_field(context, whole, field.bytes.as_slice(), code)
        }
        ExpressionNode::Composite(name, values, _) => {
            let values = values.as_slice();
            emit_composite(context, visible, name, values, code)
        }
        ExpressionNode::Unary(operator, operand) => {
            let operand = emit(context, visible, operand, code)?;
            emit_sign(*operator, operand, code)
        }
        ExpressionNode::Binary(operator, left, right) => {
            emit_binary(context, visible, *operator, left, right, code)
        }
        ExpressionNode::Call(name, values, _) => {
            let values = values.as_slice();
            emit_call(context, visible, name, values, code)
        }
        ExpressionNode::Receive(channel) => {
            let item = emit_receive(context, visible, channel, code)?;
            Ok(item.worth)
        }
        ExpressionNode::Make(kind) => {
            put(code, Instr::Int(0))?;
            put_make(context, visible, kind, code)
        }
        ExpressionNode::MakeSized(kind, size) => {
            push(context, visible, ValueType::Int, size, code)?;
            put_make(context, visible, kind, code)
        }
        ExpressionNode::Length(channel) => {
            emit(context, visible, channel, code)?;
            emit_measure(Instr::Len, code)
        }
        ExpressionNode::Capacity(channel) => {
            emit(context, visible, channel, code)?;
            emit_measure(Instr::Cap, code)
        }
    }
}

/// Emits a channel. For a received one it also returns the index of the element, so that nested receives need not look for each.
///
/// Errors: out of memory.
#[cycle(emit)]
pub(crate) fn emit_channel<'t, 'v, 'm, 'k>(
    context: &'t Context<'t, 'k>,
    visible: &'v Visible<'k>,
    channel: &'k ExpressionNode,
    code: &'m mut Vec<Instr>,
) -> Result<Placed<'k>, AllocError>
    ensures worth { IfOk result (λ made. worth_in context.now made.worth ≡ worth (globals_of context.now) (scope_in context.now visible.now) (expression_of channel.now)) }
    ensures small { IfOk result (λ made. IfSome made.worth IsSmall) }
    ensures placed { IfOk result (λ made. IsPlaced (elements_of context.now) (worth_in context.now made.worth) made.place) }
    ensures emitted { OnOk result (Puts code.old.items code.new.items (emits (globals_of context.now) (elements_of context.now) (scope_in context.now visible.now) (expression_of channel.now))) }
{
    match channel {
        ExpressionNode::Parenthesized(inner) => emit_channel(context, visible, inner, code),
        ExpressionNode::Receive(inner) => emit_receive(context, visible, inner, code),
        _ => {
            let worth = emit(context, visible, channel, code)?;
            Ok(Placed { worth, place: None })
        }
    }
}

/// Emits a receive from a channel ("Receive operator").
#[cycle(emit)]
fn emit_receive<'t, 'v, 'm, 'k>(
    context: &'t Context<'t, 'k>,
    visible: &'v Visible<'k>,
    channel: &'k ExpressionNode,
    code: &'m mut Vec<Instr>,
) -> Result<Placed<'k>, AllocError>
    ensures worth { IfOk result (λ made. worth_in context.now made.worth ≡ worth (globals_of context.now) (scope_in context.now visible.now) (Receive (expression_of channel.now))) }
    ensures small { IfOk result (λ made. IfSome made.worth IsSmall) }
    ensures placed { IfOk result (λ made. IsPlaced (elements_of context.now) (worth_in context.now made.worth) made.place) }
    ensures emitted { OnOk result (Puts code.old.items code.new.items (emits (globals_of context.now) (elements_of context.now) (scope_in context.now visible.now) (Receive (expression_of channel.now)))) }
{
    let from = emit_channel(context, visible, channel, code)?;
    emit_received(context, from, code)
}

/// Pushes a value as one of a type.
///
/// Errors: out of memory.
#[cycle(emit)]
pub fn push<'t, 'v, 'm, 'k>(
    context: &'t Context<'t, 'k>,
    visible: &'v Visible<'k>,
    kind: ValueType<'k>,
    expression: &'k ExpressionNode,
    code: &'m mut Vec<Instr>,
) -> Result<(), AllocError>
    ensures { OnOk result (Puts code.old.items code.new.items (pushes (globals_of context.now) (elements_of context.now) (scope_in context.now visible.now) (kind_of (types_in context.now) kind.entry) (expression_of expression.now))) }
{
    let first = code.len();
    let operand = emit(context, visible, expression, code)?;
    settle(context, operand, kind, first, code)
}

/// Emits an operator between two operands.
#[cycle(emit)]
fn emit_binary<'t, 'v, 'm, 'k>(
    context: &'t Context<'t, 'k>,
    visible: &'v Visible<'k>,
    operator: BinaryOperator,
    left: &'k ExpressionNode,
    right: &'k ExpressionNode,
    code: &'m mut Vec<Instr>,
) -> Result<Option<Worth<'k>>, AllocError>
    ensures worth { IfOk result (λ w. worth_in context.now w ≡ worth (globals_of context.now) (scope_in context.now visible.now) (Binary operator (expression_of left.now) (expression_of right.now))) }
    ensures small { IfOk result (λ w. IfSome w IsSmall) }
    ensures emitted { OnOk result (Puts code.old.items code.new.items (emits (globals_of context.now) (elements_of context.now) (scope_in context.now visible.now) (Binary operator (expression_of left.now) (expression_of right.now)))) }
{
    let first = code.len();
    let a = emit(context, visible, left, code)?;
    let b = emit_right(context, visible, operator, a, first, right, code)?;
    Ok(worth_between(context.table, operator, a, b))
}

/// Emits an operator and its right operand after a left one, whose instructions begin at `first`. Returns the right
/// one's type or constant value.
///
/// Errors: out of memory.
#[cycle(emit)]
pub fn emit_right<'t, 'v, 'm, 'k>(
    context: &'t Context<'t, 'k>,
    visible: &'v Visible<'k>,
    operator: BinaryOperator,
    left: Option<Worth<'k>>,
    first: usize,
    right: &'k ExpressionNode,
    code: &'m mut Vec<Instr>,
) -> Result<Option<Worth<'k>>, AllocError>
    ensures worth { IfOk result (λ w. worth_in context.now w ≡ worth (globals_of context.now) (scope_in context.now visible.now) (expression_of right.now)) }
    ensures small { IfOk result (λ w. IfSome w IsSmall) }
    ensures emitted { (before : List OneInstr) (part : Plan → Plan) → length before ≡ first → Puts before code.old.items part → OnOk result (Puts before code.new.items (operates (elements_of context.now) operator (worth_in context.now left.entry) (worth (globals_of context.now) (scope_in context.now visible.now) (expression_of right.now)) (kind_in (worth_in context.now left.entry)) (type_of (globals_of context.now) (elements_of context.now) (scope_in context.now visible.now) (expression_of right.now)) part (emits (globals_of context.now) (elements_of context.now) (scope_in context.now visible.now) (expression_of right.now)))) }
{
    lead(operator, left, first, code)?;
    let second = code.len();
    let operand = emit(context, visible, right, code)?;
    operate(context, operator, left, operand, first, second, code)?;
    Ok(operand)
}

/// Emits a composite literal of this name and these values ("Composite literals").
#[cycle(emit)]
fn emit_composite<'t, 'v, 'f, 'm, 'k>(
    context: &'t Context<'t, 'k>,
    visible: &'v Visible<'k>,
    name: &'f Name,
    values: &'k [ExpressionNode],
    code: &'m mut Vec<Instr>,
) -> Result<Option<Worth<'k>>, AllocError>
    ensures worth { (trailing : Bool) → IfOk result (λ w. worth_in context.now w ≡ worth (globals_of context.now) (scope_in context.now visible.now) (Composite (name_of name.now) (expressions (map expression_of values.now)) trailing)) }
    ensures small { IfOk result (λ w. IfSome w IsSmall) }
    ensures emitted { (trailing : Bool) → OnOk result (Puts code.old.items code.new.items (emits (globals_of context.now) (elements_of context.now) (scope_in context.now visible.now) (Composite (name_of name.now) (expressions (map expression_of values.now)) trailing))) }
{
    let made = worth_composite(context.table, visible, name.bytes.as_slice());
    emit_literal(context, visible, kind_in(made), values, code)?;
    Ok(made)
}

/// Emits the fields of a literal of this type, or its zeros if there are no values.
#[cycle(emit)]
fn emit_literal<'t, 'v, 'm, 'k>(
    context: &'t Context<'t, 'k>,
    visible: &'v Visible<'k>,
    kind: ValueType<'k>,
    values: &'k [ExpressionNode],
    code: &'m mut Vec<Instr>,
) -> Result<(), AllocError>
    ensures { OnOk result (Puts code.old.items code.new.items (literal_part (globals_of context.now) (elements_of context.now) (scope_in context.now visible.now) (kind_of (types_in context.now) kind.entry) (expressions (map expression_of values.now)))) }
{
    match values {
        [] => push_zeros(context, kind, code),
        [_, ..] => {
            let fields = fields_of(context.table, kind);
            emit_fields(context, visible, fields, values, code)
        }
    }
}

/// Emits a call of the function of this name with these arguments ("Calls").
#[cycle(emit)]
fn emit_call<'t, 'v, 'f, 'm, 'k>(
    context: &'t Context<'t, 'k>,
    visible: &'v Visible<'k>,
    name: &'f Name,
    values: &'k [ExpressionNode],
    code: &'m mut Vec<Instr>,
) -> Result<Option<Worth<'k>>, AllocError>
    ensures worth { (trailing : Bool) → IfOk result (λ w. worth_in context.now w ≡ worth (globals_of context.now) (scope_in context.now visible.now) (Call (name_of name.now) (expressions (map expression_of values.now)) trailing)) }
    ensures small { IfOk result (λ w. IfSome w IsSmall) }
    ensures emitted { (trailing : Bool) → OnOk result (Puts code.old.items code.new.items (emits (globals_of context.now) (elements_of context.now) (scope_in context.now visible.now) (Call (name_of name.now) (expressions (map expression_of values.now)) trailing))) }
{
    let function = emit_arguments(context, visible, name, values, code)?;
    put(code, Instr::Call(function))?;
    Ok(worth_called(context.table, visible, name.bytes.as_slice()))
}

/// Emits the arguments of a call of the function of this name, and returns its number.
#[cycle(emit)]
pub(crate) fn emit_arguments<'t, 'v, 'f, 'm, 'k>(
    context: &'t Context<'t, 'k>,
    visible: &'v Visible<'k>,
    name: &'f Name,
    values: &'k [ExpressionNode],
    code: &'m mut Vec<Instr>,
) -> Result<u32, AllocError>
    ensures number { IfOk result (λ n. n ≡ number_of (globals_of context.now) (name_of name.now)) }
    ensures pushed { OnOk result (Puts code.old.items code.new.items (pushes_arguments (globals_of context.now) (elements_of context.now) (scope_in context.now visible.now) (number_of (globals_of context.now) (name_of name.now)) (map expression_of values.now))) }
{
    let function = callee(context.table, name);
    let kinds = parameters_at(context.table, function);
    emit_all(context, visible, kinds, values, code)?;
    number(function)
}

/// Emits values as values of these types, in order.
///
/// Errors: out of memory.
#[cycle(emit)]
pub fn emit_all<'t, 'v, 'f, 'm, 'k>(
    context: &'t Context<'t, 'k>,
    visible: &'v Visible<'k>,
    kinds: &'f [ValueType<'k>],
    values: &'k [ExpressionNode],
    code: &'m mut Vec<Instr>,
) -> Result<(), AllocError>
    ensures { OnOk result (Puts code.old.items code.new.items (emits_all (globals_of context.now) (elements_of context.now) (scope_in context.now visible.now) (map (kind_of (types_in context.now)) kinds.now) (expressions (map expression_of values.now)))) }
{
    let Some((value, values)) = values.split_first() else {
        return Ok(());
    };
    let Some((kind, kinds)) = kinds.split_first() else {
        return Ok(());
    };
    push(context, visible, *kind, value, code)?;
    emit_all(context, visible, kinds, values, code)
}

/// Emits the fields of a literal, in order.
#[cycle(emit)]
fn emit_fields<'t, 'v, 'f, 'm, 'k>(
    context: &'t Context<'t, 'k>,
    visible: &'v Visible<'k>,
    fields: &'f [FieldEntry<'k>],
    values: &'k [ExpressionNode],
    code: &'m mut Vec<Instr>,
) -> Result<(), AllocError>
    ensures { OnOk result (Puts code.old.items code.new.items (emits_all (globals_of context.now) (elements_of context.now) (scope_in context.now visible.now) (kinds_in (map (field_in (types_in context.now)) fields.now)) (expressions (map expression_of values.now)))) }
{
    let Some((value, values)) = values.split_first() else {
        return Ok(());
    };
    let Some((field, fields)) = fields.split_first() else {
        return Ok(());
    };
    push(context, visible, field.kind, value, code)?;
    emit_fields(context, visible, fields, values, code)
}

/// Emits a name ("Operands").
fn emit_name<'k>(
    context: &Context<'_, 'k>,
    visible: &Visible<'k>,
    name: &Name,
    code: &mut Vec<Instr>,
) -> Result<Option<Worth<'k>>, AllocError>
    ensures worth { IfOk result (λ w. worth_in context.now w ≡ worth (globals_of context.now) (scope_in context.now visible.now) (Named (name_of name.now))) }
    ensures small { IfOk result (λ w. IfSome w IsSmall) }
    ensures emitted { OnOk result (Puts code.old.items code.new.items (emits (globals_of context.now) (elements_of context.now) (scope_in context.now visible.now) (Named (name_of name.now)))) }
{
    let name = name.bytes.as_slice();
    code.push(named(context, visible, name)?)?;
    Ok(named_worth(context.table, visible, name))
}

/// The part of a value of this type that the field of this name takes.
fn pick<'k>(context: &Context<'_, 'k>, kind: ValueType<'k>, field: &[u8]) -> Instr
    ensures { result ≡ picking (globals_of context.now) (elements_of context.now) (kind_of (types_in context.now) kind.entry) field.now }
{
    let words = words_of(context, kind);
    match field_of(context.table, kind, field) {
        Some(part) => Instr::Pick(words, part.place as u32, words_of(context, part.kind)),
        None => Instr::Pick(words, 0, 1),
    }
}

/// Emits the selection of a field of an operand, which is pushed ("Selectors").
fn emit_field<'k>(
    context: &Context<'_, 'k>,
    whole: Option<Worth<'k>>,
    field: &[u8],
    code: &mut Vec<Instr>,
) -> Result<Option<Worth<'k>>, AllocError>
    ensures worth { IfOk result (λ w. worth_in context.now w ≡ option_and_then (selected_worth (globals_of context.now) field.now) (worth_in context.now whole.entry)) }
    ensures small { IfOk result (λ w. IfSome w IsSmall) }
    ensures emitted { OnOk result (code.new.items ≡ code.old.items ++ picking (globals_of context.now) (elements_of context.now) (kind_in (worth_in context.now whole.entry)) field.now ∷ []) }
{
    put(code, pick(context, kind_in(whole), field))?;
    Ok(worth_selected(context.table, whole, field))
}

/// Emits an operator before an operand, which is pushed.
fn emit_sign<'k>(
    operator: UnaryOperator,
    operand: Option<Worth<'k>>,
    code: &mut Vec<Instr>,
) -> Result<Option<Worth<'k>>, AllocError>
    requires { IfSome operand IsSmall }
    ensures worth { (types : _) → IfOk result (λ w. option_map (worth_of types) w ≡ option_and_then (λ a. result_ok (unary_worth operator a)) (option_map (worth_of types) operand.entry)) }
    ensures small { IfOk result (λ w. IfSome w IsSmall) }
    ensures emitted { OnOk result (code.new.items ≡ code.old.items ++ listed (signing operator)) }
{
    if let Some(sign) = sign_of(operator) {
        code.push(Instr::Apply(sign))?;
    }
    Ok(worth_before(operator, operand))
}

/// Emits a receive from a channel, which is pushed; whether an item was sent is dropped.
fn emit_received<'k>(
    context: &Context<'_, 'k>,
    channel: Placed<'k>,
    code: &mut Vec<Instr>,
) -> Result<Placed<'k>, AllocError>
    requires { IsPlaced (elements_of context.now) (worth_in context.now channel.worth) channel.place }
    ensures worth { IfOk result (λ item. worth_in context.now item.worth ≡ option_map Typed (element_of (worth_in context.now channel.entry.worth))) }
    ensures small { IfOk result (λ item. IfSome item.worth IsSmall) }
    ensures placed { IfOk result (λ item. IsPlaced (elements_of context.now) (worth_in context.now item.worth) item.place) }
    ensures emitted { OnOk result (code.new.items ≡ code.old.items ++ receiving (elements_of context.now) (worth_in context.now channel.entry.worth) ∷ Instr.Discard 1 ∷ []) }
{
    let item = put_receive(context, channel, code)?;
    put(code, Instr::Discard(1))?;
    Ok(item)
}

/// Emits `len` or `cap`, whose instruction this is, of a channel, which is pushed.
fn emit_measure<'k>(instr: Instr, code: &mut Vec<Instr>) -> Result<Option<Worth<'k>>, AllocError>
    ensures worth { (types : _) → IfOk result (λ w. option_map (worth_of types) w ≡ Some (Typed IntType)) }
    ensures small { IfOk result (λ w. IfSome w IsSmall) }
    ensures emitted { OnOk result (code.new.items ≡ code.old.items ++ instr ∷ []) }
{
    put(code, instr)?;
    Ok(Some(Worth::Typed(ValueType::Int)))
}
