//! The types and constant values that the typing rules give to expressions, if the variables are those of a run.

ghost use Rattle.std.specs.Prelude.{◌≡◌, ℕ, List, IfSome, option_map, option_and_then};
ghost use Rattle.std.specs.Result.{result_ok};
ghost use Rattle.syntax.specs.View.{expression_of, type_of};
ghost use Rattle.type_table.specs.Scopes.{type_in};
ghost use Rattle.typing_rules.specs.Calls.{callee, made_of, result_type};
ghost use Rattle.type_table.specs.Visible.{types_of, globals_in};
ghost use Rattle.typing_rules.specs.Worths.{Typed, element_of, named_worth, selected_worth, literal_struct, unary_worth, binary_worth, worth};
ghost use Rattle.checker_base.specs.Views.{worth_of, IsSmall};
ghost use Rattle.meaning.specs.Variables.{scope_in};
ghost use Rattle.reference_scope.specs.Scopes.{blocks_of};

use crate::callee::{result_type, type_in, variable_named};
use checker_base::worth::{Worth, binary_worth, literal, unary_worth};
use reference_scope::scope::Scope;
use syntax::{BinaryOperator, ExpressionNode, TypeNode, UnaryOperator};
use type_table::layout::{field_of, number_of};
use type_table::scope::{is_nil, is_truth};
use type_table::table::TypeTable;
use type_table::value_type::{ValueType, element_in};

/// The type of a name as an operand.
fn named_worth<'t>(scope: &Scope<'t>, name: &[u8]) -> Option<Worth<'t>>
    ensures worth { (types : List (List ℕ)) → option_map (worth_of types) result ≡ named_worth (scope_in (blocks_of types scope.now)) name.now }
    ensures small { IfSome result IsSmall }
{
    if is_truth(name) {
        return Some(Worth::Typed(ValueType::Bool));
    }
    if is_nil(name) {
        return Some(Worth::Nil);
    }
    match variable_named(scope, name) {
        Some(variable) => Some(Worth::Typed(variable.kind)),
        None => None,
    }
}

/// The type of a field of an operand.
fn selected_worth<'t>(table: &TypeTable<'t>, whole: Worth<'_>, field: &[u8]) -> Option<Worth<'t>>
    ensures worth { option_map (worth_of (types_of table.now)) result ≡ selected_worth (globals_in table.now) field.now (worth_of (types_of table.now) whole.entry) }
    ensures small { IfSome result IsSmall }
{
    match whole {
        Worth::Typed(kind) => match field_of(table, kind, field) {
            Some(selected) => Some(Worth::Typed(selected.kind)),
            None => None,
        },
        _ => None,
    }
}

/// The number of the struct that a literal's name stands for; none if a variable hides it.
fn literal_struct(table: &TypeTable<'_>, scope: &Scope<'_>, name: &[u8]) -> Option<usize>
    ensures { result ≡ literal_struct (globals_in table.now) (scope_in (blocks_of (types_of table.now) scope.now)) name.now }
{
    match variable_named(scope, name) {
        Some(_) => None,
        None => number_of(table, name),
    }
}

/// What an operator makes of an operand.
fn before<'t>(operator: UnaryOperator, operand: Worth<'_>) -> Option<Worth<'t>>
    requires { IsSmall operand }
    ensures worth { (types : List (List ℕ)) → option_map (worth_of types) result ≡ result_ok (unary_worth operator (worth_of types operand.entry)) }
    ensures small { IfSome result IsSmall }
{
    match unary_worth(operator, operand) {
        Ok(made) => Some(made),
        Err(_) => None,
    }
}

/// What an operator makes of two operands.
fn between<'t>(
    table: &TypeTable<'_>,
    operator: BinaryOperator,
    left: Worth<'_>,
    right: Worth<'_>,
) -> Option<Worth<'t>>
    requires left { IsSmall left }
    requires right { IsSmall right }
    ensures worth { option_map (worth_of (types_of table.now)) result ≡ result_ok (binary_worth operator (worth_of (types_of table.now) left.entry) (worth_of (types_of table.now) right.entry)) }
    ensures small { IfSome result IsSmall }
{
    match binary_worth(table, operator, left, right) {
        Ok(made) => Some(made),
        Err(_) => None,
    }
}

/// The type of a call: `None` if it gives no value.
fn called_worth<'t>(table: &TypeTable<'t>, scope: &Scope<'t>, name: &[u8]) -> Option<Worth<'t>>
    ensures worth { option_map (worth_of (types_of table.now)) result ≡ option_map Typed (result_type (globals_in table.now) (callee (globals_in table.now) (scope_in (blocks_of (types_of table.now) scope.now)) name.now)) }
    ensures small { IfSome result IsSmall }
{
    match result_type(table, scope, name) {
        Some(kind) => Some(Worth::Typed(kind)),
        None => None,
    }
}

/// The type of a new channel: `None` if the type is no channel's.
fn made_worth<'t>(table: &TypeTable<'t>, scope: &Scope<'t>, kind: &'t TypeNode) -> Option<Worth<'t>>
    ensures worth { option_map (worth_of (types_of table.now)) result ≡ option_map Typed (made_of (type_in (types_of table.now) (scope_in (blocks_of (types_of table.now) scope.now)) (type_of kind.now))) }
    ensures small { IfSome result IsSmall }
{
    match type_in(table, scope, kind) {
        Some(ValueType::Channel(direction, element)) => {
            Some(Worth::Typed(ValueType::Channel(direction, element)))
        }
        _ => None,
    }
}

/// The type of what is received from this channel.
fn received<'t>(table: &TypeTable<'_>, channel: Option<Worth<'t>>) -> Option<Worth<'t>>
    ensures worth { option_map (worth_of (types_of table.now)) result ≡ option_map Typed (element_of (option_map (worth_of (types_of table.now)) channel.entry)) }
    ensures small { IfSome result IsSmall }
{
    match channel {
        Some(Worth::Typed(ValueType::Channel(_, element))) => {
            Some(Worth::Typed(element_in(table, element)))
        }
        _ => None,
    }
}

/// The type or constant value of an expression: `None` if it, or an operand of it, violates a rule.
pub fn worth<'a, 't>(
    table: &'a TypeTable<'t>,
    scope: &'a Scope<'t>,
    expression: &'t ExpressionNode,
) -> Option<Worth<'t>>
    ensures worth { option_map (worth_of (types_of table.now)) result ≡ worth (globals_in table.now) (scope_in (blocks_of (types_of table.now) scope.now)) (expression_of expression.now) }
    ensures small { IfSome result IsSmall }
{
    match expression {
        ExpressionNode::Integer(value) => match literal(*value) {
            Some(value) => Some(Worth::Constant(value)),
            None => None,
        },
        ExpressionNode::Named(name) => named_worth(scope, name.bytes.as_slice()),
        ExpressionNode::Parenthesized(inner) => worth(table, scope, inner),
        ExpressionNode::Selection(whole, field) => match worth(table, scope, whole) {
            Some(whole) => selected_worth(table, whole, field.bytes.as_slice()),
            None => None,
        },
        ExpressionNode::Composite(name, _, _) => {
            match literal_struct(table, scope, name.bytes.as_slice()) {
                Some(number) => Some(Worth::Typed(ValueType::Struct(number))),
                None => None,
            }
        }
        ExpressionNode::Unary(operator, operand) => match worth(table, scope, operand) {
            Some(operand) => before(*operator, operand),
            None => None,
        },
        ExpressionNode::Binary(operator, left, right) => match worth(table, scope, left) {
            Some(left) => match worth(table, scope, right) {
                Some(right) => between(table, *operator, left, right),
                None => None,
            },
            None => None,
        },
        ExpressionNode::Call(name, _, _) => called_worth(table, scope, name.bytes.as_slice()),
        ExpressionNode::Receive(channel) => received(table, worth(table, scope, channel)),
        ExpressionNode::Make(kind) | ExpressionNode::MakeSized(kind, _) => {
            made_worth(table, scope, kind)
        }
        ExpressionNode::Length(_) | ExpressionNode::Capacity(_) => {
            Some(Worth::Typed(ValueType::Int))
        }
    }
}
