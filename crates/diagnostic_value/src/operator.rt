//! Operands that do not fit their operator.

use crate::place::Setting;
use checker_base::worth::Worth;
use diagnostic_scope::given::Role;
use diagnostic_words::words::{
    Words, operator_text, push_expression, push_place, push_type, unary_text,
};
use syntax::{BinaryOperator, ExpressionNode, PlaceNode, UnaryOperator};
use type_table::value_type::ValueType;

/// The sort of an operand, as far as operators distinguish it.
#[derive(Clone, Copy, PartialEq, Eq)]
enum Sort {
    Int,
    Bool,
    Struct,
    Channel,
    Nil,
    Unknown,
}

/// The sort of a type.
fn sort_of_type(kind: ValueType<'_>) -> Sort {
    match kind {
        ValueType::Int => Sort::Int,
        ValueType::Bool => Sort::Bool,
        ValueType::Struct(_) => Sort::Struct,
        ValueType::Channel(_, _) => Sort::Channel,
    }
}

/// The sort of an operand.
fn sort_of(at: &Setting<'_, '_>, expression: &ExpressionNode) -> Sort {
    match at.worth(expression) {
        Some(Worth::Typed(kind)) => sort_of_type(kind),
        Some(Worth::Constant(_)) => Sort::Int,
        Some(Worth::Nil) => Sort::Nil,
        None => Sort::Unknown,
    }
}

/// Puts that an operator is not defined on an operand after what is there.
fn push_undefined_on(
    said: &mut Words,
    at: &Setting<'_, '_>,
    operator: &str,
    operand: &ExpressionNode,
) {
    said.text("operator ");
    said.text(operator);
    said.text(" not defined on ");
    at.push_operand(said, operand);
}

/// Puts the two types of operands that do not go together after what is there.
fn push_mismatch(
    said: &mut Words,
    at: &Setting<'_, '_>,
    left: &ExpressionNode,
    right: &ExpressionNode,
) {
    said.text(" (mismatched types ");
    at.push_worth(said, left);
    said.text(" and ");
    at.push_worth(said, right);
    said.text(")");
}

/// Reports an operator between two operands.
fn push_binary(
    said: &mut Words,
    at: &Setting<'_, '_>,
    operator: BinaryOperator,
    left: &ExpressionNode,
    right: &ExpressionNode,
    whole: &ExpressionNode,
) {
    said.text("invalid operation: ");
    let (one, other) = (sort_of(at, left), sort_of(at, right));
    if one == other && one != Sort::Struct && one != Sort::Channel {
        return push_undefined_on(said, at, operator_text(operator), left);
    }
    push_expression(said, whole);
    if one == other && one == Sort::Struct {
        said.text(" (structs are not compared: compare their fields)");
    } else {
        push_mismatch(said, at, left, right);
    }
}

/// Reports an operator before an operand.
fn push_unary(
    said: &mut Words,
    at: &Setting<'_, '_>,
    operator: UnaryOperator,
    operand: &ExpressionNode,
) {
    said.text("invalid operation: ");
    push_undefined_on(said, at, unary_text(operator), operand);
}

/// Reports `++` or `--` on an lvalue whose type is not int.
fn push_step(said: &mut Words, at: &Setting<'_, '_>, place: &PlaceNode) {
    said.text("invalid operation: ");
    push_place(said, place);
    said.text(at.parts.step);
    if let Some(kind) = at.place_type(place) {
        said.text(" (non-numeric type ");
        push_type(said, at.table, kind);
        said.text(")");
    }
}

/// Appends that the operator of an assignment is not defined on an lvalue of this value's type.
fn push_undefined_at(
    said: &mut Words,
    at: &Setting<'_, '_>,
    place: &PlaceNode,
    operator: BinaryOperator,
    value: &ExpressionNode,
) {
    said.text("operator ");
    said.text(operator_text(operator));
    said.text(" not defined on ");
    push_place(said, place);
    said.text(" (variable of type ");
    at.push_worth(said, value);
    said.text(")");
}

/// Puts an assignment with an operator after what is there.
fn push_assigned(
    said: &mut Words,
    place: &PlaceNode,
    operator: BinaryOperator,
    value: &ExpressionNode,
) {
    push_place(said, place);
    said.text(" ");
    said.text(operator_text(operator));
    said.text("= ");
    push_expression(said, value);
}

/// Appends the type of an lvalue and that of a value, which do not match.
fn push_types(said: &mut Words, at: &Setting<'_, '_>, kind: ValueType<'_>, value: &ExpressionNode) {
    said.text(" (mismatched types ");
    push_type(said, at.table, kind);
    said.text(" and ");
    at.push_worth(said, value);
    said.text(")");
}

/// Puts an assignment with an operator, and its two types, after what is there.
fn push_update(
    said: &mut Words,
    at: &Setting<'_, '_>,
    place: &PlaceNode,
    operator: BinaryOperator,
    value: &ExpressionNode,
) {
    said.text("invalid operation: ");
    match at.place_type(place) {
        Some(kind) if sort_of_type(kind) == sort_of(at, value) => {
            push_undefined_at(said, at, place, operator, value);
        }
        Some(kind) => {
            push_assigned(said, place, operator, value);
            push_types(said, at, kind, value);
        }
        None => push_assigned(said, place, operator, value),
    }
}

/// The operator of an assignment, and the value after it.
fn update_in<'a>(at: &Setting<'_, 'a>) -> Option<(BinaryOperator, &'a ExpressionNode)> {
    let value = at.parts.values.first()?;
    match value.role {
        Role::Operand(operator) => Some((operator, value.expression)),
        _ => None,
    }
}

/// Reports an operator of a statement that does not fit its lvalue.
fn push_operator_of(said: &mut Words, at: &Setting<'_, '_>) {
    let Some(place) = at.parts.places.first() else {
        return;
    };
    match update_in(at) {
        Some((operator, value)) => push_update(said, at, place, operator, value),
        None => push_step(said, at, place),
    }
}

/// Reports operands that do not fit their operator.
pub fn push_operands(said: &mut Words, at: &Setting<'_, '_>) {
    match at.part() {
        Some(whole @ ExpressionNode::Binary(operator, left, right)) => {
            push_binary(said, at, *operator, left, right, whole);
        }
        Some(ExpressionNode::Unary(operator, operand)) => push_unary(said, at, *operator, operand),
        _ => push_operator_of(said, at),
    }
}

/// Whether an operator divides.
fn divides(operator: BinaryOperator) -> bool {
    matches!(operator, BinaryOperator::Divide | BinaryOperator::Remainder)
}

/// Reports that a shift counts by a negative constant.
fn push_negative(said: &mut Words, at: &Setting<'_, '_>, count: &ExpressionNode) {
    said.text("invalid operation: negative shift count ");
    at.push_operand(said, count);
}

/// Reports an assignment with an operator whose right operand is zero, or a negative shift count.
fn push_wrong_update(
    said: &mut Words,
    at: &Setting<'_, '_>,
    place: &PlaceNode,
    operator: BinaryOperator,
    value: &ExpressionNode,
) {
    if !divides(operator) {
        return push_negative(said, at, value);
    }
    said.text("invalid operation: division by zero in ");
    push_assigned(said, place, operator, value);
}

/// Reports an operator in an expression whose right operand is zero, or a negative shift count.
fn push_wrong_right(
    said: &mut Words,
    at: &Setting<'_, '_>,
    operator: BinaryOperator,
    right: &ExpressionNode,
    whole: &ExpressionNode,
) {
    if !divides(operator) {
        return push_negative(said, at, right);
    }
    said.text("invalid operation: division by zero in ");
    push_expression(said, whole);
}

/// Reports an assignment with an operator whose constant right operand is not allowed.
fn push_operator_in(said: &mut Words, at: &Setting<'_, '_>) {
    let Some(place) = at.parts.places.first() else {
        return;
    };
    if let Some((operator, value)) = update_in(at) {
        push_wrong_update(said, at, place, operator, value);
    }
}

/// Reports an operator whose constant right operand is not allowed.
pub fn push_operator(said: &mut Words, at: &Setting<'_, '_>) {
    match at.part() {
        Some(whole @ ExpressionNode::Binary(operator, _, right)) => {
            push_wrong_right(said, at, *operator, right, whole);
        }
        _ => push_operator_in(said, at),
    }
}
