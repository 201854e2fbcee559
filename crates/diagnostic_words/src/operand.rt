//! Describes a value: its text, what kind of value it is, and its type.

use crate::words::{Words, push_expression, push_type};
use checker_base::operand::worth;
use checker_base::worth::Worth;
use syntax::{BinaryOperator, ExpressionNode, UnaryOperator};
use type_table::scope::{Visible, is_truth};
use type_table::table::TypeTable;
use type_table::value_type::ValueType;

/// Whether an expression is a variable, or a field of one.
fn is_variable(expression: &ExpressionNode) -> bool {
    match expression {
        ExpressionNode::Named(name) => !is_truth(name.bytes.as_slice()),
        ExpressionNode::Parenthesized(inner) | ExpressionNode::Selection(inner, _) => {
            is_variable(inner)
        }
        _ => false,
    }
}

/// Whether an expression is the name of a truth value.
fn is_truth_value(expression: &ExpressionNode) -> bool {
    match expression {
        ExpressionNode::Named(name) => is_truth(name.bytes.as_slice()),
        ExpressionNode::Parenthesized(inner) | ExpressionNode::Unary(_, inner) => {
            is_truth_value(inner)
        }
        _ => false,
    }
}

/// Whether an operator compares its operands.
fn compares(operator: BinaryOperator) -> bool {
    matches!(
        operator,
        BinaryOperator::Equal
            | BinaryOperator::NotEqual
            | BinaryOperator::Less
            | BinaryOperator::LessEqual
            | BinaryOperator::Greater
            | BinaryOperator::GreaterEqual
    )
}

/// Whether an operator joins two bools.
fn joins(operator: BinaryOperator) -> bool {
    matches!(
        operator,
        BinaryOperator::LogicalAnd | BinaryOperator::LogicalOr
    )
}

/// Whether an expression is an untyped bool, as a comparison is.
fn is_untyped_bool(expression: &ExpressionNode) -> bool {
    match expression {
        ExpressionNode::Named(name) => is_truth(name.bytes.as_slice()),
        ExpressionNode::Parenthesized(inner) => is_untyped_bool(inner),
        ExpressionNode::Unary(UnaryOperator::Not, inner) => is_untyped_bool(inner),
        ExpressionNode::Binary(operator, left, right) => {
            compares(*operator)
                || (joins(*operator) && is_untyped_bool(left) && is_untyped_bool(right))
        }
        _ => false,
    }
}

/// Whether an expression is an integer as it is written, or one after a minus.
fn is_integer(expression: &ExpressionNode) -> bool {
    match expression {
        ExpressionNode::Integer(_) => true,
        ExpressionNode::Unary(UnaryOperator::Negate, inner) => is_integer(inner),
        _ => false,
    }
}

/// Puts what a value is after its text: ` (variable of type int)`.
fn push_typed(
    said: &mut Words,
    table: &TypeTable<'_>,
    expression: &ExpressionNode,
    kind: ValueType<'_>,
) {
    if is_truth_value(expression) {
        said.text(" (untyped bool constant)");
    } else if is_untyped_bool(expression) {
        said.text(" (untyped bool value)");
    } else {
        said.text(sort_text(expression));
        push_type(said, table, kind);
        said.text(")");
    }
}

/// Whether an expression is a receive.
fn is_receive(expression: &ExpressionNode) -> bool {
    match expression {
        ExpressionNode::Receive(_) => true,
        ExpressionNode::Parenthesized(inner) => is_receive(inner),
        _ => false,
    }
}

/// What comes before the type of a value.
fn sort_text(expression: &ExpressionNode) -> &'static str {
    if is_variable(expression) {
        " (variable of type "
    } else if is_receive(expression) {
        " (comma, ok expression of type "
    } else {
        " (value of type "
    }
}

/// Appends to a constant's text what it is: its value, if the text is another.
fn push_constant(said: &mut Words, expression: &ExpressionNode, value: i128) {
    if is_integer(expression) {
        return said.text(" (untyped int constant)");
    }
    said.text(" (untyped int constant ");
    said.number(value);
    said.text(")");
}

/// Appends a value, as `x (variable of type int)`.
pub fn push_operand(
    said: &mut Words,
    table: &TypeTable<'_>,
    visible: &Visible<'_>,
    expression: &ExpressionNode,
) {
    push_expression(said, expression);
    match worth(table, visible, expression) {
        Some(Worth::Typed(kind)) => push_typed(said, table, expression, kind),
        Some(Worth::Constant(value)) => push_constant(said, expression, value),
        _ => {}
    }
}

/// Appends the type of a value, as `int` or `untyped int`.
pub fn push_worth(
    said: &mut Words,
    table: &TypeTable<'_>,
    visible: &Visible<'_>,
    expression: &ExpressionNode,
) {
    match worth(table, visible, expression) {
        Some(Worth::Typed(kind)) => push_type_of(said, table, expression, kind),
        Some(Worth::Constant(_)) => said.text("untyped int"),
        Some(Worth::Nil) => said.text("untyped nil"),
        None => said.text("unknown type"),
    }
}

/// Appends the type of a value that is no constant.
fn push_type_of(
    said: &mut Words,
    table: &TypeTable<'_>,
    expression: &ExpressionNode,
    kind: ValueType<'_>,
) {
    if is_untyped_bool(expression) {
        said.text("untyped bool");
    } else {
        push_type(said, table, kind);
    }
}
