//! Limits that a program exceeds.

use checker_base::worth::Worth;
use diagnostic_scope::unit::Unit;
use diagnostic_value::place::Setting;
use diagnostic_words::words::{Words, push_expression};
use go_text::LimitKind;
use syntax::{BinaryOperator, ExpressionNode, FunctionNode, StructNode, UnaryOperator};

/// Reports that a function has too many variables, or is one too many.
fn push_function(said: &mut Words, function: &FunctionNode, kind: LimitKind) {
    let name = &function.name;
    match kind {
        LimitKind::FunctionWords => {
            said.around("the variables of ", name, " take more than 4,096 words");
        }
        LimitKind::Declarations => {
            said.around(
                "too many functions: ",
                name,
                " is the 4,097th of at most 4,096",
            );
        }
        _ => {}
    }
}

/// Reports that a struct type is too wide, or one too many.
fn push_struct(said: &mut Words, one: &StructNode, kind: LimitKind) {
    let name = &one.name;
    match kind {
        LimitKind::StructWidth => said.around("struct type ", name, " is wider than 16 words"),
        LimitKind::Declarations => {
            said.around(
                "too many struct types: ",
                name,
                " is the 4,097th of at most 4,096",
            );
        }
        _ => {}
    }
}

/// Reports which function or struct type exceeds a limit as a whole, if that is known.
pub(crate) fn push_exceeded(said: &mut Words, unit: &Unit<'_>, kind: LimitKind) {
    match *unit {
        Unit::Head(function) => push_function(said, function, kind),
        Unit::Struct(one) => push_struct(said, one, kind),
        _ => {}
    }
}

/// What an operator does, as a noun.
fn noun_of(operator: BinaryOperator) -> &'static str {
    match operator {
        BinaryOperator::Add => "addition",
        BinaryOperator::Subtract => "subtraction",
        BinaryOperator::Multiply => "multiplication",
        BinaryOperator::ExclusiveOr => "bitwise XOR",
        BinaryOperator::ShiftLeft | BinaryOperator::ShiftRight => "shift",
        _ => "operation",
    }
}

/// Reports that an operator makes a constant that is too large of constants.
fn push_overflow(said: &mut Words, noun: &str, whole: &ExpressionNode) {
    said.text("constant ");
    said.text(noun);
    said.text(" overflow: ");
    push_expression(said, whole);
    said.text(" is over 2^100 in size");
}

/// Reports that a constant is shifted too far.
fn push_far(said: &mut Words, at: &Setting<'_, '_>, count: &ExpressionNode) {
    said.text("invalid shift count ");
    at.push_operand(said, count);
    said.text(": a constant is shifted by at most 100");
}

/// Whether a constant is no count for a shift of a constant.
fn is_far(at: &Setting<'_, '_>, operator: BinaryOperator, count: &ExpressionNode) -> bool {
    match operator {
        BinaryOperator::ShiftLeft | BinaryOperator::ShiftRight => {
            match at.worth(count) {
                Some(Worth::Constant(value)) => value > 100,
                _ => false,
            }
        }
        _ => false,
    }
}

/// Reports a constant that is over 2^100 in size, or shifted by more than 100, if an operator makes it.
pub(crate) fn push_size(said: &mut Words, at: &Setting<'_, '_>) {
    match at.part() {
        Some(ExpressionNode::Binary(operator, _, right)) if is_far(at, *operator, right) => {
            push_far(said, at, right);
        }
        Some(whole @ ExpressionNode::Binary(operator, _, _)) => {
            push_overflow(said, noun_of(*operator), whole);
        }
        Some(whole @ ExpressionNode::Unary(UnaryOperator::Complement, _)) => {
            push_overflow(said, "bitwise complement", whole);
        }
        _ => {}
    }
}
