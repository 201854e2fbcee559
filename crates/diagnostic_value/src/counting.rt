//! Values that are too many or too few, and calls of what is no function.

use crate::place::Setting;
use checker_base::worth::Worth;
use diagnostic_scope::given::{Called, function_named, struct_named};
use diagnostic_words::words::{Words, push_call, push_type};
use syntax::{ExpressionNode, Name};
use type_table::layout::{function_number, number_of};
use type_table::value_type::ValueType;

/// Puts a number of things after what is there.
fn push_count(said: &mut Words, count: usize, one: &str, many: &str) {
    said.number(i128::try_from(count).unwrap_or(0));
    said.text(if count == 1 { one } else { many });
}

/// Puts how many values there are after what is there.
fn push_values(said: &mut Words, at: &Setting<'_, '_>) {
    match only_value(at) {
        Some(ExpressionNode::Call(function, arguments, _)) => {
            push_call(said, function, arguments.as_slice());
            said.text(" returns 1 value");
        }
        _ => push_count(said, at.parts.values.len(), " value", " values"),
    }
}

/// The value of the unit, if it has one alone.
fn only_value<'a>(at: &Setting<'_, 'a>) -> Option<&'a ExpressionNode> {
    match at.parts.values.as_slice().split_first() {
        Some((value, [])) => Some(value.expression),
        _ => None,
    }
}

/// Reports an assignment or a declaration with too many or too few values.
fn push_mismatch(said: &mut Words, at: &Setting<'_, '_>) {
    let places = at.parts.places.len().max(at.parts.names.len());
    if places > 0 {
        said.text("assignment mismatch: ");
        push_count(said, places, " variable but ", " variables but ");
        push_values(said, at);
    }
}

/// Puts the type of a value that is given after what is there.
fn push_given(said: &mut Words, at: &Setting<'_, '_>, value: &ExpressionNode) {
    match at.worth(value) {
        Some(Worth::Constant(_)) => said.text("number"),
        Some(Worth::Nil) => said.text("nil"),
        _ => at.push_worth(said, value),
    }
}

/// Puts types of values after what is there, in parentheses.
fn push_have(said: &mut Words, at: &Setting<'_, '_>, values: &[ExpressionNode]) {
    said.text("(");
    for (index, value) in values.iter().enumerate() {
        said.text(if index > 0 { ", " } else { "" });
        push_given(said, at, value);
    }
    said.text(")");
}

/// Puts types after what is there, in parentheses.
fn push_want(said: &mut Words, at: &Setting<'_, '_>, kinds: &[ValueType<'_>]) {
    said.text("(");
    for (index, kind) in kinds.iter().enumerate() {
        said.text(if index > 0 { ", " } else { "" });
        push_type(said, at.table, *kind);
    }
    said.text(")");
}

/// Reports a call with too many or too few arguments of a function with parameters of these types.
fn push_arguments(
    said: &mut Words,
    at: &Setting<'_, '_>,
    called: &Called<'_>,
    parameters: &[ValueType<'_>],
) {
    let values = called.arguments;
    let many = values.len() > parameters.len();
    said.text(if many { "too many" } else { "not enough" });
    said.around(" arguments in call to ", called.function, " (have ");
    push_have(said, at, values);
    said.text(", want ");
    push_want(said, at, parameters);
    said.text(")");
}

/// Reports a literal with too many or too few values.
fn push_literal(said: &mut Words, at: &Setting<'_, '_>, name: &Name, values: usize) {
    let Some(entry) = struct_named(at.table, name) else {
        return;
    };
    let many = values > entry.fields.len();
    said.text(if many { "too many" } else { "too few" });
    said.around(" values in struct literal of type ", name, "");
}

/// Reports too many or too few values.
pub fn push_numbers(said: &mut Words, at: &Setting<'_, '_>) {
    if let Some(ExpressionNode::Composite(name, values, _)) = at.part() {
        return push_literal(said, at, name, values.len());
    }
    let Some(called) = at.called() else {
        return push_mismatch(said, at);
    };
    if let Some(entry) = function_named(at.table, called.function) {
        push_arguments(said, at, called, entry.parameters.as_slice());
    }
}

/// Reports a value returned by a function that has no result.
fn push_unwanted(said: &mut Words, at: &Setting<'_, '_>, value: &ExpressionNode) {
    said.text("too many return values (have (");
    push_given(said, at, value);
    said.text("), want ())");
}

/// Reports a `return` without a value in a function that has a result of this type.
fn push_nothing(said: &mut Words, at: &Setting<'_, '_>, kind: ValueType<'_>) {
    said.text("not enough return values (have (), want (");
    push_type(said, at.table, kind);
    said.text("))");
}

/// Reports a `return` with a value too many or too few.
pub fn push_returned(said: &mut Words, at: &Setting<'_, '_>) {
    if let Some(kind) = at.scene.result {
        return push_nothing(said, at, kind);
    }
    if let Some(value) = at.parts.values.first() {
        push_unwanted(said, at, value.expression);
    }
}

/// Reports a call of a variable of this type.
fn push_variable(said: &mut Words, at: &Setting<'_, '_>, name: &Name, kind: ValueType<'_>) {
    said.around(
        "invalid operation: cannot call non-function ",
        name,
        " (variable of type ",
    );
    push_type(said, at.table, kind);
    said.text(")");
}

/// Reports a call of what is no function.
fn push_no_function(said: &mut Words, at: &Setting<'_, '_>, name: &Name) {
    match at.variable(name.bytes.as_slice()) {
        Some(entry) => push_variable(said, at, name, entry.kind),
        None => {
            let following = ": it is not a function (there are no conversions)";
            said.around("cannot call ", name, following);
        }
    }
}

/// Whether a name denotes a function at the error.
fn is_function(at: &Setting<'_, '_>, name: &Name) -> bool {
    let bytes = name.bytes.as_slice();
    at.variable(bytes).is_none()
        && number_of(at.table, bytes).is_none()
        && function_number(at.table, bytes).is_some()
}

/// Whether the function of this name has a result.
fn has_result(at: &Setting<'_, '_>, name: &Name) -> bool {
    match function_named(at.table, name) {
        Some(entry) => entry.result.is_some(),
        None => false,
    }
}

/// Reports a value that can't be printed.
fn push_unprinted(said: &mut Words, at: &Setting<'_, '_>) {
    let Some(value) = at.value() else {
        return;
    };
    said.text("cannot print ");
    at.push_operand(said, value.expression);
    said.text(": only ints, bools and strings are printed");
}

/// Reports a call of no function, of one without a result that is used as a value, and of what can't be printed.
pub fn push_called(said: &mut Words, at: &Setting<'_, '_>) {
    let Some(called) = at.called() else {
        return push_unprinted(said, at);
    };
    if !is_function(at, called.function) {
        return push_no_function(said, at, called.function);
    }
    if has_result(at, called.function) {
        return push_unprinted(said, at);
    }
    push_call(said, called.function, called.arguments);
    said.text(" (no value) used as value");
}
