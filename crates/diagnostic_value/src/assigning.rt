//! Values that do not fit what they are given to.

use crate::place::Setting;
use checker_base::worth::Worth;
use diagnostic_scope::given::{Given, Role, struct_named};
use diagnostic_scope::search::Filled;
use diagnostic_words::words::{Words, push_expression, push_type};
use syntax::{ExpressionNode, PlaceNode};
use type_table::table::TypeTable;
use type_table::value_type::ValueType;

/// What a value is for, but for an argument of a function.
fn role_text(role: &Role<'_>) -> &'static str {
    match role {
        Role::Declared => "variable declaration",
        Role::Printed => "argument to print",
        Role::Sent => "send",
        Role::Returned => "return statement",
        Role::Size => "argument to make",
        Role::Condition(false) => "condition of if",
        Role::Condition(true) => "condition of for",
        _ => "assignment",
    }
}

/// Puts what a value is for after what is there.
fn push_role(said: &mut Words, role: &Role<'_>) {
    match role {
        Role::Argument(function) => said.around("argument to ", function, ""),
        _ => said.text(role_text(role)),
    }
}

/// Puts the type that is wanted, if it is known, after what is there.
fn push_as(said: &mut Words, table: &TypeTable<'_>, wanted: Option<ValueType<'_>>) {
    if let Some(kind) = wanted {
        said.text(" as ");
        push_type(said, table, kind);
        said.text(" value");
    }
}

/// Puts the type that is wanted, and what for, after what is there.
fn push_wanted(
    said: &mut Words,
    table: &TypeTable<'_>,
    wanted: Option<ValueType<'_>>,
    role: &Role<'_>,
) {
    push_as(said, table, wanted);
    said.text(" in ");
    push_role(said, role);
}

/// Reports that a value does not fit.
fn push_value(said: &mut Words, at: &Setting<'_, '_>, value: &Given<'_>) {
    said.text("cannot use ");
    at.push_operand(said, value.expression);
    push_wanted(said, at.table, value.wanted, &value.role);
}

/// The type of the field that a literal's value is for.
fn field_type<'a>(at: &Setting<'_, 'a>, filled: &Filled<'_>) -> Option<ValueType<'a>> {
    let entry = struct_named(at.table, filled.literal)?;
    let field = entry.fields.get(filled.index)?;
    Some(field.kind)
}

/// Reports that a value does not fit a literal's field.
fn push_filled(said: &mut Words, at: &Setting<'_, '_>, filled: &Filled<'_>) {
    said.text("cannot use ");
    at.push_operand(said, filled.value);
    push_as(said, at.table, field_type(at, filled));
    said.text(" in struct literal");
}

/// Reports that a value received from a channel is not assignable to an lvalue.
fn push_item(said: &mut Words, at: &Setting<'_, '_>, channel: &Given<'_>, place: &PlaceNode) {
    said.text("cannot use a value received from ");
    at.push_operand(said, channel.expression);
    let kind = at.place_type(place);
    push_as(said, at.table, kind);
    said.text(if is_ranged(channel) {
        " in range"
    } else {
        " in assignment"
    });
}

/// Whether a value is that over which a `for` ranges.
fn is_ranged(value: &Given<'_>) -> bool {
    matches!(value.role, Role::Ranged)
}

/// Reports an item of a range, or of a clause, that is not assignable to the first lvalue.
fn push_received(said: &mut Words, at: &Setting<'_, '_>) {
    let Some(channel) = at.parts.values.first() else {
        return;
    };
    if let Some(place) = at.parts.places.first() {
        push_item(said, at, channel, place);
    }
}

/// Reports a value that does not fit: that of a range or a clause, or one that stands for itself.
fn push_unfit_value(said: &mut Words, at: &Setting<'_, '_>) {
    match at.value() {
        Some(value) if !is_ranged(value) => push_value(said, at, value),
        _ => push_received(said, at),
    }
}

/// Reports the value at the node of the fault, which does not fit.
pub fn push_unfit(said: &mut Words, at: &Setting<'_, '_>) {
    match at.filled() {
        Some(filled) => push_filled(said, at, &filled),
        None => push_unfit_value(said, at),
    }
}

/// Reports a constant that is used as an int, and fits none.
fn push_overflow(said: &mut Words, at: &Setting<'_, '_>, part: &ExpressionNode) {
    match at.value() {
        Some(value) if value.wanted.is_some() => {
            push_value(said, at, value);
            said.text(" (overflows)");
        }
        _ => {
            at.push_operand(said, part);
            said.text(" overflows int");
        }
    }
}

/// Reports a constant at the node of the fault that is used as an int but not representable as one.
pub fn push_constant(said: &mut Words, at: &Setting<'_, '_>) {
    let Some(part) = at.part() else {
        return;
    };
    if let Some(Worth::Constant(_)) = at.worth(part) {
        push_overflow(said, at, part);
    }
}

/// Reports a `nil` that is a value by itself.
fn push_lone_nil(said: &mut Words, at: &Setting<'_, '_>, value: &Given<'_>) {
    match value.wanted {
        Some(kind) => {
            said.text("cannot use nil as ");
            push_type(said, at.table, kind);
            said.text(" value in ");
        }
        None => said.text("use of untyped nil in "),
    }
    push_role(said, &value.role);
}

/// Reports a `nil` for which no channel type is known.
pub fn push_nil(said: &mut Words, at: &Setting<'_, '_>) {
    let Some(value) = at.around() else {
        return;
    };
    match at.worth(value.expression) {
        Some(Worth::Nil) => push_lone_nil(said, at, value),
        _ => {
            said.text("use of untyped nil in ");
            push_expression(said, value.expression);
        }
    }
}
