//! Names that stand for nothing, or for something else than what is wanted.

use crate::fresh::first_repeated;
use diagnostic_value::place::Setting;
use diagnostic_words::words::{Words, push_expression, push_place, push_type};
use syntax::{ExpressionNode, Name, PlaceNode, TypeNode};
use type_table::layout::{field_of, function_number, number_of};
use type_table::scope::{is_blank, is_reserved, own_variable};
use type_table::table::TypeTable;
use type_table::value_type::ValueType;

/// Whether a name is that of a type.
fn is_type(table: &TypeTable<'_>, name: &[u8]) -> bool {
    name == b"int".as_slice() || name == b"bool".as_slice() || number_of(table, name).is_some()
}

/// Whether a name stands for something at all.
fn is_known(at: &Setting<'_, '_>, name: &[u8]) -> bool {
    at.variable(name).is_some()
        || is_type(at.table, name)
        || function_number(at.table, name).is_some()
        || is_reserved(name)
}

/// Reports that a name stands for nothing.
fn push_undefined(said: &mut Words, name: &Name) {
    said.around("undefined: ", name, "");
}

/// Reports a name that was to be a value.
fn push_no_value(said: &mut Words, at: &Setting<'_, '_>, name: &Name) {
    let bytes = name.bytes.as_slice();
    if is_blank(bytes) {
        said.text("cannot use _ as value");
    } else if is_type(at.table, bytes) {
        said.around("", name, " (type) is not an expression");
    } else if function_number(at.table, bytes).is_some() {
        let only = " is a function, not a variable: it can only be called";
        said.around("", name, only);
    } else {
        push_undefined(said, name);
    }
}

/// Reports a name that was to be that of a type.
fn push_no_type(said: &mut Words, at: &Setting<'_, '_>, name: &Name) {
    let bytes = name.bytes.as_slice();
    if is_type(at.table, bytes) && at.variable(bytes).is_none() {
        said.around("invalid composite literal type ", name, "");
    } else if is_known(at, bytes) {
        said.around("", name, " is not a type");
    } else {
        push_undefined(said, name);
    }
}

/// Reports a name that was to be that of a variable.
fn push_no_variable(said: &mut Words, at: &Setting<'_, '_>, name: &Name) {
    if is_known(at, name.bytes.as_slice()) {
        said.around("cannot assign to ", name, ": it is not a variable");
    } else {
        push_undefined(said, name);
    }
}

/// Reports that an operand has no such field.
fn push_no_field(said: &mut Words, at: &Setting<'_, '_>, whole: &ExpressionNode, field: &Name) {
    push_expression(said, whole);
    said.around(".", field, " undefined (type ");
    at.push_worth(said, whole);
    said.around(" has no field ", field, ")");
}

/// The name at the end of a type.
pub(crate) fn last_name(written: &TypeNode) -> &Name {
    match written {
        TypeNode::Named(name) => name,
        TypeNode::Parenthesized(inner) | TypeNode::Channel(_, inner) => last_name(inner),
    }
}

/// Reports a part of an expression that is not visible, or is not what is wanted there. Returns whether it is such a part.
fn push_in_part(said: &mut Words, at: &Setting<'_, '_>) -> bool {
    match at.part() {
        Some(ExpressionNode::Named(name)) => push_no_value(said, at, name),
        Some(ExpressionNode::Composite(name, _, _)) => push_no_type(said, at, name),
        Some(ExpressionNode::Selection(whole, field)) => push_no_field(said, at, whole, field),
        _ => return false,
    }
    true
}

/// Reports what is not visible, or is not what is wanted there.
pub(crate) fn push_invisible(said: &mut Words, at: &Setting<'_, '_>) {
    if push_in_part(said, at) {
        return;
    }
    if let Some(place) = at.place() {
        return push_no_variable(said, at, &place.name);
    }
    if let Some(called) = at.called() {
        return push_undefined(said, called.function);
    }
    if let Some(written) = at.written() {
        push_no_type(said, at, last_name(written));
    }
}

/// Reports that a part of an lvalue, which has this type, has no such field.
fn push_no_such(
    said: &mut Words,
    at: &Setting<'_, '_>,
    place: &PlaceNode,
    kind: ValueType<'_>,
    field: &Name,
) {
    push_place(said, place);
    said.text(" undefined (type ");
    push_type(said, at.table, kind);
    said.around(" has no field ", field, ")");
}

/// Reports the first field of an lvalue that is not there.
fn push_no_path(said: &mut Words, at: &Setting<'_, '_>, place: &PlaceNode, kind: ValueType<'_>) {
    let mut kind = kind;
    for field in place.fields.iter() {
        match field_of(at.table, kind, field.bytes.as_slice()) {
            Some(selected) => kind = selected.kind,
            None => return push_no_such(said, at, place, kind, field),
        }
    }
}

/// Reports an lvalue that is no variable, and no field of one.
pub(crate) fn push_unassigned(said: &mut Words, at: &Setting<'_, '_>) {
    let Some(place) = at.place() else {
        return;
    };
    let name = place.name.bytes.as_slice();
    if is_blank(name) {
        return said.text("cannot use _ as value");
    }
    if let Some(entry) = at.variable(name) {
        push_no_path(said, at, place, entry.kind);
    }
}

/// The first of these names that is never declared.
fn first_reserved<'a>(names: &[&'a Name]) -> Option<&'a Name> {
    for &name in names {
        if is_reserved(name.bytes.as_slice()) {
            return Some(name);
        }
    }
    None
}

/// The first of these names that is declared in the innermost block.
fn first_own<'a>(at: &Setting<'_, '_>, names: &[&'a Name]) -> Option<&'a Name> {
    for &name in names {
        if own_variable(at.table, &at.scene.visible, name.bytes.as_slice()).is_some() {
            return Some(name);
        }
    }
    None
}

/// Reports a name that may not be declared.
pub(crate) fn push_refused(said: &mut Words, name: &Name) {
    let bytes = name.bytes.as_slice();
    if is_blank(bytes) {
        said.text("cannot declare _: functions, types and fields have names");
    } else if is_reserved(bytes) {
        said.around("cannot declare ", name, ": the name is predeclared");
    } else {
        said.around("", name, " redeclared in this block");
    }
}

/// Reports a variable that is there already, or is declared twice.
fn push_again(said: &mut Words, at: &Setting<'_, '_>, names: &[&Name]) {
    if let Some(name) = first_repeated(names) {
        return push_refused(said, name);
    }
    if let Some(name) = first_own(at, names) {
        push_refused(said, name);
    }
}

/// Reports a variable that may not be declared.
pub(crate) fn push_redeclared(said: &mut Words, at: &Setting<'_, '_>) {
    let names = at.parts.names.as_slice();
    match first_reserved(names) {
        Some(name) => push_refused(said, name),
        None => push_again(said, at, names),
    }
}
