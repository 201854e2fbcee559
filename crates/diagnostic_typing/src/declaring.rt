//! What is wrong with the declarations of a file.

use crate::limit::push_exceeded;
use crate::naming::{last_name, push_refused};
use crate::statement::push_select;
use crate::text::Text;
use diagnostic_scope::unit::{Found, Unit, Walk, declared_at};
use diagnostic_words::words::Words;
use go_text::Rule;
use std::alloc::Global;
use syntax::{DeclaredNode, FunctionNode, Name, NodeId, StatementNode, StructNode, TopNode};
use type_table::scope::{is_blank, is_reserved};
use typing_rules::violation::Violation;

/// Whether this is the name of a function of a file.
fn is_function(tops: &[TopNode], name: &[u8]) -> bool {
    for top in tops {
        if let TopNode::Function(function) = top {
            if function.name.bytes.as_slice() == name {
                return true;
            }
        }
    }
    false
}

/// Reports that there is no `main`, or one that takes or gives something.
fn push_main(said: &mut Words, tops: &[TopNode]) {
    said.text(if is_function(tops, b"main".as_slice()) {
        "func main must have no arguments and no return values"
    } else {
        "function main is undeclared in the main package"
    });
}

/// How often a name occurs among these.
fn count_among(names: &[Name], name: &[u8]) -> usize {
    let mut count: usize = 0;
    for one in names {
        if one.bytes.as_slice() == name {
            count = count.saturating_add(1);
        }
    }
    count
}

/// How often a name occurs among those of fields or parameters.
fn count_in(declared: &[DeclaredNode], name: &[u8]) -> usize {
    let mut count: usize = 0;
    for group in declared {
        count = count.saturating_add(count_among(group.names.as_slice(), name));
    }
    count
}

/// The first of these names, other than `_`, that occurs twice among those of the fields or parameters.
fn twice_among<'a>(declared: &[DeclaredNode], names: &'a [Name]) -> Option<&'a Name> {
    for name in names {
        let bytes = name.bytes.as_slice();
        if !is_blank(bytes) && count_in(declared, bytes) > 1 {
            return Some(name);
        }
    }
    None
}

/// The first of these names that is refused by itself, as the name of a field if `fields` holds, else as that of a
/// parameter.
fn refused_among(names: &[Name], fields: bool) -> Option<&Name> {
    for name in names {
        let bytes = name.bytes.as_slice();
        if is_reserved(bytes) || (fields && is_blank(bytes)) {
            return Some(name);
        }
    }
    None
}

/// Reports a name that may not be declared, if there is one.
fn push_name(said: &mut Words, name: Option<&Name>) {
    if let Some(name) = name {
        push_refused(said, name);
    }
}

/// Reports a parameter that may not be declared, in this group of them.
fn push_parameter(said: &mut Words, function: &FunctionNode, group: &DeclaredNode) {
    let names = group.names.as_slice();
    match refused_among(names, false) {
        Some(name) => push_refused(said, name),
        None => push_name(said, twice_among(function.parameters.as_slice(), names)),
    }
}

/// Reports a struct type that has a field twice, in this group of them.
fn push_twice(said: &mut Words, one: &StructNode, group: &DeclaredNode) {
    if let Some(name) = twice_among(one.fields.as_slice(), group.names.as_slice()) {
        said.around("duplicate field ", name, "");
        said.around(" in struct type ", &one.name, "");
    }
}

/// Reports a struct type that has no fields, or contains itself.
fn push_struct(said: &mut Words, one: &StructNode) {
    if one.fields.is_empty() {
        said.around("struct type ", &one.name, " has no fields");
    } else {
        said.around("invalid recursive type ", &one.name, "");
    }
}

/// Reports a name in a type that stands for no type.
fn push_type_name(said: &mut Words, tops: &[TopNode], name: &Name) {
    let bytes = name.bytes.as_slice();
    if is_function(tops, bytes) || is_reserved(bytes) {
        said.around("", name, " is not a type");
    } else {
        said.around("undefined: ", name, "");
    }
}

/// Reports what is wrong with fields of a struct type.
fn push_fields(
    said: &mut Words,
    tops: &[TopNode],
    one: &StructNode,
    group: &DeclaredNode,
    rule: Rule,
) {
    match rule {
        Rule::Declared => push_name(said, refused_among(group.names.as_slice(), true)),
        Rule::Struct => push_twice(said, one, group),
        Rule::Visible => push_type_name(said, tops, last_name(&group.type_node)),
        _ => {}
    }
}

/// Reports what is wrong with a declaration of a struct type, at this node.
fn push_in_struct(
    said: &mut Words,
    tops: &[TopNode],
    one: &StructNode,
    first: NodeId,
    rule: Rule,
    node: NodeId,
) {
    if let Some(group) = declared_at(node, first, one.fields.as_slice()) {
        return push_fields(said, tops, one, group, rule);
    }
    match rule {
        Rule::Declared => push_refused(said, &one.name),
        Rule::Struct => push_struct(said, one),
        _ => {}
    }
}

/// Reports what is wrong with parameters of a function.
fn push_parameters(
    said: &mut Words,
    tops: &[TopNode],
    function: &FunctionNode,
    group: &DeclaredNode,
    rule: Rule,
) {
    match rule {
        Rule::Declared => push_parameter(said, function, group),
        Rule::Visible => push_type_name(said, tops, last_name(&group.type_node)),
        _ => {}
    }
}

/// Reports a function's result whose type is none.
fn push_result(said: &mut Words, tops: &[TopNode], function: &FunctionNode) {
    if let Some(written) = &function.result {
        push_type_name(said, tops, last_name(written));
    }
}

/// Reports what is wrong with a function but for its statements, at this node.
fn push_in_head(
    said: &mut Words,
    tops: &[TopNode],
    function: &FunctionNode,
    first: NodeId,
    rule: Rule,
    node: NodeId,
) {
    if let Some(group) = declared_at(node, first, function.parameters.as_slice()) {
        return push_parameters(said, tops, function, group, rule);
    }
    match rule {
        Rule::Declared => push_refused(said, &function.name),
        Rule::Visible => push_result(said, tops, function),
        Rule::Terminating => said.around("missing return at the end of ", &function.name, ""),
        _ => {}
    }
}

/// Reports how a unit violates a rule at this node, if that does not depend on what is visible there.
fn push_broken(
    alloc: Global,
    said: &mut Words,
    text: &Text<'_>,
    found: &Found<'_>,
    rule: Rule,
    node: NodeId,
) {
    let first = found.first;
    match found.unit {
        Unit::Struct(one) => push_in_struct(said, text.tops(), one, first, rule, node),
        Unit::Head(function) => push_in_head(said, text.tops(), function, first, rule, node),
        Unit::Select(clauses) => push_select(alloc, said, text, first, clauses, rule),
        Unit::Leaf(StatementNode::Break) => said.text("break is not in a loop or select"),
        Unit::Leaf(StatementNode::Continue) => said.text("continue is not in a loop"),
        _ => {}
    }
}

/// Reports what is wrong with a unit, if that does not depend on what is visible there.
fn push_in_found(
    alloc: Global,
    said: &mut Words,
    text: &Text<'_>,
    found: &Found<'_>,
    violation: Violation,
) {
    match violation {
        Violation::Broken(rule, node) => push_broken(alloc, said, text, found, rule, node),
        Violation::Exceeded(kind, _) => push_exceeded(said, &found.unit, kind),
    }
}

/// Reports what is wrong with the innermost of these units of a tree, if that does not depend on what is visible there.
pub(crate) fn push_in_unit(
    alloc: Global,
    said: &mut Words,
    text: &Text<'_>,
    walk: &Walk<'_>,
    violation: Violation,
) {
    if let Violation::Broken(Rule::Main, _) = violation {
        return push_main(said, text.tops());
    }
    if let Some(found) = walk.found.first() {
        push_in_found(alloc, said, text, found, violation);
    }
}
