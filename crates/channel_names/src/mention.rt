//! Where a program makes and uses channels.

use crate::form::form_of;
use diagnostic_scope::operations::Operations;
use diagnostic_scope::unit::{Found, Unit, units_at};
use diagnostic_words::words::{Words, push_expression, push_place};
use go_text::Memory;
use std::alloc::Global;
use syntax::{ExpressionNode, FileNode, Name, NodeId, SimpleNode, StatementNode, TypeNode};
use timeline::{ItemForm, Mention, Site};

/// What the program of a file calls the channel that it makes, sends to, receives from or closes at a node, which is that of the
/// instruction `site`: the variable that a new channel is put into, or the operand of the operation.
///
/// Errors: out of memory.
pub fn mention_at(
    alloc: Global,
    file: &FileNode,
    node: NodeId,
    site: Site,
) -> Result<Mention, Memory> {
    let mut mention = Mention {
        site,
        name: None,
        form: None,
    };
    let walk = units_at(alloc, file, node);
    let Some(found) = walk.found.first().copied() else {
        return Ok(mention);
    };
    let mut said = Words::new(alloc);
    mention.form = push_used(&mut said, alloc, file, found, node)?;
    mention.name = text_of(said)?;
    Ok(mention)
}

/// Appends what the program calls the channel that a unit uses at a node. If it makes it there, returns how Go writes its items.
fn push_used(
    said: &mut Words,
    alloc: Global,
    file: &FileNode,
    found: Found<'_>,
    node: NodeId,
) -> Result<Option<ItemForm>, Memory> {
    let operations = Operations::of(alloc, found);
    for (index, operation) in operations.list.iter().enumerate() {
        if operation.node == node {
            if let Some(made) = made_type(operation.expression) {
                push_target(said, alloc, found.unit, index);
                return items_of(alloc, file, made);
            }
            if let ExpressionNode::Receive(channel) = operation.expression {
                push_expression(said, channel);
                return Ok(None);
            }
        }
    }
    push_operand(said, found.unit);
    Ok(None)
}

/// How Go writes the items of the channels that are made at a node; `None` if none are.
///
/// Errors: out of memory.
pub fn form_at(alloc: Global, file: &FileNode, node: NodeId) -> Result<Option<ItemForm>, Memory> {
    let walk = units_at(alloc, file, node);
    let Some(found) = walk.found.first().copied() else {
        return Ok(None);
    };
    let operations = Operations::of(alloc, found);
    for operation in operations.list.iter() {
        if operation.node == node {
            return match made_type(operation.expression) {
                Some(made) => items_of(alloc, file, made),
                None => Ok(None),
            };
        }
    }
    Ok(None)
}

/// The type of the value that an expression makes; `None` if it makes none.
fn made_type(expression: &ExpressionNode) -> Option<&TypeNode> {
    match expression {
        ExpressionNode::Make(made) | ExpressionNode::MakeSized(made, _) => Some(made),
        _ => None,
    }
}

/// The words as text; `None` if there are none.
fn text_of(said: Words) -> Result<Option<String>, Memory> {
    if said.is_empty() {
        return Ok(None);
    }
    Ok(String::from_utf8(said.into_bytes()?).ok())
}

/// How Go writes the items of channels of this type.
fn items_of(alloc: Global, file: &FileNode, made: &TypeNode) -> Result<Option<ItemForm>, Memory> {
    match made {
        TypeNode::Channel(_, element) => form_of(alloc, file.tops.as_slice(), element),
        _ => Ok(None),
    }
}

/// Appends the channel that a unit as a whole sends to, receives from or closes.
fn push_operand(said: &mut Words, unit: Unit<'_>) {
    let simple = match unit {
        Unit::Simple(simple) | Unit::Leaf(StatementNode::Simple(simple)) => simple,
        Unit::Range(_, channel) => return push_expression(said, channel),
        _ => return,
    };
    match simple {
        SimpleNode::Send(channel, _) | SimpleNode::Receive(channel) | SimpleNode::Close(channel) =>
            {
                push_expression(said, channel);
            }
        _ => {}
    }
}

/// Appends the variable that a unit puts the result of its operation of this index into, if that is all of a value.
fn push_target(said: &mut Words, alloc: Global, unit: Unit<'_>, operation: usize) {
    match unit {
        Unit::Simple(simple) | Unit::Leaf(StatementNode::Simple(simple)) => match simple {
            SimpleNode::Define(names, right) => {
                push_name(
                    said,
                    names.as_slice(),
                    value_of(alloc, right.as_slice(), operation),
                );
            }
            SimpleNode::Assign(places, right) => {
                let value = value_of(alloc, right.as_slice(), operation);
                if let Some(place) = value.and_then(|index| places.get(index)) {
                    push_place(said, place);
                }
            }
            _ => {}
        },
        Unit::Leaf(
            StatementNode::Typed(names, _, Some(right)) | StatementNode::Untyped(names, right),
        ) => {
            push_name(
                said,
                names.as_slice(),
                value_of(alloc, right.as_slice(), operation),
            );
        }
        _ => {}
    }
}

/// Appends the name at an index, if there is one.
fn push_name(said: &mut Words, names: &[Name], index: Option<usize>) {
    if let Some(name) = index.and_then(|index| names.get(index)) {
        said.name(name);
    }
}

/// The index of the value among these whose last operation is that of this index among all their operations, and which is a new
/// channel.
fn value_of(alloc: Global, values: &[ExpressionNode], operation: usize) -> Option<usize> {
    let mut count: usize = 0;
    for (index, value) in values.iter().enumerate() {
        let unit = Unit::Condition(false, value);
        let operations = Operations::of(alloc, Found { first: 0, unit });
        count = count.saturating_add(operations.list.len());
        if operation < count {
            let is_last = operation.saturating_add(1) == count;
            return (is_last && is_made(value)).then_some(index);
        }
    }
    None
}

/// Whether an expression is a new channel.
fn is_made(value: &ExpressionNode) -> bool {
    match value {
        ExpressionNode::Parenthesized(inner) => is_made(inner),
        _ => made_type(value).is_some(),
    }
}
