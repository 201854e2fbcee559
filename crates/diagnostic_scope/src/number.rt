//! The numbers of a tree's nodes, which are counted in postorder. A number that would be too large is the largest one.

use syntax::{
    CommNode, ExpressionNode, NodeId, PartNode, ReturnNode, SimpleNode, StatementNode, TypeNode,
};

/// The number after a node.
pub(crate) fn after(node: NodeId) -> NodeId {
    node.saturating_add(1)
}

/// The number after the nodes of a type.
pub(crate) fn type_end(first: NodeId, written: &TypeNode) -> NodeId {
    match written {
        TypeNode::Named(_) => after(first),
        TypeNode::Parenthesized(inner) | TypeNode::Channel(_, inner) => {
            after(type_end(first, inner))
        }
    }
}

/// The number after the nodes of an expression.
#[cycle(expression_end)]
pub(crate) fn expression_end(first: NodeId, expression: &ExpressionNode) -> NodeId {
    match expression {
        ExpressionNode::Integer(_) | ExpressionNode::Named(_) => after(first),
        ExpressionNode::Parenthesized(inner)
        | ExpressionNode::Selection(inner, _)
        | ExpressionNode::Unary(_, inner)
        | ExpressionNode::Receive(inner)
        | ExpressionNode::Length(inner)
        | ExpressionNode::Capacity(inner) => after(expression_end(first, inner)),
        ExpressionNode::Composite(_, values, _) | ExpressionNode::Call(_, values, _) => {
            after(values_end(first, values.as_slice()))
        }
        ExpressionNode::Binary(_, left, right) => {
            after(expression_end(expression_end(first, left), right))
        }
        ExpressionNode::Make(written) => after(type_end(first, written)),
        ExpressionNode::MakeSized(written, size) => {
            after(expression_end(type_end(first, written), size))
        }
    }
}

/// The number after the nodes of expressions.
#[cycle(expression_end)]
fn values_end(first: NodeId, values: &[ExpressionNode]) -> NodeId {
    let mut end = first;
    for value in values {
        end = expression_end(end, value);
    }
    end
}

/// The number after the nodes of an expression that may be left out.
pub(crate) fn optional_end(first: NodeId, expression: &Option<ExpressionNode>) -> NodeId {
    match expression {
        None => first,
        Some(expression) => expression_end(first, expression),
    }
}

/// The number after the node of an argument of a print.
fn part_end(first: NodeId, part: &PartNode) -> NodeId {
    match part {
        PartNode::Value(value) => expression_end(first, value),
        PartNode::Text(_) => after(first),
    }
}

/// The number after the nodes of arguments of a print.
fn parts_end(first: NodeId, parts: &[PartNode]) -> NodeId {
    let mut end = first;
    for part in parts {
        end = part_end(end, part);
    }
    end
}

/// The number after `places` lvalues, each of which is a node.
pub(crate) fn places_end(first: NodeId, places: usize) -> NodeId {
    first.saturating_add(u32::try_from(places).unwrap_or(u32::MAX))
}

/// The number after the nodes of a simple statement.
pub(crate) fn simple_end(first: NodeId, simple: &SimpleNode) -> NodeId {
    let last = match simple {
        SimpleNode::Call(_, arguments) => values_end(first, arguments.values.as_slice()),
        SimpleNode::Close(channel) | SimpleNode::Receive(channel) => expression_end(first, channel),
        SimpleNode::Print(_, parts, _) => parts_end(first, parts.as_slice()),
        SimpleNode::Send(channel, value) => expression_end(expression_end(first, channel), value),
        SimpleNode::Increment(_) | SimpleNode::Decrement(_) => after(first),
        SimpleNode::Assign(places, right) => values_end(
            places_end(first, places.len()),
            right.as_slice(),
        ),
        SimpleNode::Define(_, right) => values_end(first, right.as_slice()),
        SimpleNode::Update(_, _, value) => expression_end(after(first), value),
    };
    after(last)
}

/// The number after the nodes of what a clause of a `select` waits for.
pub(crate) fn comm_end(first: NodeId, comm: &CommNode) -> NodeId {
    let last = match comm {
        CommNode::Send(channel, value) => expression_end(expression_end(first, channel), value),
        CommNode::Receive(channel) => expression_end(first, channel),
        CommNode::Define(_, _, channel) => after(expression_end(first, channel)),
        CommNode::Assign(_, None, channel) => after(expression_end(places_end(first, 1), channel)),
        CommNode::Assign(_, Some(_), channel) => {
            after(expression_end(places_end(first, 2), channel))
        }
    };
    after(last)
}

/// The number after the nodes of a `var` with a type, but for its own.
fn typed_end(first: NodeId, written: &TypeNode, right: &Option<Vec<ExpressionNode>>) -> NodeId {
    let start = type_end(first, written);
    match right {
        None => start,
        Some(right) => values_end(start, right.as_slice()),
    }
}

/// The number after the nodes of what a `return` gives.
fn returned_end(first: NodeId, returned: &ReturnNode) -> NodeId {
    match returned {
        ReturnNode::Nothing => first,
        ReturnNode::Value(value) => expression_end(first, value),
    }
}

/// The number after the nodes of a statement that holds no other.
pub(crate) fn leaf_end(first: NodeId, statement: &StatementNode) -> NodeId {
    match statement {
        StatementNode::Simple(simple) => simple_end(first, simple),
        StatementNode::Typed(_, written, right) => after(typed_end(first, written, right)),
        StatementNode::Untyped(_, right) => after(values_end(first, right.as_slice())),
        StatementNode::Go(_, arguments) => after(values_end(first, arguments.values.as_slice())),
        StatementNode::Return(returned) => after(returned_end(first, returned)),
        _ => after(first),
    }
}
