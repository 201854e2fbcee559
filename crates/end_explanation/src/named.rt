//! The channels that statements name.

use diagnostic_scope::operations::Operations;
use diagnostic_scope::unit::{Found, Unit};
use std::alloc::Global;
use syntax::{ClauseNode, ExpressionNode, NodeId, SimpleNode, StatementNode};

/// The channel that is sent to, received from or closed at a node of a unit, if the unit names it.
pub(crate) fn named_at<'a>(
    alloc: Global,
    found: Found<'a>,
    node: NodeId,
) -> Option<&'a ExpressionNode> {
    let operations = Operations::of(alloc, found);
    for operation in operations.list.as_slice() {
        if operation.node == node {
            return match operation.expression {
                ExpressionNode::Receive(channel) => Some(channel),
                _ => None,
            };
        }
    }
    named_by(found.unit)
}

/// The channel that a unit as a whole sends to, receives from or closes.
fn named_by(unit: Unit<'_>) -> Option<&ExpressionNode> {
    match unit {
        Unit::Simple(simple) | Unit::Leaf(StatementNode::Simple(simple)) => named_by_simple(simple),
        Unit::Range(_, channel) => Some(channel),
        _ => None,
    }
}

/// The channel that a simple statement as a whole sends to, receives from or closes.
fn named_by_simple(simple: &SimpleNode) -> Option<&ExpressionNode> {
    match simple {
        SimpleNode::Send(channel, _) => Some(channel),
        SimpleNode::Receive(channel) | SimpleNode::Close(channel) => Some(channel),
        _ => None,
    }
}

/// The clauses of a `select`.
pub(crate) fn clauses_of(unit: Unit<'_>) -> &[ClauseNode] {
    match unit {
        Unit::Select(clauses) => clauses,
        _ => &[],
    }
}
