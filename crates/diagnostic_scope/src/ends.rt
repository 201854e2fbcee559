//! The numbers of the nodes at which parts of statements begin and end.

use crate::number::{comm_end, expression_end, optional_end, simple_end, type_end};
use crate::unit::{Walk, declared_end};
use std::alloc::Global;
use syntax::node::IfHeader;
use syntax::{
    ClauseNode, ForHeader, FunctionNode, IfNode, NodeId, SimpleNode, StatementNode, TopNode,
};

/// The number that no node has: a walk in search of it passes everything.
const NOWHERE: NodeId = NodeId::MAX;

/// The number after the nodes of a statement. The one before it is the statement's own.
pub fn statement_end(alloc: Global, first: NodeId, statement: &StatementNode) -> NodeId {
    let mut walk = Walk::new(alloc, NOWHERE, first);
    walk.pass_statement(statement);
    walk.end
}

/// The number after the nodes of a simple statement.
pub fn simple_statement_end(first: NodeId, simple: &SimpleNode) -> NodeId {
    simple_end(first, simple)
}

/// The number after the nodes of an `if`.
pub fn if_end(alloc: Global, first: NodeId, branch: &IfNode) -> NodeId {
    let mut walk = Walk::new(alloc, NOWHERE, first);
    walk.pass_if(branch);
    walk.end
}

/// The first node of the block of an `if`.
pub fn then_first(first: NodeId, branch: &IfNode) -> NodeId {
    let condition = match &branch.header {
        IfHeader::Bare | IfHeader::Semicolon => first,
        IfHeader::Simple(simple) => simple_end(first, simple),
    };
    expression_end(condition, &branch.condition)
}

/// The first node of what follows the block of an `if`.
pub fn else_first(alloc: Global, first: NodeId, branch: &IfNode) -> NodeId {
    let mut walk = Walk::new(alloc, NOWHERE, then_first(first, branch));
    walk.pass_block(branch.body.as_slice());
    walk.end
}

/// The first node of the body of a `for`.
pub fn loop_first(alloc: Global, first: NodeId, header: &ForHeader) -> NodeId {
    let mut walk = Walk::new(alloc, NOWHERE, first);
    walk.pass_header(header);
    walk.end
}

/// The first node of what a `for` does after each turn; of a `for` that does nothing there, of its body.
pub fn post_first(alloc: Global, first: NodeId, header: &ForHeader) -> NodeId {
    let ForHeader::Clauses(start, condition, _) = header else {
        return loop_first(alloc, first, header);
    };
    let middle = match start {
        None => first,
        Some(simple) => simple_end(first, simple),
    };
    optional_end(middle, condition)
}

/// The number after the nodes of a clause of a `select`.
pub fn clause_end(alloc: Global, first: NodeId, clause: &ClauseNode) -> NodeId {
    let mut walk = Walk::new(alloc, NOWHERE, first);
    walk.pass_clause(clause);
    walk.end
}

/// The first node of the statements of a `select`'s clause of this number, counted from 1 without the default, or of the
/// default's if the number is 0. If there is none, the number after all clauses.
pub fn clause_first(alloc: Global, first: NodeId, clauses: &[ClauseNode], number: usize) -> NodeId {
    let mut left = number;
    let mut start = first;
    for clause in clauses {
        match &clause.comm {
            None if number == 0 => return start,
            None => {}
            Some(comm) => {
                if left == 1 {
                    return comm_end(start, comm);
                }
                left = left.saturating_sub(1);
            }
        }
        start = clause_end(alloc, start, clause);
    }
    start
}

/// The own node of the `select`'s default of this number, counted from 1, if there is one.
pub fn default_node(
    alloc: Global,
    first: NodeId,
    clauses: &[ClauseNode],
    number: usize,
) -> Option<NodeId> {
    let mut left = number;
    let mut end = first;
    for clause in clauses {
        end = clause_end(alloc, end, clause);
        if clause.comm.is_none() {
            left = left.saturating_sub(1);
            if left == 0 {
                return Some(end.saturating_sub(1));
            }
        }
    }
    None
}

/// The first node of the body of a function.
pub fn function_first(first: NodeId, function: &FunctionNode) -> NodeId {
    let parameters = declared_end(first, function.parameters.as_slice());
    match &function.result {
        None => parameters,
        Some(written) => type_end(parameters, written),
    }
}

/// The number after the nodes of a declaration.
pub fn top_end(alloc: Global, first: NodeId, top: &TopNode) -> NodeId {
    let mut walk = Walk::new(alloc, NOWHERE, first);
    walk.pass_top(top);
    walk.end
}
