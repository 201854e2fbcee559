//! The nodes of a tree that a task belongs to.

use diagnostic_scope::ends::{if_end, simple_statement_end, statement_end};
use std::alloc::Global;
use syntax::{ClauseNode, ForHeader, IfNode, NodeId, SimpleNode, StatementNode};

/// The part of a statement that says which nodes the statements within it have.
#[derive(Clone, Copy)]
pub(crate) enum Inside<'t> {
    /// It has none.
    Nothing,
    If(&'t IfNode),
    For(&'t ForHeader),
    Select(&'t [ClauseNode]),
}

/// The statement that a task is, or is a part of.
#[derive(Clone, Copy)]
pub struct Site<'t> {
    /// The first of its nodes.
    pub first: NodeId,
    /// Its own node, which is the last one.
    pub node: NodeId,
    pub(crate) inside: Inside<'t>,
}

impl<'t> Site<'t> {
    /// What begins at the node `first`, and has no statements of its own.
    pub(crate) fn at(first: NodeId) -> Site<'t> {
        Site {
            first,
            node: first,
            inside: Inside::Nothing,
        }
    }

    /// A part of the tree from its first node to before the node `end`.
    fn before(first: NodeId, end: NodeId, inside: Inside<'t>) -> Site<'t> {
        Site {
            first,
            node: end.saturating_sub(1),
            inside,
        }
    }

    /// A statement.
    pub(crate) fn of_statement(
        alloc: Global,
        first: NodeId,
        statement: &'t StatementNode,
    ) -> Site<'t> {
        let inside = match statement {
            StatementNode::If(branch) => Inside::If(branch),
            StatementNode::For(header, _) => Inside::For(header),
            StatementNode::Select(clauses) => Inside::Select(clauses.as_slice()),
            _ => Inside::Nothing,
        };
        Site::before(first, statement_end(alloc, first, statement), inside)
    }

    /// A simple statement.
    pub(crate) fn of_simple(first: NodeId, simple: &'t SimpleNode) -> Site<'t> {
        Site::before(first, simple_statement_end(first, simple), Inside::Nothing)
    }

    /// An `if`.
    pub(crate) fn of_if(alloc: Global, first: NodeId, branch: &'t IfNode) -> Site<'t> {
        Site::before(first, if_end(alloc, first, branch), Inside::If(branch))
    }

    /// The number after its nodes.
    pub(crate) fn end(self) -> NodeId {
        self.node.saturating_add(1)
    }
}
