//! The part of a file that a node is in.

use crate::ends::function_first;
use crate::number::{after, comm_end, expression_end, leaf_end, simple_end, type_end};
use std::alloc::Global;
use syntax::{
    ClauseNode, CommNode, DeclaredNode, ElseNode, ExpressionNode, FileNode, ForHeader,
    FunctionNode, IfHeader, IfNode, NodeId, RangeTarget, SimpleNode, StatementNode, StructNode,
    TopNode,
};

/// A part of a file that holds no statements, or one that does without them.
#[derive(Clone, Copy)]
pub enum Unit<'a> {
    /// A simple statement in the header of another one.
    Simple(&'a SimpleNode),
    /// A statement that holds no other.
    Leaf(&'a StatementNode),
    /// The condition of an `if` or, if the first is true, of a `for`.
    Condition(bool, &'a ExpressionNode),
    Range(&'a RangeTarget, &'a ExpressionNode),
    /// What a clause of a `select` waits for.
    Comm(&'a CommNode),
    /// A `select`, by its clauses.
    Select(&'a [ClauseNode]),
    /// A declaration of a struct type.
    Struct(&'a StructNode),
    /// A function, but for its statements.
    Head(&'a FunctionNode),
}

/// A unit, and the first of its nodes.
#[derive(Clone, Copy)]
pub struct Found<'a> {
    pub first: NodeId,
    pub unit: Unit<'a>,
}

/// A walk past the nodes of a file, in the order of their numbers, in search of the units that hold one of them.
#[derive(Drop)]
pub struct Walk<'a> {
    node: NodeId,
    /// The number after the nodes that were passed.
    pub end: NodeId,
    /// The units that hold the node, the innermost first, of those that were passed.
    pub found: Vec<Found<'a>>,
    /// Whether a unit is missing, since a request for memory was refused.
    pub is_cut: bool,
}

impl<'a> Walk<'a> {
    /// A walk that begins before the node `first`.
    pub(crate) fn new(alloc: Global, node: NodeId, first: NodeId) -> Walk<'a> {
        Walk {
            node,
            end: first,
            found: Vec::new(alloc),
            is_cut: false,
        }
    }

    /// Passes a node that is none of a unit.
    fn pass_node(&mut self) {
        self.end = after(self.end);
    }

    /// Passes a unit, whose nodes have the numbers from `first` to before `end`, and keeps it if it holds the node.
    fn pass(&mut self, first: NodeId, end: NodeId, unit: Unit<'a>) {
        self.end = end;
        if first <= self.node && self.node < end {
            self.is_cut |= self.found.push(Found { first, unit }).is_err();
        }
    }

    /// Passes a simple statement.
    fn pass_simple(&mut self, simple: &'a SimpleNode) {
        self.pass(self.end, simple_end(self.end, simple), Unit::Simple(simple));
    }

    /// Passes a simple statement that may be left out.
    fn pass_optional(&mut self, simple: &'a Option<SimpleNode>) {
        if let Some(simple) = simple {
            self.pass_simple(simple);
        }
    }

    /// Passes a condition; `in_for` says whether it is that of a `for`.
    fn pass_condition(&mut self, in_for: bool, condition: &'a ExpressionNode) {
        let end = expression_end(self.end, condition);
        self.pass(self.end, end, Unit::Condition(in_for, condition));
    }

    /// Passes the head of a range.
    fn pass_range(&mut self, target: &'a RangeTarget, source: &'a ExpressionNode) {
        let start = match target {
            RangeTarget::Nothing | RangeTarget::Define(_) => self.end,
            RangeTarget::Assign(_) => after(self.end),
        };
        let end = expression_end(start, source);
        self.pass(self.end, end, Unit::Range(target, source));
    }

    /// Passes what is between a `for` and its block.
    pub(crate) fn pass_header(&mut self, header: &'a ForHeader) {
        match header {
            ForHeader::Forever => {}
            ForHeader::While(condition) => self.pass_condition(true, condition),
            ForHeader::Clauses(one, condition, post) => {
                self.pass_optional(one);
                if let Some(condition) = condition {
                    self.pass_condition(true, condition);
                }
                self.pass_optional(post);
            }
            ForHeader::Range(target, source) => self.pass_range(target, source),
        }
    }

    /// Passes a `for`, whose own node stands for its range.
    #[cycle(statement)]
    fn pass_for(&mut self, header: &'a ForHeader, body: &'a [StatementNode]) {
        let first = self.end;
        self.pass_header(header);
        self.pass_block(body);
        match header {
            ForHeader::Range(target, source) => {
                self.pass(first, after(self.end), Unit::Range(target, source));
            }
            _ => self.pass_node(),
        }
    }

    /// Passes an `if`.
    #[cycle(statement)]
    pub(crate) fn pass_if(&mut self, branch: &'a IfNode) {
        if let IfHeader::Simple(simple) = &branch.header {
            self.pass_simple(simple);
        }
        self.pass_condition(false, &branch.condition);
        self.pass_block(branch.body.as_slice());
        match &branch.otherwise {
            ElseNode::Nothing => {}
            ElseNode::Block(body) => self.pass_block(body.as_slice()),
            ElseNode::If(other) => self.pass_if(other),
        }
        self.pass_node();
    }

    /// Passes a clause of a `select`.
    #[cycle(statement)]
    pub(crate) fn pass_clause(&mut self, clause: &'a ClauseNode) {
        if let Some(comm) = &clause.comm {
            self.pass(self.end, comm_end(self.end, comm), Unit::Comm(comm));
        }
        self.pass_block(clause.body.as_slice());
    }

    /// Passes a `select`, whose own node stands for its clauses.
    #[cycle(statement)]
    fn pass_select(&mut self, clauses: &'a [ClauseNode]) {
        let first = self.end;
        for clause in clauses {
            self.pass_clause(clause);
        }
        self.pass(first, after(self.end), Unit::Select(clauses));
    }

    /// Passes a statement.
    #[cycle(statement)]
    pub(crate) fn pass_statement(&mut self, statement: &'a StatementNode) {
        match statement {
            StatementNode::Block(body) => {
                self.pass_block(body.as_slice());
                self.pass_node();
            }
            StatementNode::If(branch) => self.pass_if(branch),
            StatementNode::For(header, body) => self.pass_for(header, body.as_slice()),
            StatementNode::Select(clauses) => self.pass_select(clauses.as_slice()),
            _ => {
                let end = leaf_end(self.end, statement);
                self.pass(self.end, end, Unit::Leaf(statement));
            }
        }
    }

    /// Passes statements and the node of their block.
    #[cycle(statement)]
    pub(crate) fn pass_block(&mut self, body: &'a [StatementNode]) {
        for statement in body {
            self.pass_statement(statement);
        }
        self.pass_node();
    }

    /// Passes a function. What is wrong with it as a whole is reported at its last node.
    fn pass_function(&mut self, function: &'a FunctionNode) {
        let first = self.end;
        self.pass(first, function_first(first, function), Unit::Head(function));
        self.pass_block(function.body.as_slice());
        self.pass(first, after(self.end), Unit::Head(function));
    }

    /// Passes a declaration of a file.
    pub(crate) fn pass_top(&mut self, top: &'a TopNode) {
        match top {
            TopNode::Struct(one) => {
                let end = after(declared_end(self.end, one.fields.as_slice()));
                self.pass(self.end, end, Unit::Struct(one));
            }
            TopNode::Function(function) => self.pass_function(function),
        }
    }
}

/// The number after the nodes of fields or parameters.
pub fn declared_end(first: NodeId, declared: &[DeclaredNode]) -> NodeId {
    let mut end = first;
    for one in declared {
        end = after(type_end(end, &one.type_node));
    }
    end
}

/// The fields or parameters among these whose nodes, which have numbers from `first` on, have this one among them.
pub fn declared_at<'a>(
    node: NodeId,
    first: NodeId,
    declared: &'a [DeclaredNode],
) -> Option<&'a DeclaredNode> {
    let mut end = first;
    for one in declared {
        end = after(type_end(end, &one.type_node));
        if node < end {
            return Some(one);
        }
    }
    None
}

/// The units of a file that hold a node.
pub fn units_at<'a>(alloc: Global, file: &'a FileNode, node: NodeId) -> Walk<'a> {
    let mut walk = Walk::new(alloc, node, 0);
    for top in file.tops.as_slice() {
        walk.pass_top(top);
    }
    walk
}
