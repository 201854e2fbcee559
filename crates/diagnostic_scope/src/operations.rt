//! The operations of a unit: the parts of it at which a goroutine can be.

use crate::ends::clause_end;
use crate::number::{after, places_end, type_end};
use crate::unit::{Found, Unit};
use std::alloc::Global;
use syntax::{
    BinaryOperator, ClauseNode, CommNode, ExpressionNode, NodeId, PartNode, RangeTarget,
    ReturnNode, SimpleNode, StatementNode, TypeNode,
};

/// A part of an expression at which a goroutine can be: a call, a receive, a `make`, a `len` or a `cap`, or a division or a
/// shift that is not constant.
#[derive(Clone, Copy)]
pub struct Operation<'a> {
    /// Its own node.
    pub node: NodeId,
    pub expression: &'a ExpressionNode,
}

/// The operations of a unit.
#[derive(Drop)]
pub struct Operations<'a> {
    /// The operations in the order of their nodes, which is the order in which they are done. What the unit does as a whole comes
    /// after them.
    pub list: Vec<Operation<'a>>,
    /// Whether an operation is missing, since a request for memory was refused.
    pub is_cut: bool,
    /// The number after the nodes that were passed.
    end: NodeId,
}

impl<'a> Operations<'a> {
    /// The operations of a unit.
    pub fn of(alloc: Global, found: Found<'a>) -> Operations<'a> {
        let mut operations = Operations {
            list: Vec::new(alloc),
            is_cut: false,
            end: found.first,
        };
        operations.pass_unit(alloc, found.unit);
        operations
    }

    /// Passes a unit.
    fn pass_unit(&mut self, alloc: Global, unit: Unit<'a>) {
        match unit {
            Unit::Simple(simple) => self.pass_simple(simple),
            Unit::Leaf(statement) => self.pass_leaf(statement),
            Unit::Condition(_, condition) => self.pass(condition),
            Unit::Range(target, source) => self.pass_range(target, source),
            Unit::Comm(comm) => self.pass_comm(comm),
            Unit::Select(clauses) => self.pass_clauses(alloc, clauses),
            Unit::Struct(_) | Unit::Head(_) => {}
        }
    }

    /// Passes an expression.
    #[cycle(operations)]
    fn pass(&mut self, expression: &'a ExpressionNode) {
        match expression {
            ExpressionNode::Integer(_) | ExpressionNode::Named(_) => {}
            ExpressionNode::Parenthesized(inner)
            | ExpressionNode::Selection(inner, _)
            | ExpressionNode::Unary(_, inner)
            | ExpressionNode::Receive(inner)
            | ExpressionNode::Length(inner)
            | ExpressionNode::Capacity(inner) => self.pass(inner),
            ExpressionNode::Composite(_, values, _) | ExpressionNode::Call(_, values, _) => {
                self.pass_all(values.as_slice());
            }
            ExpressionNode::Binary(_, left, right) => {
                self.pass(left);
                self.pass(right);
            }
            ExpressionNode::Make(written) => self.pass_type(written),
            ExpressionNode::MakeSized(written, size) => {
                self.pass_type(written);
                self.pass(size);
            }
        }
        self.pass_own(expression);
    }

    /// Passes expressions.
    #[cycle(operations)]
    fn pass_all(&mut self, values: &'a [ExpressionNode]) {
        for value in values {
            self.pass(value);
        }
    }

    /// Passes the own node of an expression, whose other nodes were passed, and keeps it if it is an operation.
    fn pass_own(&mut self, expression: &'a ExpressionNode) {
        if is_operation(expression) {
            let node = self.end;
            let kept = self.list.push(Operation { node, expression });
            self.is_cut |= kept.is_err();
        }
        self.pass_node();
    }

    /// Passes a node that is no operation.
    fn pass_node(&mut self) {
        self.end = after(self.end);
    }

    /// Passes a type.
    fn pass_type(&mut self, written: &TypeNode) {
        self.end = type_end(self.end, written);
    }

    /// Passes the nodes of lvalues.
    fn pass_places(&mut self, places: usize) {
        self.end = places_end(self.end, places);
    }

    /// Passes an argument of a print.
    fn pass_part(&mut self, part: &'a PartNode) {
        match part {
            PartNode::Value(value) => self.pass(value),
            PartNode::Text(_) => self.pass_node(),
        }
    }

    /// Passes a simple statement, except its own node.
    fn pass_simple(&mut self, simple: &'a SimpleNode) {
        match simple {
            SimpleNode::Call(_, arguments) => self.pass_all(arguments.values.as_slice()),
            SimpleNode::Close(channel) | SimpleNode::Receive(channel) => self.pass(channel),
            SimpleNode::Print(_, parts, _) => {
                for part in parts.as_slice() {
                    self.pass_part(part);
                }
            }
            SimpleNode::Send(channel, value) => {
                self.pass(channel);
                self.pass(value);
            }
            SimpleNode::Increment(_) | SimpleNode::Decrement(_) => {}
            SimpleNode::Assign(places, right) => {
                self.pass_places(places.len());
                self.pass_all(right.as_slice());
            }
            SimpleNode::Define(_, right) => self.pass_all(right.as_slice()),
            SimpleNode::Update(_, _, value) => {
                self.pass_places(1);
                self.pass(value);
            }
        }
    }

    /// Passes a statement that holds no other, except its own node.
    fn pass_leaf(&mut self, statement: &'a StatementNode) {
        match statement {
            StatementNode::Simple(simple) => self.pass_simple(simple),
            StatementNode::Typed(_, written, right) => {
                self.pass_type(written);
                if let Some(right) = right {
                    self.pass_all(right.as_slice());
                }
            }
            StatementNode::Untyped(_, right) => self.pass_all(right.as_slice()),
            StatementNode::Go(_, arguments) => self.pass_all(arguments.values.as_slice()),
            StatementNode::Return(ReturnNode::Value(value)) => self.pass(value),
            _ => {}
        }
    }

    /// Passes the head of a range.
    fn pass_range(&mut self, target: &'a RangeTarget, source: &'a ExpressionNode) {
        match target {
            RangeTarget::Nothing | RangeTarget::Define(_) => {}
            RangeTarget::Assign(_) => self.pass_places(1),
        }
        self.pass(source);
    }

    /// Passes what a clause of a `select` waits for, except what it does itself.
    fn pass_comm(&mut self, comm: &'a CommNode) {
        match comm {
            CommNode::Send(channel, value) => {
                self.pass(channel);
                self.pass(value);
            }
            CommNode::Receive(channel) | CommNode::Define(_, _, channel) => self.pass(channel),
            CommNode::Assign(_, second, channel) => {
                self.pass_places(if second.is_some() { 2 } else { 1 });
                self.pass(channel);
            }
        }
    }

    /// Passes the clauses of a `select`.
    fn pass_clauses(&mut self, alloc: Global, clauses: &'a [ClauseNode]) {
        for clause in clauses {
            let end = clause_end(alloc, self.end, clause);
            if let Some(comm) = &clause.comm {
                self.pass_comm(comm);
            }
            self.end = end;
        }
    }
}

/// Whether an expression does something as a whole at which a goroutine can be.
fn is_operation(expression: &ExpressionNode) -> bool {
    match expression {
        ExpressionNode::Call(_, _, _)
        | ExpressionNode::Receive(_)
        | ExpressionNode::Make(_)
        | ExpressionNode::MakeSized(_, _)
        | ExpressionNode::Length(_)
        | ExpressionNode::Capacity(_) => true,
        ExpressionNode::Binary(
            BinaryOperator::Divide
            | BinaryOperator::Remainder
            | BinaryOperator::ShiftLeft
            | BinaryOperator::ShiftRight,
            _,
            _,
        ) => !is_constant(expression),
        _ => false,
    }
}

/// Whether an expression that gives a number is constant.
fn is_constant(expression: &ExpressionNode) -> bool {
    match expression {
        ExpressionNode::Integer(_) => true,
        ExpressionNode::Parenthesized(inner) | ExpressionNode::Unary(_, inner) => is_constant(
            inner,
        ),
        ExpressionNode::Binary(_, left, right) => is_constant(left) && is_constant(right),
        _ => false,
    }
}
