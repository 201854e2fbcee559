//! Parts of expressions, by their nodes.

use crate::number::{after, type_end};
use syntax::{ExpressionNode, Name, NodeId, TypeNode};

/// A value that a literal gives a field.
#[derive(Clone, Copy)]
pub struct Filled<'a> {
    /// The literal's type.
    pub literal: &'a Name,
    /// The field's number.
    pub index: usize,
    pub value: &'a ExpressionNode,
}

/// A walk past the nodes of an expression, in the order of their numbers, in search of one of them.
#[derive(Drop)]
struct Search<'a> {
    node: NodeId,
    /// The number after the nodes that were passed.
    end: NodeId,
    /// The part whose own node it is, once that was passed.
    part: Option<&'a ExpressionNode>,
    /// The part again, if a literal gives it to a field.
    filled: Option<Filled<'a>>,
}

impl<'a> Search<'a> {
    /// A search of an expression, whose nodes have numbers from `first` on.
    fn of(node: NodeId, first: NodeId, expression: &'a ExpressionNode) -> Search<'a> {
        let mut search = Search {
            node,
            end: first,
            part: None,
            filled: None,
        };
        search.pass(expression);
        search
    }

    /// Passes an expression.
    #[cycle(search)]
    fn pass(&mut self, expression: &'a ExpressionNode) {
        match expression {
            ExpressionNode::Integer(_) | ExpressionNode::Named(_) => {}
            ExpressionNode::Parenthesized(inner)
            | ExpressionNode::Selection(inner, _)
            | ExpressionNode::Unary(_, inner)
            | ExpressionNode::Receive(inner)
            | ExpressionNode::Length(inner)
            | ExpressionNode::Capacity(inner) => self.pass(inner),
            ExpressionNode::Composite(name, values, _) => self.pass_all(name, values.as_slice()),
            ExpressionNode::Call(_, values, _) => self.pass_arguments(values.as_slice()),
            ExpressionNode::Binary(_, left, right) => {
                self.pass(left);
                self.pass(right);
            }
            ExpressionNode::Make(written) => self.pass_type(written),
            ExpressionNode::MakeSized(written, size) => {
                self.pass_type(written);
                self.pass(size);
            }
        }
        self.pass_own(expression);
    }

    /// Passes the values of a literal of this type.
    #[cycle(search)]
    fn pass_all(&mut self, literal: &'a Name, values: &'a [ExpressionNode]) {
        for (index, value) in values.iter().enumerate() {
            self.pass(value);
            self.fill(literal, index, value);
        }
    }

    /// Passes the arguments of a call.
    #[cycle(search)]
    fn pass_arguments(&mut self, values: &'a [ExpressionNode]) {
        for value in values {
            self.pass(value);
        }
    }

    /// Passes a type.
    fn pass_type(&mut self, written: &TypeNode) {
        self.end = type_end(self.end, written);
    }

    /// Passes the own node of an expression, whose other nodes were passed.
    fn pass_own(&mut self, expression: &'a ExpressionNode) {
        if self.end == self.node && self.part.is_none() {
            self.part = Some(expression);
        }
        self.end = after(self.end);
    }

    /// Keeps a value that was just passed, if it is what is sought.
    fn fill(&mut self, literal: &'a Name, index: usize, value: &'a ExpressionNode) {
        if self.end == after(self.node) && self.filled.is_none() {
            self.filled = Some(Filled {
                literal,
                index,
                value,
            });
        }
    }
}

/// The part of an expression whose own node this is.
pub fn part_at<'a>(
    node: NodeId,
    first: NodeId,
    expression: &'a ExpressionNode,
) -> Option<&'a ExpressionNode> {
    Search::of(node, first, expression).part
}

/// The literal within an expression that gives a field the value whose own node this is.
pub fn filled_at<'a>(
    node: NodeId,
    first: NodeId,
    expression: &'a ExpressionNode,
) -> Option<Filled<'a>> {
    Search::of(node, first, expression).filled
}
