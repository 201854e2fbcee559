//! The operation at which the next task of a function is.

use crate::callee::Operands;
use crate::site::{Inside, Site};
use diagnostic_scope::ends::simple_statement_end;
use diagnostic_scope::operations::{Operation, Operations};
use diagnostic_scope::unit::{Found, Unit};
use go_text::Memory;
use reference_scope::scope::Scope;
use reference_scope::words::{settled, word_in};
use reference_task::task::{Frame, Loop, Task};
use reference_value::fault::Stop;
use reference_value::given::Given;
use reference_value::value::value;
use std::alloc::Global;
use syntax::{BinaryOperator, ExpressionNode, ForHeader, IfHeader, NodeId, StatementNode};
use type_table::table::TypeTable;

/// A part of an expression at which a goroutine can be.
#[derive(Clone, Copy, PartialEq, Eq)]
enum Kind {
    /// A call or a request.
    Needs,
    /// A division or a shift, which may panic.
    Applies,
}

/// A walk over the expressions of a task in the order in which they are evaluated, in search of the operation that stops it.
#[derive(Drop)]
struct Search<'a, 'g, 't> {
    alloc: Global,
    table: &'a TypeTable<'t>,
    scope: &'a Scope<'t>,
    /// What calls and requests gave, except to the operations that were passed.
    given: &'g [Given],
    operations: &'a [Operation<'t>],
    /// How many of the operations were passed.
    passed: usize,
    /// Whether what is passed is not evaluated, after an `&&` or an `||`.
    skips: bool,
    /// The own node of the operation that stops the walk, once that was passed.
    found: Option<NodeId>,
    /// Whether a request for memory was refused.
    is_cut: bool,
}

/// The own node of the operation that the next task of a function is at, which is at `site`, if calls and requests within the task have
/// given this. If no operation of its expressions is left to be done, the own node of the site.
///
/// Errors: out of memory.
pub(crate) fn operation_at<'t>(
    alloc: Global,
    table: &TypeTable<'t>,
    top: &Frame<'t>,
    site: Site<'t>,
    given: &[Given],
) -> Result<NodeId, Memory> {
    let Some(task) = top.position.tasks.last() else {
        return Ok(site.node);
    };
    let Some(found) = unit_of(task, site) else {
        return Ok(site.node);
    };
    let operations = Operations::of(alloc, found);
    let operands = Operands::of(alloc, task)?;
    if operations.is_cut {
        return Err(Memory);
    }
    let mut search = Search {
        alloc,
        table,
        scope: &top.position.scope,
        given,
        operations: operations.list.as_slice(),
        passed: 0,
        skips: false,
        found: None,
        is_cut: false,
    };
    for operand in operands.list.iter() {
        search.pass(operand);
    }
    if search.is_cut {
        return Err(Memory);
    }
    Ok(search.found.unwrap_or(site.node))
}

/// The unit that a task evaluates, and the first of its nodes.
fn unit_of<'t>(task: &Task<'t>, site: Site<'t>) -> Option<Found<'t>> {
    let first = site.first;
    match task {
        Task::Do(statement) => Some(Found {
            first,
            unit: unit_of_statement(**statement),
        }),
        Task::Simply(simple) => Some(Found {
            first,
            unit: Unit::Simple(**simple),
        }),
        Task::Decide(branch) => Some(Found {
            first: condition_first(site),
            unit: Unit::Condition(false, &branch.condition),
        }),
        Task::Head(Loop::Repeating(repeat)) => Some(Found {
            first: condition_first(site),
            unit: Unit::Condition(true, repeat.condition?),
        }),
        _ => None,
    }
}

/// The unit of a statement, except for the statements within it.
fn unit_of_statement(statement: &StatementNode) -> Unit<'_> {
    match statement {
        StatementNode::For(ForHeader::Range(target, channel), _) => Unit::Range(target, channel),
        StatementNode::Select(clauses) => Unit::Select(clauses.as_slice()),
        _ => Unit::Leaf(statement),
    }
}

/// The first node of the condition of an `if` or a `for`.
fn condition_first(site: Site<'_>) -> NodeId {
    match site.inside {
        Inside::If(branch) => match &branch.header {
            IfHeader::Simple(simple) => simple_statement_end(site.first, simple),
            IfHeader::Bare | IfHeader::Semicolon => site.first,
        },
        Inside::For(ForHeader::Clauses(Some(simple), _, _)) => {
            simple_statement_end(site.first, simple)
        }
        _ => site.first,
    }
}

impl<'a, 'g, 't> Search<'a, 'g, 't> {
    /// Passes an expression.
    #[cycle(search)]
    fn pass(&mut self, expression: &'t ExpressionNode) {
        let given = self.given;
        match expression {
            ExpressionNode::Integer(_) | ExpressionNode::Named(_) | ExpressionNode::Make(_) => {}
            ExpressionNode::Parenthesized(inner)
            | ExpressionNode::Selection(inner, _)
            | ExpressionNode::Unary(_, inner)
            | ExpressionNode::Receive(inner)
            | ExpressionNode::Length(inner)
            | ExpressionNode::Capacity(inner)
            | ExpressionNode::MakeSized(_, inner) => self.pass(inner),
            ExpressionNode::Composite(_, values, _) | ExpressionNode::Call(_, values, _) => {
                self.pass_all(values.as_slice());
            }
            ExpressionNode::Binary(operator, left, right) => {
                self.pass(left);
                let skips = self.skips;
                self.skips = skips || self.is_settled(*operator, left, given);
                self.pass(right);
                self.skips = skips;
            }
        }
        self.pass_own(expression, given);
    }

    /// Passes expressions.
    #[cycle(search)]
    fn pass_all(&mut self, values: &'t [ExpressionNode]) {
        for value in values {
            self.pass(value);
        }
    }

    /// Whether the left operand of an `&&` or an `||`, whose operations were given this, settles it.
    fn is_settled(
        &mut self,
        operator: BinaryOperator,
        left: &'t ExpressionNode,
        given: &'g [Given],
    ) -> bool {
        let is_logical = matches!(
            operator,
            BinaryOperator::LogicalAnd | BinaryOperator::LogicalOr
        );
        if !is_logical || self.found.is_some() {
            return false;
        }
        match value(self.alloc, self.table, self.scope, left, given) {
            Ok((words, _)) => settled(operator, word_in(words.as_slice())).is_some(),
            Err(stop) => {
                self.note(&stop);
                false
            }
        }
    }

    /// Notes whether an evaluation stopped since a request for memory was refused.
    fn note(&mut self, stop: &Stop) {
        self.is_cut |= matches!(stop, Stop::Memory);
    }

    /// Passes the own node of an expression, whose other nodes were passed when `given` was given.
    fn pass_own(&mut self, expression: &'t ExpressionNode, given: &'g [Given]) {
        let Some(kind) = kind_of(expression) else {
            return;
        };
        let Some(operation) = self.operations.get(self.passed) else {
            return;
        };
        let node = operation.node;
        self.passed = self.passed.saturating_add(1);
        if self.skips || self.found.is_some() {
            return;
        }
        match kind {
            Kind::Needs => self.take(node),
            Kind::Applies => self.apply(node, expression, given),
        }
    }

    /// Passes a call or a request, which takes what it gave, if it has given something.
    fn take(&mut self, node: NodeId) {
        match self.given.split_first() {
            Some((_, rest)) => self.given = rest,
            None => self.found = Some(node),
        }
    }

    /// Passes a division or a shift.
    fn apply(&mut self, node: NodeId, expression: &'t ExpressionNode, given: &'g [Given]) {
        match value(self.alloc, self.table, self.scope, expression, given) {
            Ok(_) => {}
            Err(stop) => {
                self.note(&stop);
                self.found = Some(node);
            }
        }
    }
}

/// What an expression does as a whole at which a goroutine can be, as in `Operations`.
fn kind_of(expression: &ExpressionNode) -> Option<Kind> {
    match expression {
        ExpressionNode::Call(_, _, _)
        | ExpressionNode::Receive(_)
        | ExpressionNode::Make(_)
        | ExpressionNode::MakeSized(_, _)
        | ExpressionNode::Length(_)
        | ExpressionNode::Capacity(_) => Some(Kind::Needs),
        ExpressionNode::Binary(
            BinaryOperator::Divide
            | BinaryOperator::Remainder
            | BinaryOperator::ShiftLeft
            | BinaryOperator::ShiftRight,
            _,
            _,
        ) if !is_constant(expression) => Some(Kind::Applies),
        _ => None,
    }
}

/// Whether an expression that gives a number is constant.
fn is_constant(expression: &ExpressionNode) -> bool {
    match expression {
        ExpressionNode::Integer(_) => true,
        ExpressionNode::Parenthesized(inner) | ExpressionNode::Unary(_, inner) => is_constant(
            inner,
        ),
        ExpressionNode::Binary(_, left, right) => is_constant(left) && is_constant(right),
        _ => false,
    }
}
