//! The function that a goroutine calls.

use go_text::Memory;
use reference_task::program::Program;
use reference_task::task::{Frame, Loop, Task};
use reference_value::fault::Stop;
use reference_value::given::Need;
use reference_value::value::value;
use std::alloc::Global;
use syntax::{
    ClauseNode, CommNode, ExpressionNode, ForHeader, IfNode, Name, PartNode, ReturnNode,
    SimpleNode, StatementNode,
};

/// What a task evaluates, in order, and the function that it calls then.
#[derive(Drop)]
pub(crate) struct Operands<'t> {
    pub list: Vec<&'t ExpressionNode>,
    called: Option<&'t Name>,
}

/// The number of the function that the next task of a function calls; none if it calls none.
///
/// Errors: out of memory.
pub(crate) fn callee<'t>(
    alloc: Global,
    program: &Program<'t>,
    top: &Frame<'t>,
) -> Result<Option<u32>, Memory> {
    let Some(task) = top.position.tasks.last() else {
        return Ok(None);
    };
    let operands = Operands::of(alloc, task)?;
    let mut given = top.given.as_slice();
    for operand in operands.list.iter() {
        match value(alloc, &program.table, &top.position.scope, *operand, given) {
            Ok((_, left)) => given = left,
            Err(stop) => return called_within(stop),
        }
    }
    Ok(match operands.called {
        Some(name) => Some(program.number_of(name.bytes.as_slice())),
        None => None,
    })
}

/// The number of the function that has to be called before evaluating goes on; none if none has to.
fn called_within(stop: Stop) -> Result<Option<u32>, Memory> {
    match stop {
        Stop::Memory => Err(Memory),
        Stop::Panics(_) => Ok(None),
        Stop::Needs(need) => match Box::into_inner(need) {
            Need::Calling(number, _) => Ok(u32::try_from(number).ok()),
            Need::Asking(_) => Ok(None),
        },
    }
}

impl<'t> Operands<'t> {
    /// The operands of a task.
    ///
    /// Errors: out of memory.
    pub(crate) fn of(alloc: Global, task: &Task<'t>) -> Result<Operands<'t>, Memory> {
        let mut operands = Operands {
            list: Vec::new(alloc),
            called: None,
        };
        match task {
            Task::Do(one) => operands.add_statement(**one)?,
            Task::Simply(one) => operands.add_simple(**one)?,
            Task::Decide(one) => operands.add_branch(**one)?,
            Task::Head(Loop::Repeating(repeat)) => operands.add_condition(repeat.condition)?,
            _ => {}
        }
        Ok(operands)
    }

    /// Adds an expression.
    fn add(&mut self, expression: &'t ExpressionNode) -> Result<(), Memory> {
        self.list.push(expression)?;
        Ok(())
    }

    /// Adds expressions.
    fn add_all(&mut self, expressions: &'t [ExpressionNode]) -> Result<(), Memory> {
        for expression in expressions {
            self.add(expression)?;
        }
        Ok(())
    }

    /// Adds the condition of an `if`.
    fn add_branch(&mut self, branch: &'t IfNode) -> Result<(), Memory> {
        self.add(&branch.condition)
    }

    /// Adds a condition, if there is one.
    fn add_condition(&mut self, condition: Option<&'t ExpressionNode>) -> Result<(), Memory> {
        match condition {
            Some(condition) => self.add(condition),
            None => Ok(()),
        }
    }

    /// Adds what a statement evaluates.
    fn add_statement(&mut self, statement: &'t StatementNode) -> Result<(), Memory> {
        match statement {
            StatementNode::Simple(simple) => self.add_simple(simple),
            StatementNode::Typed(_, _, Some(right)) => self.add_all(right.as_slice()),
            StatementNode::Untyped(_, right) => self.add_all(right.as_slice()),
            StatementNode::For(ForHeader::Range(_, channel), _) => self.add(channel),
            StatementNode::Select(clauses) => self.add_clauses(clauses.as_slice()),
            StatementNode::Go(_, arguments) => self.add_all(arguments.values.as_slice()),
            StatementNode::Return(ReturnNode::Value(returned)) => self.add(returned),
            _ => Ok(()),
        }
    }

    /// Adds what a simple statement evaluates, and the function that it calls.
    fn add_simple(&mut self, simple: &'t SimpleNode) -> Result<(), Memory> {
        match simple {
            SimpleNode::Call(name, arguments) => {
                self.called = Some(name);
                self.add_all(arguments.values.as_slice())
            }
            SimpleNode::Close(channel) | SimpleNode::Receive(channel) => self.add(channel),
            SimpleNode::Print(_, parts, _) => self.add_parts(parts.as_slice()),
            SimpleNode::Send(channel, item) => {
                self.add(channel)?;
                self.add(item)
            }
            SimpleNode::Increment(_) | SimpleNode::Decrement(_) => Ok(()),
            SimpleNode::Assign(_, right) => self.add_all(right.as_slice()),
            SimpleNode::Define(_, right) => self.add_all(right.as_slice()),
            SimpleNode::Update(_, _, operand) => self.add(operand),
        }
    }

    /// Adds what a print evaluates.
    fn add_parts(&mut self, parts: &'t [PartNode]) -> Result<(), Memory> {
        for part in parts {
            if let PartNode::Value(expression) = part {
                self.add(expression)?;
            }
        }
        Ok(())
    }

    /// Adds what the clauses of a select evaluate.
    fn add_clauses(&mut self, clauses: &'t [ClauseNode]) -> Result<(), Memory> {
        for clause in clauses {
            match &clause.comm {
                Some(CommNode::Send(channel, item)) => {
                    self.add(channel)?;
                    self.add(item)?;
                }
                Some(
                    CommNode::Receive(channel)
                    | CommNode::Define(_, _, channel)
                    | CommNode::Assign(_, _, channel),
                ) => self.add(channel)?,
                None => {}
            }
        }
        Ok(())
    }
}
