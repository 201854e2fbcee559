//! Goroutines that are about to end.

use reference_task::task::{Frame, Task};
use reference_value::given::Given;
use syntax::{ExpressionNode, ReturnNode, SimpleNode, StatementNode};
use word::request::Reply;

/// Whether a goroutine makes no request before it ends: each of its functions goes straight on to its end. `frames` are its functions, the
/// one called last at the end.
pub(crate) fn is_ending(frames: &[Frame<'_>]) -> bool {
    match frames.split_last() {
        Some((top, callers)) => {
            let is_last = is_end(top) || is_done(top);
            is_last && is_left(top) && callers.iter().all(|one| is_call(one) && is_left(one))
        }
        None => true,
    }
}

/// The statement that a function does next, if it is one.
fn statement_of<'t>(frame: &Frame<'t>) -> Option<&'t StatementNode> {
    match frame.position.tasks.last() {
        Some(Task::Do(statement)) => Some(**statement),
        _ => None,
    }
}

/// Whether a function only leaves blocks after its next task.
fn is_left(frame: &Frame<'_>) -> bool {
    let tasks = frame.position.tasks.as_slice();
    match tasks.split_last() {
        Some((_, others)) => others.iter().all(|task| is_end_of_block(task)),
        None => true,
    }
}

/// Whether a task is the end of a block.
fn is_end_of_block(task: &Task<'_>) -> bool {
    matches!(task, Task::EndBlock | Task::EndSelect)
}

/// Whether a function does nothing next, leaves a block, or returns nothing.
fn is_end(frame: &Frame<'_>) -> bool {
    match frame.position.tasks.last() {
        Some(task) => is_end_of_block(task) || is_return(frame),
        None => true,
    }
}

/// Whether a function returns nothing next.
fn is_return(frame: &Frame<'_>) -> bool {
    matches!(
        statement_of(frame),
        Some(StatementNode::Return(ReturnNode::Nothing))
    )
}

/// Whether a function waits for a call whose result is not used.
fn is_call(frame: &Frame<'_>) -> bool {
    matches!(
        statement_of(frame),
        Some(StatementNode::Simple(SimpleNode::Call(_, _)))
    )
}

/// Whether a function has done the request that its next statement is.
fn is_done(frame: &Frame<'_>) -> bool {
    match (statement_of(frame), frame.given.last()) {
        (
            Some(StatementNode::Simple(SimpleNode::Receive(channel))),
            Some(Given::Told(Reply::Received(_, _))),
        ) => is_named(channel),
        (Some(_), Some(Given::Told(Reply::Nothing))) => true,
        _ => false,
    }
}

/// Whether an expression is a variable or a part of one.
fn is_named(expression: &ExpressionNode) -> bool {
    match expression {
        ExpressionNode::Named(_) => true,
        ExpressionNode::Parenthesized(inner) | ExpressionNode::Selection(inner, _) => is_named(
            inner,
        ),
        _ => false,
    }
}
