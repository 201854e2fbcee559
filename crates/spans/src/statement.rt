//! The spans of the nodes of statements.

ghost use Rattle.std.specs.Prelude.{◌≡◌, ◌++◌, IfOk, map};
ghost use Rattle.syntax.specs.View.{statement_of, body_of, branch_of, otherwise_of, clause_of, clauses};
ghost use Rattle.spans.specs.Words.{EndsInReach, joined, statement_count, body_count, block_count, branch_count, otherwise_count, clauses_count, clause_count};
ghost use Rattle.spans.specs.Places.{statement_spans, body_spans, block_spans, branch_spans, otherwise_spans, clauses_spans, clause_spans};

use crate::expression::expression_spans;
use crate::header::{for_head_spans, if_head_spans, initial_spans, returned_spans, start_spans};
use crate::over::add_node;
use crate::simple::{arguments_spans, right_spans, simple_spans};
use crate::types::type_spans;
use go_text::{Memory, Span};
use scanner::Token;
use syntax::{ClauseNode, ElseNode, IfNode, StatementNode};

/// Adds the spans of a statement.
#[cycle(statement_spans)]
fn statement_spans(
    statement: &StatementNode,
    tokens: &[Token],
    at: usize,
    spans: &mut Vec<Span>,
) -> Result<usize, Memory>
    requires { EndsInReach at (statement_count (statement_of statement.now)) }
    ensures count { IfOk result (λ count. count ≡ statement_count (statement_of statement.now)) }
    ensures spans { IfOk result (λ _. spans.new.items ≡ spans.old.items ++ statement_spans tokens.now at (statement_of statement.now)) }
{
    match statement {
        StatementNode::Empty => add_node(tokens, at, 0, spans),
        StatementNode::Break | StatementNode::Continue => add_node(tokens, at, 1, spans),
        StatementNode::Simple(simple) => simple_spans(simple, tokens, at, spans),
        StatementNode::If(branch) => branch_spans(branch, tokens, at, spans),
        StatementNode::Typed(names, kind, right) => {
            let names = (names.len() * 2).saturating_sub(1);
            let kind = type_spans(kind, tokens, at + 1 + names, spans)?;
            let values = initial_spans(right, tokens, at + 1 + names + kind, spans)?;
            add_node(tokens, at, names + kind + values + 1, spans)
        }
        StatementNode::Untyped(names, right) => {
            let names = names.len() * 2;
            let values = right_spans(right, tokens, at + 1 + names, spans)?;
            add_node(tokens, at, names + values + 1, spans)
        }
        StatementNode::Block(body) => {
            let count = block_spans(body.as_slice(), tokens, at, spans)?;
            add_node(tokens, at, count, spans)
        }
        StatementNode::For(header, body) => {
            let head = for_head_spans(header, tokens, at + 1, spans)?;
            let body = block_spans(body.as_slice(), tokens, at + 1 + head, spans)?;
            add_node(tokens, at, head + body + 1, spans)
        }
        StatementNode::Select(clauses) => {
            let count = clauses_spans(clauses.as_slice(), tokens, at + 2, spans)?;
            add_node(tokens, at, count + 3, spans)
        }
        StatementNode::Go(_, arguments) => {
            let count = arguments_spans(arguments, tokens, at + 2, spans)?;
            add_node(tokens, at, count + 2, spans)
        }
        StatementNode::Return(returned) => {
            let count = returned_spans(returned, tokens, at + 1, spans)?;
            add_node(tokens, at, count + 1, spans)
        }
    }
}

/// Adds the spans of statements. The count includes a mark after each.
#[cycle(statement_spans)]
fn body_spans(
    body: &[StatementNode],
    tokens: &[Token],
    at: usize,
    spans: &mut Vec<Span>,
) -> Result<usize, Memory>
    requires { EndsInReach at (joined (body_count (body_of body.now))) }
    ensures count { IfOk result (λ count. count ≡ body_count (body_of body.now)) }
    ensures spans { IfOk result (λ _. spans.new.items ≡ spans.old.items ++ body_spans tokens.now at (body_of body.now)) }
{
    let mut count = 0;
    for statement in body {
        count += statement_spans(statement, tokens, at + count, spans)? + 1;
    }
    Ok(count)
}

/// Adds the spans of a block.
#[cycle(statement_spans)]
pub(crate) fn block_spans(
    body: &[StatementNode],
    tokens: &[Token],
    at: usize,
    spans: &mut Vec<Span>,
) -> Result<usize, Memory>
    requires { EndsInReach at (block_count (body_of body.now)) }
    ensures count { IfOk result (λ count. count ≡ block_count (body_of body.now)) }
    ensures spans { IfOk result (λ _. spans.new.items ≡ spans.old.items ++ block_spans tokens.now at (body_of body.now)) }
{
    let count = body_spans(body, tokens, at + 1, spans)?.saturating_sub(1) + 2;
    add_node(tokens, at, count, spans)
}

/// Adds the spans of an `if`.
#[cycle(statement_spans)]
fn branch_spans(
    branch: &IfNode,
    tokens: &[Token],
    at: usize,
    spans: &mut Vec<Span>,
) -> Result<usize, Memory>
    requires { EndsInReach at (branch_count (branch_of branch.now)) }
    ensures count { IfOk result (λ count. count ≡ branch_count (branch_of branch.now)) }
    ensures spans { IfOk result (λ _. spans.new.items ≡ spans.old.items ++ branch_spans tokens.now at (branch_of branch.now)) }
{
    let head = if_head_spans(&branch.header, tokens, at + 1, spans)?;
    let condition = expression_spans(&branch.condition, tokens, at + 1 + head, spans)?;
    let body = block_spans(
        branch.body.as_slice(),
        tokens,
        at + 1 + head + condition,
        spans,
    )?;
    let otherwise = otherwise_spans(
        &branch.otherwise,
        tokens,
        at + 1 + head + condition + body,
        spans,
    )?;
    let count = head + condition + body + otherwise + 1;
    add_node(tokens, at, count, spans)
}

/// Adds the spans of an `else` and what follows it, if there is one.
#[cycle(statement_spans)]
fn otherwise_spans(
    otherwise: &ElseNode,
    tokens: &[Token],
    at: usize,
    spans: &mut Vec<Span>,
) -> Result<usize, Memory>
    requires { EndsInReach at (otherwise_count (otherwise_of otherwise.now)) }
    ensures count { IfOk result (λ count. count ≡ otherwise_count (otherwise_of otherwise.now)) }
    ensures spans { IfOk result (λ _. spans.new.items ≡ spans.old.items ++ otherwise_spans tokens.now at (otherwise_of otherwise.now)) }
{
    match otherwise {
        ElseNode::Nothing => Ok(0),
        ElseNode::Block(body) => Ok(block_spans(body.as_slice(), tokens, at + 1, spans)? + 1),
        ElseNode::If(branch) => Ok(branch_spans(branch, tokens, at + 1, spans)? + 1),
    }
}

/// Adds the spans of the clauses of a `select`.
#[cycle(statement_spans)]
fn clauses_spans(
    all: &[ClauseNode],
    tokens: &[Token],
    at: usize,
    spans: &mut Vec<Span>,
) -> Result<usize, Memory>
    requires { EndsInReach at (clauses_count (clauses (map clause_of all.now))) }
    ensures count { IfOk result (λ count. count ≡ clauses_count (clauses (map clause_of all.now))) }
    ensures spans { IfOk result (λ _. spans.new.items ≡ spans.old.items ++ clauses_spans tokens.now at (clauses (map clause_of all.now))) }
{
    let mut count = 0;
    for clause in all {
        count += clause_spans(clause, tokens, at + count, spans)?;
    }
    Ok(count)
}

/// Adds the spans of a clause of a `select`.
#[cycle(statement_spans)]
fn clause_spans(
    clause: &ClauseNode,
    tokens: &[Token],
    at: usize,
    spans: &mut Vec<Span>,
) -> Result<usize, Memory>
    requires { EndsInReach at (clause_count (clause_of clause.now).comm (clause_of clause.now).body) }
    ensures count { IfOk result (λ count. count ≡ clause_count (clause_of clause.now).comm (clause_of clause.now).body) }
    ensures spans { IfOk result (λ _. spans.new.items ≡ spans.old.items ++ clause_spans tokens.now at (clause_of clause.now).comm (clause_of clause.now).body) }
{
    let start = start_spans(&clause.comm, tokens, at, spans)?;
    let body = body_spans(clause.body.as_slice(), tokens, at + start, spans)?;
    let count = start + body.saturating_sub(1);
    add_node(tokens, at, count, spans)
}
