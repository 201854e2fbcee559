//! Terminating statements.

ghost use Rattle.std.specs.Prelude.{◌≡◌, false, not, ◌&&◌, map};
ghost use Rattle.syntax.specs.View.{for_head_of, statement_of, body_of, branch_of, otherwise_of, clause_of, clauses};
ghost use Rattle.typing_rules.specs.Terminating.{breaks_out, some_breaks_out, branch_breaks_out, otherwise_breaks_out, is_endless, terminates, last_terminates, branch_terminates, otherwise_terminates, clauses_terminate};

use syntax::{ClauseNode, ElseNode, ForHeader, IfNode, StatementNode};

/// Whether a break in it refers to the statement around it.
#[cycle(breaks_out)]
fn breaks_out(statement: &StatementNode) -> bool
    ensures { result ≡ breaks_out (statement_of statement.now) }
{
    match statement {
        StatementNode::Break => true,
        StatementNode::Block(body) => some_breaks_out(body.as_slice()),
        StatementNode::If(branch) => branch_breaks_out(branch),
        _ => false,
    }
}

/// Whether a break in one of them refers to the statement around them.
#[cycle(breaks_out)]
fn some_breaks_out(body: &[StatementNode]) -> bool
    ensures { result ≡ some_breaks_out (body_of body.now) }
{
    for statement in body {
        if breaks_out(statement) {
            return true;
        }
    }
    false
}

/// Whether a break in an `if` refers to the statement around it.
#[cycle(breaks_out)]
fn branch_breaks_out(branch: &IfNode) -> bool
    ensures { result ≡ branch_breaks_out (branch_of branch.now) }
{
    some_breaks_out(branch.body.as_slice()) || otherwise_breaks_out(&branch.otherwise)
}

/// Like `breaks_out`, for what comes after the block of an `if`.
#[cycle(breaks_out)]
fn otherwise_breaks_out(otherwise: &ElseNode) -> bool
    ensures { result ≡ otherwise_breaks_out (otherwise_of otherwise.now) }
{
    match otherwise {
        ElseNode::Nothing => false,
        ElseNode::Block(body) => some_breaks_out(body.as_slice()),
        ElseNode::If(branch) => branch_breaks_out(branch),
    }
}

/// Whether a `for` ends only by a break.
fn is_endless(header: &ForHeader) -> bool
    ensures { result ≡ is_endless (for_head_of header.now) }
{
    match header {
        ForHeader::Forever | ForHeader::Clauses(_, None, _) => true,
        _ => false,
    }
}

/// Whether a statement is terminating.
#[cycle(terminates)]
fn terminates(statement: &StatementNode) -> bool
    ensures { result ≡ terminates (statement_of statement.now) }
{
    match statement {
        StatementNode::Return(_) => true,
        StatementNode::Block(body) => last_terminates(body.as_slice()),
        StatementNode::If(branch) => branch_terminates(branch),
        StatementNode::For(header, body) => {
            is_endless(header) && !some_breaks_out(body.as_slice())
        }
        StatementNode::Select(all) => clauses_terminate(all.as_slice()),
        _ => false,
    }
}

/// Whether the last of these statements that is not empty is terminating ("Terminating statements" of the Go specification).
/// Of no statements it is not.
#[cycle(terminates)]
pub fn last_terminates(body: &[StatementNode]) -> bool
    ensures { result ≡ last_terminates false (body_of body.now) }
{
    let mut ends = false;
    for statement in body {
        ends = match statement {
            StatementNode::Empty => ends,
            _ => terminates(statement),
        };
    }
    ends
}

/// Whether an `if` is terminating.
#[cycle(terminates)]
fn branch_terminates(branch: &IfNode) -> bool
    ensures { result ≡ branch_terminates (branch_of branch.now) }
{
    last_terminates(branch.body.as_slice()) && otherwise_terminates(&branch.otherwise)
}

/// Whether what comes after the block of an `if` is terminating.
#[cycle(terminates)]
fn otherwise_terminates(otherwise: &ElseNode) -> bool
    ensures { result ≡ otherwise_terminates (otherwise_of otherwise.now) }
{
    match otherwise {
        ElseNode::Nothing => false,
        ElseNode::Block(body) => last_terminates(body.as_slice()),
        ElseNode::If(branch) => branch_terminates(branch),
    }
}

/// Whether the clauses of a `select` are terminating, and no break refers to it.
#[cycle(terminates)]
fn clauses_terminate(all: &[ClauseNode]) -> bool
    ensures { result ≡ clauses_terminate (clauses (map clause_of all.now)) }
{
    for clause in all {
        if !clause_terminates(clause) {
            return false;
        }
    }
    true
}

/// Whether a clause is terminating, and no break in it refers to the `select`.
#[cycle(terminates)]
fn clause_terminates(clause: &ClauseNode) -> bool
    ensures { result ≡ (last_terminates false (clause_of clause.now).body && not (some_breaks_out (clause_of clause.now).body)) }
{
    last_terminates(clause.body.as_slice()) && !some_breaks_out(clause.body.as_slice())
}
