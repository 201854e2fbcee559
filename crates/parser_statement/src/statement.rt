//! Statements.

ghost use Rattle.std.specs.Prelude.{◌≡◌, ◌∷◌, IfOk, IfErr, map, option_map, length};
ghost use Rattle.parser_base.specs.declared.fault.ParseFault.TheVariants as faults;
ghost use Rattle.syntax.specs.Tree.{If, ElseIf, Select};
ghost use Rattle.syntax.specs.Measures.{SelectClauses};
ghost use Rattle.syntax.specs.View.{comm_of, statement_of, body_of, clauses};
ghost use Rattle.parser_base.specs.Lexemes.{Mark};
ghost use Rattle.parser_base.specs.Cursor.{ahead};
ghost use Rattle.parser_base.specs.Reading.{Gives, NamesRefusal, Fails, Syntax, TooMany, listed, as_one};
ghost use Rattle.parser_statement.specs.Reading.{statement_next, clause_next, next_of, clauses_next, waited, clause_body, other, otherwise, branched, repeated, one_clause, no_clause, selected, marked, stated, statement, block, branch, clause};
ghost use Rattle.parser_statement.specs.Views.{branch_of, otherwise_of, clause_of};

use crate::leaf::{ends_statement, leaf, simple_statement};
use go_text::Span;
use parser_base::beside::beside;
use parser_base::cursor::{Cursor, Word};
use parser_base::fault::ParseFault;
use parser_base::list::{List, Next};
use parser_header::comm::comm_statement;
use parser_header::header::{for_header, if_header};
use parser_simple::form::begins_with;
use scanner::TokenKind;
use std::alloc::Global;
use syntax::limits::{MAX_CLAUSES, MAX_ENTRIES};
use syntax::{ClauseNode, CommNode, ElseNode, IfNode, StatementNode};

// ---- what follows a statement or a clause

/// What follows a statement of a block.
#[tactic(auto, unfolding(crate::specs::Reading::statement_next))]
pub fn statement_next(cursor: Cursor<'_>) -> Result<(Next, Cursor<'_>), ParseFault>
    ensures gives { Gives (λ x. (x.0, ahead x.1)) result (statement_next (ahead cursor.entry)) }
    ensures refused { IfErr result NamesRefusal }
{
    match cursor.next() {
        Some((Word::Mark(TokenKind::Semicolon), rest)) => Ok((Next::More, rest)),
        Some((Word::Mark(TokenKind::RightBrace), rest)) => Ok((Next::End(false), rest)),
        _ => Err(ParseFault::Syntax(cursor.place())),
    }
}

/// What follows a statement of a clause.
#[tactic(auto, unfolding(crate::specs::Reading::clause_next))]
fn clause_next(cursor: Cursor<'_>) -> Result<(Next, Cursor<'_>), ParseFault>
    ensures gives { Gives (λ x. (x.0, ahead x.1)) result (clause_next (ahead cursor.entry)) }
    ensures refused { IfErr result NamesRefusal }
{
    if let Some((Word::Mark(TokenKind::Semicolon), rest)) = cursor.next() {
        return Ok((Next::More, rest));
    }
    if ends_statement(cursor) {
        return Ok((Next::End(false), cursor));
    }
    Err(ParseFault::Syntax(cursor.place()))
}

/// What follows a statement of a block or, if `clause` holds, of a clause.
fn next_of(clause: bool, cursor: Cursor<'_>) -> Result<(Next, Cursor<'_>), ParseFault>
    ensures gives { Gives (λ x. (x.0, ahead x.1)) result (next_of clause (ahead cursor.entry)) }
    ensures refused { IfErr result NamesRefusal }
{
    if clause {
        clause_next(cursor)
    } else {
        statement_next(cursor)
    }
}

/// What follows a clause.
#[tactic(auto, unfolding(crate::specs::Reading::clauses_next))]
fn clauses_next(cursor: Cursor<'_>) -> Result<(Next, Cursor<'_>), ParseFault>
    ensures gives { Gives (λ x. (x.0, ahead x.1)) result (clauses_next (ahead cursor.entry)) }
    ensures refused { IfErr result NamesRefusal }
{
    if begins_with(TokenKind::RightBrace, cursor) {
        let rest = cursor.expect(TokenKind::RightBrace)?;
        return Ok((Next::End(false), rest));
    }
    Ok((Next::More, cursor))
}

// ---- nodes

/// An `if`, as a statement.
fn if_node(alloc: Global, branch: IfNode) -> Result<StatementNode, ParseFault>
    ensures ok { IfOk result (λ node. statement_of node ≡ If (branch_of branch)) }
    ensures err { IfErr result (λ e. e ≡ faults.Memory) }
{
    Ok(StatementNode::If(Box::new(alloc, branch)?))
}

/// An `if` after an `else`.
fn else_node(alloc: Global, branch: IfNode) -> Result<ElseNode, ParseFault>
    ensures ok { IfOk result (λ node. otherwise_of node ≡ ElseIf (branch_of branch)) }
    ensures err { IfErr result (λ e. e ≡ faults.Memory) }
{
    Ok(ElseNode::If(Box::new(alloc, branch)?))
}

/// A `select` of these clauses.
fn select_node(all: Vec<ClauseNode>) -> StatementNode
    ensures { statement_of result ≡ Select (clauses (map clause_of all.items)) }
{
    StatementNode::Select(all)
}

/// A clause that waits for this, or is the default, with these statements.
fn clause_node(comm: Option<CommNode>, body: Vec<StatementNode>) -> ClauseNode
    ensures comm { (clause_of result).comm ≡ option_map comm_of comm }
    ensures body { (clause_of result).body ≡ body_of body.items }
{
    ClauseNode { comm, body }
}

// ---- blocks

/// The statements of a block or, if `clause` holds, of a clause, up to what ends them; each at most `depth_left` levels deep.
#[cycle(statement)]
fn statements_to_end(
    alloc: Global,
    depth_left: u32,
    clause: bool,
    cursor: Cursor<'_>,
) -> Result<List<'_, StatementNode>, ParseFault>
    ensures { Gives (λ x. ((map statement_of x.entries.items, x.trailing), ahead x.rest)) result (listed (statement MAX_ENTRIES depth_left) (next_of clause) Syntax (length (ahead cursor.entry)) (ahead cursor.entry)) }
{
    let mut entries = Vec::new(alloc);
    let mut rest = cursor;
    for _ in 0..cursor.len() {
        let (one, following) = statement(alloc, depth_left, rest)?;
        entries.push(one)?;
        let (next, after) = next_of(clause, following)?;
        match next {
            Next::More => rest = after,
            Next::End(trailing) => return Ok(List {
                entries,
                trailing,
                rest: after,
            }),
        }
    }
    Err(ParseFault::Syntax(rest.place()))
}

/// The statements of a block, each at most `depth_left` levels deep, after its first brace.
#[cycle(statement)]
pub fn statement_list(
    alloc: Global,
    depth_left: u32,
    cursor: Cursor<'_>,
) -> Result<List<'_, StatementNode>, ParseFault>
    ensures { Gives (λ x. ((map statement_of x.entries.items, x.trailing), ahead x.rest)) result (listed (statement MAX_ENTRIES depth_left) statement_next Syntax (length (ahead cursor.entry)) (ahead cursor.entry)) }
{
    statements_to_end(alloc, depth_left, false, cursor)
}

/// A block, at most `depth_left` levels deep ("Blocks" of the Go specification).
#[cycle(statement)]
#[tactic(auto, unfolding(crate::specs::Reading::statement, crate::specs::Reading::braced))]
fn block(
    alloc: Global,
    depth_left: u32,
    cursor: Cursor<'_>,
) -> Result<(Vec<StatementNode>, Cursor<'_>), ParseFault>
    ensures { Gives (λ x. (body_of x.0.items, ahead x.1)) result (block MAX_ENTRIES depth_left (ahead cursor.entry)) }
{
    if depth_left == 0 {
        return Err(ParseFault::TooDeep(cursor.place()));
    }
    let rest = cursor.expect(TokenKind::LeftBrace)?;
    let all = statement_list(alloc, depth_left - 1, rest)?;
    Ok((all.entries, all.rest))
}

// ---- if and for

/// What follows `else`: an `if` or a block, at most `depth_left` levels deep.
#[cycle(statement)]
#[tactic(auto, unfolding(crate::specs::Reading::statement, crate::specs::Reading::other))]
fn else_branch(
    alloc: Global,
    depth_left: u32,
    cursor: Cursor<'_>,
) -> Result<(ElseNode, Cursor<'_>), ParseFault>
    ensures { Gives (λ x. (otherwise_of x.0, ahead x.1)) result (other (block MAX_ENTRIES depth_left) (branch MAX_ENTRIES depth_left) (ahead cursor.entry)) }
{
    if begins_with(TokenKind::If, cursor) {
        let rest = cursor.expect(TokenKind::If)?;
        if depth_left == 0 {
            return Err(ParseFault::TooDeep(cursor.place()));
        }
        let (branch, rest) = if_statement(alloc, depth_left - 1, cursor.place(), rest)?;
        return Ok((else_node(alloc, branch)?, rest));
    }
    let (body, rest) = block(alloc, depth_left, cursor)?;
    Ok((ElseNode::Block(body), rest))
}

/// An `else`, at most `depth_left` levels deep, if there is one.
#[cycle(statement)]
#[tactic(auto, unfolding(crate::specs::Reading::otherwise))]
fn optional_else(
    alloc: Global,
    depth_left: u32,
    cursor: Cursor<'_>,
) -> Result<(ElseNode, Cursor<'_>), ParseFault>
    ensures { Gives (λ x. (otherwise_of x.0, ahead x.1)) result (otherwise (block MAX_ENTRIES depth_left) (branch MAX_ENTRIES depth_left) (ahead cursor.entry)) }
{
    if !begins_with(TokenKind::Else, cursor) {
        return Ok((ElseNode::Nothing, cursor));
    }
    let rest = cursor.expect(TokenKind::Else)?;
    else_branch(alloc, depth_left, rest)
}

/// What follows an `if` at `first` ("If statements" of the Go specification), with at most `depth_left` levels below it.
#[cycle(statement)]
#[tactic(auto, unfolding(crate::specs::Reading::branched))]
fn if_statement(
    alloc: Global,
    depth_left: u32,
    first: Span,
    cursor: Cursor<'_>,
) -> Result<(IfNode, Cursor<'_>), ParseFault>
    ensures { Gives (λ x. (branch_of x.0, ahead x.1)) result (branched MAX_ENTRIES depth_left (block MAX_ENTRIES depth_left) (branch MAX_ENTRIES depth_left) (ahead cursor.entry)) }
{
    if depth_left < 2 {
        return Err(ParseFault::TooDeep(first));
    }
    let (head, rest) = if_header(alloc, depth_left, cursor)?;
    let (head, (body, rest)) = beside(head, block(alloc, depth_left, rest))?;
    let (begun, (otherwise, rest)) = beside((head, body), optional_else(alloc, depth_left, rest))?;
    let ((header, condition), body) = begun;
    let branch = IfNode {
        header,
        condition,
        body,
        otherwise,
    };
    Ok((branch, rest))
}

/// What follows a `for` at `first` ("For statements" of the Go specification), with at most `depth_left` levels below it.
#[cycle(statement)]
#[tactic(auto, unfolding(crate::specs::Reading::repeated))]
fn for_statement(
    alloc: Global,
    depth_left: u32,
    first: Span,
    cursor: Cursor<'_>,
) -> Result<(StatementNode, Cursor<'_>), ParseFault>
    ensures { Gives (λ x. (statement_of x.0, ahead x.1)) result (repeated MAX_ENTRIES depth_left (block MAX_ENTRIES depth_left) (ahead cursor.entry)) }
{
    if depth_left < 2 {
        return Err(ParseFault::TooDeep(first));
    }
    let (header, rest) = for_header(alloc, depth_left, cursor)?;
    let (header, (body, rest)) = beside(header, block(alloc, depth_left, rest))?;
    Ok((StatementNode::For(header, body), rest))
}

// ---- select

/// What a clause waits for, at most `depth_left` levels deep.
#[tactic(auto, unfolding(crate::specs::Reading::waited))]
fn comm_case(
    alloc: Global,
    depth_left: u32,
    cursor: Cursor<'_>,
) -> Result<(CommNode, Cursor<'_>), ParseFault>
    ensures { Gives (λ x. (comm_of x.0, ahead x.1)) result (waited MAX_ENTRIES depth_left (ahead cursor.entry)) }
{
    if depth_left == 0 {
        return Err(ParseFault::TooDeep(cursor.place()));
    }
    comm_statement(alloc, depth_left - 1, cursor)
}

/// A clause from its colon on, with statements at most `depth_left` levels deep.
#[cycle(statement)]
#[tactic(auto, unfolding(crate::specs::Reading::clause_body))]
fn clause_body(
    alloc: Global,
    depth_left: u32,
    waits: Option<CommNode>,
    cursor: Cursor<'_>,
) -> Result<(ClauseNode, Cursor<'_>), ParseFault>
    ensures { Gives (λ x. (clause_of x.0, ahead x.1)) result (clause_body (statement MAX_ENTRIES depth_left) (option_map comm_of waits) (ahead cursor.entry)) }
{
    let (waits, rest) = beside(waits, cursor.expect(TokenKind::Colon))?;
    let (waits, body) = beside(waits, statements_to_end(alloc, depth_left, true, rest))?;
    Ok((clause_node(waits, body.entries), body.rest))
}

/// A clause, with at most `depth_left` levels below it.
#[cycle(statement)]
#[tactic(auto, unfolding(crate::specs::Reading::one_clause))]
fn comm_clause_below(
    alloc: Global,
    depth_left: u32,
    cursor: Cursor<'_>,
) -> Result<(ClauseNode, Cursor<'_>), ParseFault>
    ensures { Gives (λ x. (clause_of x.0, ahead x.1)) result (one_clause MAX_ENTRIES depth_left (statement MAX_ENTRIES depth_left) (ahead cursor.entry)) }
{
    match cursor.next() {
        Some((Word::Mark(TokenKind::Case), rest)) => {
            if depth_left < 2 {
                return Err(ParseFault::TooDeep(cursor.place()));
            }
            let (waits, rest) = comm_case(alloc, depth_left, rest)?;
            clause_body(alloc, depth_left, Some(waits), rest)
        }
        Some((Word::Mark(TokenKind::Default), rest)) => {
            if depth_left < 1 {
                return Err(ParseFault::TooDeep(cursor.place()));
            }
            clause_body(alloc, depth_left, None, rest)
        }
        _ => Err(ParseFault::Syntax(cursor.place())),
    }
}

/// What is wrong with a clause for which no level is left.
#[tactic(auto, unfolding(crate::specs::Reading::no_clause))]
fn no_clause(cursor: Cursor<'_>) -> ParseFault
    ensures { Fails result (no_clause (ahead cursor.entry)) }
{
    match cursor.next() {
        Some((Word::Mark(TokenKind::Case | TokenKind::Default), _)) => {
            ParseFault::TooDeep(cursor.place())
        }
        _ => ParseFault::Syntax(cursor.place()),
    }
}

/// A clause, at most `depth_left` levels deep.
#[cycle(statement)]
#[tactic(auto, unfolding(crate::specs::Reading::statement))]
fn comm_clause(
    alloc: Global,
    depth_left: u32,
    cursor: Cursor<'_>,
) -> Result<(ClauseNode, Cursor<'_>), ParseFault>
    ensures { Gives (λ x. (clause_of x.0, ahead x.1)) result (clause MAX_ENTRIES depth_left (ahead cursor.entry)) }
{
    if depth_left == 0 {
        return Err(no_clause(cursor));
    }
    comm_clause_below(alloc, depth_left - 1, cursor)
}

/// The clauses of a `select`, each at most `depth_left` levels deep.
#[cycle(statement)]
fn comm_clauses(
    alloc: Global,
    depth_left: u32,
    cursor: Cursor<'_>,
) -> Result<List<'_, ClauseNode>, ParseFault>
    ensures { Gives (λ x. ((map clause_of x.entries.items, x.trailing), ahead x.rest)) result (listed (clause MAX_ENTRIES depth_left) clauses_next (TooMany SelectClauses) MAX_CLAUSES (ahead cursor.entry)) }
{
    let mut entries = Vec::new(alloc);
    let mut rest = cursor;
    for _ in 0..MAX_CLAUSES {
        let (one, following) = comm_clause(alloc, depth_left, rest)?;
        entries.push(one)?;
        let (next, after) = clauses_next(following)?;
        match next {
            Next::More => rest = after,
            Next::End(trailing) => return Ok(List {
                entries,
                trailing,
                rest: after,
            }),
        }
    }
    Err(ParseFault::TooManyClauses(rest.place()))
}

/// What follows a `select` ("Select statements" of the Go specification), with at most `depth_left` levels below it.
#[cycle(statement)]
#[tactic(auto, unfolding(crate::specs::Reading::selected))]
fn select_statement(
    alloc: Global,
    depth_left: u32,
    cursor: Cursor<'_>,
) -> Result<(StatementNode, Cursor<'_>), ParseFault>
    ensures { Gives (λ x. (statement_of x.0, ahead x.1)) result (as_one Select (selected MAX_CLAUSES (clause MAX_ENTRIES depth_left) (ahead cursor.entry))) }
{
    let inside = cursor.expect(TokenKind::LeftBrace)?;
    if begins_with(TokenKind::RightBrace, inside) {
        let rest = inside.expect(TokenKind::RightBrace)?;
        return Ok((select_node(Vec::new(alloc)), rest));
    }
    let all = comm_clauses(alloc, depth_left, inside)?;
    Ok((select_node(all.entries), all.rest))
}

// ---- statements

/// A statement that begins with this mark, with at most `depth_left` levels below it.
#[cycle(statement)]
fn keyword_statement<'a>(
    alloc: Global,
    depth_left: u32,
    kind: TokenKind,
    rest: Cursor<'a>,
    cursor: Cursor<'a>,
) -> Result<(StatementNode, Cursor<'a>), ParseFault>
    requires { ahead cursor ≡ Mark kind ∷ ahead rest }
    ensures { Gives (λ x. (statement_of x.0, ahead x.1)) result (marked MAX_ENTRIES depth_left (block MAX_ENTRIES depth_left) (branch MAX_ENTRIES depth_left) (clause MAX_ENTRIES depth_left) kind (ahead rest.entry)) }
{
    match kind {
        TokenKind::LeftBrace => {
            if depth_left < 2 {
                return Err(ParseFault::TooDeep(cursor.place()));
            }
            let (body, rest) = block(alloc, depth_left, cursor)?;
            Ok((StatementNode::Block(body), rest))
        }
        TokenKind::If => {
            let (branch, rest) = if_statement(alloc, depth_left, cursor.place(), rest)?;
            Ok((if_node(alloc, branch)?, rest))
        }
        TokenKind::For => for_statement(alloc, depth_left, cursor.place(), rest),
        TokenKind::Select => select_statement(alloc, depth_left, rest),
        kind => leaf(alloc, depth_left, kind, rest, cursor),
    }
}

/// A statement, with at most `depth_left` levels below it.
#[cycle(statement)]
#[tactic(auto, unfolding(crate::specs::Reading::stated))]
fn statement_below(
    alloc: Global,
    depth_left: u32,
    cursor: Cursor<'_>,
) -> Result<(StatementNode, Cursor<'_>), ParseFault>
    ensures { Gives (λ x. (statement_of x.0, ahead x.1)) result (stated MAX_ENTRIES depth_left (block MAX_ENTRIES depth_left) (branch MAX_ENTRIES depth_left) (clause MAX_ENTRIES depth_left) (ahead cursor.entry)) }
{
    match cursor.next() {
        Some((Word::Mark(kind), rest)) => keyword_statement(alloc, depth_left, kind, rest, cursor),
        _ => simple_statement(alloc, depth_left, cursor),
    }
}

/// A statement, at most `depth_left` levels deep ("Statements" of the Go specification).
#[cycle(statement)]
#[tactic(auto, unfolding(crate::specs::Reading::statement))]
pub fn statement(
    alloc: Global,
    depth_left: u32,
    cursor: Cursor<'_>,
) -> Result<(StatementNode, Cursor<'_>), ParseFault>
    ensures { Gives (λ x. (statement_of x.0, ahead x.1)) result (statement MAX_ENTRIES depth_left (ahead cursor.entry)) }
{
    if depth_left == 0 {
        return Err(ParseFault::TooDeep(cursor.place()));
    }
    statement_below(alloc, depth_left - 1, cursor)
}
