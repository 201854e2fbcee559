//! Statements that contain no other statement.

ghost use Rattle.std.specs.Prelude.{◌≡◌, ◌∷◌, ◌<◌, true, IfErr, map, option_map};
ghost use Rattle.parser_base.specs.declared.fault.ParseFault.TheVariants as faults;
ghost use Rattle.scanner.specs.declared.kind.TokenKind.TheVariants as kinds;
ghost use Rattle.syntax.specs.Tree.{Alone, Return};
ghost use Rattle.syntax.specs.View.{name_of, right_of, returned_of, statement_of};
ghost use Rattle.parser_base.specs.Lexemes.{Mark};
ghost use Rattle.parser_base.specs.Cursor.{ahead};
ghost use Rattle.parser_base.specs.Reading.{Gives, as_one};
ghost use Rattle.parser_simple.specs.Reading.{right, simple};
ghost use Rattle.parser_statement.specs.Reading.{is_end, ends_statement, returned_value, returned, started, after_next, typed, untyped, variables, variable, leaf};

use go_text::Span;
use parser_base::beside::beside;
use parser_base::cursor::{Cursor, Word};
use parser_base::expression::{begins, expression};
use parser_base::fault::ParseFault;
use parser_base::types::type_at;
use parser_simple::form::begins_with;
use parser_simple::place::{name_at, names};
use parser_simple::right::{arguments, right_after};
use parser_simple::simple;
use scanner::TokenKind;
use std::alloc::Global;
use syntax::limits::MAX_ENTRIES;
use syntax::{ExpressionNode, Name, ReturnNode, StatementNode};

/// Whether a statement ends before this mark.
pub(crate) fn is_end(kind: TokenKind) -> bool
    ensures { result ≡ is_end kind }
{
    matches!(
        kind,
        TokenKind::Semicolon | TokenKind::RightBrace | TokenKind::Case | TokenKind::Default
    )
}

/// Whether nothing of a statement is left here.
#[tactic(auto, unfolding(crate::specs::Reading::ends_statement))]
pub(crate) fn ends_statement(cursor: Cursor<'_>) -> bool
    ensures { result ≡ ends_statement (ahead cursor.entry) }
{
    match cursor.next() {
        Some((Word::Mark(kind), _)) => is_end(kind),
        _ => false,
    }
}

/// A simple statement, with at most `depth_left` levels below it.
pub(crate) fn simple_statement(
    alloc: Global,
    depth_left: u32,
    cursor: Cursor<'_>,
) -> Result<(StatementNode, Cursor<'_>), ParseFault>
    ensures { Gives (λ x. (statement_of x.0, ahead x.1)) result (as_one Alone (simple true true MAX_ENTRIES depth_left (ahead cursor.entry))) }
{
    let found = simple::simple_statement(alloc, true, true, depth_left, cursor)?;
    Ok((StatementNode::Simple(found.node), found.rest))
}

/// A `go` ("Go statements" of the Go specification), after its word, with at most `depth_left` levels below it.
#[tactic(auto, unfolding(crate::specs::Reading::started))]
pub(crate) fn go_statement(
    alloc: Global,
    depth_left: u32,
    cursor: Cursor<'_>,
) -> Result<(StatementNode, Cursor<'_>), ParseFault>
    ensures { Gives (λ x. (statement_of x.0, ahead x.1)) result (started MAX_ENTRIES depth_left (ahead cursor.entry)) }
{
    let (function, rest) = name_at(alloc, cursor)?;
    let (function, passed) = beside(function, arguments(alloc, true, depth_left, rest))?;
    Ok((StatementNode::Go(function, passed.node), passed.rest))
}

/// A value after `return`, at most `depth_left` levels deep.
#[tactic(auto, unfolding(crate::specs::Reading::returned_value))]
fn return_value(
    alloc: Global,
    depth_left: u32,
    cursor: Cursor<'_>,
) -> Result<(ReturnNode, Cursor<'_>), ParseFault>
    ensures { Gives (λ x. (returned_of x.0, ahead x.1)) result (returned_value MAX_ENTRIES depth_left (ahead cursor.entry)) }
{
    if depth_left == 0 {
        if begins(cursor) {
            return Err(ParseFault::TooDeep(cursor.place()));
        }
        return Err(ParseFault::Syntax(cursor.place()));
    }
    let found = expression(alloc, true, depth_left, 0, cursor)?;
    Ok((ReturnNode::Value(found.node), found.rest))
}

/// What follows a `return`.
#[tactic(auto, unfolding(crate::specs::Reading::returned))]
fn return_operand(
    alloc: Global,
    depth_left: u32,
    cursor: Cursor<'_>,
) -> Result<(ReturnNode, Cursor<'_>), ParseFault>
    ensures { Gives (λ x. (returned_of x.0, ahead x.1)) result (returned MAX_ENTRIES depth_left (ahead cursor.entry)) }
{
    if ends_statement(cursor) {
        return Ok((ReturnNode::Nothing, cursor));
    }
    return_value(alloc, depth_left, cursor)
}

/// A `return` ("Return statements" of the Go specification), after its word, with at most `depth_left` levels below it.
pub(crate) fn return_statement(
    alloc: Global,
    depth_left: u32,
    cursor: Cursor<'_>,
) -> Result<(StatementNode, Cursor<'_>), ParseFault>
    ensures { Gives (λ x. (statement_of x.0, ahead x.1)) result (as_one Return (returned MAX_ENTRIES depth_left (ahead cursor.entry))) }
{
    let (returned, rest) = return_operand(alloc, depth_left, cursor)?;
    Ok((StatementNode::Return(returned), rest))
}

/// Values after `=`, if it comes next.
fn initial_values(
    alloc: Global,
    depth_left: u32,
    cursor: Cursor<'_>,
) -> Result<(Option<Vec<ExpressionNode>>, Cursor<'_>), ParseFault>
    ensures { Gives (λ x. (option_map right_of x.0, ahead x.1)) result (after_next kinds.Assign (right true MAX_ENTRIES depth_left) (ahead cursor.entry)) }
{
    if !begins_with(TokenKind::Assign, cursor) {
        return Ok((None, cursor));
    }
    let (values, rest) = right_after(alloc, true, depth_left, TokenKind::Assign, cursor)?;
    Ok((Some(values), rest))
}

/// The type of these names, which a `var` declares, and their values, if there are any.
#[tactic(auto, unfolding(crate::specs::Reading::typed))]
fn typed_var(
    alloc: Global,
    depth_left: u32,
    names: Vec<Name>,
    cursor: Cursor<'_>,
) -> Result<(StatementNode, Cursor<'_>), ParseFault>
    ensures { Gives (λ x. (statement_of x.0, ahead x.1)) result (typed (map name_of names.items) MAX_ENTRIES depth_left (ahead cursor.entry)) }
{
    let (names, found) = beside(names, type_at(alloc, depth_left, cursor))?;
    let ((names, kind), (right, rest)) = beside(
        (names, found.node),
        initial_values(alloc, depth_left, found.rest),
    )?;
    Ok((StatementNode::Typed(names, kind, right), rest))
}

/// The values of these names, which a `var` declares without a type.
#[tactic(auto, unfolding(crate::specs::Reading::untyped))]
fn untyped_var(
    alloc: Global,
    depth_left: u32,
    names: Vec<Name>,
    cursor: Cursor<'_>,
) -> Result<(StatementNode, Cursor<'_>), ParseFault>
    ensures { Gives (λ x. (statement_of x.0, ahead x.1)) result (untyped (map name_of names.items) MAX_ENTRIES depth_left (ahead cursor.entry)) }
{
    let (names, (values, rest)) = beside(
        names,
        right_after(alloc, true, depth_left, TokenKind::Assign, cursor),
    )?;
    Ok((StatementNode::Untyped(names, values), rest))
}

/// The names after a `var`, and their type or values.
#[tactic(auto, unfolding(crate::specs::Reading::variables))]
fn var_spec(
    alloc: Global,
    depth_left: u32,
    cursor: Cursor<'_>,
) -> Result<(StatementNode, Cursor<'_>), ParseFault>
    ensures { Gives (λ x. (statement_of x.0, ahead x.1)) result (variables MAX_ENTRIES depth_left (ahead cursor.entry)) }
{
    let names = names(alloc, TokenKind::Comma, MAX_ENTRIES as usize, cursor)?;
    if begins_with(TokenKind::Assign, names.rest) {
        return untyped_var(alloc, depth_left, names.entries, names.rest);
    }
    typed_var(alloc, depth_left, names.entries, names.rest)
}

/// A `var` ("Variable declarations" of the Go specification), after its word, which is at `first`, with at most `depth_left` levels
/// below it.
pub(crate) fn var_declaration(
    alloc: Global,
    depth_left: u32,
    first: Span,
    cursor: Cursor<'_>,
) -> Result<(StatementNode, Cursor<'_>), ParseFault>
    ensures statement { Gives (λ x. (statement_of x.0, ahead x.1)) result (variable MAX_ENTRIES depth_left (ahead cursor.entry)) }
    ensures deep { depth_left < 1 → IfErr result (λ fault. fault ≡ faults.TooDeep first) }
{
    if depth_left < 1 {
        return Err(ParseFault::TooDeep(first));
    }
    var_spec(alloc, depth_left, cursor)
}

/// A statement that begins with this mark and contains no other statement, with at most `depth_left`
/// levels below it.
pub(crate) fn leaf<'a>(
    alloc: Global,
    depth_left: u32,
    kind: TokenKind,
    rest: Cursor<'a>,
    cursor: Cursor<'a>,
) -> Result<(StatementNode, Cursor<'a>), ParseFault>
    requires { ahead cursor ≡ Mark kind ∷ ahead rest }
    ensures { Gives (λ x. (statement_of x.0, ahead x.1)) result (leaf MAX_ENTRIES depth_left kind (ahead rest.entry)) }
{
    match kind {
        TokenKind::Go => go_statement(alloc, depth_left, rest),
        TokenKind::Var => var_declaration(alloc, depth_left, cursor.place(), rest),
        TokenKind::Return => return_statement(alloc, depth_left, rest),
        TokenKind::Break => Ok((StatementNode::Break, rest)),
        TokenKind::Continue => Ok((StatementNode::Continue, rest)),
        kind if is_end(kind) => Ok((StatementNode::Empty, cursor)),
        _ => simple_statement(alloc, depth_left, cursor),
    }
}
