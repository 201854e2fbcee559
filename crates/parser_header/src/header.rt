//! What comes after `if` or `for`.

ghost use Rattle.std.specs.Prelude.{◌≡◌, ◌<◌, ◌^◌, true, false, option_map, map};
ghost use Rattle.syntax.specs.Measures.{highest, expression_height};
ghost use Rattle.syntax.specs.View.{expression_of, simple_of, if_head_of, target_of, for_head_of};
ghost use Rattle.parser_base.specs.Cursor.{ahead};
ghost use Rattle.parser_base.specs.Reading.{Gives};
ghost use Rattle.parser_simple.specs.Reading.{passed, simple};
ghost use Rattle.parser_header.specs.Reading.{is_primary, condition_or_sent, ends_condition, headed_on, head_received, called_head, head_called, head, condition, if_header, unless_next, for_clauses, post_after, ranged, range_defined, range_assigned, ranges, for_begun, for_header};
ghost use Rattle.parser_header.specs.Heads.{head_of};

use parser_base::beside::beside;
use parser_base::cursor::Cursor;
use parser_base::expression::{Measured, expression, resumed_expression};
use parser_base::fault::ParseFault;
use parser_base::found::Found;
use parser_base::list::List;
use parser_simple::form::{Form, begins_call, begins_with, defines, fits, place_form, within};
use parser_simple::place::{name_at, place_before};
use parser_simple::right::{
    call_operand, expression_after, measured_arguments, receive_from, receive_operand,
};
use parser_simple::simple::{call_alone, simple_statement, statement_unless_value};
use scanner::TokenKind;
use std::alloc::Global;
use syntax::limits::MAX_ENTRIES;
use syntax::{ExpressionNode, ForHeader, IfHeader, RangeTarget, SimpleNode};

/// What comes after `if` or `for`: a simple statement, or a condition.
#[derive(Drop)]
pub enum HeadNode {
    Simple(SimpleNode),
    Condition(ExpressionNode),
}

/// Whether there is no operation but selections outside parentheses.
fn is_primary(expression: &ExpressionNode) -> bool
    ensures { result ≡ is_primary (expression_of expression.now) }
{
    !matches!(
        expression,
        ExpressionNode::Unary(..) | ExpressionNode::Binary(..) | ExpressionNode::Receive(..)
    )
}

/// A condition that was read, or a send on it.
fn condition_or_send(
    alloc: Global,
    depth_left: u32,
    found: Found<'_, ExpressionNode>,
) -> Result<(HeadNode, Cursor<'_>), ParseFault>
    ensures { Gives (λ x. (head_of x.0, ahead x.1)) result (condition_or_sent MAX_ENTRIES depth_left (expression_of found.entry.node, ahead found.entry.rest)) }
{
    if !begins_with(TokenKind::Arrow, found.rest) || !is_primary(&found.node) {
        return Ok((HeadNode::Condition(found.node), found.rest));
    }
    let (channel, value) = beside(
        found.node,
        expression_after(alloc, false, depth_left, TokenKind::Arrow, found.rest),
    )?;
    let sent = SimpleNode::Send(channel, value.node);
    Ok((HeadNode::Simple(sent), value.rest))
}

/// Whether a condition ends here, or a send goes on with it.
fn ends_condition(condition: &ExpressionNode, cursor: Cursor<'_>) -> bool
    ensures { result ≡ ends_condition (expression_of condition.now) (ahead cursor.entry) }
{
    begins_with(TokenKind::LeftBrace, cursor)
        || (begins_with(TokenKind::Arrow, cursor) && is_primary(condition))
}

/// A condition that begins with the operand `left`, which was read before and may be one level too high, or a send whose
/// channel does.
#[tactic(auto, unfolding(crate::specs::Reading::headed_on))]
fn condition_on(
    alloc: Global,
    depth_left: u32,
    left: Measured<'_>,
) -> Result<(HeadNode, Cursor<'_>), ParseFault>
    requires { left.height ≡ expression_height (expression_of left.node) }
    ensures { Gives (λ x. (head_of x.0, ahead x.1)) result (headed_on MAX_ENTRIES depth_left (expression_of left.entry.node) (ahead left.entry.rest)) }
{
    let found = resumed_expression(alloc, false, depth_left, 0, left)?;
    let goes = ends_condition(&found.node, found.rest);
    let low = within(found.height, depth_left, goes, found.rest);
    let (found, ()) = beside(found, low)?;
    condition_or_send(
        alloc,
        depth_left,
        Found {
            node: found.node,
            rest: found.rest,
        },
    )
}

/// A receive alone, or a condition that begins with it.
fn receive_or_condition(
    alloc: Global,
    depth_left: u32,
    cursor: Cursor<'_>,
) -> Result<(HeadNode, Cursor<'_>), ParseFault>
    ensures { Gives (λ x. (head_of x.0, ahead x.1)) result (head_received MAX_ENTRIES depth_left (ahead cursor.entry)) }
{
    let channel = receive_operand(alloc, false, depth_left, cursor)?;
    if begins_with(TokenKind::Semicolon, channel.rest) {
        let alone = SimpleNode::Receive(channel.node);
        return Ok((HeadNode::Simple(alone), channel.rest));
    }
    let left = receive_from(alloc, channel)?;
    condition_on(alloc, depth_left, left)
}

/// A call alone, or a condition or a send that begins with it. The highest of its arguments has `levels` levels.
fn call_or_condition<'a>(
    alloc: Global,
    depth_left: u32,
    name: &[u8],
    all: List<'a, ExpressionNode>,
    levels: usize,
) -> Result<(HeadNode, Cursor<'a>), ParseFault>
    requires height { levels ≡ highest expression_height (map expression_of all.entries.items) }
    requires low { levels < 2 ^ 32 }
    ensures { Gives (λ x. (head_of x.0, ahead x.1)) result (called_head MAX_ENTRIES depth_left name.now (passed (map expression_of all.entry.entries.items) all.entry.trailing, ahead all.entry.rest)) }
{
    if begins_with(TokenKind::Semicolon, all.rest) {
        let found = call_alone(alloc, name, all)?;
        return Ok((HeadNode::Simple(found.node), found.rest));
    }
    let left = call_operand(alloc, name, all, levels)?;
    condition_on(alloc, depth_left, left)
}

/// A statement or a condition that begins with a call.
#[tactic(auto, unfolding(crate::specs::Reading::head_called))]
fn begun_by_call(
    alloc: Global,
    depth_left: u32,
    cursor: Cursor<'_>,
) -> Result<(HeadNode, Cursor<'_>), ParseFault>
    ensures { Gives (λ x. (head_of x.0, ahead x.1)) result (head_called MAX_ENTRIES depth_left (ahead cursor.entry)) }
{
    let (name, following) = cursor.plain_name()?;
    let (all, levels) = measured_arguments(alloc, false, depth_left, following)?;
    call_or_condition(alloc, depth_left, name, all, levels)
}

/// A simple statement or a condition, without composite literals, with at most `depth_left` levels below it.
#[tactic(auto, unfolding(crate::specs::Reading::head))]
pub fn simple_or_condition(
    alloc: Global,
    depth_left: u32,
    cursor: Cursor<'_>,
) -> Result<(HeadNode, Cursor<'_>), ParseFault>
    ensures { Gives (λ x. (head_of x.0, ahead x.1)) result (head MAX_ENTRIES depth_left (ahead cursor.entry)) }
{
    if begins_with(TokenKind::Arrow, cursor) {
        return receive_or_condition(alloc, depth_left, cursor);
    }
    if begins_call(cursor) {
        return begun_by_call(alloc, depth_left, cursor);
    }
    let found = statement_unless_value(alloc, false, true, depth_left, cursor)?;
    let rest = found.rest;
    match found.node {
        Some(simple) => Ok((HeadNode::Simple(simple), rest)),
        None => {
            fits(true, false, depth_left, rest)?;
            let found = expression(alloc, false, depth_left, 0, rest)?;
            condition_or_send(alloc, depth_left, found)
        }
    }
}

/// What is between an `if` and its block ("If statements" of the Go specification), with at most `depth_left` levels below it.
#[tactic(auto, unfolding(crate::specs::Reading::if_header))]
pub fn if_header(
    alloc: Global,
    depth_left: u32,
    cursor: Cursor<'_>,
) -> Result<((IfHeader, ExpressionNode), Cursor<'_>), ParseFault>
    ensures { Gives (λ x. ((if_head_of x.0.0, expression_of x.0.1), ahead x.1)) result (if_header MAX_ENTRIES depth_left (ahead cursor.entry)) }
{
    if begins_with(TokenKind::Semicolon, cursor) {
        let found = expression_after(alloc, false, depth_left, TokenKind::Semicolon, cursor)?;
        return Ok(((IfHeader::Semicolon, found.node), found.rest));
    }
    let (head, rest) = simple_or_condition(alloc, depth_left, cursor)?;
    match head {
        HeadNode::Simple(simple) => {
            let (simple, found) = beside(
                simple,
                expression_after(alloc, false, depth_left, TokenKind::Semicolon, rest),
            )?;
            Ok(((IfHeader::Simple(simple), found.node), found.rest))
        }
        HeadNode::Condition(condition) => Ok(((IfHeader::Bare, condition), rest)),
    }
}

/// A condition, unless a semicolon comes next.
fn optional_condition(
    alloc: Global,
    depth_left: u32,
    cursor: Cursor<'_>,
) -> Result<(Option<ExpressionNode>, Cursor<'_>), ParseFault>
    ensures { Gives (λ x. (option_map expression_of x.0, ahead x.1)) result (unless_next TokenKind.Semicolon (condition MAX_ENTRIES depth_left) (ahead cursor.entry)) }
{
    if begins_with(TokenKind::Semicolon, cursor) {
        return Ok((None, cursor));
    }
    let found = expression(alloc, false, depth_left, 0, cursor)?;
    Ok((Some(found.node), found.rest))
}

/// The post statement of a `for`, unless a brace comes next.
fn optional_post(
    alloc: Global,
    depth_left: u32,
    cursor: Cursor<'_>,
) -> Result<(Option<SimpleNode>, Cursor<'_>), ParseFault>
    ensures { Gives (λ x. (option_map simple_of x.0, ahead x.1)) result (unless_next TokenKind.LeftBrace (simple false false MAX_ENTRIES depth_left) (ahead cursor.entry)) }
{
    if begins_with(TokenKind::LeftBrace, cursor) {
        return Ok((None, cursor));
    }
    let found = simple_statement(alloc, false, false, depth_left, cursor)?;
    Ok((Some(found.node), found.rest))
}

/// The post statement, after the second semicolon of a `for`.
fn post_after_semicolon(
    alloc: Global,
    depth_left: u32,
    cursor: Cursor<'_>,
) -> Result<(Option<SimpleNode>, Cursor<'_>), ParseFault>
    ensures { Gives (λ x. (option_map simple_of x.0, ahead x.1)) result (post_after MAX_ENTRIES depth_left (ahead cursor.entry)) }
{
    let rest = cursor.expect(TokenKind::Semicolon)?;
    optional_post(alloc, depth_left, rest)
}

/// The clauses of a `for` after the first semicolon, before which `first` was read.
#[tactic(auto, unfolding(crate::specs::Reading::for_clauses))]
fn for_clauses(
    alloc: Global,
    depth_left: u32,
    first: Option<SimpleNode>,
    cursor: Cursor<'_>,
) -> Result<(ForHeader, Cursor<'_>), ParseFault>
    ensures { Gives (λ x. (for_head_of x.0, ahead x.1)) result (for_clauses (option_map simple_of first) MAX_ENTRIES depth_left (ahead cursor.entry)) }
{
    let (first, (condition, rest)) = beside(first, optional_condition(alloc, depth_left, cursor))?;
    let ((first, condition), (post, rest)) = beside(
        (first, condition),
        post_after_semicolon(alloc, depth_left, rest),
    )?;
    Ok((ForHeader::Clauses(first, condition, post), rest))
}

/// The `range` of a `for` from its word on, which comes after `target`.
#[tactic(auto, unfolding(crate::specs::Reading::ranged))]
fn range_clause(
    alloc: Global,
    depth_left: u32,
    target: RangeTarget,
    cursor: Cursor<'_>,
) -> Result<(ForHeader, Cursor<'_>), ParseFault>
    ensures { Gives (λ x. (for_head_of x.0, ahead x.1)) result (ranged (target_of target) MAX_ENTRIES depth_left (ahead cursor.entry)) }
{
    let (target, found) = beside(
        target,
        expression_after(alloc, false, depth_left, TokenKind::Range, cursor),
    )?;
    Ok((ForHeader::Range(target, found.node), found.rest))
}

/// A `range` that defines a name.
#[tactic(auto, unfolding(crate::specs::Reading::range_defined))]
fn defining_range(
    alloc: Global,
    depth_left: u32,
    cursor: Cursor<'_>,
) -> Result<(ForHeader, Cursor<'_>), ParseFault>
    ensures { Gives (λ x. (for_head_of x.0, ahead x.1)) result (range_defined MAX_ENTRIES depth_left (ahead cursor.entry)) }
{
    let (name, rest) = name_at(alloc, cursor)?;
    let (name, rest) = beside(name, rest.expect(TokenKind::Define))?;
    range_clause(alloc, depth_left, RangeTarget::Define(name), rest)
}

/// A `range` that assigns to an lvalue.
#[tactic(auto, unfolding(crate::specs::Reading::range_assigned))]
fn assigning_range(
    alloc: Global,
    depth_left: u32,
    cursor: Cursor<'_>,
) -> Result<(ForHeader, Cursor<'_>), ParseFault>
    ensures { Gives (λ x. (for_head_of x.0, ahead x.1)) result (range_assigned MAX_ENTRIES depth_left (ahead cursor.entry)) }
{
    let (place, rest) = place_before(alloc, TokenKind::Assign, cursor)?;
    range_clause(alloc, depth_left, RangeTarget::Assign(place), rest)
}

/// Whether `range` follows an assignment's mark.
fn ranges(form: Form) -> bool
    ensures { result ≡ ranges form }
{
    matches!(form, Form::Assign(true) | Form::Define(true))
}

/// What is between a `for` and its block, if that begins with no mark of its own.
#[tactic(auto, unfolding(crate::specs::Reading::for_begun))]
fn unmarked_for_header(
    alloc: Global,
    depth_left: u32,
    cursor: Cursor<'_>,
) -> Result<(ForHeader, Cursor<'_>), ParseFault>
    ensures { Gives (λ x. (for_head_of x.0, ahead x.1)) result (for_begun MAX_ENTRIES depth_left (ahead cursor.entry)) }
{
    if ranges(place_form(cursor)) {
        if defines(cursor) {
            return defining_range(alloc, depth_left, cursor);
        }
        return assigning_range(alloc, depth_left, cursor);
    }
    let (head, rest) = simple_or_condition(alloc, depth_left, cursor)?;
    match head {
        HeadNode::Simple(simple) => {
            let (simple, rest) = beside(simple, rest.expect(TokenKind::Semicolon))?;
            for_clauses(alloc, depth_left, Some(simple), rest)
        }
        HeadNode::Condition(condition) => Ok((ForHeader::While(condition), rest)),
    }
}

/// What is between a `for` and its block ("For statements" of the Go specification), with at most `depth_left` levels below it.
#[tactic(auto, unfolding(crate::specs::Reading::for_header))]
pub fn for_header(
    alloc: Global,
    depth_left: u32,
    cursor: Cursor<'_>,
) -> Result<(ForHeader, Cursor<'_>), ParseFault>
    ensures { Gives (λ x. (for_head_of x.0, ahead x.1)) result (for_header MAX_ENTRIES depth_left (ahead cursor.entry)) }
{
    if begins_with(TokenKind::LeftBrace, cursor) {
        return Ok((ForHeader::Forever, cursor));
    }
    if begins_with(TokenKind::Semicolon, cursor) {
        let rest = cursor.expect(TokenKind::Semicolon)?;
        return for_clauses(alloc, depth_left, None, rest);
    }
    if begins_with(TokenKind::Range, cursor) {
        return range_clause(alloc, depth_left, RangeTarget::Nothing, cursor);
    }
    unmarked_for_header(alloc, depth_left, cursor)
}
