//! The spans of the nodes of headers, and of those of what a clause of a select waits for.

ghost use Rattle.std.specs.Prelude.{◌≡◌, ◌+◌, ◌++◌, IfOk, option_map};
ghost use Rattle.syntax.specs.Measures.{if_any};
ghost use Rattle.syntax.specs.Tree.{CommAssign, ForClauses, Range};
ghost use Rattle.syntax.specs.View.{name_of, expression_of, place_of, right_of, simple_of, if_head_of, target_of, for_head_of, comm_of, returned_of};
ghost use Rattle.spans.specs.Words.{EndsInReach, expression_count, simple_count, if_head_count, target_count, for_head_count, second_count, second_name_count, comm_count, start_count, initial_count, returned_count};
ghost use Rattle.spans.specs.Places.{optional_spans, expression_spans, simple_spans, if_head_spans, target_spans, for_head_spans, second_spans, receive_spans, below_comm, comm_spans, start_spans, initial_spans, returned_spans};

use crate::expression::expression_spans;
use crate::over::add_node;
use crate::simple::{place_span, right_spans, send_spans, simple_spans};
use go_text::{Memory, Span};
use scanner::Token;
use syntax::{
    CommNode, ExpressionNode, ForHeader, IfHeader, Name, PlaceNode, RangeTarget, ReturnNode,
    SimpleNode,
};

/// Adds the spans of what is between an `if` and its condition.
pub(crate) fn if_head_spans(
    header: &IfHeader,
    tokens: &[Token],
    at: usize,
    spans: &mut Vec<Span>,
) -> Result<usize, Memory>
    requires { EndsInReach at (if_head_count (if_head_of header.now)) }
    ensures count { IfOk result (λ count. count ≡ if_head_count (if_head_of header.now)) }
    ensures spans { IfOk result (λ _. spans.new.items ≡ spans.old.items ++ if_head_spans tokens.now at (if_head_of header.now)) }
{
    match header {
        IfHeader::Bare => Ok(0),
        IfHeader::Semicolon => Ok(1),
        IfHeader::Simple(simple) => Ok(simple_spans(simple, tokens, at, spans)? + 1),
    }
}

/// Adds the span of what a range assigns to, before its mark.
fn target_spans(
    target: &RangeTarget,
    tokens: &[Token],
    at: usize,
    spans: &mut Vec<Span>,
) -> Result<usize, Memory>
    requires { EndsInReach at (target_count (target_of target.now)) }
    ensures count { IfOk result (λ count. count ≡ target_count (target_of target.now)) }
    ensures spans { IfOk result (λ _. spans.new.items ≡ spans.old.items ++ target_spans tokens.now at (target_of target.now)) }
{
    match target {
        RangeTarget::Nothing => Ok(0),
        RangeTarget::Define(_) => Ok(2),
        RangeTarget::Assign(place) => Ok(place_span(place, tokens, at, spans)? + 1),
    }
}

/// Adds the spans of a simple statement that may be left out.
fn optional_simple_spans(
    simple: &Option<SimpleNode>,
    tokens: &[Token],
    at: usize,
    spans: &mut Vec<Span>,
) -> Result<usize, Memory>
    requires { EndsInReach at (if_any simple_count (option_map simple_of simple.now)) }
    ensures count { IfOk result (λ count. count ≡ if_any simple_count (option_map simple_of simple.now)) }
    ensures spans { IfOk result (λ _. spans.new.items ≡ spans.old.items ++ optional_spans simple_spans tokens.now at (option_map simple_of simple.now)) }
{
    match simple {
        None => Ok(0),
        Some(simple) => simple_spans(simple, tokens, at, spans),
    }
}

/// Adds the spans of an expression that may be left out.
fn optional_expression_spans(
    expression: &Option<ExpressionNode>,
    tokens: &[Token],
    at: usize,
    spans: &mut Vec<Span>,
) -> Result<usize, Memory>
    requires { EndsInReach at (if_any expression_count (option_map expression_of expression.now)) }
    ensures count { IfOk result (λ count. count ≡ if_any expression_count (option_map expression_of expression.now)) }
    ensures spans { IfOk result (λ _. spans.new.items ≡ spans.old.items ++ optional_spans expression_spans tokens.now at (option_map expression_of expression.now)) }
{
    match expression {
        None => Ok(0),
        Some(expression) => expression_spans(expression, tokens, at, spans),
    }
}

/// Adds the spans of the clauses of a `for`.
fn for_clauses_spans(
    first: &Option<SimpleNode>,
    condition: &Option<ExpressionNode>,
    post: &Option<SimpleNode>,
    tokens: &[Token],
    at: usize,
    spans: &mut Vec<Span>,
) -> Result<usize, Memory>
    requires { EndsInReach at (for_head_count (ForClauses (option_map simple_of first.now) (option_map expression_of condition.now) (option_map simple_of post.now))) }
    ensures count { IfOk result (λ count. count ≡ for_head_count (ForClauses (option_map simple_of first.now) (option_map expression_of condition.now) (option_map simple_of post.now))) }
    ensures spans { IfOk result (λ _. spans.new.items ≡ spans.old.items ++ for_head_spans tokens.now at (ForClauses (option_map simple_of first.now) (option_map expression_of condition.now) (option_map simple_of post.now))) }
{
    let first = optional_simple_spans(first, tokens, at, spans)?;
    let second = optional_expression_spans(condition, tokens, at + first + 1, spans)?;
    let third = optional_simple_spans(post, tokens, at + first + 1 + second + 1, spans)?;
    Ok(first + second + third + 2)
}

/// Adds the spans of a range.
fn range_spans(
    target: &RangeTarget,
    channel: &ExpressionNode,
    tokens: &[Token],
    at: usize,
    spans: &mut Vec<Span>,
) -> Result<usize, Memory>
    requires { EndsInReach at (for_head_count (Range (target_of target.now) (expression_of channel.now))) }
    ensures count { IfOk result (λ count. count ≡ for_head_count (Range (target_of target.now) (expression_of channel.now))) }
    ensures spans { IfOk result (λ _. spans.new.items ≡ spans.old.items ++ for_head_spans tokens.now at (Range (target_of target.now) (expression_of channel.now))) }
{
    let count = target_spans(target, tokens, at, spans)?;
    Ok(count + expression_spans(channel, tokens, at + count + 1, spans)? + 1)
}

/// Adds the spans of what is between a `for` and its block.
pub(crate) fn for_head_spans(
    header: &ForHeader,
    tokens: &[Token],
    at: usize,
    spans: &mut Vec<Span>,
) -> Result<usize, Memory>
    requires { EndsInReach at (for_head_count (for_head_of header.now)) }
    ensures count { IfOk result (λ count. count ≡ for_head_count (for_head_of header.now)) }
    ensures spans { IfOk result (λ _. spans.new.items ≡ spans.old.items ++ for_head_spans tokens.now at (for_head_of header.now)) }
{
    match header {
        ForHeader::Forever => Ok(0),
        ForHeader::While(condition) => expression_spans(condition, tokens, at, spans),
        ForHeader::Clauses(first, condition, post) => {
            for_clauses_spans(first, condition, post, tokens, at, spans)
        }
        ForHeader::Range(target, channel) => range_spans(target, channel, tokens, at, spans),
    }
}

/// Adds the span of a second lvalue, if there is one, after a comma.
fn second_spans(
    place: &Option<PlaceNode>,
    tokens: &[Token],
    at: usize,
    spans: &mut Vec<Span>,
) -> Result<usize, Memory>
    requires { EndsInReach at (second_count (option_map place_of place.now)) }
    ensures count { IfOk result (λ count. count ≡ second_count (option_map place_of place.now)) }
    ensures spans { IfOk result (λ _. spans.new.items ≡ spans.old.items ++ second_spans tokens.now at (option_map place_of place.now)) }
{
    match place {
        None => Ok(0),
        Some(place) => Ok(place_span(place, tokens, at + 1, spans)? + 1),
    }
}

/// Adds the spans of a receive.
fn receive_spans(
    channel: &ExpressionNode,
    tokens: &[Token],
    at: usize,
    spans: &mut Vec<Span>,
) -> Result<usize, Memory>
    requires { EndsInReach at (expression_count (expression_of channel.now) + 1) }
    ensures count { IfOk result (λ count. count ≡ expression_count (expression_of channel.now) + 1) }
    ensures spans { IfOk result (λ _. spans.new.items ≡ spans.old.items ++ receive_spans tokens.now at (expression_of channel.now)) }
{
    let count = expression_spans(channel, tokens, at + 1, spans)? + 1;
    add_node(tokens, at, count, spans)
}

/// How many tokens spell a second name, if there is one, after a comma.
fn second_name_count(name: &Option<Name>) -> usize
    ensures { result ≡ second_name_count (option_map name_of name.now) }
{
    match name {
        None => 0,
        Some(_) => 2,
    }
}

/// Adds the spans of one lvalue or two, and of the receive that is assigned to them.
fn assign_spans(
    item: &PlaceNode,
    ok: &Option<PlaceNode>,
    channel: &ExpressionNode,
    tokens: &[Token],
    at: usize,
    spans: &mut Vec<Span>,
) -> Result<usize, Memory>
    requires { EndsInReach at (comm_count (CommAssign (place_of item.now) (option_map place_of ok.now) (expression_of channel.now))) }
    ensures count { IfOk result (λ count. count ≡ comm_count (CommAssign (place_of item.now) (option_map place_of ok.now) (expression_of channel.now))) }
    ensures spans { IfOk result (λ _. spans.new.items ≡ spans.old.items ++ below_comm tokens.now at (CommAssign (place_of item.now) (option_map place_of ok.now) (expression_of channel.now))) }
{
    let first = place_span(item, tokens, at, spans)?;
    let second = second_spans(ok, tokens, at + first, spans)?;
    Ok(first + second + receive_spans(channel, tokens, at + first + second + 1, spans)? + 1)
}

/// Adds the spans of what a clause of a select waits for.
fn comm_spans(
    comm: &CommNode,
    tokens: &[Token],
    at: usize,
    spans: &mut Vec<Span>,
) -> Result<usize, Memory>
    requires { EndsInReach at (comm_count (comm_of comm.now)) }
    ensures count { IfOk result (λ count. count ≡ comm_count (comm_of comm.now)) }
    ensures spans { IfOk result (λ _. spans.new.items ≡ spans.old.items ++ comm_spans tokens.now at (comm_of comm.now)) }
{
    let count = match comm {
        CommNode::Send(channel, value) => send_spans(channel, value, tokens, at, spans)?,
        CommNode::Receive(channel) => expression_spans(channel, tokens, at + 1, spans)? + 1,
        CommNode::Define(_, ok, channel) => {
            let second = second_name_count(ok);
            second + receive_spans(channel, tokens, at + second + 2, spans)? + 2
        }
        CommNode::Assign(item, ok, channel) => assign_spans(item, ok, channel, tokens, at, spans)?,
    };
    add_node(tokens, at, count, spans)
}

/// Adds the spans of a clause of a select up to its colon.
pub(crate) fn start_spans(
    comm: &Option<CommNode>,
    tokens: &[Token],
    at: usize,
    spans: &mut Vec<Span>,
) -> Result<usize, Memory>
    requires { EndsInReach at (start_count (option_map comm_of comm.now)) }
    ensures count { IfOk result (λ count. count ≡ start_count (option_map comm_of comm.now)) }
    ensures spans { IfOk result (λ _. spans.new.items ≡ spans.old.items ++ start_spans tokens.now at (option_map comm_of comm.now)) }
{
    match comm {
        None => Ok(2),
        Some(comm) => Ok(comm_spans(comm, tokens, at + 1, spans)? + 2),
    }
}

/// Adds the spans of the values of a `var` with a type, if there are any, after a `=`.
pub(crate) fn initial_spans(
    right: &Option<Vec<ExpressionNode>>,
    tokens: &[Token],
    at: usize,
    spans: &mut Vec<Span>,
) -> Result<usize, Memory>
    requires { EndsInReach at (initial_count (option_map right_of right.now)) }
    ensures count { IfOk result (λ count. count ≡ initial_count (option_map right_of right.now)) }
    ensures spans { IfOk result (λ _. spans.new.items ≡ spans.old.items ++ initial_spans tokens.now at (option_map right_of right.now)) }
{
    match right {
        None => Ok(0),
        Some(right) => Ok(right_spans(right, tokens, at + 1, spans)? + 1),
    }
}

/// Adds the spans of what follows a `return`.
pub(crate) fn returned_spans(
    returned: &ReturnNode,
    tokens: &[Token],
    at: usize,
    spans: &mut Vec<Span>,
) -> Result<usize, Memory>
    requires { EndsInReach at (returned_count (returned_of returned.now)) }
    ensures count { IfOk result (λ count. count ≡ returned_count (returned_of returned.now)) }
    ensures spans { IfOk result (λ _. spans.new.items ≡ spans.old.items ++ returned_spans tokens.now at (returned_of returned.now)) }
{
    match returned {
        ReturnNode::Nothing => Ok(0),
        ReturnNode::Value(value) => expression_spans(value, tokens, at, spans),
    }
}
