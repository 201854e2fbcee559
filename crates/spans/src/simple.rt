//! The spans of the nodes of simple statements.

ghost use Rattle.std.specs.Prelude.{◌≡◌, ◌+◌, ◌++◌, ◌∷◌, [], IfOk, map, sum_by};
ghost use Rattle.syntax.specs.View.{arguments_of, expression_of, right_of, part_of, place_of, simple_of};
ghost use Rattle.spans.specs.Words.{EndsInReach, joined, arguments_count, right_count, place_count, place_step, part_count, part_step, simple_count, expression_count, trailing_count as trailing_of};
ghost use Rattle.spans.specs.Places.{under, expression_spans, arguments_spans, right_spans, place_span, places_spans, part_spans, parts_spans, below_simple, simple_spans};

use crate::expression::{expression_spans, trailing_count, values_spans};
use crate::over::add_node;
use go_text::{Memory, Span};
use scanner::Token;
use syntax::{ArgumentsNode, ExpressionNode, PartNode, PlaceNode, SimpleNode};

/// Adds the spans of arguments in parentheses.
pub(crate) fn arguments_spans(
    arguments: &ArgumentsNode,
    tokens: &[Token],
    at: usize,
    spans: &mut Vec<Span>,
) -> Result<usize, Memory>
    requires { EndsInReach at (arguments_count (arguments_of arguments.now)) }
    ensures count { IfOk result (λ count. count ≡ arguments_count (arguments_of arguments.now)) }
    ensures spans { IfOk result (λ _. spans.new.items ≡ spans.old.items ++ arguments_spans tokens.now at (arguments_of arguments.now)) }
{
    let count = values_spans(arguments.values.as_slice(), tokens, at + 1, spans)?;
    Ok(count.saturating_sub(1) + trailing_count(arguments.trailing) + 2)
}

/// Adds the spans of the values of a right side.
pub(crate) fn right_spans(
    values: &Vec<ExpressionNode>,
    tokens: &[Token],
    at: usize,
    spans: &mut Vec<Span>,
) -> Result<usize, Memory>
    requires { EndsInReach at (right_count (right_of values.now)) }
    ensures count { IfOk result (λ count. count ≡ right_count (right_of values.now)) }
    ensures spans { IfOk result (λ _. spans.new.items ≡ spans.old.items ++ right_spans tokens.now at (right_of values.now)) }
{
    let count = values_spans(values.as_slice(), tokens, at, spans)?;
    Ok(count.saturating_sub(1))
}

/// Adds the spans of an argument of a print.
fn part_spans(
    part: &PartNode,
    tokens: &[Token],
    at: usize,
    spans: &mut Vec<Span>,
) -> Result<usize, Memory>
    requires { EndsInReach at (part_count (part_of part.now)) }
    ensures count { IfOk result (λ count. count ≡ part_count (part_of part.now)) }
    ensures spans { IfOk result (λ _. spans.new.items ≡ spans.old.items ++ part_spans tokens.now at (part_of part.now)) }
{
    match part {
        PartNode::Value(value) => expression_spans(value, tokens, at, spans),
        PartNode::Text(_) => add_node(tokens, at, 1, spans),
    }
}

/// Adds the spans of the arguments of a print. The count includes a mark after each.
fn parts_spans(
    parts: &[PartNode],
    tokens: &[Token],
    at: usize,
    spans: &mut Vec<Span>,
) -> Result<usize, Memory>
    requires { EndsInReach at (joined (sum_by part_step (map part_of parts.now))) }
    ensures count { IfOk result (λ count. count ≡ sum_by part_step (map part_of parts.now)) }
    ensures spans { IfOk result (λ _. spans.new.items ≡ spans.old.items ++ parts_spans tokens.now at (map part_of parts.now)) }
{
    let mut count = 0;
    for part in parts {
        count += part_spans(part, tokens, at + count, spans)? + 1;
    }
    Ok(count)
}

/// Adds the span of an lvalue.
pub(crate) fn place_span(
    place: &PlaceNode,
    tokens: &[Token],
    at: usize,
    spans: &mut Vec<Span>,
) -> Result<usize, Memory>
    requires { EndsInReach at (place_count (place_of place.now)) }
    ensures count { IfOk result (λ count. count ≡ place_count (place_of place.now)) }
    ensures spans { IfOk result (λ _. spans.new.items ≡ under spans.old.items (place_span tokens.now at (place_of place.now))) }
{
    add_node(tokens, at, place.fields.len() * 2 + 1, spans)
}

/// Adds the spans of lvalues. The count includes a mark after each.
fn places_spans(
    places: &[PlaceNode],
    tokens: &[Token],
    at: usize,
    spans: &mut Vec<Span>,
) -> Result<usize, Memory>
    requires { EndsInReach at (sum_by place_step (map place_of places.now)) }
    ensures count { IfOk result (λ count. count ≡ sum_by place_step (map place_of places.now)) }
    ensures spans { IfOk result (λ _. spans.new.items ≡ spans.old.items ++ places_spans tokens.now at (map place_of places.now)) }
{
    let mut count = 0;
    for place in places {
        count += place_span(place, tokens, at + count, spans)? + 1;
    }
    Ok(count)
}

/// Adds the spans of the nodes below a print.
fn print_spans(
    parts: &[PartNode],
    trailing: bool,
    tokens: &[Token],
    at: usize,
    spans: &mut Vec<Span>,
) -> Result<usize, Memory>
    requires { EndsInReach at (joined (sum_by part_step (map part_of parts.now)) + trailing_of trailing + 3) }
    ensures count { IfOk result (λ count. count ≡ joined (sum_by part_step (map part_of parts.now)) + trailing_of trailing + 3) }
    ensures spans { IfOk result (λ _. spans.new.items ≡ spans.old.items ++ parts_spans tokens.now (at + 2) (map part_of parts.now)) }
{
    let count = parts_spans(parts, tokens, at + 2, spans)?;
    Ok(count.saturating_sub(1) + trailing_count(trailing) + 3)
}

/// Adds the spans of the nodes below a send.
pub(crate) fn send_spans(
    channel: &ExpressionNode,
    value: &ExpressionNode,
    tokens: &[Token],
    at: usize,
    spans: &mut Vec<Span>,
) -> Result<usize, Memory>
    requires { EndsInReach at (expression_count (expression_of channel.now) + expression_count (expression_of value.now) + 1) }
    ensures count { IfOk result (λ count. count ≡ expression_count (expression_of channel.now) + expression_count (expression_of value.now) + 1) }
    ensures spans { IfOk result (λ _. spans.new.items ≡ spans.old.items ++ (expression_spans tokens.now at (expression_of channel.now) ++ expression_spans tokens.now (at + expression_count (expression_of channel.now) + 1) (expression_of value.now))) }
{
    let count = expression_spans(channel, tokens, at, spans)?;
    Ok(count + expression_spans(value, tokens, at + count + 1, spans)? + 1)
}

/// Adds the spans of the nodes below an assignment.
fn assignment_spans(
    places: &[PlaceNode],
    right: &Vec<ExpressionNode>,
    tokens: &[Token],
    at: usize,
    spans: &mut Vec<Span>,
) -> Result<usize, Memory>
    requires { EndsInReach at (sum_by place_step (map place_of places.now) + right_count (right_of right.now)) }
    ensures count { IfOk result (λ count. count ≡ sum_by place_step (map place_of places.now) + right_count (right_of right.now)) }
    ensures spans { IfOk result (λ _. spans.new.items ≡ spans.old.items ++ (places_spans tokens.now at (map place_of places.now) ++ right_spans tokens.now (at + sum_by place_step (map place_of places.now)) (right_of right.now))) }
{
    let count = places_spans(places, tokens, at, spans)?;
    Ok(count + right_spans(right, tokens, at + count, spans)?)
}

/// Adds the span of the lvalue below a step.
fn step_spans(
    place: &PlaceNode,
    tokens: &[Token],
    at: usize,
    spans: &mut Vec<Span>,
) -> Result<usize, Memory>
    requires { EndsInReach at (place_count (place_of place.now) + 1) }
    ensures count { IfOk result (λ count. count ≡ place_count (place_of place.now) + 1) }
    ensures spans { IfOk result (λ _. spans.new.items ≡ spans.old.items ++ place_span tokens.now at (place_of place.now) ∷ []) }
{
    Ok(place_span(place, tokens, at, spans)? + 1)
}

/// Adds the spans of the nodes below an assignment with an operator.
fn update_spans(
    place: &PlaceNode,
    value: &ExpressionNode,
    tokens: &[Token],
    at: usize,
    spans: &mut Vec<Span>,
) -> Result<usize, Memory>
    requires { EndsInReach at (place_count (place_of place.now) + expression_count (expression_of value.now) + 1) }
    ensures count { IfOk result (λ count. count ≡ place_count (place_of place.now) + expression_count (expression_of value.now) + 1) }
    ensures spans { IfOk result (λ _. spans.new.items ≡ spans.old.items ++ place_span tokens.now at (place_of place.now) ∷ expression_spans tokens.now (at + place_count (place_of place.now) + 1) (expression_of value.now)) }
{
    let count = place_span(place, tokens, at, spans)?;
    Ok(count + expression_spans(value, tokens, at + count + 1, spans)? + 1)
}

/// Adds the spans of the nodes below a simple statement. All its tokens are counted.
fn below_simple(
    simple: &SimpleNode,
    tokens: &[Token],
    at: usize,
    spans: &mut Vec<Span>,
) -> Result<usize, Memory>
    requires { EndsInReach at (simple_count (simple_of simple.now)) }
    ensures count { IfOk result (λ count. count ≡ simple_count (simple_of simple.now)) }
    ensures spans { IfOk result (λ _. spans.new.items ≡ spans.old.items ++ below_simple tokens.now at (simple_of simple.now)) }
{
    match simple {
        SimpleNode::Call(_, arguments) => Ok(
            arguments_spans(arguments, tokens, at + 1, spans)? + 1,
        ),
        SimpleNode::Close(channel) => Ok(expression_spans(channel, tokens, at + 2, spans)? + 3),
        SimpleNode::Print(_, parts, trailing) => {
            print_spans(parts.as_slice(), *trailing, tokens, at, spans)
        }
        SimpleNode::Receive(channel) => Ok(expression_spans(channel, tokens, at + 1, spans)? + 1),
        SimpleNode::Send(channel, value) => send_spans(channel, value, tokens, at, spans),
        SimpleNode::Increment(place) | SimpleNode::Decrement(place) => {
            step_spans(place, tokens, at, spans)
        }
        SimpleNode::Assign(places, right) => {
            assignment_spans(places.as_slice(), right, tokens, at, spans)
        }
        SimpleNode::Define(names, right) => {
            let count = names.len() * 2;
            Ok(count + right_spans(right, tokens, at + count, spans)?)
        }
        SimpleNode::Update(place, _, value) => update_spans(place, value, tokens, at, spans),
    }
}

/// Adds the spans of a simple statement.
pub(crate) fn simple_spans(
    simple: &SimpleNode,
    tokens: &[Token],
    at: usize,
    spans: &mut Vec<Span>,
) -> Result<usize, Memory>
    requires { EndsInReach at (simple_count (simple_of simple.now)) }
    ensures count { IfOk result (λ count. count ≡ simple_count (simple_of simple.now)) }
    ensures spans { IfOk result (λ _. spans.new.items ≡ spans.old.items ++ simple_spans tokens.now at (simple_of simple.now)) }
{
    let count = below_simple(simple, tokens, at, spans)?;
    add_node(tokens, at, count, spans)
}
