//! The spans of the nodes of types.

ghost use Rattle.std.specs.Prelude.{◌≡◌, ◌++◌, IfOk};
ghost use Rattle.syntax.specs.View.{type_of};
ghost use Rattle.spans.specs.Words.{EndsInReach, direction_count, type_count};
ghost use Rattle.spans.specs.Places.{type_spans};

use crate::over::add_node;
use go_text::{Memory, Span};
use scanner::Token;
use syntax::{Direction, TypeNode};

/// How many tokens a channel type begins with.
fn direction_count(direction: Direction) -> usize
    ensures { result ≡ direction_count direction }
{
    match direction {
        Direction::Both => 1,
        Direction::Send | Direction::Receive => 2,
    }
}

/// Adds the spans of a type.
pub(crate) fn type_spans(
    kind: &TypeNode,
    tokens: &[Token],
    at: usize,
    spans: &mut Vec<Span>,
) -> Result<usize, Memory>
    requires { EndsInReach at (type_count (type_of kind.now)) }
    ensures count { IfOk result (λ count. count ≡ type_count (type_of kind.now)) }
    ensures spans { IfOk result (λ _. spans.new.items ≡ spans.old.items ++ type_spans tokens.now at (type_of kind.now)) }
{
    let count = match kind {
        TypeNode::Named(_) => 1,
        TypeNode::Parenthesized(inner) => type_spans(inner, tokens, at + 1, spans)? + 2,
        TypeNode::Channel(direction, element) => {
            let first = direction_count(*direction);
            first + type_spans(element, tokens, at + first, spans)?
        }
    };
    add_node(tokens, at, count, spans)
}
