//! The bytes of a run of tokens.

ghost use Rattle.std.specs.Prelude.{◌≡◌, IfOk, slice_get};
ghost use Rattle.spans.specs.Words.{EndsInReach};
ghost use Rattle.spans.specs.Places.{from_of, over, under};

use go_text::{Memory, Span};
use scanner::Token;

/// The first byte of a token, or 0 if there is none.
fn from_of(tokens: &[Token], at: usize) -> u32
    ensures { result ≡ from_of (slice_get tokens.now at) }
{
    match tokens.get(at) {
        Some(token) => token.span.from,
        None => 0,
    }
}

/// The bytes of `count` tokens from token `at` on; none if there is no token.
fn over(tokens: &[Token], at: usize, count: usize) -> Span
    requires { EndsInReach at count }
    ensures { result ≡ over tokens.now at count }
{
    let from = from_of(tokens, at);
    if count == 0 {
        return Span { from, to: from };
    }
    let others = count - 1;
    let to = match tokens.get(at + others) {
        Some(token) => token.span.to,
        None => 0,
    };
    Span { from, to }
}

/// Adds the span of a node of `count` tokens, after those of the nodes below it, and returns `count`.
pub(crate) fn add_node(
    tokens: &[Token],
    at: usize,
    count: usize,
    spans: &mut Vec<Span>,
) -> Result<usize, Memory>
    requires { EndsInReach at count }
    ensures count { IfOk result (λ n. n ≡ count) }
    ensures spans { IfOk result (λ _. spans.new.items ≡ under spans.old.items (over tokens.now at count)) }
{
    spans.push(over(tokens, at, count))?;
    Ok(count)
}
