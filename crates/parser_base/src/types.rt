//! Types.

ghost use Rattle.std.specs.Prelude.{◌≡◌, ◌≤◌, ◌<◌, ◌^◌, ◌-◌, IfOk, IfErr};
ghost use Rattle.parser_base.specs.declared.fault.ParseFault.TheVariants as faults;
ghost use Rattle.syntax.specs.Tree.{NamedType, ParenthesizedType, Channel};
ghost use Rattle.syntax.specs.Measures.{type_height};
ghost use Rattle.syntax.specs.View.{type_of};
ghost use Rattle.parser_base.specs.Cursor.{ahead};
ghost use Rattle.parser_base.specs.Reading.{Gives, parenthesized_type, channel_type, after_chan, after_arrow, type_at};

use crate::cursor::{Cursor, Word, is_builtin};
use crate::fault::ParseFault;
use crate::found::Found;
use crate::node::name_node;
use scanner::TokenKind;
use std::alloc::Global;
use syntax::{Direction, TypeNode};

/// How many levels a type has.
pub fn type_height(kind: &TypeNode) -> u32
    requires { type_height (type_of kind.now) < 2 ^ 32 }
    ensures { result ≡ type_height (type_of kind.now) }
{
    match kind {
        TypeNode::Named(_) => 1,
        TypeNode::Parenthesized(inner) => type_height(inner) + 1,
        TypeNode::Channel(_, element) => type_height(element) + 1,
    }
}

/// A type's name, as a node.
fn named_node(alloc: Global, name: &[u8]) -> Result<TypeNode, ParseFault>
    ensures ok { IfOk result (λ tree. type_of tree ≡ NamedType name.now) }
    ensures err { IfErr result (λ e. e ≡ faults.Memory) }
{
    Ok(TypeNode::Named(name_node(alloc, name)?))
}

/// A type in parentheses, as a node.
fn parenthesized_node(alloc: Global, inner: TypeNode) -> Result<TypeNode, ParseFault>
    ensures ok { IfOk result (λ tree. type_of tree ≡ ParenthesizedType (type_of inner)) }
    ensures err { IfErr result (λ e. e ≡ faults.Memory) }
{
    Ok(TypeNode::Parenthesized(Box::new(alloc, inner)?))
}

/// A channel type, as a node.
fn channel_node(
    alloc: Global,
    direction: Direction,
    element: TypeNode,
) -> Result<TypeNode, ParseFault>
    ensures ok { IfOk result (λ tree. type_of tree ≡ Channel direction (type_of element)) }
    ensures err { IfErr result (λ e. e ≡ faults.Memory) }
{
    Ok(TypeNode::Channel(direction, Box::new(alloc, element)?))
}

/// A type in parentheses, after the opening one, which is at `first`.
#[cycle(type_at)]
#[tactic(auto, unfolding(crate::specs::Reading::parenthesized_type, crate::specs::Reading::type_at))]
fn parenthesized_type<'a>(
    alloc: Global,
    depth_left: u32,
    first: Cursor<'a>,
    cursor: Cursor<'a>,
) -> Result<Found<'a, TypeNode>, ParseFault>
    requires { 1 ≤ depth_left }
    ensures { Gives (λ x. (type_of x.node, ahead x.rest)) result (parenthesized_type (type_at (depth_left - 1)) (ahead cursor.entry)) }
{
    if depth_left < 2 {
        return Err(ParseFault::TooDeep(first.place()));
    }
    let inner = type_at(alloc, depth_left - 1, cursor)?;
    let rest = inner.rest.expect(TokenKind::RightParenthesis)?;
    let node = parenthesized_node(alloc, inner.node)?;
    Ok(Found { node, rest })
}

/// A channel type of this direction, from the type of its elements on; its first token is at `first`.
#[cycle(type_at)]
#[tactic(auto, unfolding(crate::specs::Reading::type_at))]
fn channel_type<'a>(
    alloc: Global,
    depth_left: u32,
    direction: Direction,
    first: Cursor<'a>,
    cursor: Cursor<'a>,
) -> Result<Found<'a, TypeNode>, ParseFault>
    requires { 1 ≤ depth_left }
    ensures { Gives (λ x. (type_of x.node, ahead x.rest)) result (channel_type direction (type_at (depth_left - 1)) (ahead cursor.entry)) }
{
    if depth_left < 2 {
        return Err(ParseFault::TooDeep(first.place()));
    }
    let element = type_at(alloc, depth_left - 1, cursor)?;
    let node = channel_node(alloc, direction, element.node)?;
    Ok(Found {
        node,
        rest: element.rest,
    })
}

/// A channel type after `chan`, which is at `first`: send-only if `<-` follows.
#[cycle(type_at)]
#[tactic(auto, unfolding(crate::specs::Reading::after_chan))]
fn after_chan<'a>(
    alloc: Global,
    depth_left: u32,
    first: Cursor<'a>,
    cursor: Cursor<'a>,
) -> Result<Found<'a, TypeNode>, ParseFault>
    requires { 1 ≤ depth_left }
    ensures { Gives (λ x. (type_of x.node, ahead x.rest)) result (after_chan (type_at (depth_left - 1)) (ahead cursor.entry)) }
{
    if let Some((Word::Mark(kind), rest)) = cursor.next() {
        if kind == TokenKind::Arrow {
            return channel_type(alloc, depth_left, Direction::Send, first, rest);
        }
    }
    channel_type(alloc, depth_left, Direction::Both, first, cursor)
}

/// A receive-only channel type, after `<-`, which is at `first`.
#[cycle(type_at)]
#[tactic(auto, unfolding(crate::specs::Reading::after_arrow))]
fn after_arrow<'a>(
    alloc: Global,
    depth_left: u32,
    first: Cursor<'a>,
    cursor: Cursor<'a>,
) -> Result<Found<'a, TypeNode>, ParseFault>
    requires { 1 ≤ depth_left }
    ensures { Gives (λ x. (type_of x.node, ahead x.rest)) result (after_arrow (type_at (depth_left - 1)) (ahead cursor.entry)) }
{
    let rest = cursor.expect(TokenKind::Chan)?;
    channel_type(alloc, depth_left, Direction::Receive, first, rest)
}

/// A type of at most `depth_left` levels ("Types" of the Go specification: a name, a channel type, or one in parentheses).
#[cycle(type_at)]
#[tactic(auto, unfolding(crate::specs::Reading::type_at))]
pub fn type_at(
    alloc: Global,
    depth_left: u32,
    cursor: Cursor<'_>,
) -> Result<Found<'_, TypeNode>, ParseFault>
    ensures { Gives (λ x. (type_of x.node, ahead x.rest)) result (type_at depth_left (ahead cursor.entry)) }
{
    if depth_left == 0 {
        return Err(ParseFault::TooDeep(cursor.place()));
    }
    match cursor.next() {
        Some((Word::Name(name), rest)) => {
            if is_builtin(name) {
                return Err(ParseFault::Syntax(cursor.place()));
            }
            let node = named_node(alloc, name)?;
            Ok(Found { node, rest })
        }
        Some((Word::Mark(kind), rest)) => {
            if kind == TokenKind::LeftParenthesis {
                return parenthesized_type(alloc, depth_left, cursor, rest);
            }
            if kind == TokenKind::Chan {
                return after_chan(alloc, depth_left, cursor, rest);
            }
            if kind == TokenKind::Arrow {
                return after_arrow(alloc, depth_left, cursor, rest);
            }
            Err(ParseFault::Syntax(cursor.place()))
        }
        _ => Err(ParseFault::Syntax(cursor.place())),
    }
}
