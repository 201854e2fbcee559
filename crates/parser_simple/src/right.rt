//! Right sides of assignments, and the operands and arguments of calls, sends and receives.

ghost use Rattle.std.specs.Prelude.{◌≡◌, ◌<◌, ◌≤◌, ◌+◌, ◌^◌, IfOk, IfErr, map};
ghost use Rattle.parser_base.specs.declared.fault.ParseFault.TheVariants as faults;
ghost use Rattle.syntax.specs.Tree.{Receive};
ghost use Rattle.syntax.specs.Measures.{highest, expression_height};
ghost use Rattle.syntax.specs.View.{expression_of, arguments_of, right_of};
ghost use Rattle.parser_base.specs.Cursor.{ahead};
ghost use Rattle.parser_base.specs.Reading.{Gives, expression};
ghost use Rattle.parser_simple.specs.Reading.{after_mark, begins_primary, primary, received, passed, arguments, call_of, value_list, right};

use crate::form::value_next;
use parser_base::cursor::{Cursor, Word, is_builtin, makes_value};
use parser_base::expression::{Measured, expression, measured_expression, values};
use parser_base::fault::ParseFault;
use parser_base::found::Found;
use parser_base::list::{List, Next};
use parser_base::node::{call_node, receive_node};
use scanner::TokenKind;
use std::alloc::Global;
use syntax::limits::MAX_ENTRIES;
use syntax::{ArgumentsNode, ExpressionNode};

/// Whether the operand of a send can begin here.
#[tactic(auto, unfolding(crate::specs::Reading::begins_primary))]
fn begins_primary(cursor: Cursor<'_>) -> bool
    ensures { result ≡ begins_primary (ahead cursor.entry) }
{
    match cursor.next() {
        Some((Word::Literal(_), _)) => true,
        Some((Word::Name(name), _)) => !is_builtin(name) || makes_value(name),
        Some((Word::Mark(kind), _)) => kind == TokenKind::LeftParenthesis,
        _ => false,
    }
}

/// The operand of a send: an expression without operators but selections.
#[tactic(auto, unfolding(crate::specs::Reading::primary))]
pub fn primary_expression(
    alloc: Global,
    literals: bool,
    depth_left: u32,
    cursor: Cursor<'_>,
) -> Result<Found<'_, ExpressionNode>, ParseFault>
    ensures { Gives (λ x. (expression_of x.node, ahead x.rest)) result (primary literals MAX_ENTRIES depth_left (ahead cursor.entry)) }
{
    if !begins_primary(cursor) {
        return Err(ParseFault::Syntax(cursor.place()));
    }
    expression(alloc, literals, depth_left, 7, cursor)
}

/// An expression after this mark. If no level is left for it, the mark is too deep.
#[tactic(auto, unfolding(parser_base::specs::Reading::expression))]
pub fn expression_after(
    alloc: Global,
    literals: bool,
    depth_left: u32,
    mark: TokenKind,
    cursor: Cursor<'_>,
) -> Result<Found<'_, ExpressionNode>, ParseFault>
    ensures { Gives (λ x. (expression_of x.node, ahead x.rest)) result (after_mark mark (expression literals MAX_ENTRIES depth_left 0) (ahead cursor.entry)) }
{
    let rest = cursor.expect(mark)?;
    if depth_left == 0 {
        return Err(ParseFault::TooDeep(cursor.place()));
    }
    expression(alloc, literals, depth_left, 0, rest)
}

/// A receive: its arrow, and its operand. If no level is left for the operand, the arrow is too deep.
#[tactic(auto, unfolding(parser_base::specs::Reading::expression))]
pub fn receive_operand(
    alloc: Global,
    literals: bool,
    depth_left: u32,
    cursor: Cursor<'_>,
) -> Result<Measured<'_>, ParseFault>
    ensures tree { Gives (λ x. (expression_of x.node, ahead x.rest)) result (received literals MAX_ENTRIES depth_left (ahead cursor.entry)) }
    ensures height { IfOk result (λ x. (x.height ≡ expression_height (expression_of x.node)) × (x.height ≤ depth_left)) }
{
    let rest = cursor.expect(TokenKind::Arrow)?;
    if depth_left == 0 {
        return Err(ParseFault::TooDeep(cursor.place()));
    }
    measured_expression(alloc, literals, depth_left, 6, rest)
}

/// Arguments in parentheses, and the height of the highest one, or 0.
#[tactic(auto, unfolding(crate::specs::Reading::arguments))]
pub fn measured_arguments(
    alloc: Global,
    literals: bool,
    depth_left: u32,
    cursor: Cursor<'_>,
) -> Result<(List<'_, ExpressionNode>, usize), ParseFault>
    ensures arguments { Gives (λ x. (passed (map expression_of x.0.entries.items) x.0.trailing, ahead x.0.rest)) result (arguments literals MAX_ENTRIES depth_left (ahead cursor.entry)) }
    ensures height { IfOk result (λ x. x.1 ≡ highest expression_height (map expression_of x.0.entries.items)) }
    ensures within { IfOk result (λ x. x.1 ≤ depth_left) }
{
    let inside = cursor.expect(TokenKind::LeftParenthesis)?;
    let close = TokenKind::RightParenthesis;
    values(alloc, literals, depth_left, close, inside)
}

/// Arguments in parentheses.
pub fn arguments(
    alloc: Global,
    literals: bool,
    depth_left: u32,
    cursor: Cursor<'_>,
) -> Result<Found<'_, ArgumentsNode>, ParseFault>
    ensures { Gives (λ x. (arguments_of x.node, ahead x.rest)) result (arguments literals MAX_ENTRIES depth_left (ahead cursor.entry)) }
{
    let (all, _) = measured_arguments(alloc, literals, depth_left, cursor)?;
    Ok(Found {
        node: ArgumentsNode {
            values: all.entries,
            trailing: all.trailing,
        },
        rest: all.rest,
    })
}

/// A call of the function `name` as an operand. The highest of its arguments has `levels` levels.
pub fn call_operand<'a>(
    alloc: Global,
    name: &[u8],
    all: List<'a, ExpressionNode>,
    levels: usize,
) -> Result<Measured<'a>, ParseFault>
    requires height { levels ≡ highest expression_height (map expression_of all.entries.items) }
    requires low { levels < 2 ^ 32 }
    ensures tree { IfOk result (λ x. expression_of x.node ≡ call_of name.now (passed (map expression_of all.entry.entries.items) all.entry.trailing)) }
    ensures height { IfOk result (λ x. (x.height ≡ expression_height (expression_of x.node)) × (x.height ≡ levels + 1)) }
    ensures rest { IfOk result (λ x. x.rest ≡ all.entry.rest) }
    ensures err { IfErr result (λ e. e ≡ faults.Memory) }
{
    let rest = all.rest;
    let node = call_node(alloc, name, all.entries, all.trailing)?;
    Ok(Measured {
        node,
        height: levels + 1,
        rest,
    })
}

/// A receive from `channel` as an operand.
pub fn receive_from(alloc: Global, channel: Measured<'_>) -> Result<Measured<'_>, ParseFault>
    requires height { channel.height ≡ expression_height (expression_of channel.node) }
    requires low { channel.height < 2 ^ 32 }
    ensures tree { IfOk result (λ x. expression_of x.node ≡ Receive (expression_of channel.entry.node)) }
    ensures height { IfOk result (λ x. (x.height ≡ expression_height (expression_of x.node)) × (x.height ≡ channel.entry.height + 1)) }
    ensures rest { IfOk result (λ x. x.rest ≡ channel.entry.rest) }
    ensures err { IfErr result (λ e. e ≡ faults.Memory) }
{
    let rest = channel.rest;
    let height = channel.height + 1;
    let node = receive_node(alloc, channel.node)?;
    Ok(Measured { node, height, rest })
}

/// Values with a comma between each two.
fn expression_list(
    alloc: Global,
    literals: bool,
    depth_left: u32,
    cursor: Cursor<'_>,
) -> Result<List<'_, ExpressionNode>, ParseFault>
    ensures { Gives (λ x. ((map expression_of x.entries.items, x.trailing), ahead x.rest)) result (value_list literals MAX_ENTRIES depth_left (ahead cursor.entry)) }
{
    let mut entries = Vec::new(alloc);
    let mut rest = cursor;
    for _ in 0..MAX_ENTRIES {
        let one = expression(alloc, literals, depth_left, 0, rest)?;
        entries.push(one.node)?;
        let (next, after) = value_next(one.rest)?;
        match next {
            Next::More => rest = after,
            Next::End(trailing) => return Ok(List {
                entries,
                trailing,
                rest: after,
            }),
        }
    }
    Err(ParseFault::TooManyEntries(rest.place()))
}

/// The right side of an assignment, of at most `depth_left` levels.
#[tactic(auto, unfolding(crate::specs::Reading::right))]
pub fn right_side(
    alloc: Global,
    literals: bool,
    depth_left: u32,
    cursor: Cursor<'_>,
) -> Result<(Vec<ExpressionNode>, Cursor<'_>), ParseFault>
    ensures { Gives (λ x. (right_of x.0, ahead x.1)) result (right literals MAX_ENTRIES depth_left (ahead cursor.entry)) }
{
    if depth_left == 0 {
        return Err(ParseFault::TooDeep(cursor.place()));
    }
    let values = expression_list(alloc, literals, depth_left, cursor)?;
    Ok((values.entries, values.rest))
}

/// The right side of an assignment after this mark. If no level is left for it, the mark is too deep.
#[tactic(auto, unfolding(crate::specs::Reading::right))]
pub fn right_after(
    alloc: Global,
    literals: bool,
    depth_left: u32,
    mark: TokenKind,
    cursor: Cursor<'_>,
) -> Result<(Vec<ExpressionNode>, Cursor<'_>), ParseFault>
    ensures { Gives (λ x. (right_of x.0, ahead x.1)) result (after_mark mark (right literals MAX_ENTRIES depth_left) (ahead cursor.entry)) }
{
    let rest = cursor.expect(mark)?;
    if depth_left == 0 {
        return Err(ParseFault::TooDeep(cursor.place()));
    }
    right_side(alloc, literals, depth_left, rest)
}
