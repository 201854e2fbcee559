//! Expressions, by the strength of their operators.

ghost use Rattle.std.specs.Prelude.{◌≡◌, ℕ, ◌<◌, ◌≤◌, ◌+◌, ◌-◌, true, List as Lists, IfOk, IfErr, option_map, map};
ghost use Rattle.syntax.specs.Tree.{Expression, Parenthesized, Receive, MakeSized, Length, Capacity};
ghost use Rattle.syntax.specs.Measures.{Entries, highest, type_height, expression_height};
ghost use Rattle.syntax.specs.View.{type_of, expression_of};
ghost use Rattle.parser_base.specs.Cursor.{ahead};
ghost use Rattle.parser_base.specs.Lexemes.{Lexeme};
ghost use Rattle.parser_base.specs.Reading.{Gives, NamesRefusal, Reading, TooMany, as_one, begins, closed, value_next, listed, values, composite, called, named, to_parenthesis, argument, sized, made, builtin, step_at, negated, operand, applied, expression, resumed};

use crate::beside::beside;
use crate::cursor::{Cursor, Word, is_builtin, makes_value};
use crate::fault::ParseFault;
use crate::found::Found;
use crate::list::{List, Next};
use crate::literal::literal;
use crate::node::{
    binary_node, call_node, capacity_node, composite_node, length_node, make_node, make_sized_node,
    named_node, parenthesized_node, receive_node, selection_node, unary_node,
};
use crate::operator::{Infix, infix_of, precedence, strength, unary_of};
use crate::types::{type_at, type_height};
use go_text::is_word;
use scanner::TokenKind;
use std::alloc::Global;
use syntax::limits::MAX_ENTRIES;
use syntax::{BinaryOperator, ExpressionNode, TypeNode, UnaryOperator};

/// An expression that was read, with its height, and what follows it.
#[derive(Drop)]
pub struct Measured<'a> {
    pub node: ExpressionNode,
    /// Its height, which is 1 at a leaf.
    pub height: usize,
    pub rest: Cursor<'a>,
}

/// The step here, if it binds at least as strongly as `least`, and the cursor after its mark.
#[tactic(auto, unfolding(crate::specs::Reading::step_at))]
fn step_at(least: u32, cursor: Cursor<'_>) -> Option<(Infix, Cursor<'_>)>
    ensures { option_map (λ x. (x.0, ahead x.1)) result ≡ step_at least (ahead cursor.entry) }
{
    let (Word::Mark(kind), rest) = cursor.next()? else {
        return None;
    };
    let step = infix_of(kind)?;
    if least <= strength(step) {
        Some((step, rest))
    } else {
        None
    }
}

/// Whether an expression can begin here.
#[tactic(auto, unfolding(crate::specs::Reading::begins))]
pub fn begins(cursor: Cursor<'_>) -> bool
    ensures { result ≡ begins (ahead cursor.entry) }
{
    match cursor.next() {
        Some((Word::Literal(_), _)) => true,
        Some((Word::Name(name), _)) => !is_builtin(name) || makes_value(name),
        Some((Word::Mark(kind), _)) => {
            kind == TokenKind::LeftParenthesis
                || kind == TokenKind::Plus
                || kind == TokenKind::Minus
                || kind == TokenKind::Not
                || kind == TokenKind::Caret
                || kind == TokenKind::Arrow
        }
        _ => false,
    }
}

/// The end of a list, and the cursor after it.
pub fn closed(
    close: TokenKind,
    trailing: bool,
    cursor: Cursor<'_>,
) -> Result<(Next, Cursor<'_>), ParseFault>
    ensures gives { Gives (λ x. (x.0, ahead x.1)) result (closed close trailing (ahead cursor.entry)) }
    ensures refused { IfErr result NamesRefusal }
{
    let rest = cursor.expect(close)?;
    Ok((Next::End(trailing), rest))
}

/// What follows a value of a list, and the cursor at the next one or after the list.
#[tactic(auto, unfolding(crate::specs::Reading::entry_next))]
pub fn value_next(close: TokenKind, cursor: Cursor<'_>) -> Result<(Next, Cursor<'_>), ParseFault>
    ensures gives { Gives (λ x. (x.0, ahead x.1)) result (value_next close (ahead cursor.entry)) }
    ensures refused { IfErr result NamesRefusal }
{
    let Some((Word::Mark(kind), rest)) = cursor.next() else {
        return Err(ParseFault::Syntax(cursor.place()));
    };
    if kind != TokenKind::Comma {
        return closed(close, false, cursor);
    }
    if begins(rest) {
        Ok((Next::More, rest))
    } else {
        closed(close, true, rest)
    }
}

/// The values of a list to its closing mark, after the opening one, and the height of the highest of them, or 0.
#[cycle(expression)]
#[tactic(auto, unfolding(crate::specs::Reading::values))]
pub fn values(
    alloc: Global,
    literals: bool,
    depth_left: u32,
    close: TokenKind,
    cursor: Cursor<'_>,
) -> Result<(List<'_, ExpressionNode>, usize), ParseFault>
    ensures values { Gives (λ x. ((map expression_of x.0.entries.items, x.0.trailing), ahead x.0.rest)) result (values (expression literals MAX_ENTRIES depth_left) close MAX_ENTRIES (ahead cursor.entry)) }
    ensures height { IfOk result (λ x. x.1 ≡ highest expression_height (map expression_of x.0.entries.items)) }
    ensures within { IfOk result (λ x. x.1 ≤ depth_left) }
{
    if begins(cursor) {
        return expression_list(alloc, literals, depth_left, close, cursor);
    }
    let rest = cursor.expect(close)?;
    let none = List {
        entries: Vec::new(alloc),
        trailing: false,
        rest,
    };
    Ok((none, 0))
}

/// At least one value, to the closing mark of a list, and the height of the highest.
#[cycle(expression)]
fn expression_list(
    alloc: Global,
    literals: bool,
    depth_left: u32,
    close: TokenKind,
    cursor: Cursor<'_>,
) -> Result<(List<'_, ExpressionNode>, usize), ParseFault>
    ensures values { Gives (λ x. ((map expression_of x.0.entries.items, x.0.trailing), ahead x.0.rest)) result (listed (expression literals MAX_ENTRIES depth_left 0) (value_next close) (TooMany Entries) MAX_ENTRIES (ahead cursor.entry)) }
    ensures height { IfOk result (λ x. x.1 ≡ highest expression_height (map expression_of x.0.entries.items)) }
    ensures within { IfOk result (λ x. x.1 ≤ depth_left) }
{
    let mut entries = Vec::new(alloc);
    let mut height = 0;
    let mut rest = cursor;
    for _ in 0..MAX_ENTRIES {
        let found = measured_expression(alloc, literals, depth_left, 0, rest)?;
        entries.push(found.node)?;
        height = found.height.max(height);
        let (next, after) = value_next(close, found.rest)?;
        match next {
            Next::More => rest = after,
            Next::End(trailing) => {
                let list = List {
                    entries,
                    trailing,
                    rest: after,
                };
                return Ok((list, height));
            }
        }
    }
    Err(ParseFault::TooManyEntries(rest.place()))
}

/// A composite literal of the type `name`, after its first brace.
#[cycle(expression)]
#[tactic(auto, unfolding(crate::specs::Reading::composite))]
fn composite_literal<'a>(
    alloc: Global,
    depth_left: u32,
    name: &[u8],
    cursor: Cursor<'a>,
) -> Result<Measured<'a>, ParseFault>
    requires { 1 ≤ depth_left }
    ensures tree { Gives (λ x. (expression_of x.node, ahead x.rest)) result (composite (expression true MAX_ENTRIES (depth_left - 1)) MAX_ENTRIES name.now (ahead cursor.entry)) }
    ensures height { IfOk result (λ x. (x.height ≡ expression_height (expression_of x.node)) × (x.height ≤ depth_left)) }
{
    let (values, highest) = values(alloc, true, depth_left - 1, TokenKind::RightBrace, cursor)?;
    let node = composite_node(alloc, name, values.entries, values.trailing)?;
    Ok(Measured {
        node,
        height: highest + 1,
        rest: values.rest,
    })
}

/// A call of the function `name`, after its opening parenthesis.
#[cycle(expression)]
#[tactic(auto, unfolding(crate::specs::Reading::called))]
fn call<'a>(
    alloc: Global,
    literals: bool,
    depth_left: u32,
    name: &[u8],
    cursor: Cursor<'a>,
) -> Result<Measured<'a>, ParseFault>
    requires { 1 ≤ depth_left }
    ensures tree { Gives (λ x. (expression_of x.node, ahead x.rest)) result (called (expression literals MAX_ENTRIES (depth_left - 1)) MAX_ENTRIES name.now (ahead cursor.entry)) }
    ensures height { IfOk result (λ x. (x.height ≡ expression_height (expression_of x.node)) × (x.height ≤ depth_left)) }
{
    let close = TokenKind::RightParenthesis;
    let (values, highest) = values(alloc, literals, depth_left - 1, close, cursor)?;
    let node = call_node(alloc, name, values.entries, values.trailing)?;
    Ok(Measured {
        node,
        height: highest + 1,
        rest: values.rest,
    })
}

/// An operand name, a call of the function `name`, or a composite literal of the type `name`.
#[cycle(expression)]
#[tactic(auto, unfolding(crate::specs::Reading::named))]
fn operand_name<'a>(
    alloc: Global,
    literals: bool,
    depth_left: u32,
    name: &[u8],
    cursor: Cursor<'a>,
) -> Result<Measured<'a>, ParseFault>
    requires { 1 ≤ depth_left }
    ensures tree { Gives (λ x. (expression_of x.node, ahead x.rest)) result (named literals (expression literals MAX_ENTRIES (depth_left - 1)) MAX_ENTRIES name.now (ahead cursor.entry)) }
    ensures height { IfOk result (λ x. (x.height ≡ expression_height (expression_of x.node)) × (x.height ≤ depth_left)) }
{
    if let Some((Word::Mark(kind), rest)) = cursor.next() {
        if kind == TokenKind::LeftParenthesis {
            return call(alloc, literals, depth_left, name, rest);
        }
        if literals && kind == TokenKind::LeftBrace {
            return composite_literal(alloc, depth_left, name, rest);
        }
    }
    Ok(Measured {
        node: named_node(alloc, name)?,
        height: 1,
        rest: cursor,
    })
}

/// An expression and a closing parenthesis.
#[cycle(expression)]
#[tactic(auto, unfolding(crate::specs::Reading::to_parenthesis))]
fn to_parenthesis(
    alloc: Global,
    literals: bool,
    depth_left: u32,
    cursor: Cursor<'_>,
) -> Result<Measured<'_>, ParseFault>
    ensures tree { Gives (λ x. (expression_of x.node, ahead x.rest)) result (to_parenthesis (expression literals MAX_ENTRIES depth_left) (ahead cursor.entry)) }
    ensures height { IfOk result (λ x. (x.height ≡ expression_height (expression_of x.node)) × (x.height ≤ depth_left)) }
{
    let inner = measured_expression(alloc, literals, depth_left, 0, cursor)?;
    let height = inner.height;
    let (node, rest) = beside(inner.node, inner.rest.expect(TokenKind::RightParenthesis))?;
    Ok(Measured { node, height, rest })
}

/// One argument in parentheses, without a comma after it.
#[cycle(expression)]
#[tactic(auto, unfolding(crate::specs::Reading::argument))]
pub fn argument(
    alloc: Global,
    literals: bool,
    depth_left: u32,
    cursor: Cursor<'_>,
) -> Result<Measured<'_>, ParseFault>
    ensures tree { Gives (λ x. (expression_of x.node, ahead x.rest)) result (argument (expression literals MAX_ENTRIES depth_left) (ahead cursor.entry)) }
    ensures height { IfOk result (λ x. (x.height ≡ expression_height (expression_of x.node)) × (x.height ≤ depth_left)) }
{
    let inside = cursor.expect(TokenKind::LeftParenthesis)?;
    to_parenthesis(alloc, literals, depth_left, inside)
}

/// An expression in parentheses, after the opening one, which is at `first`.
#[cycle(expression)]
#[tactic(auto, unfolding(crate::specs::Reading::to_parenthesis, crate::specs::Reading::expression))]
fn parenthesized<'a>(
    alloc: Global,
    literals: bool,
    depth_left: u32,
    first: Cursor<'a>,
    cursor: Cursor<'a>,
) -> Result<Measured<'a>, ParseFault>
    requires { 1 ≤ depth_left }
    ensures tree { Gives (λ x. (expression_of x.node, ahead x.rest)) result (as_one Parenthesized (to_parenthesis (expression literals MAX_ENTRIES (depth_left - 1)) (ahead cursor.entry))) }
    ensures height { IfOk result (λ x. (x.height ≡ expression_height (expression_of x.node)) × (x.height ≤ depth_left)) }
{
    if depth_left < 2 {
        return Err(ParseFault::TooDeep(first.place()));
    }
    let inner = to_parenthesis(alloc, literals, depth_left - 1, cursor)?;
    let node = parenthesized_node(alloc, inner.node)?;
    Ok(Measured {
        node,
        height: inner.height + 1,
        rest: inner.rest,
    })
}

/// A `make` of the type `channel` with the size of its buffer, after the comma before the size.
#[cycle(expression)]
fn make_with_size<'a>(
    alloc: Global,
    literals: bool,
    depth_left: u32,
    channel: TypeNode,
    cursor: Cursor<'a>,
) -> Result<Measured<'a>, ParseFault>
    requires depth_left { 1 ≤ depth_left }
    requires low { type_height (type_of channel) < depth_left }
    ensures tree { Gives (λ x. (expression_of x.node, ahead x.rest)) result (as_one (MakeSized (type_of channel)) (to_parenthesis (expression literals MAX_ENTRIES (depth_left - 1)) (ahead cursor.entry))) }
    ensures height { IfOk result (λ x. (x.height ≡ expression_height (expression_of x.node)) × (x.height ≤ depth_left)) }
{
    let levels = type_height(&channel) as usize;
    let (channel, size) = beside(
        channel,
        to_parenthesis(alloc, literals, depth_left - 1, cursor),
    )?;
    let height = levels.max(size.height) + 1;
    let rest = size.rest;
    let node = make_sized_node(alloc, channel, size.node)?;
    Ok(Measured { node, height, rest })
}

/// The rest of a `make` of the type `channel`: the size of its buffer, if there is one, and the closing parenthesis.
#[cycle(expression)]
#[tactic(auto, unfolding(crate::specs::Reading::sized))]
fn make_of<'a>(
    alloc: Global,
    literals: bool,
    depth_left: u32,
    channel: TypeNode,
    cursor: Cursor<'a>,
) -> Result<Measured<'a>, ParseFault>
    requires depth_left { 1 ≤ depth_left }
    requires low { type_height (type_of channel) < depth_left }
    ensures tree { Gives (λ x. (expression_of x.node, ahead x.rest)) result (sized (expression literals MAX_ENTRIES (depth_left - 1)) (type_of channel) (ahead cursor.entry)) }
    ensures height { IfOk result (λ x. (x.height ≡ expression_height (expression_of x.node)) × (x.height ≤ depth_left)) }
{
    let Some((Word::Mark(kind), rest)) = cursor.next() else {
        return Err(ParseFault::Syntax(cursor.place()));
    };
    if kind == TokenKind::Comma {
        return make_with_size(alloc, literals, depth_left, channel, rest);
    }
    let height = type_height(&channel) as usize + 1;
    let (channel, rest) = beside(channel, cursor.expect(TokenKind::RightParenthesis))?;
    let node = make_node(alloc, channel)?;
    Ok(Measured { node, height, rest })
}

/// A `make`, after its name.
#[cycle(expression)]
#[tactic(auto, unfolding(crate::specs::Reading::made))]
fn make_call(
    alloc: Global,
    literals: bool,
    depth_left: u32,
    cursor: Cursor<'_>,
) -> Result<Measured<'_>, ParseFault>
    requires { 1 ≤ depth_left }
    ensures tree { Gives (λ x. (expression_of x.node, ahead x.rest)) result (made (expression literals MAX_ENTRIES (depth_left - 1)) (depth_left - 1) (ahead cursor.entry)) }
    ensures height { IfOk result (λ x. (x.height ≡ expression_height (expression_of x.node)) × (x.height ≤ depth_left)) }
{
    let inside = cursor.expect(TokenKind::LeftParenthesis)?;
    let channel = type_at(alloc, depth_left - 1, inside)?;
    make_of(alloc, literals, depth_left, channel.node, channel.rest)
}

/// A `len`, after its name.
#[cycle(expression)]
fn len_call(
    alloc: Global,
    literals: bool,
    depth_left: u32,
    cursor: Cursor<'_>,
) -> Result<Measured<'_>, ParseFault>
    requires { 1 ≤ depth_left }
    ensures tree { Gives (λ x. (expression_of x.node, ahead x.rest)) result (as_one Length (argument (expression literals MAX_ENTRIES (depth_left - 1)) (ahead cursor.entry))) }
    ensures height { IfOk result (λ x. (x.height ≡ expression_height (expression_of x.node)) × (x.height ≤ depth_left)) }
{
    let channel = argument(alloc, literals, depth_left - 1, cursor)?;
    let node = length_node(alloc, channel.node)?;
    Ok(Measured {
        node,
        height: channel.height + 1,
        rest: channel.rest,
    })
}

/// A `cap`, after its name.
#[cycle(expression)]
fn cap_call(
    alloc: Global,
    literals: bool,
    depth_left: u32,
    cursor: Cursor<'_>,
) -> Result<Measured<'_>, ParseFault>
    requires { 1 ≤ depth_left }
    ensures tree { Gives (λ x. (expression_of x.node, ahead x.rest)) result (as_one Capacity (argument (expression literals MAX_ENTRIES (depth_left - 1)) (ahead cursor.entry))) }
    ensures height { IfOk result (λ x. (x.height ≡ expression_height (expression_of x.node)) × (x.height ≤ depth_left)) }
{
    let channel = argument(alloc, literals, depth_left - 1, cursor)?;
    let node = capacity_node(alloc, channel.node)?;
    Ok(Measured {
        node,
        height: channel.height + 1,
        rest: channel.rest,
    })
}

/// A call of a built-in function that makes or measures a channel, after its name, which is at `first`.
#[cycle(expression)]
#[tactic(auto, unfolding(crate::specs::Reading::builtin))]
fn builtin_call<'a>(
    alloc: Global,
    literals: bool,
    depth_left: u32,
    name: &[u8],
    first: Cursor<'a>,
    cursor: Cursor<'a>,
) -> Result<Measured<'a>, ParseFault>
    requires { 1 ≤ depth_left }
    ensures tree { Gives (λ x. (expression_of x.node, ahead x.rest)) result (builtin (expression literals MAX_ENTRIES (depth_left - 1)) (depth_left - 1) name.now (ahead cursor.entry)) }
    ensures height { IfOk result (λ x. (x.height ≡ expression_height (expression_of x.node)) × (x.height ≤ depth_left)) }
{
    if depth_left < 2 && makes_value(name) {
        return Err(ParseFault::TooDeep(first.place()));
    }
    if is_word(name, b"make") {
        return make_call(alloc, literals, depth_left, cursor);
    }
    if is_word(name, b"len") {
        return len_call(alloc, literals, depth_left, cursor);
    }
    if is_word(name, b"cap") {
        return cap_call(alloc, literals, depth_left, cursor);
    }
    Err(ParseFault::Syntax(first.place()))
}

/// A receive, after its arrow, which is at `first`.
#[cycle(expression)]
#[tactic(auto, unfolding(crate::specs::Reading::expression))]
fn receive<'a>(
    alloc: Global,
    literals: bool,
    depth_left: u32,
    first: Cursor<'a>,
    cursor: Cursor<'a>,
) -> Result<Measured<'a>, ParseFault>
    requires { 1 ≤ depth_left }
    ensures tree { Gives (λ x. (expression_of x.node, ahead x.rest)) result (as_one Receive (expression literals MAX_ENTRIES (depth_left - 1) 6 (ahead cursor.entry))) }
    ensures height { IfOk result (λ x. (x.height ≡ expression_height (expression_of x.node)) × (x.height ≤ depth_left)) }
{
    if depth_left < 2 {
        return Err(ParseFault::TooDeep(first.place()));
    }
    let channel = measured_expression(alloc, literals, depth_left - 1, 6, cursor)?;
    let node = receive_node(alloc, channel.node)?;
    Ok(Measured {
        node,
        height: channel.height + 1,
        rest: channel.rest,
    })
}

/// The operand of a unary operator, which is at `first`.
#[cycle(expression)]
#[tactic(auto, unfolding(crate::specs::Reading::expression))]
fn unary_expression<'a>(
    alloc: Global,
    literals: bool,
    depth_left: u32,
    operator: UnaryOperator,
    first: Cursor<'a>,
    cursor: Cursor<'a>,
) -> Result<Measured<'a>, ParseFault>
    requires { 1 ≤ depth_left }
    ensures tree { Gives (λ x. (expression_of x.node, ahead x.rest)) result (negated (expression literals MAX_ENTRIES (depth_left - 1)) (ahead cursor.entry) (Some operator)) }
    ensures height { IfOk result (λ x. (x.height ≡ expression_height (expression_of x.node)) × (x.height ≤ depth_left)) }
{
    if depth_left < 2 {
        return Err(ParseFault::TooDeep(first.place()));
    }
    let operand = measured_expression(alloc, literals, depth_left - 1, 6, cursor)?;
    let node = unary_node(alloc, operator, operand.node)?;
    Ok(Measured {
        node,
        height: operand.height + 1,
        rest: operand.rest,
    })
}

/// An expression that is no operation and no selection, of at most `depth_left` levels.
#[cycle(expression)]
#[tactic(auto, unfolding(crate::specs::Reading::operand))]
fn operand(
    alloc: Global,
    literals: bool,
    depth_left: u32,
    cursor: Cursor<'_>,
) -> Result<Measured<'_>, ParseFault>
    requires { 1 ≤ depth_left }
    ensures tree { Gives (λ x. (expression_of x.node, ahead x.rest)) result (operand literals (expression literals MAX_ENTRIES (depth_left - 1)) (depth_left - 1) MAX_ENTRIES (ahead cursor.entry)) }
    ensures height { IfOk result (λ x. (x.height ≡ expression_height (expression_of x.node)) × (x.height ≤ depth_left)) }
{
    let Some((word, rest)) = cursor.next() else {
        return Err(ParseFault::Syntax(cursor.place()));
    };
    match word {
        Word::Literal(digits) => Ok(Measured {
            node: ExpressionNode::Integer(literal(digits)),
            height: 1,
            rest,
        }),
        Word::Name(name) => {
            if is_builtin(name) {
                return builtin_call(alloc, literals, depth_left, name, cursor, rest);
            }
            operand_name(alloc, literals, depth_left, name, rest)
        }
        Word::Text(_) => Err(ParseFault::Syntax(cursor.place())),
        Word::Mark(kind) => {
            if kind == TokenKind::LeftParenthesis {
                return parenthesized(alloc, literals, depth_left, cursor, rest);
            }
            if kind == TokenKind::Arrow {
                return receive(alloc, literals, depth_left, cursor, rest);
            }
            let Some(operator) = unary_of(kind) else {
                return Err(ParseFault::Syntax(cursor.place()));
            };
            unary_expression(alloc, literals, depth_left, operator, cursor, rest)
        }
    }
}

/// A step on what was read so far, after the step's mark: as the left operand of an operator, or a field of it.
#[cycle(expression)]
fn applied<'a>(
    alloc: Global,
    literals: bool,
    depth_left: u32,
    left: Measured<'a>,
    step: Infix,
    cursor: Cursor<'a>,
) -> Result<Measured<'a>, ParseFault>
    requires depth_left { 1 ≤ depth_left }
    requires low { left.height < depth_left }
    requires height { left.height ≡ expression_height (expression_of left.node) }
    ensures tree { Gives (λ x. (expression_of x.node, ahead x.rest)) result (applied (expression literals MAX_ENTRIES (depth_left - 1)) (expression_of left.entry.node) (step, ahead cursor.entry)) }
    ensures height { IfOk result (λ x. (x.height ≡ expression_height (expression_of x.node)) × (x.height ≤ depth_left)) }
{
    match step {
        Infix::Operator(operator) => binary_expression(
            alloc, literals, depth_left, left, operator, cursor,
        ),
        Infix::Period => selection(alloc, depth_left, left, cursor),
    }
}

/// A binary operation, after its operator.
#[cycle(expression)]
fn binary_expression<'a>(
    alloc: Global,
    literals: bool,
    depth_left: u32,
    left: Measured<'a>,
    operator: BinaryOperator,
    cursor: Cursor<'a>,
) -> Result<Measured<'a>, ParseFault>
    requires depth_left { 1 ≤ depth_left }
    requires low { left.height < depth_left }
    requires height { left.height ≡ expression_height (expression_of left.node) }
    ensures tree { Gives (λ x. (expression_of x.node, ahead x.rest)) result (applied (expression literals MAX_ENTRIES (depth_left - 1)) (expression_of left.entry.node) (Infix.Operator operator, ahead cursor.entry)) }
    ensures height { IfOk result (λ x. (x.height ≡ expression_height (expression_of x.node)) × (x.height ≤ depth_left)) }
{
    let right = measured_expression(
        alloc,
        literals,
        depth_left - 1,
        precedence(operator) + 1,
        cursor,
    )?;
    let height = left.height.max(right.height) + 1;
    let node = binary_node(alloc, operator, left.node, right.node)?;
    Ok(Measured {
        node,
        height,
        rest: right.rest,
    })
}

/// A selection, after its period.
fn selection<'a>(
    alloc: Global,
    depth_left: u32,
    left: Measured<'a>,
    cursor: Cursor<'a>,
) -> Result<Measured<'a>, ParseFault>
    requires low { left.height < depth_left }
    requires height { left.height ≡ expression_height (expression_of left.node) }
    ensures tree { (deeper : ℕ → Lists Lexeme → Reading Expression) → Gives (λ x. (expression_of x.node, ahead x.rest)) result (applied deeper (expression_of left.entry.node) (Infix.Period, ahead cursor.entry)) }
    ensures height { IfOk result (λ x. (x.height ≡ expression_height (expression_of x.node)) × (x.height ≤ depth_left)) }
{
    let (field, rest) = cursor.plain_name()?;
    let height = left.height + 1;
    let node = selection_node(alloc, left.node, field)?;
    Ok(Measured { node, height, rest })
}

/// An expression of at most `depth_left` levels that begins with the operand `left`, which was read before. If nothing goes on
/// with `left` it is returned as it is, at any height.
#[cycle(expression)]
#[tactic(auto, unfolding(crate::specs::Reading::resumed))]
pub fn resumed_expression<'a>(
    alloc: Global,
    literals: bool,
    depth_left: u32,
    least: u32,
    left: Measured<'a>,
) -> Result<Measured<'a>, ParseFault>
    requires { left.height ≡ expression_height (expression_of left.node) }
    ensures tree { Gives (λ x. (expression_of x.node, ahead x.rest)) result (resumed literals MAX_ENTRIES depth_left least (expression_of left.entry.node) (ahead left.entry.rest)) }
    ensures height { IfOk result (λ x. x.height ≡ expression_height (expression_of x.node)) }
    ensures within { left.entry.height ≤ depth_left → IfOk result (λ x. x.height ≤ depth_left) }
{
    let mut left = left;
    for _ in 0..depth_left {
        let Some((step, after)) = step_at(least, left.rest) else {
            return Ok(left);
        };
        if left.height >= depth_left as usize {
            return Err(ParseFault::TooDeep(left.rest.place()));
        }
        left = applied(alloc, literals, depth_left, left, step, after)?;
    }
    Err(ParseFault::TooDeep(left.rest.place()))
}

/// An expression of at most `depth_left` levels, as `expression` reads it, with its height.
#[cycle(expression)]
#[tactic(auto, unfolding(crate::specs::Reading::expression, crate::specs::Reading::resumed))]
pub fn measured_expression(
    alloc: Global,
    literals: bool,
    depth_left: u32,
    least: u32,
    cursor: Cursor<'_>,
) -> Result<Measured<'_>, ParseFault>
    ensures tree { Gives (λ x. (expression_of x.node, ahead x.rest)) result (expression literals MAX_ENTRIES depth_left least (ahead cursor.entry)) }
    ensures height { IfOk result (λ x. (x.height ≡ expression_height (expression_of x.node)) × (x.height ≤ depth_left)) }
{
    if depth_left == 0 {
        return Err(ParseFault::TooDeep(cursor.place()));
    }
    let left = operand(alloc, literals, depth_left, cursor)?;
    resumed_expression(alloc, literals, depth_left, least, left)
}

/// An expression of at most `depth_left` levels, whose outermost operator binds at least as strongly as `least`. Composite literals
/// occur in it only if `literals` holds.
pub fn expression(
    alloc: Global,
    literals: bool,
    depth_left: u32,
    least: u32,
    cursor: Cursor<'_>,
) -> Result<Found<'_, ExpressionNode>, ParseFault>
    ensures { Gives (λ x. (expression_of x.node, ahead x.rest)) result (expression literals MAX_ENTRIES depth_left least (ahead cursor.entry)) }
{
    let found = measured_expression(alloc, literals, depth_left, least, cursor)?;
    Ok(Found {
        node: found.node,
        rest: found.rest,
    })
}
