//! Simple statements.

ghost use Rattle.std.specs.Prelude.{◌≡◌, ◌<◌, ◌^◌, true, false, Some, IfOk, IfErr, map, option_map};
ghost use Rattle.parser_base.specs.declared.fault.ParseFault.TheVariants as faults;
ghost use Rattle.syntax.specs.Tree.{Simple, Value, CallAlone, Close, ReceiveAlone, Send, Increment, Decrement};
ghost use Rattle.syntax.specs.Measures.{Entries, highest, expression_height};
ghost use Rattle.syntax.specs.View.{expression_of, part_of, simple_of};
ghost use Rattle.parser_base.specs.Cursor.{ahead};
ghost use Rattle.parser_base.specs.Reading.{Gives, NamesRefusal, Reading, TooMany, as_one, entry_next, listed, closed, argument, expression};
ghost use Rattle.parser_simple.specs.Reading.{begins_part, part, parts, print, received, passed, builtin_call, assigned, defined, stepped, updated, after_place, formed, led, send_operand, sent, led_or_sent, sent_on, alone_or_sent, called, simple, defines};

use crate::form::{Form, begins_call, begins_with, defines, fits, form_of, update_kind};
use crate::place::{names, place, place_before, places};
use crate::right::{
    call_operand, expression_after, measured_arguments, primary_expression, receive_operand,
    right_after,
};
use go_text::is_word;
use parser_base::beside::beside;
use parser_base::cursor::{Cursor, Word, is_builtin, makes_value};
use parser_base::expression::{Measured, argument, begins, closed, expression, resumed_expression};
use parser_base::fault::ParseFault;
use parser_base::found::Found;
use parser_base::list::{List, Next};
use parser_base::node::name_node;
use parser_base::text::text;
use scanner::TokenKind;
use std::alloc::Global;
use syntax::limits::MAX_ENTRIES;
use syntax::{ArgumentsNode, BinaryOperator, ExpressionNode, PartNode, SimpleNode};

/// Whether an argument of `print` or `println` can begin here.
#[tactic(auto, unfolding(crate::specs::Reading::begins_part))]
fn begins_print_argument(cursor: Cursor<'_>) -> bool
    ensures { result ≡ begins_part (ahead cursor.entry) }
{
    match cursor.next() {
        Some((Word::Text(_), _)) => true,
        _ => begins(cursor),
    }
}

/// An argument of `print` or `println`, of at most `depth_left` levels.
#[tactic(auto, unfolding(crate::specs::Reading::part))]
fn print_argument(
    alloc: Global,
    depth_left: u32,
    literals: bool,
    cursor: Cursor<'_>,
) -> Result<(PartNode, Cursor<'_>), ParseFault>
    ensures { Gives (λ x. (part_of x.0, ahead x.1)) result (part literals MAX_ENTRIES depth_left (ahead cursor.entry)) }
{
    if depth_left == 0 {
        return Err(ParseFault::TooDeep(cursor.place()));
    }
    if let Some((Word::Text(quoted), rest)) = cursor.next() {
        let node = PartNode::Text(text(alloc, quoted)?);
        return Ok((node, rest));
    }
    let value = expression(alloc, literals, depth_left, 0, cursor)?;
    Ok((PartNode::Value(value.node), value.rest))
}

/// What follows an argument of `print` or `println`: the start of the next one, or the end of the arguments.
#[tactic(auto, unfolding(parser_base::specs::Reading::entry_next))]
fn print_argument_next(cursor: Cursor<'_>) -> Result<(Next, Cursor<'_>), ParseFault>
    ensures gives { Gives (λ x. (x.0, ahead x.1)) result (entry_next TokenKind.Comma begins_part TokenKind.RightParenthesis (ahead cursor.entry)) }
    ensures refused { IfErr result NamesRefusal }
{
    let Some((Word::Mark(kind), rest)) = cursor.next() else {
        return Err(ParseFault::Syntax(cursor.place()));
    };
    if kind != TokenKind::Comma {
        return closed(TokenKind::RightParenthesis, false, cursor);
    }
    if begins_print_argument(rest) {
        Ok((Next::More, rest))
    } else {
        closed(TokenKind::RightParenthesis, true, rest)
    }
}

/// At least one argument of `print` or `println`, to the closing parenthesis.
fn print_argument_list(
    alloc: Global,
    depth_left: u32,
    literals: bool,
    cursor: Cursor<'_>,
) -> Result<List<'_, PartNode>, ParseFault>
    ensures { Gives (λ x. ((map part_of x.entries.items, x.trailing), ahead x.rest)) result (listed (part literals MAX_ENTRIES depth_left) (entry_next TokenKind.Comma begins_part TokenKind.RightParenthesis) (TooMany Entries) MAX_ENTRIES (ahead cursor.entry)) }
{
    let mut entries = Vec::new(alloc);
    let mut rest = cursor;
    for _ in 0..MAX_ENTRIES {
        let (one, following) = print_argument(alloc, depth_left, literals, rest)?;
        entries.push(one)?;
        let (next, after) = print_argument_next(following)?;
        match next {
            Next::More => rest = after,
            Next::End(trailing) => return Ok(List {
                entries,
                trailing,
                rest: after,
            }),
        }
    }
    Err(ParseFault::TooManyEntries(rest.place()))
}

/// The arguments of `print` or `println`, after the opening parenthesis.
#[tactic(auto, unfolding(crate::specs::Reading::parts))]
fn print_arguments(
    alloc: Global,
    depth_left: u32,
    literals: bool,
    cursor: Cursor<'_>,
) -> Result<List<'_, PartNode>, ParseFault>
    ensures { Gives (λ x. ((map part_of x.entries.items, x.trailing), ahead x.rest)) result (parts literals MAX_ENTRIES depth_left (ahead cursor.entry)) }
{
    if begins_print_argument(cursor) {
        return print_argument_list(alloc, depth_left, literals, cursor);
    }
    let rest = cursor.expect(TokenKind::RightParenthesis)?;
    Ok(List {
        entries: Vec::new(alloc),
        trailing: false,
        rest,
    })
}

/// A `print` or, if `line` holds, a `println`, after its name.
#[tactic(auto, unfolding(crate::specs::Reading::print))]
fn print_call(
    alloc: Global,
    line: bool,
    literals: bool,
    depth_left: u32,
    cursor: Cursor<'_>,
) -> Result<Found<'_, SimpleNode>, ParseFault>
    ensures { Gives (λ x. (simple_of x.node, ahead x.rest)) result (print line literals MAX_ENTRIES depth_left (ahead cursor.entry)) }
{
    let inside = cursor.expect(TokenKind::LeftParenthesis)?;
    let all = print_arguments(alloc, depth_left, literals, inside)?;
    Ok(Found {
        node: SimpleNode::Print(line, all.entries, all.trailing),
        rest: all.rest,
    })
}

/// A `close` after its name.
fn close_call(
    alloc: Global,
    literals: bool,
    depth_left: u32,
    cursor: Cursor<'_>,
) -> Result<Found<'_, SimpleNode>, ParseFault>
    ensures { Gives (λ x. (simple_of x.node, ahead x.rest)) result (as_one Close (argument (expression literals MAX_ENTRIES depth_left) (ahead cursor.entry))) }
{
    let channel = argument(alloc, literals, depth_left, cursor)?;
    Ok(Found {
        node: SimpleNode::Close(channel.node),
        rest: channel.rest,
    })
}

/// A call of a built-in function as a statement, after its name, which is at `first`.
#[tactic(auto, unfolding(crate::specs::Reading::builtin_call))]
fn builtin_call<'a>(
    alloc: Global,
    literals: bool,
    depth_left: u32,
    name: &[u8],
    first: Cursor<'a>,
    cursor: Cursor<'a>,
) -> Result<Found<'a, SimpleNode>, ParseFault>
    ensures { Gives (λ x. (simple_of x.node, ahead x.rest)) result (builtin_call literals MAX_ENTRIES depth_left name.now (ahead cursor.entry)) }
{
    if is_word(name, b"println") {
        return print_call(alloc, true, literals, depth_left, cursor);
    }
    if is_word(name, b"print") {
        return print_call(alloc, false, literals, depth_left, cursor);
    }
    if is_word(name, b"close") {
        if depth_left < 1 {
            return Err(ParseFault::TooDeep(first.place()));
        }
        return close_call(alloc, literals, depth_left, cursor);
    }
    Err(ParseFault::Syntax(first.place()))
}

/// A call alone.
pub fn call_alone<'a>(
    alloc: Global,
    name: &[u8],
    all: List<'a, ExpressionNode>,
) -> Result<Found<'a, SimpleNode>, ParseFault>
    ensures ok { IfOk result (λ x. (simple_of x.node ≡ CallAlone name.now (passed (map expression_of all.entry.entries.items) all.entry.trailing)) × (x.rest ≡ all.entry.rest)) }
    ensures err { IfErr result (λ e. e ≡ faults.Memory) }
{
    let rest = all.rest;
    let arguments = ArgumentsNode {
        values: all.entries,
        trailing: all.trailing,
    };
    let (passed, name) = beside(arguments, name_node(alloc, name))?;
    Ok(Found {
        node: SimpleNode::Call(name, passed),
        rest,
    })
}

/// A send whose channel begins with the operand `left`, which was read before and may be one level too high.
#[tactic(auto, unfolding(crate::specs::Reading::sent_on))]
fn send_on<'a>(
    alloc: Global,
    literals: bool,
    depth_left: u32,
    left: Measured<'a>,
) -> Result<Found<'a, SimpleNode>, ParseFault>
    requires { left.height ≡ expression_height (expression_of left.node) }
    ensures { Gives (λ x. (simple_of x.node, ahead x.rest)) result (sent_on literals MAX_ENTRIES depth_left (expression_of left.entry.node) (ahead left.entry.rest)) }
{
    let channel = resumed_expression(alloc, literals, depth_left, 7, left)?;
    if channel.height > depth_left as usize {
        return Err(ParseFault::TooDeep(channel.rest.place()));
    }
    let (channel, value) = beside(
        channel.node,
        expression_after(alloc, literals, depth_left, TokenKind::Arrow, channel.rest),
    )?;
    Ok(Found {
        node: SimpleNode::Send(channel, value.node),
        rest: value.rest,
    })
}

/// A call alone, or a send whose channel begins with the call. The highest of its arguments has `levels` levels.
fn alone_or_send<'a>(
    alloc: Global,
    literals: bool,
    depth_left: u32,
    name: &[u8],
    all: List<'a, ExpressionNode>,
    levels: usize,
) -> Result<Found<'a, SimpleNode>, ParseFault>
    requires height { levels ≡ highest expression_height (map expression_of all.entries.items) }
    requires low { levels < 2 ^ 32 }
    ensures { Gives (λ x. (simple_of x.node, ahead x.rest)) result (alone_or_sent literals MAX_ENTRIES depth_left name.now (passed (map expression_of all.entry.entries.items) all.entry.trailing, ahead all.entry.rest)) }
{
    if begins_with(TokenKind::Period, all.rest) || begins_with(TokenKind::Arrow, all.rest) {
        let left = call_operand(alloc, name, all, levels)?;
        return send_on(alloc, literals, depth_left, left);
    }
    call_alone(alloc, name, all)
}

/// A statement that begins with a call.
#[tactic(auto, unfolding(crate::specs::Reading::called))]
fn call_statement(
    alloc: Global,
    literals: bool,
    depth_left: u32,
    cursor: Cursor<'_>,
) -> Result<Found<'_, SimpleNode>, ParseFault>
    ensures { Gives (λ x. (simple_of x.node, ahead x.rest)) result (called literals MAX_ENTRIES depth_left (ahead cursor.entry)) }
{
    let (name, following) = cursor.plain_name()?;
    let (all, levels) = measured_arguments(alloc, literals, depth_left, following)?;
    alone_or_send(alloc, literals, depth_left, name, all, levels)
}

/// A receive alone.
fn receive_statement(
    alloc: Global,
    literals: bool,
    depth_left: u32,
    cursor: Cursor<'_>,
) -> Result<Found<'_, SimpleNode>, ParseFault>
    ensures { Gives (λ x. (simple_of x.node, ahead x.rest)) result (as_one ReceiveAlone (received literals MAX_ENTRIES depth_left (ahead cursor.entry))) }
{
    let channel = receive_operand(alloc, literals, depth_left, cursor)?;
    Ok(Found {
        node: SimpleNode::Receive(channel.node),
        rest: channel.rest,
    })
}

/// An assignment to lvalues.
#[tactic(auto, unfolding(crate::specs::Reading::assigned))]
fn assignment(
    alloc: Global,
    literals: bool,
    depth_left: u32,
    cursor: Cursor<'_>,
) -> Result<Found<'_, SimpleNode>, ParseFault>
    ensures { Gives (λ x. (simple_of x.node, ahead x.rest)) result (assigned literals MAX_ENTRIES depth_left (ahead cursor.entry)) }
{
    let all = places(alloc, cursor)?;
    let (entries, value) = beside(
        all.entries,
        right_after(alloc, literals, depth_left, TokenKind::Assign, all.rest),
    )?;
    Ok(Found {
        node: SimpleNode::Assign(entries, value.0),
        rest: value.1,
    })
}

/// A `:=`.
#[tactic(auto, unfolding(crate::specs::Reading::defined))]
fn short_var_declaration(
    alloc: Global,
    literals: bool,
    depth_left: u32,
    cursor: Cursor<'_>,
) -> Result<Found<'_, SimpleNode>, ParseFault>
    ensures { Gives (λ x. (simple_of x.node, ahead x.rest)) result (defined literals MAX_ENTRIES depth_left (ahead cursor.entry)) }
{
    let all = names(alloc, TokenKind::Comma, MAX_ENTRIES as usize, cursor)?;
    let (entries, value) = beside(
        all.entries,
        right_after(alloc, literals, depth_left, TokenKind::Define, all.rest),
    )?;
    Ok(Found {
        node: SimpleNode::Define(entries, value.0),
        rest: value.1,
    })
}

/// A `++` after an lvalue.
#[tactic(auto, unfolding(crate::specs::Reading::stepped))]
fn increment_statement(
    alloc: Global,
    cursor: Cursor<'_>,
) -> Result<Found<'_, SimpleNode>, ParseFault>
    ensures { Gives (λ x. (simple_of x.node, ahead x.rest)) result (stepped Increment TokenKind.Increment (ahead cursor.entry)) }
{
    let (place, rest) = place_before(alloc, TokenKind::Increment, cursor)?;
    Ok(Found {
        node: SimpleNode::Increment(place),
        rest,
    })
}

/// A `--` after an lvalue.
#[tactic(auto, unfolding(crate::specs::Reading::stepped))]
fn decrement_statement(
    alloc: Global,
    cursor: Cursor<'_>,
) -> Result<Found<'_, SimpleNode>, ParseFault>
    ensures { Gives (λ x. (simple_of x.node, ahead x.rest)) result (stepped Decrement TokenKind.Decrement (ahead cursor.entry)) }
{
    let (place, rest) = place_before(alloc, TokenKind::Decrement, cursor)?;
    Ok(Found {
        node: SimpleNode::Decrement(place),
        rest,
    })
}

/// An assignment with an operator.
#[tactic(auto, unfolding(crate::specs::Reading::updated))]
fn operator_assignment(
    alloc: Global,
    literals: bool,
    depth_left: u32,
    operator: BinaryOperator,
    cursor: Cursor<'_>,
) -> Result<Found<'_, SimpleNode>, ParseFault>
    ensures { Gives (λ x. (simple_of x.node, ahead x.rest)) result (updated literals MAX_ENTRIES depth_left operator (ahead cursor.entry)) }
{
    let target = place(alloc, cursor)?;
    let (place, value) = beside(
        target.node,
        expression_after(
            alloc,
            literals,
            depth_left,
            update_kind(operator),
            target.rest,
        ),
    )?;
    Ok(Found {
        node: SimpleNode::Update(place, operator, value.node),
        rest: value.rest,
    })
}

/// A simple statement that was read, as what was looked for.
fn as_some(
    read: Result<Found<'_, SimpleNode>, ParseFault>,
) -> Result<Found<'_, Option<SimpleNode>>, ParseFault>
    ensures gives { (words : Reading Simple) → Gives (λ x. (simple_of x.node, ahead x.rest)) read.entry words → Gives (λ x. (option_map simple_of x.node, ahead x.rest)) result (as_one (λ (s : Simple). Some s) words) }
    ensures err { IfErr result (λ fault. read.entry ≡ Err fault) }
{
    let found = read?;
    Ok(Found {
        node: Some(found.node),
        rest: found.rest,
    })
}

/// A statement that begins with an lvalue and has this form, if it has any.
#[tactic(auto, unfolding(crate::specs::Reading::formed))]
fn place_statement(
    alloc: Global,
    literals: bool,
    defining: bool,
    depth_left: u32,
    form: Form,
    cursor: Cursor<'_>,
) -> Result<Found<'_, Option<SimpleNode>>, ParseFault>
    ensures { Gives (λ x. (option_map simple_of x.node, ahead x.rest)) result (formed literals defining MAX_ENTRIES depth_left form (ahead cursor.entry)) }
{
    match form {
        Form::Increment => as_some(increment_statement(alloc, cursor)),
        Form::Decrement => as_some(decrement_statement(alloc, cursor)),
        Form::Update(operator) => as_some(operator_assignment(
            alloc, literals, depth_left, operator, cursor,
        )),
        Form::Assign(_) => as_some(assignment(alloc, literals, depth_left, cursor)),
        Form::List if depth_left < 1 => {
            let first = place(alloc, cursor)?;
            Err(ParseFault::TooDeep(first.rest.place()))
        }
        Form::Define(_) | Form::List if defining && defines(cursor) => {
            as_some(short_var_declaration(alloc, literals, depth_left, cursor))
        }
        Form::Define(_) | Form::List => as_some(assignment(alloc, literals, depth_left, cursor)),
        Form::Other => Ok(Found {
            node: None,
            rest: cursor,
        }),
    }
}

/// A simple statement that begins with an lvalue or a name of its own, if one comes next.
#[tactic(auto, unfolding(crate::specs::Reading::led))]
pub fn statement_unless_value(
    alloc: Global,
    literals: bool,
    defining: bool,
    depth_left: u32,
    cursor: Cursor<'_>,
) -> Result<Found<'_, Option<SimpleNode>>, ParseFault>
    ensures { Gives (λ x. (option_map simple_of x.node, ahead x.rest)) result (led literals defining MAX_ENTRIES depth_left (ahead cursor.entry)) }
{
    match cursor.next() {
        Some((Word::Name(name), rest)) if !makes_value(name) => {
            if is_builtin(name) {
                return as_some(builtin_call(alloc, literals, depth_left, name, cursor, rest));
            }
            let form = form_of(cursor);
            place_statement(alloc, literals, defining, depth_left, form, cursor)
        }
        _ => Ok(Found {
            node: None,
            rest: cursor,
        }),
    }
}

/// The operand of a send, which may begin as an lvalue does.
#[tactic(auto, unfolding(crate::specs::Reading::send_operand))]
pub fn send_operand(
    alloc: Global,
    literals: bool,
    depth_left: u32,
    cursor: Cursor<'_>,
) -> Result<Found<'_, ExpressionNode>, ParseFault>
    ensures { Gives (λ x. (expression_of x.node, ahead x.rest)) result (send_operand literals MAX_ENTRIES depth_left (ahead cursor.entry)) }
{
    fits(false, literals, depth_left, cursor)?;
    primary_expression(alloc, literals, depth_left, cursor)
}

/// A send.
#[tactic(auto, unfolding(crate::specs::Reading::sent))]
fn send_statement(
    alloc: Global,
    literals: bool,
    depth_left: u32,
    cursor: Cursor<'_>,
) -> Result<Found<'_, SimpleNode>, ParseFault>
    ensures { Gives (λ x. (simple_of x.node, ahead x.rest)) result (sent Send literals MAX_ENTRIES depth_left (ahead cursor.entry)) }
{
    let channel = send_operand(alloc, literals, depth_left, cursor)?;
    let (channel, value) = beside(
        channel.node,
        expression_after(alloc, literals, depth_left, TokenKind::Arrow, channel.rest),
    )?;
    Ok(Found {
        node: SimpleNode::Send(channel, value.node),
        rest: value.rest,
    })
}

/// A simple statement, below which there are at most `depth_left` levels ("Simple statements" of the Go specification). It may have composite
/// literals only if `literals` holds, and be a `:=` only if `defining` does.
#[tactic(auto, unfolding(crate::specs::Reading::simple))]
pub fn simple_statement(
    alloc: Global,
    literals: bool,
    defining: bool,
    depth_left: u32,
    cursor: Cursor<'_>,
) -> Result<Found<'_, SimpleNode>, ParseFault>
    ensures { Gives (λ x. (simple_of x.node, ahead x.rest)) result (simple literals defining MAX_ENTRIES depth_left (ahead cursor.entry)) }
{
    if begins_with(TokenKind::Arrow, cursor) {
        return receive_statement(alloc, literals, depth_left, cursor);
    }
    if begins_call(cursor) {
        return call_statement(alloc, literals, depth_left, cursor);
    }
    let Found { node, rest } = statement_unless_value(
        alloc, literals, defining, depth_left, cursor,
    )?;
    match node {
        Some(node) => Ok(Found { node, rest }),
        None => send_statement(alloc, literals, depth_left, rest),
    }
}
