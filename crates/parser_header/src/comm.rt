//! What a clause of a select waits for.

ghost use Rattle.std.specs.Prelude.{true, option_map};
ghost use Rattle.syntax.specs.Tree.{CommSend, CommReceive};
ghost use Rattle.syntax.specs.View.{name_of, expression_of, place_of, comm_of};
ghost use Rattle.parser_base.specs.Cursor.{ahead};
ghost use Rattle.parser_base.specs.Reading.{Gives, as_one, plain_name};
ghost use Rattle.parser_simple.specs.Reading.{received, place, sent};
ghost use Rattle.parser_header.specs.Reading.{second, received_after, comm_defined, comm_assigned, comm_formed, comm};

use parser_base::beside::beside;
use parser_base::cursor::Cursor;
use parser_base::fault::ParseFault;
use parser_base::found::Found;
use parser_simple::form::{Form, begins_with, defines, place_form};
use parser_simple::place::{name_at, place};
use parser_simple::right::{expression_after, receive_operand};
use parser_simple::simple::send_operand;
use scanner::TokenKind;
use std::alloc::Global;
use syntax::limits::MAX_ENTRIES;
use syntax::{CommNode, ExpressionNode, Name, PlaceNode};

/// A second name after a comma, if there is one.
#[tactic(auto, unfolding(crate::specs::Reading::second))]
fn second_name(alloc: Global, cursor: Cursor<'_>) -> Result<(Option<Name>, Cursor<'_>), ParseFault>
    ensures { Gives (λ x. (option_map name_of x.0, ahead x.1)) result (second plain_name (ahead cursor.entry)) }
{
    if !begins_with(TokenKind::Comma, cursor) {
        return Ok((None, cursor));
    }
    let following = cursor.expect(TokenKind::Comma)?;
    let (name, rest) = name_at(alloc, following)?;
    Ok((Some(name), rest))
}

/// A second lvalue after a comma, if there is one.
#[tactic(auto, unfolding(crate::specs::Reading::second))]
fn second_place(
    alloc: Global,
    cursor: Cursor<'_>,
) -> Result<(Option<PlaceNode>, Cursor<'_>), ParseFault>
    ensures { Gives (λ x. (option_map place_of x.0, ahead x.1)) result (second place (ahead cursor.entry)) }
{
    if !begins_with(TokenKind::Comma, cursor) {
        return Ok((None, cursor));
    }
    let following = cursor.expect(TokenKind::Comma)?;
    let target = place(alloc, following)?;
    Ok((Some(target.node), target.rest))
}

/// A receive after this mark.
fn receive_after(
    alloc: Global,
    depth_left: u32,
    mark: TokenKind,
    cursor: Cursor<'_>,
) -> Result<Found<'_, ExpressionNode>, ParseFault>
    ensures { Gives (λ x. (expression_of x.node, ahead x.rest)) result (received_after mark MAX_ENTRIES depth_left (ahead cursor.entry)) }
{
    let arrow = cursor.expect(mark)?;
    let channel = receive_operand(alloc, true, depth_left, arrow)?;
    Ok(Found {
        node: channel.node,
        rest: channel.rest,
    })
}

/// A receive with a `:=` of one name or two.
#[tactic(auto, unfolding(crate::specs::Reading::comm_defined))]
fn defining_receive(
    alloc: Global,
    depth_left: u32,
    cursor: Cursor<'_>,
) -> Result<(CommNode, Cursor<'_>), ParseFault>
    ensures { Gives (λ x. (comm_of x.0, ahead x.1)) result (comm_defined MAX_ENTRIES depth_left (ahead cursor.entry)) }
{
    let (item, rest) = name_at(alloc, cursor)?;
    let (item, (ok, rest)) = beside(item, second_name(alloc, rest))?;
    let ((item, ok), channel) = beside(
        (item, ok),
        receive_after(alloc, depth_left, TokenKind::Define, rest),
    )?;
    Ok((CommNode::Define(item, ok, channel.node), channel.rest))
}

/// A receive with an assignment to one lvalue or two.
#[tactic(auto, unfolding(crate::specs::Reading::comm_assigned))]
fn assigning_receive(
    alloc: Global,
    depth_left: u32,
    cursor: Cursor<'_>,
) -> Result<(CommNode, Cursor<'_>), ParseFault>
    ensures { Gives (λ x. (comm_of x.0, ahead x.1)) result (comm_assigned MAX_ENTRIES depth_left (ahead cursor.entry)) }
{
    let item = place(alloc, cursor)?;
    let (item, (ok, rest)) = beside(item.node, second_place(alloc, item.rest))?;
    let ((item, ok), channel) = beside(
        (item, ok),
        receive_after(alloc, depth_left, TokenKind::Assign, rest),
    )?;
    Ok((CommNode::Assign(item, ok, channel.node), channel.rest))
}

/// A send.
#[tactic(auto, unfolding(parser_simple::specs::Reading::sent))]
fn send_statement(
    alloc: Global,
    depth_left: u32,
    cursor: Cursor<'_>,
) -> Result<(CommNode, Cursor<'_>), ParseFault>
    ensures { Gives (λ x. (comm_of x.0, ahead x.1)) result (sent CommSend true MAX_ENTRIES depth_left (ahead cursor.entry)) }
{
    let channel = send_operand(alloc, true, depth_left, cursor)?;
    let (channel, value) = beside(
        channel.node,
        expression_after(alloc, true, depth_left, TokenKind::Arrow, channel.rest),
    )?;
    Ok((CommNode::Send(channel, value.node), value.rest))
}

/// A receive alone.
fn lone_receive(
    alloc: Global,
    depth_left: u32,
    cursor: Cursor<'_>,
) -> Result<(CommNode, Cursor<'_>), ParseFault>
    ensures { Gives (λ x. (comm_of x.0, ahead x.1)) result (as_one CommReceive (received true MAX_ENTRIES depth_left (ahead cursor.entry))) }
{
    let channel = receive_operand(alloc, true, depth_left, cursor)?;
    Ok((CommNode::Receive(channel.node), channel.rest))
}

/// A statement that begins with an lvalue in this form, or with the operand of a send.
#[tactic(auto, unfolding(crate::specs::Reading::comm_formed))]
fn form_statement(
    alloc: Global,
    depth_left: u32,
    form: Form,
    cursor: Cursor<'_>,
) -> Result<(CommNode, Cursor<'_>), ParseFault>
    ensures { Gives (λ x. (comm_of x.0, ahead x.1)) result (comm_formed MAX_ENTRIES depth_left form (ahead cursor.entry)) }
{
    match form {
        Form::Define(_) if defines(cursor) => defining_receive(alloc, depth_left, cursor),
        Form::List if defines(cursor) => defining_receive(alloc, depth_left, cursor),
        Form::Define(_) | Form::Assign(_) | Form::List => assigning_receive(
            alloc, depth_left, cursor,
        ),
        _ => send_statement(alloc, depth_left, cursor),
    }
}

/// What a clause of a `select` waits for, with at most `depth_left` levels below it ("Select statements" of the Go specification).
#[tactic(auto, unfolding(crate::specs::Reading::comm))]
pub fn comm_statement(
    alloc: Global,
    depth_left: u32,
    cursor: Cursor<'_>,
) -> Result<(CommNode, Cursor<'_>), ParseFault>
    ensures { Gives (λ x. (comm_of x.0, ahead x.1)) result (comm MAX_ENTRIES depth_left (ahead cursor.entry)) }
{
    if begins_with(TokenKind::Arrow, cursor) {
        return lone_receive(alloc, depth_left, cursor);
    }
    form_statement(alloc, depth_left, place_form(cursor), cursor)
}
