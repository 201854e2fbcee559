//! Operations that their channel does not allow.

use crate::place::Setting;
use diagnostic_scope::given::Role;
use diagnostic_words::words::{Words, push_written};
use syntax::{ExpressionNode, TypeNode};
use type_table::value_type::{ValueType, type_in};

/// What is said before an operand that is no channel.
fn before_no_channel(role: &Role<'_>) -> Option<&'static str> {
    match role {
        Role::SentTo => Some("invalid operation: cannot send to non-channel "),
        Role::ReceivedFrom => Some("invalid operation: cannot receive from non-channel "),
        Role::Closed => Some("invalid operation: cannot close non-channel "),
        Role::Ranged => Some("cannot range over "),
        Role::Measured(_) => Some("invalid argument: "),
        _ => None,
    }
}

/// Reports the operand at the node of the fault, which is no channel.
pub fn push_no_channel(said: &mut Words, at: &Setting<'_, '_>) {
    let Some(value) = at.value() else {
        return;
    };
    let Some(before) = before_no_channel(&value.role) else {
        return;
    };
    said.text(before);
    at.push_operand(said, value.expression);
    if let Role::Measured(function) = value.role {
        said.text(" for built-in ");
        said.text(function);
    }
}

/// What is said before a channel whose direction does not allow this.
fn before_direction(role: &Role<'_>) -> Option<&'static str> {
    match role {
        Role::SentTo => Some("invalid operation: cannot send to receive-only channel "),
        Role::Closed => Some("invalid operation: cannot close receive-only channel "),
        Role::ReceivedFrom => Some("invalid operation: cannot receive from send-only channel "),
        Role::Ranged => Some("cannot range over "),
        _ => None,
    }
}

/// Reports an operation of the unit that the direction of its channel does not allow.
fn push_direction_of(said: &mut Words, at: &Setting<'_, '_>) {
    let Some(value) = at.parts.values.first() else {
        return;
    };
    let Some(before) = before_direction(&value.role) else {
        return;
    };
    said.text(before);
    at.push_operand(said, value.expression);
    if let Role::Ranged = value.role {
        said.text(": receive from send-only channel");
    }
}

/// Reports an operation that the direction of its channel does not allow.
pub fn push_direction(said: &mut Words, at: &Setting<'_, '_>) {
    match at.part() {
        Some(ExpressionNode::Receive(channel)) => {
            said.text("invalid operation: cannot receive from send-only channel ");
            at.push_operand(said, channel);
        }
        _ => push_direction_of(said, at),
    }
}

/// Reports a `make` of what is no channel.
fn push_no_make(said: &mut Words, written: &TypeNode) {
    said.text("invalid argument: cannot make ");
    push_written(said, written);
    said.text("; type must be channel");
}

/// The type that a `make` at the node of the fault makes, if that is no channel's.
fn no_channel_at<'a>(at: &Setting<'_, 'a>) -> Option<&'a TypeNode> {
    match at.part() {
        Some(ExpressionNode::Make(written) | ExpressionNode::MakeSized(written, _)) => {
            match type_in(at.table, &at.scene.visible, written) {
                Some(ValueType::Channel(_, _)) => None,
                _ => Some(written),
            }
        }
        _ => None,
    }
}

/// Reports a `make` of no channel, or of its size.
pub fn push_unmade(said: &mut Words, at: &Setting<'_, '_>) {
    if let Some(written) = no_channel_at(at) {
        return push_no_make(said, written);
    }
    if let Some(value) = at.value() {
        said.text("invalid argument: size ");
        at.push_operand(said, value.expression);
        said.text(" must be an int that is not negative");
    }
}
