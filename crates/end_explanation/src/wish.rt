//! What goroutines wait for.

use crate::explanation::Report;
use crate::goroutine::Goroutine;
use crate::named::{clauses_of, named_at};
use diagnostic_scope::unit::units_at;
use diagnostic_words::words::{Words, push_expression};
use syntax::{ClauseNode, CommNode, ExpressionNode};
use watched_goroutine::{Offer, Wish};

/// Appends what a goroutine waits for; of a `select` how many clauses it has.
pub(crate) fn push_wish(said: &mut Words, report: Report<'_, '_>, goroutine: &Goroutine) {
    match &goroutine.wish {
        Some(Wish::Send(channel)) => {
            said.text("sends to ");
            push_asked(said, report, goroutine, *channel);
        }
        Some(Wish::Receive(channel)) => {
            said.text("receives from ");
            push_asked(said, report, goroutine, *channel);
        }
        Some(Wish::Select(offers)) => {
            said.text("select of ");
            said.number(offers.len() as i128);
            said.text(if offers.len() == 1 {
                " clause"
            } else {
                " clauses"
            });
        }
        Some(Wish::Nothing) | None => said.text("waits"),
    }
}

/// Appends a line for each clause of the `select` that a goroutine waits at, if it does.
pub(crate) fn push_clauses(said: &mut Words, report: Report<'_, '_>, goroutine: &Goroutine) {
    let Some(Wish::Select(offers)) = &goroutine.wish else {
        return;
    };
    for (before, offer) in offers.iter().enumerate() {
        push_offer(said, report, goroutine, *offer, before.saturating_add(1));
    }
}

/// Appends the line of the clause of this number, counted from 1, of the `select` that a goroutine waits at.
fn push_offer(
    said: &mut Words,
    report: Report<'_, '_>,
    goroutine: &Goroutine,
    offer: Offer,
    number: usize,
) {
    said.text(if offer.sends {
        "  sends to "
    } else {
        "  receives from "
    });
    push_in_clause(said, report, goroutine, number, offer.channel);
    said.text("\n");
}

/// Appends the channel of the clause of this number, counted from 1, of the `select` that a goroutine is at.
pub(crate) fn push_in_clause(
    said: &mut Words,
    report: Report<'_, '_>,
    goroutine: &Goroutine,
    number: usize,
    channel: Option<u32>,
) {
    let Some(call) = goroutine.last() else {
        push_channel(said, report, None, channel);
        return;
    };
    let found = units_at(report.scene.alloc, report.scene.tree.file(), call.node);
    let clauses = match found.found.first() {
        Some(unit) => clauses_of(unit.unit),
        None => &[],
    };
    let mut with_comm = clauses.iter().filter(|clause| clause.comm.is_some());
    let name = match with_comm.nth(number.saturating_sub(1)) {
        Some(clause) => channel_of(clause),
        None => None,
    };
    push_channel(said, report, name, channel);
}

/// Appends the channel that a goroutine sends to, receives from or closes outside a `select`.
pub(crate) fn push_asked(
    said: &mut Words,
    report: Report<'_, '_>,
    goroutine: &Goroutine,
    channel: Option<u32>,
) {
    let Some(call) = goroutine.last() else {
        push_channel(said, report, None, channel);
        return;
    };
    let found = units_at(report.scene.alloc, report.scene.tree.file(), call.node);
    let name = match found.found.first() {
        Some(unit) => named_at(report.scene.alloc, *unit, call.node),
        None => None,
    };
    push_channel(said, report, name, channel);
}

/// Appends a channel: what the statement calls it, its number, and where it was made.
fn push_channel(
    said: &mut Words,
    report: Report<'_, '_>,
    name: Option<&ExpressionNode>,
    channel: Option<u32>,
) {
    match (name, channel) {
        (Some(name), Some(number)) => {
            push_expression(said, name);
            said.text(" (");
            push_number(said, report, number);
            said.text(")");
        }
        (Some(name), None) => {
            push_expression(said, name);
            said.text(", a nil channel");
        }
        (None, Some(number)) => push_number(said, report, number),
        (None, None) => said.text("a nil channel"),
    }
}

/// Appends the number of a channel, and where it was made.
fn push_number(said: &mut Words, report: Report<'_, '_>, number: u32) {
    said.text("channel ");
    said.number(i128::from(number));
    if let Some(made) = report.moment.notes.made(number) {
        said.text(", made at ");
        report.scene.push_position(said, made.node);
    }
}

/// The channel that a clause of a `select` sends to or receives from.
fn channel_of(clause: &ClauseNode) -> Option<&ExpressionNode> {
    match &clause.comm {
        Some(
            CommNode::Send(channel, _)
            | CommNode::Receive(channel)
            | CommNode::Define(_, _, channel)
            | CommNode::Assign(_, _, channel),
        ) => Some(channel),
        None => None,
    }
}
