//! What goroutines wait for, and what they do next.

use crate::rows::Row;
use crate::scene::Scene;
use crate::values::{push_channel, push_item, push_word};
use diagnostic_words::words::Words;
use reference_value::given::Given;
use reference_world::Sleeper;
use word::request::{Case, Reply, Request};
use word::value::Item;

/// Appends what a goroutine waits for or does next.
pub(crate) fn push_doing(
    said: &mut Words,
    scene: Scene<'_, '_>,
    sleepers: &[Sleeper],
    row: &Row<'_, '_>,
) {
    if row.is_asleep {
        push_wish(said, sleepers, row.number);
    } else if row.is_doomed {
        said.text("woken by a close, panics next");
    } else {
        push_pause(said, row.left);
        push_next(said, scene, row);
    }
}

/// Appends for how many ticks a goroutine still waits since the plan says so, if it does.
fn push_pause(said: &mut Words, ticks: u64) {
    if ticks == 0 {
        return;
    }
    said.text("pauses for ");
    said.number(i128::from(ticks));
    said.text(if ticks == 1 { " tick; " } else { " ticks; " });
}

/// Appends what a goroutine that is awake does next, and what its request or its call gave, if that has just returned.
fn push_next(said: &mut Words, scene: Scene<'_, '_>, row: &Row<'_, '_>) {
    let Some(top) = row.placed.frames.last() else {
        said.text("ends");
        return;
    };
    if top.position.tasks.is_empty() {
        said.text("returns");
        return;
    }
    match top.given.last() {
        Some(Given::Told(reply)) => push_reply(said, reply),
        Some(Given::Yielded(words)) if words.is_empty() => said.text("called: "),
        Some(Given::Yielded(words)) => {
            said.text("got ");
            push_item(said, words.as_slice());
            said.text(" back: ");
        }
        None => said.text("next: "),
    }
    scene.push_text(said, row.placed.trail.site().node);
}

/// Appends what a request gave.
fn push_reply(said: &mut Words, reply: &Reply) {
    match reply {
        Reply::Nothing => said.text("done: "),
        Reply::Word(word) => {
            said.text("got ");
            push_word(said, *word);
            said.text(": ");
        }
        Reply::Received(item, is_sent) => {
            push_received(said, item, *is_sent);
            said.text(": ");
        }
        Reply::Clause(number, received) => {
            said.text("did clause ");
            said.number(*number as i128);
            if let Some((item, is_sent)) = received {
                said.text(", ");
                push_received(said, item, *is_sent);
            }
            said.text(": ");
        }
        Reply::Default => said.text("did the default: "),
        Reply::Closed => said.text("woken by a close: "),
    }
}

/// Appends what was received.
fn push_received(said: &mut Words, item: &Item, is_sent: bool) {
    if is_sent {
        said.text("received ");
        push_item(said, item.words());
    } else {
        said.text("received nothing, the channel is closed");
    }
}

/// Appends what the sleeper of a number waits for.
fn push_wish(said: &mut Words, sleepers: &[Sleeper], number: u64) {
    match sleepers.iter().find(|sleeper| sleeper.number == number) {
        Some(sleeper) => push_request(said, &sleeper.request),
        None => said.text("waits"),
    }
}

/// Appends a request at which a goroutine sleeps.
fn push_request(said: &mut Words, request: &Request) {
    match request {
        Request::Send(channel, item) => push_send(said, *channel, item),
        Request::Receive(channel) => push_receive(said, *channel),
        Request::Select(cases, _) => push_select(said, cases.as_slice()),
        _ => said.text("waits"),
    }
}

/// Appends a send.
fn push_send(said: &mut Words, channel: Option<u32>, item: &Item) {
    said.text("sends ");
    push_item(said, item.words());
    said.text(" to ");
    push_end(said, channel);
}

/// Appends a receive.
fn push_receive(said: &mut Words, channel: Option<u32>) {
    said.text("receives from ");
    push_end(said, channel);
}

/// Appends a channel that is sent to or received from.
fn push_end(said: &mut Words, channel: Option<u32>) {
    match channel {
        Some(number) => push_channel(said, number),
        None => said.text("a nil channel"),
    }
}

/// Appends the clauses of a select.
fn push_select(said: &mut Words, cases: &[Case]) {
    said.text("selects");
    for (index, case) in cases.iter().enumerate() {
        said.text(if index > 0 { ", or " } else { ": " });
        match &case.item {
            Some(item) => push_send(said, case.chan, item),
            None => push_receive(said, case.chan),
        }
    }
}
