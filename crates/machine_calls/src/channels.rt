//! What channels answer.

use crate::checks::{Checks, is_refused};
use channel_core::{Channels, Outcome, Woken};
use go_text::{Fault, Memory};
use logical_clock::{Clock, Key, LAST};
use select_core::{Choice, choose, enter_all, leave_all, select};
use std::alloc::Global;
use word::panic::Panic;
use word::request::{Case, Reply};
use word::value::{Item, Word};

/// The number of the one channel that is made.
const ONE: Option<u32> = Some(1);

/// A call. The goroutine that makes it is named where it matters.
#[derive(Clone, Copy)]
enum Call {
    /// Of a channel of this capacity.
    Make(i64),
    /// On a channel, by the goroutine of this number, of an item of one number.
    Send(Option<u32>, u64, i64),
    /// On a channel, by the goroutine of this number.
    Receive(Option<u32>, u64),
    Close(Option<u32>),
    /// At this clock: a send of 1 or a receive, both on the one channel; or the default, if it has one.
    Select(u64, u64, bool),
    /// Which clause of that select is done at this clock, with no other effect.
    Choose(u64, bool),
    /// Falls asleep at that select.
    EnterAll(u64),
    LeaveAll(u64),
    Len(Option<u32>),
    Cap(Option<u32>),
    Asleep,
}

/// What a call says, in short.
#[derive(Clone, Copy, PartialEq, Eq)]
enum Seen {
    NoMemory,
    Sleeps,
    Panics(Panic, usize),
    Replied(Answer, Awake),
    Count(i64),
    Asleep(usize),
    Chosen(Choice),
}

/// The reply to the goroutine that made the request.
#[derive(Clone, Copy, PartialEq, Eq)]
enum Answer {
    Channel(Option<u32>),
    /// An item of one number, and the flag.
    Item(i64, bool),
    /// A clause of a select, by its number.
    Clause(usize),
    Default,
    Other,
}

/// How many were woken, and the number of the first, which is 0 if there is none.
type Awake = (usize, u64);

/// Nobody was woken.
const NOBODY: Awake = (0, 0);

/// What a call says that is done and wakes nobody.
const DONE: Seen = Seen::Replied(Answer::Other, NOBODY);

/// What the making of the one channel says.
const MADE: Seen = Seen::Replied(Answer::Channel(ONE), NOBODY);

/// Calls, one after the other, and what each of them gives.
type Talk = &'static [(Call, Seen)];

const TALKS: [(&str, Talk); 9] = [
    (
        "a sender waits for its receiver",
        &[
            (Call::Make(0), MADE),
            (Call::Send(ONE, 2, 7), Seen::Sleeps),
            (
                Call::Receive(ONE, 1),
                Seen::Replied(Answer::Item(7, true), (1, 2)),
            ),
        ],
    ),
    (
        "a buffer keeps the order",
        &[
            (Call::Make(2), MADE),
            (Call::Send(ONE, 1, 0), DONE),
            (Call::Send(ONE, 1, 1), DONE),
            (Call::Send(ONE, 1, 2), Seen::Sleeps),
            (
                Call::Receive(ONE, 2),
                Seen::Replied(Answer::Item(0, true), (1, 1)),
            ),
            (
                Call::Receive(ONE, 2),
                Seen::Replied(Answer::Item(1, true), NOBODY),
            ),
            (
                Call::Receive(ONE, 2),
                Seen::Replied(Answer::Item(2, true), NOBODY),
            ),
            (Call::Receive(ONE, 2), Seen::Sleeps),
        ],
    ),
    (
        "a size out of range panics, and nil is never ready",
        &[
            (Call::Make(-1), Seen::Panics(Panic::ChannelSize, 0)),
            (Call::Make(65_537), Seen::Panics(Panic::ChannelSize, 0)),
            (Call::Send(None, 1, 1), Seen::Sleeps),
            (Call::Receive(None, 1), Seen::Sleeps),
        ],
    ),
    (
        "a close wakes all",
        &[
            (Call::Make(0), MADE),
            (Call::Receive(ONE, 2), Seen::Sleeps),
            (Call::Receive(ONE, 3), Seen::Sleeps),
            (Call::Asleep, Seen::Asleep(2)),
            (Call::Close(ONE), Seen::Replied(Answer::Other, (2, 2))),
            (Call::Asleep, Seen::Asleep(0)),
        ],
    ),
    (
        "a closed channel panics, and the close of nil",
        &[
            (Call::Make(0), MADE),
            (Call::Close(ONE), DONE),
            (Call::Close(ONE), Seen::Panics(Panic::CloseOfClosed, 0)),
            (Call::Close(None), Seen::Panics(Panic::CloseOfNil, 0)),
            (Call::Send(ONE, 1, 1), Seen::Panics(Panic::SendOnClosed, 0)),
        ],
    ),
    (
        "a select sleeps with all its clauses",
        &[
            (Call::Make(0), MADE),
            (
                Call::Select(1, 0, true),
                Seen::Replied(Answer::Default, NOBODY),
            ),
            (Call::Select(1, 0, false), Seen::Sleeps),
            (
                Call::Select(2, 0, false),
                Seen::Replied(Answer::Clause(1), (1, 1)),
            ),
            (Call::Asleep, Seen::Asleep(0)),
        ],
    ),
    (
        "of k ready clauses the one of index clock mod k is done",
        &[
            (Call::Make(2), MADE),
            (Call::Choose(1, false), Seen::Chosen(Choice::Case(0))),
            (Call::Send(ONE, 1, 5), DONE),
            (Call::Choose(4, true), Seen::Chosen(Choice::Case(0))),
            (Call::Choose(5, true), Seen::Chosen(Choice::Case(1))),
            (
                Call::Select(1, 7, false),
                Seen::Replied(Answer::Clause(2), NOBODY),
            ),
            (Call::Len(ONE), Seen::Count(0)),
        ],
    ),
    (
        "all offers of a select are withdrawn at once",
        &[
            (Call::Make(0), MADE),
            (Call::Choose(1, true), Seen::Chosen(Choice::Default)),
            (Call::Choose(1, false), Seen::Chosen(Choice::Sleep)),
            (Call::EnterAll(2), Seen::Asleep(1)),
            (Call::Choose(1, false), Seen::Chosen(Choice::Case(1))),
            (Call::LeaveAll(2), Seen::Asleep(0)),
            (Call::Choose(1, false), Seen::Chosen(Choice::Sleep)),
        ],
    ),
    (
        "channels have lengths and capacities",
        &[
            (Call::Make(3), MADE),
            (Call::Send(ONE, 1, 5), DONE),
            (Call::Len(ONE), Seen::Count(1)),
            (Call::Cap(ONE), Seen::Count(3)),
            (Call::Len(None), Seen::Count(0)),
            (Call::Cap(None), Seen::Count(0)),
        ],
    ),
];

/// Whether new channels answer so, also if a call is refused memory and made again.
pub(crate) fn check(alloc: Global, checks: &mut Checks) -> Result<(), Memory> {
    for (name, talk) in &TALKS {
        let mut answered = is_answered(alloc, talk);
        if is_refused(&answered) {
            answered = is_answered(alloc, talk);
        }
        checks.see(name, answered)?;
    }
    Ok(())
}

fn is_answered(alloc: Global, talk: Talk) -> Result<bool, Fault> {
    let mut channels = Channels::new(alloc)?;
    Ok(answers(&mut channels, alloc, talk))
}

fn answers(channels: &mut Channels, alloc: Global, talk: Talk) -> bool {
    for (call, wanted) in talk {
        if said_at_last(channels, alloc, *call) != Some(*wanted) {
            return false;
        }
    }
    true
}

/// What a call says. If it is refused memory, it is made again; `None` if a goroutine fell asleep or was woken before that.
fn said_at_last(channels: &mut Channels, alloc: Global, call: Call) -> Option<Seen> {
    let asleep = channels.asleep();
    match said(channels, alloc, call) {
        Seen::NoMemory if channels.asleep() != asleep => None,
        Seen::NoMemory => Some(said(channels, alloc, call)),
        seen => Some(seen),
    }
}

/// An item of one number.
fn item(alloc: Global, number: i64) -> Item {
    Item::new(alloc, [Word::Int(number)].as_slice())
}

/// What a call says.
fn said(channels: &mut Channels, alloc: Global, call: Call) -> Seen {
    match call {
        Call::Make(size) => seen_in(channels.make(size, item(alloc, 0))),
        Call::Send(chan, number, sent) => seen_in(channels.send(chan, number, item(alloc, sent))),
        Call::Receive(chan, number) => seen_in(channels.receive(chan, number)),
        Call::Close(chan) => seen_in(channels.close(chan)),
        Call::Select(number, clock, default) => selected(channels, alloc, number, clock, default),
        Call::Choose(clock, default) => {
            let cases = both(alloc);
            let clock = Clock::at(clock.min(LAST));
            Seen::Chosen(choose(channels, cases.as_slice(), default, clock))
        }
        Call::EnterAll(number) => entered(channels, alloc, number),
        Call::LeaveAll(number) => {
            leave_all(channels, number);
            Seen::Asleep(channels.asleep())
        }
        Call::Len(chan) => Seen::Count(channels.len(chan)),
        Call::Cap(chan) => Seen::Count(channels.cap(chan)),
        Call::Asleep => Seen::Asleep(channels.asleep()),
    }
}

/// A send of 1 and a receive, both on the one channel.
fn both(alloc: Global) -> [Case; 2] {
    [
        Case {
            chan: ONE,
            item: Some(item(alloc, 1)),
        },
        Case {
            chan: ONE,
            item: None,
        },
    ]
}

fn selected(
    channels: &mut Channels,
    alloc: Global,
    number: u64,
    clock: u64,
    default: bool,
) -> Seen {
    let cases = both(alloc);
    let clock = Clock::at(clock.min(LAST));
    let actor = Key { clock, number };
    seen_in(select(alloc, channels, actor, cases.as_slice(), default))
}

fn entered(channels: &mut Channels, alloc: Global, number: u64) -> Seen {
    match enter_all(alloc, channels, number, both(alloc).as_slice()) {
        Ok(()) => Seen::Asleep(channels.asleep()),
        Err(_) => Seen::NoMemory,
    }
}

fn seen_in(outcome: Result<Outcome, Memory>) -> Seen {
    match outcome {
        Ok(Outcome::Done(reply, woken)) => Seen::Replied(answer_of(&reply), awake(&woken)),
        Ok(Outcome::Sleeps) => Seen::Sleeps,
        Ok(Outcome::Panics(panic, clause)) => Seen::Panics(panic, clause),
        Err(_) => Seen::NoMemory,
    }
}

fn answer_of(reply: &Reply) -> Answer {
    match reply {
        Reply::Word(Word::Chan(number)) => Answer::Channel(*number),
        Reply::Received(item, ok) => match item.words() {
            [Word::Int(number)] => Answer::Item(*number, *ok),
            _ => Answer::Other,
        },
        Reply::Clause(clause, _) => Answer::Clause(*clause),
        Reply::Default => Answer::Default,
        _ => Answer::Other,
    }
}

fn awake(woken: &[Woken]) -> Awake {
    match woken.first() {
        Some(first) => (woken.len(), first.number()),
        None => NOBODY,
    }
}
