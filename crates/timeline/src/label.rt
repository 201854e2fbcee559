//! What an event is, in words.

use crate::lanes::Asleep;
use crate::moves::{Transfer, channel_of, transfer_of};
use crate::names::Names;
use crate::recording::{Recording, push_line_number};
use crate::waits::{clause_of, label_of};
use std::alloc::{AllocError, Global};
use std::str;
use word::end::End;
use word::panic::Panic;
use word::request::{Case, Event, EventOutcome, Reply, Request};
use word::value::Word;

/// How many bytes of a print are shown at most: of a longer one only the number of its bytes.
const SHOWN: usize = 80;

/// How many clauses of a select are shown at most.
const CLAUSES: usize = 4;

/// What the words of a picture are made from.
#[derive(Clone, Copy)]
pub(crate) struct Labels<'a> {
    pub alloc: Global,
    pub recording: &'a Recording,
    pub names: &'a Names<'a>,
}

impl Labels<'_> {
    /// What an event is, as `sends 3 on orders, wakes goroutine 2`, and `, sleeps` if its goroutine fell asleep.
    pub(crate) fn event(self, event: &Event) -> Result<String, AllocError> {
        let mut label = String::new(self.alloc);
        self.push_request(&mut label, event)?;
        match &event.outcome {
            EventOutcome::Done(reply) => push_reply(&mut label, event, reply)?,
            EventOutcome::Sleeps => label.push_str(", sleeps")?,
            EventOutcome::Panics(cause, _) => {
                let why = panic_label(*cause);
                write!(label, ", panics: {why}")?;
            }
        }
        Ok(label)
    }

    /// What a goroutine waits for, and on which line, as `waits to receive from orders at line 7`.
    pub(crate) fn wait(self, asleep: &Asleep) -> Result<String, AllocError> {
        let mut waits = asleep.wait.label(self.alloc, self.names)?;
        push_line_number(&mut waits, self.recording.line(asleep.site))?;
        Ok(waits)
    }

    /// The item that an event moves, as `3 on orders`; just `item on orders` if it moves none.
    pub(crate) fn item_on(self, event: usize, channel: u32) -> Result<String, AllocError> {
        let mut label = String::new(self.alloc);
        let event = self.recording.events.get(event);
        match event.and_then(transfer_of) {
            Some(transfer) => self.push_item(&mut label, transfer)?,
            None => label.push_str("item")?,
        }
        label.push_str(" on ")?;
        self.names.push_channel(&mut label, Some(channel))?;
        Ok(label)
    }

    /// The item that an event sends or receives.
    pub(crate) fn push_item(
        self,
        label: &mut String,
        transfer: Transfer<'_>,
    ) -> Result<(), AllocError> {
        self.names.push_item(label, transfer.channel, transfer.item)
    }

    /// The request of an event's actor.
    fn push_request(self, label: &mut String, event: &Event) -> Result<(), AllocError> {
        match &event.request {
            Request::Make(size, _) => self.push_made(label, *size, event),
            Request::Go(function, _) => {
                push_started(label, self.recording.function(*function), event)
            }
            Request::Send(channel, _) => self.push_transfer(label, event, "sends on ", *channel),
            Request::Receive(channel) => {
                self.push_transfer(label, event, "receives from ", *channel)
            }
            Request::Close(channel) => self.push_on(label, "closes ", *channel),
            Request::Select(cases, _) => self.push_select(label, cases.as_slice(), event),
            Request::Len(channel) => self.push_on(label, "reads len of ", *channel),
            Request::Cap(channel) => self.push_on(label, "reads cap of ", *channel),
            Request::Print(bytes) => push_print(label, bytes.as_slice()),
            Request::End => label.push_str("ends"),
            Request::Exit => label.push_str("ends the program"),
            Request::Panic(_) => label.push_str("computes"),
            Request::Exhausted => label.push_str("reaches the limit of logical time"),
        }
    }

    /// A channel is made: its number, what it is called, and its size.
    fn push_made(self, label: &mut String, size: i64, event: &Event) -> Result<(), AllocError> {
        match &event.outcome {
            EventOutcome::Done(Reply::Word(Word::Chan(Some(number)))) => {
                write!(label, "makes channel {number}")?;
                if let Some(name) = self.names.name(*number) {
                    write!(label, ", {name},")?;
                }
                write!(label, " of size {size}")
            }
            _ => write!(label, "makes a channel of size {size}"),
        }
    }

    /// What is done with a channel.
    fn push_on(
        self,
        label: &mut String,
        what: &str,
        channel: Option<u32>,
    ) -> Result<(), AllocError> {
        label.push_str(what)?;
        self.names.push_channel(label, channel)
    }

    /// A send or a receive, with its item; `what` is done with the channel if there is none.
    fn push_transfer(
        self,
        label: &mut String,
        event: &Event,
        what: &str,
        channel: Option<u32>,
    ) -> Result<(), AllocError> {
        let Some(transfer) = transfer_of(event) else {
            return self.push_on(label, what, channel);
        };
        label.push_str(if transfer.sends {
            "sends "
        } else {
            "receives "
        })?;
        self.push_item(label, transfer)?;
        label.push_str(if transfer.sends { " on " } else { " from " })?;
        self.names.push_channel(label, transfer.channel)
    }

    /// A select: the clause that it did with its channel, or what it waits for.
    fn push_select(
        self,
        label: &mut String,
        cases: &[Case],
        event: &Event,
    ) -> Result<(), AllocError> {
        let count = cases.len();
        match &event.outcome {
            EventOutcome::Done(Reply::Clause(number, _)) => {
                write!(label, "selects clause {number} of {count}: ")?;
                self.push_transfer(label, event, "receives from ", channel_of(cases, *number))
            }
            EventOutcome::Done(_) => label.push_str("selects the default"),
            _ => {
                write!(label, "selects among {count} clauses")?;
                self.push_clauses(label, cases)
            }
        }
    }

    /// The clauses of a select, the first ones if there are many.
    fn push_clauses(self, label: &mut String, cases: &[Case]) -> Result<(), AllocError> {
        for (index, case) in cases.iter().take(CLAUSES).enumerate() {
            let before = if index == 0 { ": " } else { " or " };
            label.push_str(before)?;
            let clause = clause_of(case);
            self.push_on(label, label_of(clause), clause.channel)?;
        }
        if cases.len() > CLAUSES {
            label.push_str(" or ..")?;
        }
        Ok(())
    }
}

/// A goroutine is started: its number, and its first function.
fn push_started(label: &mut String, function: &str, event: &Event) -> Result<(), AllocError> {
    match event.partners.first() {
        Some(number) => write!(label, "starts goroutine {number} ({function})"),
        None => write!(label, "starts a goroutine ({function})"),
    }
}

/// What a print writes, or how much if it is long.
fn push_print(label: &mut String, bytes: &[u8]) -> Result<(), AllocError> {
    let count = bytes.len();
    match str::from_utf8(bytes) {
        Ok(text) if count <= SHOWN => write!(label, "prints {text}"),
        _ => write!(label, "prints {count} bytes"),
    }
}

/// What a reply adds, and the goroutines that were woken.
fn push_reply(label: &mut String, event: &Event, reply: &Reply) -> Result<(), AllocError> {
    match reply {
        Reply::Received(_, false) | Reply::Clause(_, Some((_, false))) => {
            label.push_str(", which is closed")?;
        }
        Reply::Word(Word::Int(value)) => write!(label, " ({value})")?,
        _ => {}
    }
    match &event.request {
        Request::Go(..) => Ok(()),
        _ => push_woken(label, event.partners.as_slice()),
    }
}

/// The goroutine that an event woke, or how many.
fn push_woken(label: &mut String, partners: &[u64]) -> Result<(), AllocError> {
    match partners {
        [] => Ok(()),
        [number] => write!(label, ", wakes goroutine {number}"),
        _ => {
            let count = partners.len();
            write!(label, ", wakes {count} goroutines")
        }
    }
}

/// Which events of the run a picture shows.
pub(crate) fn count_label(alloc: Global, recording: &Recording) -> Result<String, AllocError> {
    let (count, before, after) = (recording.events.len(), recording.before, recording.after());
    match (recording.end, count) {
        (_, 0) if before > 0 => format!(in alloc; "no events: the run has {before}"),
        (Some(_), 1) if before == 0 => String::from_str(alloc, "1 event"),
        (Some(_), _) if before == 0 => format!(in alloc; "{count} events"),
        (Some(_), _) => {
            let first = recording.event_number(0);
            format!(in alloc; "events {first} to {after} of {after}")
        }
        (None, _) => {
            let first = recording.event_number(0);
            format!(in alloc; "events {first} to {after}")
        }
    }
}

/// How a run ended, or that there is more of it.
pub(crate) fn end_label(alloc: Global, end: Option<End>) -> Result<String, AllocError> {
    match end {
        Some(End::Finished) => String::from_str(alloc, "finished"),
        Some(End::Panicked(cause)) => {
            let why = panic_label(cause);
            format!(in alloc; "panic: {why}")
        }
        Some(End::Deadlock) => String::from_str(alloc, "deadlock: every goroutine waits"),
        Some(End::Exhausted) => String::from_str(alloc, "logical time exhausted"),
        None => String::from_str(alloc, "the run goes on"),
    }
}

/// What a panic says.
fn panic_label(cause: Panic) -> &'static str {
    match cause {
        Panic::DivideByZero => "divide by zero",
        Panic::SendOnClosed => "send on closed channel",
        Panic::CloseOfClosed => "close of closed channel",
        Panic::CloseOfNil => "close of nil channel",
        Panic::NegativeShift => "negative shift",
        Panic::ChannelSize => "channel size",
        Panic::CallDepth => "call depth",
        Panic::TooManyGoroutines => "too many goroutines",
        Panic::TooManyChannels => "too many channels",
    }
}
