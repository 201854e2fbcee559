//! What is noted of a run while it goes on.

use crate::goroutine::Call;
use go_text::Memory;
use std::alloc::Global;
use word::panic::Panic;
use word::request::{Case, Event, EventOutcome, Reply, Request};
use word::value::{Item, Word};

/// A channel that was made.
#[derive(Clone, Copy)]
struct Channel {
    /// Where it was made.
    made: Option<Call>,
    /// Whether it has a buffer.
    is_buffered: bool,
    /// Whether it was sent to a goroutine.
    is_sent: bool,
    /// The number of the goroutine that received from it last; 0 if none did.
    received: u64,
    /// The number of the goroutine that sent to it last; 0 if none did.
    sent: u64,
    /// Who closed it; none if it is open.
    closer: Option<Closer>,
}

/// A goroutine that closed a channel.
#[derive(Clone, Copy)]
pub(crate) struct Closer {
    pub number: u64,
    /// Where it closed the channel.
    pub call: Option<Call>,
}

/// A goroutine that was started and has not ended.
#[derive(Clone, Copy)]
struct Started {
    number: u64,
    site: Option<Call>,
}

/// A goroutine that was woken by a close.
#[derive(Clone, Copy)]
struct Woken {
    number: u64,
    /// The channel that was closed.
    channel: u32,
    /// The clock of the one that closed it.
    clock: u64,
}

/// Why a run has panicked: a goroutine sent to a closed channel, or closed it.
#[derive(Clone, Copy)]
pub(crate) struct Misuse {
    pub channel: u32,
    /// The number of the clause that sent, counted from 1; 0 outside a `select`.
    pub clause: usize,
    /// Whether the goroutine waited to send when the channel was closed.
    pub waited: bool,
}

/// The channels of a run, and where its goroutines were started. What is noted of a goroutine is dropped when it ends, so the notes
/// of a long run stay small.
#[derive(Drop)]
pub struct Notes {
    /// Channel n, at index n - 1.
    channels: Vec<Channel>,
    /// In the order of their numbers.
    started: Vec<Started>,
    /// Those that may not have had a turn since.
    woken: Vec<Woken>,
    misuse: Option<Misuse>,
}

/// A send or a receive that was done on a channel.
#[derive(Clone, Copy)]
struct Transfer {
    channel: u32,
    /// Whether the goroutine of the event sent.
    sends: bool,
}

impl Notes {
    /// Nothing.
    pub fn new(alloc: Global) -> Notes {
        Notes {
            channels: Vec::new(alloc),
            started: Vec::new(alloc),
            woken: Vec::new(alloc),
            misuse: None,
        }
    }

    /// Where a channel was made.
    pub(crate) fn made(&self, channel: u32) -> Option<Call> {
        self.channel(channel)?.made
    }

    /// Where a goroutine was started.
    pub(crate) fn started(&self, number: u64) -> Option<Call> {
        let index = self.index_of(number)?;
        self.started.get(index)?.site
    }

    /// The numbers of the goroutines that have not ended, if `main` has not, in their order.
    ///
    /// Errors: out of memory.
    pub fn numbers(&self, alloc: Global) -> Result<Vec<u64>, Memory> {
        let mut numbers = Vec::new(alloc);
        numbers.push(1)?;
        for one in self.started.iter() {
            numbers.push(one.number)?;
        }
        Ok(numbers)
    }

    /// The goroutine that received from a channel last.
    pub(crate) fn receiver(&self, channel: u32) -> Option<u64> {
        let channel = self.channel(channel)?;
        numbered(channel.received)
    }

    /// The goroutine that sent to a channel last, if the channel has a buffer.
    pub(crate) fn sender(&self, channel: u32) -> Option<u64> {
        let channel = self.channel(channel)?;
        if !channel.is_buffered {
            return None;
        }
        numbered(channel.sent)
    }

    /// The goroutine that closed a channel.
    pub(crate) fn closer(&self, channel: u32) -> Option<Closer> {
        self.channel(channel)?.closer
    }

    /// Whether a channel was sent to a goroutine.
    pub(crate) fn is_sent(&self, channel: u32) -> bool {
        match self.channel(channel) {
            Some(channel) => channel.is_sent,
            None => false,
        }
    }

    /// Why the run has panicked, if a goroutine sent to a closed channel, or closed it.
    pub(crate) fn misuse(&self) -> Option<Misuse> {
        self.misuse
    }

    /// Whether `take` keeps where an event was.
    pub fn keeps_site(event: &Event) -> bool {
        matches!(
            (&event.request, &event.outcome),
            (
                Request::Make(_, _) | Request::Go(_, _) | Request::Close(_),
                EventOutcome::Done(_)
            )
        )
    }

    /// Notes the next event of the run. `site` is where it was, if `keeps_site`.
    ///
    /// Errors: out of memory.
    pub fn take(&mut self, event: &Event, site: Option<Call>) -> Result<(), Memory> {
        match (&event.request, &event.outcome) {
            (Request::Make(size, _), EventOutcome::Done(_)) => self.make(*size, site),
            (Request::Go(_, _), EventOutcome::Done(_)) => self.start(event, site),
            (Request::Close(channel), EventOutcome::Done(_)) => self.close(*channel, event, site),
            (Request::End, _) => {
                self.end(event.number);
                Ok(())
            }
            (request, EventOutcome::Done(reply)) => {
                self.transfer(request, reply, event);
                Ok(())
            }
            (request, EventOutcome::Panics(panic, clause)) => {
                self.misuse = self.misuse_of(request, *panic, *clause, event.number);
                Ok(())
            }
            (_, EventOutcome::Sleeps) => Ok(()),
        }
    }

    /// A channel.
    fn channel(&self, number: u32) -> Option<&Channel> {
        self.channels.get((number as usize).checked_sub(1)?)
    }

    /// The index of a goroutine among those that were started and have not ended.
    fn index_of(&self, number: u64) -> Option<usize> {
        self.started
            .binary_search_by_key(&number, |one| one.number)
            .ok()
    }

    /// A channel of this size was made.
    fn make(&mut self, size: i64, site: Option<Call>) -> Result<(), Memory> {
        self.channels.push(Channel {
            made: site,
            is_buffered: size > 0,
            is_sent: false,
            received: 0,
            sent: 0,
            closer: None,
        })?;
        Ok(())
    }

    /// A goroutine was started.
    fn start(&mut self, event: &Event, site: Option<Call>) -> Result<(), Memory> {
        if let Some(number) = event.partners.first() {
            self.started.push(Started {
                number: *number,
                site,
            })?;
        }
        Ok(())
    }

    /// A channel was closed, which woke the partners of the event.
    fn close(
        &mut self,
        channel: Option<u32>,
        event: &Event,
        site: Option<Call>,
    ) -> Result<(), Memory> {
        let Some(channel) = channel else {
            return Ok(());
        };
        if let Some(closed) = self.channel_mut(channel) {
            closed.closer = Some(Closer {
                number: event.number,
                call: site,
            });
        }
        self.wake(channel, event)
    }

    /// A close of a channel woke the partners of the event. Those that were woken more than a tick before have had their turn.
    fn wake(&mut self, channel: u32, event: &Event) -> Result<(), Memory> {
        let clock = event.clock.time();
        if let Some(last) = self.woken.last() {
            if last.clock.saturating_add(1) < clock {
                self.woken.clear();
            }
        }
        for number in event.partners.iter() {
            self.woken.push(Woken {
                number: *number,
                channel,
                clock,
            })?;
        }
        Ok(())
    }

    /// A goroutine has ended.
    fn end(&mut self, number: u64) {
        if let Some(index) = self.index_of(number) {
            if index < self.started.len() {
                let _ended = self.started.remove(index);
            }
        }
    }

    /// A channel, to be changed.
    fn channel_mut(&mut self, number: u32) -> Option<&mut Channel> {
        self.channels.get_mut((number as usize).checked_sub(1)?)
    }

    /// A request was done: if an item went through a channel, one goroutine acted, and the other one, if any, had waited for it.
    fn transfer(&mut self, request: &Request, reply: &Reply, event: &Event) {
        let Some(transfer) = transfer_of(request, reply) else {
            return;
        };
        let partner = event.partners.first().copied();
        if let Some(channel) = self.channel_mut(transfer.channel) {
            if transfer.sends {
                channel.sent = event.number;
                channel.received = partner.unwrap_or(channel.received);
            } else {
                channel.received = event.number;
                channel.sent = partner.unwrap_or(channel.sent);
            }
        }
        if let Some(item) = item_of(request, reply) {
            self.send_all(item.words());
        }
    }

    /// These words were sent.
    fn send_all(&mut self, words: &[Word]) {
        for word in words {
            if let Word::Chan(Some(number)) = word {
                if let Some(channel) = self.channel_mut(*number) {
                    channel.is_sent = true;
                }
            }
        }
    }

    /// The misuse of a channel that a request is which panics so in this clause.
    fn misuse_of(
        &self,
        request: &Request,
        panic: Panic,
        clause: usize,
        number: u64,
    ) -> Option<Misuse> {
        if !matches!(panic, Panic::SendOnClosed | Panic::CloseOfClosed) {
            return None;
        }
        match request {
            Request::Send(channel, _) | Request::Close(channel) => misuse_in(*channel, clause),
            Request::Select(cases, _) => {
                let case = cases.get(clause.checked_sub(1)?)?;
                misuse_in(case.chan, clause)
            }
            Request::Panic(_) => {
                let woken = self.woken.iter().rfind(|woken| woken.number == number)?;
                Some(Misuse {
                    channel: woken.channel,
                    clause: 0,
                    waited: true,
                })
            }
            _ => None,
        }
    }
}

/// The misuse of a channel in a clause by a goroutine that did not wait.
fn misuse_in(channel: Option<u32>, clause: usize) -> Option<Misuse> {
    Some(Misuse {
        channel: channel?,
        clause,
        waited: false,
    })
}

/// A number that is not 0.
fn numbered(number: u64) -> Option<u64> {
    if number == 0 { None } else { Some(number) }
}

/// The send or receive that a request did.
fn transfer_of(request: &Request, reply: &Reply) -> Option<Transfer> {
    match (request, reply) {
        (Request::Send(channel, _), _) => Some(Transfer {
            channel: (*channel)?,
            sends: true,
        }),
        (Request::Receive(channel), _) => Some(Transfer {
            channel: (*channel)?,
            sends: false,
        }),
        (Request::Select(cases, _), Reply::Clause(number, _)) => {
            let case = cases.get(number.checked_sub(1)?)?;
            Some(Transfer {
                channel: case.chan?,
                sends: case.item.is_some(),
            })
        }
        _ => None,
    }
}

/// The item that a request sent or received.
fn item_of<'r>(request: &'r Request, reply: &'r Reply) -> Option<&'r Item> {
    match (request, reply) {
        (Request::Send(_, item), _) => Some(item),
        (_, Reply::Received(item, _) | Reply::Clause(_, Some((item, _)))) => Some(item),
        (Request::Select(cases, _), Reply::Clause(number, None)) => {
            let case: &Case = cases.get(number.checked_sub(1)?)?;
            case.item.as_ref()
        }
        _ => None,
    }
}
