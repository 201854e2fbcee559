//! What an event moves from one goroutine to another.

use crate::recording::Site;
use go_text::Memory;
use std::alloc::Global;
use std::collections::VecDeque;
use word::request::{Case, Event, EventOutcome, Reply, Request};
use word::value::Item;

/// What an event moves. A channel is named by its number, counted from 1.
#[derive(Clone, Copy)]
pub(crate) enum Move {
    /// Nothing.
    Nothing,
    /// There is one more channel.
    Channel,
    /// A goroutine was started, which runs the function of this number.
    Start(u32),
    /// A channel was closed.
    Close,
    /// An item went into this channel.
    Send(Option<u32>),
    /// An item came out of this channel.
    Receive(Option<u32>),
}

/// What an event moves.
pub(crate) fn move_of(event: &Event) -> Move {
    match &event.outcome {
        EventOutcome::Done(reply) => done(&event.request, reply),
        _ => Move::Nothing,
    }
}

/// What a request that was done with this reply moves.
fn done(request: &Request, reply: &Reply) -> Move {
    match request {
        Request::Make(..) => Move::Channel,
        Request::Go(function, _) => Move::Start(*function),
        Request::Close(_) => Move::Close,
        Request::Send(channel, _) => Move::Send(*channel),
        Request::Receive(channel) => received(*channel, reply),
        Request::Select(cases, _) => selected(cases.as_slice(), reply),
        _ => Move::Nothing,
    }
}

/// What a receive moves: nothing if the channel is closed and empty.
fn received(channel: Option<u32>, reply: &Reply) -> Move {
    match reply {
        Reply::Received(_, true) => Move::Receive(channel),
        _ => Move::Nothing,
    }
}

/// What a select moves: an item of the channel of the clause that it did, whose number counts from 1.
fn selected(cases: &[Case], reply: &Reply) -> Move {
    match reply {
        Reply::Clause(number, None) => Move::Send(channel_of(cases, *number)),
        Reply::Clause(number, Some((_, true))) => Move::Receive(channel_of(cases, *number)),
        _ => Move::Nothing,
    }
}

/// The channel of the clause of this number, counted from 1.
pub(crate) fn channel_of(cases: &[Case], number: usize) -> Option<u32> {
    match cases.get(number.saturating_sub(1)) {
        Some(case) => case.chan,
        None => None,
    }
}

/// An item that a goroutine sends to a channel, or receives from it.
#[derive(Clone, Copy)]
pub struct Transfer<'a> {
    /// The channel by its number, counted from 1; `None` is `nil`.
    pub channel: Option<u32>,
    pub item: &'a Item,
    /// Whether it sends; else it receives.
    pub sends: bool,
}

/// The item that an event sends or receives, or would send. A channel that is closed and empty gives none.
pub fn transfer_of(event: &Event) -> Option<Transfer<'_>> {
    match (&event.request, &event.outcome) {
        (Request::Send(channel, item), _) => Some(Transfer {
            channel: *channel,
            item,
            sends: true,
        }),
        (Request::Receive(channel), EventOutcome::Done(Reply::Received(item, true))) => {
            Some(Transfer {
                channel: *channel,
                item,
                sends: false,
            })
        }
        (Request::Select(cases, _), EventOutcome::Done(Reply::Clause(number, received))) => {
            clause_transfer(cases.as_slice(), *number, received.as_ref())
        }
        _ => None,
    }
}

/// The item that a select sends or receives in the clause of this number, counted from 1.
fn clause_transfer<'a>(
    cases: &'a [Case],
    number: usize,
    received: Option<&'a (Item, bool)>,
) -> Option<Transfer<'a>> {
    let case = cases.get(number.checked_sub(1)?)?;
    let (item, sends) = match received {
        Some((item, true)) => (item, false),
        Some((_, false)) => return None,
        None => (case.item.as_ref()?, true),
    };
    Some(Transfer {
        channel: case.chan,
        item,
        sends,
    })
}

/// An item on its way: the goroutine that sent it, and the clock there.
#[derive(Clone, Copy)]
pub(crate) struct Sent {
    pub by: u64,
    pub at: u64,
}

/// The instructions at which a channel was made, and at which it was used first, if they are known.
#[derive(Clone, Copy)]
pub(crate) struct ChannelSites {
    pub made: Option<Site>,
    pub used: Option<Site>,
}

/// The items on their way, of each channel the first one sent first: they come out in that order.
#[derive(Drop)]
pub(crate) struct Items {
    alloc: Global,
    channels: Vec<VecDeque<Sent>>,
    /// Channel n, at index n - 1.
    sites: Vec<ChannelSites>,
}

impl Items {
    /// No channel is there yet.
    pub(crate) fn new(alloc: Global) -> Items {
        Items {
            alloc,
            channels: Vec::new(alloc),
            sites: Vec::new(alloc),
        }
    }

    /// A copy of the items, for a picture that begins at `clock`.
    pub(crate) fn copied(&self, clock: u64) -> Result<Items, Memory> {
        let mut copy = Items::new(self.alloc);
        for items in self.channels.iter() {
            copy.channels.push(moved(self.alloc, items, clock)?)?;
        }
        for sites in self.sites.iter() {
            copy.sites.push(*sites)?;
        }
        Ok(copy)
    }

    /// There is one more channel, with nothing in it, that this instruction made.
    pub(crate) fn add_channel(&mut self, made: Option<Site>) -> Result<(), Memory> {
        self.channels.push(VecDeque::new(self.alloc))?;
        self.sites.push(ChannelSites { made, used: None })?;
        Ok(())
    }

    /// Where the channels were made and used first: channel n at index n - 1.
    pub(crate) fn sites(&self) -> &[ChannelSites] {
        self.sites.as_slice()
    }

    /// This instruction makes a request to a channel.
    pub(crate) fn note_use(&mut self, request: &Request, site: Option<Site>) {
        let channel = match request {
            Request::Send(channel, _) | Request::Receive(channel) | Request::Close(channel) => {
                *channel
            }
            _ => None,
        };
        if let Some(sites) = self.sites.get_mut(index_of(channel)) {
            if sites.used.is_none() {
                sites.used = site;
            }
        }
    }

    /// An item goes into a channel.
    pub(crate) fn put(&mut self, channel: Option<u32>, sent: Sent) -> Result<(), Memory> {
        if let Some(items) = self.channels.get_mut(index_of(channel)) {
            items.push_back(sent)?;
        }
        Ok(())
    }

    /// The item that comes out of a channel, if there is one.
    pub(crate) fn take(&mut self, channel: Option<u32>) -> Option<Sent> {
        match self.channels.get_mut(index_of(channel)) {
            Some(items) => items.pop_front(),
            None => None,
        }
    }
}

/// The items of a channel, none sent before this clock.
fn moved(alloc: Global, items: &VecDeque<Sent>, clock: u64) -> Result<VecDeque<Sent>, Memory> {
    let mut copy = VecDeque::new(alloc);
    for sent in items.iter() {
        copy.push_back(Sent {
            by: sent.by,
            at: sent.at.max(clock),
        })?;
    }
    Ok(copy)
}

/// The index of a channel in the list of all; of `nil` one after them.
fn index_of(channel: Option<u32>) -> usize {
    match channel {
        Some(number) => (number as usize).saturating_sub(1),
        None => usize::MAX,
    }
}
