//! Channels in lines.

use crate::rows::Row;
use crate::values::{push_channel, push_item};
use diagnostic_words::words::Words;
use go_text::Memory;
use reference_scope::scope::Scope;
use reference_value::given::Given;
use reference_world::{Channel, Sleeper};
use std::alloc::Global;
use word::request::{Case, Reply, Request};
use word::value::{Item, Word};

/// The most items of one channel that are shown.
const MOST_ITEMS: usize = 20;

/// Which channels are in use: that of number n at index n.
#[derive(Drop)]
pub(crate) struct Uses {
    marks: Vec<bool>,
}

impl Uses {
    /// The channels that a variable or an item holds, at which a goroutine sleeps, or whose buffer has items.
    ///
    /// Errors: out of memory.
    pub(crate) fn new(
        alloc: Global,
        channels: &[Channel],
        sleepers: &[Sleeper],
        rows: &[Row<'_, '_>],
    ) -> Result<Uses, Memory> {
        let mut uses = Uses {
            marks: Vec::new(alloc),
        };
        for _ in channels {
            uses.marks.push(false)?;
        }
        for (index, channel) in channels.iter().enumerate() {
            uses.mark_items(index, channel);
        }
        for sleeper in sleepers {
            uses.mark_request(&sleeper.request);
        }
        for row in rows {
            uses.mark_goroutine(row);
        }
        Ok(uses)
    }

    /// Marks the channel at an index.
    fn mark(&mut self, index: usize) {
        if let Some(mark) = self.marks.get_mut(index) {
            *mark = true;
        }
    }

    /// Marks the channels among these words.
    fn mark_words(&mut self, words: &[Word]) {
        for word in words {
            if let Word::Chan(Some(number)) = word {
                self.mark(*number as usize);
            }
        }
    }

    /// Marks the channel at an index if its buffer has items, and the channels among them.
    fn mark_items(&mut self, index: usize, channel: &Channel) {
        for item in channel.items.iter() {
            self.mark(index);
            self.mark_words(item.words());
        }
    }

    /// Marks a channel, and the channels that are sent to it.
    fn mark_offer(&mut self, channel: Option<u32>, item: Option<&Item>) {
        if let Some(number) = channel {
            self.mark(number as usize);
        }
        if let Some(item) = item {
            self.mark_words(item.words());
        }
    }

    /// Marks the channels of a request at which a goroutine sleeps.
    fn mark_request(&mut self, request: &Request) {
        match request {
            Request::Send(channel, item) => self.mark_offer(*channel, Some(item)),
            Request::Receive(channel) => self.mark_offer(*channel, None),
            Request::Select(cases, _) => {
                for case in cases.iter() {
                    self.mark_offer(case.chan, case.item.as_ref());
                }
            }
            _ => {}
        }
    }

    /// Marks the channels that a goroutine holds.
    fn mark_goroutine(&mut self, row: &Row<'_, '_>) {
        for frame in row.placed.frames.iter() {
            self.mark_scope(&frame.position.scope);
            for given in frame.given.iter() {
                self.mark_given(given);
            }
        }
    }

    /// Marks the channels that variables hold.
    fn mark_scope(&mut self, scope: &Scope<'_>) {
        for block in scope.blocks.iter() {
            for variable in block.variables.iter() {
                self.mark_words(variable.words.as_slice());
            }
        }
    }

    /// Marks the channels that a request or a call gave.
    fn mark_given(&mut self, given: &Given) {
        match given {
            Given::Yielded(words) => self.mark_words(words.as_slice()),
            Given::Told(Reply::Word(word)) => self.mark_words(&[*word]),
            Given::Told(Reply::Received(item, _) | Reply::Clause(_, Some((item, _)))) => {
                self.mark_words(item.words());
            }
            Given::Told(_) => {}
        }
    }

    /// Appends the channels that are in use, in the order of their numbers.
    pub(crate) fn push(&self, said: &mut Words, channels: &[Channel], sleepers: &[Sleeper]) {
        for (index, (channel, is_used)) in channels.iter().zip(self.marks.iter()).enumerate() {
            if *is_used {
                let number = u32::try_from(index).unwrap_or(u32::MAX);
                push_one(said, number, channel, sleepers);
            }
        }
    }
}

/// Appends `channel N: `, its capacity, what its buffer holds, and the goroutines that sleep there.
fn push_one(said: &mut Words, number: u32, channel: &Channel, sleepers: &[Sleeper]) {
    push_channel(said, number);
    if channel.capacity == 0 {
        said.text(": unbuffered");
    } else {
        said.text(": capacity ");
        said.number(i128::from(channel.capacity));
        push_buffer(said, channel);
    }
    if channel.closed {
        said.text("; closed");
    }
    push_sleepers(said, "; to send:", sleepers, number, true);
    push_sleepers(said, "; to receive:", sleepers, number, false);
    said.text("\n");
}

/// Appends what a channel's buffer holds.
fn push_buffer(said: &mut Words, channel: &Channel) {
    if channel.items.is_empty() {
        said.text("; empty");
        return;
    }
    said.text("; holds");
    for item in channel.items.iter().take(MOST_ITEMS) {
        said.text(" ");
        push_item(said, item.words());
    }
    let left = channel.items.len().saturating_sub(MOST_ITEMS);
    if left > 0 {
        said.text(" and ");
        said.number(left as i128);
        said.text(" more");
    }
}

/// Appends the numbers of the goroutines that sleep to send to a channel, or to receive from it, in the order in which they fell asleep,
/// if there are any.
fn push_sleepers(said: &mut Words, title: &str, sleepers: &[Sleeper], number: u32, sends: bool) {
    let mut is_first = true;
    for sleeper in sleepers {
        if offers(&sleeper.request, number, sends) {
            if is_first {
                said.text(title);
                is_first = false;
            }
            said.text(" ");
            said.number(i128::from(sleeper.number));
        }
    }
}

/// Whether one that sleeps at a request may send to a channel, or receive from it.
fn offers(request: &Request, number: u32, sends: bool) -> bool {
    match request {
        Request::Send(channel, _) => sends && *channel == Some(number),
        Request::Receive(channel) => !sends && *channel == Some(number),
        Request::Select(cases, _) => cases.iter().any(|case| is_on(case, number, sends)),
        _ => false,
    }
}

/// Whether a clause sends to a channel, or receives from it.
fn is_on(case: &Case, number: u32, sends: bool) -> bool {
    case.chan == Some(number) && case.item.is_some() == sends
}
