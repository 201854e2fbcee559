//! Channels: channel c at index c of a list, in which index 0 is no channel's.

ghost use Rattle.std.specs.Prelude.{◌≡◌, ◌++◌, ◌∷◌, [], true, IfNone, IfOk, IfSome, OnOk, slice_set};
ghost use Rattle.word.specs.Requests.{channel_of};
ghost use Rattle.reference_world.specs.Deeds.{exchanged, rest_of};

use go_text::Memory;
use std::collections::VecDeque;
use std::marker::Model;
use word::value::Item;

/// A channel: how many items its buffer holds at most, what is in it, whether it is closed, and the zero item.
#[derive(Drop)]
pub struct Channel {
    pub capacity: u32,
    pub items: VecDeque<Item>,
    pub closed: bool,
    pub zero: Item,
}

impl Model for Channel {
    ghost use Rattle.word.specs.Values.{Channel as AnyChannel};

    ghost Value = { AnyChannel };

    ghost view = { λ c. record { capacity = c.capacity; items = c.items.items; closed = c.closed; zero = c.zero } };
}

/// Closes a channel.
pub(crate) fn close(channels: &mut [Channel], chan: u32)
    ensures { channels.new ≡ slice_set channels.old chan (record (channel_of channels.old chan) { closed = true }) }
{
    if (chan as usize) < channels.len() {
        let channel = &mut channels[chan as usize];
        channel.closed = true;
    }
}

/// Puts an item at the back of a channel's buffer.
pub(crate) fn push(channels: &mut [Channel], chan: u32, item: Item) -> Result<(), Memory>
    ensures { OnOk result (channels.new ≡ slice_set channels.old chan (record (channel_of channels.old chan) { items = (channel_of channels.old chan).items ++ item ∷ [] })) }
{
    if (chan as usize) < channels.len() {
        let channel = &mut channels[chan as usize];
        channel.items.push_back(item)?;
    }
    Ok(())
}

/// Takes the item at the front of a channel's buffer.
pub(crate) fn pop(channels: &mut [Channel], chan: u32) -> Option<Item>
    ensures some { IfSome result (λ item. (channel_of channels.old chan).items ≡ item ∷ rest_of channels.old chan) }
    ensures none { IfNone result ((channel_of channels.old chan).items ≡ []) }
    ensures rest { channels.new ≡ slice_set channels.old chan (record (channel_of channels.old chan) { items = rest_of channels.old chan }) }
{
    if (chan as usize) < channels.len() {
        let channel = &mut channels[chan as usize];
        return channel.items.pop_front();
    }
    None
}

/// Puts an item at the back of a channel's buffer, and takes the one at its front, which is the same one if the buffer
/// is empty.
pub(crate) fn exchange(channels: &mut [Channel], chan: u32, item: Item) -> Result<Item, Memory>
    ensures front { IfOk result (λ front. (channel_of channels.old chan).items ++ item ∷ [] ≡ front ∷ exchanged channels.old chan item) }
    ensures rest { OnOk result (channels.new ≡ slice_set channels.old chan (record (channel_of channels.old chan) { items = exchanged channels.old chan item })) }
{
    if (chan as usize) < channels.len() {
        let channel = &mut channels[chan as usize];
        if let Some(front) = channel.items.pop_front() {
            channel.items.push_back(item)?;
            return Ok(front);
        }
    }
    Ok(item)
}
