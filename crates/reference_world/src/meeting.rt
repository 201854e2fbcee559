//! Where goroutines meet: the channels, and the goroutines that sleep at them.

ghost use Rattle.std.specs.Prelude.{◌≡◌, ℕ, ◌+◌, ◌<◌, ◌∷◌, [], ◌++◌, IfOk, IfSome, None, OnOk, nat_lt, option_map, pos, suc, length, unwrap_or};
ghost use Rattle.std.specs.List.{slice_get};
ghost use Rattle.word.specs.Requests.{act, channel_of, choose, do_make, do_receive, do_send, is_ready, no_channel, partner, ready_clauses, receive_from, receive_ready, send_ready, without};
ghost use Rattle.word.specs.Values.{Close, Receive, Request as AnyRequest, Select, Send};
ghost use Rattle.word.specs.Views.{reply_of, request_of};
ghost use Rattle.reference_world.specs.Deeds.{Does, DoesAt, History, IsServed, SharedValue, capacity_of, clause_at, length_of, met, shared_with};

use crate::channel::{self, Channel};
use crate::deed::{Deed, Woken};
use crate::reply::{got, sent};
use crate::sleeper::{Partner, Sleeper, copy_of, find_partner, leave, leave_all, woken_by_close};
use go_text::Memory;
use logical_clock::{Clock, Key};
use std::alloc::Global;
use std::collections::VecDeque;
use std::marker::Model;
use word::limits::{MAX_CAPACITY, MAX_CHANNELS};
use word::panic::Panic;
use word::request::{Case, Reply, Request};
use word::value::{Item, Word};

/// The channels, and the goroutines that sleep at them.
#[derive(Drop)]
pub(crate) struct Meeting {
    alloc: Global,
    /// In the order in which they fell asleep.
    asleep: Vec<Sleeper>,
    /// Channel c is at index c; index 0 is no channel's.
    channels: Vec<Channel>,
}

impl Model for Meeting {
    ghost use Rattle.reference_world.specs.Deeds.{MeetingValue};
    ghost use Rattle.std.specs.Prelude.{◌≤◌, ◌+◌, length};
    ghost use Rattle.word.specs.declared.limits.TheConstants.{MAX_CHANNELS};

    ghost Value = { MeetingValue };

    ghost view = { λ m. record { asleep = m.asleep.items; channels = m.channels.items } };

    ghost invariant = { λ m. length m.channels.items ≤ MAX_CHANNELS + 1 };
}

impl Meeting {
    /// No channels, and nobody asleep.
    pub(crate) fn new(alloc: Global) -> Result<Meeting, Memory>
        ensures { IfOk result (λ meeting. meeting ≡ record { asleep = []; channels = no_channel ∷ [] }) }
    {
        let mut channels = Vec::new(alloc);
        channels.push(Channel {
            capacity: 0,
            items: VecDeque::new(alloc),
            closed: false,
            zero: Item::new(alloc, [].as_slice()),
        })?;
        Ok(Meeting {
            alloc,
            asleep: Vec::new(alloc),
            channels,
        })
    }

    /// The goroutines that are asleep, in the order in which they fell asleep.
    pub(crate) fn sleepers(&self) -> &[Sleeper]
        ensures { result.now ≡ self.now.asleep }
    {
        self.asleep.as_slice()
    }

    /// The channels: channel c is at index c, and index 0 is no channel's.
    pub(crate) fn all_channels(&self) -> &[Channel]
        ensures { result.now ≡ self.now.channels }
    {
        self.channels.as_slice()
    }

    /// A new channel (Go: Making slices, maps and channels). It panics if the size is negative or over 65,536, and
    /// if 65,536 channels were made.
    pub(crate) fn make(&mut self, size: i64, zero: Item) -> Result<Deed, Memory>
        ensures { IfOk result (λ deed. (n : ℕ) (q : AnyRequest) → Does (λ w c. do_make w n c q size zero) self.old n q deed self.new) }
    {
        if size < 0 || size > MAX_CAPACITY as i64 {
            return Ok(Deed::Panics(Panic::ChannelSize, 0));
        }
        let place = self.channels.len();
        if place == MAX_CHANNELS + 1 {
            return Ok(Deed::Panics(Panic::TooManyChannels, 0));
        }
        self.channels.push(Channel {
            capacity: size as u32,
            items: VecDeque::new(self.alloc),
            closed: false,
            zero,
        })?;
        Ok(Deed::Done(
            Reply::Word(Word::Chan(Some(place as u32))),
            Vec::new(self.alloc),
        ))
    }

    /// A send by goroutine `number` (Go: Send statements). One that is not ready sleeps, and one on `nil` for good.
    #[tactic(auto, using(crate::proofs::Requests::send_done, crate::proofs::Requests::send_sleeps))]
    pub(crate) fn send(
        &mut self,
        number: u64,
        chan: Option<u32>,
        item: Item,
    ) -> Result<Deed, Memory>
        ensures { IfOk result (λ deed. Does (λ w c. act w number c (Send chan item) (Send chan item)) self.old number (Send chan item) deed self.new) }
    {
        let Some(chan) = chan else {
            return self.sleep(number, Request::Send(None, item));
        };
        if !self.send_ready(chan) {
            return self.sleep(number, Request::Send(Some(chan), item));
        }
        self.do_send(chan, item, 0)
    }

    /// A receive by goroutine `number` (Go: Receive operator). One that is not ready sleeps, and one on `nil` for good.
    #[tactic(auto, using(crate::proofs::Requests::receive_done, crate::proofs::Requests::receive_sleeps))]
    pub(crate) fn receive(&mut self, number: u64, chan: Option<u32>) -> Result<Deed, Memory>
        ensures { IfOk result (λ deed. Does (λ w c. act w number c (Receive chan) (Receive chan)) self.old number (Receive chan) deed self.new) }
    {
        let Some(chan) = chan else {
            return self.sleep(number, Request::Receive(None));
        };
        if !self.receive_ready(chan) {
            return self.sleep(number, Request::Receive(Some(chan)));
        }
        self.do_receive(chan, 0)
    }

    /// A close (Go: Close): it panics on `nil` and on a closed channel. It wakes all goroutines that sleep with an offer on
    /// the channel: a receiver gets the zero item, and a sender panics next.
    pub(crate) fn close(&mut self, chan: Option<u32>) -> Result<Deed, Memory>
        ensures { IfOk result (λ deed. (n : ℕ) (q : AnyRequest) → Does (λ w c. act w n c q (Close chan)) self.old n q deed self.new) }
    {
        let Some(chan) = chan else {
            return Ok(Deed::Panics(Panic::CloseOfNil, 0));
        };
        if self.is_closed(chan) {
            return Ok(Deed::Panics(Panic::CloseOfClosed, 0));
        }
        let zero = self.zero(chan);
        let woken = woken_by_close(self.alloc, self.asleep.as_slice(), chan, &zero)?;
        leave_all(&mut self.asleep, woken.as_slice());
        channel::close(self.channels.as_mut_slice(), chan);
        Ok(Deed::Done(Reply::Nothing, woken))
    }

    /// A select by the goroutine of this number, at this clock (Go: Select statements): of the ready clauses one is done, else the
    /// default, else the goroutine sleeps with all its clauses.
    pub(crate) fn select(
        &mut self,
        actor: Key,
        cases: Vec<Case>,
        default: bool,
    ) -> Result<Deed, Memory>
        ensures { IfOk result (λ deed. DoesAt (λ w. act w actor.number actor.clock (Select cases.items default) (Select cases.items default)) self.old actor.number actor.clock (Select cases.items default) deed self.new) }
    {
        let Some(place) = self.choose(cases.as_slice(), actor.clock) else {
            if default {
                return Ok(Deed::Done(Reply::Default, Vec::new(self.alloc)));
            }
            return self.sleep(actor.number, Request::Select(cases, default));
        };
        let Some(chan) = cases[place].chan else {
            return self.sleep(actor.number, Request::Select(cases, default));
        };
        match copy_of(&cases[place].item) {
            Some(item) => self.do_send(chan, item, place + 1),
            None => self.do_receive(chan, place + 1),
        }
    }

    /// How many items are in a channel's buffer; 0 for `nil` (Go: Length and capacity).
    pub(crate) fn len(&self, chan: Option<u32>) -> i64
        ensures { result ≡ pos (length_of self.now.channels chan) }
    {
        let Some(chan) = chan else {
            return 0;
        };
        match self.channels.get(chan as usize) {
            Some(channel) => channel.items.len() as i64,
            None => 0,
        }
    }

    /// How many items a channel's buffer holds at most; 0 for `nil` (Go: Length and capacity).
    pub(crate) fn capacity(&self, chan: Option<u32>) -> i64
        ensures { result ≡ pos (capacity_of self.now.channels chan) }
    {
        let Some(chan) = chan else {
            return 0;
        };
        match self.channels.get(chan as usize) {
            Some(channel) => i64::from(channel.capacity),
            None => 0,
        }
    }

    /// A send that is ready, in the clause of this number: to the first sleeper that receives, else into the buffer. On a
    /// closed channel it panics.
    fn do_send(&mut self, chan: u32, item: Item, clause: usize) -> Result<Deed, Memory>
        ensures { IfOk result (λ deed. (n : ℕ) (q : AnyRequest) → Does (λ w c. do_send w n c q chan item clause) self.old n q deed self.new) }
    {
        if self.is_closed(chan) {
            return Ok(Deed::Panics(Panic::SendOnClosed, clause));
        }
        match self.partner(chan, false) {
            Some(partner) => {
                let told = got(partner.offer.case, item, true);
                let woken = one_woken(self.alloc, partner.number, told)?;
                leave(&mut self.asleep, partner.number);
                Ok(Deed::Done(sent(clause), woken))
            }
            None => {
                channel::push(self.channels.as_mut_slice(), chan, item)?;
                Ok(Deed::Done(sent(clause), Vec::new(self.alloc)))
            }
        }
    }

    /// A receive that is ready, in the clause of this number.
    fn do_receive(&mut self, chan: u32, clause: usize) -> Result<Deed, Memory>
        ensures { IfOk result (λ deed. (n : ℕ) (q : AnyRequest) → Does (λ w c. do_receive w n c q chan clause) self.old n q deed self.new) }
    {
        match self.partner(chan, true) {
            Some(partner) => self.receive_from(chan, clause, partner),
            None => Ok(self.receive_alone(chan, clause)),
        }
    }

    /// A receive when a sender sleeps: of the buffer's front item, after which the sender's item enters at the
    /// buffer's back, or of the sender's item if the buffer is empty.
    fn receive_from(&mut self, chan: u32, clause: usize, partner: Partner) -> Result<Deed, Memory>
        ensures { IfOk result (λ deed. IsServed self.old chan clause partner deed self.new) }
    {
        let Partner { number, offer } = partner;
        let case = offer.case;
        let offered = item_or_empty(self.alloc, offer.item);
        let woken = one_woken(self.alloc, number, sent(case))?;
        let item = channel::exchange(self.channels.as_mut_slice(), chan, offered)?;
        leave(&mut self.asleep, number);
        Ok(Deed::Done(got(clause, item, true), woken))
    }

    /// A receive when no sender sleeps: of the buffer's front item, or of the zero item if the buffer is empty.
    fn receive_alone(&mut self, chan: u32, clause: usize) -> Deed
        ensures { (n : ℕ) (q : AnyRequest) → Does (λ w c. receive_from w n c q chan (channel_of w.channels chan) clause (channel_of w.channels chan).items None) self.old n q result self.new }
    {
        let reply = match channel::pop(self.channels.as_mut_slice(), chan) {
            Some(item) => got(clause, item, true),
            None => got(clause, self.zero(chan), false),
        };
        Deed::Done(reply, Vec::new(self.alloc))
    }

    /// Goroutine `number` falls asleep at `request`, after all others.
    fn sleep(&mut self, number: u64, request: Request) -> Result<Deed, Memory>
        ensures sleeps { IfOk result (λ deed. deed ≡ Deed.Sleeps) }
        ensures asleep { OnOk result (self.new ≡ record self.old { asleep = without self.old.asleep number ++ record { number = number; request = request_of request } ∷ [] }) }
    {
        leave(&mut self.asleep, number);
        self.asleep.push(Sleeper { number, request })?;
        Ok(Deed::Sleeps)
    }

    /// The index of the clause that a select at this clock does; none if no clause is ready. Of k ready clauses,
    /// in source order, it is the one of index clock mod k.
    fn choose(&self, cases: &[Case], clock: Clock) -> Option<usize>
        ensures within { IfSome result (λ i. i < length cases.now) }
        ensures chosen { (h : History) (v : SharedValue) (n : ℕ) (q : AnyRequest) → choose (shared_with h v self.now) n clock q cases.now ≡ option_map (λ i. (suc i, clause_at cases.now i)) result }
    {
        let count = self.ready_count(cases);
        if count == 0 {
            return None;
        }
        let turn = clock.time() % count as u64;
        self.nth_ready(cases, turn as usize)
    }

    /// How many clauses are ready.
    fn ready_count(&self, cases: &[Case]) -> usize
        ensures { (h : History) (v : SharedValue) (n c : ℕ) (q : AnyRequest) → length (ready_clauses (shared_with h v self.now) n c q 1 cases.now) ≡ result }
    {
        let mut count = 0;
        for case in cases {
            if self.is_ready(case) {
                count += 1;
            }
        }
        count
    }

    /// The index of the ready clause that `turn` ready ones precede.
    fn nth_ready(&self, cases: &[Case], turn: usize) -> Option<usize>
        ensures within { IfSome result (λ i. i < length cases.now) }
        ensures nth { (h : History) (v : SharedValue) (n c : ℕ) (q : AnyRequest) → slice_get (ready_clauses (shared_with h v self.now) n c q 1 cases.now) turn ≡ option_map (λ i. (suc i, clause_at cases.now i)) result }
    {
        let mut left = turn;
        for (i, case) in cases.iter().enumerate() {
            if self.is_ready(case) {
                if left == 0 {
                    return Some(i);
                }
                left -= 1;
            }
        }
        None
    }

    /// Whether a clause of a select is ready; one on `nil` never is.
    fn is_ready(&self, case: &Case) -> bool
        ensures { (h : History) (v : SharedValue) (n c : ℕ) (q : AnyRequest) → result ≡ is_ready (shared_with h v self.now) n c q case.now.chan case.now.item }
    {
        let Some(chan) = case.chan else {
            return false;
        };
        match &case.item {
            Some(_) => self.send_ready(chan),
            None => self.receive_ready(chan),
        }
    }

    /// Whether a send on a channel is ready.
    fn send_ready(&self, chan: u32) -> bool
        ensures { (h : History) (v : SharedValue) (n c : ℕ) (q : AnyRequest) → result ≡ send_ready (shared_with h v self.now) n c q chan }
    {
        self.is_closed(chan) || self.has_room(chan) || self.partner(chan, false).is_some()
    }

    /// Whether a receive on a channel is ready.
    fn receive_ready(&self, chan: u32) -> bool
        ensures { (h : History) (v : SharedValue) (n c : ℕ) (q : AnyRequest) → result ≡ receive_ready (shared_with h v self.now) n c q chan }
    {
        self.is_closed(chan) || self.has_items(chan) || self.partner(chan, true).is_some()
    }

    /// The first sleeper with an offer on a channel, to send or to receive.
    fn partner(&self, chan: u32, sends: bool) -> Option<Partner>
        ensures { result ≡ option_map met (partner chan sends self.now.asleep) }
    {
        find_partner(self.asleep.as_slice(), chan, sends)
    }

    /// Whether a channel is closed.
    fn is_closed(&self, chan: u32) -> bool
        ensures { result ≡ (channel_of self.now.channels chan).closed }
    {
        match self.channels.get(chan as usize) {
            Some(channel) => channel.closed,
            None => false,
        }
    }

    /// Whether a channel's buffer has space.
    fn has_room(&self, chan: u32) -> bool
        ensures { result ≡ nat_lt (length (channel_of self.now.channels chan).items) (channel_of self.now.channels chan).capacity }
    {
        match self.channels.get(chan as usize) {
            Some(channel) => channel.items.len() < channel.capacity as usize,
            None => false,
        }
    }

    /// Whether an item is in a channel's buffer.
    fn has_items(&self, chan: u32) -> bool
        ensures { result ≡ nat_lt 0 (length (channel_of self.now.channels chan).items) }
    {
        match self.channels.get(chan as usize) {
            Some(channel) => !channel.items.is_empty(),
            None => false,
        }
    }

    /// A channel's zero item.
    fn zero(&self, chan: u32) -> Item
        ensures { result ≡ (channel_of self.now.channels chan).zero }
    {
        match self.channels.get(chan as usize) {
            Some(channel) => channel.zero.copy(),
            None => Item::new(self.alloc, [].as_slice()),
        }
    }
}

/// The item, or one of no words.
fn item_or_empty(alloc: Global, item: Option<Item>) -> Item
    ensures { result ≡ unwrap_or item [] }
{
    match item {
        Some(item) => item,
        None => Item::new(alloc, [].as_slice()),
    }
}

/// A list of one goroutine that was asleep, and its reply.
fn one_woken(alloc: Global, number: u64, reply: Reply) -> Result<Vec<Woken>, Memory>
    ensures { IfOk result (λ woken. woken.items ≡ (number, reply_of reply) ∷ []) }
{
    let mut woken = Vec::new(alloc);
    woken.push(Woken { number, reply })?;
    Ok(woken)
}
