//! The channels of a world, and the goroutines that sleep at them.

ghost use Rattle.std.specs.Prelude.{◌≡◌, ℕ, ◌+◌, ◌<◌, ◌≤◌, ◌∷◌, [], ◌++◌, IfOk, IfNone, IfSome, OnErr, OnOk, Some, None, drop, nat_lt, option_copied, option_map, pos, suc, false, true, length, slice_index_or, slice_set, unwrap_or};
ghost use Rattle.std.specs.Option.{is_some};
ghost use Rattle.word.specs.Requests.{channel_of, got, is_ready, no_channel, partner, partners, receive_ready, send_ready, without};
ghost use Rattle.word.specs.Values.{Close, Done, Make, Receive, Request as AnyRequest, Select, Send};
ghost use Rattle.word.specs.Views.{outcome_of, request_of};
ghost use Rattle.word.specs.declared.request.EventOutcome.TheVariants as outcomes;
ghost use Rattle.channel_core.specs.Channels.{Does, DoesAlone, IsAlone, IsOfOneChannel, IsTold, Others, Receives, Sends, Serves, after_passing, came, capacity_of, clause_at, front_after, length_of, offers_at, partner_of, shared_with};
ghost use Rattle.channel_core.specs.Words.{IsReceived, IsSent, word_sent};
ghost use Rattle.item_queue.specs.Items.{front_word, only_word};

use crate::channel::Channel;
use crate::outcome::{Outcome, Woken, sent, tell_got, tell_sent, wake, wake_with};
use crate::sleepers::Sleepers;
use crate::word_outcome::{ReceivedWord, SentWord};
use go_text::Memory;
use std::alloc::Global;
use std::marker::Model;
use word::limits::{MAX_CAPACITY, MAX_CHANNELS};
use word::panic::Panic;
use word::request::{Case, EventOutcome, Reply, Request};
use word::value::{Item, Word};

/// The channels of a world, and the goroutines that sleep at them, in the order in which they fell asleep.
pub struct Channels {
    alloc: Global,
    /// Channel c is at index c; index 0 is no channel's.
    channels: Vec<Channel>,
    asleep: Sleepers,
}

impl Drop for Channels {
    fn drop(self) {
        let Channels {
            alloc: _,
            channels,
            asleep,
        } = self;
        drop(channels);
        drop(asleep);
    }
}

impl Model for Channels {
    ghost use Rattle.channel_core.specs.Channels.{ChannelsValue};
    ghost use Rattle.std.specs.Prelude.{◌≤◌, ◌+◌, length};
    ghost use Rattle.word.specs.declared.limits.TheConstants.{MAX_CHANNELS};

    ghost Value = { ChannelsValue };

    ghost view = { λ c. record { channels = c.channels.items; asleep = c.asleep } };

    ghost invariant = { λ c. length c.channels.items ≤ MAX_CHANNELS + 1 };
}

impl Channels {
    /// No channels, and nobody asleep.
    pub fn new(alloc: Global) -> Result<Channels, Memory>
        ensures { IfOk result (λ c. c ≡ record { channels = no_channel ∷ []; asleep = [] }) }
    {
        let mut channels = Vec::new(alloc);
        channels.push(Channel::new(alloc, 0, &Item::empty(alloc))?)?;
        Ok(Channels {
            alloc,
            channels,
            asleep: Sleepers::new(alloc),
        })
    }

    /// Performs a request of goroutine `number` to one channel: one of the requests below.
    pub fn perform(&mut self, number: u64, request: &Request) -> Result<Outcome, Memory>
        requires { IsOfOneChannel (request_of request.now) }
        ensures does { IfOk result (λ outcome. Does self.old number (request_of request.now) outcome self.new) }
        ensures memory { OnErr result (self.new ≡ self.old) }
    {
        let mut outcome = EventOutcome::Sleeps;
        let mut woken = Vec::new(self.alloc);
        self.meet(number, request, &mut outcome, &mut woken)?;
        Ok(Outcome::of(&outcome, woken))
    }

    /// Like `perform`, but writes the outcome to `outcome` and the woken goroutines to `woken`, oldest sleeper first.
    /// `woken` counts only if the request is done. Earlier contents of both are ignored.
    pub fn meet(
        &mut self,
        number: u64,
        request: &Request,
        outcome: &mut EventOutcome,
        woken: &mut Vec<Woken>,
    ) -> Result<(), Memory>
        requires { IsOfOneChannel (request_of request.now) }
        ensures does { OnOk result (Does self.old number (request_of request.now) (came outcome.new woken.new) self.new) }
        ensures memory { OnErr result (self.new ≡ self.old) }
    {
        match request {
            Request::Make(size, zero) => self.make_asked(*size, zero, outcome, woken),
            Request::Send(chan, item) => {
                self.send_asked(number, request, *chan, item, outcome, woken)
            }
            Request::Receive(chan) => self.receive_asked(number, request, *chan, outcome, woken),
            Request::Close(chan) => self.close_asked(*chan, outcome, woken),
            Request::Len(chan) => Ok(tell(outcome, self.len(*chan), woken)),
            Request::Cap(chan) => Ok(tell(outcome, self.cap(*chan), woken)),
            _ => unreachable!(),
        }
    }

    /// A new channel (Go: Making slices, maps and channels). It panics if the size is negative or over 65,536, or if
    /// 65,536 channels were made.
    pub fn make(&mut self, size: i64, zero: Item) -> Result<Outcome, Memory>
        ensures does { IfOk result (λ outcome. (n : ℕ) → Does self.old n (Make size zero) outcome self.new) }
        ensures memory { OnErr result (self.new ≡ self.old) }
    {
        let mut outcome = EventOutcome::Sleeps;
        let mut woken = Vec::new(self.alloc);
        self.make_asked(size, &zero, &mut outcome, &mut woken)?;
        Ok(Outcome::of(&outcome, woken))
    }

    /// Like `make`, but the zero item stays the caller's. It is a call, so that no other request reserves stack space for an item.
    #[inline(never)]
    fn make_asked(
        &mut self,
        size: i64,
        zero: &Item,
        outcome: &mut EventOutcome,
        woken: &mut Vec<Woken>,
    ) -> Result<(), Memory>
        ensures does { OnOk result ((n : ℕ) → DoesAlone self.old n (Make size zero.now) outcome.new self.new) }
        ensures nobody { woken.new.items ≡ [] }
        ensures memory { OnErr result (self.new ≡ self.old) }
    {
        woken.clear();
        if size < 0 || size > MAX_CAPACITY as i64 {
            *outcome = EventOutcome::Panics(Panic::ChannelSize, 0);
            return Ok(());
        }
        let place = self.channels.len();
        if place == MAX_CHANNELS + 1 {
            *outcome = EventOutcome::Panics(Panic::TooManyChannels, 0);
            return Ok(());
        }
        self.channels
            .push(Channel::new(self.alloc, size as u32, zero)?)?;
        *outcome = EventOutcome::Done(Reply::Word(Word::Chan(Some(place as u32))));
        Ok(())
    }

    /// A send by goroutine `number` (Go: Send statements): to the first sleeper that receives, else into the buffer, else
    /// it sleeps. A send on a closed channel panics; on `nil` it sleeps for good.
    pub fn send(&mut self, chan: Option<u32>, number: u64, item: Item) -> Result<Outcome, Memory>
        ensures does { IfOk result (λ outcome. Does self.old number (Send chan item) outcome self.new) }
        ensures memory { OnErr result (self.new ≡ self.old) }
    {
        self.perform(number, &Request::Send(chan, item))
    }

    /// Like `send`, but writes the outcome to `outcome` and the woken goroutine to `woken`.
    #[inline(always)]
    #[tactic(auto, using(crate::proofs::Deeds::send_done))]
    fn send_asked(
        &mut self,
        number: u64,
        request: &Request,
        chan: Option<u32>,
        item: &Item,
        outcome: &mut EventOutcome,
        woken: &mut Vec<Woken>,
    ) -> Result<(), Memory>
        requires { request_of request.now ≡ Send chan item.now }
        ensures does { OnOk result (Does self.old number (Send chan item.now) (came outcome.new woken.new) self.new) }
        ensures memory { OnErr result (self.new ≡ self.old) }
    {
        let Some(chan) = chan else {
            return self.sleep(number, request, outcome);
        };
        if !self.can_send(chan) {
            return self.sleep(number, request, outcome);
        }
        self.send_now(number, chan, item, 0, outcome, woken)
    }

    /// A receive by goroutine `number` (Go: Receive operator): of the buffer's front item, and the first sleeping sender's item then
    /// enters the buffer; else of that item; else of the zero item if the channel is closed; else it sleeps. On `nil` it sleeps for good.
    pub fn receive(&mut self, chan: Option<u32>, number: u64) -> Result<Outcome, Memory>
        ensures does { IfOk result (λ outcome. Does self.old number (Receive chan) outcome self.new) }
        ensures memory { OnErr result (self.new ≡ self.old) }
    {
        self.perform(number, &Request::Receive(chan))
    }

    /// Like `receive`, but writes the outcome to `outcome` and the woken goroutine to `woken`.
    #[inline(always)]
    #[tactic(auto, using(crate::proofs::Deeds::receive_done))]
    fn receive_asked(
        &mut self,
        number: u64,
        request: &Request,
        chan: Option<u32>,
        outcome: &mut EventOutcome,
        woken: &mut Vec<Woken>,
    ) -> Result<(), Memory>
        requires { request_of request.now ≡ Receive chan }
        ensures does { OnOk result (Does self.old number (Receive chan) (came outcome.new woken.new) self.new) }
        ensures memory { OnErr result (self.new ≡ self.old) }
    {
        let Some(chan) = chan else {
            return self.sleep(number, request, outcome);
        };
        if !self.can_receive(chan) {
            return self.sleep(number, request, outcome);
        }
        self.receive_now(chan, 0, outcome, woken)
    }

    /// A close (Go: Close): it panics on `nil` and on a closed channel. Each sleeper with an offer on the channel is woken
    /// by its first one there: a receiver with the zero item, a sender to panic.
    pub fn close(&mut self, chan: Option<u32>) -> Result<Outcome, Memory>
        ensures does { IfOk result (λ outcome. (n : ℕ) → Does self.old n (Close chan) outcome self.new) }
        ensures memory { OnErr result (self.new ≡ self.old) }
    {
        let mut outcome = EventOutcome::Sleeps;
        let mut woken = Vec::new(self.alloc);
        self.close_asked(chan, &mut outcome, &mut woken)?;
        Ok(Outcome::of(&outcome, woken))
    }

    /// Like `close`, but writes the outcome to `outcome` and the woken goroutines to `woken`. It is a call, so that no
    /// other request reserves stack space for an item.
    #[inline(never)]
    fn close_asked(
        &mut self,
        chan: Option<u32>,
        outcome: &mut EventOutcome,
        woken: &mut Vec<Woken>,
    ) -> Result<(), Memory>
        ensures does { OnOk result ((n : ℕ) → Does self.old n (Close chan) (came outcome.new woken.new) self.new) }
        ensures memory { OnErr result (self.new ≡ self.old) }
    {
        let Some(chan) = chan else {
            *outcome = EventOutcome::Panics(Panic::CloseOfNil, 0);
            return Ok(());
        };
        if self.is_closed(chan) {
            *outcome = EventOutcome::Panics(Panic::CloseOfClosed, 0);
            return Ok(());
        }
        let zero = self.zero(chan);
        *woken = self.asleep.close(chan, &zero)?;
        close_channel(self.channels.as_mut_slice(), chan);
        *outcome = EventOutcome::Done(Reply::Nothing);
        Ok(())
    }

    /// How many items are in a channel's buffer; 0 for `nil` (Go: Length and capacity).
    pub fn len(&self, chan: Option<u32>) -> i64
        ensures { result ≡ pos (length_of self.now.channels chan) }
    {
        let Some(chan) = chan else {
            return 0;
        };
        match self.channels.get(chan as usize) {
            Some(channel) => channel.len(),
            None => 0,
        }
    }

    /// A channel's capacity; 0 for `nil` (Go: Length and capacity).
    pub fn cap(&self, chan: Option<u32>) -> i64
        ensures { result ≡ pos (capacity_of self.now.channels chan) }
    {
        let Some(chan) = chan else {
            return 0;
        };
        match self.channels.get(chan as usize) {
            Some(channel) => channel.capacity(),
            None => 0,
        }
    }

    /// Whether a clause of a select is ready (Go: Select statements): a send if the channel is closed, has space in its
    /// buffer or a receiver sleeps at it, a receive if it is closed, holds items or a sender sleeps at it; on `nil` neither.
    pub fn ready(&self, case: &Case) -> bool
        ensures { (o : Others) (n c : ℕ) (q : AnyRequest) → result ≡ is_ready (shared_with o self.now) n c q case.now.chan case.now.item }
    {
        let Some(chan) = case.chan else {
            return false;
        };
        match &case.item {
            Some(_) => self.can_send(chan),
            None => self.can_receive(chan),
        }
    }

    /// Does a ready clause of a select by goroutine `number`; `clause` is the clause's number, counted from 1.
    pub fn serve(
        &mut self,
        number: u64,
        case: &Case,
        clause: usize,
        outcome: &mut EventOutcome,
        woken: &mut Vec<Woken>,
    ) -> Result<(), Memory>
        requires { is_some case.now.chan ≡ true }
        ensures serves { OnOk result (Serves self.old number case.now clause (came outcome.new woken.new) self.new) }
        ensures memory { OnErr result (self.new ≡ self.old) }
    {
        let Some(chan) = case.chan else {
            unreachable!();
        };
        match &case.item {
            Some(item) => self.send_now(number, chan, item, clause, outcome, woken),
            None => self.receive_now(chan, clause, outcome, woken),
        }
    }

    /// Goroutine `number` falls asleep at this request, with all its offers, after those that sleep already. An offer of an
    /// earlier request of this goroutine is withdrawn.
    pub fn enter(&mut self, number: u64, request: &Request) -> Result<(), Memory>
        ensures asleep { OnOk result (self.new ≡ record self.old { asleep = without self.old.asleep number ++ record { number = number; request = request_of request.now } ∷ [] }) }
        ensures memory { OnErr result (self.new ≡ self.old) }
    {
        self.asleep.enter(number, request)
    }

    /// Goroutine `number` sleeps no more: all its offers are withdrawn, and no others.
    pub fn withdraw(&mut self, number: u64)
        ensures { self.new ≡ record self.old { asleep = without self.old.asleep number } }
    {
        self.asleep.leave(number);
    }

    /// How many goroutines are asleep.
    pub fn asleep(&self) -> usize
        ensures { result ≡ length self.now.asleep }
    {
        self.asleep.len()
    }

    /// How many offers the sleeping goroutines make on a channel: at least as many as sleep there. Only these offers are visited.
    #[tactic(auto, using(crate::proofs::Offered::partners_few))]
    pub fn offers_at(&self, chan: u32) -> usize
        ensures offers { result ≡ offers_at chan self.now.asleep }
        ensures sleepers { length (partners chan self.now.asleep) ≤ result }
    {
        self.asleep.offers_at(chan)
    }

    /// Like `send`, of an item of one word, if the channel is open and no select receives it; else nothing is done.
    #[inline(always)]
    pub fn send_word(&mut self, number: u64, chan: u32, word: Word) -> Result<SentWord, Memory>
        ensures sends { IfOk result (λ sent. IsSent self.old number chan word sent self.new) }
        ensures memory { OnErr result (self.new ≡ self.old) }
    {
        if self.is_closed(chan) {
            return Ok(SentWord::Other);
        }
        let Some(partner) = self.asleep.partner(chan, false) else {
            return self.send_word_alone(number, chan, word);
        };
        if partner.case != 0 {
            return Ok(SentWord::Other);
        }
        let receiver = partner.number;
        self.asleep.leave(receiver);
        Ok(SentWord::To(receiver))
    }

    /// Like `send_word`, if the channel is open and nobody receives.
    fn send_word_alone(&mut self, number: u64, chan: u32, word: Word) -> Result<SentWord, Memory>
        requires open { (channel_of self.old.channels chan).closed ≡ false }
        requires alone { option_map partner_of (partner chan false self.old.asleep) ≡ None }
        ensures sends { IfOk result (λ sent. IsSent self.old number chan word sent self.new) }
        ensures memory { OnErr result (self.new ≡ self.old) }
    {
        if self.has_room(chan) {
            push_word(self.channels.as_mut_slice(), chan, word)?;
            return Ok(SentWord::Kept);
        }
        self.sleep_sending(number, chan, word)?;
        Ok(SentWord::Sleeps)
    }

    /// Goroutine `number` falls asleep at a send of this word. It is a call, so that a word that is kept reserves no stack
    /// space for an item.
    #[inline(never)]
    fn sleep_sending(&mut self, number: u64, chan: u32, word: Word) -> Result<(), Memory>
        ensures asleep { OnOk result (self.new ≡ record self.old { asleep = without self.old.asleep number ++ record { number = number; request = Send (Some chan) (word ∷ []) } ∷ [] }) }
        ensures memory { OnErr result (self.new ≡ self.old) }
    {
        let item = Item::new(self.alloc, [word].as_slice());
        self.enter(number, &Request::Send(Some(chan), item))
    }

    /// Like `receive`, if the item has one word, no select sends it, and the channel is open or has items; else nothing is done.
    #[inline(always)]
    pub fn receive_word(&mut self, number: u64, chan: u32) -> Result<ReceivedWord, Memory>
        ensures receives { IfOk result (λ received. IsReceived self.old number chan received self.new) }
        ensures memory { OnErr result (self.new ≡ self.old) }
    {
        let Some(partner) = self.asleep.partner(chan, true) else {
            return self.receive_word_alone(number, chan);
        };
        if partner.case != 0 {
            return Ok(ReceivedWord::Other);
        }
        let sender = partner.number;
        let Some(word) = word_sent(partner.item) else {
            return Ok(ReceivedWord::Other);
        };
        let Some(front) = pass_word(self.channels.as_mut_slice(), chan, word)? else {
            return Ok(ReceivedWord::Other);
        };
        self.asleep.leave(sender);
        Ok(ReceivedWord::From(front, sender))
    }

    /// Like `receive_word`, if nobody sends.
    #[tactic(auto, using(crate::proofs::Words::left_items, crate::proofs::Words::left_closed))]
    fn receive_word_alone(&mut self, number: u64, chan: u32) -> Result<ReceivedWord, Memory>
        requires alone { option_map partner_of (partner chan true self.old.asleep) ≡ None }
        ensures receives { IfOk result (λ received. IsReceived self.old number chan received self.new) }
        ensures memory { OnErr result (self.new ≡ self.old) }
    {
        if self.has_items(chan) {
            let Some(word) = pop_word(self.channels.as_mut_slice(), chan) else {
                return Ok(ReceivedWord::Other);
            };
            return Ok(ReceivedWord::Kept(word));
        }
        if self.is_closed(chan) {
            return Ok(ReceivedWord::Other);
        }
        self.enter(number, &Request::Receive(Some(chan)))?;
        Ok(ReceivedWord::Sleeps)
    }

    /// Whether a send on a channel is ready.
    fn can_send(&self, chan: u32) -> bool
        ensures { (o : Others) (n c : ℕ) (q : AnyRequest) → result ≡ send_ready (shared_with o self.now) n c q chan }
    {
        self.is_closed(chan) || self.has_room(chan) || self.asleep.has_partner(chan, false)
    }

    /// Whether a receive on a channel is ready.
    fn can_receive(&self, chan: u32) -> bool
        ensures { (o : Others) (n c : ℕ) (q : AnyRequest) → result ≡ receive_ready (shared_with o self.now) n c q chan }
    {
        self.is_closed(chan) || self.has_items(chan) || self.asleep.has_partner(chan, true)
    }

    /// A send that is ready.
    #[inline(never)]
    fn send_now(
        &mut self,
        number: u64,
        chan: u32,
        item: &Item,
        clause: usize,
        outcome: &mut EventOutcome,
        woken: &mut Vec<Woken>,
    ) -> Result<(), Memory>
        ensures sends { OnOk result (Sends self.old number chan item.now clause (came outcome.new woken.new) self.new) }
        ensures memory { OnErr result (self.new ≡ self.old) }
    {
        if self.is_closed(chan) {
            *outcome = EventOutcome::Panics(Panic::SendOnClosed, clause);
            return Ok(());
        }
        match self.asleep.partner(chan, false) {
            Some(partner) => {
                let number = partner.number;
                wake_with(self.alloc, woken, number, partner.case, item)?;
                self.asleep.leave(number);
                tell_sent(outcome, clause);
                Ok(())
            }
            None => {
                woken.clear();
                push(self.channels.as_mut_slice(), chan, item)?;
                tell_sent(outcome, clause);
                Ok(())
            }
        }
    }

    /// A receive that is ready.
    #[inline(never)]
    fn receive_now(
        &mut self,
        chan: u32,
        clause: usize,
        outcome: &mut EventOutcome,
        woken: &mut Vec<Woken>,
    ) -> Result<(), Memory>
        ensures receives { OnOk result ((n : ℕ) → Receives self.old n chan clause (came outcome.new woken.new) self.new) }
        ensures memory { OnErr result (self.new ≡ self.old) }
    {
        let Some(partner) = self.asleep.partner(chan, true) else {
            woken.clear();
            self.receive_alone(chan, clause, outcome);
            return Ok(());
        };
        let number = partner.number;
        wake(woken, number, sent(partner.case))?;
        pass_through(
            self.alloc,
            &mut self.channels,
            chan,
            partner.item,
            clause,
            outcome,
        )?;
        self.asleep.leave(number);
        Ok(())
    }

    /// A receive that meets nobody.
    fn receive_alone(&mut self, chan: u32, clause: usize, outcome: &mut EventOutcome)
        ensures { IsAlone self.old chan clause outcome.new self.new }
    {
        if !self.has_items(chan) {
            let zero = self.zero(chan);
            tell_got(self.alloc, outcome, clause, &zero, false);
            return;
        }
        pop(
            self.alloc,
            self.channels.as_mut_slice(),
            chan,
            clause,
            outcome,
        );
    }

    /// Goroutine `number` falls asleep at this request.
    fn sleep(
        &mut self,
        number: u64,
        request: &Request,
        outcome: &mut EventOutcome,
    ) -> Result<(), Memory>
        ensures sleeps { OnOk result (outcome.new ≡ outcomes.Sleeps) }
        ensures asleep { OnOk result (self.new ≡ record self.old { asleep = without self.old.asleep number ++ record { number = number; request = request_of request.now } ∷ [] }) }
        ensures memory { OnErr result (self.new ≡ self.old) }
    {
        self.enter(number, request)?;
        *outcome = EventOutcome::Sleeps;
        Ok(())
    }

    /// Whether a channel is closed.
    fn is_closed(&self, chan: u32) -> bool
        ensures { result ≡ (channel_of self.now.channels chan).closed }
    {
        match self.channels.get(chan as usize) {
            Some(channel) => channel.is_closed(),
            None => false,
        }
    }

    /// Whether a channel's buffer has space for an item.
    fn has_room(&self, chan: u32) -> bool
        ensures { result ≡ nat_lt (length (channel_of self.now.channels chan).items) (channel_of self.now.channels chan).capacity }
    {
        match self.channels.get(chan as usize) {
            Some(channel) => channel.has_room(),
            None => false,
        }
    }

    /// Whether an item is in a channel's buffer.
    fn has_items(&self, chan: u32) -> bool
        ensures { result ≡ nat_lt 0 (length (channel_of self.now.channels chan).items) }
    {
        match self.channels.get(chan as usize) {
            Some(channel) => channel.has_items(),
            None => false,
        }
    }

    /// A channel's zero item.
    fn zero(&self, chan: u32) -> Item
        ensures { result ≡ (channel_of self.now.channels chan).zero }
    {
        match self.channels.get(chan as usize) {
            Some(channel) => channel.zero(),
            None => Item::new(self.alloc, [].as_slice()),
        }
    }
}

/// Closes a channel.
fn close_channel(channels: &mut [Channel], chan: u32)
    ensures { channels.new ≡ slice_set channels.old chan (record (channel_of channels.old chan) { closed = true }) }
{
    if (chan as usize) < channels.len() {
        channels[chan as usize].close();
    }
}

/// Puts an item at the back of a channel's buffer. It is a call, so that nothing else reserves stack space for an item.
#[inline(never)]
fn push(channels: &mut [Channel], chan: u32, item: &Item) -> Result<(), Memory>
    ensures ok { OnOk result (channels.new ≡ slice_set channels.old chan (record (channel_of channels.old chan) { items = (channel_of channels.old chan).items ++ item.now ∷ [] })) }
    ensures err { OnErr result (channels.new ≡ channels.old) }
{
    if (chan as usize) < channels.len() {
        channels[chan as usize].push(item)?;
    }
    Ok(())
}

/// Like `push`, of an item of this one word.
#[inline(always)]
fn push_word(channels: &mut [Channel], chan: u32, word: Word) -> Result<(), Memory>
    ensures ok { OnOk result (channels.new ≡ slice_set channels.old chan (record (channel_of channels.old chan) { items = (channel_of channels.old chan).items ++ (word ∷ []) ∷ [] })) }
    ensures err { OnErr result (channels.new ≡ channels.old) }
{
    if (chan as usize) < channels.len() {
        channels[chan as usize].push_word(word)?;
    }
    Ok(())
}

/// Takes the item at the front of a channel's buffer, if there is one and it has no other word than the one returned.
#[inline(always)]
fn pop_word(channels: &mut [Channel], chan: u32) -> Option<Word>
    ensures front { IfSome result (λ word. slice_index_or (channel_of channels.old chan).items 0 [] ≡ word ∷ []) }
    ensures rest { IfSome result (λ _word. channels.new ≡ slice_set channels.old chan (record (channel_of channels.old chan) { items = drop 1 (channel_of channels.old chan).items })) }
    ensures none { IfNone result (front_word (channel_of channels.old chan).items ≡ None) }
    ensures same { IfNone result (channels.new ≡ channels.old) }
{
    if (chan as usize) < channels.len() {
        channels[chan as usize].pop_word()
    } else {
        None
    }
}

/// Puts this word at the back of a channel's buffer, and takes the item at its front (the same one if the buffer was empty),
/// if that item has no other word than the one returned.
#[inline(always)]
fn pass_word(channels: &mut [Channel], chan: u32, word: Word) -> Result<Option<Word>, Memory>
    ensures front { IfOk result (λ front. IfSome front (λ front. front_after channels.old chan (word ∷ []) ≡ front ∷ [])) }
    ensures rest { IfOk result (λ front. IfSome front (λ _front. channels.new ≡ slice_set channels.old chan (record (channel_of channels.old chan) { items = after_passing channels.old chan (word ∷ []) }))) }
    ensures none { IfOk result (λ front. IfNone front (only_word (front_after channels.old chan (word ∷ [])) ≡ None)) }
    ensures same { IfOk result (λ front. IfNone front (channels.new ≡ channels.old)) }
    ensures err { OnErr result (channels.new ≡ channels.old) }
{
    if (chan as usize) < channels.len() {
        return Ok(channels[chan as usize].pass_word(word)?);
    }
    Ok(Some(word))
}

/// The word of an item that has no other.
#[inline(always)]
fn word_sent(item: Option<&Item>) -> Option<Word>
    ensures { result ≡ word_sent (option_copied item.entry) }
{
    let Some(item) = item else {
        return None;
    };
    let words = item.words();
    if words.len() == 1 {
        Some(words[0])
    } else {
        None
    }
}

/// Takes the item at the front of a channel's buffer, if there is one, and writes the receiver's reply to `outcome`.
fn pop(
    alloc: Global,
    channels: &mut [Channel],
    chan: u32,
    clause: usize,
    outcome: &mut EventOutcome,
)
    ensures told { nat_lt 0 (length (channel_of channels.old chan).items) ≡ true → outcome_of outcome.new ≡ Done (got clause (slice_index_or (channel_of channels.old chan).items 0 []) true) }
    ensures rest { channels.new ≡ slice_set channels.old chan (record (channel_of channels.old chan) { items = drop 1 (channel_of channels.old chan).items }) }
{
    if (chan as usize) < channels.len() {
        channels[chan as usize].pop(alloc, clause, outcome);
    }
}

/// Puts an item, or one of no words, at the back of a channel's buffer, takes the one at its front (the same one if the
/// buffer was empty), and writes the receiver's reply to `outcome`.
fn pass_through(
    alloc: Global,
    channels: &mut Vec<Channel>,
    chan: u32,
    item: Option<&Item>,
    clause: usize,
    outcome: &mut EventOutcome,
) -> Result<(), Memory>
    ensures told { OnOk result (outcome_of outcome.new ≡ Done (got clause (front_after channels.old.items chan (unwrap_or (option_copied item.entry) [])) true)) }
    ensures rest { OnOk result (channels.new.items ≡ slice_set channels.old.items chan (record (channel_of channels.old.items chan) { items = after_passing channels.old.items chan (unwrap_or (option_copied item.entry) []) })) }
    ensures err { OnErr result (channels.new.items ≡ channels.old.items) }
{
    match item {
        Some(item) => pass_item(alloc, channels.as_mut_slice(), chan, item, clause, outcome),
        None => pass_item(
            alloc,
            channels.as_mut_slice(),
            chan,
            &Item::empty(alloc),
            clause,
            outcome,
        ),
    }
}

/// Like `pass_through`, with this item.
#[inline(never)]
fn pass_item(
    alloc: Global,
    channels: &mut [Channel],
    chan: u32,
    item: &Item,
    clause: usize,
    outcome: &mut EventOutcome,
) -> Result<(), Memory>
    ensures told { OnOk result (outcome_of outcome.new ≡ Done (got clause (front_after channels.old chan item.now) true)) }
    ensures rest { OnOk result (channels.new ≡ slice_set channels.old chan (record (channel_of channels.old chan) { items = after_passing channels.old chan item.now })) }
    ensures err { OnErr result (channels.new ≡ channels.old) }
{
    if (chan as usize) < channels.len() {
        return Ok(channels[chan as usize].pass_through(alloc, item, clause, outcome)?);
    }
    tell_got(alloc, outcome, clause, item, true);
    Ok(())
}

/// The reply to a request is a number, and nobody is woken.
#[inline(never)]
fn tell(outcome: &mut EventOutcome, number: i64, woken: &mut Vec<Woken>)
    ensures told { IsTold outcome.new number }
    ensures nobody { woken.new.items ≡ [] }
{
    woken.clear();
    *outcome = EventOutcome::Done(Reply::Word(Word::Int(number)));
}
