//! Goroutines that sleep at channels.

ghost use Rattle.std.specs.Prelude.{◌≡◌, ◌≢◌, ℕ, ◌∷◌, [], ◌++◌, false, IfNone, IfOk, IfSome, None, OnErr, OnOk, Some, cond, length, option_map};
ghost use Rattle.std.specs.List.{filter};
ghost use Rattle.std.specs.Option.{is_some};
ghost use Rattle.slot_index.specs.Keys.{owned};
ghost use Rattle.word.specs.Requests.{got, partner, partners, without, without_all};
ghost use Rattle.word.specs.Values.{Closed};
ghost use Rattle.word.specs.Views.{reply_of, request_of};
ghost use Rattle.channel_core.specs.Asleep.{is_not_of, placed, placed_all};
ghost use Rattle.channel_core.specs.Channels.{closed_for, met, offers_at, partner_of};

use crate::order::Order;
use crate::outcome::{Woken, got};
use crate::rows::{enter_all, leave_all, row_on};
use go_text::Memory;
use slab::Slab;
use sleep_queue::SleepQueues;
use slot_index::NumberedKeys;
use std::alloc::Global;
use std::marker::Model;
use std::snapshot::Snapshot;
use word::request::{Reply, Request};
use word::value::Item;

/// A goroutine that sleeps. Only contracts still see its request: what it offers is in rows.
#[derive(Drop)]
pub(crate) struct Sleeper {
    number: u64,
    request: Snapshot<Request>,
}

impl Model for Sleeper {
    ghost use Rattle.word.specs.Values.{Sleeper as AnySleeper};
    ghost use Rattle.word.specs.Views.{request_of};

    ghost Value = { AnySleeper };

    ghost view = { λ s. record { number = s.number; request = request_of s.request.value } };
}

impl Sleeper {
    ghost use Rattle.word.specs.Values.{Sleeper as AnySleeper};

    /// Goroutine `number`, which sleeps at this request.
    fn new(number: u64, request: &Request) -> Sleeper
        ensures { result ≡ record { number = number; request = request_of request.now } }
    {
        Sleeper {
            number,
            request: Snapshot::of(request),
        }
    }

    /// The goroutine's number.
    fn number(&self) -> u64
        ensures { result ≡ self.now.number }
    {
        self.number
    }
}

/// Whom a request meets: a sleeper's number, the clause that is served (0 outside a select), and what it sends.
#[derive(Clone, Copy)]
pub struct PartnerView<'a> {
    pub number: u64,
    pub case: usize,
    pub item: Option<&'a Item>,
}

/// The sleeping goroutines, in the order in which they fell asleep. The one that a request meets is found without a search.
#[derive(Drop)]
pub(crate) struct Sleepers {
    alloc: Global,
    /// The sleepers, by their keys.
    slots: Slab<Sleeper>,
    /// Their keys, by their numbers.
    places: NumberedKeys,
    /// In each row the offers on one channel to send, or to receive. The number of an offer is its sleeper's key.
    queues: SleepQueues,
    /// Their keys, in the order in which they fell asleep.
    order: Order,
}

impl Model for Sleepers {
    ghost use Rattle.std.specs.Prelude.{List};
    ghost use Rattle.slab.specs.Slab.{get, slab_len};
    ghost use Rattle.slot_index.specs.Keys.{owned};
    ghost use Rattle.word.specs.Values.{Sleeper as AnySleeper};
    ghost use Rattle.channel_core.specs.Asleep.{IsAsleep, asleep_of, placed};

    ghost Value = { List AnySleeper };

    ghost view = { λ s. asleep_of (get s.slots) s.order };

    ghost invariant = { λ s. IsAsleep (get s.slots) (owned s.places) s.order (placed s.queues) (slab_len s.slots) };
}

impl Sleepers {
    ghost use Rattle.std.specs.Prelude.{ℕ};
    ghost use Rattle.word.specs.Values.{Sleeper as AnySleeper};

    /// Nobody.
    pub(crate) fn new(alloc: Global) -> Sleepers
        ensures { result ≡ [] }
    {
        Sleepers {
            alloc,
            slots: Slab::new(alloc),
            places: NumberedKeys::new(alloc),
            queues: SleepQueues::new(alloc),
            order: Order::new(),
        }
    }

    /// How many are asleep.
    pub(crate) fn len(&self) -> usize
        ensures { result ≡ length self.now }
    {
        self.slots.len()
    }

    /// How many offers on a channel there are, of which a sleeper in a select can have several. Only these are visited.
    pub(crate) fn offers_at(&self, chan: u32) -> usize
        ensures { result ≡ offers_at chan self.now }
    {
        self.queues
            .count_of_two(row_on(chan, false), row_on(chan, true))
    }

    /// The first sleeper with an offer on a channel, to send or to receive, and its first such offer.
    #[inline(always)]
    pub(crate) fn partner(&self, chan: u32, sends: bool) -> Option<PartnerView<'_>>
        ensures { option_map met result ≡ option_map partner_of (partner chan sends self.now) }
    {
        let Some(offer) = self.queues.first(row_on(chan, sends)) else {
            return None;
        };
        let Some(sleeper) = self.slots.get(offer.number as usize) else {
            unreachable!()
        };
        Some(PartnerView {
            number: sleeper.number(),
            case: offer.case,
            item: offer.item,
        })
    }

    /// Whether a sleeper has an offer on a channel, to send or to receive.
    pub(crate) fn has_partner(&self, chan: u32, sends: bool) -> bool
        ensures { result ≡ is_some (partner chan sends self.now) }
    {
        self.queues.has_offers(row_on(chan, sends))
    }

    /// Removes any sleeper with this number, and puts goroutine `number` at the back.
    pub(crate) fn enter(&mut self, number: u64, request: &Request) -> Result<(), Memory>
        ensures ok { OnOk result (self.new ≡ without self.old number ++ record { number = number; request = request_of request.now } ∷ []) }
        ensures memory { OnErr result (self.new ≡ self.old) }
    {
        self.slots.reserve(1)?;
        let key = self.slots.vacant_key();
        let before = place(&mut self.queues, &mut self.places, number, key, request)?;
        self.slots.insert_reserved(Sleeper::new(number, request));
        self.order.enter(key);
        if let Some(old) = before {
            self.slots.remove(old);
            self.order.leave(old);
            leave_all(&mut self.queues, old as u64);
        }
        Ok(())
    }

    /// Takes out the one of this number.
    pub(crate) fn leave(&mut self, number: u64)
        ensures { self.new ≡ without self.old number }
    {
        if let Some(key) = self.places.remove(number) {
            self.slots.remove(key);
            self.order.leave(key);
            leave_all(&mut self.queues, key as u64);
        }
    }

    /// Takes out all that have an offer on a channel, and returns them with the replies that a close gives them.
    pub(crate) fn close(&mut self, chan: u32, zero: &Item) -> Result<Vec<Woken>, Memory>
        ensures woken { IfOk result (λ woken. woken.items ≡ closed_for zero.now (partners chan self.old)) }
        ensures left { IfOk result (λ woken. self.new ≡ without_all self.old woken.items) }
        ensures memory { OnErr result (self.new ≡ self.old) }
    {
        let mut woken = Vec::new(self.alloc);
        if self.first_at_close(chan, zero).is_none() {
            return Ok(woken);
        }
        woken.reserve(self.offers_at(chan))?;
        while let Some(first) = self.first_at_close(chan, zero) {
            self.leave(first.number());
            woken.push_reserved(first);
        }
        Ok(woken)
    }

    /// The first that has an offer on a channel, with the reply that a close gives to its first offer there: a receiver
    /// gets the zero item, a sender learns that its item is not accepted.
    fn first_at_close(&self, chan: u32, zero: &Item) -> Option<Woken>
        ensures none { IfNone result (partners chan self.now ≡ []) }
        ensures some { IfSome result (λ w. closed_for zero.now (partners chan self.now) ≡ w ∷ closed_for zero.now (partners chan (without self.now w.0))) }
    {
        let (receives, sends) = (row_on(chan, false), row_on(chan, true));
        let Some(offer) = self.queues.first_of_two(receives, sends) else {
            return None;
        };
        let Some(sleeper) = self.slots.get(offer.number as usize) else {
            unreachable!()
        };
        let reply = reply_at_close(offer.case, offer.item.is_some(), zero);
        Some(Woken::new(sleeper.number(), reply))
    }
}

/// The sleeper of a key, which has this number and made this request, enters its rows: the key that its number had
/// before. All or nothing is done.
fn place(
    queues: &mut SleepQueues,
    places: &mut NumberedKeys,
    number: u64,
    key: usize,
    request: &Request,
) -> Result<Option<usize>, Memory>
    requires { filter (is_not_of key) (placed queues.old) ≡ placed queues.old }
    ensures before { IfOk result (λ before. before ≡ owned places.old number) }
    ensures rows { OnOk result (placed queues.new ≡ placed queues.old ++ placed_all key (request_of request.now)) }
    ensures own { OnOk result (owned places.new number ≡ Some key) }
    ensures others { OnOk result ((n : ℕ) → n ≢ number → owned places.new n ≡ owned places.old n) }
    ensures same_rows { OnErr result (placed queues.new ≡ placed queues.old) }
    ensures same_places { OnErr result (places.new ≡ places.old) }
{
    enter_all(queues, key as u64, request)?;
    match places.insert(number, key) {
        Ok(before) => Ok(before),
        Err(memory) => {
            leave_all(queues, key as u64);
            Err(memory.into())
        }
    }
}

/// The reply of a close to an offer to send or receive, in a clause of a select, or outside of one if `case` is 0.
fn reply_at_close(case: usize, sends: bool, zero: &Item) -> Reply
    ensures { reply_of result ≡ cond sends Closed (got case zero.now false) }
{
    if sends {
        return Reply::Closed;
    }
    got(case, zero, false)
}
