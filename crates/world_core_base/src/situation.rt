//! The state of a run, and the requests that are performed on it.

ghost use Rattle.std.specs.Prelude.{◌≡◌, ℕ, ◌+◌, ◌-◌, ◌<◌, ◌≤◌, ◌^◌, [], ◌∷◌, ◌++◌, IfNone, IfOk, IfSome, IsSome, OnErr, OnOk, None, Some, length, map, option_map, slice_index_or, slice_set, vec_capacity, vec_len};
ghost use Rattle.bytecode.specs.Machine.{code_begin, code_kind};
ghost use Rattle.bytecode.specs.Rules.{IsFrameOf, IsVerified};
ghost use Rattle.channel_core.specs.Channels.{DoesAt, IsOfChannels, came};
ghost use Rattle.goroutine_vm.specs.Advance.{IsQuiet};
ghost use Rattle.logical_clock.specs.Order.{keys, least};
ghost use Rattle.word.specs.Kinds.{at};
ghost use Rattle.word.specs.Values.{End as EndRequest, Print as PrintRequest, Reply as AnyReply};
ghost use Rattle.word.specs.Views.{outcome_of, reply_of, request_of};
ghost use Rattle.world_core_base.specs.Cores.{Asks, FitsCore, IsAsked, IsGo, IsLast, Performs, Works, bytes_of, ended_as, left_beds, meant_after, most_offered, most_partners, most_woken, opened_core, to_lend, woken_rows};
ghost use Rattle.awake_rows.specs.Slots.{IsFreeIn, IsUnlent, answered_rows, free_clock, free_row, lent_row};

use crate::spare::{Spare, begin_state, keep_state, make_rooms};
use crate::waking::{doze, wake};
use awake_rows::{Among, Goroutines};
use channel_core::{Channels, Woken};
use go_text::Memory;
use goroutine_vm::{GoState, RequestLists, Room, spawn_state};
use logical_clock::limits::MAX_GOROUTINES;
use logical_clock::{Clock, Key, LAST};
use std::alloc::Global;
use std::marker::Model;
use verifier::Verified;
use word::end::End;
use word::panic::Panic;
use word::request::{Event, EventOutcome, Reply, Request};

/// The state of a run: the goroutines awake and asleep and their states, the channels, and the ending.
pub(crate) struct Situation {
    /// The goroutines that are awake or asleep. None has the number 0.
    pub goroutines: Goroutines,
    pub channels: Channels,
    /// How many goroutines are awake or asleep.
    pub live: u64,
    /// How many events there were.
    pub events: u64,
    pub ending: Option<End>,
}

impl Drop for Situation {
    fn drop(self) {
        let Situation {
            goroutines,
            channels,
            live: _,
            events: _,
            ending: _,
        } = self;
        drop(goroutines);
        drop(channels);
    }
}

impl Model for Situation {
    ghost use Rattle.world_core_base.specs.Cores.{CoreValue};

    ghost Value = { CoreValue };

    ghost view = { λ s. record { rows = s.goroutines.rows; beds = s.goroutines.beds; channels = s.channels; live = s.live; events = s.events; ending = s.ending } };
}

impl Situation {
    /// Goroutine 1 alone, at the beginning of `main`.
    pub fn open(alloc: Global, code: &Verified) -> Result<Situation, Memory>
        ensures core { IfOk result (λ core. core ≡ opened_core code.now) }
        ensures verified { IfOk result (λ _. IsVerified code.now) }
    {
        let goroutines = first_goroutine(alloc, code)?;
        let channels = Channels::new(alloc)?;
        Ok(Situation {
            goroutines,
            channels,
            live: 1,
            events: 0,
            ending: None,
        })
    }

    /// The goroutine of least key of those that are neither lent nor parked.
    #[tactic(auto, using(awake_rows::proofs::Found::free_found))]
    #[inline(always)]
    pub fn least_free(&self) -> Option<Key>
        ensures least { result ≡ least (keys free_clock 0 self.now.rows) }
        ensures found { IfSome result (λ key. free_clock (slice_index_or self.now.rows key.number None) ≡ Some key.clock) }
    {
        self.goroutines.least_among(Among::Free)
    }

    /// Lends the least of those that are neither lent nor parked: its number, and its state, which is moved out.
    #[inline(always)]
    pub fn lend_least(&mut self) -> Option<(u64, GoState)>
        ensures none { IfNone result ((to_lend self.old ≡ None) × (self.new ≡ self.old)) }
        ensures key { IfSome result (λ l. to_lend self.old ≡ Some (record { clock = l.1.clock; number = l.0 })) }
        ensures free { IfSome result (λ l. IsFreeIn self.old.rows l.0 l.1) }
        ensures lent { IfSome result (λ l. self.new ≡ record self.old { rows = slice_set self.old.rows l.0 (Some (lent_row l.1)) }) }
    {
        if self.ending.is_some() {
            return None;
        }
        let Some(key) = self.least_free() else {
            return None;
        };
        let Some(state) = self.goroutines.lend(key.number) else {
            unreachable!()
        };
        Some((key.number, state))
    }

    /// Makes at most `quantum` local steps of the goroutine that would be lent next, up to a request, and parks it if it is then at one.
    /// Returns whether it is; `None` if there is no goroutine to lend.
    ///
    /// Errors: out of memory, when some of the steps may be made.
    pub fn work_least(
        &mut self,
        alloc: Global,
        code: &Verified,
        limit: u64,
        quantum: u32,
    ) -> Result<Option<bool>, Memory>
        requires { FitsCore code.now limit self.old }
        ensures none { IfOk result (λ found. IfNone found ((to_lend self.old ≡ None) × (self.new ≡ self.old))) }
        ensures works { IfOk result (λ found. IfSome found (λ asking. Works code.now limit quantum self.old (Some asking) self.new)) }
        ensures memory { OnErr result (Works code.now limit quantum self.old None self.new) }
    {
        if self.ending.is_some() {
            return Ok(None);
        }
        let Some(key) = self.least_free() else {
            return Ok(None);
        };
        let asking = self
            .goroutines
            .work(alloc, code, limit, key.number, quantum)?;
        Ok(Some(asking))
    }

    /// Performs the request of goroutine `number`, which is awake and at a request: writes the event to `event`, and appends to `output`
    /// what it prints. If it is out of memory it changes nothing but `event`, whose contents are then unspecified.
    pub fn perform(
        &mut self,
        alloc: Global,
        code: &Verified,
        limit: u64,
        number: u64,
        event: &mut Event,
        output: &mut Vec<u8>,
        spare: &mut Spare,
    ) -> Result<(), Memory>
        requires asks { Asks code.now limit self.old.rows number }
        requires fits { FitsCore code.now limit self.old }
        requires events { self.old.events < 2 ^ 62 }
        ensures performs { OnOk result (Performs code.now limit self.old number event.new (bytes_of event.new) self.new) }
        ensures output { OnOk result (output.new.items ≡ output.old.items ++ bytes_of event.new) }
        ensures fits { OnOk result (FitsCore code.now limit self.new) }
        ensures partners { OnOk result (length event.new.partners.items ≤ most_partners self.old) }
        ensures memory { OnErr result ((self.new ≡ self.old) × (output.new.items ≡ output.old.items)) }
    {
        event.number = number;
        event.clock = self.asked(&mut spare.lists, code, limit, number, &mut event.request)?;
        event.partners.clear();
        match &event.request {
            Request::Print(text) => {
                output.extend_from_slice(text.as_slice())?;
                self.print(code, limit, event);
                Ok(())
            }
            Request::Go(_, _) => self.start(alloc, code, limit, event, &mut spare.states),
            Request::End => {
                self.leave(code, limit, event, &mut spare.states);
                Ok(())
            }
            Request::Exit => {
                self.end(code, limit, event, End::Finished);
                Ok(())
            }
            Request::Exhausted => {
                self.end(code, limit, event, End::Exhausted);
                Ok(())
            }
            Request::Panic(cause) => {
                let cause = *cause;
                self.end(code, limit, event, End::Panicked(cause));
                Ok(())
            }
            _ => self.meet(alloc, code, limit, event, spare),
        }
    }

    /// The clock of goroutine `number`. What its request means is written to `request`: a return of goroutine 1 is an exit, and event
    /// number 2^62 of a run is `Exhausted`.
    fn asked(
        &self,
        lists: &mut RequestLists,
        code: &Verified,
        limit: u64,
        number: u64,
        request: &mut Request,
    ) -> Result<Clock, Memory>
        requires asks { Asks code.now limit self.now.rows number }
        requires events { self.now.events < 2 ^ 62 }
        ensures asked { IfOk result (λ clock. IsAsked code.now limit self.now number clock (request_of request.new)) }
    {
        let Some(slot) = self.goroutines.row(number) else {
            unreachable!()
        };
        lists.keep(request);
        if !slot.state().ask(lists, code, limit, request)? {
            unreachable!()
        }
        self.mean(number, request);
        Ok(slot.state().clock())
    }

    /// Goroutine `number`'s request becomes what it means at the next event.
    fn mean(&self, number: u64, request: &mut Request)
        requires { self.now.events < 2 ^ 62 }
        ensures { request_of request.new ≡ meant_after self.now.events number (request_of request.old) }
    {
        if self.events + 1 == LAST {
            *request = Request::Exhausted;
            return;
        }
        let Request::End = request else {
            return;
        };
        if number != 1 {
            return;
        }
        *request = Request::Exit;
    }

    /// A print, whose bytes are in the output.
    fn print(&mut self, code: &Verified, limit: u64, event: &mut Event)
        requires asked { IsAsked code.now limit self.old event.old.number event.old.clock (request_of event.old.request) }
        requires print { request_of event.old.request ≡ PrintRequest (bytes_of event.old) }
        requires alone { event.old.partners.items ≡ [] }
        requires fits { FitsCore code.now limit self.old }
        requires events { self.old.events < 2 ^ 62 }
        ensures performs { Performs code.now limit self.old event.old.number event.new (bytes_of event.new) self.new }
        ensures bytes { bytes_of event.new ≡ bytes_of event.old }
        ensures fits { FitsCore code.now limit self.new }
        ensures partners { event.new.partners.items ≡ [] }
    {
        self.go_on(
            code,
            event.number,
            &Reply::Nothing,
            next_time(event.clock, limit),
        );
        event.outcome = EventOutcome::Done(Reply::Nothing);
    }

    /// A `go`: a new goroutine, unless too many are alive.
    fn start(
        &mut self,
        alloc: Global,
        code: &Verified,
        limit: u64,
        event: &mut Event,
        states: &mut Vec<GoState>,
    ) -> Result<(), Memory>
        requires asked { IsAsked code.now limit self.old event.old.number event.old.clock (request_of event.old.request) }
        requires go { IsGo (request_of event.old.request) }
        requires alone { event.old.partners.items ≡ [] }
        requires fits { FitsCore code.now limit self.old }
        requires events { self.old.events < 2 ^ 62 }
        ensures performs { OnOk result (Performs code.now limit self.old event.old.number event.new (bytes_of event.new) self.new) }
        ensures bytes { OnOk result (bytes_of event.new ≡ []) }
        ensures fits { OnOk result (FitsCore code.now limit self.new) }
        ensures partners { OnOk result (length event.new.partners.items ≤ 1) }
        ensures memory { OnErr result (self.new ≡ self.old) }
    {
        if self.live == MAX_GOROUTINES {
            self.stop(event.number, End::Panicked(Panic::TooManyGoroutines));
            event.outcome = EventOutcome::Panics(Panic::TooManyGoroutines, 0);
            return Ok(());
        }
        let Request::Go(function, args) = &event.request else {
            unreachable!()
        };
        let later = next_time(event.clock, limit);
        let state = begin_state(
            alloc,
            code,
            *function as usize,
            args.as_slice(),
            later,
            states,
        )?;
        event.partners.push(self.goroutines.count())?;
        self.add(state)?;
        self.go_on(code, event.number, &Reply::Nothing, later);
        event.outcome = EventOutcome::Done(Reply::Nothing);
        Ok(())
    }

    /// A request to channels.
    fn meet(
        &mut self,
        alloc: Global,
        code: &Verified,
        limit: u64,
        event: &mut Event,
        spare: &mut Spare,
    ) -> Result<(), Memory>
        requires asked { IsAsked code.now limit self.old event.old.number event.old.clock (request_of event.old.request) }
        requires channels { IsOfChannels (request_of event.old.request) }
        requires alone { event.old.partners.items ≡ [] }
        requires fits { FitsCore code.now limit self.old }
        requires events { self.old.events < 2 ^ 62 }
        ensures performs { OnOk result (Performs code.now limit self.old event.old.number event.new (bytes_of event.new) self.new) }
        ensures bytes { OnOk result (bytes_of event.new ≡ []) }
        ensures fits { OnOk result (FitsCore code.now limit self.new) }
        ensures partners { OnOk result (length event.new.partners.items ≤ most_partners self.old) }
        ensures memory { OnErr result (self.new ≡ self.old) }
    {
        let most = most_offered(&self.channels, &event.request);
        make_rooms(alloc, &mut spare.rooms, most)?;
        event.partners.reserve(most)?;
        let woken = &mut spare.woken;
        let actor = Key {
            clock: event.clock,
            number: event.number,
        };
        self.ask(actor, &event.request, &mut event.outcome, woken)?;
        match &event.outcome {
            EventOutcome::Done(reply) => {
                let later = next_time(event.clock, limit);
                self.go_on(code, event.number, reply, later);
                self.wake_all(code, later, spare, &mut event.partners);
                Ok(())
            }
            EventOutcome::Sleeps => {
                self.fall_asleep(event.number, &mut spare.rooms);
                Ok(())
            }
            EventOutcome::Panics(cause, _) => {
                self.stop(event.number, End::Panicked(*cause));
                Ok(())
            }
        }
    }

    /// The goroutine has ended.
    fn leave(&mut self, code: &Verified, limit: u64, event: &mut Event, states: &mut Vec<GoState>)
        requires asked { IsAsked code.now limit self.old event.old.number event.old.clock (request_of event.old.request) }
        requires end { request_of event.old.request ≡ EndRequest }
        requires alone { event.old.partners.items ≡ [] }
        requires fits { FitsCore code.now limit self.old }
        requires events { self.old.events < 2 ^ 62 }
        ensures performs { Performs code.now limit self.old event.old.number event.new (bytes_of event.new) self.new }
        ensures bytes { bytes_of event.new ≡ [] }
        ensures fits { FitsCore code.now limit self.new }
        ensures partners { event.new.partners.items ≡ [] }
    {
        let ended = self.take_out(event.number);
        keep_state(states, ended);
        event.outcome = EventOutcome::Done(Reply::Nothing);
    }

    /// The run ends so, by an exit, a panic or at the clock limit.
    fn end(&mut self, code: &Verified, limit: u64, event: &mut Event, end: End)
        requires asked { IsAsked code.now limit self.old event.old.number event.old.clock (request_of event.old.request) }
        requires last { IsLast (request_of event.old.request) (ended_as end) end }
        requires alone { event.old.partners.items ≡ [] }
        requires fits { FitsCore code.now limit self.old }
        requires events { self.old.events < 2 ^ 62 }
        ensures performs { Performs code.now limit self.old event.old.number event.new (bytes_of event.new) self.new }
        ensures bytes { bytes_of event.new ≡ [] }
        ensures fits { FitsCore code.now limit self.new }
        ensures partners { event.new.partners.items ≡ [] }
    {
        self.stop(event.number, end);
        event.outcome = outcome_at(end);
    }
}

impl Situation {
    /// Completes the request of goroutine `number`: it continues with this reply, at this clock.
    #[inline(always)]
    fn go_on(&mut self, code: &Verified, number: u64, reply: &Reply, later: Clock)
        requires frame { IfSome (slice_index_or self.old.rows number None) (λ row. IsFrameOf code.now row.state.state) }
        requires unlent { IsUnlent (slice_index_or self.old.rows number None) }
        requires events { self.old.events < 2 ^ 62 }
        ensures { self.new ≡ record self.old { rows = answered_rows code.now self.old.rows number later (reply_of reply.now); events = self.old.events + 1 } }
    {
        self.goroutines.answer(code, number, reply, later);
        self.events += 1;
    }

    /// Goroutine `number`'s request ends the run, and it stays as it was.
    fn stop(&mut self, number: u64, end: End)
        requires events { self.old.events < 2 ^ 62 }
        requires unlent { IsUnlent (slice_index_or self.old.rows number None) }
        ensures { self.new ≡ record self.old {
          rows = slice_set self.old.rows number (option_map (λ row. free_row row.state) (slice_index_or self.old.rows number None));
          events = self.old.events + 1;
          ending = Some end;
        } }
    {
        self.goroutines.stay(number);
        self.events += 1;
        self.ending = Some(end);
    }

    /// Ends goroutine `number`. Returns its state, whose memory another one may reuse.
    fn take_out(&mut self, number: u64) -> Option<GoState>
        requires { self.old.events < 2 ^ 62 }
        ensures { self.new ≡ record self.old { rows = slice_set self.old.rows number None; live = self.old.live - 1; events = self.old.events + 1 } }
    {
        let ended = self.goroutines.end(number);
        self.live = self.live.saturating_sub(1);
        self.events += 1;
        ended
    }

    /// A new goroutine in this state.
    fn add(&mut self, state: GoState) -> Result<(), Memory>
        requires { self.old.live < MAX_GOROUTINES }
        ensures ok { OnOk result (self.new ≡ record self.old { rows = self.old.rows ++ Some (free_row state) ∷ []; beds = self.old.beds ++ None ∷ []; live = self.old.live + 1 }) }
        ensures memory { OnErr result (self.new ≡ self.old) }
    {
        self.goroutines.start(state)?;
        self.live += 1;
        Ok(())
    }

    /// Performs a request to channels of the goroutine of this number, at this clock: writes the outcome to `outcome` and the woken
    /// goroutines to `woken`; none of them has its reply yet.
    fn ask(
        &mut self,
        actor: Key,
        request: &Request,
        outcome: &mut EventOutcome,
        woken: &mut Vec<Woken>,
    ) -> Result<(), Memory>
        requires { IsOfChannels (request_of request.now) }
        ensures does { OnOk result (DoesAt self.old.channels actor.number actor.clock (request_of request.now) (came outcome.new woken.new) self.new.channels) }
        ensures rest { self.new ≡ record self.old { channels = self.new.channels } }
        ensures memory { OnErr result (self.new ≡ self.old) }
    {
        select_core::meet(&mut self.channels, actor, request, outcome, woken)
    }

    /// Goroutine `number` falls asleep, and leaves its buffer to `rooms`.
    pub(crate) fn fall_asleep(&mut self, number: u64, rooms: &mut Vec<Room>)
        requires events { self.old.events < 2 ^ 62 }
        requires awake { IsSome (slice_index_or self.old.rows number None) }
        requires unlent { IsUnlent (slice_index_or self.old.rows number None) }
        requires quiet { IfSome (slice_index_or self.old.rows number None) (λ row. IsQuiet row.state.state) }
        ensures { self.new ≡ record self.old {
          rows = slice_set self.old.rows number None;
          beds = slice_set self.old.beds number (option_map (λ row. row.state) (slice_index_or self.old.rows number None));
          events = self.old.events + 1;
        } }
    {
        doze(&mut self.goroutines, rooms, number);
        self.events += 1;
    }

    /// Wakes the goroutines of `spare.woken` with their replies, at this clock, each with a buffer of `spare.rooms`, and appends their
    /// numbers to `partners`.
    fn wake_all(
        &mut self,
        code: &Verified,
        clock: Clock,
        spare: &mut Spare,
        partners: &mut Vec<u64>,
    )
        requires fits { (k : ℕ) → IfSome (slice_index_or self.old.beds k None) (λ s. IsFrameOf code.now s.state) }
        requires room { vec_len partners.old + length spare.old.woken.items ≤ vec_capacity partners.old }
        requires rooms { length spare.old.woken.items ≤ length spare.old.rooms.items }
        ensures core { self.new ≡ record self.old { rows = woken_rows code.now self.old.rows self.old.beds clock spare.old.woken.items; beds = left_beds self.old.beds spare.old.woken.items } }
        ensures numbers { partners.new.items ≡ partners.old.items ++ map (λ (w : ℕ × AnyReply). w.0) spare.old.woken.items }
    {
        wake(
            &mut self.goroutines,
            &mut spare.rooms,
            code,
            clock,
            spare.woken.as_slice(),
            partners,
        );
    }
}

/// Goroutine 1 at the beginning of `main`.
fn first_goroutine(alloc: Global, code: &Verified) -> Result<Goroutines, Memory>
    ensures rows { IfOk result (λ all. all.rows ≡ None ∷ Some (free_row (at 0 (code_begin code.now (code_kind code.now).main []))) ∷ []) }
    ensures beds { IfOk result (λ all. all.beds ≡ None ∷ None ∷ []) }
    ensures verified { IfOk result (λ _. IsVerified code.now) }
{
    let state = spawn_state(alloc, code, code.main(), &[], Clock::START)?;
    let mut goroutines = Goroutines::new(alloc);
    goroutines.skip()?;
    goroutines.start(state)?;
    Ok(goroutines)
}

/// The outcome of the request that ends the run so.
fn outcome_at(end: End) -> EventOutcome
    ensures { outcome_of result ≡ ended_as end }
{
    match end {
        End::Panicked(cause) => EventOutcome::Panics(cause, 0),
        End::Finished | End::Exhausted | End::Deadlock => EventOutcome::Done(Reply::Nothing),
    }
}

/// The clock one later.
pub(crate) fn next_time(clock: Clock, limit: u64) -> Clock
    requires below { clock < limit }
    requires last { limit ≤ 2 ^ 62 }
    ensures { result ≡ clock + 1 }
{
    Clock::at(clock.time() + 1)
}

/// How many offers of different goroutines a request meets at most: at least as many as the goroutines that it wakes.
#[tactic(auto, using(crate::proofs::Shapes::most_met))]
fn most_offered(channels: &Channels, request: &Request) -> usize
    ensures offers { result ≡ most_offered (request_of request.now) channels.now.asleep }
    ensures woken { most_woken (request_of request.now) channels.now.asleep ≤ result }
{
    match request {
        Request::Close(Some(chan)) => channels.offers_at(*chan).min(channels.asleep()),
        Request::Close(None) => 0,
        _ => 1,
    }
}
