//! What all goroutines share.

ghost use Rattle.std.specs.Prelude.{◌≡◌, ◌==◌, ℕ, ◌+◌, ◌-◌, ◌<◌, ◌≤◌, ◌^◌, IfOk, None, OnOk};
ghost use Rattle.word.specs.Requests.{asked};
ghost use Rattle.word.specs.Views.{request_of};
ghost use Rattle.word.specs.Values.{Go};
ghost use Rattle.reference_world.specs.Deeds.{Acts, IsTold, Performs, ending_of, opened};

use crate::channel::Channel;
use crate::deed::Deed;
use crate::meeting::Meeting;
use crate::sleeper::Sleeper;
use go_text::Memory;
use logical_clock::limits::MAX_GOROUTINES;
use logical_clock::{Key, LAST};
use std::alloc::Global;
use std::marker::Model;
use word::end::End;
use word::panic::Panic;
use word::request::{Reply, Request};
use word::value::Word;

/// What all goroutines share: the channels, the goroutines that sleep at them, counts, and how the run ended.
pub struct Shared {
    pub(crate) alloc: Global,
    meeting: Meeting,
    /// How many goroutines are awake or asleep.
    live: u64,
    /// How many goroutines were made; they have the numbers from 1 to this one.
    made: u64,
    /// How many requests were performed.
    events: u64,
    ending: Option<End>,
}

impl Drop for Shared {
    fn drop(self) {
        let Shared {
            alloc: _,
            meeting,
            live: _,
            made: _,
            events: _,
            ending: _,
        } = self;
        drop(meeting);
    }
}

impl Model for Shared {
    ghost use Rattle.reference_world.specs.Deeds.{SharedValue, IsCounted};

    ghost Value = { SharedValue };

    ghost view = { λ s. record { meeting = s.meeting; live = s.live; made = s.made; events = s.events; ending = s.ending } };

    ghost invariant = { λ s. IsCounted s.live s.made s.events s.ending };
}

impl Shared {
    /// Goroutine 1 alone, and no channels.
    pub fn new(alloc: Global) -> Result<Shared, Memory>
        ensures { IfOk result (λ shared. shared ≡ opened) }
    {
        Ok(Shared {
            alloc,
            meeting: Meeting::new(alloc)?,
            live: 1,
            made: 1,
            events: 0,
            ending: None,
        })
    }

    /// The end of the run, if a request ended it.
    pub fn ending(&self) -> Option<End>
        ensures { result ≡ self.now.ending }
    {
        self.ending
    }

    /// How many requests were performed.
    pub fn events(&self) -> u64
        ensures { result ≡ self.now.events }
    {
        self.events
    }

    /// Whether the next request is number 2^62, which ends the run.
    pub(crate) fn is_next_last(&self) -> bool
        requires { self.now.ending ≡ None }
        ensures { result ≡ (self.now.events + 1 == 2 ^ 62) }
    {
        self.events + 1 == LAST
    }

    /// How many goroutines were made; they have the numbers from 1 to this one.
    pub(crate) fn made(&self) -> u64
        ensures { result ≡ self.now.made }
    {
        self.made
    }

    /// The goroutines that are asleep, in the order in which they fell asleep.
    pub fn sleepers(&self) -> &[Sleeper]
        ensures { result.now ≡ self.now.meeting.asleep }
    {
        self.meeting.sleepers()
    }

    /// The channels: channel c is at index c, and index 0 is no channel's.
    pub fn channels(&self) -> &[Channel]
        ensures { result.now ≡ self.now.meeting.channels }
    {
        self.meeting.all_channels()
    }

    /// Performs a request of the awake goroutine that `actor` names, at its clock. A return of goroutine 1 ends the run, and so
    /// does request number 2^62, whatever it is. After an error the run can't go on, and nothing is claimed about what is shared.
    pub fn perform(&mut self, actor: Key, request: Request) -> Result<Deed, Memory>
        requires { self.old.ending ≡ None }
        ensures performs { IfOk result (λ deed. Performs self.old actor.number actor.clock (request_of request) deed self.new) }
        ensures counted { OnOk result (self.new.events ≡ self.old.events + 1) }
        ensures room { OnOk result (self.new.ending ≡ None → self.new.events < 2 ^ 62) }
    {
        self.events += 1;
        if self.events == LAST {
            self.ending = Some(End::Exhausted);
            return Ok(Deed::Ends(End::Exhausted));
        }
        let deed = self.act(actor, asked(actor.number, request))?;
        self.ending = ending_of(&deed);
        Ok(deed)
    }

    /// Does a request, which is counted already.
    fn act(&mut self, actor: Key, request: Request) -> Result<Deed, Memory>
        requires made { self.old.made ≤ self.old.events }
        requires events { self.old.events < 2 ^ 62 }
        ensures acts { IfOk result (λ deed. Acts self.old actor.number actor.clock (request_of request) deed self.new) }
        ensures events { OnOk result (self.new.events ≡ self.old.events) }
        ensures ending { OnOk result (self.new.ending ≡ self.old.ending) }
    {
        let number = actor.number;
        match request {
            Request::Make(size, zero) => self.meeting.make(size, zero),
            Request::Go(function, arguments) => Ok(self.start(function, arguments)),
            Request::Send(chan, item) => self.meeting.send(number, chan, item),
            Request::Receive(chan) => self.meeting.receive(number, chan),
            Request::Close(chan) => self.meeting.close(chan),
            Request::Select(cases, default) => self.meeting.select(actor, cases, default),
            Request::Len(chan) => Ok(self.tell(self.meeting.len(chan))),
            Request::Cap(chan) => Ok(self.tell(self.meeting.capacity(chan))),
            Request::Print(bytes) => Ok(Deed::Prints(bytes)),
            Request::End => Ok(self.leave()),
            Request::Exit => Ok(Deed::Ends(End::Finished)),
            Request::Panic(cause) => Ok(Deed::Panics(cause, 0)),
            Request::Exhausted => Ok(Deed::Ends(End::Exhausted)),
        }
    }

    /// A new goroutine (Go: Go statements). It panics if 16,384 are awake or asleep.
    fn start(&mut self, function: u32, arguments: Vec<Word>) -> Deed
        requires made { self.old.made ≤ self.old.events }
        requires events { self.old.events < 2 ^ 62 }
        ensures acts { (n c : ℕ) → Acts self.old n c (Go function arguments.items) result self.new }
        ensures events { self.new.events ≡ self.old.events }
        ensures ending { self.new.ending ≡ self.old.ending }
    {
        if self.live == MAX_GOROUTINES {
            return Deed::Panics(Panic::TooManyGoroutines, 0);
        }
        self.live += 1;
        self.made += 1;
        Deed::Starts(function, arguments)
    }

    /// A goroutine has ended.
    fn leave(&mut self) -> Deed
        ensures deed { result ≡ Deed.Leaves }
        ensures alive { self.new ≡ record self.old { live = self.old.live - 1 } }
    {
        self.live = self.live.saturating_sub(1);
        Deed::Leaves
    }

    /// The outcome of a request whose reply is `number`.
    fn tell(&self, number: i64) -> Deed
        ensures { IsTold result number }
    {
        Deed::Done(Reply::Word(Word::Int(number)), Vec::new(self.alloc))
    }
}

/// What goroutine `number`'s request means: a return of goroutine 1 ends the run.
pub(crate) fn asked(number: u64, request: Request) -> Request
    ensures { request_of result ≡ asked number (request_of request) }
{
    match request {
        Request::End if number == 1 => Request::Exit,
        other => other,
    }
}

/// The end of the run, if this deed ends it.
fn ending_of(deed: &Deed) -> Option<End>
    ensures { result ≡ ending_of deed.now }
{
    match deed {
        Deed::Panics(cause, _) => Some(End::Panicked(*cause)),
        Deed::Ends(end) => Some(*end),
        _ => None,
    }
}
