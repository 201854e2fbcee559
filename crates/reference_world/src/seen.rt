//! Requests that are performed with their events.

ghost use Rattle.std.specs.Prelude.{◌≡◌, ℕ, ◌+◌, ◌<◌, ◌^◌, IfOk, None, OnOk, map};
ghost use Rattle.word.specs.Values.{Reply as AnyReply};
ghost use Rattle.word.specs.Views.{event_of, outcome_of, reply_of, request_of};
ghost use Rattle.reference_world.specs.Deeds.{Performs};
ghost use Rattle.reference_world.specs.Events.{came_of, event_by, meant_after, partners_of};

use crate::deed::{Deed, Woken};
use crate::shared::{Shared, asked};
use crate::sleeper::copy_of;
use go_text::Memory;
use logical_clock::Key;
use std::alloc::Global;
use word::request::{Case, Event, EventOutcome, Reply, Request};
use word::value::Item;

impl Shared {
    /// Like `perform`, but also returns the event, which has copies of the request and of the reply.
    ///
    /// Errors: out of memory.
    pub fn perform_seen(&mut self, actor: Key, request: Request) -> Result<(Deed, Event), Memory>
        requires { self.old.ending ≡ None }
        ensures performs { IfOk result (λ both. Performs self.old actor.number actor.clock (request_of request) both.0 self.new) }
        ensures event { IfOk result (λ both. event_of both.1 ≡ event_by actor.number actor.clock (meant_after self.old.events actor.number (request_of request)) self.new.made both.0) }
        ensures counts { OnOk result (self.new.events ≡ self.old.events + 1) }
        ensures room { OnOk result (self.new.ending ≡ None → self.new.events < 2 ^ 62) }
    {
        let Key { clock, number } = actor;
        let meant = self.meant(number, &request)?;
        let deed = self.perform(Key { clock, number }, request)?;
        let (alloc, made) = (self.alloc, self.made());
        let event = event_by(alloc, Key { clock, number }, meant, made, &deed)?;
        Ok((deed, event))
    }

    /// A copy of what goroutine `number`'s request means as the next event.
    fn meant(&self, number: u64, request: &Request) -> Result<Request, Memory>
        requires { self.now.ending ≡ None }
        ensures { IfOk result (λ meant. request_of meant ≡ meant_after self.now.events number (request_of request.now)) }
    {
        if self.is_next_last() {
            return Ok(Request::Exhausted);
        }
        let copy = copy_of_request(self.alloc, request)?;
        Ok(asked(number, copy))
    }
}

/// The event of the request of `actor` that `deed` came of, after which `made` goroutines have been made.
fn event_by(
    alloc: Global,
    actor: Key,
    request: Request,
    made: u64,
    deed: &Deed,
) -> Result<Event, Memory>
    ensures { IfOk result (λ event. event_of event ≡ event_by actor.number actor.clock (request_of request) made deed.now) }
{
    let partners = partners_of(alloc, made, deed)?;
    Ok(Event {
        clock: actor.clock,
        number: actor.number,
        request,
        outcome: came_of(deed),
        partners,
    })
}

/// What became of the request.
fn came_of(deed: &Deed) -> EventOutcome
    ensures { outcome_of result ≡ came_of deed.now }
{
    match deed {
        Deed::Done(reply, _) => EventOutcome::Done(copy_of_reply(reply)),
        Deed::Sleeps => EventOutcome::Sleeps,
        Deed::Panics(cause, clause) => EventOutcome::Panics(*cause, *clause),
        Deed::Prints(_) => EventOutcome::Done(Reply::Nothing),
        Deed::Starts(_, _) => EventOutcome::Done(Reply::Nothing),
        Deed::Leaves => EventOutcome::Done(Reply::Nothing),
        Deed::Ends(_) => EventOutcome::Done(Reply::Nothing),
    }
}

/// The numbers of the goroutines that were woken or started, the newest of which has the number `made`.
fn partners_of(alloc: Global, made: u64, deed: &Deed) -> Result<Vec<u64>, Memory>
    ensures { IfOk result (λ partners. partners.items ≡ partners_of made deed.now) }
{
    match deed {
        Deed::Done(_, woken) => numbers_of(alloc, woken.as_slice()),
        Deed::Starts(_, _) => {
            let mut partners = Vec::new(alloc);
            partners.push(made)?;
            Ok(partners)
        }
        _ => Ok(Vec::new(alloc)),
    }
}

/// The numbers of the goroutines that were woken.
fn numbers_of(alloc: Global, woken: &[Woken]) -> Result<Vec<u64>, Memory>
    ensures { IfOk result (λ numbers. numbers.items ≡ map (λ (x : ℕ × AnyReply). x.0) woken.now) }
{
    let mut numbers = Vec::new(alloc);
    for one in woken {
        numbers.push(one.number)?;
    }
    Ok(numbers)
}

/// A copy of the request.
fn copy_of_request(alloc: Global, request: &Request) -> Result<Request, Memory>
    ensures { IfOk result (λ copy. request_of copy ≡ request_of request.now) }
{
    match request {
        Request::Make(size, zero) => Ok(Request::Make(*size, zero.copy())),
        Request::Go(function, arguments) => {
            let arguments = Vec::from_slice(alloc, arguments.as_slice())?;
            Ok(Request::Go(*function, arguments))
        }
        Request::Send(chan, item) => Ok(Request::Send(*chan, item.copy())),
        Request::Receive(chan) => Ok(Request::Receive(*chan)),
        Request::Close(chan) => Ok(Request::Close(*chan)),
        Request::Select(cases, default) => {
            let cases = copy_of_cases(alloc, cases.as_slice())?;
            Ok(Request::Select(cases, *default))
        }
        Request::Len(chan) => Ok(Request::Len(*chan)),
        Request::Cap(chan) => Ok(Request::Cap(*chan)),
        Request::Print(bytes) => Ok(Request::Print(Vec::from_slice(alloc, bytes.as_slice())?)),
        Request::End => Ok(Request::End),
        Request::Exit => Ok(Request::Exit),
        Request::Panic(cause) => Ok(Request::Panic(*cause)),
        Request::Exhausted => Ok(Request::Exhausted),
    }
}

/// A copy of the clauses.
fn copy_of_cases(alloc: Global, cases: &[Case]) -> Result<Vec<Case>, Memory>
    ensures { IfOk result (λ copy. copy.items ≡ cases.now) }
{
    let mut copy = Vec::new(alloc);
    for case in cases {
        copy.push(Case {
            chan: case.chan,
            item: copy_of(&case.item),
        })?;
    }
    Ok(copy)
}

/// A copy of the reply.
fn copy_of_reply(reply: &Reply) -> Reply
    ensures { reply_of result ≡ reply_of reply.now }
{
    match reply {
        Reply::Nothing => Reply::Nothing,
        Reply::Word(word) => Reply::Word(*word),
        Reply::Received(item, ok) => Reply::Received(item.copy(), *ok),
        Reply::Clause(clause, received) => Reply::Clause(*clause, copy_of_received(received)),
        Reply::Default => Reply::Default,
        Reply::Closed => Reply::Closed,
    }
}

/// A copy of what a clause received.
fn copy_of_received(received: &Option<(Item, bool)>) -> Option<(Item, bool)>
    ensures { result ≡ received.now }
{
    match received {
        Some((item, ok)) => Some((item.copy(), *ok)),
        None => None,
    }
}
