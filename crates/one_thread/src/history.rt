//! A run that is made event after event.

ghost use Rattle.std.specs.Prelude.{◌≡◌, ◌+◌, ◌<◌, ◌^◌, ◌≤◌, [], IfNone, IfOk, IfSome, IsSome, None, OnOk, Some, slice_index_or};
ghost use Rattle.logical_clock.specs.Order.{keys, least};
ghost use Rattle.reference_world.specs.Deeds.{opened};
ghost use Rattle.word.specs.Related.{kind_of};
ghost use Rattle.word.specs.Views.{request_of};
ghost use Rattle.one_thread.specs.Histories.{Adds, Counts, HasHad, IsReady};
ghost use Rattle.one_thread.specs.Places.{clock_of};
ghost use Rattle.one_thread.specs.Progress.{EventSeenFalls, SeenFalls, TickSeenFalls, event_in, left_in};
ghost use Rattle.one_thread.specs.Snapshots.{StaysBefore};
ghost use Rattle.one_thread.specs.Worlds.{IsAsked};

use crate::goroutine::{Goroutine, Turn};
use crate::interpreter::Interpreter;
use crate::move_kind::MoveSeen;
use crate::places::{Places, advance_at};
use crate::running::{apply, opening};
use crate::snapshot::{Until, is_reached};
use go_text::Memory;
use logical_clock::{Clock, Key};
use reference_world::Shared;
use std::alloc::Global;
use std::marker::Model;
use word::end::End;
use word::request::{Event, Request};

/// A run that was begun: the state of all goroutines after some of its events, and how it has ended, if it has.
pub struct OpenRun<S: Drop> {
    pub(crate) goroutines: Places<S>,
    pub(crate) shared: Shared,
    /// The last logical time that a goroutine reaches.
    limit: u64,
    pub(crate) end: Option<End>,
}

impl<S: Drop> Drop for OpenRun<S> {
    fn drop(self) {
        let OpenRun {
            goroutines,
            shared,
            limit: _,
            end: _,
        } = self;
        drop(goroutines);
        drop(shared);
    }
}

impl<S: Drop> Model for OpenRun<S> {
    ghost use Rattle.one_thread.specs.Histories.{OpenValue};

    ghost Value = { OpenValue S };

    ghost view = { λ r. record { places = r.goroutines; shared = r.shared; limit = r.limit; end = r.end } };
}

impl<S: Drop> OpenRun<S> {
    /// How the run has ended, if it has.
    pub fn end(&self) -> Option<End>
        ensures { result ≡ self.now.end }
    {
        self.end
    }

    /// How the run has ended, if it is known that it has.
    pub fn ending(&self) -> End
        requires { IsSome self.now.end }
        ensures { self.now.end ≡ Some result }
    {
        match self.end {
            Some(end) => end,
            None => unreachable!(),
        }
    }

    /// Goroutine `number`, if it has not ended. In a run whose time is exhausted nothing is claimed about it.
    pub fn goroutine(&self, number: u64) -> Option<&Goroutine<S>>
        ensures none { IfNone result (slice_index_or self.now.places number None ≡ None) }
        ensures some { IfSome result (λ goroutine. slice_index_or self.now.places number None ≡ Some goroutine.now) }
    {
        self.goroutines.get(number as usize)
    }

    /// All goroutines, goroutine n at index n, and what they share.
    pub(crate) fn into_parts(self) -> (Vec<Option<Goroutine<S>>>, Shared)
        ensures goroutines { result.0.items ≡ self.places }
        ensures shared { result.1 ≡ self.shared }
    {
        let OpenRun {
            goroutines,
            shared,
            limit: _,
            end: _,
        } = self;
        (goroutines.into_all(), shared)
    }
}

/// Goroutine 1 at `main`, in a run up to this clock limit.
pub fn open_run<P: Interpreter>(
    alloc: Global,
    program: &P,
    limit: u64,
) -> Result<OpenRun<P::State>, Memory>
    requires { limit ≤ 2 ^ 62 }
    ensures ready { IfOk result IsReady }
    ensures after { IfOk result (λ run. HasHad (kind_of (P.parts program.now)) (P.held program.now) run [] []) }
    ensures limit { IfOk result (λ run. run.limit ≡ limit) }
    ensures goes { IfOk result (λ run. run.end ≡ None) }
    ensures shared { IfOk result (λ run. run.shared ≡ opened) }
{
    let goroutines = opening(alloc, program)?;
    let shared = Shared::new(alloc)?;
    Ok(OpenRun {
        goroutines,
        shared,
        limit,
        end: None,
    })
}

/// Makes the moves of a run up to its next event and with it, and returns that event; none if the run has ended without one. The run
/// has ended then, and it may have ended with an event.
///
/// Errors: out of memory. The run can't go on then.
pub fn next_event<P: Interpreter>(
    alloc: Global,
    program: &P,
    run: &mut OpenRun<P::State>,
) -> Result<Option<Event>, Memory>
    requires { IsReady run.old }
    ensures ready { OnOk result (IsReady run.new) }
    ensures adds { IfOk result (λ found. Adds (kind_of (P.parts program.now)) (P.held program.now) run.old found run.new) }
    ensures ended { IfOk result (λ found. IfNone found (IsSome run.new.end)) }
    ensures limit { OnOk result (run.new.limit ≡ run.old.limit) }
    ensures falls { IfOk result (λ found. IfSome found (λ _. left_in run.new < left_in run.old)) }
{
    if run.end.is_some() {
        return Ok(None);
    }
    event_before(alloc, program, run, None)
}

/// Makes the moves of a run that goes on up to its next event and with it, and returns that event; none if the run has ended without
/// one, or has come as far as `until` without one.
pub(crate) fn event_before<P: Interpreter>(
    alloc: Global,
    program: &P,
    run: &mut OpenRun<P::State>,
    until: Option<Until>,
) -> Result<Option<Event>, Memory>
    requires ready { IsReady run.old }
    requires goes { run.old.end ≡ None }
    ensures ready { OnOk result (IsReady run.new) }
    ensures adds { IfOk result (λ found. Adds (kind_of (P.parts program.now)) (P.held program.now) run.old found run.new) }
    ensures limit { OnOk result (run.new.limit ≡ run.old.limit) }
    ensures falls { IfOk result (λ found. EventSeenFalls until found run.old run.new) }
    ensures stays { IfOk result (λ found. StaysBefore until run.old.shared found run.new.shared) }
{
    // Each tick leaves its goroutine fewer of them up to the limit.
    'ticks: loop {
        let made = tick_before(alloc, program, run, until)?;
        if !made.is_tick() {
            return Ok(made.event());
        }
    }
}

/// Makes the moves of a run that goes on up to one that is no slide, which is returned; none if the run has ended, or has come as far
/// as `until`.
fn tick_before<P: Interpreter>(
    alloc: Global,
    program: &P,
    run: &mut OpenRun<P::State>,
    until: Option<Until>,
) -> Result<MoveSeen, Memory>
    requires ready { IsReady run.old }
    requires goes { run.old.end ≡ None }
    ensures ready { OnOk result (IsReady run.new) }
    ensures adds { IfOk result (λ made. Adds (kind_of (P.parts program.now)) (P.held program.now) run.old (event_in made) run.new) }
    ensures limit { OnOk result (run.new.limit ≡ run.old.limit) }
    ensures falls { IfOk result (λ made. TickSeenFalls until made run.old run.new) }
    ensures stays { IfOk result (λ made. StaysBefore until run.old.shared (event_in made) run.new.shared) }
{
    // After each slide the goroutines' states weigh less.
    'slides: loop {
        let made = make_move(alloc, program, run, until)?;
        if !made.is_slide() {
            return Ok(made);
        }
    }
}

/// Makes the next move of a run that goes on; none if no goroutine is awake, with which the run ends, or it has come as far as `until`.
fn make_move<P: Interpreter>(
    alloc: Global,
    program: &P,
    run: &mut OpenRun<P::State>,
    until: Option<Until>,
) -> Result<MoveSeen, Memory>
    requires ready { IsReady run.old }
    requires goes { run.old.end ≡ None }
    ensures ready { OnOk result (IsReady run.new) }
    ensures adds { IfOk result (λ made. Adds (kind_of (P.parts program.now)) (P.held program.now) run.old (event_in made) run.new) }
    ensures limit { OnOk result (run.new.limit ≡ run.old.limit) }
    ensures falls { IfOk result (λ made. SeenFalls (λ state. P.weight program.now (P.held program.now state)) until made run.old run.new) }
    ensures stays { IfOk result (λ made. StaysBefore until run.old.shared (event_in made) run.new.shared) }
{
    let Some(turn) = run.goroutines.least() else {
        run.end = Some(End::Deadlock);
        return Ok(MoveSeen::Nothing);
    };
    if is_reached(until, run.shared.events(), &turn) {
        return Ok(MoveSeen::Nothing);
    }
    take_turn(alloc, program, run, turn)
}

/// Makes the move of the goroutine whose turn it is.
fn take_turn<P: Interpreter>(
    alloc: Global,
    program: &P,
    run: &mut OpenRun<P::State>,
    turn: Key,
) -> Result<MoveSeen, Memory>
    requires ready { IsReady run.old }
    requires goes { run.old.end ≡ None }
    requires turn { least (keys clock_of 0 run.old.places) ≡ Some turn }
    ensures ready { OnOk result (IsReady run.new) }
    ensures adds { IfOk result (λ made. Adds (kind_of (P.parts program.now)) (P.held program.now) run.old (event_in made) run.new) }
    ensures counts { IfOk result (λ made. Counts turn.clock run.old.shared (event_in made) run.new.shared) }
    ensures limit { OnOk result (run.new.limit ≡ run.old.limit) }
    ensures falls { IfOk result (λ made. SeenFalls (λ state. P.weight program.now (P.held program.now state)) None made run.old run.new) }
{
    let place = turn.number as usize;
    match advance_at(program, alloc, &mut run.goroutines, place, run.limit)? {
        Turn::Slid => Ok(MoveSeen::Slide),
        Turn::Ticked => Ok(MoveSeen::Tick),
        Turn::Exhausted => {
            let (_, event) = run.shared.perform_seen(turn, Request::Exhausted)?;
            run.end = Some(End::Exhausted);
            Ok(MoveSeen::Event(event))
        }
        Turn::Asks(request, clock) => {
            let event = make_request(alloc, program, run, place, clock, request)?;
            Ok(MoveSeen::Event(event))
        }
    }
}

/// Performs the request that the goroutine at `place`, whose turn it is, makes at this clock, and returns the event.
fn make_request<P: Interpreter>(
    alloc: Global,
    program: &P,
    run: &mut OpenRun<P::State>,
    place: usize,
    clock: Clock,
    request: Request,
) -> Result<Event, Memory>
    requires ready { IsReady run.old }
    requires goes { run.old.end ≡ None }
    requires soon { clock + 1 ≤ run.old.limit }
    ensures ready { OnOk result (IsReady run.new) }
    ensures adds { IfOk result (λ event. IsAsked (kind_of (P.parts program.now)) (P.held program.now) run.old.limit run.old.places place clock (request_of request) → Adds (kind_of (P.parts program.now)) (P.held program.now) run.old (Some event) run.new) }
    ensures counts { IfOk result (λ event. Counts clock run.old.shared (Some event) run.new.shared) }
    ensures limit { OnOk result (run.new.limit ≡ run.old.limit) }
    ensures room { OnOk result (run.new.end ≡ None → run.new.shared.events < 2 ^ 62) }
{
    let actor = Key {
        clock,
        number: place as u64,
    };
    let (deed, event) = run.shared.perform_seen(actor, request)?;
    let later = Clock::at(clock.time() + 1);
    apply(alloc, program, &mut run.goroutines, place, later, deed)?;
    run.end = run.shared.ending();
    Ok(event)
}
