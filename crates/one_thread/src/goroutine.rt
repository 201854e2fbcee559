//! A goroutine with its clock.

ghost use Rattle.std.specs.Prelude.{◌≡◌, ◌+◌, ◌==◌, ◌^◌, ◌≤◌, IfOk, IfSome, MatchOption, OnOk, false, true};
ghost use Rattle.word.specs.Kinds.{told};
ghost use Rattle.word.specs.Related.{kind_of};
ghost use Rattle.word.specs.Views.{reply_of};
ghost use Rattle.one_thread.specs.Steps.{Advances, asking};
ghost use Rattle.one_thread.specs.Places.{IsSoon, clocked};
ghost use Rattle.one_thread.specs.Progress.{FallsInTurn};

use crate::interpreter::{Interpreter, Step};
use go_text::Memory;
use logical_clock::{Clock, tick};
use std::alloc::Global;
use word::panic::Panic;
use word::request::{Reply, Request};

/// A goroutine: its clock, whether it was woken at its send by a close, whether it is asleep, and its state.
#[derive(Drop)]
pub struct Goroutine<S: Drop> {
    pub clock: Clock,
    pub doomed: bool,
    pub asleep: bool,
    pub state: S,
}

/// The outcome of a goroutine's turn.
#[derive(Drop)]
pub(crate) enum Turn {
    /// It made a step of its own that costs nothing.
    Slid,
    /// It made a step of its own that costs a tick.
    Ticked,
    /// It makes a request at this clock, which is below the limit.
    Asks(Request, Clock),
    /// It is at the clock limit.
    Exhausted,
}

/// A goroutine has its turn. At the limit its state is not used any more.
pub(crate) fn advance<P: Interpreter>(
    program: &P,
    alloc: Global,
    goroutine: &mut Goroutine<P::State>,
    limit: u64,
) -> Result<Turn, Memory>
    requires within { goroutine.old.clock ≤ limit }
    requires limit { limit ≤ 2 ^ 62 }
    ensures within { OnOk result (goroutine.new.clock ≤ limit) }
    ensures soon { IfOk result (IsSoon limit) }
    ensures turn { IfOk result (λ turn. Advances (kind_of (P.parts program.now)) limit turn (clocked (P.held program.now) goroutine.old) (clocked (P.held program.now) goroutine.new)) }
    ensures asleep { OnOk result (goroutine.new.asleep ≡ goroutine.old.asleep) }
    ensures falls { IfOk result (λ turn. FallsInTurn (λ state. P.weight program.now (P.held program.now state)) limit turn goroutine.old goroutine.new) }
{
    let later = later(goroutine.clock, limit);
    if goroutine.doomed {
        return Ok(asking(Request::Panic(Panic::SendOnClosed), goroutine.clock, later));
    }
    match program.step(alloc, &mut goroutine.state)? {
        Step::Slides => Ok(Turn::Slid),
        Step::Ticks => {
            let Some(clock) = later else {
                return Ok(Turn::Exhausted);
            };
            goroutine.clock = clock;
            Ok(Turn::Ticked)
        }
        Step::Asks(request) => Ok(asking(request, goroutine.clock, later)),
    }
}

/// The clock one later; none at the limit, which no clock is beyond.
fn later(clock: Clock, limit: u64) -> Option<Clock>
    requires clock { clock ≤ limit }
    requires limit { limit ≤ 2 ^ 62 }
    ensures { MatchOption result ((clock == limit) ≡ true) (λ later. ((clock == limit) ≡ false) × (later ≡ clock + 1) × (later ≤ limit)) }
{
    tick(clock, limit)
}

/// A request at this clock; at the limit, if there is no later clock, the goroutine is exhausted.
fn asking(request: Request, clock: Clock, later: Option<Clock>) -> Turn
    ensures turn { result ≡ asking request clock later }
    ensures soon { (limit : _) → IfSome later (λ later. (later ≡ clock + 1) × (later ≤ limit)) → IsSoon limit result }
{
    match later {
        Some(_) => Turn::Asks(request, clock),
        None => Turn::Exhausted,
    }
}

/// A goroutine that made a request, or was woken, gets `reply`, and goes on at `clock`.
pub(crate) fn tell<P: Interpreter>(
    program: &P,
    alloc: Global,
    goroutine: &mut Goroutine<P::State>,
    clock: Clock,
    reply: Reply,
) -> Result<(), Memory>
    ensures told { OnOk result (clocked (P.held program.now) goroutine.new ≡ told (kind_of (P.parts program.now)) (clocked (P.held program.now) goroutine.old) clock (reply_of reply)) }
    ensures awake { OnOk result (goroutine.new.asleep ≡ false) }
    ensures clock { OnOk result (goroutine.new.clock ≡ clock) }
{
    goroutine.clock = clock;
    goroutine.asleep = false;
    match &reply {
        Reply::Closed => {
            goroutine.doomed = true;
            Ok(())
        }
        _ => {
            goroutine.doomed = false;
            program.answer(alloc, &mut goroutine.state, reply)?;
            Ok(())
        }
    }
}
