//! The run.

ghost use Rattle.std.specs.Prelude.{◌≡◌, ◌⊎◌, ◌↔◌, ◌+◌, ◌<◌, ◌^◌, ◌≤◌, ℕ, IfErr, IfOk, IsErr, IsErrOf, List, None, OnOk, Option, Some, take, true};
ghost use Rattle.std.specs.Io.KnownBytes.{Appends};
ghost use Rattle.word.specs.Kinds.{Clocked};
ghost use Rattle.word.specs.Related.{kind_of};
ghost use Rattle.word.specs.Values.{Request as AnyRequest};
ghost use Rattle.word.specs.Views.{request_of};
ghost use Rattle.word.specs.Worlds.{moment};
ghost use Rattle.one_thread.specs.Places.{AreWithin, awake_of, here};
ghost use Rattle.one_thread.specs.Progress.{EventFalls, MoveFalls, TickFalls, ending_in, events_left};
ghost use Rattle.one_thread.specs.Worlds.{Applies, Goes, IsAsked, IsOpen, IsWorldOf, Stands, printed};
ghost use Rattle.whole_run.specs.Runs.{BeginsOutput, IsLimit, IsWhole};

use crate::goroutine::{Goroutine, Turn};
use crate::interpreter::Interpreter;
use crate::move_kind::Move;
use crate::places::{Places, advance_at, tell_at, wake_all};
use go_text::{Fault, Memory};
use logical_clock::{Clock, Key};
use reference_world::{Deed, Shared};
use std::alloc::Global;
use word::end::End;
use word::request::{Reply, Request};
use word::{Write, write_all};

/// Runs goroutine 1 at `main`, and all that it starts, up to the clock limit (1 to 2^62 steps), and returns how the run
/// ended. What is written begins the output of the one-thread run; at an end it is all of it.
///
/// Errors: `BadLimit`; `Write`; `Memory`.
pub fn run<P: Interpreter, W: Write>(
    alloc: Global,
    program: &P,
    limit: u64,
    output: &mut W,
) -> Result<End, Fault>
    ensures limit { IsErrOf result Fault.BadLimit ↔ (IsLimit limit → ⊥) }
    ensures nothing { IsErrOf result Fault.BadLimit → W.contents output.new ≡ W.contents output.old }
    ensures begins { BeginsOutput (kind_of (P.parts program.now)) limit (W.contents output.old) (W.contents output.new) }
    ensures whole { IfOk result (λ end. IsWhole (kind_of (P.parts program.now)) limit (W.contents output.old) (W.contents output.new) end) }
    ensures write { IsErrOf result Fault.Write → W.has_failed output.new ≡ true }
    ensures only { IfErr result (λ fault. (fault ≡ Fault.Memory) ⊎ ((fault ≡ Fault.Write) ⊎ (fault ≡ Fault.BadLimit))) }
{
    if limit < 1 || limit > 1 << 62 {
        return Err(Fault::BadLimit);
    }
    let end = run_below(alloc, program, limit, output)?;
    Ok(end)
}

/// Like `run`, at a limit that is not too high.
fn run_below<P: Interpreter, W: Write>(
    alloc: Global,
    program: &P,
    limit: u64,
    output: &mut W,
) -> Result<End, Fault>
    requires { limit ≤ 2 ^ 62 }
    ensures begins { BeginsOutput (kind_of (P.parts program.now)) limit (W.contents output.old) (W.contents output.new) }
    ensures whole { IfOk result (λ end. IsWhole (kind_of (P.parts program.now)) limit (W.contents output.old) (W.contents output.new) end) }
    ensures write { IsErrOf result Fault.Write → W.has_failed output.new ≡ true }
    ensures only { IfErr result (λ fault. (fault ≡ Fault.Memory) ⊎ (fault ≡ Fault.Write)) }
{
    let mut places = opening(alloc, program)?;
    let mut shared = Shared::new(alloc)?;
    // Each event leaves fewer of the 2^62 that a run can have.
    'events: loop {
        if let Some(end) = next_event(alloc, program, &mut places, &mut shared, limit, output)? {
            return Ok(end);
        }
    }
}

/// Goroutine 1 alone, at `main`.
pub(crate) fn opening<P: Interpreter>(
    alloc: Global,
    program: &P,
) -> Result<Places<P::State>, Memory>
    ensures within { (limit : ℕ) → IfOk result (AreWithin limit) }
    ensures open { IfOk result (IsOpen (kind_of (P.parts program.now)) (P.held program.now)) }
{
    let state = program.begin(alloc, program.main(), [].as_slice())?;
    let mut places = Places::new(alloc)?;
    places.start(Goroutine {
        clock: Clock::START,
        doomed: false,
        asleep: false,
        state,
    })?;
    Ok(places)
}

/// Makes moves up to a request that is performed, or to the end of the run, which is returned.
fn next_event<P: Interpreter, W: Write>(
    alloc: Global,
    program: &P,
    places: &mut Places<P::State>,
    shared: &mut Shared,
    limit: u64,
    output: &mut W,
) -> Result<Option<End>, Fault>
    requires going { shared.old.ending ≡ None }
    requires within { AreWithin limit places.old }
    requires limit { limit ≤ 2 ^ 62 }
    ensures within { OnOk result (AreWithin limit places.new) }
    ensures goes { IfOk result (λ ending. (known : Option (List ℕ)) → Stands (kind_of (P.parts program.now)) (P.held program.now) limit known (W.contents output.old) places.old shared.old → Goes (kind_of (P.parts program.now)) (P.held program.now) limit known (W.contents output.new) places.new shared.new ending) }
    ensures begins { (known : Option (List ℕ)) → Stands (kind_of (P.parts program.now)) (P.held program.now) limit known (W.contents output.old) places.old shared.old → BeginsOutput (kind_of (P.parts program.now)) limit known (W.contents output.new) }
    ensures going { IfOk result (λ ending. ending ≡ None → shared.new.ending ≡ None) }
    ensures falls { IfOk result (λ ending. ending ≡ None → events_left shared.new < events_left shared.old) }
    ensures write { IsErrOf result Fault.Write → W.has_failed output.new ≡ true }
    ensures only { IfErr result (λ fault. (fault ≡ Fault.Memory) ⊎ (fault ≡ Fault.Write)) }
{
    // Each tick leaves its goroutine fewer of them up to the limit.
    'ticks: loop {
        let made = next_tick(alloc, program, places, shared, limit, output)?;
        if !made.is_tick() {
            return Ok(made.ending());
        }
    }
}

/// Makes moves up to one that is no slide, which is returned.
fn next_tick<P: Interpreter, W: Write>(
    alloc: Global,
    program: &P,
    places: &mut Places<P::State>,
    shared: &mut Shared,
    limit: u64,
    output: &mut W,
) -> Result<Move, Fault>
    requires going { shared.old.ending ≡ None }
    requires within { AreWithin limit places.old }
    requires limit { limit ≤ 2 ^ 62 }
    ensures within { OnOk result (AreWithin limit places.new) }
    ensures goes { IfOk result (λ made. (known : Option (List ℕ)) → Stands (kind_of (P.parts program.now)) (P.held program.now) limit known (W.contents output.old) places.old shared.old → Goes (kind_of (P.parts program.now)) (P.held program.now) limit known (W.contents output.new) places.new shared.new (ending_in made)) }
    ensures begins { (known : Option (List ℕ)) → Stands (kind_of (P.parts program.now)) (P.held program.now) limit known (W.contents output.old) places.old shared.old → BeginsOutput (kind_of (P.parts program.now)) limit known (W.contents output.new) }
    ensures going { IfOk result (λ made. ending_in made ≡ None → shared.new.ending ≡ None) }
    ensures falls { IfOk result (λ made. TickFalls limit made places.old shared.old places.new shared.new) }
    ensures write { IsErrOf result Fault.Write → W.has_failed output.new ≡ true }
    ensures only { IfErr result (λ fault. (fault ≡ Fault.Memory) ⊎ (fault ≡ Fault.Write)) }
{
    // After each slide the goroutines' states weigh less.
    'slides: loop {
        let made = one_move(alloc, program, places, shared, limit, output)?;
        if !made.is_slide() {
            return Ok(made);
        }
    }
}

/// Makes one move.
pub(crate) fn one_move<P: Interpreter, W: Write>(
    alloc: Global,
    program: &P,
    places: &mut Places<P::State>,
    shared: &mut Shared,
    limit: u64,
    output: &mut W,
) -> Result<Move, Fault>
    requires going { shared.old.ending ≡ None }
    requires within { AreWithin limit places.old }
    requires limit { limit ≤ 2 ^ 62 }
    ensures within { OnOk result (AreWithin limit places.new) }
    ensures goes { IfOk result (λ made. (known : Option (List ℕ)) → Stands (kind_of (P.parts program.now)) (P.held program.now) limit known (W.contents output.old) places.old shared.old → Goes (kind_of (P.parts program.now)) (P.held program.now) limit known (W.contents output.new) places.new shared.new (ending_in made)) }
    ensures begins { (known : Option (List ℕ)) → Stands (kind_of (P.parts program.now)) (P.held program.now) limit known (W.contents output.old) places.old shared.old → BeginsOutput (kind_of (P.parts program.now)) limit known (W.contents output.new) }
    ensures going { IfOk result (λ made. ending_in made ≡ None → shared.new.ending ≡ None) }
    ensures falls { IfOk result (λ made. MoveFalls (λ state. P.weight program.now (P.held program.now state)) limit made places.old shared.old places.new shared.new) }
    ensures moves { IfOk result (λ made. (m : ℕ) → IsWorldOf (kind_of (P.parts program.now)) (P.held program.now) (moment (kind_of (P.parts program.now)) limit m) places.old shared.old → ending_in made ≡ None → IsWorldOf (kind_of (P.parts program.now)) (P.held program.now) (moment (kind_of (P.parts program.now)) limit (m + 1)) places.new shared.new) }
    ensures write { IsErrOf result Fault.Write → W.has_failed output.new ≡ true }
    ensures only { IfErr result (λ fault. (fault ≡ Fault.Memory) ⊎ (fault ≡ Fault.Write)) }
{
    let Some(key) = places.least() else {
        return Ok(Move::Last(End::Deadlock));
    };
    let place = key.number as usize;
    match advance_at(program, alloc, places, place, limit)? {
        Turn::Slid => Ok(Move::Slide),
        Turn::Ticked => Ok(Move::Tick),
        Turn::Exhausted => Ok(Move::Last(End::Exhausted)),
        Turn::Asks(request, clock) => {
            perform(
                alloc, program, places, shared, place, clock, request, output,
            )
        }
    }
}

/// Performs the request that the goroutine at `place`, whose turn it is, makes at this clock.
fn perform<P: Interpreter, W: Write>(
    alloc: Global,
    program: &P,
    places: &mut Places<P::State>,
    shared: &mut Shared,
    place: usize,
    clock: Clock,
    request: Request,
    output: &mut W,
) -> Result<Move, Fault>
    requires going { shared.old.ending ≡ None }
    requires last { clock < 2 ^ 62 }
    ensures within { OnOk result ((limit : ℕ) → clock + 1 ≤ limit → AreWithin limit places.old → AreWithin limit places.new) }
    ensures goes { IfOk result (λ made. (limit : ℕ) (known : Option (List ℕ)) → IsAsked (kind_of (P.parts program.now)) (P.held program.now) limit places.old place clock (request_of request) → Stands (kind_of (P.parts program.now)) (P.held program.now) limit known (W.contents output.old) places.old shared.old → Goes (kind_of (P.parts program.now)) (P.held program.now) limit known (W.contents output.new) places.new shared.new (ending_in made)) }
    ensures begins { (limit : ℕ) (known : Option (List ℕ)) → IsAsked (kind_of (P.parts program.now)) (P.held program.now) limit places.old place clock (request_of request) → Stands (kind_of (P.parts program.now)) (P.held program.now) limit known (W.contents output.old) places.old shared.old → BeginsOutput (kind_of (P.parts program.now)) limit known (W.contents output.new) }
    ensures going { IfOk result (λ made. ending_in made ≡ None → shared.new.ending ≡ None) }
    ensures falls { IfOk result (λ made. EventFalls made shared.old shared.new) }
    ensures moves { IfOk result (λ made. (limit m : ℕ) → IsAsked (kind_of (P.parts program.now)) (P.held program.now) limit places.old place clock (request_of request) → IsWorldOf (kind_of (P.parts program.now)) (P.held program.now) (moment (kind_of (P.parts program.now)) limit m) places.old shared.old → ending_in made ≡ None → IsWorldOf (kind_of (P.parts program.now)) (P.held program.now) (moment (kind_of (P.parts program.now)) limit (m + 1)) places.new shared.new) }
    ensures write { IsErrOf result Fault.Write → W.has_failed output.new ≡ true }
    ensures only { IfErr result (λ fault. (fault ≡ Fault.Memory) ⊎ (fault ≡ Fault.Write)) }
{
    let actor = Key {
        clock,
        number: place as u64,
    };
    let deed = shared.perform(actor, request)?;
    print(&deed, output)?;
    let later = Clock::at(clock.time() + 1);
    apply(alloc, program, places, place, later, deed)?;
    Ok(Move::performed(shared.ending()))
}

/// Writes what a deed prints.
fn print<W: Write>(deed: &Deed, output: &mut W) -> Result<(), Fault>
    ensures ok { OnOk result (Appends (W.contents output.old) (W.contents output.new) (printed deed.now)) }
    ensures err { IsErr result → (k : ℕ) × Appends (W.contents output.old) (W.contents output.new) (take k (printed deed.now)) }
    ensures write { IsErr result → W.has_failed output.new ≡ true }
    ensures only { IfErr result (λ fault. fault ≡ Fault.Write) }
{
    let Deed::Prints(bytes) = deed else {
        return Ok(());
    };
    match write_all(output, bytes.as_slice()) {
        Ok(()) => Ok(()),
        Err(_) => Err(Fault::Write),
    }
}

/// Applies the outcome of a request to the goroutines: its actor is at `place`, and those that go on are at clock `later`.
pub(crate) fn apply<P: Interpreter>(
    alloc: Global,
    program: &P,
    places: &mut Places<P::State>,
    place: usize,
    later: Clock,
    deed: Deed,
) -> Result<(), Memory>
    ensures within { OnOk result ((limit : ℕ) → later ≤ limit → AreWithin limit places.old → AreWithin limit places.new) }
    ensures applies { OnOk result ((s : Clocked P.Held) → here (awake_of (P.held program.now)) places.old place ≡ Some s → Applies (kind_of (P.parts program.now)) (P.held program.now) later place s deed places.old places.new) }
{
    match deed {
        Deed::Done(reply, woken) => {
            tell_at(program, alloc, places, place, later, reply)?;
            wake_all(program, alloc, places, later, woken)
        }
        Deed::Prints(_) => tell_at(program, alloc, places, place, later, Reply::Nothing),
        Deed::Starts(function, arguments) => {
            tell_at(program, alloc, places, place, later, Reply::Nothing)?;
            let state = program.begin(alloc, function, arguments.as_slice())?;
            places.start(Goroutine {
                clock: later,
                doomed: false,
                asleep: false,
                state,
            })
        }
        Deed::Sleeps => {
            places.lay(place);
            Ok(())
        }
        Deed::Leaves => {
            places.end(place);
            Ok(())
        }
        Deed::Panics(..) | Deed::Ends(_) => Ok(()),
    }
}
