//! Runs of a program by the interpreter, with and without pauses.

ghost use Rattle.std.specs.Prelude.{◌≡◌, ◌<◌, ◌^◌, ◌≤◌, [], ℕ, IfNone, IfOk, IfSome, None, Some};
ghost use Rattle.checker.specs.Trees.{tree_in};
ghost use Rattle.exploration.specs.Shown.{IsLeftBy, IsOrdinary, IsOwn, Lasts, RunsBy};
ghost use Rattle.meaning.specs.Source.{source_kind};
ghost use Rattle.pauses.specs.Plans.{pauses_of};
ghost use Rattle.syntax.specs.Spans.{tree_of};
ghost use Rattle.whole_run.specs.Runs.{IsWhole};
ghost use Rattle.word.specs.Related.{kind_of};
ghost use Rattle.word.specs.Worlds.{end_of, moment};

use crate::findings::is_own_limit;
use crate::lines::end_words;
use checker::Typed;
use go_text::{Fault, Memory};
use one_thread::{Ended, Goroutine, Interpreter, Step, last_moment};
use paused_goroutine::{Paused, PausedState};
use pauses::{Plan, PlanHeader};
use program_states::{Ending, Scope, Space};
use reference::{Source, program_of};
use schedule::Standing;
use std::alloc::Global;
use word::Flagged;
use word::end::End;
use word::panic::Panic;
use word::request::Request;

/// The most moves of a run with pauses.
pub(crate) const MOST_MOVES: u64 = 1 << 22;

/// How a run ended.
#[derive(Drop)]
pub struct Ran {
    pub end: End,
    pub output: Vec<u8>,
    /// Whether it ended at a limit of kendo's own.
    pub own_limit: bool,
    /// Whether `main` returned, goroutines that wait then count, and every other goroutine that had not ended waits for good.
    pub leaks: bool,
}

/// How a run with pauses ended.
#[derive(Drop)]
pub(crate) struct PausedRun {
    pub ran: Ran,
    /// The goroutines that sleep at its end, in the order of their numbers.
    pub sleepers: Vec<Standing>,
    /// The goroutine whose turn was the last one.
    pub last: Option<Standing>,
}

/// What a run of the interpreter is made of.
#[derive(Clone, Copy)]
pub struct Runner<'t> {
    pub alloc: Global,
    /// The path of the program, as it was typed, and its source.
    pub path: &'t str,
    pub source: &'t str,
    pub typed: &'t Typed,
    /// The clock limit, 1 to 2^62.
    pub limit: u64,
    /// Which ends differ.
    pub scope: Scope,
}

impl<'t> Runner<'t> {
    /// Runs that end at this clock or soon after it.
    pub(crate) fn up_to(&self, clock: u64) -> Runner<'t> {
        let limit = clock.saturating_mul(2).saturating_add(1_000);
        Runner {
            limit: self.limit.min(limit),
            ..*self
        }
    }

    /// The header of a plan that leads to an end.
    ///
    /// Errors: out of memory.
    pub(crate) fn header(&self, ending: Ending) -> Result<PlanHeader, Memory> {
        let end = end_words(self.alloc, ending)?;
        PlanHeader::new(
            self.alloc,
            self.path.as_bytes(),
            self.source.as_bytes(),
            end.as_slice(),
        )
    }

    /// Runs the program without pauses; none if it does not end in fewer than `most` moves.
    ///
    /// Errors: out of memory.
    pub(crate) fn ordinary(&self, most: u64) -> Result<Option<Ran>, Memory>
        requires { self.now.limit ≤ 2 ^ 62 }
        ensures lasts { IfOk result (λ seen. IfNone seen (Lasts (tree_of (tree_in self.now.typed.now)) self.now.limit most)) }
        ensures ends { IfOk result (λ seen. IfSome seen (IsOrdinary (tree_of (tree_in self.now.typed.now)) self.now.limit self.now.scope.leaks)) }
    {
        let program = Source {
            program: program_of(self.alloc, self.typed)?,
        };
        match run_of(self.alloc, &program, self.limit, most)? {
            Some(run) => Ok(Some(ran_of(run, self.scope.leaks))),
            None => Ok(None),
        }
    }

    /// Runs the program with the pauses of a plan; none if it does not end within 2^22 moves.
    ///
    /// Errors: out of memory.
    pub(crate) fn run(&self, plan: &Plan) -> Result<Option<PausedRun>, Memory>
        ensures runs { IfOk result (λ seen. IfSome seen (λ run. RunsBy (tree_of (tree_in self.now.typed.now)) self.now.limit (pauses_of plan.now.pauses.items) run.ran.output.items run.ran.end)) }
        ensures own { IfOk result (λ seen. IfSome seen (λ run. IsOwn run.ran.end run.ran.own_limit)) }
    {
        if self.limit > 1 << 62 {
            return Ok(None);
        }
        let program = Source {
            program: program_of(self.alloc, self.typed)?,
        };
        match run_of(
            self.alloc,
            &Paused { program, plan },
            self.limit,
            MOST_MOVES,
        )? {
            Some(run) => Ok(Some(paused_run(self.alloc, run, self.scope.leaks)?)),
            None => Ok(None),
        }
    }
}

/// A run that has ended.
#[derive(Drop)]
struct Run<S: Drop> {
    ended: Ended<S>,
    output: Vec<u8>,
    /// Whether it ended since a goroutine made a channel of a negative size.
    is_negative: bool,
}

/// How a program runs, and what it prints; none if it does not end in fewer than `most` moves.
fn run_of<P: Interpreter>(
    alloc: Global,
    program: &P,
    limit: u64,
    most: u64,
) -> Result<Option<Run<P::State>>, Memory>
    requires { limit ≤ 2 ^ 62 }
    ensures lasts { IfOk result (λ seen. IfNone seen ((n : ℕ) → n < most → end_of (moment (kind_of (P.parts program.now)) limit n) ≡ None)) }
    ensures whole { IfOk result (λ seen. IfSome seen (λ run. IsWhole (kind_of (P.parts program.now)) limit (Some []) (Some run.output.items) run.ended.end)) }
{
    let mut output = Flagged::new(Vec::new(alloc));
    match last_moment(alloc, program, limit, most, &mut output) {
        Ok(Some(ended)) => {
            let mut ended = ended;
            let is_negative = is_size_negative(alloc, program, &mut ended)?;
            Ok(Some(Run {
                ended,
                output: output.into_inner(),
                is_negative,
            }))
        }
        Ok(None) => Ok(None),
        Err(Fault::Memory | _) => Err(Memory),
    }
}

/// Whether a run ended since a goroutine made a channel of a negative size, which the goroutine still requests.
fn is_size_negative<P: Interpreter>(
    alloc: Global,
    program: &P,
    ended: &mut Ended<P::State>,
) -> Result<bool, Memory>
    ensures { ended.new.end ≡ ended.old.end }
{
    if ended.end != End::Panicked(Panic::ChannelSize) {
        return Ok(false);
    }
    let number = ended.turn.map(|turn| turn.number).unwrap_or(0);
    let index = usize::try_from(number).unwrap_or(usize::MAX);
    let Some(Some(goroutine)) = ended.goroutines.get_mut(index) else {
        return Ok(false);
    };
    match program.step(alloc, &mut goroutine.state)? {
        Step::Asks(Request::Make(size, _zero)) => Ok(size < 0),
        _ => Ok(false),
    }
}

/// How a run without pauses ended; `leaks` says whether goroutines that wait when `main` has returned count.
fn ran_of<S: Drop>(run: Run<S>, leaks: bool) -> Ran
    ensures end { result.end ≡ run.ended.end }
    ensures output { result.output ≡ run.output }
    ensures own { IsOwn result.end result.own_limit }
    ensures leaks { IsLeftBy leaks result }
{
    let Run {
        ended,
        output,
        is_negative,
    } = run;
    Ran {
        end: ended.end,
        output,
        own_limit: is_own_limit(ended.end, is_negative),
        leaks: leaks && ended.end == End::Finished && is_left(&ended),
    }
}

/// Whether goroutines other than `main` have not ended, and all of them sleep.
fn is_left<S: Drop>(ended: &Ended<S>) -> bool {
    let mut others = ended
        .goroutines
        .iter()
        .skip(2)
        .filter_map(|one| one.as_ref());
    let mut is_left = false;
    for one in others {
        if !one.asleep {
            return false;
        }
        is_left = true;
    }
    is_left
}

/// What is kept of a run with pauses.
fn paused_run<S: Drop>(
    alloc: Global,
    run: Run<PausedState<S>>,
    leaks: bool,
) -> Result<PausedRun, Memory>
    ensures end { IfOk result (λ paused. paused.ran.end ≡ run.ended.end) }
    ensures output { IfOk result (λ paused. paused.ran.output ≡ run.output) }
    ensures own { IfOk result (λ paused. IsOwn paused.ran.end paused.ran.own_limit) }
{
    let sleepers = sleepers_of(alloc, run.ended.goroutines.as_slice())?;
    let last = last_of(&run.ended);
    Ok(PausedRun {
        ran: ran_of(run, leaks),
        sleepers,
        last,
    })
}

/// The goroutines that sleep.
fn sleepers_of<S: Drop>(
    alloc: Global,
    goroutines: &[Option<Goroutine<PausedState<S>>>],
) -> Result<Vec<Standing>, Memory> {
    let mut sleepers = Vec::new(alloc);
    for (number, one) in goroutines.iter().enumerate() {
        if let Some(one) = one {
            if one.asleep {
                sleepers.push(Standing {
                    number: number as u64,
                    request: one.state.progress.request,
                })?;
            }
        }
    }
    Ok(sleepers)
}

/// The goroutine whose turn was the last one.
fn last_of<S: Drop>(ended: &Ended<PausedState<S>>) -> Option<Standing> {
    let number = ended.turn?.number;
    let index = usize::try_from(number).ok()?;
    let one = ended.goroutines.get(index)?.as_ref()?;
    Some(Standing {
        number,
        request: one.state.progress.request,
    })
}

impl Ran {
    /// How the run ended, as the search has it; none if its time was exhausted.
    pub(crate) fn ending(&self) -> Option<Ending> {
        match self.end {
            End::Finished if self.leaks => Some(Ending::Leak),
            End::Finished => Some(Ending::Finished),
            End::Panicked(panic) if self.own_limit => Some(Ending::Limit(panic)),
            End::Panicked(panic) => Some(Ending::Panicked(panic)),
            End::Deadlock => Some(Ending::Deadlock),
            End::Exhausted => None,
        }
    }

    /// Whether the run ended as `ending`, with the output of number `output` if outputs distinguish such ends.
    ///
    /// Errors: out of memory.
    pub(crate) fn is(
        &self,
        space: &mut Space<'_>,
        ending: Ending,
        output: u32,
    ) -> Result<bool, Memory> {
        if self.ending() != Some(ending) {
            return Ok(false);
        }
        if !ending.has_output() {
            return Ok(true);
        }
        Ok(space.output_of(self.output.as_slice())? == output)
    }
}
