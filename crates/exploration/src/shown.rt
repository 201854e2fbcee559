//! Ends that runs of the interpreter have shown.

ghost use Rattle.std.specs.Prelude.{◌≡◌, IfOk, IfSome, IsTrue};
ghost use Rattle.checker.specs.Trees.{tree_in};
ghost use Rattle.exploration.specs.Shown.{AreOtherIn, IsEnd, IsLeak, IsOther, ends_line, seen};
ghost use Rattle.syntax.specs.Spans.{tree_of};

use crate::hint::{Hint, hint_for};
use crate::runner::{MOST_MOVES, PausedRun, Ran, Runner};
use crate::scene::Scene;
use crate::shrink::{Wanted, shrunk_delays};
use expected_output::have_same_lines;
use go_text::Memory;
use pauses::Change;
use program_states::{Ending, Scope, Space, Step, World};
use schedule::{Delay, Schedule, Standing, plan_of, schedule_of};
use std::alloc::Global;
use word::end::End;

/// An end that a run of the interpreter has shown.
#[derive(Drop)]
pub struct Shown {
    pub end: End,
    /// What the run printed.
    pub output: Vec<u8>,
    /// The file of the plan that makes the run end like this.
    pub plan: Vec<u8>,
    /// Whether it is a limit of kendo's own.
    pub own_limit: bool,
    /// Whether goroutines that are left are what differs.
    pub leaks: bool,
    pub(crate) ending: Ending,
    pub(crate) delays: Vec<Delay>,
    pub(crate) hint: Hint,
    pub(crate) scene: LastScene,
}

impl Shown {
    /// Whether it differs from the end of the ordinary run, if that has one.
    ///
    /// Errors: out of memory.
    pub(crate) fn is_other(
        &self,
        alloc: Global,
        scope: Scope,
        ordinary: &Option<Ran>,
    ) -> Result<bool, Memory>
        ensures { IfOk result (λ is. IsTrue is → IsOther scope ordinary.now (seen self.now)) }
    {
        let Some(ran) = ordinary else {
            return Ok(true);
        };
        if self.is_leak(scope) || self.end != ran.end {
            return Ok(true);
        }
        are_other(alloc, scope, self.output.as_slice(), ran.output.as_slice())
    }

    /// Whether goroutines that are left are what differs, and count.
    fn is_leak(&self, scope: Scope) -> bool
        ensures { IsTrue result → IsLeak scope (seen self.now) }
    {
        self.leaks && scope.leaks && self.end == End::Finished
    }
}

/// Whether outputs are other ones, as far as outputs count.
fn are_other(alloc: Global, scope: Scope, one: &[u8], other: &[u8]) -> Result<bool, Memory>
    ensures { IfOk result (λ are. IsTrue are → AreOtherIn scope one.now other.now) }
{
    if !scope.outputs || one == other {
        return Ok(false);
    }
    if scope.lines_in_order {
        return Ok(true);
    }
    if ends_line(one) != ends_line(other) {
        return Ok(true);
    }
    match (str::from_utf8(one), str::from_utf8(other)) {
        (Ok(one), Ok(other)) => Ok(!have_same_lines(alloc, one, other)?),
        _ => Ok(false),
    }
}

/// Whether the last byte is a newline.
fn ends_line(output: &[u8]) -> bool
    ensures { result ≡ ends_line output.now }
{
    match output.last() {
        Some(byte) => *byte == b'\n',
        None => false,
    }
}

/// The state of the goroutines at an end.
#[derive(Drop)]
pub(crate) struct LastScene {
    pub world: World,
    /// The state of the goroutine that ended the program, if one did.
    pub last: Option<u32>,
}

/// An end that was found, and steps that lead there.
#[derive(Drop)]
pub(crate) struct Way {
    pub ending: Ending,
    /// The number of its output.
    pub output: u32,
    pub steps: Vec<Step>,
}

/// Shows an end that was found by a run of the interpreter with as few pauses as are found to be enough; none if no run shows it.
///
/// Errors: out of memory.
pub(crate) fn show_end(
    alloc: Global,
    runner: &Runner<'_>,
    scene: Scene<'_>,
    space: &mut Space<'_>,
    found: &Way,
) -> Result<Option<Shown>, Memory>
    ensures { IfOk result (λ shown. IfSome shown (λ one. IsEnd (tree_of (tree_in runner.now.typed.now)) runner.now.limit (seen one))) }
{
    let ending = found.ending;
    let steps = found.steps.as_slice();
    let Schedule {
        delays,
        clock,
        world,
        standing,
        last: actor,
    } = schedule_of(alloc, space, steps, ending == Ending::Leak)?;
    if moves_of(delays.as_slice(), clock) > MOST_MOVES {
        return Ok(None);
    }
    let last = last_of(space, &world, steps, ending);
    let wanted = wanted_of(found, standing, actor);
    let length = clock.saturating_add(steps.len() as u64);
    let delays = shrunk_delays(alloc, runner.up_to(clock), space, &wanted, delays, length)?;
    let hint = hint_for(runner, scene, space, &wanted, delays.as_slice(), length)?;
    let last = LastScene { world, last };
    shown_by(alloc, runner, space, &wanted, delays, hint, last)
}

/// About how many moves a run with these delays has whose last event is at this clock: each tick of a delay is one.
fn moves_of(delays: &[Delay], clock: u64) -> u64 {
    let mut moves = clock;
    for delay in delays {
        if let Change::Wait(ticks) = delay.change {
            moves = moves.saturating_add(ticks);
        }
    }
    moves
}

/// An end that the run with these delays shows; none if the run does not end as required.
fn shown_by(
    alloc: Global,
    runner: &Runner<'_>,
    space: &mut Space<'_>,
    wanted: &Wanted,
    delays: Vec<Delay>,
    hint: Hint,
    scene: LastScene,
) -> Result<Option<Shown>, Memory>
    ensures { IfOk result (λ shown. IfSome shown (λ one. IsEnd (tree_of (tree_in runner.now.typed.now)) runner.now.limit (seen one))) }
{
    let plan = plan_of(alloc, space.locals().goroutines(), delays.as_slice())?;
    if !plan.is_valid() {
        return Ok(None);
    }
    let Some(run) = runner.run(&plan)? else {
        return Ok(None);
    };
    if !wanted.is_met(space, &run)? {
        return Ok(None);
    }
    let PausedRun { ran, .. } = run;
    let header = runner.header(wanted.ending)?;
    Ok(Some(Shown {
        end: ran.end,
        output: ran.output,
        plan: plan.bytes_with(alloc, &header)?,
        own_limit: ran.own_limit,
        leaks: wanted.ending == Ending::Leak,
        ending: wanted.ending,
        delays,
        hint,
        scene,
    }))
}

/// How a run ends that shows an end, given the state of the goroutines after it and the last one to act, `actor`.
fn wanted_of(found: &Way, standing: Vec<Standing>, actor: Option<Standing>) -> Wanted {
    let (sleepers, last) = match found.ending {
        Ending::Deadlock => (Some(standing), None),
        Ending::Panicked(_) | Ending::Limit(_) => (None, actor),
        Ending::Finished | Ending::Leak => (None, None),
    };
    Wanted {
        ending: found.ending,
        output: found.output,
        sleepers,
        last,
    }
}

/// The state of the goroutine that ends the program by the last step, if it panics.
fn last_of(space: &Space<'_>, world: &World, steps: &[Step], ending: Ending) -> Option<u32> {
    if !matches!(ending, Ending::Panicked(_) | Ending::Limit(_)) {
        return None;
    }
    let place = space.place_of(world, steps.last()?.actor)?;
    world.locals.get(place as usize).copied()
}
