//! Schedules, and the worlds that they lead to.

use crate::checks::Checks;
use crate::made::{Body, program};
use crate::programs::{CLOSES_ON_A_SENDER, HANDS_OVER, MEETS_TWICE, WAITS_FOR_GOOD};
use go_text::{Fault, Memory};
use std::alloc::{AllocError, Global};
use turn_rule::Step;
use word::end::End;
use word::panic::Panic;
use word::request::{Event, EventOutcome, Request};
use world_core::{Core, run_schedule};

/// A clock limit that is not reached.
const LIMIT: u64 = 1 << 40;

/// What is compared of an event: clock, number, the letter of its request, and its outcome: `.` if it is done, `s` if
/// its goroutine sleeps, `p` if it panics.
type Told = (u64, u64, char, char);

fn letter(request: &Request) -> char {
    match request {
        Request::Make(_, _) => 'm',
        Request::Go(_, _) => 'g',
        Request::Send(_, _) => '!',
        Request::Receive(_) => '?',
        Request::Close(_) => 'c',
        Request::Print(_) => 'w',
        Request::End => 'e',
        Request::Exit => 'x',
        Request::Panic(_) => 'p',
        _ => '-',
    }
}

fn told(event: &Event) -> Told {
    let outcome = match &event.outcome {
        EventOutcome::Done(_) => '.',
        EventOutcome::Sleeps => 's',
        EventOutcome::Panics(_, _) => 'p',
    };
    (
        event.clock.time(),
        event.number,
        letter(&event.request),
        outcome,
    )
}

/// Whether `events` are the events in `wanted`.
fn are_told(events: &[Event], wanted: &[Told]) -> bool {
    events.len() == wanted.len()
        && events
            .iter()
            .zip(wanted)
            .all(|(event, wanted)| told(event) == *wanted)
}

/// Whether a schedule leads this program to these events, this output and this end.
fn leads(
    alloc: Global,
    bodies: &[Body],
    steps: &[Step],
    events: &[Told],
    output: &str,
    end: Option<End>,
) -> Result<bool, Fault> {
    let program = program(alloc, bodies)?;
    let world = run_schedule(alloc, &program, LIMIT, steps)?;
    Ok(
        are_told(world.events(), events)
            && world.output() == output.as_bytes()
            && world.end() == end,
    )
}

/// The goroutine is lent, makes `local` local steps, and comes back.
fn turn(steps: &mut Vec<Step>, number: u64, local: u32) -> Result<(), AllocError> {
    steps.push(Step::Lend(number))?;
    for _ in 0..local {
        steps.push(Step::Local(number))?;
    }
    steps.push(Step::Return(number))?;
    Ok(())
}

/// `count` rounds, in each of which these goroutines have a turn and then there is a Settle.
fn rounds(alloc: Global, goroutines: u64, count: u32) -> Result<Vec<Step>, AllocError> {
    let mut steps = Vec::new(alloc);
    for _ in 0..count {
        for number in 0..goroutines {
            turn(&mut steps, number + 1, 20)?;
        }
        steps.push(Step::Settle)?;
    }
    Ok(steps)
}

const HANDED_OVER: [Told; 7] = [
    (0, 1, 'm', '.'),
    (2, 1, 'g', '.'),
    (3, 1, '?', 's'),
    (3, 2, '!', '.'),
    (4, 2, 'e', '.'),
    (5, 1, 'w', '.'),
    (6, 1, 'x', '.'),
];

const CLOSED: [Told; 6] = [
    (0, 1, 'm', '.'),
    (2, 1, 'g', '.'),
    (3, 2, '!', 's'),
    (4, 1, 'c', '.'),
    (5, 1, '?', 's'),
    (5, 2, 'p', 'p'),
];

/// A schedule of `MEETS_TWICE` in which goroutine 3 is parked before goroutine 2, whose key is less, and which publishes
/// where it is before it comes back.
fn ahead_of_the_floor(alloc: Global) -> Result<Vec<Step>, AllocError> {
    let mut steps = Vec::new(alloc);
    for number in [1, 1, 1, 1, 3] {
        turn(&mut steps, number, 1000)?;
        steps.push(Step::Settle)?;
    }
    steps.push(Step::Lend(2))?;
    for _ in 0..1000 {
        steps.push(Step::Local(2))?;
    }
    for step in [
        Step::Settle,
        Step::Publish(2),
        Step::Settle,
        Step::Look(2),
        Step::Settle,
        Step::Settle,
        Step::Return(2),
        Step::Settle,
    ] {
        steps.push(step)?;
    }
    Ok(steps)
}

const WAITED_FOR: [Told; 5] = [
    (0, 1, 'm', '.'),
    (2, 1, 'g', '.'),
    (3, 1, 'g', '.'),
    (4, 1, '?', 's'),
    (4, 2, 'w', '.'),
];

/// Steps that nobody can make.
const FOOLISH: [Step; 7] = [
    Step::Settle,
    Step::Look(1),
    Step::Return(1),
    Step::Publish(1),
    Step::Local(0),
    Step::Lend(u64::MAX),
    Step::Settle,
];

/// Steps of goroutines that there are none of.
fn of_nobody(steps: &mut Vec<Step>) -> Result<(), AllocError> {
    for number in [0, u64::MAX] {
        for step in [
            Step::Lend(number),
            Step::Local(number),
            Step::Publish(number),
            Step::Look(number),
            Step::Return(number),
        ] {
            steps.push(step)?;
        }
    }
    Ok(())
}

/// Steps that nobody can make after this one: a second Lend, and what only a goroutine that is lent can do, after its Return.
fn of_the_wrong_state(steps: &mut Vec<Step>, after: Step) -> Result<(), AllocError> {
    match after {
        Step::Lend(number) => steps.push(Step::Lend(number))?,
        Step::Return(number) => {
            steps.push(Step::Return(number))?;
            steps.push(Step::Local(number))?;
            steps.push(Step::Publish(number))?;
        }
        _ => {}
    }
    Ok(())
}

/// A schedule with steps that nobody can make after each of its own.
fn with_foolish_steps(alloc: Global, steps: &[Step]) -> Result<Vec<Step>, AllocError> {
    let mut all = Vec::new(alloc);
    for step in steps {
        all.push(*step)?;
        of_the_wrong_state(&mut all, *step)?;
        of_nobody(&mut all)?;
    }
    Ok(all)
}

/// Whether goroutines that hand over an item do so, whatever steps that nobody can make come between theirs, and after the end.
fn hands_over_among_foolish_steps(alloc: Global) -> Result<bool, Fault> {
    let steps = rounds(alloc, 2, 9)?;
    let steps = with_foolish_steps(alloc, &steps)?;
    let end = Some(End::Finished);
    leads(alloc, &HANDS_OVER, &steps, &HANDED_OVER, "7\n", end)
}

/// Whether goroutines that hand over an item do so.
fn hands_over(alloc: Global) -> Result<bool, Fault> {
    let steps = rounds(alloc, 2, 9)?;
    let end = Some(End::Finished);
    leads(alloc, &HANDS_OVER, &steps, &HANDED_OVER, "7\n", end)
}

/// Whether nobody is awake once the only goroutine sleeps.
fn deadlocks(alloc: Global) -> Result<bool, Fault> {
    let steps = rounds(alloc, 1, 4)?;
    let events = [(0, 1, 'm', '.'), (2, 1, '!', 's')];
    leads(
        alloc,
        &WAITS_FOR_GOOD,
        &steps,
        &events,
        "",
        Some(End::Deadlock),
    )
}

/// Whether a sender panics that a close wakes.
fn close_wakes(alloc: Global) -> Result<bool, Fault> {
    let steps = rounds(alloc, 2, 9)?;
    let end = Some(End::Panicked(Panic::SendOnClosed));
    leads(alloc, &CLOSES_ON_A_SENDER, &steps, &CLOSED, "", end)
}

/// Whether a goroutine is waited for that is behind its floor.
fn floor_holds(alloc: Global) -> Result<bool, Fault> {
    let steps = ahead_of_the_floor(alloc)?;
    leads(alloc, &MEETS_TWICE, &steps, &WAITED_FOR, "1\n", None)
}

/// Whether a state is away once it is lent, and here once it is taken back.
#[tactic(auto, using(world_core_base::proofs::Others::still_awake))]
fn state_is_lent_and_taken_back(alloc: Global) -> Result<bool, Fault> {
    let program = program(alloc, &HANDS_OVER)?;
    let mut core = Core::open(alloc, &program)?;
    let Some((number, state)) = core.lend_least() else {
        return Ok(false);
    };
    let away = core.is_lent(1) && core.awake(1).is_none();
    core.take_back(number, state, false);
    let here = !core.is_lent(1) && core.awake(1).is_some();
    let parked = core.least_parked();
    Ok(away && here && number == 1 && parked == None)
}

/// Whether the state of goroutine 1 is taken out and put back, and that of no other.
#[tactic(auto, using(world_core_base::proofs::Others::still_awake))]
fn state_is_taken_out_and_put_back(alloc: Global) -> Result<bool, Fault> {
    let program = program(alloc, &HANDS_OVER)?;
    let mut core = Core::open(alloc, &program)?;
    let nobody = core.take_state(0).is_none() && core.take_state(u64::MAX).is_none();
    let Some(state) = core.take_state(1) else {
        return Ok(false);
    };
    let away = core.is_lent(1) && core.awake(1).is_none() && !core.may_lend();
    core.put_state(1, state);
    let here = !core.is_lent(1) && core.awake(1).is_some() && core.may_lend();
    Ok(nobody && away && here)
}

/// Whether schedules lead where they must.
pub(crate) fn check(alloc: Global, checks: &mut Checks) -> Result<(), Memory> {
    checks.see("a schedule hands over an item", hands_over(alloc))?;
    checks.see("nobody is awake", deadlocks(alloc))?;
    checks.see("a sender that a close wakes panics", close_wakes(alloc))?;
    checks.see(
        "a goroutine behind its floor is waited for",
        floor_holds(alloc),
    )?;
    let nothing = leads(alloc, &HANDS_OVER, &FOOLISH, &[], "", None);
    checks.see("foolish steps change nothing", nothing)?;
    checks.see(
        "foolish steps between others change nothing",
        hands_over_among_foolish_steps(alloc),
    )?;
    checks.see(
        "a state is lent and taken back",
        state_is_lent_and_taken_back(alloc),
    )?;
    checks.see(
        "a state is taken out and put back",
        state_is_taken_out_and_put_back(alloc),
    )
}
