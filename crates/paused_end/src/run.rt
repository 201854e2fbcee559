//! The run that is made once more, by its plan.

ghost use Rattle.std.specs.Prelude.{◌≤◌, ◌^◌};

use crate::goroutine::Seen;
use end_explanation::{Call, Moment, Notes, Shown};
use go_text::Memory;
use one_thread::{OpenRun, next_event, open_run};
use paused_goroutine::{Paused, PausedState};
use std::alloc::Global;
use watched_goroutine::{Placed, Watched};
use word::request::Event;

/// The last moment of a run, and which of its goroutines are printed.
#[derive(Drop)]
pub(crate) struct LastMoment {
    pub moment: Moment,
    pub shown: Shown,
}

/// The last moment of the run of a program by a plan, up to a clock limit.
///
/// Errors: out of memory, as which 2^64 events count.
pub(crate) fn last_moment<'t>(
    alloc: Global,
    paused: &Paused<'_, Watched<'t>>,
    limit: u64,
) -> Result<LastMoment, Memory>
    requires { limit ≤ 2 ^ 62 }
{
    let mut run = open_run(alloc, paused, limit)?;
    let mut notes = Notes::new(alloc);
    let mut acting = 0;
    for _ in 0..u64::MAX {
        let Some(event) = next_event(alloc, paused, &mut run)? else {
            return moment_of(alloc, &paused.program, &run, notes, acting);
        };
        acting = event.number;
        note(alloc, &paused.program, &run, &mut notes, &event)?;
    }
    Err(Memory)
}

/// Notes the last event of a run.
fn note<'t>(
    alloc: Global,
    program: &Watched<'t>,
    run: &OpenRun<PausedState<Placed<'t>>>,
    notes: &mut Notes,
    event: &Event,
) -> Result<(), Memory> {
    let site = if Notes::keeps_site(event) {
        site_of(alloc, program, run, event.number)?
    } else {
        None
    };
    notes.take(event, site)
}

/// Where a goroutine is that has just done a request.
fn site_of<'t>(
    alloc: Global,
    program: &Watched<'t>,
    run: &OpenRun<PausedState<Placed<'t>>>,
    number: u64,
) -> Result<Option<Call>, Memory> {
    let Some(goroutine) = run.goroutine(number) else {
        return Ok(None);
    };
    let placed = &goroutine.state.state;
    let Some(track) = placed.trail.tracks.last() else {
        return Ok(None);
    };
    Ok(Some(Call {
        function: track.function as usize,
        node: program.asking_node(alloc, placed)?,
    }))
}

/// The last moment of a run that has ended.
fn moment_of<'t>(
    alloc: Global,
    program: &Watched<'t>,
    run: &OpenRun<PausedState<Placed<'t>>>,
    notes: Notes,
    acting: u64,
) -> Result<LastMoment, Memory> {
    let Some(end) = run.end() else {
        return Err(Memory);
    };
    let seen = Seen {
        alloc,
        program,
        run,
        end,
        acting,
    };
    let numbers = notes.numbers(alloc)?;
    let mut moment = Moment {
        end,
        acting,
        notes,
        goroutines: seen.goroutines(numbers.as_slice())?,
    };
    let shown = moment.shown(alloc)?;
    for index in shown.indices.iter() {
        if let Some(goroutine) = moment.goroutines.get_mut(*index) {
            goroutine.variables = seen.variables(goroutine.number)?;
        }
    }
    Ok(LastMoment { moment, shown })
}
