//! What is noted of a run's goroutines: their locations in the source, and their pauses.

use crate::functions::Functions;
use go_text::Memory;
use one_thread::OpenRun;
use paused_goroutine::PausedState;
use std::alloc::Global;
use timeline::{Pause, Site};
use watched_goroutine::{Placed, Watched};
use word::request::{Event, EventOutcome, Request};

/// A goroutine that is known to be at a statement.
pub(crate) trait Sited<'t> {
    /// The goroutine with its statements.
    fn placed(&self) -> &Placed<'t>;

    /// For how many ticks it waits, since the plan says so.
    fn left(&self) -> u64;
}

impl<'t> Sited<'t> for PausedState<Placed<'t>> {
    fn placed(&self) -> &Placed<'t> {
        &self.state
    }

    fn left(&self) -> u64 {
        self.progress.left
    }
}

/// What is noted of a run while it goes on.
#[derive(Drop)]
pub(crate) struct Noting<'f, 't> {
    alloc: Global,
    functions: &'f Functions,
    program: &'f Watched<'t>,
    /// The pauses that have begun.
    pauses: Vec<Pause>,
}

impl<'f, 't> Noting<'f, 't> {
    /// Nothing was noted of a run of the program, which has these functions.
    pub(crate) fn new(
        alloc: Global,
        functions: &'f Functions,
        program: &'f Watched<'t>,
    ) -> Noting<'f, 't> {
        Noting {
            alloc,
            functions,
            program,
            pauses: Vec::new(alloc),
        }
    }

    /// The pauses that have begun.
    pub(crate) fn into_pauses(self) -> Vec<Pause> {
        let Noting {
            alloc: _,
            functions: _,
            program: _,
            pauses,
        } = self;
        pauses
    }

    /// Notes the pauses that begin after the last event of a run, and returns what made its request.
    ///
    /// Errors: out of memory.
    pub(crate) fn follow<S: Sited<'t> + Drop>(
        &mut self,
        run: &OpenRun<S>,
        event: &Event,
    ) -> Result<Option<Site>, Memory> {
        let later = event.clock.time().saturating_add(1);
        self.note(run, event.number, later)?;
        for partner in event.partners.iter() {
            self.note(run, *partner, later)?;
        }
        self.site_of(run, event)
    }

    /// Notes the pause that a goroutine begins at this clock, if it does.
    ///
    /// Errors: out of memory.
    pub(crate) fn note<S: Sited<'t> + Drop>(
        &mut self,
        run: &OpenRun<S>,
        number: u64,
        from: u64,
    ) -> Result<(), Memory> {
        let Some(goroutine) = run.goroutine(number) else {
            return Ok(());
        };
        let ticks = goroutine.state.left();
        if ticks > 0 {
            self.pauses.push(Pause {
                goroutine: number,
                from,
                ticks,
            })?;
        }
        Ok(())
    }

    /// The operation that made a channel, or the statement that made another request, if it is that of the last event of a run; none of
    /// an end.
    ///
    /// Errors: out of memory.
    fn site_of<S: Sited<'t> + Drop>(
        &self,
        run: &OpenRun<S>,
        event: &Event,
    ) -> Result<Option<Site>, Memory> {
        if matches!(&event.request, Request::End | Request::Exit) {
            return Ok(None);
        }
        let Some(goroutine) = run.goroutine(event.number) else {
            return Ok(None);
        };
        let placed = goroutine.state.placed();
        let node = match (&event.request, &event.outcome) {
            (Request::Make(_, _), EventOutcome::Done(_)) => {
                self.program.asking_node(self.alloc, placed)?
            }
            _ => placed.trail.site().node,
        };
        Ok(self.functions.site(node))
    }
}
