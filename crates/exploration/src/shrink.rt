//! The delays that an end needs.

use crate::runner::{PausedRun, Runner};
use go_text::Memory;
use pauses::Change;
use program_states::{Ending, Space};
use schedule::{Delay, Standing, plan_of};
use std::alloc::Global;

/// The most runs that are made to leave out delays of one end, and to shorten others.
const MOST_RUNS: u64 = 600;

/// How long these runs may be in all, in events and ticks.
const MOST_LENGTH: u64 = 400_000;

/// How a run ends that shows an end.
#[derive(Drop)]
pub(crate) struct Wanted {
    pub ending: Ending,
    /// The number of its output.
    pub output: u32,
    /// The goroutines that wait, in the order of their numbers, if they count.
    pub sleepers: Option<Vec<Standing>>,
    /// The goroutine whose turn is the last one, if it counts.
    pub last: Option<Standing>,
}

impl Wanted {
    /// Whether a run ended so.
    pub(crate) fn is_met(&self, space: &mut Space<'_>, run: &PausedRun) -> Result<bool, Memory> {
        if let Some(sleepers) = &self.sleepers {
            if sleepers.as_slice() != run.sleepers.as_slice() {
                return Ok(false);
            }
        }
        if self.last.is_some() && self.last != run.last {
            return Ok(false);
        }
        run.ran.is(space, self.ending, self.output)
    }
}

/// The delays of an end, of which some may not be needed.
#[derive(Drop)]
struct Shrinking<'w, 't, 's, 'c> {
    alloc: Global,
    runner: Runner<'t>,
    space: &'s mut Space<'c>,
    wanted: &'w Wanted,
    /// How many runs are left.
    left: u64,
}

impl<'w, 't, 's, 'c> Shrinking<'w, 't, 's, 'c> {
    /// Whether the run with these delays ends as it should; no if no runs are left.
    fn is_enough(&mut self, delays: &[Delay]) -> Result<bool, Memory> {
        if self.left == 0 {
            return Ok(false);
        }
        self.left = self.left.saturating_sub(1);
        let plan = plan_of(self.alloc, self.space.locals().goroutines(), delays)?;
        let runner = self.runner;
        let Some(run) = runner.run(&plan)? else {
            return Ok(false);
        };
        self.wanted.is_met(self.space, &run)
    }

    /// Fewer and shorter delays with which the run ends in the same way.
    ///
    /// Errors: out of memory.
    fn shrunk(&mut self, delays: Vec<Delay>) -> Result<Vec<Delay>, Memory> {
        let mut delays = delays;
        let mut size = delays.len();
        for _ in 0..usize::BITS {
            size = (size / 2).saturating_add(size % 2);
            delays = self.without_runs(delays, size)?;
            if size < 2 {
                break;
            }
        }
        delays = self.without_runs(delays, 1)?;
        for index in 0..delays.len() {
            self.shorten(&mut delays, index)?;
        }
        Ok(delays)
    }

    /// Leaves out delays, `size` of them at a time, that the end doesn't need.
    fn without_runs(&mut self, delays: Vec<Delay>, size: usize) -> Result<Vec<Delay>, Memory> {
        let mut delays = delays;
        let mut at: usize = 0;
        for _ in 0..delays.len() {
            if at >= delays.len() {
                break;
            }
            let mut fewer = Vec::new(self.alloc);
            for (index, delay) in delays.iter().enumerate() {
                if index < at || index >= at.saturating_add(size) {
                    fewer.push(*delay)?;
                }
            }
            if self.is_enough(fewer.as_slice())? {
                delays = fewer;
            } else {
                at = at.saturating_add(size);
            }
        }
        Ok(delays)
    }

    /// Makes the delay at an index as short as halving finds it.
    fn shorten(&mut self, delays: &mut Vec<Delay>, index: usize) -> Result<(), Memory> {
        let Some(
            Delay {
                change: Change::Wait(wait),
                ..
            },
        ) = delays.get(index).copied()
        else {
            return Ok(());
        };
        let mut short: u64 = 0;
        let mut long = wait;
        for _ in 0..u64::BITS {
            let half = short.saturating_add(long.saturating_sub(short) / 2);
            if half <= short {
                break;
            }
            set_wait(delays.as_mut_slice(), index, half);
            if self.is_enough(delays.as_slice())? {
                long = half;
            } else {
                short = half;
            }
        }
        set_wait(delays.as_mut_slice(), index, long);
        Ok(())
    }
}

/// Fewer and shorter delays than `delays` with which a run of about `length` events and ticks ends as it is wanted, if it does with
/// all of them.
///
/// Errors: out of memory.
pub(crate) fn shrunk_delays(
    alloc: Global,
    runner: Runner<'_>,
    space: &mut Space<'_>,
    wanted: &Wanted,
    delays: Vec<Delay>,
    length: u64,
) -> Result<Vec<Delay>, Memory> {
    let mut shrinking = Shrinking {
        alloc,
        runner,
        space,
        wanted,
        left: MOST_LENGTH
            .checked_div(length)
            .unwrap_or(MOST_RUNS)
            .min(MOST_RUNS),
    };
    if shrinking.is_enough(delays.as_slice())? {
        shrinking.shrunk(delays)
    } else {
        Ok(delays)
    }
}

/// The delay at an index takes this many ticks.
fn set_wait(delays: &mut [Delay], index: usize, wait: u64) {
    if let Some(delay) = delays.get_mut(index) {
        delay.change = Change::Wait(wait);
    }
}
