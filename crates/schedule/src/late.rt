//! Runs in which each goroutine that comes to some requests is late there.

use crate::delay::Delay;
use go_text::Memory;
use pauses::Change;
use program_states::{After, Choice, Move, Space, World};
use std::alloc::Global;

/// The most moves of a run, and the most delays.
const MOST_MOVES: usize = 5_000;

const MOST_DELAYS: usize = 500;

/// Which goroutines are late.
pub trait Lateness {
    /// Whether a goroutine is late at its request in the state `local`; `is_first` says whether it was not late before.
    fn is_late(&self, space: &Space<'_>, local: u32, is_first: bool) -> bool;
}

/// A goroutine that has not ended.
#[derive(Clone, Copy)]
struct Timed {
    goroutine: u32,
    /// When it comes to its request.
    clock: u64,
    /// The number of the request, counted from 1.
    request: u64,
    /// Whether it was late before.
    was_late: bool,
}

/// When a move can be made; of two at one time the one of less rank comes first, then that of the goroutine that started first.
#[derive(Clone, Copy, PartialEq, Eq, PartialOrd, Ord)]
struct Time {
    clock: u64,
    rank: u8,
    index: usize,
    met: u64,
}

/// The goroutines so far, in the order in which they started.
#[derive(Drop)]
struct LateRun<'l, L> {
    alloc: Global,
    lateness: &'l L,
    /// For how long goroutines are late.
    wait: u64,
    goroutines: Vec<Timed>,
    delays: Vec<Delay>,
}

/// The delays, of `wait` ticks each, of a run in which each goroutine that is to be late is so, and else moves as soon as it can;
/// none if it has too many moves or delays.
///
/// Errors: out of memory.
pub fn late_delays<L: Lateness>(
    alloc: Global,
    space: &mut Space<'_>,
    lateness: &L,
    wait: u64,
) -> Result<Option<Vec<Delay>>, Memory> {
    let mut run = LateRun {
        alloc,
        lateness,
        wait,
        goroutines: Vec::new(alloc),
        delays: Vec::new(alloc),
    };
    let mut world = space.opening()?;
    run.arrive(space, &world, 0)?;
    for _ in 0..MOST_MOVES {
        if run.delays.len() > MOST_DELAYS {
            return Ok(None);
        }
        let moves = space.moves(&world)?;
        let Some((step, clock)) = run.earliest(space, &world, moves.as_slice()) else {
            return Ok(Some(run.delays));
        };
        match space.after(&world, step)? {
            After::Goes(next) => world = next,
            After::Ends(_) => return Ok(Some(run.delays)),
        }
        run.arrive(space, &world, clock.saturating_add(1))?;
    }
    Ok(None)
}

impl<L: Lateness> LateRun<'_, L> {
    /// The index of a goroutine.
    fn index_of(&self, goroutine: u32) -> Option<usize> {
        self.goroutines
            .iter()
            .position(|known| known.goroutine == goroutine)
    }

    /// Goroutines come to their next requests, from this clock on.
    fn arrive(&mut self, space: &Space<'_>, world: &World, from: u64) -> Result<(), Memory> {
        for (goroutine, ticks) in space.arrived() {
            let index = match self.index_of(*goroutine) {
                Some(index) => index,
                None => {
                    self.goroutines.push(Timed {
                        goroutine: *goroutine,
                        clock: 0,
                        request: 0,
                        was_late: false,
                    })?;
                    self.goroutines.len().saturating_sub(1)
                }
            };
            let local = space.place_of(world, *goroutine);
            let local = local.and_then(|place| world.locals.get(place as usize).copied());
            if let (Some(known), Some(local)) = (self.goroutines.get_mut(index), local) {
                known.request = known.request.saturating_add(1);
                known.clock = from.saturating_add(*ticks);
                if self.lateness.is_late(space, local, !known.was_late) {
                    known.was_late = true;
                    known.clock = known.clock.saturating_add(self.wait);
                    self.delays.push(Delay {
                        goroutine: *goroutine,
                        request: known.request,
                        change: Change::Wait(self.wait),
                        local,
                    })?;
                }
            }
        }
        Ok(())
    }

    /// The move that can be made first, and when.
    fn earliest(&self, space: &Space<'_>, world: &World, moves: &[Move]) -> Option<(Move, u64)> {
        let mut first: Option<(Move, Time)> = None;
        for step in moves {
            let time = self.time_of(space, world, *step)?;
            match first {
                Some((_, earliest)) if earliest <= time => {}
                _ => first = Some((*step, time)),
            }
        }
        first.map(|(step, time)| (step, time.clock))
    }

    /// When a move can be made.
    fn time_of(&self, space: &Space<'_>, world: &World, step: Move) -> Option<Time> {
        let (index, actor) = self.known_at(space, world, step.actor.place)?;
        let met = match step.sleeper {
            Some(sleeper) => {
                let (_index, met) = self.known_at(space, world, sleeper.place)?;
                Some(met)
            }
            None => None,
        };
        Some(Time {
            clock: met.unwrap_or(actor).max(actor),
            rank: u8::from(step.actor.choice == Choice::Default),
            index,
            met: met.unwrap_or(0),
        })
    }

    /// The index of the goroutine at an index of a state, and when it comes to its request.
    fn known_at(&self, space: &Space<'_>, world: &World, place: u32) -> Option<(usize, u64)> {
        let goroutine = space.at(world, place)?.goroutine();
        let index = self.index_of(goroutine)?;
        Some((index, self.goroutines.get(index)?.clock))
    }
}
