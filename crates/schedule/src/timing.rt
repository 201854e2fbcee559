//! When events come.

use crate::delay::Delay;
use go_text::Memory;
use pauses::Change;
use program_states::{After, Choice, Fit, Move, Part, Space, Step, World};
use std::alloc::Global;

/// A goroutine that has not ended.
#[derive(Clone, Copy)]
struct Clocked {
    /// Its number among those of the search.
    goroutine: u32,
    /// Its number in the run.
    number: u64,
    /// Its clock at its request, without a delay there.
    clock: u64,
    /// The number of the request, counted from 1.
    request: u64,
}

/// When an event comes: the events of a run are in this order.
#[derive(Clone, Copy, PartialEq, Eq, PartialOrd, Ord)]
struct Moment {
    clock: u64,
    number: u64,
}

/// A goroutine that has not ended, and the request at which it is.
#[derive(Clone, Copy, PartialEq, Eq)]
pub struct Standing {
    /// Its number in the run.
    pub number: u64,
    /// The number of the request, counted from 1.
    pub request: u64,
}

/// The delays by which a run takes some steps, and its state after them.
#[derive(Drop)]
pub struct Schedule {
    pub delays: Vec<Delay>,
    /// The clock of its last event.
    pub clock: u64,
    /// The state before the last step, if the program ends by it, or after it.
    pub world: World,
    /// Its goroutines, in the order of their numbers in the run.
    pub standing: Vec<Standing>,
    /// The goroutine of the last step.
    pub last: Option<Standing>,
}

/// The events so far.
#[derive(Drop)]
struct Timing {
    goroutines: Vec<Clocked>,
    /// How many goroutines have started.
    started: u64,
    /// The latest event.
    last: Moment,
    delays: Vec<Delay>,
}

/// The delays by which a run takes these steps in order: each goroutine waits before its request until its turn comes
/// after the event before. If `all_wait_first`, the others fall asleep before the last step.
///
/// Errors: out of memory; steps that can't be taken are reported as that too.
pub fn schedule_of(
    alloc: Global,
    space: &mut Space<'_>,
    steps: &[Step],
    all_wait_first: bool,
) -> Result<Schedule, Memory> {
    let mut timing = Timing::new(alloc);
    let mut world = space.opening()?;
    let mut last = None;
    timing.arrive(space, 0)?;
    for (index, step) in steps.iter().enumerate() {
        let Some(found) = space.find(&world, *step) else {
            return Err(Memory);
        };
        if all_wait_first && index.saturating_add(1) == steps.len() {
            timing.fall_asleep(space, &world, found.actor)?;
        }
        let clock = timing.take(space, &world, found)?;
        last = timing.standing(step.actor);
        match space.after(&world, found)? {
            After::Goes(next) => world = next,
            After::Ends(_) => break,
        }
        timing.forget(space, &world);
        timing.arrive(space, clock.saturating_add(1))?;
    }
    if !all_wait_first {
        timing.wait_after_all(space, &world)?;
    }
    timing.into_schedule(alloc, world, last)
}

impl Timing {
    /// No events.
    fn new(alloc: Global) -> Timing {
        Timing {
            goroutines: Vec::new(alloc),
            started: 0,
            last: Moment {
                clock: 0,
                number: 0,
            },
            delays: Vec::new(alloc),
        }
    }

    /// The schedule of these delays, after which the program is in `world`, and the goroutine that acted last.
    fn into_schedule(
        self,
        alloc: Global,
        world: World,
        last: Option<Standing>,
    ) -> Result<Schedule, Memory> {
        let standing = self.all_standing(alloc)?;
        Ok(Schedule {
            delays: self.delays,
            clock: self.last.clock,
            world,
            standing,
            last,
        })
    }

    /// The index of a goroutine.
    fn index_of(&self, goroutine: u32) -> Option<usize> {
        self.goroutines
            .iter()
            .position(|known| known.goroutine == goroutine)
    }

    /// The request at which a goroutine is.
    fn standing(&self, goroutine: u32) -> Option<Standing> {
        let known = self.goroutines.get(self.index_of(goroutine)?)?;
        Some(Standing {
            number: known.number,
            request: known.request,
        })
    }

    /// The requests at which the goroutines are, in the order of their numbers in the run.
    fn all_standing(&self, alloc: Global) -> Result<Vec<Standing>, Memory> {
        let mut all = Vec::new(alloc);
        for known in self.goroutines.iter() {
            all.push(Standing {
                number: known.number,
                request: known.request,
            })?;
        }
        Ok(all)
    }

    /// Goroutines come to their next requests, from this clock on.
    fn arrive(&mut self, space: &Space<'_>, from: u64) -> Result<(), Memory> {
        for (goroutine, ticks) in space.arrived() {
            let clock = from.saturating_add(*ticks);
            match self.index_of(*goroutine) {
                Some(index) => {
                    if let Some(known) = self.goroutines.get_mut(index) {
                        known.clock = clock;
                        known.request = known.request.saturating_add(1);
                    }
                }
                None => {
                    self.started = self.started.saturating_add(1);
                    self.goroutines.push(Clocked {
                        goroutine: *goroutine,
                        number: self.started,
                        clock,
                        request: 1,
                    })?;
                }
            }
        }
        Ok(())
    }

    /// Goroutines that ended are forgotten.
    fn forget(&mut self, space: &Space<'_>, world: &World) {
        self.goroutines
            .retain(|known| space.place_of(world, known.goroutine).is_some());
    }

    /// A move comes after the latest event: its clock.
    fn take(&mut self, space: &Space<'_>, world: &World, step: Move) -> Result<u64, Memory> {
        let fit = space.fit(world, step);
        if let Some(sleeper) = step.sleeper {
            let clause = if fit.sleeper_takes_it {
                Choice::Whole
            } else {
                sleeper.choice
            };
            self.come(space, world, sleeper, clause, true)?;
        }
        let clause = if self.finds(space, world, step.actor, fit) {
            Choice::Whole
        } else {
            step.actor.choice
        };
        self.come(space, world, step.actor, clause, false)?;
        Ok(self.last.clock)
    }

    /// Whether a goroutine finds its clause by its clock, if it comes right after the latest event.
    fn finds(&self, space: &Space<'_>, world: &World, part: Part, fit: Fit) -> bool {
        if fit.count < 2 {
            return true;
        }
        match self.known_at(space, world, part) {
            Some(known) => {
                let wait = self.wait(known);
                known.clock.saturating_add(wait) % fit.count == fit.index
            }
            None => true,
        }
    }

    /// The goroutine that has a part in a move.
    fn known_at(&self, space: &Space<'_>, world: &World, part: Part) -> Option<Clocked> {
        let goroutine = space.at(world, part.place)?.goroutine();
        self.goroutines.get(self.index_of(goroutine)?).copied()
    }

    /// How many ticks a goroutine waits, so that it comes after the latest event.
    fn wait(&self, known: Clocked) -> u64 {
        let now = Moment {
            clock: known.clock,
            number: known.number,
        };
        if now > self.last {
            return 0;
        }
        let same_clock = self.last.clock.saturating_sub(known.clock);
        if known.number > self.last.number {
            same_clock
        } else {
            same_clock.saturating_add(1)
        }
    }

    /// A goroutine makes its request after the latest event, and tries this clause first, unless it is `Whole`; in vain, if it falls
    /// asleep there.
    fn come(
        &mut self,
        space: &Space<'_>,
        world: &World,
        part: Part,
        clause: Choice,
        sleeps: bool,
    ) -> Result<(), Memory> {
        let Some(known) = self.known_at(space, world, part) else {
            return Err(Memory);
        };
        let wait = self.wait(known);
        let mut delay = Delay {
            goroutine: known.goroutine,
            request: known.request,
            change: Change::Wait(wait),
            local: world.locals.get(part.place as usize).copied().unwrap_or(0),
        };
        if wait > 0 {
            self.delays.push(delay)?;
        }
        let mut clock = known.clock.saturating_add(wait);
        if let Choice::Clause(clause) = clause {
            delay.change = Change::Clause(u64::from(clause));
            self.delays.push(delay)?;
            if sleeps {
                clock = clock.saturating_add(1);
            }
        }
        self.last = Moment {
            clock,
            number: known.number,
        };
        Ok(())
    }

    /// All goroutines but the one that acts fall asleep after the latest event.
    fn fall_asleep(&mut self, space: &Space<'_>, world: &World, actor: Part) -> Result<(), Memory> {
        let mut place: u32 = 0;
        for _ in world.locals.iter() {
            if place != actor.place {
                let part = Part {
                    place,
                    choice: Choice::Whole,
                };
                self.come(space, world, part, Choice::Whole, true)?;
            }
            place = place.saturating_add(1);
        }
        Ok(())
    }

    /// The goroutines that have not ended wait until all events have come.
    fn wait_after_all(&mut self, space: &Space<'_>, world: &World) -> Result<(), Memory> {
        for local in world.locals.iter() {
            let Some(goroutine) = space.locals().local(*local).map(|one| one.goroutine()) else {
                continue;
            };
            let Some(index) = self.index_of(goroutine) else {
                continue;
            };
            if let Some(known) = self.goroutines.get(index).copied() {
                let wait = self.wait(known);
                if wait > 0 && known.number != self.last.number {
                    self.delays.push(Delay {
                        goroutine,
                        request: known.request,
                        change: Change::Wait(wait),
                        local: *local,
                    })?;
                }
            }
        }
        Ok(())
    }
}
