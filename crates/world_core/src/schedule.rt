//! Schedules: whoever runs ahead, what is committed is what the one-thread run commits.

ghost use Rattle.std.specs.Prelude.{◌≡◌, ◌≤◌, ◌+◌, ◌^◌, [], IfOk, None, OnErr, OnOk, length, map};
ghost use Rattle.bytecode.specs.Machine.{code_kind};
ghost use Rattle.turn_rule.specs.Schedule.{happens};
ghost use Rattle.word.specs.Views.{event_of};
ghost use Rattle.word.specs.Worlds.{rules};
ghost use Rattle.world_core_base.specs.Cores.{FitsCore, HasTurn, CodeMachine as WorldOf, opened_core};
ghost use Rattle.world_core.specs.Schedules.{Commits, IsFirstInFirstOut, IsMoment, IsWorldOf, end_in, first_world, goroutine_of, scheduled, turns_at, turns_in};

use go_text::Memory;
use std::alloc::Global;
use std::marker::Model;
use turn_rule::Step;
use verifier::Verified;
use word::end::End;
use word::request::Event;
use world_core_base::{Core, blank_event};

/// A world of goroutines that run ahead of their turn, and all that was committed.
pub struct World {
    core: Core,
    events: Vec<Event>,
    output: Vec<u8>,
}

impl Drop for World {
    fn drop(self) {
        let World {
            core,
            events,
            output,
        } = self;
        drop(core);
        drop(events);
        drop(output);
    }
}

impl Model for World {
    ghost use Rattle.std.specs.Prelude.{map};
    ghost use Rattle.word.specs.Views.{event_of};
    ghost use Rattle.world_core.specs.Schedules.{WorldValue};

    ghost Value = { WorldValue };

    ghost view = { λ w. record { core = w.core; events = map event_of w.events.items; output = w.output.items } };
}

impl World {
    /// The events that were committed, the first ones of the one-thread run.
    pub fn events(&self) -> &[Event]
        ensures { map event_of result.now ≡ self.now.events }
    {
        self.events.as_slice()
    }

    /// The bytes that were printed.
    pub fn output(&self) -> &[u8]
        ensures { result.now ≡ self.now.output }
    {
        self.output.as_slice()
    }

    /// How the run has ended, if it has: by its last event, or since nobody is awake.
    pub fn end(&self) -> Option<End>
        ensures { result ≡ end_in self.now.core }
    {
        if let Some(end) = self.core.ending() {
            return Some(end);
        }
        match self.core.first_awake() {
            Some(_) => None,
            None => Some(End::Deadlock),
        }
    }

    /// Goroutine 1 alone, at the beginning of `main`.
    fn open(alloc: Global, code: &Verified, limit: u64) -> Result<World, Memory>
        requires { limit ≤ 2 ^ 62 }
        ensures world { IfOk result (λ w. w ≡ record { core = opened_core code.now; events = []; output = [] }) }
        ensures fits { IfOk result (λ w. FitsCore code.now limit w.core) }
    {
        Ok(World {
            core: Core::open(alloc, code)?,
            events: Vec::new(alloc),
            output: Vec::new(alloc),
        })
    }

    /// One step; after an end, or without the memory that it needs, it changes nothing.
    fn step(&mut self, alloc: Global, code: &Verified, limit: u64, step: Step) -> Result<(), Memory>
        requires { FitsCore code.now limit self.old.core }
        ensures happens { OnOk result ((m : WorldOf) → IsWorldOf m self.old → IsWorldOf (happens (rules (code_kind code.now) limit) m step) self.new) }
        ensures turns { OnOk result ((m : WorldOf) → IsWorldOf m self.old → length self.new.events ≡ length self.old.events + turns_at code.now limit m step) }
        ensures fits { OnOk result (FitsCore code.now limit self.new.core) }
        ensures memory { OnErr result (self.new ≡ self.old) }
    {
        if self.core.ending().is_some() {
            return Ok(());
        }
        match goroutine_of(step) {
            Some(number) => self.core.step(alloc, code, limit, number, step),
            None => self.settle(alloc, code, limit),
        }
    }

    /// The request of the parked goroutine of least key is performed, if it has the turn.
    fn settle(&mut self, alloc: Global, code: &Verified, limit: u64) -> Result<(), Memory>
        requires going { self.old.core.ending ≡ None }
        requires fits { FitsCore code.now limit self.old.core }
        ensures happens { OnOk result ((m : WorldOf) → IsWorldOf m self.old → IsWorldOf (happens (rules (code_kind code.now) limit) m Step.Settle) self.new) }
        ensures turns { OnOk result ((m : WorldOf) → IsWorldOf m self.old → length self.new.events ≡ length self.old.events + turns_at code.now limit m Step.Settle) }
        ensures fits { OnOk result (FitsCore code.now limit self.new.core) }
        ensures memory { OnErr result (self.new ≡ self.old) }
    {
        let Some(key) = self.core.least_parked() else {
            return Ok(());
        };
        let number = key.number;
        if self.core.blocker(key).is_some() {
            return Ok(());
        }
        self.commit(alloc, code, limit, number)
    }

    /// The request of a goroutine that has the turn is performed.
    fn commit(
        &mut self,
        alloc: Global,
        code: &Verified,
        limit: u64,
        number: u64,
    ) -> Result<(), Memory>
        requires turn { HasTurn self.old.core number }
        requires fits { FitsCore code.now limit self.old.core }
        ensures commits { OnOk result (Commits code.now limit self.old number self.new) }
        ensures fits { OnOk result (FitsCore code.now limit self.new.core) }
        ensures memory { OnErr result (self.new ≡ self.old) }
    {
        self.events.reserve(1)?;
        let mut event = blank_event(alloc);
        self.core
            .perform(alloc, code, limit, number, &mut event, &mut self.output)?;
        self.events.push_reserved(event);
        Ok(())
    }
}

/// The goroutine of a step; none of a Settle.
fn goroutine_of(step: Step) -> Option<u64>
    ensures { result ≡ goroutine_of step }
{
    match step {
        Step::Lend(number) => Some(number),
        Step::Local(number) => Some(number),
        Step::Publish(number) => Some(number),
        Step::Look(number) => Some(number),
        Step::Return(number) => Some(number),
        Step::Settle => None,
    }
}

/// The world after these steps, for a limit of at most 2^62. Its events are the first ones of the one-thread run, as many as
/// there were Settle steps that had a turn.
pub fn run_schedule(
    alloc: Global,
    code: &Verified,
    limit: u64,
    steps: &[Step],
) -> Result<World, Memory>
    requires { limit ≤ 2 ^ 62 }
    ensures world { IfOk result (IsWorldOf (scheduled code.now limit steps.now)) }
    ensures moment { IfOk result (IsMoment code.now limit) }
    ensures turns { IfOk result (λ w. length w.events ≡ turns_in code.now limit steps.now (first_world code.now limit)) }
    ensures order { IfOk result IsFirstInFirstOut }
{
    let mut world = World::open(alloc, code, limit)?;
    for next in steps {
        world.step(alloc, code, limit, *next)?;
    }
    Ok(world)
}
