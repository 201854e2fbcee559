//! Goroutines that keep to a plan, of which it is noted which pauses happen.

use crate::paused::{Paused, PausedState};
use crate::uses::PauseUses;
use go_text::Memory;
use one_thread::{Interpreter, Step};
use std::alloc::Global;
use word::request::Reply;
use word::value::Word;

/// Like `Paused`, but notes which pauses happen.
#[derive(Drop)]
pub struct Noted<'p, P: Drop> {
    pub paused: Paused<'p, P>,
    pub uses: &'p PauseUses,
}

impl<'p, P: Interpreter + Drop> Interpreter for Noted<'p, P> {
    ghost use Rattle.pauses.specs.Paused.{PausedState, paused_parts};
    ghost use Rattle.pauses.specs.Plans.{pauses_of};
    ghost use Rattle.paused_goroutine.specs.Views.{state_of};
    ghost use Rattle.pauses.specs.Weights.{paused_weight};
    ghost use Rattle.pauses.proofs.Falls.{paused_falls};

    type State = PausedState<P::State>;

    ghost Held = { PausedState P.Held };

    ghost parts = { λ noted. paused_parts (P.parts noted.paused.program) (pauses_of noted.paused.plan.now.pauses.items) };

    ghost held = { λ noted kept. state_of (P.held noted.paused.program) kept };

    ghost weight = { λ noted state. paused_weight (P.weight noted.paused.program) state };

    fn step(&self, alloc: Global, state: &mut Self::State) -> Result<Step, Memory> {
        let step = self.paused.step(alloc, state)?;
        if let Step::Asks(request) = &step {
            self.uses.asked(self.paused.plan, &state.progress, request);
        }
        Ok(step)
    }

    fn answer(&self, alloc: Global, state: &mut Self::State, reply: Reply) -> Result<(), Memory> {
        self.paused.answer(alloc, state, reply)?;
        self.uses.reached(self.paused.plan, &state.progress);
        Ok(())
    }

    fn begin(
        &self,
        alloc: Global,
        function: u32,
        arguments: &[Word],
    ) -> Result<Self::State, Memory> {
        let state = self.paused.begin(alloc, function, arguments)?;
        self.uses.reached(self.paused.plan, &state.progress);
        Ok(state)
    }

    fn main(&self) -> u32 {
        self.paused.main()
    }

    ghost falls = { λ noted state. paused_falls (P.parts noted.paused.program) (pauses_of noted.paused.plan.now.pauses.items) (P.weight noted.paused.program) (P.falls noted.paused.program) state };
}
