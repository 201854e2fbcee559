//! Goroutines that keep to a plan.

use crate::progress::Progress;
use go_text::Memory;
use one_thread::{Interpreter, Step};
use pauses::{Plan, way_in};
use std::alloc::Global;
use word::request::Reply;
use word::value::Word;

/// A program whose goroutines keep to a plan.
#[derive(Drop)]
pub struct Paused<'p, P: Drop> {
    pub program: P,
    pub plan: &'p Plan,
}

/// A goroutine, and how far it has come.
#[derive(Drop)]
pub struct PausedState<S: Drop> {
    pub state: S,
    pub progress: Progress,
}

impl<'p, P: Interpreter + Drop> Interpreter for Paused<'p, P> {
    ghost use Rattle.pauses.specs.Paused.{PausedState, paused_parts};
    ghost use Rattle.pauses.specs.Plans.{pauses_of};
    ghost use Rattle.paused_goroutine.specs.Views.{state_of};
    ghost use Rattle.pauses.specs.Weights.{paused_weight};
    ghost use Rattle.pauses.proofs.Falls.{paused_falls};

    type State = PausedState<P::State>;

    ghost Held = { PausedState P.Held };

    ghost parts = { λ paused. paused_parts (P.parts paused.program) (pauses_of paused.plan.now.pauses.items) };

    ghost held = { λ paused kept. state_of (P.held paused.program) kept };

    ghost weight = { λ paused state. paused_weight (P.weight paused.program) state };

    fn step(&self, alloc: Global, state: &mut Self::State) -> Result<Step, Memory> {
        if state.progress.left != 0 {
            state.progress.left -= 1;
            return Ok(Step::Ticks);
        }
        match self.program.step(alloc, &mut state.state)? {
            Step::Asks(request) => state.progress.asking(alloc, self.plan, request),
            step => Ok(step),
        }
    }

    fn answer(&self, alloc: Global, state: &mut Self::State, reply: Reply) -> Result<(), Memory> {
        if state.progress.is_vain(self.plan, &reply) {
            state.progress.prepared = true;
            return Ok(());
        }
        self.program.answer(alloc, &mut state.state, reply)?;
        state.progress.onward(self.plan)
    }

    fn begin(
        &self,
        alloc: Global,
        function: u32,
        arguments: &[Word],
    ) -> Result<Self::State, Memory> {
        let (way, arguments) = way_in(alloc, arguments)?;
        let state = self.program.begin(alloc, function, arguments)?;
        let progress = Progress::opening(self.plan, way);
        Ok(PausedState { state, progress })
    }

    fn main(&self) -> u32 {
        self.program.main()
    }

    ghost falls = { λ paused state. paused_falls (P.parts paused.program) (pauses_of paused.plan.now.pauses.items) (P.weight paused.program) (P.falls paused.program) state };
}
