//! How far goroutines have come that keep to a plan.

ghost use Rattle.std.specs.Prelude.{◌≡◌, IfOk, OnOk};
ghost use Rattle.one_thread.specs.Steps.{Moves};
ghost use Rattle.word.specs.Views.{reply_of, request_of};
ghost use Rattle.pauses.specs.Paused.{asking, clause_of, going, is_vain, onward, opening, selecting};
ghost use Rattle.pauses.specs.Plans.{pauses_of};
ghost use Rattle.pauses.specs.Views.{way_kept};
ghost use Rattle.paused_goroutine.specs.Views.{progress_of};

use go_text::Memory;
use one_thread::Step;
use pauses::{Plan, alone, thinned, way_to, with_way};
use std::alloc::Global;
use word::request::{Case, Reply, Request};
use word::value::Word;

/// How far a goroutine has come.
#[derive(Drop)]
pub struct Progress {
    /// The way from `main` to it, if a way of the plan begins with it.
    pub way: Option<Vec<u64>>,
    /// The number of the request that it makes next, counted from 1.
    pub request: u64,
    /// How many goroutines it has started.
    pub started: u64,
    /// For how many ticks it still waits.
    pub left: u64,
    /// Whether it has counted the goroutine that it starts next, or tried its clause in vain.
    pub prepared: bool,
}

impl Progress {
    /// How far a goroutine of this way has come at its beginning.
    pub(crate) fn opening(plan: &Plan, way: Option<Vec<u64>>) -> Progress
        ensures { progress_of result ≡ opening (pauses_of plan.now.pauses.items) (way_kept way) }
    {
        let left = plan.wait_of(&way, 1);
        Progress {
            way,
            request: 1,
            started: 0,
            left,
            prepared: false,
        }
    }

    /// A request is done.
    pub(crate) fn onward(&mut self, plan: &Plan) -> Result<(), Memory>
        ensures { OnOk result (progress_of self.new ≡ onward (pauses_of plan.now.pauses.items) (progress_of self.old)) }
    {
        let Some(request) = self.request.checked_add(1) else {
            return Err(Memory);
        };
        self.left = plan.wait_of(&self.way, request);
        self.request = request;
        self.prepared = false;
        Ok(())
    }

    /// Whether the reply says that the clause that was tried isn't ready.
    pub(crate) fn is_vain(&self, plan: &Plan, reply: &Reply) -> bool
        ensures { result ≡ is_vain (pauses_of plan.now.pauses.items) (progress_of self.now) (reply_of reply.now) }
    {
        match reply {
            Reply::Default => {
                !self.prepared && plan.clause_of(&self.way, self.request).is_some()
            }
            _ => false,
        }
    }

    /// What a goroutine does that would make this request.
    pub(crate) fn asking(
        &mut self,
        alloc: Global,
        plan: &Plan,
        request: Request,
    ) -> Result<Step, Memory>
        ensures { IfOk result (λ step. Moves (asking (pauses_of plan.now.pauses.items) (progress_of self.old) (request_of request)) step (progress_of self.new) (progress_of self.old)) }
    {
        match request {
            Request::Go(function, arguments) => self.going(alloc, plan, function, arguments),
            Request::Select(cases, default) => self.selecting(alloc, plan, cases, default),
            request => Ok(Step::Asks(request)),
        }
    }

    /// Counts a goroutine, and then starts it.
    fn going(
        &mut self,
        alloc: Global,
        plan: &Plan,
        function: u32,
        arguments: Vec<Word>,
    ) -> Result<Step, Memory>
        ensures { IfOk result (λ step. Moves (going (pauses_of plan.now.pauses.items) (progress_of self.old) function arguments.items) step (progress_of self.new) (progress_of self.old)) }
    {
        if !self.prepared {
            let Some(started) = self.started.checked_add(1) else {
                return Err(Memory);
            };
            self.started = started;
            self.prepared = true;
            return Ok(Step::Slides);
        }
        let way = way_to(alloc, plan, &self.way, self.started)?;
        let words = with_way(alloc, &way, arguments.as_slice())?;
        Ok(Step::Asks(Request::Go(function, words)))
    }

    /// Tries the clause that the plan names, if it names one, and then makes the request.
    fn selecting(
        &self,
        alloc: Global,
        plan: &Plan,
        cases: Vec<Case>,
        default: bool,
    ) -> Result<Step, Memory>
        ensures { IfOk result (λ step. let g = progress_of self.now in let ps = pauses_of plan.now.pauses.items in Moves (selecting ps g cases.items default (clause_of ps g.way g.request)) step g g) }
    {
        let Some(clause) = plan.clause_of(&self.way, self.request) else {
            return Ok(Step::Asks(Request::Select(cases, default)));
        };
        if self.prepared {
            let cases = thinned(alloc, clause, cases)?;
            Ok(Step::Asks(Request::Select(cases, default)))
        } else {
            let cases = alone(alloc, clause, cases)?;
            Ok(Step::Asks(Request::Select(cases, true)))
        }
    }
}
