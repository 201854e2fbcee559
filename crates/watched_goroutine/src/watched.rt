//! A program that is interpreted, with the sites of all that its goroutines do.

ghost use Rattle.std.specs.Prelude.{◌≡◌, IfOk};
ghost use Rattle.checker.specs.Trees.{tree_in};
ghost use Rattle.syntax.specs.Spans.{tree_of};
ghost use Rattle.syntax.specs.View.{file_of};

use crate::callee::callee;
use crate::operation::operation_at;
use crate::start::start_of;
use crate::trail::{Called, Trail};
use crate::wish::Wish;
use checker::Typed;
use diagnostic_scope::ends::{function_first, top_end};
use go_text::Memory;
use one_thread::{Interpreter, Step};
use reference::{Source, program_of};
use reference_task::task::Frame;
use std::alloc::Global;
use syntax::{NodeId, TopNode};
use word::request::Reply;
use word::value::Word;

/// Two nodes of a function.
#[derive(Clone, Copy)]
struct FunctionNodes {
    /// The first node of its body.
    first: NodeId,
    /// Its own node.
    own: NodeId,
}

/// A program that is interpreted, and nodes of its functions, by their numbers.
#[derive(Drop)]
pub struct Watched<'t> {
    pub source: Source<'t>,
    functions: Vec<FunctionNodes>,
}

/// What a goroutine did last.
#[derive(Clone, Copy, PartialEq, Eq)]
pub enum LastStep {
    /// A step of its own that costs no tick, or a request.
    Free,
    /// A step of its own that costs a tick, except a call.
    Ticked,
    /// A call.
    Called,
}

/// A goroutine, with the sites of its tasks.
#[derive(Drop)]
pub struct Placed<'t> {
    /// Its functions, the one called last at the end.
    pub frames: Vec<Frame<'t>>,
    pub trail: Trail<'t>,
    /// What it waits for, if it fell asleep at its last request. A clause of a `select` that a plan tries counts.
    pub wish: Wish,
    pub last_step: LastStep,
}

impl<'t> Watched<'t> {
    /// A checked program.
    ///
    /// Errors: out of memory.
    pub fn new(alloc: Global, typed: &'t Typed) -> Result<Watched<'t>, Memory>
        ensures { IfOk result (λ watched. file_of watched.source.program.file.now ≡ tree_of (tree_in typed.now)) }
    {
        let program = program_of(alloc, typed)?;
        let functions = functions_of(alloc, program.file.tops.as_slice())?;
        Ok(Watched {
            source: Source { program },
            functions,
        })
    }

    /// The own node of the operation or the statement that the function at this index of a goroutine's functions is at; of a function
    /// that has nothing left to do, its own node.
    ///
    /// Errors: out of memory.
    pub fn node(&self, alloc: Global, placed: &Placed<'t>, index: usize) -> Result<NodeId, Memory> {
        let (Some(frame), Some(track)) = (placed.frames.get(index), placed.trail.tracks.get(index))
        else {
            return Ok(0);
        };
        match track.site() {
            Some(site) => {
                let given = frame.given.as_slice();
                operation_at(alloc, &self.source.program.table, frame, site, given)
            }
            None => Ok(self.own(track.function)),
        }
    }

    /// The own node of the operation or the statement that made a goroutine's last request, which has just been done.
    ///
    /// Errors: out of memory.
    pub fn asking_node(&self, alloc: Global, placed: &Placed<'t>) -> Result<NodeId, Memory> {
        let site = placed.trail.site();
        let Some(frame) = placed.frames.last() else {
            return Ok(site.node);
        };
        let given = match frame.given.as_slice().split_last() {
            Some((_, before)) => before,
            None => &[],
        };
        operation_at(alloc, &self.source.program.table, frame, site, given)
    }

    /// The own node of the function of this number.
    fn own(&self, function: u32) -> NodeId {
        match self.functions.get(function as usize) {
            Some(nodes) => nodes.own,
            None => 0,
        }
    }

    /// A call of the function of this number.
    fn call(&self, function: u32) -> Called {
        Called {
            function,
            first: match self.functions.get(function as usize) {
                Some(nodes) => nodes.first,
                None => 0,
            },
        }
    }

    /// The function that was called last, if that is one more than `depth`.
    fn called(
        &self,
        alloc: Global,
        frames: &[Frame<'t>],
        depth: usize,
    ) -> Result<Option<Called>, Memory> {
        if frames.len() <= depth {
            return Ok(None);
        }
        let Some(caller) = depth.checked_sub(1).and_then(|index| frames.get(index)) else {
            return Ok(None);
        };
        match callee(alloc, &self.source.program, caller)? {
            Some(function) => Ok(Some(self.call(function))),
            None => Ok(None),
        }
    }

    /// The first node of what a goroutine's next task leads to.
    fn start(&self, alloc: Global, placed: &Placed<'t>) -> Result<NodeId, Memory> {
        let site = placed.trail.site();
        match placed.frames.last() {
            Some(top) => start_of(alloc, &self.source.program, top, site),
            None => Ok(site.first),
        }
    }

    /// Notes that a goroutine, of which these are the functions now, has done its next task.
    fn follow(
        &self,
        alloc: Global,
        frames: &[Frame<'t>],
        trail: &mut Trail<'t>,
        start: NodeId,
    ) -> Result<(), Memory> {
        let called = self.called(alloc, frames, trail.tracks.len())?;
        trail.follow(alloc, frames, start, called)
    }
}

/// The nodes of the functions among these declarations.
fn functions_of(alloc: Global, tops: &[TopNode]) -> Result<Vec<FunctionNodes>, Memory> {
    let mut functions = Vec::new(alloc);
    let mut first = 0;
    for top in tops {
        let end = top_end(alloc, first, top);
        if let TopNode::Function(function) = top {
            functions.push(FunctionNodes {
                first: function_first(first, function),
                own: end.saturating_sub(1),
            })?;
        }
        first = end;
    }
    Ok(functions)
}

/// What a goroutine did that made this step; `calls` says whether another function runs now.
fn last_step(step: &Step, calls: bool) -> LastStep {
    match step {
        Step::Ticks if calls => LastStep::Called,
        Step::Ticks => LastStep::Ticked,
        Step::Slides | Step::Asks(_) => LastStep::Free,
    }
}

impl<'t> Interpreter for Watched<'t> {
    ghost use Rattle.syntax.specs.View.{file_of};
    ghost use Rattle.type_table.specs.Visible.{types_of};
    ghost use Rattle.meaning.specs.Tasks.{Frames};
    ghost use Rattle.meaning.proofs.Ends.{source_falls, weight as weight_of};
    ghost use Rattle.reference_task.specs.Tasks.{frames_of};
    ghost use Rattle.reference.specs.Kinds.{source_parts};

    type State = Placed<'t>;

    ghost Held = { Frames };

    ghost parts = { λ watched. source_parts (file_of watched.source.program.file.now) };

    ghost held = { λ watched placed. frames_of (types_of watched.source.program.table) placed.frames.items };

    ghost weight = { λ watched frames. weight_of frames };

    fn step(&self, alloc: Global, state: &mut Self::State) -> Result<Step, Memory> {
        let start = self.start(alloc, state)?;
        let depth = state.frames.len();
        let step = self.source.step(alloc, &mut state.frames)?;
        state.last_step = last_step(&step, state.frames.len() > depth);
        match &step {
            Step::Slides | Step::Ticks => {
                self.follow(alloc, state.frames.as_slice(), &mut state.trail, start)?;
            }
            Step::Asks(request) => state.wish = Wish::of(alloc, request)?,
        }
        Ok(step)
    }

    fn answer(&self, alloc: Global, state: &mut Self::State, reply: Reply) -> Result<(), Memory> {
        self.source.answer(alloc, &mut state.frames, reply)
    }

    fn begin(
        &self,
        alloc: Global,
        function: u32,
        arguments: &[Word],
    ) -> Result<Self::State, Memory> {
        let frames = self.source.begin(alloc, function, arguments)?;
        let trail = Trail::new(alloc, frames.as_slice(), self.call(function))?;
        Ok(Placed {
            frames,
            trail,
            wish: Wish::Nothing,
            last_step: LastStep::Free,
        })
    }

    fn main(&self) -> u32 {
        self.source.main()
    }

    ghost falls = { λ watched frames. source_falls (file_of watched.source.program.file.now) frames };
}
