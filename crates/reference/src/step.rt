//! Steps of goroutines.

ghost use Rattle.std.specs.Prelude.{◌≡◌, ◌∷◌, ℕ, List, IfOk, OnOk, slice_get};
ghost use Rattle.word.specs.Views.{reply_of};
ghost use Rattle.syntax.specs.View.{file_of};
ghost use Rattle.type_table.specs.Visible.{types_of};
ghost use Rattle.meaning.specs.Source.{enters, functions, give_back, needed, source_answer, source_next, task_work};
ghost use Rattle.one_thread.specs.Steps.{Moves};
ghost use Rattle.reference_scope.specs.Parts.{values_of};
ghost use Rattle.reference_value.specs.Stops.{need_of};
ghost use Rattle.reference_step.specs.Steps.{reached_at};
ghost use Rattle.reference_task.specs.Tasks.{frame_of, frames_of, task_of};
ghost use Rattle.reference.specs.Steps.{Steps, frame_before, step_to};

use crate::call::{entered, function_of};
use go_text::Memory;
use one_thread::Step;
use reference_step::work::work;
use reference_task::outcome::{Course, Outcome};
use reference_task::program::Program;
use reference_task::task::{Frame, Position, Task};
use reference_value::fault::Stop;
use reference_value::given::{Given, Need};
use std::alloc::{AllocError, Global};
use word::limits::MAX_DEPTH;
use word::panic::Panic;
use word::request::{Reply, Request};
use word::value::Word;

/// A call of the function with this number: at most 1,000 functions deep.
#[tactic(auto, using(reference_scope::proofs::Lasts::shown_last))]
fn enters<'t>(
    alloc: Global,
    program: &Program<'t>,
    frames: &mut Vec<Frame<'t>>,
    number: usize,
    arguments: &[Vec<Word>],
) -> Result<Step, Memory>
    ensures { IfOk result (λ step. Moves (enters (file_of program.now.file.now) (frames_of (types_of program.now.table) frames.old.items) (values_of arguments.now) (slice_get (functions (file_of program.now.file.now)) number)) step (frames_of (types_of program.now.table) frames.new.items) (frames_of (types_of program.now.table) frames.old.items)) }
{
    let Some(function) = function_of(program, number) else {
        return Ok(Step::Asks(Request::Panic(Panic::CallDepth)));
    };
    if frames.len() >= MAX_DEPTH {
        return Ok(Step::Asks(Request::Panic(Panic::CallDepth)));
    }
    let frame = entered(alloc, program, function, arguments)?;
    frames.push(frame)?;
    Ok(Step::Ticks)
}

/// What a function needs before it goes on.
fn needed<'t>(
    alloc: Global,
    program: &Program<'t>,
    frames: &mut Vec<Frame<'t>>,
    need: Need,
) -> Result<Step, Memory>
    ensures { IfOk result (λ step. Moves (needed (file_of program.now.file.now) (frames_of (types_of program.now.table) frames.old.items) (need_of need)) step (frames_of (types_of program.now.table) frames.new.items) (frames_of (types_of program.now.table) frames.old.items)) }
{
    match need {
        Need::Asking(request) => Ok(Step::Asks(request)),
        Need::Calling(number, arguments) => {
            enters(alloc, program, frames, number, arguments.as_slice())
        }
    }
}

/// A function returns these words to the one that called it, which waits last.
#[tactic(auto, using(reference_scope::proofs::Lasts::shown_last))]
fn gives_back<'t>(
    program: &Program<'t>,
    frames: &mut Vec<Frame<'t>>,
    top: Frame<'t>,
    words: Vec<Word>,
) -> Result<Step, Memory>
    ensures { IfOk result (λ step. Moves (give_back words.items (frames_of (types_of program.now.table) frames.old.items)) step (frames_of (types_of program.now.table) frames.new.items) (frame_of (types_of program.now.table) top.entry ∷ frames_of (types_of program.now.table) frames.old.items)) }
{
    let _program = program;
    let Some(mut caller) = frames.pop() else {
        frames.push(top)?;
        return Ok(Step::Asks(Request::End));
    };
    caller.given.push(Given::Yielded(words))?;
    frames.push(caller)?;
    Ok(Step::Slides)
}

/// The step of a goroutine whose task is done.
fn step_to(course: Course) -> Step
    ensures { result ≡ step_to course }
{
    match course {
        Course::Goes => Step::Slides,
        Course::Moves => Step::Ticks,
    }
}

/// The frame as it was before this task was taken.
fn restored<'t>(
    program: &Program<'t>,
    mut position: Position<'t>,
    next: Task<'t>,
    given: Vec<Given>,
) -> Result<Frame<'t>, AllocError>
    ensures { IfOk result (λ top. frame_of (types_of program.now.table) top ≡ frame_before (types_of program.now.table) position.entry next.entry given.items) }
{
    let _program = program;
    position.push(next)?;
    Ok(Frame { position, given })
}

/// The function that runs does its next task; the others at `position` are to be done after it.
#[tactic(auto, using(reference_scope::proofs::Lasts::shown_last))]
fn does<'t>(
    alloc: Global,
    program: &Program<'t>,
    frames: &mut Vec<Frame<'t>>,
    mut position: Position<'t>,
    next: Task<'t>,
    mut given: Vec<Given>,
) -> Result<Step, Memory>
    ensures { IfOk result (λ step. Steps (file_of program.now.file.now) (frame_before (types_of program.now.table) position.entry next.entry given.items) (frames_of (types_of program.now.table) frames.old.items) (reached_at (λ g b t. task_work g b t (task_of (types_of program.now.table) next.entry)) program.now.table given.items position.entry) step (frames_of (types_of program.now.table) frames.new.items)) }
{
    match work(alloc, program, &mut position, &next, given.as_slice()) {
        Ok(Outcome::Leads(course)) => {
            drop(next);
            given.clear();
            frames.push(Frame { position, given })?;
            Ok(step_to(course))
        }
        Ok(Outcome::Returns(words)) => {
            let top = restored(program, position, next, given)?;
            gives_back(program, frames, top, words)
        }
        Err(Stop::Memory) => {
            drop(next);
            Err(Memory)
        }
        Err(Stop::Panics(cause)) => {
            frames.push(restored(program, position, next, given)?)?;
            Ok(Step::Asks(Request::Panic(cause)))
        }
        Err(Stop::Needs(need)) => {
            frames.push(restored(program, position, next, given)?)?;
            needed(alloc, program, frames, Box::into_inner(need))
        }
    }
}

/// The next step of a goroutine. One that makes a request stays as it is.
#[tactic(auto, using(reference_scope::proofs::Lasts::shown_last))]
pub(crate) fn step<'t>(
    alloc: Global,
    program: &Program<'t>,
    frames: &mut Vec<Frame<'t>>,
) -> Result<Step, Memory>
    ensures { IfOk result (λ step. Moves (source_next (file_of program.now.file.now) (frames_of (types_of program.now.table) frames.old.items)) step (frames_of (types_of program.now.table) frames.new.items) (frames_of (types_of program.now.table) frames.old.items)) }
{
    let Some(top) = frames.pop() else {
        return Ok(Step::Asks(Request::End));
    };
    let (mut position, given) = top.into_parts();
    match position.tasks.pop() {
        None => gives_back(program, frames, Frame { position, given }, Vec::new(alloc)),
        Some(next) => does(alloc, program, frames, position, next, given),
    }
}

/// A goroutine that made a request gets this reply.
#[tactic(auto, using(reference_scope::proofs::Lasts::shown_last))]
pub(crate) fn answer(frames: &mut Vec<Frame<'_>>, reply: Reply) -> Result<(), Memory>
    ensures { (types : List (List ℕ)) → OnOk result (frames_of types frames.new.items ≡ source_answer (frames_of types frames.old.items) (reply_of reply)) }
{
    let Some(mut top) = frames.pop() else {
        return Ok(());
    };
    top.given.push(Given::Told(reply))?;
    frames.push(top)?;
    Ok(())
}
