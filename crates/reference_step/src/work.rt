//! What the next task of a function does.

ghost use Rattle.std.specs.Prelude.{◌≡◌, ◌∷◌, [], IfErr, IfOk};
ghost use Rattle.meaning.specs.Source.{task_work};
ghost use Rattle.reference_step.specs.Steps.{Becomes, Leads, Stays};
ghost use Rattle.reference_task.specs.Tasks.{task_of};
ghost use Rattle.type_table.specs.Visible.{types_of};

use crate::block::block;
use crate::branch::{branch, decide};
use crate::loops::{again, head};
use crate::simple::simple;
use crate::statement::statement;
use reference_task::outcome::{Course, Outcome};
use reference_task::program::Program;
use reference_task::task::{Position, Task};
use reference_value::fault::Stop;
use reference_value::given::Given;
use std::alloc::Global;

/// Works on a task, after which the others of `top` are to be done.
///
/// Errors: the panic that is met first; what has to be done next; `Memory`.
pub fn work<'t>(
    alloc: Global,
    program: &Program<'t>,
    top: &mut Position<'t>,
    task: &Task<'t>,
    given: &[Given],
) -> Result<Outcome, Stop>
    ensures ok { IfOk result (Becomes (λ g b t. task_work g b t (task_of (types_of program.now.table) task.now)) program.now.table given.now top.old top.new) }
    ensures err { IfErr result (Stays (λ g b t. task_work g b t (task_of (types_of program.now.table) task.now)) program.now.table given.now top.old top.new) }
{
    match task {
        Task::Do(one) => statement(alloc, program, top, **one, given),
        Task::Simply(one) => Ok(Outcome::Leads(simple(alloc, program, top, **one, given)?)),
        Task::Branch(one) => Ok(Outcome::Leads(branch(alloc, program, top, **one)?)),
        Task::Enclose(body) => {
            block(alloc, top, **body)?;
            Ok(Outcome::Leads(Course::Goes))
        }
        Task::EndBlock | Task::EndSelect => {
            top.scope.leave();
            Ok(Outcome::Leads(Course::Goes))
        }
        Task::Decide(one) => Ok(Outcome::Leads(decide(alloc, program, top, **one, given)?)),
        Task::Head(at) => Ok(Outcome::Leads(head(alloc, program, top, at, given)?)),
        Task::Again(at) => {
            again(alloc, program, top, at)?;
            Ok(Outcome::Leads(Course::Goes))
        }
        Task::Turn(at) => {
            top.push(Task::Head(at.copy(alloc)?))?;
            Ok(Outcome::Leads(Course::Moves))
        }
    }
}
