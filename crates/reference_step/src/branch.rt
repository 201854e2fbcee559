//! What ifs do.

ghost use Rattle.std.specs.Prelude.{◌≡◌, IfErr, IfOk, OnOk};
ghost use Rattle.syntax.specs.View.{body_of, branch_of, otherwise_of};
ghost use Rattle.type_table.specs.Visible.{globals_in, types_of};
ghost use Rattle.meaning.specs.Source.{branch_work, decides, otherwise_work, task_work};
ghost use Rattle.meaning.specs.Tasks.{Goes};
ghost use Rattle.meaning.specs.Worked.{ready};
ghost use Rattle.reference_scope.specs.Scopes.{blocks_of};
ghost use Rattle.reference_step.specs.Steps.{Leads, Stays, course_of};
ghost use Rattle.reference_task.specs.Tasks.{decided, position_of, tasks_of};

use crate::block::{block, opens, simply};
use reference_task::operand::{one, truth_in};
use reference_task::outcome::Course;
use reference_task::program::Program;
use reference_task::task::{Position, Task};
use reference_value::fault::Stop;
use reference_value::given::Given;
use std::alloc::{AllocError, Global};
use syntax::node::IfHeader;
use syntax::{ElseNode, IfNode};
use word::value::Word;

/// An if.
pub(crate) fn branch<'t>(
    alloc: Global,
    program: &Program<'t>,
    top: &mut Position<'t>,
    branch: &'t IfNode,
) -> Result<Course, AllocError>
    ensures { IfOk result (λ course. branch_work (globals_in program.now.table) (blocks_of (types_of program.now.table) top.old.scope) (tasks_of (types_of program.now.table) top.old.tasks.items) (branch_of branch.now) ≡ ready (course_of (types_of program.now.table) course top.new)) }
{
    let _program = program;
    opens(alloc, top)?;
    top.push(Task::Decide(Box::new(alloc, branch)?))?;
    match &branch.header {
        IfHeader::Simple(first) => simply(alloc, top, first)?,
        IfHeader::Bare => {}
        IfHeader::Semicolon => {}
    }
    Ok(Course::Goes)
}

/// What comes after the block of an `if`.
fn otherwise<'t>(
    alloc: Global,
    program: &Program<'t>,
    top: &mut Position<'t>,
    otherwise: &'t ElseNode,
) -> Result<(), AllocError>
    ensures { OnOk result (otherwise_work (globals_in program.now.table) (blocks_of (types_of program.now.table) top.old.scope) (tasks_of (types_of program.now.table) top.old.tasks.items) (otherwise_of otherwise.now) ≡ ready (Goes (position_of (types_of program.now.table) top.new))) }
{
    let _program = program;
    match otherwise {
        ElseNode::Nothing => Ok(()),
        ElseNode::Block(body) => block(alloc, top, body.as_slice()),
        ElseNode::If(next) => {
            let next: &'t IfNode = next;
            top.push(Task::Branch(Box::new(alloc, next)?))?;
            Ok(())
        }
    }
}

/// An if whose condition is this word.
fn decides<'t>(
    alloc: Global,
    program: &Program<'t>,
    top: &mut Position<'t>,
    branch: &'t IfNode,
    word: Word,
) -> Result<(), AllocError>
    ensures { OnOk result (decides (globals_in program.now.table) (blocks_of (types_of program.now.table) top.old.scope) (tasks_of (types_of program.now.table) top.old.tasks.items) (body_of branch.now.body.items) (otherwise_of branch.now.otherwise) word ≡ ready (Goes (position_of (types_of program.now.table) top.new))) }
{
    if truth_in(word) {
        return block(alloc, top, branch.body.as_slice());
    }
    otherwise(alloc, program, top, &branch.otherwise)
}

/// An if, after its first statement.
///
/// Errors: the panic that is met first; what has to be done next; `Memory`.
pub(crate) fn decide<'t>(
    alloc: Global,
    program: &Program<'t>,
    top: &mut Position<'t>,
    branch: &'t IfNode,
    given: &[Given],
) -> Result<Course, Stop>
    ensures ok { IfOk result (Leads (λ g b t. task_work g b t (decided (branch_of branch.now))) program.now.table given.now top.old top.new) }
    ensures err { IfErr result (Stays (λ g b t. task_work g b t (decided (branch_of branch.now))) program.now.table given.now top.old top.new) }
{
    let (word, _) = one(alloc, &program.table, &top.scope, &branch.condition, given)?;
    decides(alloc, program, top, branch, word)?;
    Ok(Course::Goes)
}
