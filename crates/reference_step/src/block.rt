//! Blocks, and the ways out of them.

ghost use Rattle.std.specs.Prelude.{◌≡◌, ◌++◌, ◌∷◌, ℕ, List, OnOk};
ghost use Rattle.syntax.specs.Tree.{Alone};
ghost use Rattle.syntax.specs.View.{body_of, simple_of};
ghost use Rattle.meaning.specs.Tasks.{Do, EndBlock, all_of, broken, continued, frame};
ghost use Rattle.meaning.specs.Variables.{entered};
ghost use Rattle.reference_scope.specs.Scopes.{blocks_of};
ghost use Rattle.reference_task.specs.Tasks.{position_of, tasks_of};

use reference_task::task::{Position, Task};
use std::alloc::{AllocError, Global};
use syntax::{SimpleNode, StatementNode};

// The arms below drop a task by a call. One that goes out of scope after a `match` is proved to be dropped in each arm
// for each of its variants, which takes five times as long.

/// Leaves a loop or a select.
pub fn leave(top: &mut Position<'_>)
    ensures { (types : List (List ℕ)) → position_of types top.new ≡ broken (blocks_of types top.old.scope) (tasks_of types top.old.tasks.items) }
{
    while let Some(task) = top.tasks.pop() {
        match task {
            Task::EndBlock => {
                drop(task);
                top.scope.leave();
            }
            Task::Again(_) | Task::EndSelect => {
                drop(task);
                return top.scope.leave();
            }
            _ => drop(task),
        }
    }
}

/// Goes to the end of a loop's body.
pub fn go_on(top: &mut Position<'_>) -> Result<(), AllocError>
    ensures { (types : List (List ℕ)) → OnOk result (position_of types top.new ≡ continued (blocks_of types top.old.scope) (tasks_of types top.old.tasks.items)) }
{
    while let Some(task) = top.tasks.pop() {
        match task {
            Task::EndBlock | Task::EndSelect => {
                drop(task);
                top.scope.leave();
            }
            Task::Again(_) => {
                top.push(task)?;
                return Ok(());
            }
            _ => drop(task),
        }
    }
    Ok(())
}

/// Goes into a block, at whose end it is left.
pub(crate) fn opens(alloc: Global, top: &mut Position<'_>) -> Result<(), AllocError>
    ensures { (types : List (List ℕ)) → OnOk result (position_of types top.new ≡ frame (entered (blocks_of types top.old.scope)) (EndBlock ∷ tasks_of types top.old.tasks.items)) }
{
    top.scope.enter(alloc)?;
    top.push(Task::EndBlock)
}

/// A simple statement is to be done first.
pub(crate) fn simply<'t>(
    alloc: Global,
    top: &mut Position<'t>,
    simple: &'t SimpleNode,
) -> Result<(), AllocError>
    ensures { (types : List (List ℕ)) → OnOk result (position_of types top.new ≡ frame (blocks_of types top.old.scope) (Do (Alone (simple_of simple.now)) ∷ tasks_of types top.old.tasks.items)) }
{
    top.push(Task::Simply(Box::new(alloc, simple)?))
}

/// Goes into a block of these statements, at whose end it is left.
pub(crate) fn block<'t>(
    alloc: Global,
    top: &mut Position<'t>,
    body: &'t [StatementNode],
) -> Result<(), AllocError>
    ensures { (types : List (List ℕ)) → OnOk result (position_of types top.new ≡ frame (entered (blocks_of types top.old.scope)) (all_of (body_of body.now) ++ EndBlock ∷ tasks_of types top.old.tasks.items)) }
{
    opens(alloc, top)?;
    top.push_all(alloc, body)
}
