//! What a goroutine still has to do.

ghost use Rattle.std.specs.Prelude.{◌≡◌, ◌++◌, ◌∷◌, ℕ, List, IfOk, OnOk};
ghost use Rattle.syntax.specs.View.{body_of, statement_of};
ghost use Rattle.meaning.specs.Tasks.{Do, all_of, frame};
ghost use Rattle.reference_scope.specs.Scopes.{blocks_of};
ghost use Rattle.reference_task.specs.Tasks.{loop_of, position_of, task_of, tasks_of};

use reference_scope::place::Destination;
use reference_scope::scope::Scope;
use reference_scope::words::put_last;
use reference_value::given::Given;
use std::alloc::{AllocError, Global};
use syntax::{ExpressionNode, IfNode, SimpleNode, StatementNode};
use word::value::Word;

/// A loop with a condition and a post statement.
#[derive(Clone, Copy)]
pub struct Repeat<'t> {
    pub condition: Option<&'t ExpressionNode>,
    pub post: Option<&'t SimpleNode>,
    pub body: &'t [StatementNode],
}

/// A loop over a channel: where its items go, and a zero like them.
#[derive(Drop)]
pub struct Range<'t> {
    pub destinations: Vec<Destination<'t>>,
    pub zero: Vec<Word>,
    pub body: &'t [StatementNode],
}

/// A loop.
#[derive(Drop)]
pub enum Loop<'t> {
    Repeating(Box<Repeat<'t>>),
    Ranging(Box<Range<'t>>),
}

impl<'t> Range<'t> {
    /// A copy of this loop.
    pub fn copy(&self, alloc: Global) -> Result<Range<'t>, AllocError>
        ensures destinations { IfOk result (λ range. range.destinations.items ≡ self.now.destinations.items) }
        ensures zero { IfOk result (λ range. range.zero.items ≡ self.now.zero.items) }
        ensures body { IfOk result (λ range. range.body ≡ self.now.body) }
    {
        Ok(Range {
            destinations: Vec::from_slice(alloc, self.destinations.as_slice())?,
            zero: Vec::from_slice(alloc, self.zero.as_slice())?,
            body: self.body,
        })
    }
}

impl<'t> Loop<'t> {
    /// A copy of this loop.
    pub fn copy(&self, alloc: Global) -> Result<Loop<'t>, AllocError>
        ensures { (types : List (List ℕ)) → IfOk result (λ copy. loop_of types copy ≡ loop_of types self.now) }
    {
        match self {
            Loop::Repeating(repeat) => Ok(Loop::Repeating(Box::new(alloc, **repeat)?)),
            Loop::Ranging(range) => Ok(Loop::Ranging(Box::new(alloc, range.copy(alloc)?)?)),
        }
    }
}

/// What is still to be done.
#[derive(Drop)]
pub enum Task<'t> {
    /// A statement.
    Do(Box<&'t StatementNode>),
    /// A simple statement.
    Simply(Box<&'t SimpleNode>),
    /// An if.
    Branch(Box<&'t IfNode>),
    /// A block.
    Enclose(Box<&'t [StatementNode]>),
    /// The end of a block.
    EndBlock,
    /// An if, after its first statement.
    Decide(Box<&'t IfNode>),
    /// A loop at its head.
    Head(Loop<'t>),
    /// A loop at the end of its body.
    Again(Loop<'t>),
    /// A loop that goes back to its head.
    Turn(Loop<'t>),
    /// The end of a clause of a select.
    EndSelect,
}

/// Where a function is: its variables, and its tasks, the next one last.
pub struct Position<'t> {
    pub scope: Scope<'t>,
    pub tasks: Vec<Task<'t>>,
}

impl Drop for Position<'_> {
    fn drop(self) {
        let Position { scope, tasks } = self;
        drop(scope);
        drop(tasks);
    }
}

/// A function that runs or waits: where it is, and what calls and requests within its next task have given so far.
pub struct Frame<'t> {
    pub position: Position<'t>,
    pub given: Vec<Given>,
}

impl Drop for Frame<'_> {
    fn drop(self) {
        let Frame { position, given } = self;
        drop(position);
        drop(given);
    }
}

impl<'t> Frame<'t> {
    /// Where the function is, and what was given.
    pub fn into_parts(self) -> (Position<'t>, Vec<Given>)
        ensures position { result.0 ≡ self.entry.position }
        ensures given { result.1 ≡ self.entry.given }
    {
        let Frame { position, given } = self;
        (position, given)
    }
}

impl<'t> Position<'t> {
    /// A task is to be done first.
    #[tactic(auto, using(reference_scope::proofs::Lasts::shown_last))]
    pub fn push(&mut self, task: Task<'t>) -> Result<(), AllocError>
        ensures { (types : List (List ℕ)) → OnOk result (position_of types self.new ≡ frame (blocks_of types self.old.scope) (task_of types task.entry ∷ tasks_of types self.old.tasks.items)) }
    {
        put_last(&mut self.tasks, task)?;
        Ok(())
    }

    /// This statement is to be done first.
    fn push_one(&mut self, alloc: Global, statement: &'t StatementNode) -> Result<(), AllocError>
        ensures { (types : List (List ℕ)) → OnOk result (position_of types self.new ≡ frame (blocks_of types self.old.scope) (Do (statement_of statement.now) ∷ tasks_of types self.old.tasks.items)) }
    {
        self.push(Task::Do(Box::new(alloc, statement)?))
    }

    /// These statements are to be done first.
    #[tactic(auto, using(crate::proofs::Bodies::last_first))]
    pub fn push_all(&mut self, alloc: Global, body: &'t [StatementNode]) -> Result<(), AllocError>
        ensures { (types : List (List ℕ)) → OnOk result (position_of types self.new ≡ frame (blocks_of types self.old.scope) (all_of (body_of body.now) ++ tasks_of types self.old.tasks.items)) }
    {
        let mut left = body;
        while let Some((last, before)) = left.split_last() {
            self.push_one(alloc, last)?;
            left = before;
        }
        Ok(())
    }
}
