//! The nodes of the statements that a task leads to.

use crate::site::{Inside, Site};
use diagnostic_scope::ends::{clause_first, else_first, loop_first, post_first, then_first};
use go_text::Memory;
use reference_task::operand::{one, truth_in};
use reference_task::program::Program;
use reference_task::task::{Frame, Task};
use reference_value::fault::Stop;
use reference_value::given::Given;
use std::alloc::Global;
use syntax::{ClauseNode, IfNode, NodeId};
use word::request::Reply;

/// The first node of what the next task of a function, which is at `site`, leads to.
///
/// Errors: out of memory.
pub(crate) fn start_of<'t>(
    alloc: Global,
    program: &Program<'t>,
    top: &Frame<'t>,
    site: Site<'t>,
) -> Result<NodeId, Memory> {
    match (top.position.tasks.last(), site.inside) {
        (Some(Task::Decide(_)), Inside::If(branch)) => chosen(alloc, program, top, site, branch),
        (Some(Task::Head(_)), Inside::For(header)) => Ok(loop_first(alloc, site.first, header)),
        (Some(Task::Again(_)), Inside::For(header)) => Ok(post_first(alloc, site.first, header)),
        (Some(Task::Do(_)), Inside::Select(clauses)) => {
            Ok(done(alloc, top.given.as_slice(), site, clauses))
        }
        _ => Ok(site.first),
    }
}

/// The first node of the branch of an `if` that is taken. Of an `if` whose condition isn't known yet, its own first one.
fn chosen<'t>(
    alloc: Global,
    program: &Program<'t>,
    top: &Frame<'t>,
    site: Site<'t>,
    branch: &'t IfNode,
) -> Result<NodeId, Memory> {
    let scope = &top.position.scope;
    match one(
        alloc,
        &program.table,
        scope,
        &branch.condition,
        top.given.as_slice(),
    ) {
        Ok((word, _)) if truth_in(word) => Ok(then_first(site.first, branch)),
        Ok(_) => Ok(else_first(alloc, site.first, branch)),
        Err(Stop::Memory) => Err(Memory),
        Err(_) => Ok(site.first),
    }
}

/// The first node of the statements of a select's clause that was done. Of a select that isn't done yet, its own first one.
fn done(alloc: Global, given: &[Given], site: Site<'_>, clauses: &[ClauseNode]) -> NodeId {
    match given.last() {
        Some(Given::Told(Reply::Clause(number, _))) => {
            clause_first(alloc, site.first, clauses, *number)
        }
        Some(Given::Told(Reply::Default)) => clause_first(alloc, site.first, clauses, 0),
        _ => site.first,
    }
}
