//! A select.

ghost use Rattle.std.specs.Option.{is_some};
ghost use Rattle.std.specs.Prelude.{◌≡◌, [], IfErr, IfOk, map, option_map};
ghost use Rattle.syntax.specs.View.{body_of, clause_of, clauses, comm_of};
ghost use Rattle.type_table.specs.Visible.{globals_in, types_of};
ghost use Rattle.meaning.specs.Source.{at_clause, at_comm, at_default, cases_of, chosen, select_work};
ghost use Rattle.reference_scope.specs.Scopes.{blocks_of};
ghost use Rattle.reference_value.specs.Stops.{Comes, Stops, given_of};
ghost use Rattle.reference_step.specs.Selects.{default_in};
ghost use Rattle.reference_step.specs.Steps.{Leads, Stays, course_of};
ghost use Rattle.reference_task.specs.Tasks.{tasks_of};

use crate::clause::{case_of, comm_destinations, comm_zeros};
use crate::loops::assigned;
use reference_scope::scope::Scope;
use reference_scope::words::with_first;
use reference_task::outcome::Course;
use reference_task::program::Program;
use reference_task::task::{Position, Task};
use reference_value::fault::Stop;
use reference_value::given::{Given, Need, given_words, needs, parted};
use std::alloc::{AllocError, Global};
use syntax::{ClauseNode, CommNode, StatementNode};
use type_table::table::TypeTable;
use word::request::{Case, Reply, Request};
use word::value::Word;

/// The cases of a select.
fn cases_of<'a, 'g, 't>(
    alloc: Global,
    table: &'a TypeTable<'t>,
    scope: &'a Scope<'t>,
    all: &'t [ClauseNode],
    given: &'g [Given],
) -> Result<(Vec<Case>, &'g [Given]), Stop>
    ensures ok { IfOk result (λ r. Comes (cases_of (globals_in table.now) (blocks_of (types_of table.now) scope.now) [] (clauses (map clause_of all.now))) given.now r.0.items r.1.now) }
    ensures err { IfErr result (Stops (cases_of (globals_in table.now) (blocks_of (types_of table.now) scope.now) [] (clauses (map clause_of all.now))) given.now) }
{
    let Some((first, rest)) = all.split_first() else {
        return Ok((Vec::new(alloc), given));
    };
    match &first.comm {
        None => cases_of(alloc, table, scope, rest, given),
        Some(comm) => {
            let (case, given) = case_of(alloc, table, scope, comm, given)?;
            let (others, given) = cases_of(alloc, table, scope, rest, given)?;
            Ok((with_first(case, others)?, given))
        }
    }
}

/// The statements of a select's default, if it has one.
fn default_of<'a, 't>(
    table: &'a TypeTable<'t>,
    all: &'t [ClauseNode],
) -> Option<&'t [StatementNode]>
    ensures { option_map (λ body. body_of body.now) result ≡ default_in (globals_in table.now) (clauses (map clause_of all.now)) }
{
    let Some((first, rest)) = all.split_first() else {
        return None;
    };
    match &first.comm {
        None => Some(first.body.as_slice()),
        Some(_) => default_of(table, rest),
    }
}

/// A select goes on at the clause that was done, which received these words.
fn at_comm<'t>(
    alloc: Global,
    table: &TypeTable<'t>,
    top: &mut Position<'t>,
    comm: &'t CommNode,
    body: &'t [StatementNode],
    words: &[Word],
) -> Result<Course, AllocError>
    ensures { IfOk result (λ course. at_comm (globals_in table.now) (blocks_of (types_of table.now) top.old.scope) (tasks_of (types_of table.now) top.old.tasks.items) (comm_of comm.now) (body_of body.now) words.now ≡ course_of (types_of table.now) course top.new) }
{
    let destinations = comm_destinations(alloc, table, &top.scope, comm)?;
    let zeros = comm_zeros(alloc, table, &top.scope, comm)?;
    let values = parted(alloc, zeros.as_slice(), words)?;
    top.push(Task::EndSelect)?;
    top.push_all(alloc, body)?;
    assigned(
        alloc,
        table,
        top,
        destinations.as_slice(),
        values.as_slice(),
    )
}

/// A select goes on at the clause of this number, which received these words.
#[tactic(auto, using(crate::proofs::Clauses::later_clause))]
fn at_clause<'a, 's, 't>(
    alloc: Global,
    table: &'a TypeTable<'t>,
    top: &'s mut Position<'t>,
    all: &'t [ClauseNode],
    number: usize,
    words: &'a [Word],
) -> Result<Course, AllocError>
    ensures { IfOk result (λ course. at_clause (globals_in table.now) (blocks_of (types_of table.now) top.old.scope) (tasks_of (types_of table.now) top.old.tasks.items) (clauses (map clause_of all.now)) number words.now ≡ course_of (types_of table.now) course top.new) }
{
    let Some((first, rest)) = all.split_first() else {
        return Ok(Course::Goes);
    };
    match &first.comm {
        None => at_clause(alloc, table, top, rest, number, words),
        Some(comm) => match number {
            0 => Ok(Course::Goes),
            1 => at_comm(alloc, table, top, comm, first.body.as_slice(), words),
            _ => at_clause(alloc, table, top, rest, number - 1, words),
        },
    }
}

/// A select goes on at its default.
fn at_default<'t>(
    alloc: Global,
    table: &TypeTable<'t>,
    top: &mut Position<'t>,
    default: Option<&'t [StatementNode]>,
) -> Result<Course, AllocError>
    ensures { IfOk result (λ course. at_default (globals_in table.now) (blocks_of (types_of table.now) top.old.scope) (tasks_of (types_of table.now) top.old.tasks.items) (option_map (λ body. body_of body.now) default.entry) ≡ course_of (types_of table.now) course top.new) }
{
    let _table = table;
    match default {
        None => Ok(Course::Goes),
        Some(body) => {
            top.scope.enter(alloc)?;
            top.push(Task::EndSelect)?;
            top.push_all(alloc, body)?;
            Ok(Course::Goes)
        }
    }
}

/// A select goes on after this reply.
fn chosen<'t>(
    alloc: Global,
    table: &TypeTable<'t>,
    top: &mut Position<'t>,
    all: &'t [ClauseNode],
    given: &Given,
) -> Result<Course, AllocError>
    ensures { IfOk result (λ course. chosen (globals_in table.now) (blocks_of (types_of table.now) top.old.scope) (tasks_of (types_of table.now) top.old.tasks.items) (clauses (map clause_of all.now)) (given_of given.now) ≡ course_of (types_of table.now) course top.new) }
{
    match given {
        Given::Told(Reply::Clause(number, _)) => {
            let words = given_words(alloc, given)?;
            at_clause(alloc, table, top, all, *number, words.as_slice())
        }
        _ => at_default(alloc, table, top, default_of(table, all)),
    }
}

/// A select.
///
/// Errors: the panic that is met first; what has to be done next; `Memory`.
pub(crate) fn select<'t>(
    alloc: Global,
    program: &Program<'t>,
    top: &mut Position<'t>,
    all: &'t [ClauseNode],
    given: &[Given],
) -> Result<Course, Stop>
    ensures ok { IfOk result (Leads (λ g b t. select_work g b t (clauses (map clause_of all.now))) program.now.table given.now top.old top.new) }
    ensures err { IfErr result (Stays (λ g b t. select_work g b t (clauses (map clause_of all.now))) program.now.table given.now top.old top.new) }
{
    let table = &program.table;
    let (cases, given) = cases_of(alloc, table, &top.scope, all, given)?;
    let request = Request::Select(cases, default_of(table, all).is_some());
    let (first, _) = needs(alloc, Need::Asking(request), given)?;
    Ok(chosen(alloc, table, top, all, first)?)
}
