//! What statements do.

ghost use Rattle.std.specs.Prelude.{◌≡◌, IfErr, IfOk, Some};
ghost use Rattle.syntax.specs.Tree.{Go};
ghost use Rattle.syntax.specs.View.{arguments_of, name_of, returned_of, statement_of};
ghost use Rattle.meaning.specs.Source.{return_work, statement_work};
ghost use Rattle.meaning.specs.Tasks.{GivesBack};
ghost use Rattle.reference_step.specs.Steps.{Becomes, Leads, Stays, arrived, reached_at};

use crate::block::{block, go_on, leave};
use crate::branch::branch;
use crate::loops::for_loop;
use crate::select::select;
use crate::simple::simple;
use crate::variables::{typed_values, untyped_values};
use reference_task::operand::append_words;
use reference_task::outcome::{Course, Outcome};
use reference_task::program::Program;
use reference_task::task::Position;
use reference_value::fault::Stop;
use reference_value::given::{Given, Need, needs};
use reference_value::value::{value, values};
use std::alloc::Global;
use syntax::{ArgumentsNode, Name, ReturnNode, StatementNode};
use word::request::Request;
use word::value::Word;

/// A `go`.
fn start<'t>(
    alloc: Global,
    program: &Program<'t>,
    at: &Position<'t>,
    name: &'t Name,
    arguments: &'t ArgumentsNode,
    given: &[Given],
) -> Result<Course, Stop>
    ensures ok { IfOk result (Leads (λ g b t. statement_work g b t (Go (name_of name.now) (arguments_of arguments.now))) program.now.table given.now at.now at.now) }
    ensures err { IfErr result (Stays (λ g b t. statement_work g b t (Go (name_of name.now) (arguments_of arguments.now))) program.now.table given.now at.now at.now) }
{
    let table = &program.table;
    let (all, given) = values(alloc, table, &at.scope, arguments.values.as_slice(), given)?;
    let mut words = Vec::new(alloc);
    append_words(&mut words, all.as_slice())?;
    let number = program.number_of(name.bytes.as_slice());
    let _reply = needs(alloc, Need::Asking(Request::Go(number, words)), given)?;
    Ok(Course::Goes)
}

/// The words that a return gives back.
fn back<'t>(
    alloc: Global,
    program: &Program<'t>,
    at: &Position<'t>,
    returned: &'t ReturnNode,
    given: &[Given],
) -> Result<Vec<Word>, Stop>
    ensures ok { IfOk result (λ words. arrived (reached_at (λ g b t. return_work g b t (returned_of returned.now)) program.now.table given.now at.now) ≡ Some (GivesBack words.items)) }
    ensures err { IfErr result (Stays (λ g b t. return_work g b t (returned_of returned.now)) program.now.table given.now at.now at.now) }
{
    match returned {
        ReturnNode::Nothing => Ok(Vec::new(alloc)),
        ReturnNode::Value(expression) => {
            let (words, _) = value(alloc, &program.table, &at.scope, expression, given)?;
            Ok(words)
        }
    }
}

/// Performs a statement.
///
/// Errors: the panic that is met first; what has to be done next; `Memory`.
pub(crate) fn statement<'t>(
    alloc: Global,
    program: &Program<'t>,
    top: &mut Position<'t>,
    statement: &'t StatementNode,
    given: &[Given],
) -> Result<Outcome, Stop>
    ensures ok { IfOk result (Becomes (λ g b t. statement_work g b t (statement_of statement.now)) program.now.table given.now top.old top.new) }
    ensures err { IfErr result (Stays (λ g b t. statement_work g b t (statement_of statement.now)) program.now.table given.now top.old top.new) }
{
    match statement {
        StatementNode::Empty => Ok(Outcome::Leads(Course::Goes)),
        StatementNode::Simple(one) => Ok(Outcome::Leads(simple(alloc, program, top, one, given)?)),
        StatementNode::Typed(names, kind, right) => {
            let course = typed_values(alloc, program, top, names.as_slice(), kind, right, given)?;
            Ok(Outcome::Leads(course))
        }
        StatementNode::Untyped(names, right) => {
            let (names, right) = (names.as_slice(), right.as_slice());
            let course = untyped_values(alloc, program, top, names, right, given)?;
            Ok(Outcome::Leads(course))
        }
        StatementNode::Block(body) => {
            block(alloc, top, body.as_slice())?;
            Ok(Outcome::Leads(Course::Goes))
        }
        StatementNode::If(one) => Ok(Outcome::Leads(branch(alloc, program, top, one)?)),
        StatementNode::For(header, body) => {
            let course = for_loop(alloc, program, top, header, body.as_slice(), given)?;
            Ok(Outcome::Leads(course))
        }
        StatementNode::Select(all) => {
            let course = select(alloc, program, top, all.as_slice(), given)?;
            Ok(Outcome::Leads(course))
        }
        StatementNode::Go(name, arguments) => Ok(Outcome::Leads(start(
            alloc, program, top, name, arguments, given,
        )?)),
        StatementNode::Return(one) => Ok(Outcome::Returns(back(alloc, program, top, one, given)?)),
        StatementNode::Break => {
            leave(top);
            Ok(Outcome::Leads(Course::Goes))
        }
        StatementNode::Continue => {
            go_on(top)?;
            Ok(Outcome::Leads(Course::Goes))
        }
    }
}
