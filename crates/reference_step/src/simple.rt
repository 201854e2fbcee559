//! What simple statements do.

ghost use Rattle.std.specs.Prelude.{◌≡◌, ◌∷◌, [], IfErr, IfOk, OnOk, map, pos};
ghost use Rattle.syntax.specs.Tree.{Assign, CallAlone, Close, Define, Print, ReceiveAlone, Send, Update};
ghost use Rattle.syntax.specs.View.{arguments_of, expression_of, name_of, part_of, place_of, simple_of};
ghost use Rattle.type_table.specs.Visible.{globals_in, types_of};
ghost use Rattle.word.specs.declared.value.Word.TheVariants.{Int};
ghost use Rattle.meaning.specs.Destinations.{placed};
ghost use Rattle.meaning.specs.Expressions.{beside, word_in};
ghost use Rattle.meaning.specs.Source.{gives, simple_work, updates, value_at};
ghost use Rattle.meaning.specs.Tasks.{frame};
ghost use Rattle.meaning.specs.Variables.{all_stored};
ghost use Rattle.meaning.specs.Worked.{fails, ready};
ghost use Rattle.reference_scope.specs.Destinations.{destinations_of};
ghost use Rattle.reference_scope.specs.Scopes.{blocks_of};
ghost use Rattle.reference_step.specs.Steps.{Leads, Stays};
ghost use Rattle.reference_task.specs.Tasks.{position_of, tasks_of};

use crate::places::defined;
use reference_scope::place::{Destination, all_placed, placed, store, value_at};
use reference_scope::words::{between, settled, single, with_first, word_in};
use reference_task::operand::{channel, item_in, printed, texts};
use reference_task::outcome::Course;
use reference_task::program::Program;
use reference_task::task::Position;
use reference_value::callee::number_of;
use reference_value::fault::Stop;
use reference_value::given::{Given, Need, needs};
use reference_value::value::{beside, right_values, values};
use std::alloc::{AllocError, Global};
use syntax::{
    ArgumentsNode, BinaryOperator, ExpressionNode, Name, PartNode, PlaceNode, SimpleNode,
};
use word::panic::Panic;
use word::request::Request;
use word::value::Word;

/// A call whose result is dropped.
fn call<'t>(
    alloc: Global,
    program: &Program<'t>,
    at: &Position<'t>,
    name: &'t Name,
    arguments: &'t ArgumentsNode,
    given: &[Given],
) -> Result<Course, Stop>
    ensures ok { IfOk result (Leads (λ g b t. simple_work g b t (CallAlone (name_of name.now) (arguments_of arguments.now))) program.now.table given.now at.now at.now) }
    ensures err { IfErr result (Stays (λ g b t. simple_work g b t (CallAlone (name_of name.now) (arguments_of arguments.now))) program.now.table given.now at.now at.now) }
{
    let table = &program.table;
    let (all, given) = values(alloc, table, &at.scope, arguments.values.as_slice(), given)?;
    let number = number_of(table, name.bytes.as_slice());
    let _result = needs(alloc, Need::Calling(number, all), given)?;
    Ok(Course::Goes)
}

/// A close.
fn close<'t>(
    alloc: Global,
    program: &Program<'t>,
    at: &Position<'t>,
    from: &'t ExpressionNode,
    given: &[Given],
) -> Result<Course, Stop>
    ensures ok { IfOk result (Leads (λ g b t. simple_work g b t (Close (expression_of from.now))) program.now.table given.now at.now at.now) }
    ensures err { IfErr result (Stays (λ g b t. simple_work g b t (Close (expression_of from.now))) program.now.table given.now at.now at.now) }
{
    let (c, given) = channel(alloc, &program.table, &at.scope, from, given)?;
    let _reply = needs(alloc, Need::Asking(Request::Close(c)), given)?;
    Ok(Course::Goes)
}

/// A receive whose item is dropped.
fn receive<'t>(
    alloc: Global,
    program: &Program<'t>,
    at: &Position<'t>,
    from: &'t ExpressionNode,
    given: &[Given],
) -> Result<Course, Stop>
    ensures ok { IfOk result (Leads (λ g b t. simple_work g b t (ReceiveAlone (expression_of from.now))) program.now.table given.now at.now at.now) }
    ensures err { IfErr result (Stays (λ g b t. simple_work g b t (ReceiveAlone (expression_of from.now))) program.now.table given.now at.now at.now) }
{
    let (c, given) = channel(alloc, &program.table, &at.scope, from, given)?;
    let _reply = needs(alloc, Need::Asking(Request::Receive(c)), given)?;
    Ok(Course::Goes)
}

/// A print.
fn print<'t>(
    alloc: Global,
    program: &Program<'t>,
    at: &Position<'t>,
    line: bool,
    parts: &'t [PartNode],
    trailing: bool,
    given: &[Given],
) -> Result<Course, Stop>
    ensures ok { IfOk result (Leads (λ g b t. simple_work g b t (Print line (map part_of parts.now) trailing)) program.now.table given.now at.now at.now) }
    ensures err { IfErr result (Stays (λ g b t. simple_work g b t (Print line (map part_of parts.now) trailing)) program.now.table given.now at.now at.now) }
{
    let _trailing = trailing;
    let (all, given) = texts(alloc, &program.table, &at.scope, parts, given)?;
    let bytes = printed(alloc, line, all.as_slice())?;
    let _reply = needs(alloc, Need::Asking(Request::Print(bytes)), given)?;
    Ok(Course::Goes)
}

/// A send.
fn send<'t>(
    alloc: Global,
    program: &Program<'t>,
    at: &Position<'t>,
    to: &'t ExpressionNode,
    item: &'t ExpressionNode,
    given: &[Given],
) -> Result<Course, Stop>
    ensures ok { IfOk result (Leads (λ g b t. simple_work g b t (Send (expression_of to.now) (expression_of item.now))) program.now.table given.now at.now at.now) }
    ensures err { IfErr result (Stays (λ g b t. simple_work g b t (Send (expression_of to.now) (expression_of item.now))) program.now.table given.now at.now at.now) }
{
    let (c, given) = channel(alloc, &program.table, &at.scope, to, given)?;
    let (words, given) = item_in(alloc, &program.table, &at.scope, to, item, given)?;
    let _reply = needs(alloc, Need::Asking(Request::Send(c, words)), given)?;
    Ok(Course::Goes)
}

/// The values of a right side go to these destinations.
///
/// Errors: the panic that is met first; what has to be done next; `Memory`.
pub(crate) fn gives<'t>(
    alloc: Global,
    program: &Program<'t>,
    top: &mut Position<'t>,
    destinations: &[Destination<'t>],
    right: &'t [ExpressionNode],
    given: &[Given],
) -> Result<Course, Stop>
    ensures ok { IfOk result (Leads (λ g b t. gives g b t (destinations_of (types_of program.now.table) destinations.now) (map expression_of right.now)) program.now.table given.now top.old top.new) }
    ensures err { IfErr result (Stays (λ g b t. gives g b t (destinations_of (types_of program.now.table) destinations.now) (map expression_of right.now)) program.now.table given.now top.old top.new) }
{
    let table = &program.table;
    let count = destinations.len();
    let (all, _) = right_values(alloc, table, &top.scope, count, right, given)?;
    store(alloc, table, &mut top.scope, destinations, all.as_slice())?;
    Ok(Course::Moves)
}

/// The word that an lvalue holds.
fn held<'t>(
    alloc: Global,
    program: &Program<'t>,
    at: &Position<'t>,
    place: &PlaceNode,
) -> Result<Word, AllocError>
    ensures { IfOk result (λ w. w ≡ word_in (value_at (globals_in program.now.table) (blocks_of (types_of program.now.table) at.now.scope) [] (place_of place.now))) }
{
    let words = value_at(alloc, &program.table, &at.scope, place)?;
    Ok(word_in(words.as_slice()))
}

/// Stores a value in an lvalue.
fn stores<'t>(
    alloc: Global,
    program: &Program<'t>,
    top: &mut Position<'t>,
    place: &'t PlaceNode,
    words: Vec<Word>,
) -> Result<(), AllocError>
    ensures { OnOk result (position_of (types_of program.now.table) top.new ≡ frame (all_stored (globals_in program.now.table).structs (placed (globals_in program.now.table) (blocks_of (types_of program.now.table) top.old.scope) (place_of place.now) ∷ []) (words.items ∷ []) (blocks_of (types_of program.now.table) top.old.scope)) (tasks_of (types_of program.now.table) top.old.tasks.items)) }
{
    let table = &program.table;
    let destination = placed(table, &top.scope, place);
    let all = with_first(words, Vec::new(alloc))?;
    store(alloc, table, &mut top.scope, &[destination], all.as_slice())
}

/// The word of an operator between a word and 1.
fn counted(operator: BinaryOperator, a: Word) -> Result<Word, Panic>
    ensures ok { IfOk result (λ w. beside operator a (ready (Int (pos 1) ∷ [])) ≡ ready (w ∷ [])) }
    ensures err { IfErr result (λ p. beside operator a (ready (Int (pos 1) ∷ [])) ≡ fails p) }
{
    match settled(operator, a) {
        Some(word) => Ok(word),
        None => between(operator, a, Word::Int(1)),
    }
}

/// Stores in an lvalue what an operator makes of its value and 1.
fn counts<'t>(
    alloc: Global,
    program: &Program<'t>,
    top: &mut Position<'t>,
    place: &'t PlaceNode,
    operator: BinaryOperator,
    given: &[Given],
) -> Result<Course, Stop>
    ensures ok { IfOk result (Leads (λ g b t. updates g b t (place_of place.now) operator (ready (Int (pos 1) ∷ []))) program.now.table given.now top.old top.new) }
    ensures err { IfErr result (Stays (λ g b t. updates g b t (place_of place.now) operator (ready (Int (pos 1) ∷ []))) program.now.table given.now top.old top.new) }
{
    let _given = given;
    let a = held(alloc, program, top, place)?;
    let word = counted(operator, a)?;
    stores(alloc, program, top, place, single(alloc, word)?)?;
    Ok(Course::Moves)
}

/// Stores in an lvalue what an operator makes of its value and an operand.
fn update<'t>(
    alloc: Global,
    program: &Program<'t>,
    top: &mut Position<'t>,
    place: &'t PlaceNode,
    operator: BinaryOperator,
    operand: &'t ExpressionNode,
    given: &[Given],
) -> Result<Course, Stop>
    ensures ok { IfOk result (Leads (λ g b t. simple_work g b t (Update (place_of place.now) operator (expression_of operand.now))) program.now.table given.now top.old top.new) }
    ensures err { IfErr result (Stays (λ g b t. simple_work g b t (Update (place_of place.now) operator (expression_of operand.now))) program.now.table given.now top.old top.new) }
{
    let a = held(alloc, program, top, place)?;
    let (words, _) = beside(
        alloc,
        &program.table,
        &top.scope,
        operator,
        a,
        operand,
        given,
    )?;
    stores(alloc, program, top, place, words)?;
    Ok(Course::Moves)
}

/// An assignment.
fn assign<'t>(
    alloc: Global,
    program: &Program<'t>,
    top: &mut Position<'t>,
    places: &'t [PlaceNode],
    right: &'t [ExpressionNode],
    given: &[Given],
) -> Result<Course, Stop>
    ensures ok { IfOk result (Leads (λ g b t. simple_work g b t (Assign (map place_of places.now) (map expression_of right.now))) program.now.table given.now top.old top.new) }
    ensures err { IfErr result (Stays (λ g b t. simple_work g b t (Assign (map place_of places.now) (map expression_of right.now))) program.now.table given.now top.old top.new) }
{
    let destinations = all_placed(alloc, &program.table, &top.scope, places)?;
    gives(alloc, program, top, destinations.as_slice(), right, given)
}

/// A `:=`.
fn define<'t>(
    alloc: Global,
    program: &Program<'t>,
    top: &mut Position<'t>,
    names: &'t [Name],
    right: &'t [ExpressionNode],
    given: &[Given],
) -> Result<Course, Stop>
    ensures ok { IfOk result (Leads (λ g b t. simple_work g b t (Define (map name_of names.now) (map expression_of right.now))) program.now.table given.now top.old top.new) }
    ensures err { IfErr result (Stays (λ g b t. simple_work g b t (Define (map name_of names.now) (map expression_of right.now))) program.now.table given.now top.old top.new) }
{
    let destinations = defined(alloc, &program.table, &top.scope, names, right)?;
    gives(alloc, program, top, destinations.as_slice(), right, given)
}

/// A simple statement.
///
/// Errors: the panic that is met first; what has to be done next; `Memory`.
pub(crate) fn simple<'t>(
    alloc: Global,
    program: &Program<'t>,
    top: &mut Position<'t>,
    simple: &'t SimpleNode,
    given: &[Given],
) -> Result<Course, Stop>
    ensures ok { IfOk result (Leads (λ g b t. simple_work g b t (simple_of simple.now)) program.now.table given.now top.old top.new) }
    ensures err { IfErr result (Stays (λ g b t. simple_work g b t (simple_of simple.now)) program.now.table given.now top.old top.new) }
{
    match simple {
        SimpleNode::Call(name, arguments) => call(alloc, program, top, name, arguments, given),
        SimpleNode::Close(from) => close(alloc, program, top, from, given),
        SimpleNode::Print(line, parts, trailing) => {
            let parts = parts.as_slice();
            print(alloc, program, top, *line, parts, *trailing, given)
        }
        SimpleNode::Receive(from) => receive(alloc, program, top, from, given),
        SimpleNode::Send(to, item) => send(alloc, program, top, to, item, given),
        SimpleNode::Increment(place) => {
            counts(alloc, program, top, place, BinaryOperator::Add, given)
        }
        SimpleNode::Decrement(place) => {
            counts(alloc, program, top, place, BinaryOperator::Subtract, given)
        }
        SimpleNode::Update(place, operator, operand) => {
            update(alloc, program, top, place, *operator, operand, given)
        }
        SimpleNode::Assign(places, right) => {
            let (places, right) = (places.as_slice(), right.as_slice());
            assign(alloc, program, top, places, right, given)
        }
        SimpleNode::Define(names, right) => {
            let (names, right) = (names.as_slice(), right.as_slice());
            define(alloc, program, top, names, right, given)
        }
    }
}
