//! What loops do.

ghost use Rattle.std.specs.Prelude.{◌≡◌, ◌++◌, ◌∷◌, [], ℕ, List, IfErr, IfOk, OnOk, None, Some, option_map};
ghost use Rattle.syntax.specs.Tree.{Alone, Block, Range as RangeHead};
ghost use Rattle.syntax.specs.View.{body_of, expression_of, for_head_of, simple_of, target_of};
ghost use Rattle.type_table.specs.Views.{kind_of};
ghost use Rattle.type_table.specs.Visible.{globals_in, types_of};
ghost use Rattle.word.specs.declared.value.Word.TheVariants.{Chan};
ghost use Rattle.meaning.specs.Expressions.{channel_in, element_kind, word_in};
ghost use Rattle.meaning.specs.Source.{again_work, assigned, for_work, head_work, item_destinations, next_item, zero_of};
ghost use Rattle.meaning.specs.Tasks.{Again, Do, EndBlock, Goes, Head, Ranging, Repeating, Turn, all_of, frame, if_any};
ghost use Rattle.meaning.specs.Variables.{blank, declare, entered, holding, in_block, innermost, value_of};
ghost use Rattle.meaning.specs.Worked.{ready};
ghost use Rattle.reference_scope.specs.Destinations.{destinations_of};
ghost use Rattle.reference_scope.specs.Scopes.{blocks_of};
ghost use Rattle.reference_scope.specs.Parts.{values_of};
ghost use Rattle.reference_step.specs.Steps.{Leads, Stays, course_of};
ghost use Rattle.reference_task.specs.Tasks.{expression_in, loop_of, position_of, range_in, repeat_in, simple_in, tasks_of};

use crate::block::{opens, simply};
use reference_scope::place::{Destination, holding, new, placed, store};
use reference_scope::scope::Scope;
use reference_scope::words::{channel_in, single, with_first, word_in};
use reference_task::operand::{channel, one, truth_in};
use reference_task::outcome::Course;
use reference_task::program::Program;
use reference_task::task::{Loop, Position, Range, Repeat, Task};
use reference_value::fault::Stop;
use reference_value::given::{Given, Need, told};
use reference_value::kind::{element_kind, kind_in};
use reference_value::operation::{with_sent, zero_of};
use std::alloc::{AllocError, Global};
use syntax::node::{ForHeader, RangeTarget};
use syntax::{ExpressionNode, SimpleNode, StatementNode};
use type_table::table::TypeTable;
use type_table::value_type::ValueType;
use word::request::Request;
use word::value::Word;

/// The channel that a loop over one keeps.
fn kept(scope: &Scope<'_>) -> Option<u32>
    ensures { (types : List (List ℕ)) → result ≡ channel_in (word_in (value_of (in_block (innermost (blocks_of types scope.now)) blank))) }
{
    match scope.own(b"_") {
        Some(variable) => channel_in(word_in(variable.words.as_slice())),
        None => None,
    }
}

/// Keeps a channel in a block of its own.
fn keep_in<'t>(
    alloc: Global,
    table: &TypeTable<'t>,
    scope: &mut Scope<'t>,
    kind: ValueType<'t>,
    c: Option<u32>,
) -> Result<(), AllocError>
    ensures { OnOk result (blocks_of (types_of table.now) scope.new ≡ declare (holding (globals_in table.now).structs blank (kind_of (types_of table.now) kind.entry) (Chan c ∷ [])) (entered (blocks_of (types_of table.now) scope.old))) }
{
    let words = single(alloc, Word::Chan(c))?;
    let variable = holding(alloc, table, b"_", kind, words.as_slice())?;
    scope.enter(alloc)?;
    scope.declare(alloc, variable)
}

/// The destinations of the items of a loop over a channel.
fn item_destinations<'t>(
    alloc: Global,
    table: &TypeTable<'t>,
    scope: &Scope<'t>,
    kind: ValueType<'t>,
    target: &'t RangeTarget,
) -> Result<Vec<Destination<'t>>, AllocError>
    ensures { IfOk result (λ v. destinations_of (types_of table.now) v.items ≡ item_destinations (globals_in table.now) (blocks_of (types_of table.now) scope.now) [] (kind_of (types_of table.now) kind.entry) (target_of target.now)) }
{
    let none = Vec::new(alloc);
    match target {
        RangeTarget::Nothing => Ok(none),
        RangeTarget::Define(name) => with_first(new(name.bytes.as_slice(), kind), none),
        RangeTarget::Assign(place) => with_first(placed(table, scope, place), none),
    }
}

/// What a loop over a channel does with its items.
fn range_of<'t>(
    alloc: Global,
    table: &TypeTable<'t>,
    scope: &Scope<'t>,
    target: &'t RangeTarget,
    from: &'t ExpressionNode,
    body: &'t [StatementNode],
) -> Result<Loop<'t>, AllocError>
    ensures { IfOk result (λ l. loop_of (types_of table.now) l ≡ Ranging (item_destinations (globals_in table.now) (blocks_of (types_of table.now) scope.now) [] (element_kind (globals_in table.now) (blocks_of (types_of table.now) scope.now) (expression_of from.now)) (target_of target.now)) (zero_of (globals_in table.now) (element_kind (globals_in table.now) (blocks_of (types_of table.now) scope.now) (expression_of from.now))) (body_of body.now)) }
{
    let kind = element_kind(table, scope, from);
    let zero = zero_of(alloc, table, kind)?;
    let destinations = item_destinations(alloc, table, scope, kind, target)?;
    let range = Range {
        destinations,
        zero,
        body,
    };
    Ok(Loop::Ranging(Box::new(alloc, range)?))
}

/// A loop is at its head, in a block of its own.
fn heads<'t>(top: &mut Position<'t>, at: Loop<'t>) -> Result<(), AllocError>
    ensures { (types : List (List ℕ)) → OnOk result (position_of types top.new ≡ frame (blocks_of types top.old.scope) (Head (loop_of types at.entry) ∷ (EndBlock ∷ tasks_of types top.old.tasks.items))) }
{
    top.push(Task::EndBlock)?;
    top.push(Task::Head(at))
}

/// A loop over a channel.
fn ranges<'t>(
    alloc: Global,
    program: &Program<'t>,
    top: &mut Position<'t>,
    target: &'t RangeTarget,
    from: &'t ExpressionNode,
    body: &'t [StatementNode],
    given: &[Given],
) -> Result<Course, Stop>
    ensures ok { IfOk result (Leads (λ g b t. for_work g b t (RangeHead (target_of target.now) (expression_of from.now)) (body_of body.now)) program.now.table given.now top.old top.new) }
    ensures err { IfErr result (Stays (λ g b t. for_work g b t (RangeHead (target_of target.now) (expression_of from.now)) (body_of body.now)) program.now.table given.now top.old top.new) }
{
    let table = &program.table;
    let (c, _) = channel(alloc, table, &top.scope, from, given)?;
    let range = range_of(alloc, table, &top.scope, target, from, body)?;
    let kind = kind_in(table, &top.scope, from);
    keep_in(alloc, table, &mut top.scope, kind, c)?;
    heads(top, range)?;
    Ok(Course::Goes)
}

/// A loop with a condition and a post statement is to be done first.
fn repeats<'t>(
    alloc: Global,
    top: &mut Position<'t>,
    condition: Option<&'t ExpressionNode>,
    post: Option<&'t SimpleNode>,
    body: &'t [StatementNode],
) -> Result<(), AllocError>
    ensures { (types : List (List ℕ)) → OnOk result (position_of types top.new ≡ frame (blocks_of types top.old.scope) (Head (Repeating (expression_in condition.entry) (simple_in post.entry) (body_of body.now)) ∷ tasks_of types top.old.tasks.items)) }
{
    let repeat = Repeat {
        condition,
        post,
        body,
    };
    top.push(Task::Head(Loop::Repeating(Box::new(alloc, repeat)?)))
}

/// A loop with clauses is a block of its own, in which its first statement is to be done first.
fn clauses<'t>(
    alloc: Global,
    top: &mut Position<'t>,
    first: Option<&'t SimpleNode>,
    condition: Option<&'t ExpressionNode>,
    post: Option<&'t SimpleNode>,
    body: &'t [StatementNode],
) -> Result<(), AllocError>
    ensures { (types : List (List ℕ)) → OnOk result (position_of types top.new ≡ frame (entered (blocks_of types top.old.scope)) (if_any (simple_in first.entry) (Head (Repeating (expression_in condition.entry) (simple_in post.entry) (body_of body.now)) ∷ []) ++ EndBlock ∷ tasks_of types top.old.tasks.items)) }
{
    opens(alloc, top)?;
    repeats(alloc, top, condition, post, body)?;
    match first {
        Some(first) => simply(alloc, top, first),
        None => Ok(()),
    }
}

/// A for.
///
/// Errors: the panic that is met first; what has to be done next; `Memory`.
pub(crate) fn for_loop<'t>(
    alloc: Global,
    program: &Program<'t>,
    top: &mut Position<'t>,
    header: &'t ForHeader,
    body: &'t [StatementNode],
    given: &[Given],
) -> Result<Course, Stop>
    ensures ok { IfOk result (Leads (λ g b t. for_work g b t (for_head_of header.now) (body_of body.now)) program.now.table given.now top.old top.new) }
    ensures err { IfErr result (Stays (λ g b t. for_work g b t (for_head_of header.now) (body_of body.now)) program.now.table given.now top.old top.new) }
{
    match header {
        ForHeader::Forever => {
            repeats(alloc, top, None, None, body)?;
            Ok(Course::Goes)
        }
        ForHeader::While(condition) => {
            repeats(alloc, top, Some(condition), None, body)?;
            Ok(Course::Goes)
        }
        ForHeader::Clauses(first, condition, post) => {
            let (condition, post) = (condition.as_ref(), post.as_ref());
            clauses(alloc, top, first.as_ref(), condition, post, body)?;
            Ok(Course::Goes)
        }
        ForHeader::Range(target, from) => ranges(alloc, program, top, target, from, body, given),
    }
}

/// Goes into a block, in which what was received is assigned if there is a left side.
pub(crate) fn assigned<'t>(
    alloc: Global,
    table: &TypeTable<'t>,
    top: &mut Position<'t>,
    destinations: &[Destination<'t>],
    values: &[Vec<Word>],
) -> Result<Course, AllocError>
    ensures { IfOk result (λ course. assigned (globals_in table.now) (blocks_of (types_of table.now) top.old.scope) [] (destinations_of (types_of table.now) destinations.now) (values_of values.now) (tasks_of (types_of table.now) top.old.tasks.items) ≡ course_of (types_of table.now) course top.new) }
{
    top.scope.enter(alloc)?;
    match destinations {
        [] => Ok(Course::Goes),
        _ => {
            store(alloc, table, &mut top.scope, destinations, values)?;
            Ok(Course::Moves)
        }
    }
}

/// A loop over a channel goes on with an item.
fn with_item<'t>(
    alloc: Global,
    table: &TypeTable<'t>,
    top: &mut Position<'t>,
    at: &Range<'t>,
    values: &[Vec<Word>],
) -> Result<Course, AllocError>
    ensures { IfOk result (λ course. assigned (globals_in table.now) (blocks_of (types_of table.now) top.old.scope) [] (destinations_of (types_of table.now) at.now.destinations.items) (values_of values.now) (Do (Block (body_of at.now.body.now)) ∷ (Again (range_in (types_of table.now) at.now) ∷ tasks_of (types_of table.now) top.old.tasks.items)) ≡ course_of (types_of table.now) course top.new) }
{
    let again = Loop::Ranging(Box::new(alloc, at.copy(alloc)?)?);
    top.push(Task::Again(again))?;
    top.push(Task::Enclose(Box::new(alloc, at.body)?))?;
    assigned(alloc, table, top, at.destinations.as_slice(), values)
}

/// A loop over a channel goes on with what was received; if that is no item, it has ended.
fn next_item<'t>(
    alloc: Global,
    table: &TypeTable<'t>,
    top: &mut Position<'t>,
    at: &Range<'t>,
    values: &[Vec<Word>],
) -> Result<Course, AllocError>
    ensures { IfOk result (λ course. next_item (globals_in table.now) (blocks_of (types_of table.now) top.old.scope) (tasks_of (types_of table.now) top.old.tasks.items) (destinations_of (types_of table.now) at.now.destinations.items) at.now.zero.items (body_of at.now.body.now) (values_of values.now) ≡ course_of (types_of table.now) course top.new) }
{
    let [_, sent, ..] = values else {
        return Ok(Course::Goes);
    };
    let [Word::Bool(true), ..] = sent.as_slice() else {
        return Ok(Course::Goes);
    };
    with_item(alloc, table, top, at, values)
}

/// A loop over a channel at its head: it receives the next item.
fn range_head<'t>(
    alloc: Global,
    program: &Program<'t>,
    top: &mut Position<'t>,
    at: &Range<'t>,
    given: &[Given],
) -> Result<Course, Stop>
    ensures ok { IfOk result (Leads (λ g b t. head_work g b t (range_in (types_of program.now.table) at.now)) program.now.table given.now top.old top.new) }
    ensures err { IfErr result (Stays (λ g b t. head_work g b t (range_in (types_of program.now.table) at.now)) program.now.table given.now top.old top.new) }
{
    let c = kept(&top.scope);
    let zeros = with_sent(alloc, Vec::from_slice(alloc, at.zero.as_slice())?)?;
    let need = Need::Asking(Request::Receive(c));
    let (got, _) = told(alloc, zeros.as_slice(), need, given)?;
    Ok(next_item(alloc, &program.table, top, at, got.as_slice())?)
}

/// A loop goes into its body.
fn turn<'t>(alloc: Global, top: &mut Position<'t>, at: &Repeat<'t>) -> Result<(), AllocError>
    ensures { (types : List (List ℕ)) → OnOk result (position_of types top.new ≡ frame (entered (blocks_of types top.old.scope)) (all_of (body_of at.now.body.now) ++ Again (repeat_in at.now) ∷ tasks_of types top.old.tasks.items)) }
{
    let again = Loop::Repeating(Box::new(alloc, *at)?);
    top.scope.enter(alloc)?;
    top.push(Task::Again(again))?;
    top.push_all(alloc, at.body)
}

/// A loop with a condition at its head.
fn repeat_head<'t>(
    alloc: Global,
    program: &Program<'t>,
    top: &mut Position<'t>,
    at: &Repeat<'t>,
    given: &[Given],
) -> Result<Course, Stop>
    ensures ok { IfOk result (Leads (λ g b t. head_work g b t (repeat_in at.now)) program.now.table given.now top.old top.new) }
    ensures err { IfErr result (Stays (λ g b t. head_work g b t (repeat_in at.now)) program.now.table given.now top.old top.new) }
{
    if let Some(condition) = at.condition {
        let (word, _) = one(alloc, &program.table, &top.scope, condition, given)?;
        if !truth_in(word) {
            return Ok(Course::Goes);
        }
    }
    turn(alloc, top, at)?;
    Ok(Course::Goes)
}

/// A loop at its head.
///
/// Errors: the panic that is met first; what has to be done next; `Memory`.
pub(crate) fn head<'t>(
    alloc: Global,
    program: &Program<'t>,
    top: &mut Position<'t>,
    at: &Loop<'t>,
    given: &[Given],
) -> Result<Course, Stop>
    ensures ok { IfOk result (Leads (λ g b t. head_work g b t (loop_of (types_of program.now.table) at.now)) program.now.table given.now top.old top.new) }
    ensures err { IfErr result (Stays (λ g b t. head_work g b t (loop_of (types_of program.now.table) at.now)) program.now.table given.now top.old top.new) }
{
    match at {
        Loop::Repeating(repeat) => repeat_head(alloc, program, top, repeat, given),
        Loop::Ranging(range) => range_head(alloc, program, top, range, given),
    }
}

/// The post statement of a loop is to be done first, in a block of its own, and then the loop goes back to its head.
fn posts<'t>(
    alloc: Global,
    top: &mut Position<'t>,
    at: &Repeat<'t>,
    post: &'t SimpleNode,
) -> Result<(), AllocError>
    ensures { (types : List (List ℕ)) → OnOk result (position_of types top.new ≡ frame (entered (blocks_of types top.old.scope)) (Do (Alone (simple_of post.now)) ∷ (EndBlock ∷ (Turn (repeat_in at.now) ∷ tasks_of types top.old.tasks.items)))) }
{
    let turn = Task::Turn(Loop::Repeating(Box::new(alloc, *at)?));
    top.push(turn)?;
    opens(alloc, top)?;
    simply(alloc, top, post)
}

/// A loop goes back to its head.
fn turns<'t>(alloc: Global, top: &mut Position<'t>, at: &Loop<'t>) -> Result<(), AllocError>
    ensures { (types : List (List ℕ)) → OnOk result (position_of types top.new ≡ frame (blocks_of types top.old.scope) (Turn (loop_of types at.now) ∷ tasks_of types top.old.tasks.items)) }
{
    top.push(Task::Turn(at.copy(alloc)?))
}

/// A loop at the end of its body.
pub(crate) fn again<'t>(
    alloc: Global,
    program: &Program<'t>,
    top: &mut Position<'t>,
    at: &Loop<'t>,
) -> Result<(), AllocError>
    ensures { OnOk result (again_work (globals_in program.now.table) (blocks_of (types_of program.now.table) top.old.scope) (tasks_of (types_of program.now.table) top.old.tasks.items) (loop_of (types_of program.now.table) at.now) ≡ ready (Goes (position_of (types_of program.now.table) top.new))) }
{
    let _program = program;
    top.scope.leave();
    match at {
        Loop::Ranging(_) => turns(alloc, top, at),
        Loop::Repeating(repeat) => match repeat.post {
            Some(post) => posts(alloc, top, repeat, post),
            None => turns(alloc, top, at),
        },
    }
}
