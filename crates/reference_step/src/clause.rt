//! A clause of a select.

ghost use Rattle.std.specs.Prelude.{◌≡◌, [], IfErr, IfOk, option_map};
ghost use Rattle.syntax.specs.Tree.{CommDefine, CommSend};
ghost use Rattle.syntax.specs.View.{comm_of, expression_of, name_of, place_of};
ghost use Rattle.type_table.specs.Visible.{globals_in, types_of};
ghost use Rattle.meaning.specs.Destinations.{placed};
ghost use Rattle.meaning.specs.Expressions.{element_kind, item_zeros};
ghost use Rattle.meaning.specs.Source.{case_of, comm_destinations, comm_zeros, one_or_two, received_case};
ghost use Rattle.reference_scope.specs.Destinations.{destinations_of};
ghost use Rattle.reference_scope.specs.Scopes.{blocks_of};
ghost use Rattle.reference_scope.specs.Parts.{values_of};
ghost use Rattle.reference_value.specs.Stops.{Comes, Stops};

use reference_scope::place::{Destination, new, placed};
use reference_scope::scope::Scope;
use reference_scope::words::with_first;
use reference_task::operand::{channel, item_in};
use reference_value::fault::Stop;
use reference_value::given::Given;
use reference_value::kind::element_kind;
use reference_value::operation::item_zeros;
use std::alloc::{AllocError, Global};
use syntax::{CommNode, ExpressionNode, Name, PlaceNode};
use type_table::table::TypeTable;
use type_table::value_type::ValueType;
use word::request::Case;
use word::value::Word;

/// A receive, as a case of a select.
fn received_case<'g, 't>(
    alloc: Global,
    table: &TypeTable<'t>,
    scope: &Scope<'t>,
    from: &'t ExpressionNode,
    given: &'g [Given],
) -> Result<(Case, &'g [Given]), Stop>
    ensures ok { IfOk result (λ r. Comes (received_case (globals_in table.now) (blocks_of (types_of table.now) scope.now) [] (expression_of from.now)) given.now r.0 r.1.now) }
    ensures err { IfErr result (Stops (received_case (globals_in table.now) (blocks_of (types_of table.now) scope.now) [] (expression_of from.now)) given.now) }
{
    let (chan, given) = channel(alloc, table, scope, from, given)?;
    Ok((Case { chan, item: None }, given))
}

/// A send, as a case of a select.
fn sent_case<'g, 't>(
    alloc: Global,
    table: &TypeTable<'t>,
    scope: &Scope<'t>,
    to: &'t ExpressionNode,
    item: &'t ExpressionNode,
    given: &'g [Given],
) -> Result<(Case, &'g [Given]), Stop>
    ensures ok { IfOk result (λ r. Comes (case_of (globals_in table.now) (blocks_of (types_of table.now) scope.now) [] (CommSend (expression_of to.now) (expression_of item.now))) given.now r.0 r.1.now) }
    ensures err { IfErr result (Stops (case_of (globals_in table.now) (blocks_of (types_of table.now) scope.now) [] (CommSend (expression_of to.now) (expression_of item.now))) given.now) }
{
    let (chan, given) = channel(alloc, table, scope, to, given)?;
    let (words, given) = item_in(alloc, table, scope, to, item, given)?;
    let item = Some(words);
    Ok((Case { chan, item }, given))
}

/// What a clause waits for, as a case of a select.
///
/// Errors: the panic that is met first; what has to be done next; `Memory`.
pub(crate) fn case_of<'g, 't>(
    alloc: Global,
    table: &TypeTable<'t>,
    scope: &Scope<'t>,
    comm: &'t CommNode,
    given: &'g [Given],
) -> Result<(Case, &'g [Given]), Stop>
    ensures ok { IfOk result (λ r. Comes (case_of (globals_in table.now) (blocks_of (types_of table.now) scope.now) [] (comm_of comm.now)) given.now r.0 r.1.now) }
    ensures err { IfErr result (Stops (case_of (globals_in table.now) (blocks_of (types_of table.now) scope.now) [] (comm_of comm.now)) given.now) }
{
    match comm {
        CommNode::Send(to, item) => sent_case(alloc, table, scope, to, item, given),
        CommNode::Receive(from) => received_case(alloc, table, scope, from, given),
        CommNode::Define(_, _, from) => received_case(alloc, table, scope, from, given),
        CommNode::Assign(_, _, from) => received_case(alloc, table, scope, from, given),
    }
}

/// The destinations of what a receive with a `:=` receives.
fn defined_destinations<'t>(
    alloc: Global,
    table: &TypeTable<'t>,
    scope: &Scope<'t>,
    item: &'t Name,
    ok: &'t Option<Name>,
    from: &'t ExpressionNode,
) -> Result<Vec<Destination<'t>>, AllocError>
    ensures { IfOk result (λ v. destinations_of (types_of table.now) v.items ≡ comm_destinations (globals_in table.now) (blocks_of (types_of table.now) scope.now) [] (CommDefine (name_of item.now) (option_map name_of ok.now) (expression_of from.now))) }
{
    let kind = element_kind(table, scope, from);
    let first = new(item.bytes.as_slice(), kind);
    let none = Vec::new(alloc);
    match ok {
        Some(ok) => {
            let second = with_first(new(ok.bytes.as_slice(), ValueType::Bool), none)?;
            with_first(first, second)
        }
        None => with_first(first, none),
    }
}

/// The destinations of what a receive with an assignment receives.
fn assigned_destinations<'t>(
    alloc: Global,
    table: &TypeTable<'t>,
    scope: &Scope<'t>,
    item: &'t PlaceNode,
    ok: &'t Option<PlaceNode>,
) -> Result<Vec<Destination<'t>>, AllocError>
    ensures { IfOk result (λ v. destinations_of (types_of table.now) v.items ≡ one_or_two (globals_in table.now) (blocks_of (types_of table.now) scope.now) [] (placed (globals_in table.now) (blocks_of (types_of table.now) scope.now) (place_of item.now)) (option_map (placed (globals_in table.now) (blocks_of (types_of table.now) scope.now)) (option_map place_of ok.now))) }
{
    let first = placed(table, scope, item);
    let none = Vec::new(alloc);
    match ok {
        Some(ok) => {
            let second = with_first(placed(table, scope, ok), none)?;
            with_first(first, second)
        }
        None => with_first(first, none),
    }
}

/// The destinations of what a clause receives.
pub(crate) fn comm_destinations<'t>(
    alloc: Global,
    table: &TypeTable<'t>,
    scope: &Scope<'t>,
    comm: &'t CommNode,
) -> Result<Vec<Destination<'t>>, AllocError>
    ensures { IfOk result (λ v. destinations_of (types_of table.now) v.items ≡ comm_destinations (globals_in table.now) (blocks_of (types_of table.now) scope.now) [] (comm_of comm.now)) }
{
    match comm {
        CommNode::Send(_, _) | CommNode::Receive(_) => Ok(Vec::new(alloc)),
        CommNode::Define(item, ok, from) => {
            defined_destinations(alloc, table, scope, item, ok, from)
        }
        CommNode::Assign(item, ok, _) => assigned_destinations(alloc, table, scope, item, ok),
    }
}

/// Zeros like what is received from this channel.
fn received_zeros<'t>(
    alloc: Global,
    table: &TypeTable<'t>,
    scope: &Scope<'t>,
    from: &'t ExpressionNode,
) -> Result<Vec<Vec<Word>>, AllocError>
    ensures { IfOk result (λ v. values_of v.items ≡ item_zeros (globals_in table.now) (element_kind (globals_in table.now) (blocks_of (types_of table.now) scope.now) (expression_of from.now))) }
{
    let kind = element_kind(table, scope, from);
    item_zeros(alloc, table, kind)
}

/// Zeros like what a clause receives.
pub(crate) fn comm_zeros<'t>(
    alloc: Global,
    table: &TypeTable<'t>,
    scope: &Scope<'t>,
    comm: &'t CommNode,
) -> Result<Vec<Vec<Word>>, AllocError>
    ensures { IfOk result (λ v. values_of v.items ≡ comm_zeros (globals_in table.now) (blocks_of (types_of table.now) scope.now) [] (comm_of comm.now)) }
{
    match comm {
        CommNode::Send(_, _) => Ok(Vec::new(alloc)),
        CommNode::Receive(from) | CommNode::Define(_, _, from) | CommNode::Assign(_, _, from) => {
            received_zeros(alloc, table, scope, from)
        }
    }
}
