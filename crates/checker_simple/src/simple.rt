//! Simple statements, and what a clause of a `select` waits for ("Statements" of the Go specification).

ghost use Rattle.std.specs.Prelude.{◌≡◌, ◌+◌, ◌^◌, ◌<◌, IfOk, IfErr};
ghost use Rattle.syntax.specs.Measures.{simple_size, comm_size};
ghost use Rattle.syntax.specs.View.{simple_of, comm_of};
ghost use Rattle.typing_rules.specs.declared.violation.Violation.{Violation as OneViolation};
ghost use Rattle.typing_rules.specs.Simples.{SimpleHas, after_simple, comm_simple};
ghost use Rattle.type_table.specs.Visible.{globals_in, scope_of, Keeps};
ghost use Rattle.checker_base.specs.Views.{Refuses};

use crate::assign::assign;
use crate::call::call_alone;
use crate::channel::{close, receive_alone, send};
use crate::define::define;
use crate::given::Source;
use crate::names::Names;
use crate::place::Targets;
use crate::print::parts;
use crate::update::{step, update};
use checker_base::refusal::Refusal;
use std::alloc::Global;
use syntax::{CommNode, NodeId, SimpleNode};
use type_table::scope::Visible;
use type_table::table::TypeTable;

/// Checks a simple statement, whose nodes have numbers from `first` on, and returns the number after them. What it
/// declares is then visible.
pub fn simple<'a>(
    alloc: Global,
    table: &TypeTable<'a>,
    visible: &mut Visible<'a>,
    first: NodeId,
    simple: &'a SimpleNode,
) -> Result<NodeId, Refusal>
    requires small { first + simple_size (simple_of simple.now) < 2 ^ 32 }
    ensures end { IfOk result (λ end. end ≡ first + simple_size (simple_of simple.now)) }
    ensures after { IfOk result (λ _. scope_of table.now visible.new ≡ after_simple (globals_in table.now) (scope_of table.now visible.old) (simple_of simple.now)) }
    ensures kept { IfOk result (λ _. Keeps visible.old visible.new) }
    ensures none { IfOk result (λ _. (violation : OneViolation) → ¬ (SimpleHas (globals_in table.now) (scope_of table.now visible.old) first (simple_of simple.now) violation)) }
    ensures one { IfErr result (Refuses (SimpleHas (globals_in table.now) (scope_of table.now visible.old) first (simple_of simple.now))) }
{
    match simple {
        SimpleNode::Define(names, right) => {
            let names = Names::All(names.as_slice());
            let right = Source::Right(right.as_slice());
            define(alloc, table, visible, first, names, right)
        }
        SimpleNode::Assign(places, right) => {
            let places = Targets::All(places.as_slice());
            let right = Source::Right(right.as_slice());
            assign(alloc, table, visible, first, places, right)
        }
        SimpleNode::Call(function, arguments) => {
            call_alone(table, visible, first, function, arguments)
        }
        SimpleNode::Close(channel) => close(table, visible, first, channel),
        SimpleNode::Print(_, all, _) => {
            let end = parts(table, visible, first, all.as_slice())?;
            Ok(end + 1)
        }
        SimpleNode::Receive(channel) => receive_alone(table, visible, first, channel),
        SimpleNode::Send(channel, value) => send(table, visible, first, channel, value),
        SimpleNode::Increment(place) | SimpleNode::Decrement(place) => {
            step(table, visible, first, place)
        }
        SimpleNode::Update(place, operator, value) => {
            update(table, visible, first, place, *operator, value)
        }
    }
}

/// Checks what a clause of a `select` waits for, whose nodes have numbers from `first` on, and returns the number after
/// them. What it declares is then visible.
pub fn comm<'a>(
    alloc: Global,
    table: &TypeTable<'a>,
    visible: &mut Visible<'a>,
    first: NodeId,
    comm: &'a CommNode,
) -> Result<NodeId, Refusal>
    requires small { first + comm_size (comm_of comm.now) < 2 ^ 32 }
    ensures end { IfOk result (λ end. end ≡ first + comm_size (comm_of comm.now)) }
    ensures after { IfOk result (λ _. scope_of table.now visible.new ≡ after_simple (globals_in table.now) (scope_of table.now visible.old) (comm_simple (comm_of comm.now))) }
    ensures kept { IfOk result (λ _. Keeps visible.old visible.new) }
    ensures none { IfOk result (λ _. (violation : OneViolation) → ¬ (SimpleHas (globals_in table.now) (scope_of table.now visible.old) first (comm_simple (comm_of comm.now)) violation)) }
    ensures one { IfErr result (Refuses (SimpleHas (globals_in table.now) (scope_of table.now visible.old) first (comm_simple (comm_of comm.now)))) }
{
    match comm {
        CommNode::Send(channel, value) => send(table, visible, first, channel, value),
        CommNode::Receive(channel) => receive_alone(table, visible, first, channel),
        CommNode::Define(item, ok, channel) => {
            let names = Names::OneOrTwo(item, ok);
            let received = Source::Receive(channel);
            define(alloc, table, visible, first, names, received)
        }
        CommNode::Assign(item, ok, channel) => {
            let places = Targets::OneOrTwo(item, ok);
            let received = Source::Receive(channel);
            assign(alloc, table, visible, first, places, received)
        }
    }
}
