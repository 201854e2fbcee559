//! Statements on channels ("Send statements", "Close" of the Go specification).

ghost use Rattle.std.specs.Prelude.{◌≡◌, ◌+◌, ◌^◌, ◌<◌, IfOk, IfErr};
ghost use Rattle.syntax.specs.Tree.{Close, ReceiveAlone, Send};
ghost use Rattle.syntax.specs.Measures.{simple_size};
ghost use Rattle.syntax.specs.View.{expression_of};
ghost use Rattle.typing_rules.specs.declared.violation.Violation.{Violation as OneViolation};
ghost use Rattle.checker_base.specs.Views.{Refuses};
ghost use Rattle.typing_rules.specs.Simples.{SimpleHas};
ghost use Rattle.type_table.specs.Visible.{globals_in, scope_of};

use checker_base::operand::{checked, measured, receive};
use checker_base::refusal::Refusal;
use checker_base::value::{channel, sent, value};
use syntax::{ExpressionNode, NodeId};
use type_table::scope::Visible;
use type_table::table::TypeTable;

/// Checks a `close`, whose nodes have numbers from `first` on, and returns the number after them.
pub(crate) fn close(
    table: &TypeTable<'_>,
    visible: &Visible<'_>,
    first: NodeId,
    of: &ExpressionNode,
) -> Result<NodeId, Refusal>
    requires small { first + simple_size (Close (expression_of of.now)) < 2 ^ 32 }
    ensures end { IfOk result (λ end. end ≡ first + simple_size (Close (expression_of of.now))) }
    ensures none { IfOk result (λ _. (violation : OneViolation) → ¬ (SimpleHas (globals_in table.now) (scope_of table.now visible.now) first (Close (expression_of of.now)) violation)) }
    ensures one { IfErr result (Refuses (SimpleHas (globals_in table.now) (scope_of table.now visible.now) first (Close (expression_of of.now)))) }
{
    let operand = measured(table, visible, first, of)?;
    sent(operand.worth, operand.node + 1)?;
    Ok(operand.node + 2)
}

/// Checks a send, whose nodes have numbers from `first` on, and returns the number after them.
pub(crate) fn send<'a>(
    table: &TypeTable<'a>,
    visible: &Visible<'a>,
    first: NodeId,
    to: &'a ExpressionNode,
    item: &'a ExpressionNode,
) -> Result<NodeId, Refusal>
    requires small { first + simple_size (Send (expression_of to.now) (expression_of item.now)) < 2 ^ 32 }
    ensures end { IfOk result (λ end. end ≡ first + simple_size (Send (expression_of to.now) (expression_of item.now))) }
    ensures none { IfOk result (λ _. (violation : OneViolation) → ¬ (SimpleHas (globals_in table.now) (scope_of table.now visible.now) first (Send (expression_of to.now) (expression_of item.now)) violation)) }
    ensures one { IfErr result (Refuses (SimpleHas (globals_in table.now) (scope_of table.now visible.now) first (Send (expression_of to.now) (expression_of item.now)))) }
{
    let to = checked(table, visible, first, to)?;
    let item = checked(table, visible, to.node + 1, item)?;
    let (_, element) = channel(table, to)?;
    sent(to.worth, item.node + 1)?;
    value(table, item, element)?;
    Ok(item.node + 2)
}

/// Checks a receive as a statement, whose nodes have numbers from `first` on, and returns the number after them.
pub(crate) fn receive_alone(
    table: &TypeTable<'_>,
    visible: &Visible<'_>,
    first: NodeId,
    from: &ExpressionNode,
) -> Result<NodeId, Refusal>
    requires small { first + simple_size (ReceiveAlone (expression_of from.now)) < 2 ^ 32 }
    ensures end { IfOk result (λ end. end ≡ first + simple_size (ReceiveAlone (expression_of from.now))) }
    ensures none { IfOk result (λ _. (violation : OneViolation) → ¬ (SimpleHas (globals_in table.now) (scope_of table.now visible.now) first (ReceiveAlone (expression_of from.now)) violation)) }
    ensures one { IfErr result (Refuses (SimpleHas (globals_in table.now) (scope_of table.now visible.now) first (ReceiveAlone (expression_of from.now)))) }
{
    let made = receive(table, visible, first, from)?;
    Ok(made.node + 1)
}
