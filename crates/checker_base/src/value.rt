//! Values that must have a type, and operands of operations.

ghost use Rattle.std.specs.Prelude.{◌≡◌, ℕ, ◌+◌, List, Option, Some, IfOk, IfErr};
ghost use Rattle.type_table.specs.Types.{ChannelType};
ghost use Rattle.type_table.specs.Views.{kind_of};
ghost use Rattle.type_table.specs.Visible.{types_of};
ghost use Rattle.typing_rules.specs.declared.violation.Violation.{Violation as OneViolation};
ghost use Rattle.typing_rules.specs.Violations.{Nodes};
ghost use Rattle.typing_rules.specs.Worths.{Worth as OneWorth, Typed};
ghost use Rattle.checker_base.specs.Views.{worth_of};
ghost use Rattle.typing_rules.specs.Expressions.{ValueHas, DefaultHas, ConditionHas, ChannelHas, SentHas, ReceivedHas, PrintedHas, default_type};

use crate::operand::Operand;
use crate::worth::{Worth, is_int};
use go_text::Rule;
use syntax::{Direction, NodeId};
use type_table::table::TypeTable;
use type_table::value_type::{ValueType, assignable, element_in};
use typing_rules::violation::Violation;

/// Checks a value that is used as this type.
pub fn value(
    table: &TypeTable<'_>,
    operand: Operand<'_>,
    kind: ValueType<'_>,
) -> Result<(), Violation>
    ensures none { IfOk result (λ _. (w : Option OneWorth) → w ≡ Some (worth_of (types_of table.now) operand.entry.worth) → (nodes : Nodes) → nodes.first ≡ operand.entry.first → nodes.end ≡ operand.entry.node + 1 → (violation : OneViolation) → ¬ (ValueHas w (Some (kind_of (types_of table.now) kind.entry)) nodes violation)) }
    ensures one { IfErr result (λ violation. (w : Option OneWorth) → w ≡ Some (worth_of (types_of table.now) operand.entry.worth) → (nodes : Nodes) → nodes.first ≡ operand.entry.first → nodes.end ≡ operand.entry.node + 1 → ValueHas w (Some (kind_of (types_of table.now) kind.entry)) nodes violation) }
{
    match operand.worth {
        Worth::Typed(own) => {
            if assignable(table, own, kind) {
                Ok(())
            } else {
                Err(Violation::Broken(Rule::Assignable, operand.node))
            }
        }
        Worth::Constant(value) => match kind {
            ValueType::Int => {
                if is_int(value) {
                    Ok(())
                } else {
                    Err(Violation::Broken(Rule::Constant, operand.node))
                }
            }
            _ => Err(Violation::Broken(Rule::Assignable, operand.node)),
        },
        Worth::Nil => match kind {
            ValueType::Channel(_, _) => Ok(()),
            _ => Err(Violation::Broken(Rule::Nil, operand.first)),
        },
    }
}

/// Checks a value that goes to a variable without a type, and returns the type that the variable takes.
pub fn default_type<'a>(operand: Operand<'a>) -> Result<ValueType<'a>, Violation>
    ensures kind { IfOk result (λ kind. (types : List (List ℕ)) → default_type (Some (worth_of types operand.entry.worth)) ≡ Some (kind_of types kind)) }
    ensures none { IfOk result (λ _. (types : List (List ℕ)) → (w : Option OneWorth) → w ≡ Some (worth_of types operand.entry.worth) → (nodes : Nodes) → nodes.first ≡ operand.entry.first → nodes.end ≡ operand.entry.node + 1 → (violation : OneViolation) → ¬ (DefaultHas w nodes violation)) }
    ensures one { IfErr result (λ violation. (types : List (List ℕ)) → (w : Option OneWorth) → w ≡ Some (worth_of types operand.entry.worth) → (nodes : Nodes) → nodes.first ≡ operand.entry.first → nodes.end ≡ operand.entry.node + 1 → DefaultHas w nodes violation) }
{
    match operand.worth {
        Worth::Typed(kind) => Ok(kind),
        Worth::Constant(value) => {
            if is_int(value) {
                Ok(ValueType::Int)
            } else {
                Err(Violation::Broken(Rule::Constant, operand.node))
            }
        }
        Worth::Nil => Err(Violation::Broken(Rule::Nil, operand.first)),
    }
}

/// Checks that a condition is a bool.
pub fn is_condition(operand: Operand<'_>) -> Result<(), Violation>
    ensures none { IfOk result (λ _. (types : List (List ℕ)) → (w : Option OneWorth) → w ≡ Some (worth_of types operand.entry.worth) → (nodes : Nodes) → nodes.first ≡ operand.entry.first → nodes.end ≡ operand.entry.node + 1 → (violation : OneViolation) → ¬ (ConditionHas w nodes violation)) }
    ensures one { IfErr result (λ violation. (types : List (List ℕ)) → (w : Option OneWorth) → w ≡ Some (worth_of types operand.entry.worth) → (nodes : Nodes) → nodes.first ≡ operand.entry.first → nodes.end ≡ operand.entry.node + 1 → ConditionHas w nodes violation) }
{
    match operand.worth {
        Worth::Typed(ValueType::Bool) => Ok(()),
        Worth::Nil => Err(Violation::Broken(Rule::Nil, operand.first)),
        _ => Err(Violation::Broken(Rule::Condition, operand.node)),
    }
}

/// Checks that the operand of an operation on channels is a channel, and returns its direction and the type of its elements.
pub fn channel<'a>(
    table: &TypeTable<'a>,
    operand: Operand<'a>,
) -> Result<(Direction, ValueType<'a>), Violation>
    ensures kind { IfOk result (λ channel. worth_of (types_of table.now) operand.entry.worth ≡ Typed (ChannelType channel.0 (kind_of (types_of table.now) channel.1))) }
    ensures none { IfOk result (λ _. (types : List (List ℕ)) → (w : Option OneWorth) → w ≡ Some (worth_of types operand.entry.worth) → (nodes : Nodes) → nodes.first ≡ operand.entry.first → nodes.end ≡ operand.entry.node + 1 → (violation : OneViolation) → ¬ (ChannelHas w nodes violation)) }
    ensures one { IfErr result (λ violation. (types : List (List ℕ)) → (w : Option OneWorth) → w ≡ Some (worth_of types operand.entry.worth) → (nodes : Nodes) → nodes.first ≡ operand.entry.first → nodes.end ≡ operand.entry.node + 1 → ChannelHas w nodes violation) }
{
    match operand.worth {
        Worth::Typed(ValueType::Channel(direction, element)) => {
            Ok((direction, element_in(table, element)))
        }
        _ => Err(Violation::Broken(Rule::Channel, operand.node)),
    }
}

/// Checks that one may send on a channel, or close it; the operation's own node is `node`.
pub fn sent(worth: Worth<'_>, node: NodeId) -> Result<(), Violation>
    ensures none { IfOk result (λ _. (types : List (List ℕ)) → (w : Option OneWorth) → w ≡ Some (worth_of types worth.entry) → (end : ℕ) → end ≡ node + 1 → (violation : OneViolation) → ¬ (SentHas w end violation)) }
    ensures one { IfErr result (λ violation. (types : List (List ℕ)) → (w : Option OneWorth) → w ≡ Some (worth_of types worth.entry) → (end : ℕ) → end ≡ node + 1 → SentHas w end violation) }
{
    match worth {
        Worth::Typed(ValueType::Channel(Direction::Receive, _)) => {
            Err(Violation::Broken(Rule::Direction, node))
        }
        _ => Ok(()),
    }
}

/// Checks that one may receive from a channel; the operation's own node is `node`.
pub fn received(worth: Worth<'_>, node: NodeId) -> Result<(), Violation>
    ensures none { IfOk result (λ _. (types : List (List ℕ)) → (w : Option OneWorth) → w ≡ Some (worth_of types worth.entry) → (end : ℕ) → end ≡ node + 1 → (violation : OneViolation) → ¬ (ReceivedHas w end violation)) }
    ensures one { IfErr result (λ violation. (types : List (List ℕ)) → (w : Option OneWorth) → w ≡ Some (worth_of types worth.entry) → (end : ℕ) → end ≡ node + 1 → ReceivedHas w end violation) }
{
    match worth {
        Worth::Typed(ValueType::Channel(Direction::Send, _)) => {
            Err(Violation::Broken(Rule::Direction, node))
        }
        _ => Ok(()),
    }
}

/// Checks that a value can be printed.
pub fn printed(operand: Operand<'_>) -> Result<(), Violation>
    ensures none { IfOk result (λ _. (types : List (List ℕ)) → (w : Option OneWorth) → w ≡ Some (worth_of types operand.entry.worth) → (nodes : Nodes) → nodes.first ≡ operand.entry.first → nodes.end ≡ operand.entry.node + 1 → (violation : OneViolation) → ¬ (PrintedHas w nodes violation)) }
    ensures one { IfErr result (λ violation. (types : List (List ℕ)) → (w : Option OneWorth) → w ≡ Some (worth_of types operand.entry.worth) → (nodes : Nodes) → nodes.first ≡ operand.entry.first → nodes.end ≡ operand.entry.node + 1 → PrintedHas w nodes violation) }
{
    match operand.worth {
        Worth::Typed(ValueType::Int) | Worth::Typed(ValueType::Bool) => Ok(()),
        Worth::Typed(_) => Err(Violation::Broken(Rule::Called, operand.node)),
        Worth::Constant(value) => {
            if is_int(value) {
                Ok(())
            } else {
                Err(Violation::Broken(Rule::Constant, operand.node))
            }
        }
        Worth::Nil => Err(Violation::Broken(Rule::Nil, operand.first)),
    }
}
