//! Assignments with an operator ("Assignment statements", "IncDec statements" of the Go specification).

ghost use Rattle.std.specs.Prelude.{◌≡◌, ℕ, ◌+◌, ◌^◌, ◌<◌, Option, Some, IfOk, IfErr};
ghost use Rattle.syntax.specs.Tree.{Update};
ghost use Rattle.syntax.specs.Measures.{simple_size};
ghost use Rattle.syntax.specs.View.{expression_of, place_of};
ghost use Rattle.type_table.specs.Types.{ValueType as OneType};
ghost use Rattle.type_table.specs.Views.{kind_of};
ghost use Rattle.type_table.specs.Visible.{types_of, globals_in, scope_of};
ghost use Rattle.typing_rules.specs.declared.violation.Violation.{Violation as OneViolation};
ghost use Rattle.typing_rules.specs.Violations.{Nodes};
ghost use Rattle.typing_rules.specs.Worths.{Worth as OneWorth};
ghost use Rattle.checker_base.specs.Views.{worth_of, IsSmall, Refuses};
ghost use Rattle.typing_rules.specs.Simples.{UpdatedHas, StepHas, SimpleHas};

use crate::place::read_place;
use checker_base::misuse::{Operator, misused};
use checker_base::operand::{Operand, checked};
use checker_base::refusal::Refusal;
use checker_base::value::value;
use checker_base::worth::{Worth, binary_worth};
use go_text::Rule;
use syntax::{BinaryOperator, ExpressionNode, NodeId, PlaceNode};
use type_table::scope::Visible;
use type_table::table::TypeTable;
use type_table::value_type::ValueType;
use typing_rules::violation::Violation;

/// Checks `++` or `--`, whose nodes have numbers from `first` on, and returns the number after them.
pub(crate) fn step(
    table: &TypeTable<'_>,
    visible: &Visible<'_>,
    first: NodeId,
    node: &PlaceNode,
) -> Result<NodeId, Refusal>
    requires small { first + 2 < 2 ^ 32 }
    ensures end { IfOk result (λ end. end ≡ first + 2) }
    ensures none { IfOk result (λ _. (violation : OneViolation) → ¬ (StepHas (globals_in table.now) (scope_of table.now visible.now) first (place_of node.now) violation)) }
    ensures one { IfErr result (Refuses (StepHas (globals_in table.now) (scope_of table.now visible.now) first (place_of node.now))) }
{
    match read_place(table, visible, first, node)? {
        ValueType::Int => Ok(first + 2),
        _ => Err(Refusal::Violated(Violation::Broken(Rule::Operands, first + 1))),
    }
}

/// Checks that an operator accepts an lvalue of a type and a value, and that the result is assignable to the lvalue; the statement's node
/// is the next one.
fn updates<'a>(
    table: &TypeTable<'a>,
    operator: BinaryOperator,
    kind: ValueType<'a>,
    operand: Operand<'a>,
) -> Result<(), Violation>
    requires small { IsSmall operand.worth }
    requires next { operand.node + 1 < 2 ^ 32 }
    ensures none { IfOk result (λ _. (k : Option OneType) → k ≡ Some (kind_of (types_of table.now) kind.entry) → (w : Option OneWorth) → w ≡ Some (worth_of (types_of table.now) operand.entry.worth) → (nodes : Nodes) → nodes.first ≡ operand.entry.first → nodes.end ≡ operand.entry.node + 1 → (end : ℕ) → end ≡ operand.entry.node + 2 → (violation : OneViolation) → ¬ (UpdatedHas operator k w nodes end violation)) }
    ensures one { IfErr result (λ violation. (k : Option OneType) → k ≡ Some (kind_of (types_of table.now) kind.entry) → (w : Option OneWorth) → w ≡ Some (worth_of (types_of table.now) operand.entry.worth) → (nodes : Nodes) → nodes.first ≡ operand.entry.first → nodes.end ≡ operand.entry.node + 1 → (end : ℕ) → end ≡ operand.entry.node + 2 → UpdatedHas operator k w nodes end violation) }
{
    match binary_worth(table, operator, Worth::Typed(kind), operand.worth) {
        Ok(worth) => value(table, Operand { worth, ..operand }, kind),
        Err(misuse) => Err(misused(
            misuse,
            Operator {
                left_first: operand.first,
                left: operand.node,
                right_first: operand.first,
                right: operand.node,
                own: operand.node + 1,
            },
        )),
    }
}

/// Checks an assignment with an operator, whose nodes have numbers from `first` on, and returns the number after them.
pub(crate) fn update(
    table: &TypeTable<'_>,
    visible: &Visible<'_>,
    first: NodeId,
    node: &PlaceNode,
    operator: BinaryOperator,
    value: &ExpressionNode,
) -> Result<NodeId, Refusal>
    requires small { first + simple_size (Update (place_of node.now) operator (expression_of value.now)) < 2 ^ 32 }
    ensures end { IfOk result (λ end. end ≡ first + simple_size (Update (place_of node.now) operator (expression_of value.now))) }
    ensures none { IfOk result (λ _. (violation : OneViolation) → ¬ (SimpleHas (globals_in table.now) (scope_of table.now visible.now) first (Update (place_of node.now) operator (expression_of value.now)) violation)) }
    ensures one { IfErr result (Refuses (SimpleHas (globals_in table.now) (scope_of table.now visible.now) first (Update (place_of node.now) operator (expression_of value.now)))) }
{
    let kind = read_place(table, visible, first, node)?;
    let operand = checked(table, visible, first + 1, value)?;
    updates(table, operator, kind, operand)?;
    Ok(operand.node + 2)
}
