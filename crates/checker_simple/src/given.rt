//! What lvalues are given.

ghost use Rattle.std.specs.Prelude.{◌≡◌, ℕ, ◌+◌, ◌^◌, ◌<◌, ◌==◌, ◌&&◌, List, [], ◌∷◌, Option, Some, option_map, map, sum_by, true, false, IfOk, IfErr};
ghost use Rattle.syntax.specs.Tree.{expressions, Receive};
ghost use Rattle.syntax.specs.Measures.{expression_size};
ghost use Rattle.syntax.specs.View.{expression_of};
ghost use Rattle.typing_rules.specs.declared.violation.Violation.{Violation as OneViolation};
ghost use Rattle.type_table.specs.Types.{ValueType as OneType};
ghost use Rattle.typing_rules.specs.Expressions.{ExpressionHas, ExpressionsHave, NumbersHave, default_type};
ghost use Rattle.typing_rules.specs.Operations.{given, given_values, is_receive, GoesHas, RightHas};
ghost use Rattle.type_table.specs.Views.{kind_of};
ghost use Rattle.type_table.specs.Visible.{types_of, globals_in, scope_of};
ghost use Rattle.checker_base.specs.Views.{Refuses, worth_of};
ghost use Rattle.checker_simple.specs.Givens.{given_of, is_one_receive, source_of};

use checker_base::operand::{Operand, checked, receive};
use checker_base::refusal::Refusal;
use checker_base::value::{default_type, value};
use checker_base::worth::Worth;
use go_text::Rule;
use std::alloc::{AllocError, Global};
use syntax::{ExpressionNode, NodeId};
use type_table::scope::Visible;
use type_table::table::TypeTable;
use type_table::value_type::ValueType;
use typing_rules::violation::Violation;

/// What gives values to lvalues or names.
#[derive(Clone, Copy)]
pub enum Source<'a> {
    /// The right side of an assignment.
    Right(&'a [ExpressionNode]),
    /// A receive from this channel, for which a clause of a `select` waits.
    Receive(&'a ExpressionNode),
}

/// What a right side gives, value by value, and the number after its nodes.
#[derive(Drop)]
pub struct Given<'a> {
    pub values: Vec<Operand<'a>>,
    pub end: NodeId,
}

/// Checks that a value is assignable to a type, if that is known.
pub fn fits<'a>(
    table: &TypeTable<'a>,
    kind: Option<ValueType<'a>>,
    operand: Operand<'a>,
) -> Result<(), Violation>
    ensures none { IfOk result (λ _. (k : Option OneType) → k ≡ option_map (kind_of (types_of table.now)) kind.entry → (violation : OneViolation) → ¬ (GoesHas false (given_of (types_of table.now) operand.entry) k violation)) }
    ensures one { IfErr result (λ violation. (k : Option OneType) → k ≡ option_map (kind_of (types_of table.now)) kind.entry → GoesHas false (given_of (types_of table.now) operand.entry) k violation) }
{
    match kind {
        None => Ok(()),
        Some(kind) => match value(table, operand, kind) {
            Ok(()) => Ok(()),
            Err(violation) => Err(violation),
        },
    }
}

/// Checks that a value is assignable to a variable that takes its type, and returns that type.
pub fn fits_any<'a>(operand: Operand<'a>) -> Result<ValueType<'a>, Violation>
    ensures kind { IfOk result (λ kind. (types : List (List ℕ)) → default_type (Some (worth_of types operand.entry.worth)) ≡ Some (kind_of types kind)) }
    ensures none { IfOk result (λ _. (types : List (List ℕ)) → (k : Option OneType) → (violation : OneViolation) → ¬ (GoesHas true (given_of types operand.entry) k violation)) }
    ensures one { IfErr result (λ violation. (types : List (List ℕ)) → (k : Option OneType) → GoesHas true (given_of types operand.entry) k violation) }
{
    default_type(operand)
}

/// Checks values, whose nodes have numbers from `first` on.
fn operands<'a>(
    alloc: Global,
    table: &TypeTable<'a>,
    visible: &Visible<'a>,
    first: NodeId,
    values: &'a [ExpressionNode],
) -> Result<Given<'a>, Refusal>
    requires small { first + sum_by expression_size (map expression_of values.now) < 2 ^ 32 }
    ensures end { IfOk result (λ all. all.end ≡ first + sum_by expression_size (map expression_of values.now)) }
    ensures given { IfOk result (λ all. map (given_of (types_of table.now)) all.values.items ≡ given_values (globals_in table.now) (scope_of table.now visible.now) first (map expression_of values.now)) }
    ensures none { IfOk result (λ _. (violation : OneViolation) → ¬ (ExpressionsHave (globals_in table.now) (scope_of table.now visible.now) first (expressions (map expression_of values.now)) violation)) }
    ensures one { IfErr result (Refuses (ExpressionsHave (globals_in table.now) (scope_of table.now visible.now) first (expressions (map expression_of values.now)))) }
{
    let mut all = Vec::new(alloc);
    let mut end = first;
    for value in values {
        let operand = checked(table, visible, end, value)?;
        end = operand.node + 1;
        all.push(operand)?;
    }
    Ok(Given { values: all, end })
}

/// Checks a receive, whose nodes have numbers from `first` on, and returns the item.
fn item<'a>(
    alloc: Global,
    table: &TypeTable<'a>,
    visible: &Visible<'a>,
    first: NodeId,
    from: &'a ExpressionNode,
) -> Result<Given<'a>, Refusal>
    requires small { first + expression_size (expression_of from.now) + 1 < 2 ^ 32 }
    ensures end { IfOk result (λ all. all.end ≡ first + expression_size (expression_of from.now) + 1) }
    ensures given { IfOk result (λ all. map (given_of (types_of table.now)) all.values.items ≡ given_values (globals_in table.now) (scope_of table.now visible.now) first (Receive (expression_of from.now) ∷ [])) }
    ensures none { IfOk result (λ _. (violation : OneViolation) → ¬ (ExpressionHas (globals_in table.now) (scope_of table.now visible.now) first (Receive (expression_of from.now)) violation)) }
    ensures one { IfErr result (Refuses (ExpressionHas (globals_in table.now) (scope_of table.now visible.now) first (Receive (expression_of from.now)))) }
{
    let operand = receive(table, visible, first, from)?;
    let mut values = Vec::new(alloc);
    values.push(operand)?;
    Ok(Given {
        values,
        end: operand.node + 1,
    })
}

/// Checks the values of a right side, whose nodes have numbers from `first` on, and returns them.
fn values_of<'a>(
    alloc: Global,
    table: &TypeTable<'a>,
    visible: &Visible<'a>,
    first: NodeId,
    source: Source<'a>,
) -> Result<Given<'a>, Refusal>
    requires small { first + sum_by expression_size (source_of source) < 2 ^ 32 }
    ensures end { IfOk result (λ all. all.end ≡ first + sum_by expression_size (source_of source.entry)) }
    ensures given { IfOk result (λ all. map (given_of (types_of table.now)) all.values.items ≡ given_values (globals_in table.now) (scope_of table.now visible.now) first (source_of source.entry)) }
    ensures none { IfOk result (λ _. (violation : OneViolation) → ¬ (RightHas (globals_in table.now) (scope_of table.now visible.now) first (source_of source.entry) violation)) }
    ensures one { IfErr result (Refuses (RightHas (globals_in table.now) (scope_of table.now visible.now) first (source_of source.entry))) }
{
    match source {
        Source::Receive(channel) => item(alloc, table, visible, first, channel),
        Source::Right(values) => operands(alloc, table, visible, first, values),
    }
}

/// Whether an expression is a receive, without parentheses around it.
fn is_receive(expression: &ExpressionNode) -> bool
    ensures { result ≡ is_receive (expression_of expression.now) }
{
    matches!(expression, ExpressionNode::Receive(_))
}

/// Whether a right side is one receive, which can give two values.
fn is_one_receive(source: Source<'_>) -> bool
    ensures { result ≡ is_one_receive (source_of source.entry) }
{
    match source {
        Source::Receive(_) => true,
        Source::Right(values) => match values.split_first() {
            Some((value, rest)) => is_receive(value) && rest.is_empty(),
            None => false,
        },
    }
}

/// Checks what gives `places` lvalues their values, whose nodes have numbers from `first` on, and returns what it gives: a receive gives
/// two of them the item and whether it was sent.
pub fn given_by<'a>(
    alloc: Global,
    table: &TypeTable<'a>,
    visible: &Visible<'a>,
    places: usize,
    first: NodeId,
    source: Source<'a>,
) -> Result<Given<'a>, Refusal>
    requires small { first + sum_by expression_size (source_of source) < 2 ^ 32 }
    ensures end { IfOk result (λ all. all.end ≡ first + sum_by expression_size (source_of source.entry)) }
    ensures given { IfOk result (λ all. map (given_of (types_of table.now)) all.values.items ≡ given (globals_in table.now) (scope_of table.now visible.now) places first (source_of source.entry)) }
    ensures none { IfOk result (λ _. (violation : OneViolation) → ¬ (RightHas (globals_in table.now) (scope_of table.now visible.now) first (source_of source.entry) violation)) }
    ensures one { IfErr result (Refuses (RightHas (globals_in table.now) (scope_of table.now visible.now) first (source_of source.entry))) }
{
    let mut given = values_of(alloc, table, visible, first, source)?;
    if places == 2 && is_one_receive(source) {
        let node = given.end - 1;
        given.values.push(Operand {
            first,
            node,
            worth: Worth::Typed(ValueType::Bool),
        })?;
    }
    Ok(given)
}

/// Checks that there are as many values as lvalues; `node` is the own node of what gives the values.
pub fn numbers_agree(values: usize, places: usize, node: NodeId) -> Result<(), Violation>
    ensures same { IfOk result (λ _. values ≡ places) }
    ensures none { IfOk result (λ _. (end : ℕ) → end ≡ node + 1 → (violation : OneViolation) → ¬ (NumbersHave values places end violation)) }
    ensures one { IfErr result (λ violation. (end : ℕ) → end ≡ node + 1 → NumbersHave values places end violation) }
{
    if values == places {
        Ok(())
    } else {
        Err(Violation::Broken(Rule::Numbers, node))
    }
}
