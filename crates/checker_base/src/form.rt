//! The check of expressions whose operands were checked.

ghost use Rattle.std.specs.Prelude.{◌≡◌, ◌≢◌, ℕ, ◌+◌, ◌^◌, ◌<◌, List, option_map, Option, Some, None, IfOk, IfErr};
ghost use Rattle.std.specs.Result.{result_ok};
ghost use Rattle.syntax.specs.Tree.{Named, Make};
ghost use Rattle.syntax.specs.Measures.{type_size};
ghost use Rattle.syntax.specs.View.{name_of, type_of};
ghost use Rattle.type_table.specs.Views.{kind_of};
ghost use Rattle.type_table.specs.Visible.{types_of, globals_in, scope_of};
ghost use Rattle.typing_rules.specs.declared.violation.Violation.{Violation as OneViolation};
ghost use Rattle.typing_rules.specs.Violations.{Nodes, IsExceeded};
ghost use Rattle.typing_rules.specs.Calls.{made_of, result_of, yielded};
ghost use Rattle.typing_rules.specs.Worths.{Worth as OneWorth, Typed, Constant, literal, worth as spec_worth, selected_worth, unary_worth, binary_worth};
ghost use Rattle.typing_rules.specs.Expressions.{ExpressionHas, UnaryHas, BinaryHas, SelectionHas, MadeHas, SizeHas, YieldHas};
ghost use Rattle.checker_base.specs.Views.{worth_of, IsSmall};

use crate::callee::{CheckedCall, result_of};
use crate::misuse::{Operator, misused};
use crate::operand::Operand;
use crate::worth::{
    Worth, binary_worth, is_int, literal, named_worth, selected_worth, unary_worth,
};
use go_text::{LimitKind, Rule};
use syntax::size::type_size;
use syntax::{BinaryOperator, Name, NodeId, TypeNode, UnaryOperator};
use type_table::layout::field_of;
use type_table::scope::Visible;
use type_table::table::TypeTable;
use type_table::value_type::{ValueType, type_in};
use typing_rules::violation::Violation;

/// Checks an integer, whose node is `first` ("Integer literals" of the Go specification).
pub(crate) fn integer<'a>(first: NodeId, value: Option<u128>) -> Result<Operand<'a>, Violation>
    ensures worth { IfOk result (λ o. (types : List (List ℕ)) → option_map Constant (literal value) ≡ Some (worth_of types o.worth)) }
    ensures small { IfOk result (λ o. IsSmall o.worth) }
    ensures first { IfOk result (λ o. first ≡ o.first) }
    ensures node { IfOk result (λ o. first ≡ o.node) }
    ensures none { IfOk result (λ _. literal value ≢ None) }
    ensures one { IfErr result (λ violation. (literal value ≡ None) × IsExceeded LimitKind.ConstantSize (first + 1) violation) }
{
    match literal(value) {
        Some(value) => Ok(Operand {
            first,
            node: first,
            worth: Worth::Constant(value),
        }),
        None => Err(Violation::Exceeded(LimitKind::ConstantSize, first)),
    }
}

/// Checks a name as an operand, whose node is `first` ("Operands").
pub(crate) fn named<'a>(
    table: &TypeTable<'a>,
    visible: &Visible<'a>,
    first: NodeId,
    name: &Name,
) -> Result<Operand<'a>, Violation>
    ensures worth { IfOk result (λ o. spec_worth (globals_in table.now) (scope_of table.now visible.now) (Named (name_of name.now)) ≡ Some (worth_of (types_of table.now) o.worth)) }
    ensures small { IfOk result (λ o. IsSmall o.worth) }
    ensures first { IfOk result (λ o. first ≡ o.first) }
    ensures node { IfOk result (λ o. first ≡ o.node) }
    ensures none { IfOk result (λ _. (violation : OneViolation) → ¬ (ExpressionHas (globals_in table.now) (scope_of table.now visible.now) first (Named (name_of name.now)) violation)) }
    ensures one { IfErr result (ExpressionHas (globals_in table.now) (scope_of table.now visible.now) first (Named (name_of name.now))) }
{
    match named_worth(table, visible, name.bytes.as_slice()) {
        Some(worth) => Ok(Operand {
            first,
            node: first,
            worth,
        }),
        None => Err(Violation::Broken(Rule::Visible, first)),
    }
}

/// Checks the selection of a field of an operand ("Selectors").
pub(crate) fn selection<'a>(
    table: &TypeTable<'a>,
    whole: Operand<'_>,
    field: &[u8],
) -> Result<Operand<'a>, Violation>
    requires small { whole.node + 1 < 2 ^ 32 }
    ensures worth { IfOk result (λ o. selected_worth (globals_in table.now) field.now (worth_of (types_of table.now) whole.entry.worth) ≡ Some (worth_of (types_of table.now) o.worth)) }
    ensures small { IfOk result (λ o. IsSmall o.worth) }
    ensures first { IfOk result (λ o. whole.entry.first ≡ o.first) }
    ensures node { IfOk result (λ o. whole.entry.node + 1 ≡ o.node) }
    ensures none { IfOk result (λ _. (w : Option OneWorth) → w ≡ Some (worth_of (types_of table.now) whole.entry.worth) → (nodes : Nodes) → (end : ℕ) → (violation : OneViolation) → ¬ (SelectionHas (globals_in table.now) w field.now nodes end violation)) }
    ensures one { IfErr result (λ violation. (w : Option OneWorth) → w ≡ Some (worth_of (types_of table.now) whole.entry.worth) → (nodes : Nodes) → nodes.first ≡ whole.entry.first → (end : ℕ) → end ≡ whole.entry.node + 2 → SelectionHas (globals_in table.now) w field.now nodes end violation) }
{
    let node = whole.node + 1;
    match whole.worth {
        Worth::Typed(kind) => match field_of(table, kind, field) {
            Some(selected) => Ok(Operand {
                first: whole.first,
                node,
                worth: Worth::Typed(selected.kind),
            }),
            None => Err(Violation::Broken(Rule::Visible, node)),
        },
        Worth::Constant(_) => Err(Violation::Broken(Rule::Visible, node)),
        Worth::Nil => Err(Violation::Broken(Rule::Nil, whole.first)),
    }
}

/// Checks an operator before an operand ("Operators").
pub(crate) fn before<'a>(
    operator: UnaryOperator,
    operand: Operand<'_>,
) -> Result<Operand<'a>, Violation>
    requires bounded { IsSmall operand.worth }
    requires small { operand.node + 1 < 2 ^ 32 }
    ensures worth { IfOk result (λ o. (types : List (List ℕ)) → result_ok (unary_worth operator (worth_of types operand.entry.worth)) ≡ Some (worth_of types o.worth)) }
    ensures small { IfOk result (λ o. IsSmall o.worth) }
    ensures first { IfOk result (λ o. operand.entry.first ≡ o.first) }
    ensures node { IfOk result (λ o. operand.entry.node + 1 ≡ o.node) }
    ensures none { IfOk result (λ _. (types : List (List ℕ)) → (w : Option OneWorth) → w ≡ Some (worth_of types operand.entry.worth) → (nodes : Nodes) → (end : ℕ) → (violation : OneViolation) → ¬ (UnaryHas operator w nodes end violation)) }
    ensures one { IfErr result (λ violation. (types : List (List ℕ)) → (w : Option OneWorth) → w ≡ Some (worth_of types operand.entry.worth) → (nodes : Nodes) → nodes.first ≡ operand.entry.first → nodes.end ≡ operand.entry.node + 1 → (end : ℕ) → end ≡ operand.entry.node + 2 → UnaryHas operator w nodes end violation) }
{
    let at = Operator {
        left_first: operand.first,
        left: operand.node,
        right_first: operand.first,
        right: operand.node,
        own: operand.node + 1,
    };
    match unary_worth(operator, operand.worth) {
        Ok(worth) => Ok(Operand {
            first: operand.first,
            node: operand.node + 1,
            worth,
        }),
        Err(misuse) => Err(misused(misuse, at)),
    }
}

/// Checks an operator between two operands ("Operators").
pub(crate) fn between<'a>(
    table: &TypeTable<'_>,
    operator: BinaryOperator,
    left: Operand<'_>,
    right: Operand<'_>,
) -> Result<Operand<'a>, Violation>
    requires left { IsSmall left.worth }
    requires right { IsSmall right.worth }
    requires small { right.node + 1 < 2 ^ 32 }
    ensures worth { IfOk result (λ o. result_ok (binary_worth operator (worth_of (types_of table.now) left.entry.worth) (worth_of (types_of table.now) right.entry.worth)) ≡ Some (worth_of (types_of table.now) o.worth)) }
    ensures small { IfOk result (λ o. IsSmall o.worth) }
    ensures first { IfOk result (λ o. left.entry.first ≡ o.first) }
    ensures node { IfOk result (λ o. right.entry.node + 1 ≡ o.node) }
    ensures none { IfOk result (λ _. (a b : Option OneWorth) → a ≡ Some (worth_of (types_of table.now) left.entry.worth) → b ≡ Some (worth_of (types_of table.now) right.entry.worth) → (one other : Nodes) → (end : ℕ) → (violation : OneViolation) → ¬ (BinaryHas operator a b one other end violation)) }
    ensures one { IfErr result (λ violation. (a b : Option OneWorth) → a ≡ Some (worth_of (types_of table.now) left.entry.worth) → b ≡ Some (worth_of (types_of table.now) right.entry.worth) → (one other : Nodes) → one.first ≡ left.entry.first → one.end ≡ left.entry.node + 1 → other.first ≡ right.entry.first → other.end ≡ right.entry.node + 1 → (end : ℕ) → end ≡ right.entry.node + 2 → BinaryHas operator a b one other end violation) }
{
    let at = Operator {
        left_first: left.first,
        left: left.node,
        right_first: right.first,
        right: right.node,
        own: right.node + 1,
    };
    match binary_worth(table, operator, left.worth, right.worth) {
        Ok(worth) => Ok(Operand {
            first: left.first,
            node: right.node + 1,
            worth,
        }),
        Err(misuse) => Err(misused(misuse, at)),
    }
}

/// Checks that a call that is used as a value, whose first node is `first`, has a result ("Calls").
pub(crate) fn call_value<'a>(
    table: &TypeTable<'a>,
    first: NodeId,
    called: CheckedCall,
) -> Result<Operand<'a>, Violation>
    ensures worth { IfOk result (λ o. option_map Typed (yielded (result_of (globals_in table.now) called.function)) ≡ Some (worth_of (types_of table.now) o.worth)) }
    ensures small { IfOk result (λ o. IsSmall o.worth) }
    ensures first { IfOk result (λ o. first ≡ o.first) }
    ensures node { IfOk result (λ o. called.node ≡ o.node) }
    ensures none { IfOk result (λ _. (end : ℕ) → (violation : OneViolation) → ¬ (YieldHas (result_of (globals_in table.now) called.function) end violation)) }
    ensures one { IfErr result (λ violation. (end : ℕ) → end ≡ called.node + 1 → YieldHas (result_of (globals_in table.now) called.function) end violation) }
{
    match result_of(table, called.function) {
        Some(kind) => Ok(Operand {
            first,
            node: called.node,
            worth: Worth::Typed(kind),
        }),
        None => Err(Violation::Broken(Rule::Called, called.node)),
    }
}

/// Checks the size of a channel's buffer.
pub(crate) fn buffer_size(operand: Operand<'_>) -> Result<(), Violation>
    ensures none { IfOk result (λ _. (types : List (List ℕ)) (w : Option OneWorth) → w ≡ Some (worth_of types operand.entry.worth) → (nodes : Nodes) → nodes.first ≡ operand.entry.first → nodes.end ≡ operand.entry.node + 1 → (violation : OneViolation) → ¬ (SizeHas w nodes violation)) }
    ensures one { IfErr result (λ violation. (types : List (List ℕ)) (w : Option OneWorth) → w ≡ Some (worth_of types operand.entry.worth) → (nodes : Nodes) → nodes.first ≡ operand.entry.first → nodes.end ≡ operand.entry.node + 1 → SizeHas w nodes violation) }
{
    match operand.worth {
        Worth::Typed(ValueType::Int) => Ok(()),
        Worth::Typed(_) => Err(Violation::Broken(Rule::Made, operand.node)),
        Worth::Nil => Err(Violation::Broken(Rule::Nil, operand.first)),
        Worth::Constant(value) => {
            if !is_int(value) {
                Err(Violation::Broken(Rule::Constant, operand.node))
            } else if value < 0 {
                Err(Violation::Broken(Rule::Made, operand.node))
            } else {
                Ok(())
            }
        }
    }
}

/// Checks that what is made is a channel; the nodes of the `make` are those from `first` to `node`.
pub(crate) fn made<'a>(
    kind: ValueType<'a>,
    first: NodeId,
    node: NodeId,
) -> Result<Operand<'a>, Violation>
    ensures worth { IfOk result (λ o. (types : List (List ℕ)) → option_map Typed (made_of (Some (kind_of types kind.entry))) ≡ Some (worth_of types o.worth)) }
    ensures small { IfOk result (λ o. IsSmall o.worth) }
    ensures first { IfOk result (λ o. first ≡ o.first) }
    ensures node { IfOk result (λ o. node ≡ o.node) }
    ensures none { IfOk result (λ _. (types : List (List ℕ)) → (end : ℕ) → (violation : OneViolation) → ¬ (MadeHas (Some (kind_of types kind.entry)) end violation)) }
    ensures one { IfErr result (λ violation. (types : List (List ℕ)) → (end : ℕ) → end ≡ node + 1 → MadeHas (Some (kind_of types kind.entry)) end violation) }
{
    match kind {
        ValueType::Channel(_, _) => Ok(Operand {
            first,
            node,
            worth: Worth::Typed(kind),
        }),
        _ => Err(Violation::Broken(Rule::Made, node)),
    }
}

/// Checks a `make` of a channel without a buffer, whose nodes have numbers from `first` on ("Making slices, maps and
/// channels").
pub(crate) fn make<'a>(
    table: &TypeTable<'a>,
    visible: &Visible<'a>,
    first: NodeId,
    written: &'a TypeNode,
) -> Result<Operand<'a>, Violation>
    requires small { first + type_size (type_of written.now) + 1 < 2 ^ 32 }
    ensures worth { IfOk result (λ o. spec_worth (globals_in table.now) (scope_of table.now visible.now) (Make (type_of written.now)) ≡ Some (worth_of (types_of table.now) o.worth)) }
    ensures small { IfOk result (λ o. IsSmall o.worth) }
    ensures first { IfOk result (λ o. first ≡ o.first) }
    ensures node { IfOk result (λ o. first + type_size (type_of written.now) ≡ o.node) }
    ensures none { IfOk result (λ _. (violation : OneViolation) → ¬ (ExpressionHas (globals_in table.now) (scope_of table.now visible.now) first (Make (type_of written.now)) violation)) }
    ensures one { IfErr result (ExpressionHas (globals_in table.now) (scope_of table.now visible.now) first (Make (type_of written.now))) }
{
    match type_in(table, visible, written) {
        Some(kind) => made(kind, first, first + type_size(written)),
        None => Err(Violation::Broken(Rule::Visible, first)),
    }
}
