//! The types of expressions and of right sides, if variables are those of a run.

ghost use Rattle.std.specs.Prelude.{◌≡◌, ◌∷◌, ◌==◌, ◌&&◌, [], ℕ, List, IfOk, IfSome, option_map, map};
ghost use Rattle.std.specs.Option.{is_some};
ghost use Rattle.syntax.specs.Tree.{Receive};
ghost use Rattle.syntax.specs.View.{expression_of, type_of};
ghost use Rattle.type_table.specs.Types.{element_type};
ghost use Rattle.type_table.specs.Views.{kind_of};
ghost use Rattle.type_table.specs.Visible.{types_of, globals_in};
ghost use Rattle.typing_rules.specs.Expressions.{default_type};
ghost use Rattle.typing_rules.specs.Worths.{element_of};
ghost use Rattle.checker_base.specs.Views.{worth_of};
ghost use Rattle.meaning.specs.Destinations.{given_kinds};
ghost use Rattle.meaning.specs.Expressions.{element_kind, written_kind, type_of as kind_meant};
ghost use Rattle.meaning.specs.Values.{known};
ghost use Rattle.reference_value.specs.Rights.{is_lone_receive};
ghost use Rattle.reference_scope.specs.Scopes.{blocks_of};

use crate::callee::written_kind;
use crate::worth::worth;
use checker_base::worth::Worth;
use reference_scope::scope::Scope;
use reference_scope::words::with_first;
use std::alloc::{AllocError, Global};
use syntax::{ExpressionNode, TypeNode};
use type_table::table::TypeTable;
use type_table::value_type::{ValueType, element_in};

/// The type that a variable takes from a value of this type or constant value.
fn default_kind<'t>(worth: Option<Worth<'t>>) -> ValueType<'t>
    ensures { (types : List (List ℕ)) → kind_of types result ≡ known (default_type (option_map (worth_of types) worth.entry)) }
{
    match worth {
        Some(Worth::Typed(kind)) => kind,
        _ => ValueType::Int,
    }
}

/// The type of an expression.
pub fn kind_in<'t>(
    table: &TypeTable<'t>,
    scope: &Scope<'t>,
    expression: &'t ExpressionNode,
) -> ValueType<'t>
    ensures { kind_of (types_of table.now) result ≡ kind_meant (globals_in table.now) (blocks_of (types_of table.now) scope.now) (expression_of expression.now) }
{
    default_kind(worth(table, scope, expression))
}

/// What a channel of this type carries.
fn carried<'t>(table: &TypeTable<'_>, worth: Option<Worth<'t>>) -> ValueType<'t>
    ensures { kind_of (types_of table.now) result ≡ known (element_of (option_map (worth_of (types_of table.now)) worth.entry)) }
{
    match worth {
        Some(Worth::Typed(ValueType::Channel(_, element))) => element_in(table, element),
        _ => ValueType::Int,
    }
}

/// What a channel carries.
pub fn element_kind<'t>(
    table: &TypeTable<'t>,
    scope: &Scope<'t>,
    channel: &'t ExpressionNode,
) -> ValueType<'t>
    ensures { kind_of (types_of table.now) result ≡ element_kind (globals_in table.now) (blocks_of (types_of table.now) scope.now) (expression_of channel.now) }
{
    carried(table, worth(table, scope, channel))
}

/// What a channel carries that is made by this type.
pub(crate) fn made_kind<'t>(table: &TypeTable<'_>, kind: &'t TypeNode) -> ValueType<'t>
    ensures { kind_of (types_of table.now) result ≡ known (element_type (written_kind (globals_in table.now) (type_of kind.now))) }
{
    match written_kind(table, kind) {
        ValueType::Channel(_, element) => element_in(table, element),
        _ => ValueType::Int,
    }
}

/// The types of expressions.
fn kinds_in<'a, 't>(
    alloc: Global,
    table: &'a TypeTable<'t>,
    scope: &'a Scope<'t>,
    expressions: &'t [ExpressionNode],
) -> Result<Vec<ValueType<'t>>, AllocError>
    ensures { IfOk result (λ v. map (kind_of (types_of table.now)) v.items ≡ map (kind_meant (globals_in table.now) (blocks_of (types_of table.now) scope.now)) (map expression_of expressions.now)) }
{
    let Some((first, rest)) = expressions.split_first() else {
        return Ok(Vec::new(alloc));
    };
    let others = kinds_in(alloc, table, scope, rest)?;
    with_first(kind_in(table, scope, first), others)
}

/// The channel of a right side that is one receive and gives both the item and whether it was sent.
pub(crate) fn received_from(count: usize, right: &[ExpressionNode]) -> Option<&ExpressionNode>
    ensures count { IfSome result (λ _. count ≡ 2) }
    ensures some { IfSome result (λ channel. map expression_of right.now ≡ Receive (expression_of channel.now) ∷ []) }
    ensures is { is_some result ≡ ((count == 2) && is_lone_receive (map expression_of right.now)) }
{
    match (count, right) {
        (2, [only]) => match only {
            ExpressionNode::Receive(channel) => Some(channel),
            _ => None,
        },
        _ => None,
    }
}

/// The types of the values that a right side gives to `count` lvalues: one receive gives two of them the item and whether it was sent.
#[tactic(auto, using(crate::proofs::Types::kinds_given))]
pub fn given_kinds<'t>(
    alloc: Global,
    table: &TypeTable<'t>,
    scope: &Scope<'t>,
    count: usize,
    right: &'t [ExpressionNode],
) -> Result<Vec<ValueType<'t>>, AllocError>
    ensures { IfOk result (λ v. map (kind_of (types_of table.now)) v.items ≡ given_kinds (globals_in table.now) (blocks_of (types_of table.now) scope.now) count (map expression_of right.now)) }
{
    let mut kinds = kinds_in(alloc, table, scope, right)?;
    match received_from(count, right) {
        Some(_) => {
            kinds.push(ValueType::Bool)?;
            Ok(kinds)
        }
        None => Ok(kinds),
    }
}
