//! What calls and types within expressions stand for, if variables are those of a run.

ghost use Rattle.std.specs.Option.{option_copied};
ghost use Rattle.std.specs.Prelude.{◌≡◌, ℕ, List, option_map};
ghost use Rattle.syntax.specs.View.{type_of};
ghost use Rattle.type_table.specs.Scopes.{function_number, type_in, variable_named};
ghost use Rattle.type_table.specs.Views.{kind_of, yield_of};
ghost use Rattle.type_table.specs.Visible.{types_of, globals_in};
ghost use Rattle.typing_rules.specs.Calls.{callee, is_other, result_of, result_type};
ghost use Rattle.meaning.specs.Expressions.{number_of, written_kind};
ghost use Rattle.meaning.specs.Variables.{scope_in};
ghost use Rattle.reference_scope.specs.Scopes.{blocks_of, variable_in};

use reference_scope::scope::{Scope, Variable};
use syntax::TypeNode;
use type_table::layout::{function_number, number_of as struct_number};
use type_table::scope::{is_blank, is_reserved};
use type_table::table::TypeTable;
use type_table::value_type::{ValueType, global_type_in};

/// The variable that a name stands for; `_` stands for none.
#[tactic(auto, using(crate::proofs::Names::named_in))]
pub(crate) fn variable_named<'a, 't>(scope: &'a Scope<'t>, name: &[u8]) -> Option<&'a Variable<'t>>
    ensures { (types : List (List ℕ)) → option_map (variable_in types) (option_copied result) ≡ variable_named (scope_in (blocks_of types scope.now)) name.now }
{
    if is_blank(name) {
        None
    } else {
        scope.lookup(name)
    }
}

/// The type that is written here.
pub fn written_kind<'t>(table: &TypeTable<'_>, kind: &'t TypeNode) -> ValueType<'t>
    ensures { kind_of (types_of table.now) result ≡ written_kind (globals_in table.now) (type_of kind.now) }
{
    match global_type_in(table.types(), kind) {
        Some(kind) => kind,
        None => ValueType::Int,
    }
}

/// The type that is written here: `None` if a variable has a name in it.
#[tactic(auto, using(crate::proofs::Types::named_type))]
pub(crate) fn type_in<'a, 't>(
    table: &'a TypeTable<'t>,
    scope: &'a Scope<'t>,
    kind: &'t TypeNode,
) -> Option<ValueType<'t>>
    ensures { option_map (kind_of (types_of table.now)) result ≡ type_in (types_of table.now) (scope_in (blocks_of (types_of table.now) scope.now)) (type_of kind.now) }
{
    match kind {
        TypeNode::Named(name) => match variable_named(scope, name.bytes.as_slice()) {
            Some(_) => None,
            None => global_type_in(table.types(), kind),
        },
        TypeNode::Parenthesized(inner) => type_in(table, scope, inner),
        TypeNode::Channel(direction, element) => match type_in(table, scope, element) {
            Some(_) => Some(ValueType::Channel(*direction, element)),
            None => None,
        },
    }
}

/// Whether a name stands for a variable, a type or a value.
fn is_other(table: &TypeTable<'_>, scope: &Scope<'_>, name: &[u8]) -> bool
    ensures { result ≡ is_other (globals_in table.now) (scope_in (blocks_of (types_of table.now) scope.now)) name.now }
{
    variable_named(scope, name).is_some()
        || struct_number(table, name).is_some()
        || (is_reserved(name) && name != b"init".as_slice())
}

/// The number of the function of this name.
pub fn number_of(table: &TypeTable<'_>, name: &[u8]) -> usize
    ensures { result ≡ number_of (globals_in table.now) name.now }
{
    match function_number(table, name) {
        Some(number) => number,
        None => 0,
    }
}

/// The type of the result of the function with this number, if it has one.
pub fn result_of<'t>(table: &TypeTable<'t>, number: usize) -> Option<ValueType<'t>>
    ensures { yield_of (types_of table.now) result ≡ result_of (globals_in table.now) number }
{
    match table.functions.get(number) {
        Some(function) => function.result,
        None => None,
    }
}

/// The type of what a call gives, if it gives a value.
pub(crate) fn result_type<'t>(
    table: &TypeTable<'t>,
    scope: &Scope<'t>,
    name: &[u8],
) -> Option<ValueType<'t>>
    ensures { option_map (kind_of (types_of table.now)) result ≡ result_type (globals_in table.now) (callee (globals_in table.now) (scope_in (blocks_of (types_of table.now) scope.now)) name.now) }
{
    if is_other(table, scope, name) {
        return None;
    }
    match function_number(table, name) {
        Some(number) => result_of(table, number),
        None => None,
    }
}
