//! The destinations of the values of right sides.

ghost use Rattle.std.specs.Prelude.{◌≡◌, IfOk, length, map};
ghost use Rattle.syntax.specs.View.{expression_of, name_of, type_of};
ghost use Rattle.type_table.specs.Visible.{globals_in, types_of};
ghost use Rattle.meaning.specs.Destinations.{all_defined, all_new, given_kinds, new};
ghost use Rattle.meaning.specs.Expressions.{written_kind};
ghost use Rattle.reference_scope.specs.Destinations.{destinations_of};
ghost use Rattle.reference_scope.specs.Scopes.{blocks_of};

use reference_scope::place::{Destination, all_defined, all_new, all_typed};
use reference_scope::scope::Scope;
use reference_value::callee::written_kind;
use reference_value::kind::given_kinds;
use std::alloc::{AllocError, Global};
use syntax::{ExpressionNode, Name, TypeNode};
use type_table::table::TypeTable;

/// The destinations for the names of a `:=`.
pub(crate) fn defined<'t>(
    alloc: Global,
    table: &TypeTable<'t>,
    scope: &Scope<'t>,
    names: &'t [Name],
    right: &'t [ExpressionNode],
) -> Result<Vec<Destination<'t>>, AllocError>
    ensures { IfOk result (λ v. destinations_of (types_of table.now) v.items ≡ all_defined (globals_in table.now) (blocks_of (types_of table.now) scope.now) (map name_of names.now) (given_kinds (globals_in table.now) (blocks_of (types_of table.now) scope.now) (length (map name_of names.now)) (map expression_of right.now))) }
{
    let kinds = given_kinds(alloc, table, scope, names.len(), right)?;
    all_defined(alloc, table, scope, names, kinds.as_slice())
}

/// The destinations for the names of a `var` without a type.
pub(crate) fn untyped<'t>(
    alloc: Global,
    table: &TypeTable<'t>,
    scope: &Scope<'t>,
    names: &'t [Name],
    right: &'t [ExpressionNode],
) -> Result<Vec<Destination<'t>>, AllocError>
    ensures { IfOk result (λ v. destinations_of (types_of table.now) v.items ≡ all_new (globals_in table.now) (blocks_of (types_of table.now) scope.now) (map name_of names.now) (given_kinds (globals_in table.now) (blocks_of (types_of table.now) scope.now) (length (map name_of names.now)) (map expression_of right.now))) }
{
    let kinds = given_kinds(alloc, table, scope, names.len(), right)?;
    all_new(alloc, table, scope, names, kinds.as_slice())
}

/// The destinations for the names of a `var` with a type.
pub(crate) fn typed<'t>(
    alloc: Global,
    table: &TypeTable<'t>,
    scope: &Scope<'t>,
    names: &'t [Name],
    kind: &'t TypeNode,
) -> Result<Vec<Destination<'t>>, AllocError>
    ensures { IfOk result (λ v. destinations_of (types_of table.now) v.items ≡ map (λ name. new (globals_in table.now) (blocks_of (types_of table.now) scope.now) name (written_kind (globals_in table.now) (type_of kind.now))) (map name_of names.now)) }
{
    let kind = written_kind(table, kind);
    all_typed(alloc, table, scope, names, kind)
}
