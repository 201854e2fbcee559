//! Parameters and results of functions.

ghost use Rattle.std.specs.Prelude.{◌≡◌, OnOk, Some, map, option_map};
ghost use Rattle.syntax.specs.View.{declared_of, name_of, type_of};
ghost use Rattle.type_table.specs.Scopes.{nothing_declared, type_in};
ghost use Rattle.type_table.specs.Views.{kind_of, yield_of};
ghost use Rattle.type_table.specs.Visible.{types_of};
ghost use Rattle.typing_rules.specs.Kinds.{all_fields, fields_declared, yield_of as written_yield};
ghost use Rattle.meaning.specs.Values.{known};
ghost use Rattle.codegen_base.specs.Layouts.{with_parameters};
ghost use Rattle.codegen_emission.specs.Layouts.{layout_in};
ghost use Rattle.codegen_expression.specs.Contexts.{elements_of, globals_of, types_in};
ghost use Rattle.codegen.specs.Codes.{IsKnown};

use codegen_emission::layout::{Layout, declare};
use codegen_expression::channel::known;
use codegen_expression::context::Context;
use std::alloc::AllocError;
use syntax::{DeclaredNode, Name, TypeNode};
use type_table::table::TypeTable;
use type_table::value_type::{ValueType, global_type_in};

/// A type outside of functions; an int if a name in it is no type's.
fn written<'a>(table: &TypeTable<'a>, kind: &'a TypeNode) -> ValueType<'a>
    ensures { kind_of (types_of table.now) result ≡ known (type_in (types_of table.now) nothing_declared (type_of kind.now)) }
{
    known(global_type_in(table.types(), kind))
}

/// The type of a function's result, if it has one.
pub(crate) fn result_type<'a>(
    table: &TypeTable<'a>,
    kind: Option<&'a TypeNode>,
) -> Option<ValueType<'a>>
    requires { IsKnown (written_yield (types_of table.now) (option_map (λ (t : _). type_of t.now) kind)) }
    ensures { yield_of (types_of table.now) result ≡ written_yield (types_of table.now) (option_map (λ (t : _). type_of t.now) kind.entry) }
{
    match kind {
        Some(kind) => Some(written(table, kind)),
        None => None,
    }
}

/// Declares parameters of one type.
fn declare_names<'t, 'm, 'a>(
    context: &'t Context<'t, 'a>,
    layout: &'m mut Layout<'a>,
    kind: ValueType<'a>,
    names: &'a [Name],
) -> Result<(), AllocError>
    ensures { OnOk result (layout_in context.now layout.new ≡ with_parameters (globals_of context.now) (elements_of context.now) (all_fields (Some (kind_of (types_in context.now) kind.entry)) (map name_of names.now)) (layout_in context.now layout.old)) }
{
    let Some((name, names)) = names.split_first() else {
        return Ok(());
    };
    declare(context, layout, kind, name)?;
    declare_names(context, layout, kind, names)?;
    Ok(())
}

/// Declares parameters.
///
/// Errors: out of memory.
pub(crate) fn declare_parameters<'t, 'm, 'a>(
    context: &'t Context<'t, 'a>,
    layout: &'m mut Layout<'a>,
    groups: &'a [DeclaredNode],
) -> Result<(), AllocError>
    ensures { OnOk result (layout_in context.now layout.new ≡ with_parameters (globals_of context.now) (elements_of context.now) (fields_declared (types_in context.now) (map declared_of groups.now)) (layout_in context.now layout.old)) }
{
    let Some((group, groups)) = groups.split_first() else {
        return Ok(());
    };
    let kind = written(context.table, &group.type_node);
    declare_names(context, layout, kind, group.names.as_slice())?;
    declare_parameters(context, layout, groups)?;
    Ok(())
}
