//! Names that are declared, and take values ("Short variable declarations", "Variable declarations" of the Go specification).

ghost use Rattle.std.specs.Prelude.{◌≡◌, ◌≤◌, ◌^◌, ◌⊎◌, IfErr, IfOk, IsSomeAnd, List, OnOk, map};
ghost use Rattle.syntax.specs.View.{name_of};
ghost use Rattle.type_table.specs.Scopes.{own_variable};
ghost use Rattle.type_table.specs.Views.{kind_of};
ghost use Rattle.type_table.specs.Visible.{Keeps, globals_in, scope_of, types_of};
ghost use Rattle.codegen_base.specs.declared.element.Element.{Element};
ghost use Rattle.codegen_base.specs.Layouts.{declaring_all};
ghost use Rattle.codegen_base.specs.Statements.{name_spot, name_spots, name_type, name_types, own_spot};
ghost use Rattle.codegen_expression.specs.Contexts.{elements_of, globals_of, scope_in, types_in};
ghost use Rattle.codegen_simple.specs.Layouts.{layout_in};
ghost use Rattle.codegen_simple.specs.Spots.{spot_in};

use crate::layout::{Layout, declare_new, is_declarable};
use crate::spot::Spot;
use codegen_expression::context::Context;
use codegen_expression::operand::{number, words_of};
use std::alloc::AllocError;
use syntax::Name;
use type_table::scope::{Visible, own_variable};
use type_table::table::TypeTable;
use type_table::value_type::ValueType;

/// Where a value of this type goes that is assigned to a name that is not declared anew.
fn own_spot<'a>(
    context: &Context<'_, 'a>,
    visible: &Visible<'a>,
    name: &[u8],
    kind: ValueType<'a>,
) -> Result<Spot, AllocError>
    ensures spot { IfOk result (λ spot. spot_in spot ≡ own_spot (globals_of context.now) (elements_of context.now) (scope_in context.now visible.now) (kind_of (types_in context.now) kind.entry) (own_variable (scope_in context.now visible.now) name.now)) }
    ensures far { IfErr result (λ _. IsSomeAnd (own_variable (scope_in context.now visible.now) name.now) (λ v. 2 ^ 32 ≤ v.place)) }
{
    match own_variable(context.table, visible, name) {
        Some(entry) => {
            let place = number(entry.place)?;
            Ok(Spot::Local(place, words_of(context, entry.kind)))
        }
        None => Ok(Spot::Dropped(words_of(context, kind))),
    }
}

/// Where a value of this type goes that is assigned to a name.
///
/// Errors: that begins at 2^32 or later, which counts as out of memory.
pub fn name_spot<'a>(
    context: &Context<'_, 'a>,
    layout: &Layout<'a>,
    name: &Name,
    kind: ValueType<'a>,
) -> Result<Spot, AllocError>
    ensures spot { IfOk result (λ spot. spot_in spot ≡ name_spot (globals_of context.now) (elements_of context.now) (layout_in context.now layout.now) (name_of name.now) (kind_of (types_in context.now) kind.entry)) }
    ensures far { IfErr result (λ _. (2 ^ 32 ≤ layout.now.visible.words) ⊎ IsSomeAnd (own_variable (scope_in context.now layout.now.visible) (name_of name.now)) (λ v. 2 ^ 32 ≤ v.place)) }
{
    let name = name.bytes.as_slice();
    if is_declarable(context.table, &layout.visible, name) {
        let place = number(layout.visible.words)?;
        return Ok(Spot::Local(place, words_of(context, kind)));
    }
    own_spot(context, &layout.visible, name, kind)
}

/// Declares the names that are new in their block, and not `_`, and returns the spots of values of the types `kinds` that are
/// assigned to the names.
///
/// Errors: out of memory.
pub fn define_names<'t, 'm, 'k, 'a>(
    context: &'t Context<'t, 'a>,
    layout: &'m mut Layout<'a>,
    names: &'a [Name],
    kinds: &'k [ValueType<'a>],
) -> Result<Vec<Spot>, AllocError>
    ensures spots { IfOk result (λ spots. map spot_in spots.items ≡ name_spots (globals_of context.now) (elements_of context.now) (layout_in context.now layout.old) (map name_of names.now) (map (kind_of (types_in context.now)) kinds.now)) }
    ensures after { OnOk result (layout_in context.now layout.new ≡ declaring_all (globals_of context.now) (elements_of context.now) (map name_of names.now) (map (kind_of (types_in context.now)) kinds.now) (layout_in context.now layout.old)) }
    ensures kept { OnOk result (Keeps layout.old.visible layout.new.visible) }
{
    let Some((name, names)) = names.split_first() else {
        return Ok(Vec::new(context.alloc));
    };
    let Some((kind, kinds)) = kinds.split_first() else {
        return Ok(Vec::new(context.alloc));
    };
    let spot = name_spot(context, layout, name, *kind)?;
    declare_new(context, layout, *kind, name)?;
    let mut spots = define_names(context, layout, names, kinds)?;
    spots.insert(0, spot)?;
    Ok(spots)
}

/// The type as which a name takes a value of this type.
fn name_type<'a>(
    table: &TypeTable<'a>,
    visible: &Visible<'a>,
    name: &Name,
    kind: ValueType<'a>,
) -> ValueType<'a>
    ensures { (elements : List Element) → kind_of (types_of table.now) result ≡ name_type (globals_in table.now) elements (kind_of (types_of table.now) kind.entry) (own_variable (scope_of table.now visible.now) (name_of name.now)) }
{
    match own_variable(table, visible, name.bytes.as_slice()) {
        Some(entry) => entry.kind,
        None => kind,
    }
}

/// The types that values of these types have once they are assigned to names.
///
/// Errors: out of memory.
pub fn name_types<'t, 'l, 'n, 'k, 'a>(
    context: &'t Context<'t, 'a>,
    layout: &'l Layout<'a>,
    names: &'n [Name],
    kinds: &'k [ValueType<'a>],
) -> Result<Vec<ValueType<'a>>, AllocError>
    ensures { IfOk result (λ taken. (elements : List Element) → map (kind_of (types_in context.now)) taken.items ≡ name_types (globals_of context.now) elements (layout_in context.now layout.now) (map name_of names.now) (map (kind_of (types_in context.now)) kinds.now)) }
{
    let Some((name, names)) = names.split_first() else {
        return Ok(Vec::new(context.alloc));
    };
    let Some((kind, kinds)) = kinds.split_first() else {
        return Ok(Vec::new(context.alloc));
    };
    let first = name_type(context.table, &layout.visible, name, *kind);
    let mut taken = name_types(context, layout, names, kinds)?;
    taken.insert(0, first)?;
    Ok(taken)
}
