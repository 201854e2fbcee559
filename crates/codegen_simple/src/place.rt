//! The spots of lvalues ("Assignment statements" of the Go specification).

ghost use Rattle.std.specs.Prelude.{◌≡◌, ◌∷◌, [], IfErr, IfOk, List, Option, Some, map, option_map};
ghost use Rattle.syntax.specs.View.{name_of, place_of};
ghost use Rattle.type_table.specs.Containment.{Selected as OneSelected};
ghost use Rattle.type_table.specs.Views.{kind_of};
ghost use Rattle.type_table.specs.Visible.{globals_in, scope_of, selected_of, types_of};
ghost use Rattle.typing_rules.specs.Operations.{followed, place_type, selected};
ghost use Rattle.type_table.specs.Scopes.{Scope};
ghost use Rattle.meaning.specs.Values.{known};
ghost use Rattle.codegen_base.specs.declared.element.Element.{Element};
ghost use Rattle.codegen_base.specs.Statements.{place_spot, place_spots, spot_of, taken_type, taken_types};
ghost use Rattle.codegen_expression.specs.Contexts.{elements_of, globals_of, scope_in, types_in};
ghost use Rattle.codegen_simple.specs.Spots.{IsFar, capped, spot_in};

use crate::spot::Spot;
use codegen_expression::context::Context;
use codegen_expression::operand::{number, words_of};
use std::alloc::AllocError;
use syntax::{Name, PlaceNode};
use type_table::layout::{Selected, field_of};
use type_table::scope::{Visible, is_blank, variable_named};
use type_table::table::TypeTable;
use type_table::value_type::ValueType;

/// The field of this name in a part of the frame.
fn step<'a>(table: &TypeTable<'a>, at: Selected<'a>, field: &Name) -> Option<Selected<'a>>
    ensures { (whole : OneSelected) → selected_of (types_of table.now) at.entry ≡ capped whole → option_map (selected_of (types_of table.now)) result ≡ option_map capped (followed (globals_in table.now).structs (Some whole) (name_of field.now ∷ [])) }
{
    match field_of(table, at.kind, field.bytes.as_slice()) {
        Some(part) => Some(Selected {
            place: at.place.saturating_add(part.place),
            kind: part.kind,
        }),
        None => None,
    }
}

/// Where a path of fields leads from a part of the frame.
fn follow<'a>(
    table: &TypeTable<'a>,
    at: Option<Selected<'a>>,
    fields: &[Name],
) -> Option<Selected<'a>>
    ensures { (whole : Option OneSelected) → option_map (selected_of (types_of table.now)) at.entry ≡ option_map capped whole → option_map (selected_of (types_of table.now)) result ≡ option_map capped (followed (globals_in table.now).structs whole (map name_of fields.now)) }
{
    let Some((field, fields)) = fields.split_first() else {
        return at;
    };
    match at {
        Some(at) => follow(table, step(table, at, field), fields),
        None => None,
    }
}

/// The part of the frame that an lvalue denotes. Its first word is 2^64 - 1 if it would be larger.
fn selected<'a>(
    table: &TypeTable<'a>,
    visible: &Visible<'a>,
    place: &PlaceNode,
) -> Option<Selected<'a>>
    ensures { option_map (selected_of (types_of table.now)) result ≡ option_map capped (selected (globals_in table.now) (scope_of table.now visible.now) (place_of place.now)) }
{
    let Some(entry) = variable_named(table, visible, place.name.bytes.as_slice()) else {
        return None;
    };
    prove!(entry.place <= usize::MAX);
    let at = Selected {
        place: entry.place,
        kind: entry.kind,
    };
    follow(table, Some(at), place.fields.as_slice())
}

/// The locals of a part of the frame; if there is none, nothing is stored.
///
/// Errors: it begins at 2^32 or later, which counts as out of memory.
fn spot_of<'k>(context: &Context<'_, 'k>, part: Option<Selected<'k>>) -> Result<Spot, AllocError>
    ensures spot { (whole : Option OneSelected) → option_map (selected_of (types_in context.now)) part.entry ≡ option_map capped whole → IfOk result (λ spot. (scope : Scope) → spot_in spot ≡ spot_of (globals_of context.now) (elements_of context.now) scope whole) }
    ensures far { (whole : Option OneSelected) → option_map (selected_of (types_in context.now)) part.entry ≡ option_map capped whole → IfErr result (λ _. IsFar whole) }
{
    match part {
        Some(part) => {
            let place = number(part.place)?;
            Ok(Spot::Local(place, words_of(context, part.kind)))
        }
        None => Ok(Spot::Dropped(0)),
    }
}

/// The locals of the part of the frame that an lvalue denotes.
///
/// Errors: it begins at 2^32 or later, which counts as out of memory.
pub fn spot_at<'k>(
    context: &Context<'_, 'k>,
    visible: &Visible<'k>,
    place: &PlaceNode,
) -> Result<Spot, AllocError>
    ensures spot { IfOk result (λ spot. spot_in spot ≡ spot_of (globals_of context.now) (elements_of context.now) (scope_in context.now visible.now) (selected (globals_of context.now) (scope_in context.now visible.now) (place_of place.now))) }
    ensures far { IfErr result (λ _. IsFar (selected (globals_of context.now) (scope_in context.now visible.now) (place_of place.now))) }
{
    spot_of(context, selected(context.table, visible, place))
}

/// The type of an lvalue; int if it denotes no part of the frame.
pub fn place_kind<'a>(
    table: &TypeTable<'a>,
    visible: &Visible<'a>,
    place: &PlaceNode,
) -> ValueType<'a>
    ensures { kind_of (types_of table.now) result ≡ known (place_type (globals_in table.now) (scope_of table.now visible.now) (place_of place.now)) }
{
    match selected(table, visible, place) {
        Some(part) => part.kind,
        None => ValueType::Int,
    }
}

/// The spot of a value of type `kind` that is assigned to an lvalue.
///
/// Errors: the lvalue begins at 2^32 or later, which counts as out of memory.
pub fn place_spot<'a>(
    context: &Context<'_, 'a>,
    visible: &Visible<'a>,
    place: &PlaceNode,
    kind: ValueType<'a>,
) -> Result<Spot, AllocError>
    ensures spot { IfOk result (λ spot. spot_in spot ≡ place_spot (globals_of context.now) (elements_of context.now) (scope_in context.now visible.now) (place_of place.now) (kind_of (types_in context.now) kind.entry)) }
    ensures far { IfErr result (λ _. IsFar (selected (globals_of context.now) (scope_in context.now visible.now) (place_of place.now))) }
{
    if is_blank(place.name.bytes.as_slice()) {
        return Ok(Spot::Dropped(words_of(context, kind)));
    }
    spot_at(context, visible, place)
}

/// The spots of values of these types that are assigned to lvalues.
pub fn place_spots<'t, 'v, 'p, 'k, 'a>(
    context: &'t Context<'t, 'a>,
    visible: &'v Visible<'a>,
    places: &'p [PlaceNode],
    kinds: &'k [ValueType<'a>],
) -> Result<Vec<Spot>, AllocError>
    ensures { IfOk result (λ spots. map spot_in spots.items ≡ place_spots (globals_of context.now) (elements_of context.now) (scope_in context.now visible.now) (map place_of places.now) (map (kind_of (types_in context.now)) kinds.now)) }
{
    let Some((place, places)) = places.split_first() else {
        return Ok(Vec::new(context.alloc));
    };
    let Some((kind, kinds)) = kinds.split_first() else {
        return Ok(Vec::new(context.alloc));
    };
    let spot = place_spot(context, visible, place, *kind)?;
    let mut spots = place_spots(context, visible, places, kinds)?;
    spots.insert(0, spot)?;
    Ok(spots)
}

/// The type that a value of type `kind` has once it is assigned to an lvalue.
fn taken_type<'a>(
    table: &TypeTable<'a>,
    visible: &Visible<'a>,
    place: &PlaceNode,
    kind: ValueType<'a>,
) -> ValueType<'a>
    ensures { (elements : List Element) → taken_type (globals_in table.now) elements (scope_of table.now visible.now) (place_of place.now) (kind_of (types_of table.now) kind.entry) ≡ kind_of (types_of table.now) result }
{
    if is_blank(place.name.bytes.as_slice()) {
        return kind;
    }
    place_kind(table, visible, place)
}

/// The types that values of these types have once they are assigned to lvalues.
pub fn taken_types<'t, 'v, 'p, 'k, 'a>(
    context: &'t Context<'t, 'a>,
    visible: &'v Visible<'a>,
    places: &'p [PlaceNode],
    kinds: &'k [ValueType<'a>],
) -> Result<Vec<ValueType<'a>>, AllocError>
    ensures { IfOk result (λ taken. (elements : List Element) → map (kind_of (types_in context.now)) taken.items ≡ taken_types (globals_of context.now) elements (scope_in context.now visible.now) (map place_of places.now) (map (kind_of (types_in context.now)) kinds.now)) }
{
    let Some((place, places)) = places.split_first() else {
        return Ok(Vec::new(context.alloc));
    };
    let Some((kind, kinds)) = kinds.split_first() else {
        return Ok(Vec::new(context.alloc));
    };
    let first = taken_type(context.table, visible, place, *kind);
    let mut taken = taken_types(context, visible, places, kinds)?;
    taken.insert(0, first)?;
    Ok(taken)
}
