//! What is assigned to ("Assignment statements" of the Go specification).

ghost use Rattle.std.specs.Prelude.{◌≡◌, ℕ, ◌+◌, ◌^◌, ◌<◌, List, Some, None, length, map, option_map, IfOk, IfErr, OnErr};
ghost use Rattle.std.specs.Option.{is_none};
ghost use Rattle.syntax.specs.View.{name_of, place_of};
ghost use Rattle.typing_rules.specs.declared.violation.Violation.{Violation as OneViolation};
ghost use Rattle.type_table.specs.Scopes.{is_blank};
ghost use Rattle.typing_rules.specs.Operations.{place_type, PathHas, PlaceHas, ReadPlaceHas, PlacesHave, PlacesFail, GoesHas};
ghost use Rattle.type_table.specs.Views.{kind_of};
ghost use Rattle.type_table.specs.Visible.{types_of, globals_in, scope_of};
ghost use Rattle.checker_simple.specs.Givens.{given_of, places_at, places_in};
ghost use Rattle.checker_simple.specs.Paths.{path_type};

use crate::given::{fits, fits_any};
use checker_base::operand::Operand;
use go_text::Rule;
use std::alloc::{AllocError, Global};
use syntax::{Name, NodeId, PlaceNode};
use type_table::layout::field_of;
use type_table::scope::{Visible, is_blank, variable_named};
use type_table::table::TypeTable;
use type_table::value_type::ValueType;
use typing_rules::violation::Violation;

/// The type of the field to which a path leads from a value of a type; the lvalue's node is `node`.
#[tactic(auto, using(crate::proofs::Paths::path_types))]
fn path<'a>(
    table: &TypeTable<'a>,
    kind: ValueType<'a>,
    fields: &[Name],
    node: NodeId,
) -> Result<ValueType<'a>, Violation>
    ensures kind { IfOk result (λ k. path_type (globals_in table.now).structs (Some (kind_of (types_of table.now) kind.entry)) (map name_of fields.now) ≡ Some (kind_of (types_of table.now) k)) }
    ensures lost { OnErr result (path_type (globals_in table.now).structs (Some (kind_of (types_of table.now) kind.entry)) (map name_of fields.now) ≡ None) }
    ensures none { IfOk result (λ _. (end : ℕ) → end ≡ node + 1 → (violation : OneViolation) → ¬ (PathHas (globals_in table.now).structs (Some (kind_of (types_of table.now) kind.entry)) (map name_of fields.now) end violation)) }
    ensures one { IfErr result (λ violation. (end : ℕ) → end ≡ node + 1 → PathHas (globals_in table.now).structs (Some (kind_of (types_of table.now) kind.entry)) (map name_of fields.now) end violation) }
{
    let Some((field, rest)) = fields.split_first() else {
        return Ok(kind);
    };
    match field_of(table, kind, field.bytes.as_slice()) {
        None => Err(Violation::Broken(Rule::Assigned, node)),
        Some(selected) => path(table, selected.kind, rest, node),
    }
}

/// Checks an lvalue, which is the node `first`, and returns its type; `_` has none.
#[tactic(auto, using(crate::proofs::Paths::path_types))]
pub fn place<'a>(
    table: &TypeTable<'a>,
    visible: &Visible<'a>,
    first: NodeId,
    place: &PlaceNode,
) -> Result<Option<ValueType<'a>>, Violation>
    ensures kind { IfOk result (λ kind. place_type (globals_in table.now) (scope_of table.now visible.now) (place_of place.now) ≡ option_map (kind_of (types_of table.now)) kind) }
    ensures blank { IfOk result (λ kind. is_none kind ≡ is_blank (name_of place.now.name)) }
    ensures lost { OnErr result (place_type (globals_in table.now) (scope_of table.now visible.now) (place_of place.now) ≡ None) }
    ensures none { IfOk result (λ _. (violation : OneViolation) → ¬ (PlaceHas (globals_in table.now) (scope_of table.now visible.now) first (place_of place.now) violation)) }
    ensures one { IfErr result (PlaceHas (globals_in table.now) (scope_of table.now visible.now) first (place_of place.now)) }
{
    let name = place.name.bytes.as_slice();
    let fields = place.fields.as_slice();
    if is_blank(name) {
        return if fields.is_empty() {
            Ok(None)
        } else {
            Err(Violation::Broken(Rule::Assigned, first))
        };
    }
    match variable_named(table, visible, name) {
        None => Err(Violation::Broken(Rule::Visible, first)),
        Some(entry) => {
            let kind = path(table, entry.kind, fields, first)?;
            Ok(Some(kind))
        }
    }
}

/// Checks an lvalue that is read too, which is the node `first`, and returns its type.
#[tactic(auto, using(crate::proofs::Paths::path_types))]
pub fn read_place<'a>(
    table: &TypeTable<'a>,
    visible: &Visible<'a>,
    first: NodeId,
    node: &PlaceNode,
) -> Result<ValueType<'a>, Violation>
    ensures kind { IfOk result (λ kind. place_type (globals_in table.now) (scope_of table.now visible.now) (place_of node.now) ≡ Some (kind_of (types_of table.now) kind)) }
    ensures none { IfOk result (λ _. (violation : OneViolation) → ¬ (ReadPlaceHas (globals_in table.now) (scope_of table.now visible.now) first (place_of node.now) violation)) }
    ensures one { IfErr result (ReadPlaceHas (globals_in table.now) (scope_of table.now visible.now) first (place_of node.now)) }
{
    match place(table, visible, first, node)? {
        Some(kind) => Ok(kind),
        None => Err(Violation::Broken(Rule::Assigned, first)),
    }
}

/// The lvalues to which a statement assigns.
#[derive(Clone, Copy)]
pub enum Targets<'a> {
    All(&'a [PlaceNode]),
    OneOrTwo(&'a PlaceNode, &'a Option<PlaceNode>),
}

/// The lvalues in order, by reference.
pub fn references<'a>(alloc: Global, places: Targets<'a>) -> Result<Vec<&'a PlaceNode>, AllocError>
    ensures { IfOk result (λ all. places_at all.items ≡ places_in places.entry) }
{
    let mut all = Vec::new(alloc);
    match places {
        Targets::All(places) => {
            for place in places {
                all.push(place)?;
            }
        }
        Targets::OneOrTwo(one, other) => {
            all.push(one)?;
            if let Some(other) = other {
                all.push(other)?;
            }
        }
    }
    Ok(all)
}

/// Checks lvalues, the first of which is the node `first`, and returns the number after them.
pub fn places<'a>(
    table: &TypeTable<'a>,
    visible: &Visible<'a>,
    first: NodeId,
    all: &[&PlaceNode],
) -> Result<NodeId, Violation>
    requires small { first + length (places_at all.now) < 2 ^ 32 }
    ensures end { IfOk result (λ end. end ≡ first + length (places_at all.now)) }
    ensures none { IfOk result (λ _. (violation : OneViolation) → ¬ (PlacesHave (globals_in table.now) (scope_of table.now visible.now) first (places_at all.now) violation)) }
    ensures one { IfErr result (PlacesHave (globals_in table.now) (scope_of table.now visible.now) first (places_at all.now)) }
{
    let Some((one, rest)) = all.split_first() else {
        return Ok(first);
    };
    place(table, visible, first, one)?;
    places(table, visible, first + 1, rest)
}

/// The type of an lvalue, if it is known.
fn place_type<'a>(
    table: &TypeTable<'a>,
    visible: &Visible<'a>,
    node: &PlaceNode,
) -> Option<ValueType<'a>>
    ensures { option_map (kind_of (types_of table.now)) result ≡ place_type (globals_in table.now) (scope_of table.now visible.now) (place_of node.now) }
{
    match place(table, visible, 0, node) {
        Ok(kind) => kind,
        Err(_) => None,
    }
}

/// Checks that a value is assignable to an lvalue.
pub fn place_takes<'a>(
    table: &TypeTable<'a>,
    visible: &Visible<'a>,
    node: &PlaceNode,
    operand: Operand<'a>,
) -> Result<(), Violation>
    ensures none { IfOk result (λ _. (violation : OneViolation) → ¬ (GoesHas (is_blank (place_of node.now).name) (given_of (types_of table.now) operand.entry) (place_type (globals_in table.now) (scope_of table.now visible.now) (place_of node.now)) violation)) }
    ensures one { IfErr result (GoesHas (is_blank (place_of node.now).name) (given_of (types_of table.now) operand.entry) (place_type (globals_in table.now) (scope_of table.now visible.now) (place_of node.now))) }
{
    if is_blank(node.name.bytes.as_slice()) {
        fits_any(operand)?;
        Ok(())
    } else {
        let kind = place_type(table, visible, node);
        fits(table, kind, operand)
    }
}

/// Checks that values are assignable to lvalues.
pub fn places_take<'a>(
    table: &TypeTable<'a>,
    visible: &Visible<'a>,
    places: &[&PlaceNode],
    values: &[Operand<'a>],
) -> Result<(), Violation>
    ensures none { IfOk result (λ _. (violation : OneViolation) → ¬ (PlacesFail (globals_in table.now) (scope_of table.now visible.now) (places_at places.now) (map (given_of (types_of table.now)) values.now) violation)) }
    ensures one { IfErr result (PlacesFail (globals_in table.now) (scope_of table.now visible.now) (places_at places.now) (map (given_of (types_of table.now)) values.now)) }
{
    let Some((place, rest)) = places.split_first() else {
        return Ok(());
    };
    let Some((operand, others)) = values.split_first() else {
        return Ok(());
    };
    place_takes(table, visible, place, *operand)?;
    places_take(table, visible, rest, others)
}
