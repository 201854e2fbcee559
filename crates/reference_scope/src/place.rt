//! Where values go.

ghost use Rattle.std.specs.Prelude.{◌≡◌, ◌≤◌, ℕ, List, IfOk, OnOk, length, map};
ghost use Rattle.word.specs.declared.limits.TheConstants.{MAX_WORDS};
ghost use Rattle.syntax.specs.View.{name_of, place_of};
ghost use Rattle.type_table.specs.Views.{kind_of};
ghost use Rattle.type_table.specs.Visible.{types_of, globals_in};
ghost use Rattle.meaning.specs.Destinations.{new, all_new, all_defined, place_slot, placed};
ghost use Rattle.meaning.specs.Values.{words_at};
ghost use Rattle.meaning.specs.Variables.{lookup, value_of, as_kind, holding, stored, all_stored};
ghost use Rattle.reference_scope.specs.Destinations.{declared, defined_in, destination_of, destinations_of};
ghost use Rattle.reference_scope.specs.Parts.{slot_of};
ghost use Rattle.reference_scope.specs.Scopes.{binding_of, blocks_of};
ghost use Rattle.reference_scope.specs.Parts.{values_of};

use crate::part::{Slot, slot_in, words_at};
use crate::scope::{Scope, Variable};
use crate::words::{with_first, words_like};
use std::alloc::{AllocError, Global};
use syntax::{Name, PlaceNode};
use type_table::scope::is_blank;
use type_table::table::TypeTable;
use type_table::value_type::ValueType;
use type_table::zero::zero;
use word::value::{Item, Word};

/// Where a value goes.
#[derive(Clone, Copy)]
pub enum Destination<'t> {
    Nowhere,
    /// A new variable of the innermost block.
    New(&'t [u8], ValueType<'t>),
    /// A variable, or a field of one.
    Into(&'t [u8], Slot<'t>),
}

/// Where the value of a declared name goes.
pub fn new<'t>(name: &'t [u8], kind: ValueType<'t>) -> Destination<'t>
    ensures { (types : List (List ℕ)) → destination_of types result ≡ declared name.now (kind_of types kind.entry) }
{
    if is_blank(name) {
        Destination::Nowhere
    } else {
        Destination::New(name, kind)
    }
}

/// Where the value of a name of a `:=` goes.
fn defined<'t>(scope: &Scope<'t>, name: &'t [u8], kind: ValueType<'t>) -> Destination<'t>
    ensures { (types : List (List ℕ)) → destination_of types result ≡ defined_in (blocks_of types scope.now) name.now (kind_of types kind.entry) }
{
    if is_blank(name) {
        return Destination::Nowhere;
    }
    match scope.own(name) {
        Some(variable) => Destination::Into(
            name,
            Slot {
                from: 0,
                kind: variable.kind,
            },
        ),
        None => Destination::New(name, kind),
    }
}

/// Where the values of names that are declared with these types go.
pub fn all_new<'a, 't>(
    alloc: Global,
    table: &'a TypeTable<'t>,
    scope: &'a Scope<'t>,
    names: &'t [Name],
    kinds: &'a [ValueType<'t>],
) -> Result<Vec<Destination<'t>>, AllocError>
    ensures { IfOk result (λ v. destinations_of (types_of table.now) v.items ≡ all_new (globals_in table.now) (blocks_of (types_of table.now) scope.now) (map name_of names.now) (map (kind_of (types_of table.now)) kinds.now)) }
{
    let Some((name, names)) = names.split_first() else {
        return Ok(Vec::new(alloc));
    };
    let Some((kind, kinds)) = kinds.split_first() else {
        return Ok(Vec::new(alloc));
    };
    let others = all_new(alloc, table, scope, names, kinds)?;
    with_first(new(name.bytes.as_slice(), *kind), others)
}

/// Where the values of names that are declared with this type go.
pub fn all_typed<'a, 't>(
    alloc: Global,
    table: &'a TypeTable<'t>,
    scope: &'a Scope<'t>,
    names: &'t [Name],
    kind: ValueType<'t>,
) -> Result<Vec<Destination<'t>>, AllocError>
    ensures { IfOk result (λ v. destinations_of (types_of table.now) v.items ≡ map (λ name. new (globals_in table.now) (blocks_of (types_of table.now) scope.now) name (kind_of (types_of table.now) kind.entry)) (map name_of names.now)) }
{
    let Some((name, rest)) = names.split_first() else {
        return Ok(Vec::new(alloc));
    };
    let others = all_typed(alloc, table, scope, rest, kind)?;
    with_first(new(name.bytes.as_slice(), kind), others)
}

/// Where the values of the names of a `:=` go.
pub fn all_defined<'a, 't>(
    alloc: Global,
    table: &'a TypeTable<'t>,
    scope: &'a Scope<'t>,
    names: &'t [Name],
    kinds: &'a [ValueType<'t>],
) -> Result<Vec<Destination<'t>>, AllocError>
    ensures { IfOk result (λ v. destinations_of (types_of table.now) v.items ≡ all_defined (globals_in table.now) (blocks_of (types_of table.now) scope.now) (map name_of names.now) (map (kind_of (types_of table.now)) kinds.now)) }
{
    let Some((name, names)) = names.split_first() else {
        return Ok(Vec::new(alloc));
    };
    let Some((kind, kinds)) = kinds.split_first() else {
        return Ok(Vec::new(alloc));
    };
    let others = all_defined(alloc, table, scope, names, kinds)?;
    with_first(defined(scope, name.bytes.as_slice(), *kind), others)
}

/// The part of a variable that an lvalue is.
fn place_slot<'t>(table: &TypeTable<'t>, scope: &Scope<'t>, place: &PlaceNode) -> Slot<'t>
    ensures { slot_of (types_of table.now) result ≡ place_slot (globals_in table.now) (blocks_of (types_of table.now) scope.now) (place_of place.now) }
{
    let kind = match scope.lookup(place.name.bytes.as_slice()) {
        Some(variable) => variable.kind,
        None => ValueType::Int,
    };
    slot_in(table, kind, place.fields.as_slice())
}

/// Where the value assigned to an lvalue goes.
pub fn placed<'t>(table: &TypeTable<'t>, scope: &Scope<'t>, place: &'t PlaceNode) -> Destination<'t>
    ensures { destination_of (types_of table.now) result ≡ placed (globals_in table.now) (blocks_of (types_of table.now) scope.now) (place_of place.now) }
{
    let name = place.name.bytes.as_slice();
    if is_blank(name) {
        Destination::Nowhere
    } else {
        Destination::Into(name, place_slot(table, scope, place))
    }
}

/// Where the values assigned to lvalues go.
pub fn all_placed<'a, 't>(
    alloc: Global,
    table: &'a TypeTable<'t>,
    scope: &'a Scope<'t>,
    places: &'t [PlaceNode],
) -> Result<Vec<Destination<'t>>, AllocError>
    ensures { IfOk result (λ v. destinations_of (types_of table.now) v.items ≡ map (placed (globals_in table.now) (blocks_of (types_of table.now) scope.now)) (map place_of places.now)) }
{
    let Some((first, rest)) = places.split_first() else {
        return Ok(Vec::new(alloc));
    };
    let others = all_placed(alloc, table, scope, rest)?;
    with_first(placed(table, scope, first), others)
}

/// The value of an lvalue.
pub fn value_at(
    alloc: Global,
    table: &TypeTable<'_>,
    scope: &Scope<'_>,
    place: &PlaceNode,
) -> Result<Vec<Word>, AllocError>
    ensures { IfOk result (λ v. v.items ≡ words_at (globals_in table.now).structs (place_slot (globals_in table.now) (blocks_of (types_of table.now) scope.now) (place_of place.now)) (value_of (lookup (blocks_of (types_of table.now) scope.now) (name_of place.now.name)))) }
{
    let part = place_slot(table, scope, place);
    match scope.lookup(place.name.bytes.as_slice()) {
        Some(variable) => words_at(alloc, table, part, variable.words.as_slice()),
        None => words_at(alloc, table, part, &[]),
    }
}

/// A value of a type.
fn as_kind(
    alloc: Global,
    table: &TypeTable<'_>,
    kind: ValueType<'_>,
    words: &[Word],
) -> Result<Vec<Word>, AllocError>
    ensures words { IfOk result (λ v. v.items ≡ as_kind (globals_in table.now).structs (kind_of (types_of table.now) kind.entry) words.now) }
    ensures short { IfOk result (λ v. length v.items ≤ MAX_WORDS) }
{
    let zeros = zero(alloc, table, kind);
    words_like(alloc, zeros.words(), words)
}

/// What is sent on a channel of a type.
pub fn item_of(
    alloc: Global,
    table: &TypeTable<'_>,
    kind: ValueType<'_>,
    words: &[Word],
) -> Result<Item, AllocError>
    ensures { IfOk result (λ item. item ≡ as_kind (globals_in table.now).structs (kind_of (types_of table.now) kind.entry) words.now) }
{
    let words = as_kind(alloc, table, kind, words)?;
    Ok(Item::new(alloc, words.as_slice()))
}

/// A variable of a type with this value.
pub fn holding<'t>(
    alloc: Global,
    table: &TypeTable<'t>,
    name: &'t [u8],
    kind: ValueType<'t>,
    words: &[Word],
) -> Result<Variable<'t>, AllocError>
    ensures { IfOk result (λ v. binding_of (types_of table.now) v ≡ holding (globals_in table.now).structs name.now (kind_of (types_of table.now) kind.entry) words.now) }
{
    let words = as_kind(alloc, table, kind, words)?;
    Ok(Variable { name, kind, words })
}

/// A value is stored.
fn store_one<'t>(
    alloc: Global,
    table: &TypeTable<'t>,
    scope: &mut Scope<'t>,
    destination: Destination<'t>,
    words: &[Word],
) -> Result<(), AllocError>
    ensures { OnOk result (blocks_of (types_of table.now) scope.new ≡ stored (globals_in table.now).structs (destination_of (types_of table.now) destination.entry) words.now (blocks_of (types_of table.now) scope.old)) }
{
    match destination {
        Destination::Nowhere => Ok(()),
        Destination::New(name, kind) => {
            let variable = holding(alloc, table, name, kind, words)?;
            scope.declare(alloc, variable)
        }
        Destination::Into(name, part) => {
            let words = as_kind(alloc, table, part.kind, words)?;
            scope.assign(alloc, name, part.from, words.as_slice())
        }
    }
}

/// Values are stored from left to right.
pub fn store<'a, 's, 't>(
    alloc: Global,
    table: &'a TypeTable<'t>,
    scope: &'s mut Scope<'t>,
    destinations: &'a [Destination<'t>],
    values: &'a [Vec<Word>],
) -> Result<(), AllocError>
    ensures { OnOk result (blocks_of (types_of table.now) scope.new ≡ all_stored (globals_in table.now).structs (destinations_of (types_of table.now) destinations.now) (values_of values.now) (blocks_of (types_of table.now) scope.old)) }
{
    let Some((first, destinations)) = destinations.split_first() else {
        return Ok(());
    };
    let Some((words, values)) = values.split_first() else {
        return Ok(());
    };
    store_one(alloc, table, scope, *first, words.as_slice())?;
    store(alloc, table, scope, destinations, values)
}
