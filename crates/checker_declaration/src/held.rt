//! Which struct types contain themselves.

ghost use Rattle.std.specs.Prelude.{◌≡◌, ℕ, ◌⊎◌, ◌++◌, [], ◌∷◌, Some, true, List, option_copied, option_map, slice_get, length, IfSome, OnOk, IfOk};
ghost use Rattle.type_table.specs.Types.{StructType};
ghost use Rattle.type_table.specs.Views.{kind_of};
ghost use Rattle.type_table.specs.Containment.{HasStruct, Holds, fields_of};
ghost use Rattle.checker_declaration.specs.Parts.{fields_in, structs_in};

use crate::parts::{Part, Parts, parts_at};
use crate::search::search_all;
use std::alloc::{AllocError, Global};
use type_table::value_type::ValueType;

/// Notes that a struct type was found, if that is new.
fn note(found: &mut Vec<usize>, seen: &mut [bool], number: usize) -> Result<(), AllocError>
    ensures { OnOk result ((found.new.items ≡ found.old.items) ⊎ (found.new.items ≡ found.old.items ++ number ∷ [])) }
{
    match seen.get(number) {
        Some(false) => {
            seen[number] = true;
            found.push(number)?;
            Ok(())
        }
        _ => Ok(()),
    }
}

/// Notes the struct type of a field, if it is of one.
fn note_kind(
    found: &mut Vec<usize>,
    seen: &mut [bool],
    kind: Option<ValueType<'_>>,
) -> Result<(), AllocError>
    ensures { OnOk result ((types : List (List ℕ)) (j t : ℕ) → slice_get found.new.items j ≡ Some t → (slice_get found.old.items j ≡ Some t) ⊎ (option_map (kind_of types) kind.entry ≡ Some (StructType t))) }
{
    match kind {
        Some(ValueType::Struct(number)) => note(found, seen, number),
        _ => Ok(()),
    }
}

/// Notes the struct types of fields.
fn note_fields(
    found: &mut Vec<usize>,
    seen: &mut [bool],
    fields: &[Part<'_>],
) -> Result<(), AllocError>
    ensures { OnOk result ((types : List (List ℕ)) (j t : ℕ) → slice_get found.new.items j ≡ Some t → (slice_get found.old.items j ≡ Some t) ⊎ HasStruct (fields_in types fields.now) t) }
{
    for part in fields {
        note_kind(found, seen, part.kind)?;
    }
    Ok(())
}

/// The struct type at index `place` of those that were found.
pub(crate) fn found_at(found: &[usize], place: usize) -> Option<usize>
    ensures { result ≡ slice_get found.now place }
{
    match found.get(place) {
        Some(number) => Some(*number),
        None => None,
    }
}

/// Notes the struct types of the fields of the struct type with this number.
fn note_struct(
    found: &mut Vec<usize>,
    seen: &mut [bool],
    all: &[Parts<'_>],
    number: usize,
) -> Result<(), AllocError>
    ensures { OnOk result ((types : List (List ℕ)) (j t : ℕ) → slice_get found.new.items j ≡ Some t → (slice_get found.old.items j ≡ Some t) ⊎ HasStruct (fields_of (structs_in types all.now) number) t) }
{
    match parts_at(all, number) {
        Some(parts) => note_fields(found, seen, parts.fields.as_slice()),
        None => Ok(()),
    }
}

/// `count` times `false`.
fn unseen(alloc: Global, count: usize) -> Result<Vec<bool>, AllocError>
    ensures { IfOk result (λ seen. length seen.items ≡ count) }
{
    Vec::from_elem(alloc, false, count)
}

/// Whether a struct type is found within itself, by a search through what lies in its fields.
fn contains_itself(alloc: Global, all: &[Parts<'_>], number: usize) -> Result<bool, AllocError>
    ensures { IfOk result (λ held. held ≡ true → (types : List (List ℕ)) → Holds (structs_in types all.now) number number) }
{
    let mut seen = unseen(alloc, all.len())?;
    let mut found = Vec::new(alloc);
    let mut next = number;
    for at in 0..all.len() {
        note_struct(&mut found, seen.as_mut_slice(), all, next)?;
        match found_at(found.as_slice(), at) {
            None => return Ok(false),
            Some(inner) => next = inner,
        }
        if next == number {
            return Ok(true);
        }
    }
    Ok(false)
}

/// The first of the struct types that lies within itself.
pub(crate) fn first_held(alloc: Global, all: &[Parts<'_>]) -> Result<Option<usize>, AllocError>
    ensures { IfOk result (λ first. IfSome first (λ number. (types : List (List ℕ)) → Holds (structs_in types all.now) number number)) }
{
    let found = search_all(alloc, all)?;
    match found.held {
        Some(number) if contains_itself(alloc, all, number)? => Ok(Some(number)),
        _ => Ok(None),
    }
}
