//! The widths of struct types, even if something is wrong with others.

ghost use Rattle.std.specs.Prelude.{◌≡◌, ℕ, suc, ◌+◌, ◌<◌, ◌≤◌, min, Some, List, Option, option_map, slice_get, length, IfSome, IfOk};
ghost use Rattle.type_table.specs.Containment.{Structs};
ghost use Rattle.type_table.specs.Views.{kind_of};
ghost use Rattle.type_table.specs.Marks.{AreWide};
ghost use Rattle.checker_declaration.specs.Parts.{fields_in, structs_in, IsKindWide, AreKnown, IsTooWide};

use crate::held::found_at;
use crate::parts::{Part, Parts, parts_at};
use crate::search::search_all;
use std::alloc::{AllocError, Global};
use type_table::value_type::ValueType;

/// How many words a value may take.
const MOST_WORDS: usize = 16;

/// The words of both together; 17 if they are more.
fn together(one: usize, other: usize) -> usize
    ensures { (m n : ℕ) → one ≡ min m 17 → other ≡ min n 17 → result ≡ min (m + n) 17 }
{
    let words = one.saturating_add(other);
    if words > MOST_WORDS { 17 } else { words }
}

/// The words of the struct type with this number, if they are known.
fn known_at(known: &[Option<usize>], number: usize) -> Option<usize>
    ensures { IfSome result (λ w. slice_get known.now number ≡ Some (Some w)) }
{
    match known.get(number) {
        Some(words) => *words,
        None => None,
    }
}

/// The words of a field of this type, if they are known.
fn kind_words(known: &[Option<usize>], kind: Option<ValueType<'_>>) -> Option<usize>
    ensures { IfSome result (λ w. (types : List (List ℕ)) (structs : Structs) (depth : ℕ) → AreKnown structs depth known.now → IsKindWide structs depth (option_map (kind_of types) kind.entry) w) }
{
    match kind {
        None => None,
        Some(ValueType::Struct(number)) => known_at(known, number),
        Some(_) => Some(1),
    }
}

/// The words of fields, if they are known.
fn fields_words(known: &[Option<usize>], fields: &[Part<'_>]) -> Option<usize>
    ensures { IfSome result (λ w. (types : List (List ℕ)) (structs : Structs) (depth : ℕ) → AreKnown structs depth known.now → AreWide structs depth (fields_in types fields.now) w) }
{
    let Some((one, rest)) = fields.split_first() else {
        return Some(0);
    };
    match kind_words(known, one.kind) {
        None => None,
        Some(first) => match fields_words(known, rest) {
            None => None,
            Some(others) => Some(together(first, others)),
        },
    }
}

/// `count` widths, of which none is known.
fn unknown(alloc: Global, count: usize) -> Result<Vec<Option<usize>>, AllocError>
    ensures { IfOk result (λ known. (s w : ℕ) → slice_get known.items s ≡ Some (Some w) → ⊥) }
{
    let mut known = Vec::new(alloc);
    for number in 0..count {
        let _number = number;
        known.push(None)?;
    }
    Ok(known)
}

/// Writes the words of struct type `number`, if the words of its fields are known.
fn note_words(all: &[Parts<'_>], known: &mut Vec<Option<usize>>, number: usize)
    ensures { (types : List (List ℕ)) (depth : ℕ) → AreKnown (structs_in types all.now) depth known.old.items → AreKnown (structs_in types all.now) (suc depth) known.new.items }
{
    if let Some(parts) = parts_at(all, number) {
        let words = fields_words(known.as_slice(), parts.fields.as_slice());
        if number < known.len() {
            known[number] = words;
        }
    }
}

/// The widths of struct types, as far as they are known: all but those of types that contain themselves, or have a field
/// whose type is not known.
fn known_words(alloc: Global, all: &[Parts<'_>]) -> Result<Vec<Option<usize>>, AllocError>
    ensures { IfOk result (λ known. (types : List (List ℕ)) → AreKnown (structs_in types all.now) (suc (length all.now)) known.items) }
{
    let found = search_all(alloc, all)?;
    let mut known = unknown(alloc, all.len())?;
    for place in 0..all.len() {
        let Some(number) = found_at(found.order.as_slice(), place) else {
            return Ok(known);
        };
        note_words(all, &mut known, number);
    }
    Ok(known)
}

/// The first of the struct types that is known to be too wide.
pub(crate) fn first_too_wide(alloc: Global, all: &[Parts<'_>]) -> Result<Option<usize>, AllocError>
    ensures { IfOk result (λ first. IfSome first (λ number. (types : List (List ℕ)) → IsTooWide (structs_in types all.now) number)) }
{
    let known = known_words(alloc, all)?;
    for number in 0..all.len() {
        if let Some(words) = known_at(known.as_slice(), number) {
            if words > MOST_WORDS {
                return Ok(Some(number));
            }
        }
    }
    Ok(None)
}
