//! Parts of values: the words of fields.

ghost use Rattle.std.specs.Prelude.{◌≡◌, ◌+◌, ◌≤◌, Some, IfOk, IfSome, IfNone, option_map, map};
ghost use Rattle.syntax.specs.View.{name_of};
ghost use Rattle.type_table.specs.Containment.{variable_words, field_of};
ghost use Rattle.type_table.specs.Types.{IntType};
ghost use Rattle.type_table.specs.Views.{kind_of};
ghost use Rattle.type_table.specs.Visible.{types_of, globals_in, selected_of};
ghost use Rattle.meaning.specs.Values.{slot, field_slot, slot_along, words_in, words_at};
ghost use Rattle.reference_scope.specs.Parts.{slot_of};

use std::alloc::{AllocError, Global};
use syntax::Name;
use type_table::layout::{Selected, field_of, words_of};
use type_table::table::TypeTable;
use type_table::value_type::ValueType;
use word::value::Word;

/// A part of a value: its first word, and its type.
#[derive(Clone, Copy)]
pub struct Slot<'t> {
    pub from: usize,
    pub kind: ValueType<'t>,
}

/// How many words the values of a type take: at most 16.
pub fn words_in(table: &TypeTable<'_>, kind: ValueType<'_>) -> usize
    ensures { result ≡ words_in (globals_in table.now).structs (kind_of (types_of table.now) kind.entry) }
{
    words_of(table, kind)
}

/// The field of this name in a value of this type, within which it lies.
fn field_within<'t>(table: &TypeTable<'t>, kind: ValueType<'_>, name: &[u8]) -> Option<Selected<'t>>
    ensures field { option_map (selected_of (types_of table.now)) result ≡ field_of (globals_in table.now).structs (kind_of (types_of table.now) kind.entry) name.now }
    ensures within { IfSome result (λ field. field.place + variable_words (globals_in table.now).structs (Some (kind_of (types_of table.now) field.kind)) ≤ variable_words (globals_in table.now).structs (Some (kind_of (types_of table.now) kind.entry))) }
{
    field_of(table, kind, name)
}

/// The field of this name in a part, if it is there.
fn field_slot<'t>(table: &TypeTable<'t>, part: Slot<'_>, name: &[u8]) -> Option<Slot<'t>>
    requires { part.from + variable_words (globals_in table.now).structs (Some (kind_of (types_of table.now) part.kind)) ≤ 16 }
    ensures some { IfSome result (λ field. field_slot (globals_in table.now).structs (slot_of (types_of table.now) part.entry) name.now ≡ slot_of (types_of table.now) field) }
    ensures within { IfSome result (λ field. field.from + variable_words (globals_in table.now).structs (Some (kind_of (types_of table.now) field.kind)) ≤ 16) }
    ensures none { IfNone result (field_slot (globals_in table.now).structs (slot_of (types_of table.now) part.entry) name.now ≡ slot part.entry.from IntType) }
{
    match field_within(table, part.kind, name) {
        Some(field) => Some(Slot {
            from: part.from + field.place,
            kind: field.kind,
        }),
        None => None,
    }
}

/// The field at the end of a path of names in a part.
#[tactic(auto, using(crate::proofs::Parts::lost_slot))]
fn slot_along<'a, 't>(table: &'a TypeTable<'t>, part: Slot<'t>, path: &'a [Name]) -> Slot<'t>
    requires { part.from + variable_words (globals_in table.now).structs (Some (kind_of (types_of table.now) part.kind)) ≤ 16 }
    ensures { slot_of (types_of table.now) result ≡ slot_along (globals_in table.now).structs (slot_of (types_of table.now) part.entry) (map name_of path.now) }
{
    let Some((name, rest)) = path.split_first() else {
        return part;
    };
    match field_slot(table, part, name.bytes.as_slice()) {
        Some(field) => slot_along(table, field, rest),
        None => Slot {
            from: part.from,
            kind: ValueType::Int,
        },
    }
}

/// The field at the end of a path of names in a value of this type.
pub fn slot_in<'t>(table: &TypeTable<'t>, kind: ValueType<'t>, path: &[Name]) -> Slot<'t>
    ensures { slot_of (types_of table.now) result ≡ slot_along (globals_in table.now).structs (slot 0 (kind_of (types_of table.now) kind.entry)) (map name_of path.now) }
{
    let _words = words_of(table, kind);
    slot_along(table, Slot { from: 0, kind }, path)
}

/// The words of a part.
pub fn words_at(
    alloc: Global,
    table: &TypeTable<'_>,
    part: Slot<'_>,
    words: &[Word],
) -> Result<Vec<Word>, AllocError>
    ensures { IfOk result (λ v. v.items ≡ words_at (globals_in table.now).structs (slot_of (types_of table.now) part.entry) words.now) }
{
    let count = words_in(table, part.kind);
    let rest = if part.from < words.len() {
        &words[part.from..]
    } else {
        &[]
    };
    if count < rest.len() {
        Vec::from_slice(alloc, &rest[..count])
    } else {
        Vec::from_slice(alloc, rest)
    }
}

/// The field of this name in a value of this type.
pub fn selected(
    alloc: Global,
    table: &TypeTable<'_>,
    kind: ValueType<'_>,
    name: &[u8],
    words: &[Word],
) -> Result<Vec<Word>, AllocError>
    ensures { IfOk result (λ v. v.items ≡ words_at (globals_in table.now).structs (field_slot (globals_in table.now).structs (slot 0 (kind_of (types_of table.now) kind.entry)) name.now) words.now) }
{
    let _words = words_of(table, kind);
    match field_slot(table, Slot { from: 0, kind }, name) {
        Some(field) => words_at(alloc, table, field, words),
        None => {
            let first = Slot {
                from: 0,
                kind: ValueType::Int,
            };
            words_at(alloc, table, first, words)
        }
    }
}
