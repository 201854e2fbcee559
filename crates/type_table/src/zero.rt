//! The words of values, and zero values.

ghost use Rattle.std.specs.Prelude.{◌≡◌, ◌++◌, ◌+◌, ◌≤◌, Some, IfOk, length, map};
ghost use Rattle.arrayvec.specs.ArrayVec.{array_vec_len};
ghost use Rattle.type_table.specs.Containment.{fields_parts, kind_parts, parts, parts_within};
ghost use Rattle.type_table.specs.Views.{field_in, kind_of};
ghost use Rattle.type_table.specs.Visible.{globals_in, types_of};
ghost use Rattle.type_table.specs.Zeros.{zero_word, zero_words};

use crate::entry::FieldEntry;
use crate::layout::entry_at;
use crate::table::TypeTable;
use crate::value_type::ValueType;
use arrayvec::ArrayVec;
use std::alloc::{AllocError, Global};
use word::limits::MAX_WORDS;
use word::value::{Item, Word};

/// Appends the types of the words of a value to `parts`. Structs contain one another less than `depth` deep.
#[cycle(put_parts)]
fn put_parts<'t, 'a, 'p>(
    table: &'t TypeTable<'a>,
    kind: ValueType<'a>,
    depth: usize,
    parts: &'p mut ArrayVec<ValueType<'a>, MAX_WORDS>,
)
    requires { array_vec_len parts.old + length (kind_parts (parts_within (globals_in table.now).structs depth) (Some (kind_of (types_of table.now) kind))) ≤ MAX_WORDS }
    ensures { map (kind_of (types_of table.now)) parts.new.items ≡ map (kind_of (types_of table.now)) parts.old.items ++ kind_parts (parts_within (globals_in table.now).structs depth) (Some (kind_of (types_of table.now) kind.entry)) }
{
    match kind {
        ValueType::Struct(number) if 0 < depth => match entry_at(table, number) {
            Some(entry) => put_fields(table, entry.fields.as_slice(), depth - 1, parts),
            None => {}
        },
        ValueType::Struct(_) => {}
        _ => parts.push(kind),
    }
}

/// Appends the types of the words of the values of fields, one after the other.
#[cycle(put_parts)]
fn put_fields<'t, 'f, 'a, 'p>(
    table: &'t TypeTable<'a>,
    fields: &'f [FieldEntry<'a>],
    depth: usize,
    parts: &'p mut ArrayVec<ValueType<'a>, MAX_WORDS>,
)
    requires { array_vec_len parts.old + length (fields_parts (parts_within (globals_in table.now).structs depth) (map (field_in (types_of table.now)) fields.now)) ≤ MAX_WORDS }
    ensures { map (kind_of (types_of table.now)) parts.new.items ≡ map (kind_of (types_of table.now)) parts.old.items ++ fields_parts (parts_within (globals_in table.now).structs depth) (map (field_in (types_of table.now)) fields.now) }
{
    for field in fields {
        put_parts(table, field.kind, depth, parts);
    }
}

/// The types of the words of a value, in order: `int`, `bool` and channels.
fn parts_in<'a>(table: &TypeTable<'a>, kind: ValueType<'a>) -> ArrayVec<ValueType<'a>, MAX_WORDS>
    ensures { map (kind_of (types_of table.now)) result.items ≡ parts (globals_in table.now).structs (kind_of (types_of table.now) kind.entry) }
{
    let mut all = ArrayVec::new();
    put_parts(table, kind, table.structs.len() + 1, &mut all);
    all
}

/// The types of the words of a value, in order: `int`, `bool` and channels, at most 16.
pub fn parts<'a>(
    alloc: Global,
    table: &TypeTable<'a>,
    kind: ValueType<'a>,
) -> Result<Vec<ValueType<'a>>, AllocError>
    ensures { IfOk result (λ all. map (kind_of (types_of table.now)) all.items ≡ parts (globals_in table.now).structs (kind_of (types_of table.now) kind.entry)) }
{
    let all = parts_in(table, kind);
    Vec::from_slice(alloc, all.as_slice())
}

/// The zero value of a type that takes one word.
fn zero_word(kind: ValueType<'_>) -> Word
    ensures { (types : _) → result ≡ zero_word (kind_of types kind.entry) }
{
    match kind {
        ValueType::Bool => Word::Bool(false),
        ValueType::Channel(..) => Word::Chan(None),
        _ => Word::Int(0),
    }
}

/// The zero value of a type ("The zero value").
pub fn zero(alloc: Global, table: &TypeTable<'_>, kind: ValueType<'_>) -> Item
    ensures { result ≡ zero_words (globals_in table.now).structs (kind_of (types_of table.now) kind.entry) }
{
    let all = parts_in(table, kind);
    let mut words = ArrayVec::<Word, MAX_WORDS>::new();
    for part in all.as_slice() {
        words.push(zero_word(*part));
    }
    Item::new(alloc, words.as_slice())
}
