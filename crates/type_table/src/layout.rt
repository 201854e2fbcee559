//! The words of the fields of a value, and how many words it takes.

ghost use Rattle.std.specs.Prelude.{◌≡◌, ◌≤◌, Some, option_map, option_copied, slice_get, IfSome, map};
ghost use Rattle.type_table.specs.Containment.{variable_words, field_among, field_of};
ghost use Rattle.type_table.specs.Scopes.{number_of, function_number};
ghost use Rattle.type_table.specs.Views.{kind_of, field_in, Fits};
ghost use Rattle.type_table.specs.Visible.{types_of, globals_in, selected_of};

use crate::entry::{FieldEntry, StructEntry};
use crate::table::TypeTable;
use crate::value_type::ValueType;

/// A part of a value: its first word, and its type.
#[derive(Clone, Copy)]
pub struct Selected<'a> {
    pub place: usize,
    pub kind: ValueType<'a>,
}

/// The number of the struct type of this name.
pub fn number_of(table: &TypeTable<'_>, name: &[u8]) -> Option<usize>
    ensures { result ≡ number_of (types_of table.now) name.now }
{
    table.types().number_of(name)
}

/// The number of the function of this name.
#[tactic(auto, using(crate::proofs::Tables::function_named))]
pub fn function_number(table: &TypeTable<'_>, name: &[u8]) -> Option<usize>
    ensures { result ≡ function_number (globals_in table.now).functions name.now }
{
    table.callees().number_of(name)
}

/// How many words a variable of this type takes: at most 16.
pub fn words_of(table: &TypeTable<'_>, kind: ValueType<'_>) -> usize
    ensures words { result ≡ variable_words (globals_in table.now).structs (Some (kind_of (types_of table.now) kind.entry)) }
    ensures narrow { result ≤ 16 }
{
    match kind {
        ValueType::Struct(number) => table.width(number),
        _ => 1,
    }
}

/// The field of this name among those of a struct.
fn field_among<'a>(
    table: &TypeTable<'a>,
    fields: &[FieldEntry<'a>],
    name: &[u8],
) -> Option<Selected<'a>>
    requires { Fits (globals_in table.now).structs (map (field_in (types_of table.now)) fields.now) 0 }
    ensures field { option_map (selected_of (types_of table.now)) result ≡ field_among (globals_in table.now).structs (map (field_in (types_of table.now)) fields.now) name.now }
    ensures within { IfSome result (λ field. field.place ≤ 16) }
{
    let mut place = 0;
    for field in fields {
        if field.name.bytes.as_slice() == name {
            return Some(Selected {
                place,
                kind: field.kind,
            });
        }
        place += words_of(table, field.kind);
    }
    None
}

/// The struct with this number.
pub(crate) fn entry_at<'t, 'a>(
    table: &'t TypeTable<'a>,
    number: usize,
) -> Option<&'t StructEntry<'a>>
    ensures { option_copied result ≡ slice_get table.now.structs.items number }
{
    table.structs.get(number)
}

/// The field of this name in a value of this type.
pub fn field_of<'a>(table: &TypeTable<'a>, kind: ValueType<'_>, name: &[u8]) -> Option<Selected<'a>>
    ensures field { option_map (selected_of (types_of table.now)) result ≡ field_of (globals_in table.now).structs (kind_of (types_of table.now) kind.entry) name.now }
    ensures within { IfSome result (λ field. field.place ≤ 16) }
{
    match kind {
        ValueType::Struct(number) => match entry_at(table, number) {
            Some(entry) => field_among(table, entry.fields.as_slice(), name),
            None => None,
        },
        _ => None,
    }
}
