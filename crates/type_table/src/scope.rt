//! Variables, and in which scopes they are visible.

ghost use Rattle.std.specs.Prelude.{◌≡◌, ◌-◌, ◌++◌, ◌∷◌, ℕ, [], Some, option_map, slice_get, length, map, take, drop, OnOk};
ghost use Rattle.syntax.specs.View.{name_of};
ghost use Rattle.type_table.specs.declared.visible.Entry.{Entry as OneEntry};
ghost use Rattle.type_table.specs.declared.table.TypeTable.{TypeTable as OneTable};
ghost use Rattle.type_table.specs.Containment.{variable_words};
ghost use Rattle.type_table.specs.Scopes.{is_blank, is_truth, is_nil, is_reserved, last_named, variable_named, own_variable, entered, declared, nothing_declared};
ghost use Rattle.type_table.specs.Views.{kind_of};
ghost use Rattle.type_table.specs.Visible.{types_of, globals_in, variable_of, scope_of, Keeps};

use crate::layout::words_of;
use crate::name_index::NameIndex;
use crate::table::TypeTable;
use crate::value_type::ValueType;
pub use crate::visible::{Entry, Visible};
use go_text::is_word;
use std::alloc::{AllocError, Global};
use syntax::Name;

impl<'a> Visible<'a> {
    /// No variables.
    pub fn new(alloc: Global) -> Visible<'a>
        ensures entries { result.entries.items ≡ [] }
        ensures scope { (table : OneTable) → scope_of table result ≡ nothing_declared }
    {
        Visible {
            entries: Vec::new(alloc),
            outer: 0,
            words: 0,
            last: NameIndex::new(alloc),
        }
    }
}

/// Whether this is the name that declares nothing.
pub fn is_blank(name: &[u8]) -> bool
    ensures { result ≡ is_blank name.now }
{
    name == b"_".as_slice()
}

/// Whether this is a truth value's name.
pub fn is_truth(name: &[u8]) -> bool
    ensures { result ≡ is_truth name.now }
{
    name == b"true".as_slice() || name == b"false".as_slice()
}

/// Whether this is the word `nil`.
pub fn is_nil(name: &[u8]) -> bool
    ensures { result ≡ is_nil name.now }
{
    name == b"nil".as_slice()
}

/// Whether a name is never declared.
pub fn is_reserved(name: &[u8]) -> bool
    ensures { result ≡ is_reserved name.now }
{
    is_word(name, b"int")
        || is_word(name, b"bool")
        || is_word(name, b"true")
        || is_word(name, b"false")
        || is_word(name, b"nil")
        || is_word(name, b"make")
        || is_word(name, b"len")
        || is_word(name, b"cap")
        || is_word(name, b"close")
        || is_word(name, b"print")
        || is_word(name, b"println")
        || is_word(name, b"init")
}

/// The variable at index `place` of those that are visible.
fn entry_at<'a>(visible: &Visible<'a>, place: usize) -> Option<Entry<'a>>
    ensures { result ≡ slice_get visible.now.entries.items place }
{
    visible.entries.get(place).copied()
}

/// The last variable of this name, if it was declared after the first `count`.
fn last_from<'a>(
    table: &TypeTable<'a>,
    visible: &Visible<'a>,
    name: &[u8],
    count: usize,
) -> Option<Entry<'a>>
    ensures { option_map (variable_of (types_of table.now)) result ≡ last_named (drop count (map (variable_of (types_of table.now)) visible.now.entries.items)) name.now }
{
    match visible.last.number_of(name) {
        Some(place) if place >= count => entry_at(visible, place),
        _ => None,
    }
}

/// The variable that a name stands for; `_` stands for none.
pub fn variable_named<'a>(
    table: &TypeTable<'a>,
    visible: &Visible<'a>,
    name: &[u8],
) -> Option<Entry<'a>>
    ensures { option_map (variable_of (types_of table.now)) result ≡ variable_named (scope_of table.now visible.now) name.now }
{
    if is_blank(name) {
        return None;
    }
    last_from(table, visible, name, 0)
}

/// The variable of this name that was declared in the innermost block.
pub fn own_variable<'a>(
    table: &TypeTable<'a>,
    visible: &Visible<'a>,
    name: &[u8],
) -> Option<Entry<'a>>
    ensures { option_map (variable_of (types_of table.now)) result ≡ own_variable (scope_of table.now visible.now) name.now }
{
    if is_blank(name) {
        return None;
    }
    last_from(table, visible, name, visible.outer)
}

/// Appends a variable to those that are visible.
fn put<'a>(
    visible: &mut Visible<'a>,
    kind: ValueType<'a>,
    place: usize,
    name: &'a Name,
) -> Result<(), AllocError>
    ensures entries { OnOk result ((entry : OneEntry) × (visible.new.entries.items ≡ visible.old.entries.items ++ entry ∷ []) × (entry.name ≡ name.entry) × (entry.kind ≡ kind.entry) × (entry.place ≡ place)) }
    ensures outer { visible.new.outer ≡ visible.old.outer }
    ensures words { visible.new.words ≡ visible.old.words }
{
    let count = visible.entries.len();
    let bytes = name.bytes.as_slice();
    let hides = visible.last.number_of(bytes);
    visible.last.set(bytes, count)?;
    let entry = Entry {
        name,
        kind,
        place,
        hides,
    };
    match visible.entries.push(entry) {
        Ok(()) => Ok(()),
        Err(_) => {
            visible.last.restore(bytes, hides);
            Err(AllocError)
        }
    }
}

/// Declares a variable.
///
/// Errors: out of memory, and a frame of over 2^64 words.
pub fn declare<'a>(
    table: &TypeTable<'a>,
    visible: &mut Visible<'a>,
    kind: ValueType<'a>,
    name: &'a Name,
) -> Result<(), AllocError>
    ensures after { OnOk result (scope_of table.now visible.new ≡ declared (globals_in table.now).structs (scope_of table.now visible.old) (Some (kind_of (types_of table.now) kind.entry)) (name_of name.now)) }
    ensures kept { OnOk result (Keeps visible.old visible.new) }
{
    let place = visible.words;
    let words = place.checked_add(words_of(table, kind)).ok_or(AllocError)?;
    put(visible, kind, place, name)?;
    visible.words = words;
    Ok(())
}

/// A block begins.
pub fn enter(visible: &mut Visible<'_>)
    ensures entries { visible.new.entries.items ≡ visible.old.entries.items }
    ensures outer { visible.new.outer ≡ length visible.old.entries.items }
    ensures words { visible.new.words ≡ visible.old.words }
    ensures scope { (table : OneTable) → scope_of table visible.new ≡ entered (scope_of table visible.old) }
{
    visible.outer = visible.entries.len();
}

/// The last variable is not visible any more, and the one that it hid is visible again.
fn forget_last(visible: &mut Visible<'_>)
    ensures entries { visible.new.entries.items ≡ take (length visible.old.entries.items - 1) visible.old.entries.items }
    ensures outer { visible.new.outer ≡ visible.old.outer }
    ensures words { visible.new.words ≡ visible.old.words }
{
    if let Some(entry) = visible.entries.pop() {
        visible
            .last
            .restore(entry.name.bytes.as_slice(), entry.hides);
    }
}

/// A block has ended: `count` variables are visible again, of which `outer` were declared outside of the innermost block.
pub fn leave(visible: &mut Visible<'_>, count: usize, outer: usize)
    ensures entries { visible.new.entries.items ≡ take count visible.old.entries.items }
    ensures outer { visible.new.outer ≡ outer }
    ensures words { visible.new.words ≡ visible.old.words }
{
    while visible.entries.len() > count {
        forget_last(visible);
    }
    visible.outer = outer;
}
