//! Which variables are visible.

ghost use Rattle.std.specs.Prelude.{◌≡◌, ℕ, List, Some, slice_get, take};
ghost use Rattle.syntax.specs.View.{name_of};
ghost use Rattle.type_table.specs.Indexes.{number_in, last_place, entry_names};
ghost use Rattle.type_table.specs.declared.visible.Entry.{Entry as OneEntry};

use crate::name_index::NameIndex;
use crate::value_type::ValueType;
use syntax::Name;

/// A variable: its name, its type, and the first of its words in the frame of its function.
#[derive(Clone, Copy)]
pub struct Entry<'a> {
    pub name: &'a Name,
    pub kind: ValueType<'a>,
    pub place: usize,
    /// The index of the visible variable of the same name that it hides.
    pub hides: Option<usize>,
}

/// The variables that are visible, in the order of their declarations.
pub struct Visible<'a> {
    pub entries: Vec<Entry<'a>>,
    /// How many of them were declared outside of the innermost block.
    pub outer: usize,
    /// How many words of the frame are taken, also by variables of blocks that have ended.
    pub words: usize,
    /// For each name, the last variable that has it.
    pub(crate) last: NameIndex<'a>,
    ghost found: { (name : List ℕ) → number_in last name ≡ last_place (entry_names entries.items) name },
    ghost hidden: { (place : ℕ) (entry : OneEntry) → slice_get entries.items place ≡ Some entry → entry.hides ≡ last_place (take place (entry_names entries.items)) (name_of entry.name.now) },
}

impl Drop for Visible<'_> {
    fn drop(self) {
        let Visible {
            entries,
            outer: _,
            words: _,
            last,
        } = self;
        drop(entries);
        drop(last);
    }
}
