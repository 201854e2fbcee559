//! What is declared in a file.

ghost use Rattle.std.specs.Prelude.{◌≡◌, ℕ, suc, ◌≤◌, Some, slice_get, length, All};
ghost use Rattle.type_table.specs.Types.{StructType};
ghost use Rattle.type_table.specs.Containment.{width};
ghost use Rattle.type_table.specs.Views.{names_of, structs_of, function_names, AreWidths};
ghost use Rattle.type_table.specs.Marks.{IsWide};

use crate::entry::{FunctionEntry, StructEntry};
use crate::name_list::NameList;
use crate::value_type::ValueType;

/// The struct types of a file and the widths of their values in words, and its functions: each has a number, which is its
/// index among those of its kind. No struct contains itself, and none is wider than 16 words.
pub struct TypeTable<'a> {
    pub structs: Vec<StructEntry<'a>>,
    pub functions: Vec<FunctionEntry<'a>>,
    widths: Vec<usize>,
    types: NameList<'a>,
    callees: NameList<'a>,
    ghost named: { names_of structs.items ≡ types },
    ghost called: { function_names functions.items ≡ callees },
    ghost sized: { AreWidths (structs_of (names_of structs.items) structs.items) widths.items },
    ghost narrow: { All (λ w. w ≤ 16) widths.items },
}

impl Drop for TypeTable<'_> {
    fn drop(self) {
        let TypeTable {
            structs,
            functions,
            widths,
            types,
            callees,
        } = self;
        drop(structs);
        drop(functions);
        drop(widths);
        drop(types);
        drop(callees);
    }
}

impl<'a> TypeTable<'a> {
    /// The table of these declarations; `types`, `callees` and `widths` are their names and widths.
    pub fn new(
        structs: Vec<StructEntry<'a>>,
        types: NameList<'a>,
        widths: Vec<usize>,
        functions: Vec<FunctionEntry<'a>>,
        callees: NameList<'a>,
    ) -> TypeTable<'a>
        requires named { names_of structs.items ≡ types }
        requires called { function_names functions.items ≡ callees }
        requires count { length widths.items ≡ length structs.items }
        requires wide { (s w : ℕ) → slice_get widths.items s ≡ Some w → IsWide (structs_of (names_of structs.items) structs.items) (suc (length structs.items)) s w }
        requires narrow { All (λ w. w ≤ 16) widths.items }
        ensures structs { result.structs.items ≡ structs.entry.items }
        ensures functions { result.functions.items ≡ functions.entry.items }
    {
        TypeTable {
            structs,
            functions,
            widths,
            types,
            callees,
        }
    }

    /// The names of the struct types, by their numbers.
    pub fn types(&self) -> &NameList<'a>
        ensures { result.now ≡ names_of self.now.structs.items }
    {
        &self.types
    }

    /// The names of the functions, by their numbers.
    pub fn callees(&self) -> &NameList<'a>
        ensures { result.now ≡ function_names self.now.functions.items }
    {
        &self.callees
    }

    /// The words of a value of the struct with this number.
    pub fn width(&self, number: usize) -> usize
        ensures width { width (structs_of (names_of self.now.structs.items) self.now.structs.items) (StructType number) ≡ Some result }
        ensures narrow { result ≤ 16 }
    {
        match self.widths.get(number) {
            Some(words) => *words,
            None => 0,
        }
    }
}
