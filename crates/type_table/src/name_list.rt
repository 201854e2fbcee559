//! Lists of names that are found by their bytes.

ghost use Rattle.std.specs.Prelude.{◌≡◌, ℕ, List, [], ◌∷◌, ◌++◌, map, OnOk, OnErr};
ghost use Rattle.syntax.specs.View.{name_of};
ghost use Rattle.syntax.specs.declared.node.Name.{Name as OneName};
ghost use Rattle.type_table.specs.Scopes.{number_of};
ghost use Rattle.type_table.specs.Indexes.{number_in};
ghost use denote.Ref.{Bor};

use crate::name_index::NameIndex;
use std::alloc::{AllocError, Global};
use std::marker::Model;
use syntax::Name;

/// Names in the order in which they were declared.
pub struct NameList<'a> {
    names: Vec<&'a Name>,
    /// For each name, the first of them that is the same.
    first: NameIndex<'a>,
    ghost found: { (name : List ℕ) → number_in first name ≡ number_of (map (λ (one : Bor OneName). name_of one.now) names.items) name },
}

impl Drop for NameList<'_> {
    fn drop(self) {
        let NameList { names, first } = self;
        drop(names);
        drop(first);
    }
}

impl<'a> Model for NameList<'a> {
    ghost use Rattle.std.specs.Prelude.{ℕ, List, map};
    ghost use Rattle.syntax.specs.View.{name_of};
    ghost use Rattle.syntax.specs.declared.node.Name.{Name as OneName};
    ghost use denote.Ref.{Bor};

    ghost Value = { List (List ℕ) };

    ghost view = { λ list. map (λ (name : Bor OneName). name_of name.now) list.names.items };
}

impl<'a> NameList<'a> {
    /// No names.
    pub fn new(alloc: Global) -> NameList<'a>
        ensures { result ≡ [] }
    {
        NameList {
            names: Vec::new(alloc),
            first: NameIndex::new(alloc),
        }
    }

    /// Puts a name at the end.
    pub fn push(&mut self, name: &'a Name) -> Result<(), AllocError>
        ensures pushed { OnOk result (self.new ≡ self.old ++ name_of name.now ∷ []) }
        ensures err { OnErr result (self.new ≡ self.old) }
    {
        let number = self.names.len();
        let bytes = name.bytes.as_slice();
        self.names.push(name)?;
        if self.first.number_of(bytes).is_some() {
            return Ok(());
        }
        match self.first.set(bytes, number) {
            Ok(()) => Ok(()),
            Err(error) => {
                self.names.pop();
                Err(error)
            }
        }
    }

    /// The number of the first one of these bytes.
    pub fn number_of(&self, name: &[u8]) -> Option<usize>
        ensures { result ≡ number_of self.now name.now }
    {
        self.first.number_of(name)
    }
}
