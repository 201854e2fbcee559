//! Numbers that are found by names.

ghost use Rattle.std.specs.Prelude.{◌≡◌, ℕ, List, Some, None, bytes_eq, OnOk, OnErr};
ghost use Rattle.std.specs.Map.{update};
ghost use Rattle.type_table.specs.Indexes.{number_in};

use std::alloc::{AllocError, Global};
use std::collections::HashMap;

/// A number for each of some names.
#[derive(Drop)]
pub(crate) struct NameIndex<'a> {
    numbers: HashMap<&'a [u8], usize>,
}

impl<'a> NameIndex<'a> {
    /// No names.
    pub(crate) fn new(alloc: Global) -> NameIndex<'a>
        ensures { (name : List ℕ) → number_in result name ≡ None }
    {
        NameIndex {
            numbers: HashMap::new(alloc),
        }
    }

    /// The number of a name.
    pub(crate) fn number_of(&self, name: &[u8]) -> Option<usize>
        ensures { result ≡ number_in self.now name.now }
    {
        self.numbers.get(name).copied()
    }

    /// Gives a name this number.
    pub(crate) fn set(&mut self, name: &'a [u8], number: usize) -> Result<(), AllocError>
        ensures set { OnOk result ((other : List ℕ) → number_in self.new other ≡ update bytes_eq (number_in self.old) name.now (Some number) other) }
        ensures err { OnErr result ((other : List ℕ) → number_in self.new other ≡ number_in self.old other) }
    {
        self.numbers.insert(name, number)?;
        Ok(())
    }

    /// Gives a name, which has a number, the one that it had before, if it had one.
    pub(crate) fn restore(&mut self, name: &[u8], number: Option<usize>)
        requires known { (found : ℕ) × (number_in self.old name.now ≡ Some found) }
        ensures { (other : List ℕ) → number_in self.new other ≡ update bytes_eq (number_in self.old) name.now number other }
    {
        match number {
            None => {
                self.numbers.remove(name);
            }
            Some(number) => {
                if let Some(slot) = self.numbers.get_mut(name) {
                    *slot = number;
                }
            }
        }
    }
}
