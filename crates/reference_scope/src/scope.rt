//! The variables of a function, by name and in blocks.

ghost use Rattle.std.specs.Option.{is_some, option_copied};
ghost use Rattle.std.specs.Prelude.{◌≡◌, ◌++◌, ℕ, List, OnOk, IfOk, map, option_map};
ghost use Rattle.meaning.specs.Variables.{in_block, innermost, lookup, entered, left, declare, assign, assign_in};
ghost use Rattle.meaning.specs.Values.{written};
ghost use Rattle.reference_scope.specs.Scopes.{binding_of, newest_first, innermost_first, blocks_of};

use crate::words::put_last;
use std::alloc::{AllocError, Global};
use type_table::value_type::ValueType;
use word::value::Word;

/// A variable with its type and the words that it holds.
pub struct Variable<'t> {
    pub name: &'t [u8],
    pub kind: ValueType<'t>,
    pub words: Vec<Word>,
}

impl Drop for Variable<'_> {
    fn drop(self) {
        let Variable {
            name: _,
            kind: _,
            words,
        } = self;
        drop(words);
    }
}

/// The variables of a block, the newest one last.
pub struct Block<'t> {
    pub variables: Vec<Variable<'t>>,
}

impl Drop for Block<'_> {
    fn drop(self) {
        let Block { variables } = self;
        drop(variables);
    }
}

/// The blocks round a statement, the innermost one last.
pub struct Scope<'t> {
    pub blocks: Vec<Block<'t>>,
}

impl Drop for Scope<'_> {
    fn drop(self) {
        let Scope { blocks } = self;
        drop(blocks);
    }
}

/// The variable of this name, the newest one if there are more.
#[tactic(auto, using(crate::proofs::Newer::shown_take))]
fn find<'a, 't>(variables: &'a [Variable<'t>], name: &[u8]) -> Option<&'a Variable<'t>>
    ensures { (types : List (List ℕ)) → option_map (binding_of types) (option_copied result) ≡ in_block (newest_first types variables.now) name.now }
{
    let mut left = variables.len();
    while left > 0 {
        left -= 1;
        if variables[left].name == name {
            return Some(&variables[left]);
        }
    }
    None
}

/// The variable of this name in the innermost of these blocks that has one.
#[tactic(auto, using(crate::proofs::Lasts::shown_last))]
fn find_in<'a, 't>(blocks: &'a [Block<'t>], name: &[u8]) -> Option<&'a Variable<'t>>
    ensures { (types : List (List ℕ)) → option_map (binding_of types) (option_copied result) ≡ lookup (innermost_first types blocks.now) name.now }
{
    match blocks.split_last() {
        None => None,
        Some((last, outer)) => match find(last.variables.as_slice(), name) {
            Some(variable) => Some(variable),
            None => find_in(outer, name),
        },
    }
}

/// The words of `old`, with `new` written over them from `from` on.
fn written(alloc: Global, from: usize, new: &[Word], old: &[Word]) -> Result<Vec<Word>, AllocError>
    ensures { IfOk result (λ v. v.items ≡ written from new.now old.now) }
{
    let mut words = Vec::new(alloc);
    if from < old.len() {
        words.extend_from_slice(&old[..from])?;
        words.extend_from_slice(new)?;
        if new.len() < old.len() - from {
            words.extend_from_slice(&old[from + new.len()..])?;
        }
    } else {
        words.extend_from_slice(old)?;
        words.extend_from_slice(new)?;
    }
    Ok(words)
}

/// The variable, with these words from `from` on.
fn changed<'t>(
    alloc: Global,
    mut variable: Variable<'t>,
    from: usize,
    words: &[Word],
) -> Result<Variable<'t>, AllocError>
    ensures { (types : List (List ℕ)) → IfOk result (λ v. binding_of types v ≡ record (binding_of types variable.entry) { value = written from words.now (binding_of types variable.entry).value }) }
{
    variable.words = written(alloc, from, words, variable.words.as_slice())?;
    Ok(variable)
}

/// Puts variables back, the last one first.
fn put_back<'t>(
    variables: &mut Vec<Variable<'t>>,
    mut newer: Vec<Variable<'t>>,
) -> Result<(), AllocError>
    ensures { (types : List (List ℕ)) → OnOk result (newest_first types variables.new.items ≡ map (binding_of types) newer.entry.items ++ newest_first types variables.old.items) }
{
    while let Some(variable) = newer.pop() {
        put_last(variables, variable)?;
    }
    Ok(())
}

/// Gives the variable of this name, the newest one if there are more, these words from `from` on.
fn put_in(
    alloc: Global,
    variables: &mut Vec<Variable<'_>>,
    name: &[u8],
    from: usize,
    words: &[Word],
) -> Result<(), AllocError>
    ensures { (types : List (List ℕ)) → OnOk result (newest_first types variables.new.items ≡ assign_in name.now from words.now (newest_first types variables.old.items)) }
{
    let mut newer = Vec::new(alloc);
    while let Some(variable) = variables.pop() {
        if variable.name == name {
            put_last(variables, changed(alloc, variable, from, words)?)?;
            return put_back(variables, newer);
        }
        put_last(&mut newer, variable)?;
    }
    put_back(variables, newer)
}

/// Gives the variable of this name in the innermost block that has one these words from `from` on.
#[tactic(auto, using(crate::proofs::Lasts::shown_last))]
fn put(
    alloc: Global,
    blocks: &mut Vec<Block<'_>>,
    name: &[u8],
    from: usize,
    words: &[Word],
) -> Result<(), AllocError>
    ensures { (types : List (List ℕ)) → OnOk result (innermost_first types blocks.new.items ≡ assign name.now from words.now (innermost_first types blocks.old.items)) }
{
    let Some(mut block) = blocks.pop() else {
        return Ok(());
    };
    if find(block.variables.as_slice(), name).is_some() {
        put_in(alloc, &mut block.variables, name, from, words)?;
    } else {
        put(alloc, blocks, name, from, words)?;
    }
    put_last(blocks, block)?;
    Ok(())
}

impl<'t> Scope<'t> {
    /// The variable of this name: that of the innermost block which has one.
    pub fn lookup(&self, name: &[u8]) -> Option<&Variable<'t>>
        ensures { (types : List (List ℕ)) → option_map (binding_of types) (option_copied result) ≡ lookup (blocks_of types self.now) name.now }
    {
        find_in(self.blocks.as_slice(), name)
    }

    /// The variable of this name that the innermost block has.
    #[tactic(auto, using(crate::proofs::Lasts::shown_last))]
    pub fn own(&self, name: &[u8]) -> Option<&Variable<'t>>
        ensures { (types : List (List ℕ)) → option_map (binding_of types) (option_copied result) ≡ in_block (innermost (blocks_of types self.now)) name.now }
    {
        match self.blocks.as_slice().split_last() {
            None => None,
            Some((block, _)) => find(block.variables.as_slice(), name),
        }
    }

    /// Enters a block.
    #[tactic(auto, using(crate::proofs::Lasts::shown_last))]
    pub fn enter(&mut self, alloc: Global) -> Result<(), AllocError>
        ensures { (types : List (List ℕ)) → OnOk result (blocks_of types self.new ≡ entered (blocks_of types self.old)) }
    {
        let block = Block {
            variables: Vec::new(alloc),
        };
        put_last(&mut self.blocks, block)?;
        Ok(())
    }

    /// Leaves the innermost block.
    #[tactic(auto, using(crate::proofs::Lasts::shown_last))]
    pub fn leave(&mut self)
        ensures { (types : List (List ℕ)) → blocks_of types self.new ≡ left (blocks_of types self.old) }
    {
        let _ = self.blocks.pop();
    }

    /// Declares a variable in the innermost block.
    #[tactic(auto, using(crate::proofs::Lasts::shown_last))]
    pub fn declare(&mut self, alloc: Global, variable: Variable<'t>) -> Result<(), AllocError>
        ensures { (types : List (List ℕ)) → OnOk result (blocks_of types self.new ≡ declare (binding_of types variable.entry) (blocks_of types self.old)) }
    {
        let mut block = match self.blocks.pop() {
            Some(block) => block,
            None => Block {
                variables: Vec::new(alloc),
            },
        };
        put_last(&mut block.variables, variable)?;
        put_last(&mut self.blocks, block)?;
        Ok(())
    }

    /// Gives the variable of this name these words from `from` on.
    pub fn assign(
        &mut self,
        alloc: Global,
        name: &[u8],
        from: usize,
        words: &[Word],
    ) -> Result<(), AllocError>
        ensures { (types : List (List ℕ)) → OnOk result (blocks_of types self.new ≡ assign name.now from words.now (blocks_of types self.old)) }
    {
        put(alloc, &mut self.blocks, name, from, words)
    }
}
