//! A checked tree.

ghost use Rattle.std.specs.Prelude.{◌≡◌, ◌^◌, ◌<◌, IfOk};
ghost use Rattle.syntax.specs.Measures.{size};
ghost use Rattle.syntax.specs.Spans.{tree_of};
ghost use Rattle.typing_rules.specs.Files.{IsTyped};

use checker_base::refusal::Refusal;
use checker_declaration::table::table_of;
use std::alloc::{AllocError, Global};
use syntax::Tree;
use type_table::table::TypeTable;

/// A tree that violates no typing rule and exceeds no limit.
pub struct Typed {
    tree: Tree,
    ghost typed: { IsTyped (tree_of tree) },
}

impl Drop for Typed {
    fn drop(self) {
        let Typed { tree } = self;
        drop(tree);
    }
}

impl Typed {
    ghost use Rattle.type_table.specs.Visible.{globals_in};
    ghost use Rattle.typing_rules.specs.Kinds.{globals_of};
    ghost use Rattle.checker.specs.Trees.{tree_in};

    /// A tree that breaks no typing rule and exceeds no limit.
    pub(crate) fn new(tree: Tree) -> Typed
        requires typed { IsTyped (tree_of tree) }
        ensures { tree_in result ≡ tree }
    {
        Typed { tree }
    }

    /// The tree that was checked.
    pub fn tree(&self) -> &Tree
        ensures tree { result.now ≡ tree_in self.now }
        ensures typed { IsTyped (tree_of result.now) }
    {
        &self.tree
    }

    /// The tree that was checked, to be kept.
    pub fn into_tree(self) -> Tree
        ensures tree { result ≡ tree_in self }
        ensures typed { IsTyped (tree_of result) }
    {
        let Typed { tree } = self;
        tree
    }

    /// What the tree's file declares.
    ///
    /// Errors: out of memory.
    pub fn table(&self, alloc: Global) -> Result<TypeTable<'_>, AllocError>
        ensures { IfOk result (λ table. globals_in table ≡ globals_of (tree_of (tree_in self.now)).tops) }
    {
        match table_of(alloc, self.tree.file().tops.as_slice()) {
            Ok(table) => Ok(table),
            Err(Refusal::Memory) => Err(AllocError),
            Err(Refusal::Violated(_)) => unreachable!(),
        }
    }
}
